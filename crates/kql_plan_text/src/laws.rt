ghost use Rattle.kql_plan_text.specs.ReadBack.{NamesReadBack, StringsReadBack};

/// In the text of a program a string is one string of the language, which holds the text that was printed; and a name is
/// a word that is not reserved, or such a string between square brackets.
pub fn names_and_strings_read_back()
    ensures strings { StringsReadBack }
    ensures names { NamesReadBack }
{}
