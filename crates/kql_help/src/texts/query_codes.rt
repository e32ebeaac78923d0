//! The codes of a query that is refused for its text.

use crate::topic::Topic;

pub(crate) const BAD_CHARACTER: &str = "\
101 BadCharacter

A byte here begins no token, or is not UTF-8, in a string or a comment too.

    T | where x # 5                            at #

Remove it, or save the query file in UTF-8, without a byte order mark. It may be
invisible, as a no-break space. A name that is no word is written ['a b'], and !
before an expression not(..).
";

pub(crate) const OPEN_TEXT: &str = "\
102 OpenText

A string or a literal of a type begins here and is not closed.

    T | where x == \"a                          at \"

Close it on the same line; in a string a quote is written \\\".
";

pub(crate) const BAD_NUMBER: &str = "\
103 BadNumber

A number, a timespan or a string with an escape is not written as one can be.

    5a, 1.5, \"a\\q\"

Numbers are whole, up to 9223372036854775807, and end before a letter; a
fraction needs a timespan's suffix, as 1.5h, and makes whole ticks; escapes are
\\\\ \\\" \\' \\n \\r \\t.
";

pub(crate) const TEXT_TOO_LONG: &str = "\
104 TextTooLong

The query file has more than 262,144 bytes; the place is 1:1.

Make it shorter; data belongs into table files.
";

pub(crate) const TOO_MANY_TOKENS: &str = "\
105 TooManyTokens

Here stands the 65,537th token of the query.

Make the query shorter; data belongs into table files.
";

pub(crate) const UNEXPECTED: &str = "\
201 Unexpected

No query can go on with this word or sign, or end here, after what stands before it.

    T T | count                                at the second T
    T | wher x == 5                            at wher
    T | where x = 5                            at =, where == is meant
    T | where (a                               at the end: 1:13, or 2:1 where a line
                                               feed ends the file

The word itself, or the one before it, may be misspelt, or no operator of the
language: kql help names those, and kql help kusto has what to write for others.
Before it a |, a comma or a bracket may be missing. A reserved word as a name is
written ['by'].
";

pub(crate) const TOO_DEEP: &str = "\
202 TooDeep

Here stands the 65th ( or [ that is open at once.

    print and 65 times (, at 1:71

Name parts by let or by extend.
";

pub(crate) const TOO_MANY_OPERATORS: &str = "\
203 TooManyOperators

Here stands the name of the 257th operator; the sources range, print and union
count too.

Make the query shorter.
";

/// The topics of these texts.
pub(crate) const TOPICS: &[Topic] = &[
    Topic {
        names: &["101"],
        text: BAD_CHARACTER,
    },
    Topic {
        names: &["102"],
        text: OPEN_TEXT,
    },
    Topic {
        names: &["103"],
        text: BAD_NUMBER,
    },
    Topic {
        names: &["104"],
        text: TEXT_TOO_LONG,
    },
    Topic {
        names: &["105"],
        text: TOO_MANY_TOKENS,
    },
    Topic {
        names: &["201"],
        text: UNEXPECTED,
    },
    Topic {
        names: &["202"],
        text: TOO_DEEP,
    },
    Topic {
        names: &["203"],
        text: TOO_MANY_OPERATORS,
    },
];
