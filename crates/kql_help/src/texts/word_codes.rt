//! The codes of the words of the command.

use crate::topic::Topic;

pub(crate) const NO_COMMAND: &str = "\
601 NoCommand

There is no word behind kql.

    kql run QUERY NAME=PATH ..
";

pub(crate) const UNKNOWN_COMMAND: &str = "\
602 UnknownCommand

The first word is not run, plain, explain, trial or live, nor help or --version.

    kql walk q                                 at word 0

Begin with run: kql run QUERY NAME=PATH .. ; kql --help has the words.
";

pub(crate) const UNKNOWN_OPTION: &str = "\
603 UnknownOption

A word that begins with -- is no option there.

    kql run --fast q                           at word 1

Options stand before the query file, or behind the seed of trial.
";

pub(crate) const OPTION_TWICE: &str = "\
604 OptionTwice

The option stood before.

    kql run --workers 2 --workers 2 q          at word 3
";

pub(crate) const OPTION_VALUE: &str = "\
605 OptionValue

The value of the option is missing, or not of its form: 1 to 64, a datetime, or a
size from 1 byte to 1 TiB, as 2GiB.

    kql run --workers 65 q                     at word 2
";

pub(crate) const NO_QUERY: &str = "\
606 NoQuery

There is no word for the query file.

    kql run                                    at word 1
";

pub(crate) const BAD_TABLE: &str = "\
607 BadTable

The word is not NAME=PATH: it has no =, no path, or a name that is no word or is
reserved.

    kql run q T                                at word 2

Options stand in front of the query file, and tables behind it:
kql run --now 2024-01-01 q T=t.csv
";

pub(crate) const TABLE_TWICE: &str = "\
608 TableTwice

The table name stood before.

    kql run q T=a T=b                          at word 3
";

pub(crate) const BAD_COUNT: &str = "\
609 BadCount

The rows or the seed of trial are missing, are not digits, or are above
1,000,000 or 18,446,744,073,709,551,615.

    kql trial 5                                at word 2
";

pub(crate) const TOO_MANY_TABLES: &str = "\
610 TooManyTables

Here stands the 65th table, or a word that is left over behind those of trial.

    kql trial 5 7 9                            at word 3
";

pub(crate) const EMPTY_PATH: &str = "\
611 EmptyPath

A further path of live is the empty word.

    kql live q T=t.csv \"\"                     at word 3

Leave it out, or name the file.
";

pub(crate) const NO_TABLE: &str = "\
612 NoTable

No word of live is left for the opening table.

    kql live q                                 at word 2

It stands behind the query file: kql live q T=t.csv more.csv
";

/// The topics of these texts.
pub(crate) const TOPICS: &[Topic] = &[
    Topic {
        names: &["601"],
        text: NO_COMMAND,
    },
    Topic {
        names: &["602"],
        text: UNKNOWN_COMMAND,
    },
    Topic {
        names: &["603"],
        text: UNKNOWN_OPTION,
    },
    Topic {
        names: &["604"],
        text: OPTION_TWICE,
    },
    Topic {
        names: &["605"],
        text: OPTION_VALUE,
    },
    Topic {
        names: &["606"],
        text: NO_QUERY,
    },
    Topic {
        names: &["607"],
        text: BAD_TABLE,
    },
    Topic {
        names: &["608"],
        text: TABLE_TWICE,
    },
    Topic {
        names: &["609"],
        text: BAD_COUNT,
    },
    Topic {
        names: &["610"],
        text: TOO_MANY_TABLES,
    },
    Topic {
        names: &["611"],
        text: EMPTY_PATH,
    },
    Topic {
        names: &["612"],
        text: NO_TABLE,
    },
];
