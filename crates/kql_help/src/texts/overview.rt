//! Which topics and codes there are.

use crate::topic::Topic;

pub(crate) const OVERVIEW: &str = "\
kql help TOPIC tells of one of these; kql --help has the words of the command.

    Commands:    command, show, schema, types, run, plain, explain, trial, live
    Beginners:   examples, cookbook, csv, json, limits
    Queries:     query, literals, let, range, print, union, columns; kusto has what
                 to write for what Kusto has and this language has not
    Operators:   where, extend, project, project-away, project-keep,
                 project-rename, take, limit, count, sort, order, top, distinct,
                 summarize, make-series, mv-expand, parse, join, lookup, union,
                 serialize, scan, partition
    Values:      functions names them all, and of them operators, searches,
                 patterns, nulls, numbers, conversions, strings, datetimes, dynamic,
                 window and aggregates
    Files:       tables, catalogue
    Refusals:    codes names them all, and each code, as kql help 404
";

pub(crate) const CODES: &str = "\
Refusals, told in one line on standard error; kql help CODE has each

    kql: LINE:COLUMN: CODE NAME             the query, of which lines and columns
                                            count from 1; status 1
    kql: word N: CODE NAME                  a word, counted from 0; status 2
    kql: file N: CODE NAME at ROW:COLUMN    a file: 0 is the query file, N that of
                                            the N-th NAME=PATH; row 0 is its
                                            header; status 3

    101 BadCharacter         102 OpenText             103 BadNumber
    104 TextTooLong          105 TooManyTokens        201 Unexpected
    202 TooDeep              203 TooManyOperators
    301 NotUtf8              302 NoHeader             303 BadColumn
    304 ColumnTwice          305 BadLength            306 BadCell
    307 NoFile               308 TooLong              309 NotJson
    310 BadCatalogue         311 BadTableName         312 HeaderDiffers
    313 TooManyFiles         314 CatalogueTooLong     315 SchemaDiffers
    401 UnknownColumn        402 UnknownFunction      403 WrongArguments
    404 WrongType            405 UnsupportedType      406 UnsupportedFunction
    407 NotSerialised        408 WindowHere           409 NoMoment
    410 UnknownTable         411 ColumnTwice          412 TooManyColumns
    413 BadStep              414 BadRange             415 TypeClash
    416 NotInPartition       417 NameTwice            418 BadLiteral
    419 NoColumns            420 PatternHere          421 NotAView
    501 BadPattern
    601 NoCommand            602 UnknownCommand       603 UnknownOption
    604 OptionTwice          605 OptionValue          606 NoQuery
    607 BadTable             608 TableTwice           609 BadCount
    610 TooManyTables        611 EmptyPath            612 NoTable

The first fault counts: of the words, the query's text, the table files, and then
the names and types of the query. Nothing is written to standard output then.
Status 4 is a file that could not be read, 5 an answer that could not be written,
6 no memory.
";

/// The topics of these texts.
pub(crate) const TOPICS: &[Topic] = &[
    Topic {
        names: &["overview", "help"],
        text: OVERVIEW,
    },
    Topic {
        names: &["codes"],
        text: CODES,
    },
];
