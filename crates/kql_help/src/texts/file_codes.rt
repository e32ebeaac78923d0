//! The codes of files.

use crate::topic::Topic;

pub(crate) const NOT_UTF8: &str = "\
301 NotUtf8

The table file is not UTF-8; the row is 0, and the column the number of bytes
before the first that is not.

Save the file in UTF-8.
";

pub(crate) const NO_HEADER: &str = "\
302 NoHeader

The table file has no record; the place is 0:0.

Its first record is the header, as Ts:datetime,Host,Bytes:long.
";

pub(crate) const BAD_COLUMN: &str = "\
303 BadColumn

A field of the header has no name, or a type that the language leaves out (int,
real, double, decimal, guid, date or time), or is the 257th; the row is 0.

Give a name, and bool, long, string, datetime, timespan or dynamic.
";

pub(crate) const COLUMN_TWICE: &str = "\
304 ColumnTwice

A column name of the header stood before; the row is 0.

Give one of them another name.
";

pub(crate) const BAD_LENGTH: &str = "\
305 BadLength

A row has another number of fields than the header; the column is the number of
its fields.

Put a cell that holds a comma or a line end between double quotes. A row is a
record: a quote that is not closed runs to the file's end.
";

pub(crate) const BAD_CELL: &str = "\
306 BadCell

A cell does not read as its column's type.

kql help tables has the forms; an empty cell is null. A column without a type is
one of strings, and tolong(x) is null where a cell does not read.
";

pub(crate) const NO_FILE: &str = "\
307 NoFile

There is no file of this path; file 0 is the query file, and N that of the N-th
word NAME=PATH.

Look at the path. Behind run stands the path of the query's file; a query itself
stands behind -e: kql -e 'T | count' T=t.csv
";

pub(crate) const TOO_LONG: &str = "\
308 TooLong

The table files have more bytes together than --limit says, or more than
67,108,864 where it is not given.

Give --limit 2GiB in front of the query, or leave out rows or columns before.
";

pub(crate) const NOT_JSON: &str = "\
309 NotJson

The catalogue file is no JSON.

Look for a comma or a bracket that is missing, and for quotes that are not double.
More: kql help catalogue
";

pub(crate) const BAD_CATALOGUE: &str = "\
310 BadCatalogue

The catalogue file is JSON, and no catalogue: at 0:0 as a whole, at N:0 its N-th
table.

Each object has exactly the keys that kql help catalogue shows, each once; columns
have names that differ and types of the language, and there is a path at least.
";

pub(crate) const BAD_TABLE_NAME: &str = "\
311 BadTableName

The table of the catalogue file has a name that no query can call, or one that a
table before it or a word NAME=PATH has.

Give it another name, of letters, digits and _.
";

pub(crate) const HEADER_DIFFERS: &str = "\
312 HeaderDiffers

The header of a table's file is not that of the catalogue file; the column is the
first that differs.

A field is a name alone, or a name with its type, and both are those of the entry.
";

pub(crate) const TOO_MANY_FILES: &str = "\
313 TooManyFiles

The command has more than 64 tables, or its tables more than 256 files, with this
table of the catalogue file.

Leave tables out, or put files together.
";

pub(crate) const CATALOGUE_TOO_LONG: &str = "\
314 CatalogueTooLong

The catalogue file has more than 1,048,576 bytes.

It has names and paths alone; rows stand in the files of its tables.
";

pub(crate) const SCHEMA_DIFFERS: &str = "\
315 SchemaDiffers

A further file of live has other columns than the opening table, by name, type or
order; the column is the first that differs.

    the opening table x:long, the file y:long  at 0:1

Give its header the names and types of the opening table's.
";

/// The topics of these texts.
pub(crate) const TOPICS: &[Topic] = &[
    Topic {
        names: &["301"],
        text: NOT_UTF8,
    },
    Topic {
        names: &["302"],
        text: NO_HEADER,
    },
    Topic {
        names: &["303"],
        text: BAD_COLUMN,
    },
    Topic {
        names: &["304"],
        text: COLUMN_TWICE,
    },
    Topic {
        names: &["305"],
        text: BAD_LENGTH,
    },
    Topic {
        names: &["306"],
        text: BAD_CELL,
    },
    Topic {
        names: &["307"],
        text: NO_FILE,
    },
    Topic {
        names: &["308"],
        text: TOO_LONG,
    },
    Topic {
        names: &["309"],
        text: NOT_JSON,
    },
    Topic {
        names: &["310"],
        text: BAD_CATALOGUE,
    },
    Topic {
        names: &["311"],
        text: BAD_TABLE_NAME,
    },
    Topic {
        names: &["312"],
        text: HEADER_DIFFERS,
    },
    Topic {
        names: &["313"],
        text: TOO_MANY_FILES,
    },
    Topic {
        names: &["314"],
        text: CATALOGUE_TOO_LONG,
    },
    Topic {
        names: &["315"],
        text: SCHEMA_DIFFERS,
    },
];
