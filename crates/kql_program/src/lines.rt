ghost use Rattle.std.specs.Prelude.{◌≡◌, IfOk, string_bytes};
ghost use Rattle.kql_program.specs.Lines.{catalogue_name, data_line, data_name, file_name, line_of, bind_name, operator_name, query_line, query_name, text_name, usage_line, usage_name};

use kql_words::Refusal;
use std::alloc::{AllocError, Global};

/// The line of a refusal, with its line feed.
pub fn line_of(alloc: Global, refusal: Refusal) -> Result<String, AllocError>
    ensures { IfOk result (λ line. string_bytes line ≡ line_of refusal) }
{
    match refusal {
        Refusal::Query { code, place } => query_line(alloc, place.line, place.column, code),
        Refusal::Usage { word, code } => usage_line(alloc, word, code),
        Refusal::Data {
            file,
            code,
            row,
            column,
        } => data_line(alloc, file, code, row, column),
    }
}

fn query_line(alloc: Global, line: u32, column: u32, code: u32) -> Result<String, AllocError>
    ensures { IfOk result (λ text. string_bytes text ≡ query_line line column code) }
{
    let name = query_name(code);
    format!(in alloc; "kql: {line}:{column}: {code} {name}\n")
}

fn usage_line(alloc: Global, word: u32, code: u32) -> Result<String, AllocError>
    ensures { IfOk result (λ text. string_bytes text ≡ usage_line word code) }
{
    let name = usage_name(code);
    format!(in alloc; "kql: word {word}: {code} {name}\n")
}

fn data_line(
    alloc: Global,
    file: u32,
    code: u32,
    row: u64,
    column: u64,
) -> Result<String, AllocError>
    ensures { IfOk result (λ text. string_bytes text ≡ data_line file code row column) }
{
    let name = data_name(code);
    format!(in alloc; "kql: file {file}: {code} {name} at {row}:{column}\n")
}

// The name of a code of a refused query: of its tokens and syntax, or of binding.
fn query_name(code: u32) -> &'static str
    ensures { result.now ≡ query_name code }
{
    if code < 401 {
        text_name(code)
    } else if code < 411 {
        bind_name(code)
    } else {
        operator_name(code)
    }
}

fn text_name(code: u32) -> &'static str
    ensures { result.now ≡ text_name code }
{
    match code {
        101 => "BadCharacter",
        102 => "OpenText",
        103 => "BadNumber",
        104 => "TextTooLong",
        105 => "TooManyTokens",
        201 => "Unexpected",
        202 => "TooDeep",
        203 => "TooManyOperators",
        _ => "",
    }
}

fn bind_name(code: u32) -> &'static str
    ensures { result.now ≡ bind_name code }
{
    match code {
        401 => "UnknownColumn",
        402 => "UnknownFunction",
        403 => "WrongArguments",
        404 => "WrongType",
        405 => "UnsupportedType",
        406 => "UnsupportedFunction",
        407 => "NotSerialised",
        408 => "WindowHere",
        409 => "NoMoment",
        410 => "UnknownTable",
        _ => "",
    }
}

fn operator_name(code: u32) -> &'static str
    ensures { result.now ≡ operator_name code }
{
    match code {
        411 => "ColumnTwice",
        412 => "TooManyColumns",
        413 => "BadStep",
        414 => "BadRange",
        415 => "TypeClash",
        416 => "NotInPartition",
        417 => "NameTwice",
        418 => "BadLiteral",
        419 => "NoColumns",
        420 => "PatternHere",
        421 => "NotAView",
        501 => "BadPattern",
        _ => "",
    }
}

fn usage_name(code: u32) -> &'static str
    ensures { result.now ≡ usage_name code }
{
    match code {
        601 => "NoCommand",
        602 => "UnknownCommand",
        603 => "UnknownOption",
        604 => "OptionTwice",
        605 => "OptionValue",
        606 => "NoQuery",
        607 => "BadTable",
        608 => "TableTwice",
        609 => "BadCount",
        610 => "TooManyTables",
        611 => "EmptyPath",
        612 => "NoTable",
        _ => "",
    }
}

// The name of a code of a refused file.
fn data_name(code: u32) -> &'static str
    ensures { result.now ≡ data_name code }
{
    if code < 309 {
        file_name(code)
    } else {
        catalogue_name(code)
    }
}

fn file_name(code: u32) -> &'static str
    ensures { result.now ≡ file_name code }
{
    match code {
        301 => "NotUtf8",
        302 => "NoHeader",
        303 => "BadColumn",
        304 => "ColumnTwice",
        305 => "BadLength",
        306 => "BadCell",
        307 => "NoFile",
        308 => "TooLong",
        _ => "",
    }
}

fn catalogue_name(code: u32) -> &'static str
    ensures { result.now ≡ catalogue_name code }
{
    match code {
        309 => "NotJson",
        310 => "BadCatalogue",
        311 => "BadTableName",
        312 => "HeaderDiffers",
        313 => "TooManyFiles",
        314 => "CatalogueTooLong",
        315 => "SchemaDiffers",
        _ => "",
    }
}
