//! Where rows stand: tables, and the columns at a place.

use kql_cells::Kind;
use kql_messages::{
    KnownColumn, RefusedFile, RefusedQuery, Sizes, file_message, header_end, queries_before,
    query_message, sizes_message,
};
use std::alloc::{AllocError, Global};

/// A table: its name, and its text.
#[derive(Drop)]
struct NamedText {
    name: String,
    text: String,
}

#[derive(Drop)]
pub(crate) struct Seat {
    columns: Option<String>,
    tables: Vec<NamedText>,
}

// The type of a word of a header, a column of texts without one.
fn kind_in(field: &str) -> (&str, Kind) {
    let Some((name, word)) = field.rsplit_once(':') else {
        return (field, Kind::Text);
    };
    match word {
        "bool" => (name, Kind::Bool),
        "long" => (name, Kind::Long),
        "string" => (name, Kind::Text),
        "datetime" => (name, Kind::Moment),
        "timespan" => (name, Kind::Span),
        "dynamic" => (name, Kind::Dynamic),
        _ => (field, Kind::Text),
    }
}

// The byte of a place of a text.
fn byte_at(text: &str, line: u32, column: u32) -> usize {
    let mut at_line = 1u32;
    let mut at_column = 1u32;
    for (byte, c) in text.char_indices() {
        if at_line == line && at_column == column {
            return byte;
        }
        if c == '\n' {
            at_line = at_line.saturating_add(1);
            at_column = 1;
        } else {
            at_column = at_column.saturating_add(1);
        }
    }
    text.len()
}

// The bytes of a text in which `\xNN` stands for one.
fn bytes_of(alloc: Global, text: &str) -> Result<Vec<u8>, AllocError> {
    let mut bytes = Vec::new(alloc);
    let mut parts = text.split("\\x");
    if let Some(first) = parts.next() {
        bytes.extend_from_slice(first.as_bytes())?;
    }
    for part in parts {
        let digits = part.get(..2).unwrap_or("");
        if let Ok(byte) = u8::from_str_radix(digits, 16) {
            bytes.push(byte)?;
        }
        bytes.extend_from_slice(part.get(2..).unwrap_or("").as_bytes())?;
    }
    Ok(bytes)
}

// The queries whose columns are those at a place, one behind another.
fn before(alloc: Global, text: &str, byte: usize) -> Result<String, AllocError> {
    let mut told = String::new(alloc);
    for query in queries_before(alloc, text, byte)? {
        told.push_str(query.as_str())?;
    }
    Ok(told)
}

impl Seat {
    pub(crate) fn new(alloc: Global) -> Seat {
        Seat {
            columns: None,
            tables: Vec::new(alloc),
        }
    }

    /// Sets the columns at the places of rows, as the fields of a header.
    pub(crate) fn set_columns(&mut self, alloc: Global, names: &str) -> Result<(), AllocError> {
        self.columns = Some(names.replace(alloc, ", ", ",")?);
        Ok(())
    }

    pub(crate) fn add_table(
        &mut self,
        alloc: Global,
        name: &str,
        text: &str,
    ) -> Result<(), AllocError> {
        let name = String::from_str(alloc, name)?;
        let text = text.replace(alloc, "⏎", "\n")?;
        self.tables.push(NamedText { name, text })?;
        Ok(())
    }

    // The headers of the columns that are known.
    fn header(&self, alloc: Global) -> Result<String, AllocError> {
        let mut header = String::new(alloc);
        if let Some(columns) = &self.columns {
            return String::from_str(alloc, columns.as_str());
        }
        for table in &self.tables {
            if !header.is_empty() {
                header.push(',')?;
            }
            header.push_str(table.text.as_str().lines().next().unwrap_or(""))?;
        }
        Ok(header)
    }

    /// What is told of a query.
    pub(crate) fn query_told(
        &self,
        alloc: Global,
        code: u32,
        line: u32,
        column: u32,
        query: &str,
    ) -> Result<String, AllocError> {
        let text = query.replace(alloc, "⏎", "\n")?;
        let byte = byte_at(text.as_str(), line, column);
        if code == 0 {
            return before(alloc, text.as_str(), byte);
        }
        let header = self.header(alloc)?;
        let mut columns = Vec::new(alloc);
        for field in header.as_str().split(',') {
            let (name, kind) = kind_in(field);
            columns.push(KnownColumn {
                name,
                kind: Some(kind),
            })?;
        }
        let mut tables: Vec<&str> = Vec::new(alloc);
        for table in &self.tables {
            tables.push(table.name.as_str())?;
        }
        query_message(
            alloc,
            &RefusedQuery {
                code,
                byte,
                text: text.as_str(),
                tables: tables.as_slice(),
                columns: columns.as_slice(),
            },
        )
    }

    /// What is told of a file, of which the word NAME=PATH is given.
    pub(crate) fn file_told(
        &self,
        alloc: Global,
        code: u32,
        row: u64,
        column: u64,
        word: &str,
    ) -> Result<String, AllocError> {
        let (name, path) = word.split_once('=').unwrap_or((word, word));
        let mut bytes = Vec::new(alloc);
        for table in &self.tables {
            if table.name.as_str() == name {
                bytes = bytes_of(alloc, table.text.as_str())?;
            }
        }
        if code == 0 {
            return format!(in alloc; "{}", header_end(alloc, bytes.as_slice()));
        }
        if code == 308 && row > 0 {
            return sizes_message(
                alloc,
                Sizes {
                    bytes: row,
                    limit: column,
                },
            );
        }
        file_message(
            alloc,
            &RefusedFile {
                code,
                row,
                column,
                table: Some(name),
                path,
                bytes: bytes.as_slice(),
                beside: &["app.csv", "hosts.csv"],
            },
        )
    }
}
