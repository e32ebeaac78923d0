//! Texts of which the header was read, so that their rows can be read in pieces.
ghost use Rattle.std.specs.Prelude.{◌≡◌, All, Ok, IfErr, IfOk};
ghost use Rattle.csv_io.specs.Faults.{IsFaultOf};
ghost use Rattle.csv_io.specs.Load.{loaded};
ghost use Rattle.csv_io.specs.Parts.{loaded_rows};
ghost use Rattle.csv_io.specs.TypedLoad.{loaded_typed};

use crate::fault::{DataFault, NO_HEADER, refused};
use crate::first::read_first;
use crate::header::read_header;
use crate::joined::join_pieces;
use crate::line::Line;
use crate::piece::Piece;
use crate::stack::Stack;
use crate::typed_load::check_header;
use kql_cells::Schema;
use kql_items::Items;
use kql_values::Table;
use std::alloc::{AllocError, Global};
use std::marker::Model;

/// A text of CSV of which the header was read.
///
/// Contracts see the text and the columns.
#[derive(Drop)]
pub struct Head<'a> {
    text: &'a str,
    schema: Schema,
    end: usize,
}

impl<'a> Model for Head<'a> {
    ghost use Rattle.std.specs.Prelude.{IsUtf8};
    ghost use Rattle.csv_io.specs.Parts.{Headed, IsHead};

    ghost Value = { Headed };

    ghost view = { λ h. record { text = h.text.now; columns = h.schema } };

    ghost invariant = { λ h. IsHead h.text.now h.end × IsUtf8 h.text.now };
}

impl<'a> Head<'a> {
    /// Reads the header of a text as `load` does, or tells the first fault of the text.
    pub fn read(alloc: Global, text: &'a str) -> Result<Head<'a>, DataFault>
        ensures text { IfOk result (λ h. h.text ≡ text.now) }
        ensures loads { IfOk result (λ h. loaded text.now ≡ loaded_rows h.columns text.now) }
        ensures fault { IfErr result (IsFaultOf (loaded text.now)) }
    {
        let mut line = Line::new(alloc);
        match read_first(text, &mut line)? {
            Some(end) => {
                let schema = read_header(alloc, &line)?;
                Ok(Head { text, schema, end })
            }
            None => Err(refused(NO_HEADER, 0, 0)),
        }
    }

    /// Reads the header of a text as `load_typed` does, or tells the first fault of the text.
    pub fn read_typed(alloc: Global, text: &'a str, schema: &Schema) -> Result<Head<'a>, DataFault>
        ensures text { IfOk result (λ h. h.text ≡ text.now) }
        ensures columns { IfOk result (λ h. h.columns ≡ schema.now) }
        ensures loads { IfOk result (λ h. loaded_typed schema.now text.now ≡ loaded_rows h.columns text.now) }
        ensures fault { IfErr result (IsFaultOf (loaded_typed schema.now text.now)) }
    {
        let mut line = Line::new(alloc);
        match read_first(text, &mut line)? {
            Some(end) => {
                check_header(alloc, schema.columns(), &line)?;
                let schema = schema.copy(alloc)?;
                Ok(Head { text, schema, end })
            }
            None => Err(refused(NO_HEADER, 0, 0)),
        }
    }

    /// How many ranges of so many bytes the rows have, each of which can be read as a piece. No answer depends on it.
    pub fn ranges(&self, size: usize) -> u32 {
        let left = self.text.len().saturating_sub(self.end);
        let count = left / size.max(1);
        u32::try_from(count).unwrap_or(u32::MAX).saturating_add(1)
    }

    /// Reads a range of so many bytes of the rows: the records from its first line on up to the first line of the next.
    pub fn piece(&self, alloc: Global, range: u32, size: usize) -> Result<Piece<'a>, AllocError>
        ensures of_text { IfOk result (λ p. p ≡ self.now) }
    {
        let from = size.saturating_mul(range as usize).saturating_add(self.end);
        let to = from.saturating_add(size);
        Piece::read(alloc, &self.schema, self.text, from, to)
    }

    /// The table of the rows in parts, or the first fault in them, from pieces that were read, whichever they are. What is
    /// in none of them is read here.
    pub fn stack(self, alloc: Global, pieces: Items<Piece<'a>>) -> Result<Stack, DataFault>
        requires of_text { All (λ p. p ≡ self) pieces }
        ensures table { IfOk result (λ t. loaded_rows self.entry.columns self.entry.text ≡ Ok t) }
        ensures columns { IfOk result (λ t. t.columns ≡ self.entry.columns) }
        ensures fault { IfErr result (IsFaultOf (loaded_rows self.entry.columns self.entry.text)) }
    {
        let Head { text, schema, end } = self;
        join_pieces(alloc, schema, text.as_bytes(), end, pieces)
    }

    /// The same, put together.
    pub fn join(self, alloc: Global, pieces: Items<Piece<'a>>) -> Result<Table, DataFault>
        requires of_text { All (λ p. p ≡ self) pieces }
        ensures table { IfOk result (λ t. loaded_rows self.entry.columns self.entry.text ≡ Ok t) }
        ensures columns { IfOk result (λ t. t.columns ≡ self.entry.columns) }
        ensures fault { IfErr result (IsFaultOf (loaded_rows self.entry.columns self.entry.text)) }
    {
        let stack = self.stack(alloc, pieces)?;
        let table = stack.into_table(alloc)?;
        Ok(table)
    }
}
