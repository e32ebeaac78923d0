//! The text of a table that was printed in ranges of its rows.
ghost use Rattle.std.specs.Prelude.{◌≡◌, ◌≤◌, ◌++◌, All, IfOk, Ok, OnOk, flat_map, length, slice_range};
ghost use Rattle.csv_io.specs.Load.{loaded};
ghost use Rattle.csv_io.specs.Printed.{IsPrinted};
ghost use Rattle.csv_io.specs.Reload.{IsLoadable, ReadsBack, typed_text, with_kinds};
ghost use Rattle.csv_io.specs.Text.{line_text, lines_text, table_text};

use crate::print::{push_names, push_range, push_typed_names};
use kql_cells::Bytes;
use kql_items::Items;
use kql_values::Table;
use std::alloc::{AllocError, Global};
use std::marker::Model;

/// The text of the rows of a table from a place up to another.
///
/// Contracts see the table. Which rows they are is its own fact.
#[derive(Drop)]
pub struct Printed<'a> {
    table: &'a Table,
    from: usize,
    to: usize,
    text: Bytes,
}

impl<'a> Model for Printed<'a> {
    ghost use Rattle.std.specs.Coded.{codes};
    ghost use Rattle.kql_cells.specs.Table.{Grid};
    ghost use Rattle.kql_cells.specs.contracts.dynamic.Dyn as dynamic;
    ghost use Rattle.csv_io.specs.Printed.{IsPrinted};

    ghost Value = { Grid };

    ghost coded = { Prim.hlevel (codes, dynamic.the_row.coded) };

    ghost view = { λ p. p.table.now };

    ghost invariant = { λ p. IsPrinted p.table.now p.from p.to p.text };
}

impl<'a> Printed<'a> {
    /// Prints the rows from a place on, at most so many.
    pub fn print(
        alloc: Global,
        table: &'a Table,
        from: usize,
        count: usize,
    ) -> Result<Printed<'a>, AllocError>
        ensures of_table { IfOk result (λ p. p ≡ table.now) }
    {
        let from = from.min(table.len());
        let to = from.saturating_add(count).min(table.len());
        let mut out = Vec::new(alloc);
        push_range(alloc, &mut out, table, from, to)?;
        Ok(Printed {
            table,
            from,
            to,
            text: Items::from_vec(out),
        })
    }

    // Its places, and the text.
    fn into_parts(self) -> (usize, usize, Bytes)
        ensures { IsPrinted self.entry result.0 result.1 result.2 }
    {
        let Printed {
            table: _,
            from,
            to,
            text,
        } = self;
        (from, to, text)
    }
}

/// What `table_text` answers, from texts of rows that were printed, whichever they are. What is in none of them is printed
/// here.
pub fn join_text(alloc: Global, t: &Table, printed: Items<Printed<'_>>) -> Result<Bytes, AllocError>
    requires of_table { All (λ p. p ≡ t.now) printed }
    ensures text { IfOk result (λ b. b ≡ table_text t.now) }
    ensures loads { IfOk result (λ b. IsLoadable t.now.columns → loaded (with_kinds t.now.columns b) ≡ Ok t.now) }
{
    let mut out = Vec::new(alloc);
    push_names(&mut out, t.schema().columns())?;
    push_printed(alloc, &mut out, t, printed)?;
    Ok(Items::from_vec(out))
}

/// What `typed_text` answers, from texts of rows in the same way.
pub fn join_typed_text(
    alloc: Global,
    t: &Table,
    printed: Items<Printed<'_>>,
) -> Result<Bytes, AllocError>
    requires of_table { All (λ p. p ≡ t.now) printed }
    ensures text { IfOk result (λ b. b ≡ typed_text t.now) }
    ensures loads { IfOk result (λ b. IsLoadable t.now.columns → loaded b ≡ Ok t.now) }
{
    let mut out = Vec::new(alloc);
    push_typed_names(alloc, &mut out, t.schema().columns())?;
    push_printed(alloc, &mut out, t, printed)?;
    Ok(Items::from_vec(out))
}

// Adds a line for each row.
#[tactic(auto, using(crate::proofs::LinesFacts::no_lines))]
fn push_printed(
    alloc: Global,
    out: &mut Vec<u8>,
    t: &Table,
    mut printed: Items<Printed<'_>>,
) -> Result<(), AllocError>
    requires { All (λ p. p ≡ t.now) printed }
    ensures text { OnOk result (out.new.items ≡ out.old.items ++ flat_map line_text t.now.lines) }
    ensures back { OnOk result (All (All ReadsBack) t.now.lines) }
{
    let mut at = 0;
    printed.reverse();
    'parts: while let Some(next) = printed.pop() {
        at = push_part(out, t, at, next)?;
    }
    push_range(alloc, out, t, at, t.len())?;
    Ok(())
}

// Adds the text of rows where they come next, and answers up to where the lines go then.
fn push_part(
    out: &mut Vec<u8>,
    t: &Table,
    at: usize,
    part: Printed<'_>,
) -> Result<usize, AllocError>
    requires part { part ≡ t.now }
    requires within { at ≤ length t.now.lines }
    ensures order { IfOk result (λ end. at ≤ end) }
    ensures within { IfOk result (λ end. end ≤ length t.now.lines) }
    ensures text { IfOk result (λ end. out.new.items ≡ out.old.items ++ lines_text t.now at end) }
    ensures back { IfOk result (λ end. All (All ReadsBack) (slice_range t.now.lines at end)) }
{
    let _rows = t.len();
    let (from, to, text) = part.into_parts();
    if from != at {
        return Ok(at);
    }
    out.extend_from_slice(text.as_slice())?;
    Ok(to)
}
