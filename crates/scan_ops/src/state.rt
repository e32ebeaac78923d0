//! The state of a step: the records that it holds for the steps up to it, and the match id of their sequence.
ghost use Rattle.std.specs.Prelude.{◌≡◌, ◌<◌, ◌≤◌, ◌+◌, ◌∷◌, [], length, option_map, replicate, take, IfOk, IfSome, Some, None};
ghost use Rattle.std.specs.Option.{option_copied};
ghost use Rattle.kql_meaning.specs.Scan.{Held, records_of};
ghost use Rattle.scan_ops.specs.States.{IsHeld, begun_with, held_with, id_in, record_in};

use kql_items::Items;
use kql_values::Row;
use std::alloc::{AllocError, Global};
use std::marker::Model;

/// The state of a step of a scan of so many steps. It is empty, or holds a record for each of the first steps, and a match id.
///
/// The records are kept as expressions read them: one for each step of the scan, or none.
#[derive(Drop)]
pub(crate) struct State {
    records: Items<Option<Row>>,
    id: Option<u64>,
}

impl Model for State {
    ghost use Rattle.std.specs.Prelude.{◌≡◌, length};
    ghost use Rattle.std.specs.Coded.{codes};
    ghost use Rattle.kql_cells.specs.contracts.dynamic.Dyn as dynamic;
    ghost use Rattle.kql_meaning.specs.Scan.{records_of};
    ghost use Rattle.scan_ops.specs.States.{StateSeen, held_of};

    ghost Value = { StateSeen };

    ghost coded = { Prim.hlevel (codes, dynamic.the_row.coded) };

    ghost view = { λ s. record { size = length s.records; held = held_of s.id s.records } };

    ghost invariant = { λ s. s.records ≡ records_of (length s.records) (held_of s.id s.records) };
}

#[tactic(auto, using(crate::proofs::StateFacts::state_facts))]
impl State {
    /// The empty state, of a scan of so many steps.
    pub(crate) fn empty(alloc: Global, size: usize) -> Result<State, AllocError>
        ensures empty { IfOk result (λ s. s ≡ record { size = size; held = None }) }
    {
        let records = no_records(alloc, size)?;
        Ok(State { records, id: None })
    }

    /// The records, one for each step of the scan, or none.
    pub(crate) fn records(&self) -> &[Option<Row>]
        ensures records { result.now ≡ records_of self.now.size self.now.held }
    {
        self.records.as_slice()
    }

    /// How many steps the scan has.
    pub(crate) fn size(&self) -> usize
        ensures size { result ≡ self.now.size }
    {
        self.records.len()
    }

    /// The match id of the sequence, where the state is not empty.
    pub(crate) fn id(&self) -> Option<u64>
        ensures id { result ≡ id_in self.now.held }
    {
        self.id
    }

    /// The record for a step, from 0, where the state is not empty.
    pub(crate) fn record(&self, at: usize) -> Option<&Row>
        requires held { IsHeld at self.now.held }
        requires within { at < self.now.size }
        ensures line { option_copied result ≡ record_in at self.now.held }
    {
        match &self.records.as_slice()[at] {
            Some(row) => Some(row),
            None => None,
        }
    }

    /// Takes a record for a step, from 0, in the place of the one that is held for it or behind the others.
    pub(crate) fn take(&mut self, at: usize, row: Row)
        requires held { IfSome self.old.held (λ h. (at ≤ length h.records) × (length h.records ≤ at + 1)) }
        requires within { at < self.old.size }
        ensures after { self.new ≡ record { size = self.old.size; held = option_map (held_with at row) self.old.held } }
    {
        if self.id.is_some() {
            self.records.set(at, Some(row));
        }
    }

    /// Lets go of all that is held.
    pub(crate) fn clear(&mut self)
        ensures after { self.new ≡ record { size = self.old.size; held = None } }
    {
        clear_records(&mut self.records);
        self.id = None;
    }

    /// Begins a sequence with a record for the first step, where no more than one is held.
    pub(crate) fn begin(&mut self, id: u64, row: Row)
        requires held { IfSome self.old.held (λ h. length h.records ≤ 1) }
        requires within { 0 < self.old.size }
        ensures after { self.new ≡ record { size = self.old.size; held = Some (begun_with id row) } }
    {
        self.records.set(0, Some(row));
        self.id = Some(id);
    }
}

// No record for each of so many steps.
fn no_records(alloc: Global, size: usize) -> Result<Items<Option<Row>>, AllocError>
    ensures records { IfOk result (λ rs. rs ≡ replicate size None) }
{
    let mut records = Items::with_capacity(alloc, size)?;
    for _i in 0..size {
        records.push(None)?;
    }
    Ok(records)
}

// Lets go of each record.
#[tactic(auto, using(crate::proofs::StateFacts::clear_facts))]
fn clear_records(records: &mut Items<Option<Row>>)
    ensures none { records.new ≡ replicate (length records.old) None }
{
    'each: for at in 0..records.len() {
        records.set(at, None);
    }
}
