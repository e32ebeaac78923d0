//! The partition of other operators.
ghost use Rattle.std.specs.Prelude.{◌≡◌, ◌<◌, ◌≤◌, ◌*◌, ◌+◌, ◌^◌, All, IfOk, IsTrue, is_some, length, slice_range};
ghost use Rattle.kql_cells.specs.Named.{column_name, place_of};
ghost use Rattle.kql_meaning.specs.Partition.{partition_table};
ghost use Rattle.kql_meaning.specs.Tables.{emptied};
ghost use Rattle.kql_plain.specs.AtHand.{OpsFit, world_of};
ghost use Rattle.phase_laws.specs.Runs.{made_of};
ghost use Rattle.phase_pieces.specs.Reports.{IsCutFor, IsWholeFor};
ghost use Rattle.phase_partitions.specs.Works.{made_piece, rows_made};
ghost use Rattle.phase_scans.specs.Keys.{keys_of_piece};
ghost use Rattle.scan_ops.specs.Scans.{rows_by_key};

use kql_bound::Op;
use kql_keys::PlaceLists;
use kql_outside::Gate;
use kql_plain::{Input, emptied, ops_input};
use kql_values::{Catalogue, Table};
use phase_pieces::{Cut, Ran, Sizes, bounds_of, put_together};
use phase_scans::{cut_keys, rows_by_key};
use std::alloc::{AllocError, Global};
use std::marker::Model;
use std::thread::Threads;
use worker_board::{Outcome, Work, run_pieces};

// The work of the phase. `none` is what the operators make of no rows, without rows.
#[derive(Drop)]
struct KeyRun<'a> {
    alloc: Global,
    ops: &'a [Op],
    catalogue: &'a Catalogue,
    lets: &'a [Table],
    table: &'a Table,
    none: &'a Table,
    lists: &'a PlaceLists,
    cut: Cut,
}

impl<'a> Model for KeyRun<'a> {
    ghost use Rattle.std.specs.Coded.{codes};
    ghost use Rattle.kql_cells.specs.contracts.dynamic.Dyn as dynamic;
    ghost use Rattle.kql_bound.specs.contracts.plan.Op as op;
    ghost use Rattle.kql_plain.specs.AtHand.{world_of};
    ghost use Rattle.phase_partitions.specs.Works.{IsKeyRun, KeysSeen};

    ghost Value = { KeysSeen };

    ghost coded = { Prim.hlevel (codes, op.the_row.coded, dynamic.the_row.coded) };

    ghost view = { λ r. record { ops = r.ops.now; world = world_of r.catalogue.now r.lets.now; table = r.table.now; none = r.none.now; lists = r.lists.now; cut = r.cut } };

    ghost invariant = { λ r. IsKeyRun (record { ops = r.ops.now; world = world_of r.catalogue.now r.lets.now; table = r.table.now; none = r.none.now; lists = r.lists.now; cut = r.cut }) };
}

impl<'a> Work<Table> for KeyRun<'a> {
    ghost use Rattle.phase_partitions.specs.Works.{made_piece};

    ghost count = { λ r. r.cut.pieces };

    ghost answer = { λ r piece. made_piece r.ops r.world r.table r.lists r.cut.rows piece };

    fn pieces(&self) -> u32 {
        self.cut.pieces
    }

    #[tactic(auto, using(phase_pieces::proofs::CutLaws::begins))]
    fn run(&self, piece: u32) -> Result<Table, AllocError> {
        made_of_piece(
            self.alloc,
            self.ops,
            self.catalogue,
            self.lets,
            self.table,
            self.none,
            self.lists,
            self.cut.rows,
            piece,
        )
    }
}

// What operators make of the rows of the keys of a piece.
#[tactic(auto, using(crate::proofs::OpSteps::piece_steps))]
fn made_of_piece(
    alloc: Global,
    ops: &[Op],
    catalogue: &Catalogue,
    lets: &[Table],
    table: &Table,
    none: &Table,
    lists: &PlaceLists,
    keys: usize,
    piece: u32,
) -> Result<Table, AllocError>
    requires fits { OpsFit ops.now (world_of catalogue.now lets.now) table.now }
    requires none { none.now.columns ≡ (made_of ops.now (world_of catalogue.now lets.now) (emptied table.now)).columns }
    requires within { All (All (λ i. i < length table.now.lines)) lists.now }
    requires begins { piece * keys ≤ length lists.now }
    requires small { (length lists.now < 2 ^ 63) × (keys < 2 ^ 63) }
    ensures table { IfOk result (λ t. t ≡ made_piece ops.now (world_of catalogue.now lets.now) table.now lists.now keys piece) }
{
    let bounds = bounds_of(lists.len(), keys, piece);
    let made = made_between(
        alloc,
        ops,
        catalogue,
        lets,
        table,
        none,
        lists,
        bounds.from,
        bounds.to,
    )?;
    Ok(made)
}

// What they make of the rows of the lists from one to another, one list after another.
#[tactic(auto, using(crate::proofs::OpSteps::list_steps))]
fn made_between(
    alloc: Global,
    ops: &[Op],
    catalogue: &Catalogue,
    lets: &[Table],
    table: &Table,
    none: &Table,
    lists: &PlaceLists,
    from: usize,
    to: usize,
) -> Result<Table, AllocError>
    requires fits { OpsFit ops.now (world_of catalogue.now lets.now) table.now }
    requires none { none.now.columns ≡ (made_of ops.now (world_of catalogue.now lets.now) (emptied table.now)).columns }
    requires within { All (All (λ i. i < length table.now.lines)) lists.now }
    requires order { from ≤ to }
    requires range { to ≤ length lists.now }
    ensures columns { IfOk result (λ t. t.columns ≡ none.now.columns) }
    ensures lines { IfOk result (λ t. t.lines ≡ rows_made ops.now (world_of catalogue.now lets.now) table.now (slice_range lists.now from to)) }
{
    let mut made = emptied(alloc, none)?;
    'keys: for number in from..to {
        let rows = table.gather(alloc, lists.get(number))?;
        let part = made_of_rows(alloc, ops, catalogue, lets, rows)?;
        made.append(part)?;
    }
    Ok(made)
}

// What operators make of rows.
fn made_of_rows(
    alloc: Global,
    ops: &[Op],
    catalogue: &Catalogue,
    lets: &[Table],
    rows: Table,
) -> Result<Table, AllocError>
    requires fits { OpsFit ops.now (world_of catalogue.now lets.now) rows }
    ensures table { IfOk result (λ t. t ≡ made_of ops.now (world_of catalogue.now lets.now) rows) }
{
    let made = ops_input(alloc, ops, catalogue, lets, Input::Owned(rows))?;
    let table = made.into_table(alloc)?;
    Ok(table)
}

/// The partition of operators by the keys of a column, by so many workers, in ranges of keys: what they make of the rows of each key, one
/// after another, keys in order of first occurrence. Null is a key.
#[tactic(auto, using(crate::proofs::OpSteps::run_steps, phase_scans::proofs::KeySteps::told_steps))]
pub fn run_partition<R: Threads + Sync, G: Gate + Sync>(
    rt: &R,
    gate: &G,
    alloc: Global,
    workers: u32,
    phase: u32,
    key: &str,
    ops: &[Op],
    catalogue: &Catalogue,
    lets: &[Table],
    table: &Table,
    sizes: Sizes,
) -> Result<Ran, AllocError>
    requires workers { (0 < workers) × (workers ≤ 64) }
    requires sizes { 0 < sizes.piece_rows }
    requires column { IsTrue (is_some (place_of column_name key.now table.now.columns)) }
    requires fits { OpsFit ops.now (world_of catalogue.now lets.now) table.now }
    ensures table { IfOk result (λ r. r.table ≡ partition_table key.now (made_of ops.now (world_of catalogue.now lets.now)) table.now) }
    ensures whole { IfOk result (λ r. IsWholeFor workers r.gathered) }
    ensures pieces { IfOk result (λ r. IsCutFor (length (rows_by_key key.now table.now)) (keys_of_piece (length (rows_by_key key.now table.now)) (length table.now.lines) sizes.piece_rows) r.gathered) }
{
    let lists = rows_by_key(alloc, table, key)?;
    let made = made_of_rows(alloc, ops, catalogue, lets, emptied(alloc, table)?)?;
    let none = emptied(alloc, &made)?;
    let ran = run_keys(
        rt, gate, alloc, workers, phase, ops, catalogue, lets, table, &none, &lists, sizes,
    )?;
    Ok(ran)
}

// The same of the rows of these lists.
#[tactic(auto, using(crate::proofs::OpSteps::key_steps))]
fn run_keys<R: Threads + Sync, G: Gate + Sync>(
    rt: &R,
    gate: &G,
    alloc: Global,
    workers: u32,
    phase: u32,
    ops: &[Op],
    catalogue: &Catalogue,
    lets: &[Table],
    table: &Table,
    none: &Table,
    lists: &PlaceLists,
    sizes: Sizes,
) -> Result<Ran, AllocError>
    requires workers { (0 < workers) × (workers ≤ 64) }
    requires fits { OpsFit ops.now (world_of catalogue.now lets.now) table.now }
    requires none { none.now.columns ≡ (made_of ops.now (world_of catalogue.now lets.now) (emptied table.now)).columns }
    requires within { All (All (λ i. i < length table.now.lines)) lists.now }
    requires few { length lists.now < 2 ^ 63 }
    ensures columns { IfOk result (λ r. r.table.columns ≡ (made_of ops.now (world_of catalogue.now lets.now) (emptied table.now)).columns) }
    ensures lines { IfOk result (λ r. r.table.lines ≡ rows_made ops.now (world_of catalogue.now lets.now) table.now lists.now) }
    ensures whole { IfOk result (λ r. IsWholeFor workers r.gathered) }
    ensures pieces { IfOk result (λ r. IsCutFor (length lists.now) (keys_of_piece (length lists.now) (length table.now.lines) sizes.piece_rows) r.gathered) }
{
    let cut = cut_keys(lists.len(), table.len(), sizes);
    let first = emptied(alloc, none)?;
    let work = KeyRun {
        alloc,
        ops,
        catalogue,
        lets,
        table,
        none,
        lists,
        cut,
    };
    let Outcome { results, gathered } = run_pieces(rt, alloc, workers, phase, &work, gate)?;
    let made = put_together(first, results)?;
    Ok(Ran {
        table: made,
        gathered,
    })
}
