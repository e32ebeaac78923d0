//! What phases leave behind: how each ran, and who worked on it.
ghost use Rattle.std.specs.Prelude.{◌≡◌, ◌<◌, ◌≤◌, ◌∷◌, ◌++◌, [], All, IfOk, OnOk, length, min, replicate, true};
ghost use Rattle.phase_pieces.specs.Reports.{IsWholeFor};
ghost use Rattle.phase_run.specs.Reports.{AreToldBy, IsToldBy, Tells};

use kql_items::Items;
use kql_values::Table;
use phase_pieces::{Ran, Sizes};
use std::alloc::{AllocError, Global};
use std::marker::Model;
use worker_board::Gathered;

/// How a phase ran.
#[derive(Debug, Drop)]
pub enum PhaseReport {
    /// On the thread that asked, as a whole.
    Whole,
    /// In pieces, by workers: who claimed which.
    Pieces(Gathered),
}

/// Phases, in the order in which they ran. Those of a plan in a `join`, `lookup` or `union` come before that operator's own.
pub type Report = Items<PhaseReport>;

/// How phases go, and those that ran so far.
#[derive(Drop)]
pub(crate) struct Phases {
    workers: u32,
    sizes: Sizes,
    report: Report,
}

impl Model for Phases {
    ghost use Rattle.phase_run.specs.Reports.{ArePhases, PhasesSeen};

    ghost Value = { PhasesSeen };

    ghost view = { λ p. record { workers = p.workers; piece_rows = p.sizes.piece_rows; report = p.report } };

    ghost invariant = { λ p. ArePhases (record { workers = p.workers; piece_rows = p.sizes.piece_rows; report = p.report }) };
}

impl Phases {
    /// No phase yet.
    pub(crate) fn new(alloc: Global, workers: u32, sizes: Sizes) -> Phases
        requires workers { (0 < workers) × (workers ≤ 64) }
        requires sizes { 0 < sizes.piece_rows }
        ensures workers { result.workers ≡ workers }
        ensures none { result.report ≡ [] }
    {
        Phases {
            workers,
            sizes,
            report: Items::new(alloc),
        }
    }

    /// How many workers there are.
    pub(crate) fn workers(&self) -> u32
        ensures workers { result ≡ self.now.workers }
        ensures few { (0 < result) × (result ≤ 64) }
    {
        self.workers
    }

    /// How large pieces are.
    pub(crate) fn sizes(&self) -> Sizes
        ensures some { 0 < result.piece_rows }
    {
        self.sizes
    }

    /// The number of the next phase.
    pub(crate) fn number(&self) -> u32
        ensures number { result ≡ min (length self.now.report) 4294967295 }
    {
        self.report.len().min(u32::MAX as usize) as u32
    }

    /// A phase ran.
    pub(crate) fn tell(&mut self, phase: PhaseReport) -> Result<(), AllocError>
        requires told { IsToldBy self.old.workers phase }
        ensures workers { OnOk result (self.new.workers ≡ self.old.workers) }
        ensures report { OnOk result (self.new.report ≡ self.old.report ++ phase ∷ []) }
    {
        self.report.push(phase)?;
        Ok(())
    }

    /// A phase in pieces ran: its table.
    pub(crate) fn tell_pieces(&mut self, ran: Ran) -> Result<Table, AllocError>
        requires whole { IsWholeFor self.old.workers ran.gathered }
        ensures table { IfOk result (λ t. t ≡ ran.table) }
        ensures told { OnOk result (Tells self.old self.new (λ many. true ∷ [])) }
    {
        let Ran { table, gathered } = ran;
        self.tell(PhaseReport::Pieces(gathered))?;
        Ok(table)
    }

    /// A phase in rounds ran.
    pub(crate) fn tell_rounds(&mut self, rounds: Items<Gathered>) -> Result<(), AllocError>
        requires whole { All (IsWholeFor self.old.workers) rounds }
        ensures told { OnOk result (Tells self.old self.new (λ many. replicate (length rounds) true)) }
    {
        let mut left = rounds;
        left.reverse();
        'each: while let Some(gathered) = left.pop() {
            self.tell(PhaseReport::Pieces(gathered))?;
        }
        Ok(())
    }

    /// What ran.
    pub(crate) fn into_report(self) -> Report
        ensures told { AreToldBy self.workers result }
        ensures report { result ≡ self.report }
    {
        self.report
    }
}
