ghost use Rattle.std.specs.Prelude.{◌≡◌, ◌↔◌, Err, IfOk, IsTrue};
ghost use Rattle.pattern_search.specs.Literals.{literal_found};
ghost use Rattle.pattern_ops.specs.declared.pattern.MakeFault.TheVariants.{Failed};
ghost use Rattle.pattern_ops.specs.Makers.{MakerState, NextFails, count_after, next_count};

use crate::column::answers_by;
use crate::pattern::{MakeFault, Pattern, PatternMaker};
use kql_values::{KText, Vector};
use pattern_search::LiteralSearch;
use std::alloc::{AllocError, Global};
use std::marker::Model;

/// A text that stands for itself.
#[derive(Drop)]
pub struct LiteralPattern {
    pub text: KText,
}

impl Pattern for LiteralPattern {
    ghost finds = { λ p. literal_found p.text };

    fn answers(
        &self,
        alloc: Global,
        cells: &Vector,
        from: usize,
        to: usize,
        group: Option<u32>,
    ) -> Result<Vector, AllocError> {
        let mut search = LiteralSearch {
            pattern: self.text.as_str(),
        };
        answers_by(alloc, cells, from, to, group, &mut search)
    }
}

/// Makes patterns that stand for themselves, with the match as their one group. The calls of the given numbers,
/// from 0, fail: it stands in for a maker in tests.
#[derive(Drop)]
pub struct LiteralMaker {
    alloc: Global,
    failing: Vec<u64>,
    made: u64,
    faults: u64,
}

impl Model for LiteralMaker {
    ghost use Rattle.pattern_ops.specs.Makers.{MakerState};

    ghost Value = { MakerState };

    ghost view = { λ m. record { failing = m.failing.items; made = m.made; faults = m.faults } };
}

impl LiteralMaker {
    pub fn new(alloc: Global, failing: Vec<u64>) -> LiteralMaker
        ensures state { result ≡ record { failing = failing.items; made = 0; faults = 0 } }
    {
        LiteralMaker {
            alloc,
            failing,
            made: 0,
            faults: 0,
        }
    }

    // Counts a call, and tells whether it is one of those that fail.
    fn next_fails(&mut self) -> bool
        ensures fails { IsTrue result ↔ NextFails self.old }
        ensures calls { self.new ≡ record self.old { made = next_count self.old.made } }
    {
        let number = self.made;
        self.made = number.saturating_add(1);
        self.failing.contains(&number)
    }
}

impl PatternMaker for LiteralMaker {
    type Made = LiteralPattern;

    ghost found = { λ _. literal_found };

    ghost faults = { λ m. m.faults };

    ghost makes = { λ _. Unit {0} };

    ghost refuses = { λ _. Unit {0} };

    fn make(&mut self, text: &str) -> Result<LiteralPattern, MakeFault>
        ensures counted { self.new ≡ record self.old {
          made = next_count self.old.made;
          faults = count_after result self.old.faults;
        } }
        ensures pattern { IfOk result (λ p. p.text ≡ text.now) }
        ensures fails { (result ≡ Err Failed) ↔ NextFails self.old }
    {
        if self.next_fails() {
            self.faults = self.faults.saturating_add(1);
            return Err(MakeFault::Failed);
        }
        Ok(LiteralPattern {
            text: KText::from_str(self.alloc, text)?,
        })
    }
}
