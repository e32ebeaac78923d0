ghost use Rattle.std.specs.Prelude.{◌≡◌, ◌≢◌, Err, IfOk, IsSomeAnd, None};
ghost use Rattle.pattern_search.specs.Regexes.{IsExpression, regex_found};
ghost use Rattle.pattern_ops.specs.Makers.{count_after};
ghost use Rattle.pattern_ops.specs.Refused.{IsFault, IsRefusedExpression};
ghost use Rattle.pattern_ops.specs.declared.pattern.MakeFault.TheVariants.{Failed};

use crate::column::answers_by;
use crate::pattern::{MakeFault, Pattern, PatternMaker};
use kql_values::Vector;
use pattern_search::RegexPattern;
use regex::Error;
use std::alloc::{AllocError, Global};
use std::marker::Model;

impl Pattern for RegexPattern {
    ghost finds = { λ p. regex_found p };

    fn answers(
        &self,
        alloc: Global,
        cells: &Vector,
        from: usize,
        to: usize,
        group: Option<u32>,
    ) -> Result<Vector, AllocError> {
        let mut search = self.search(alloc)?;
        answers_by(alloc, cells, from, to, group, &mut search)
    }
}

/// Makes regular expressions, by the syntax of the crate `regex` and its default options. Contracts see it as its
/// count of faults and what was said against the last text that it refused.
#[derive(Drop)]
pub struct RegexMaker {
    alloc: Global,
    faults: u64,
    last: Option<Error>,
}

impl Model for RegexMaker {
    ghost use Rattle.pattern_ops.specs.Refused.{RegexMakerState};

    ghost Value = { RegexMakerState };

    ghost view = { λ m. record { faults = m.faults; last = m.last } };
}

impl RegexMaker {
    pub fn new(alloc: Global) -> RegexMaker
        ensures none { result ≡ record { faults = 0; last = None } }
    {
        RegexMaker {
            alloc,
            faults: 0,
            last: None,
        }
    }

    /// What `regex` said against the last text that was refused, to be shown to people.
    pub fn last_error(&self) -> Option<Error>
        ensures last { result ≡ self.now.last }
    {
        self.last
    }
}

impl PatternMaker for RegexMaker {
    type Made = RegexPattern;

    ghost found = { λ _. regex_found };

    ghost faults = { λ m. m.faults };

    ghost makes = { IsExpression };

    ghost refuses = { IsRefusedExpression };

    fn make(&mut self, text: &str) -> Result<RegexPattern, MakeFault>
        ensures counted { self.new.faults ≡ count_after result self.old.faults }
        ensures pattern { IfOk result (λ p. p ≡ text.now) }
        ensures expression { IfOk result (λ _. IsExpression text.now) }
        ensures told { result ≡ Err Failed → IsSomeAnd self.new.last (IsFault text.now) }
        ensures kept { result ≢ Err Failed → self.new.last ≡ self.old.last }
    {
        match RegexPattern::new(self.alloc, text) {
            Ok(pattern) => Ok(pattern),
            Err(Error::OutOfMemory) => Err(MakeFault::OutOfMemory),
            Err(error) => {
                self.faults = self.faults.saturating_add(1);
                self.last = Some(error);
                Err(MakeFault::Failed)
            }
        }
    }
}
