use bind_expr::BindFault;
use catalogue_tables::CatalogueStop;
use kql_lexer::LexFault;
use kql_outside::{Failed, ReadError};
use kql_syntax::SyntaxFault;
use kql_words::Refusal;
use pattern_run::PatternFault;
use std::alloc::AllocError;

/// Why the work stops before there is a text.
#[derive(Clone, Copy, Debug, PartialEq, Eq)]
pub enum Stop {
    /// The words or files are refused.
    Refused(Refusal),
    /// A call of the shelf failed.
    ReadFault,
    /// There was no memory.
    OutOfMemory,
}

impl From<AllocError> for Stop {
    ghost use Rattle.std.specs.Prelude.{◌≡◌};
    ghost use Rattle.kql_program.specs.declared.refusal.Stop.TheVariants as stop;

    ghost from_gives = { λ _ e. e ≡ stop.OutOfMemory };

    fn from(_error: AllocError) -> Stop {
        Stop::OutOfMemory
    }
}

impl From<Refusal> for Stop {
    ghost use Rattle.std.specs.Prelude.{◌≡◌};
    ghost use Rattle.kql_program.specs.declared.refusal.Stop.TheVariants as stop;

    ghost from_gives = { λ refusal e. e ≡ stop.Refused refusal };

    fn from(refusal: Refusal) -> Stop {
        Stop::Refused(refusal)
    }
}

impl From<Failed> for Stop {
    ghost use Rattle.std.specs.Prelude.{◌≡◌};
    ghost use Rattle.kql_program.specs.declared.refusal.Stop.TheVariants as stop;

    ghost from_gives = { λ _ e. e ≡ stop.ReadFault };

    fn from(_error: Failed) -> Stop {
        Stop::ReadFault
    }
}

impl From<ReadError> for Stop {
    ghost use Rattle.std.specs.Prelude.{◌≡◌};
    ghost use Rattle.kql_program.specs.Stops.{read_stop};

    ghost from_gives = { λ error e. e ≡ read_stop error };

    fn from(error: ReadError) -> Stop {
        match error {
            ReadError::Failed => Stop::ReadFault,
            ReadError::OutOfMemory => Stop::OutOfMemory,
        }
    }
}

impl From<CatalogueStop> for Stop {
    ghost use Rattle.std.specs.Prelude.{◌≡◌};
    ghost use Rattle.kql_program.specs.Stops.{catalogue_stop};

    ghost from_gives = { λ stop e. e ≡ catalogue_stop stop };

    fn from(stop: CatalogueStop) -> Stop {
        match stop {
            CatalogueStop::Refused {
                file,
                code,
                row,
                column,
            } => Stop::Refused(Refusal::Data {
                file,
                code,
                row,
                column,
            }),
            CatalogueStop::ReadFault => Stop::ReadFault,
            CatalogueStop::OutOfMemory => Stop::OutOfMemory,
        }
    }
}

impl From<LexFault> for Stop {
    ghost use Rattle.std.specs.Prelude.{◌≡◌};
    ghost use Rattle.kql_program.specs.Stops.{lex_stop};

    ghost from_gives = { λ fault e. e ≡ lex_stop fault };

    fn from(fault: LexFault) -> Stop {
        match fault {
            LexFault::Refused { code, place } => Stop::Refused(Refusal::Query { code, place }),
            LexFault::OutOfMemory => Stop::OutOfMemory,
        }
    }
}

impl From<SyntaxFault> for Stop {
    ghost use Rattle.std.specs.Prelude.{◌≡◌};
    ghost use Rattle.kql_program.specs.Stops.{syntax_stop};

    ghost from_gives = { λ fault e. e ≡ syntax_stop fault };

    fn from(fault: SyntaxFault) -> Stop {
        match fault {
            SyntaxFault::Refused { code, place } => Stop::Refused(Refusal::Query { code, place }),
            SyntaxFault::OutOfMemory => Stop::OutOfMemory,
        }
    }
}

impl From<BindFault> for Stop {
    ghost use Rattle.std.specs.Prelude.{◌≡◌};
    ghost use Rattle.kql_program.specs.Stops.{bind_stop};

    ghost from_gives = { λ fault e. e ≡ bind_stop fault };

    fn from(fault: BindFault) -> Stop {
        match fault {
            BindFault::Refused { code, place } => Stop::Refused(Refusal::Query { code, place }),
            BindFault::OutOfMemory => Stop::OutOfMemory,
        }
    }
}

impl From<PatternFault> for Stop {
    ghost use Rattle.std.specs.Prelude.{◌≡◌};
    ghost use Rattle.kql_program.specs.Stops.{pattern_stop};

    ghost from_gives = { λ fault e. e ≡ pattern_stop fault };

    fn from(fault: PatternFault) -> Stop {
        match fault {
            PatternFault::PatternHere(place) => Stop::Refused(Refusal::Query { code: 420, place }),
            PatternFault::BadPattern(place) => Stop::Refused(Refusal::Query { code: 501, place }),
            PatternFault::OutOfMemory => Stop::OutOfMemory,
        }
    }
}
