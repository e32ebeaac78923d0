//! The calls of a program, answered.
ghost use Rattle.std.specs.Prelude.{◌≡◌, ◌<◌, ◌≤◌, IfOk, IsTrue};
ghost use Rattle.kql_cells.specs.Catalogues.{schemas_of};
ghost use Rattle.pattern_run.specs.LawOfPatterns.{MeansToldBy};
ghost use Rattle.pattern_run.specs.Placed.{HasNoOthers};
ghost use Rattle.kql_meaning.specs.Fits.{fits};
ghost use Rattle.pattern_run.specs.Patterned.{AreJudged, IsPatterned, calls_of_program, faults_after};

use crate::answers::derived_tables;
use crate::calls::{calls_of_program, refused_call};
use crate::fault::PatternFault;
use crate::grids::know_grids;
use crate::lift::lift;
use crate::lifted::Lifted;
use crate::making::make_patterns;
use crate::names::marks_for;
use kql_bound::Program;
use kql_items::Boxed;
use kql_lexer::Tokens;
use kql_values::Catalogue;
use pattern_lift::derived_tables as prefixes_with_calls;
use pattern_ops::PatternMaker;
use std::alloc::Global;
use std::thread::Threads;

/// Makes the patterns of a program's calls in the order of the program, answers the calls over the tables that they read, and lifts the
/// program. The names of the tokens and of the tables decide how the added columns are named. A program without calls stays as it is, and
/// no pattern is made for it.
pub fn run_patterns<R: Threads + Sync, P: PatternMaker>(
    rt: &R,
    alloc: Global,
    workers: u32,
    patterns: &mut P,
    tokens: &Tokens,
    program: Boxed<Program>,
    catalogue: Catalogue,
) -> Result<Lifted, PatternFault>
    requires workers { (0 < workers) × (workers ≤ 64) }
    requires fits { IsTrue (fits program (schemas_of catalogue)) }
    ensures found { P.found patterns.new ≡ P.found patterns.old }
    ensures counted { P.faults patterns.new ≡ faults_after result (P.faults patterns.old) }
    ensures lifted { IsPatterned (P.found patterns.old) tokens.now program catalogue result }
    ensures means { IfOk result (λ l. HasNoOthers program → MeansToldBy (P.found patterns.old) program catalogue l) }
    ensures fits { IfOk result (λ l. IsTrue (fits l.program (schemas_of l.catalogue))) }
    ensures judged { AreJudged P.makes P.refuses (calls_of_program program) result }
{
    know_grids(catalogue.tables());
    let calls = calls_of_program(alloc, program.get())?;
    if calls.is_empty() {
        return Ok(Lifted { program, catalogue });
    }
    let schemas = catalogue.schemas(alloc)?;
    let marks = marks_for(alloc, tokens.as_slice(), schemas.schemas())?;
    let prefixes = prefixes_with_calls(alloc, marks.as_str(), program.get())?;
    let refused = refused_call(
        alloc,
        marks.as_str(),
        program.get(),
        schemas.schemas(),
        &calls,
        prefixes.as_slice(),
    )?;
    if let Some(place) = refused {
        return Err(PatternFault::PatternHere(place));
    }
    let made = make_patterns(alloc, patterns, calls.as_slice())?;
    let tables = derived_tables(
        rt,
        alloc,
        workers,
        marks.as_str(),
        catalogue.tables(),
        prefixes.as_slice(),
        made.as_slice(),
    )?;
    let lifted = lift(alloc, marks.as_str(), program.get(), catalogue, tables)?;
    Ok(lifted)
}
