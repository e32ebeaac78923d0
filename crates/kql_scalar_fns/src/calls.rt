ghost use Rattle.std.specs.Prelude.{◌≡◌, IfOk, IfSome, List, map};
ghost use Rattle.kql_cells.specs.Seen.{seen};
ghost use Rattle.kql_cells.specs.Values.{IsOfKind, IsWellFormed};
ghost use Rattle.kql_cells.specs.declared.value.Kind.{Kind};
ghost use Rattle.kql_scalar_fns.specs.Applied.{applied, untold};
ghost use Rattle.kql_scalar_fns.specs.Arguments.{AreWellFormed};
ghost use Rattle.kql_functions.specs.Kinds.{AreOfKinds, result_kind};

use crate::arithmetic::apply_arithmetic;
use crate::choice::apply_choice;
use crate::comparison::apply_comparison;
use crate::conversion::apply_conversion;
use crate::dynamic::apply_dynamic;
use crate::logic::apply_logic;
use crate::search::apply_search;
use crate::text::apply_text;
use crate::time::apply_time;
use kql_cells::{CellRef, KText, Value};
use kql_functions::Func;
use std::alloc::{AllocError, Global};

/// What a function or operator gives for these arguments, which are lent: no text of theirs is copied to be read.
///
/// It is null in each undefined case, also where `result_kind` has no row for the types of the arguments. `now` and
/// `ago` have no moment here and give null. A call of a pattern has no made pattern here: `matches regex` gives null,
/// `extract` the empty text.
pub fn apply_cells(alloc: Global, f: Func, args: &[CellRef<'_>]) -> Result<Value, AllocError>
    requires { AreWellFormed (map seen args.now) }
    ensures value { IfOk result (λ v. v ≡ applied f (map seen args.now)) }

    // The value is well formed, and of the type that `result_kind` says for the types of the arguments, or null.
    ensures form { IfOk result IsWellFormed }
    ensures kind { (kinds : List Kind) → AreOfKinds kinds (map seen args.now)
        → IfSome (result_kind f kinds) (λ k. IfOk result (IsOfKind k)) }
{
    dispatch(alloc, f, args)
}

/// The same of arguments that are owned.
pub fn apply(alloc: Global, f: Func, args: &[Value]) -> Result<Value, AllocError>
    requires { AreWellFormed args.now }
    ensures value { IfOk result (λ v. v ≡ applied f args.now) }
    ensures form { IfOk result IsWellFormed }
    ensures kind { (kinds : List Kind) → AreOfKinds kinds args.now
        → IfSome (result_kind f kinds) (λ k. IfOk result (IsOfKind k)) }
{
    let cells = cells_of(alloc, args)?;
    apply_cells(alloc, f, &cells)
}

fn cells_of<'a>(alloc: Global, args: &'a [Value]) -> Result<Vec<CellRef<'a>>, AllocError>
    ensures { IfOk result (λ v. map seen v.items ≡ args.now) }
{
    let mut cells = Vec::with_capacity(alloc, args.len())?;
    'arguments: for arg in args {
        cells.push(arg.as_cell())?;
    }
    Ok(cells)
}

#[tactic(auto, unfolding(crate::specs::Applied::applied))]
fn dispatch(alloc: Global, f: Func, args: &[CellRef<'_>]) -> Result<Value, AllocError>
    requires { AreWellFormed (map seen args.now) }
    ensures value { IfOk result (λ v. v ≡ applied f (map seen args.now)) }
    ensures form { IfOk result IsWellFormed }
{
    match f {
        Func::Arithmetic(f) => Ok(apply_arithmetic(f, args)),
        Func::Comparison(f) => apply_comparison(alloc, f, args),
        Func::Search(f) => apply_search(alloc, f, args),
        Func::Logic(f) => Ok(apply_logic(f, args)),
        Func::Choice(f) => apply_choice(alloc, f, args),
        Func::Conversion(f) => apply_conversion(alloc, f, args),
        Func::Text(f) => apply_text(alloc, f, args),
        Func::Time(f) => Ok(apply_time(f, args)),
        Func::Dynamic(f) => apply_dynamic(alloc, f, args),
        Func::Pattern(f) => Ok(untold(alloc, f.group)),
    }
}

// What a call of a pattern gives without the made pattern.
fn untold(alloc: Global, group: Option<u32>) -> Value
    ensures value { result ≡ untold group }
    ensures form { IsWellFormed result }
{
    match group {
        Some(_) => Value::Text(KText::new(alloc)),
        None => Value::Null,
    }
}
