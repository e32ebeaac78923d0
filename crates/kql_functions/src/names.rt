ghost use Rattle.std.specs.Prelude.{◌≡◌, ◌↔◌, Contains, true};
ghost use Rattle.kql_functions.specs.declared.aggregate.Aggregate.{Aggregate};
ghost use Rattle.kql_functions.specs.declared.func.Func.{Func};
ghost use Rattle.kql_functions.specs.declared.window.Window.{Window};
ghost use Rattle.kql_functions.specs.Names.{aggregate_name, func_name, window_name};
ghost use Rattle.kql_functions.specs.Find.{IsNoName, extract_name, found_apart, found_as, is_called, is_one_of, is_operator, is_refused, named_among, refused_aggregates, refused_conversions, refused_functions, refused_names};

use crate::aggregate::{Aggregate, aggregate_among, aggregates};
use crate::func::Func;
use crate::tables::functions;
use crate::window::{Window, window_among, windows};

/// What a name is where a call names a function.
#[derive(Clone, Copy, Debug, PartialEq, Eq)]
pub enum Found {
    Scalar(Func),
    Window(Window),
    Aggregate(Aggregate),
    /// `extract`, whose calls are of a pattern and have rules of their own.
    Pattern,
    /// A function of the reference that the language leaves out.
    Refused,
    Unknown,
}

/// What a name is, by its bytes.
pub fn find(name: &str) -> Found
    ensures value { result ≡ found_as name.now }

    // A function is found by its own name alone, so are a window function, an aggregate, a refused name and `extract`, and an
    // operator by none.
    ensures scalar { (f : Func) → (result ≡ Found.Scalar f) ↔ ((is_called f ≡ true) × (func_name f ≡ name.now)) }
    ensures window { (w : Window) → (result ≡ Found.Window w) ↔ (window_name w ≡ name.now) }
    ensures aggregate { (a : Aggregate) → (result ≡ Found.Aggregate a) ↔ (aggregate_name a ≡ name.now) }
    ensures refused { (result ≡ Found.Refused) ↔ Contains refused_names name.now }
    ensures pattern { (result ≡ Found.Pattern) ↔ (name.now ≡ extract_name) }
    ensures operator { (f : Func) → is_operator f ≡ true → func_name f ≡ name.now → result ≡ Found.Unknown }

    // What is none of these is unknown.
    ensures unknown { (result ≡ Found.Unknown) ↔ IsNoName name.now }
{
    find_in_tables(name)
}

#[tactic(auto, unfolding(crate::specs::Find::found_as))]
fn find_in_tables(name: &str) -> Found
    ensures value { result ≡ found_as name.now }
{
    if let Some(f) = func_among(functions(), name) {
        return Found::Scalar(f);
    }
    if let Some(w) = window_among(windows(), name) {
        return Found::Window(w);
    }
    if let Some(a) = aggregate_among(aggregates(), name) {
        return Found::Aggregate(a);
    }
    found_apart(is_refused(name), name == "extract")
}

fn found_apart(refused: bool, pattern: bool) -> Found
    ensures { result ≡ found_apart refused pattern }
{
    match (refused, pattern) {
        (true, _) => Found::Refused,
        (false, true) => Found::Pattern,
        (false, false) => Found::Unknown,
    }
}

#[tactic(auto, unfolding(crate::specs::Find::named_among))]
fn func_among(functions: &[Func], name: &str) -> Option<Func>
    ensures { result ≡ named_among func_name functions.now name.now }
{
    let mut left = functions;
    'names: while let [f, more @ ..] = left {
        if f.name() == name {
            return Some(*f);
        }
        left = more;
    }
    None
}

fn is_refused(name: &str) -> bool
    ensures { result ≡ is_refused name.now }
{
    is_refused_aggregate(name) || is_refused_function(name) || is_refused_conversion(name)
}

#[tactic(auto, unfolding(crate::specs::Find::is_one_of, crate::specs::Find::refused_aggregates))]
fn is_refused_aggregate(name: &str) -> bool
    ensures { result ≡ is_one_of refused_aggregates name.now }
{
    name == "avg"
        || name == "avgif"
        || name == "dcount"
        || name == "dcountif"
        || name == "percentile"
        || name == "percentiles"
        || name == "stdev"
        || name == "stdevif"
        || name == "variance"
        || name == "varianceif"
        || name == "hll"
        || name == "tdigest"
}

#[tactic(auto, unfolding(crate::specs::Find::is_one_of, crate::specs::Find::refused_functions))]
fn is_refused_function(name: &str) -> bool
    ensures { result ≡ is_one_of refused_functions name.now }
{
    name == "sqrt"
        || name == "pow"
        || name == "exp"
        || name == "log"
        || name == "log10"
        || name == "round"
        || name == "rand"
        || name == "series_stats"
}

#[tactic(auto, unfolding(crate::specs::Find::is_one_of, crate::specs::Find::refused_conversions))]
fn is_refused_conversion(name: &str) -> bool
    ensures { result ≡ is_one_of refused_conversions name.now }
{
    name == "toreal"
        || name == "todouble"
        || name == "todecimal"
        || name == "toint"
        || name == "toguid"
}
