ghost use Rattle.std.specs.Prelude.{◌≡◌, ◌<◌, ◌≤◌, ◌+◌, ◌^◌, IfOk, OnErr, OnOk};
ghost use Rattle.kql_cells.specs.Seen.{seen};
ghost use Rattle.kql_cells.specs.Values.{IsWellFormed};
ghost use Rattle.kql_scalar_fns.specs.Arguments.{long_or_null};
ghost use Rattle.agg_folds.specs.States.{IsBounded, joined, no_best, no_bits, no_first, no_list, no_set, place_in, pushed, started, value_in};

use crate::best::{Best, Prefer};
use crate::bits::{BitOp, Bits};
use crate::call::FoldCall;
use crate::cells::number_of;
use crate::elements::listed;
use crate::held::HeldSet;
use crate::lists::{Listed, Members, insert_all, insert_given};
use crate::totals::{counted, fitted, with_number, with_total};
use kql_cells::{CellRef, Kind, Value};
use kql_functions::Aggregate;
use kql_items::Items;
use std::alloc::{AllocError, Global};

/// What is kept of the values that came.
#[derive(Drop)]
pub(crate) enum State<'a> {
    /// Nothing but how many they are.
    Count,
    /// Their sum, and the type that it has.
    Total(Option<Kind>, i128),
    /// The one that is chosen.
    Best(Best<'a>),
    /// The bits of all.
    Bits(Bits),
    /// Those that are not null.
    List(Listed<'a>),
    /// Those that are not null, each once.
    Set(Members<'a>),
    /// Those that are not null, each once, to be counted.
    Distinct(HeldSet<'a>),
}

impl<'a> State<'a> {
    /// What is kept before a value came.
    #[tactic(auto, using(crate::proofs::StateLaws::started_facts), unfolding(crate::specs::States::started, crate::specs::States::state_of))]
    pub(crate) fn new(alloc: Global, call: FoldCall) -> State<'a>
        ensures { result ≡ started call }
    {
        match call.aggregate {
            Aggregate::Count => State::Count,
            Aggregate::CountIf => State::Count,
            Aggregate::CountDistinct => State::Distinct(HeldSet::new(alloc)),
            Aggregate::CountDistinctIf => State::Distinct(HeldSet::new(alloc)),
            Aggregate::Sum => State::Total(call.kind, 0),
            Aggregate::SumIf => State::Total(call.kind, 0),
            Aggregate::Min => best(Prefer::Least),
            Aggregate::MinIf => best(Prefer::Least),
            Aggregate::Max => best(Prefer::Greatest),
            Aggregate::MaxIf => best(Prefer::Greatest),
            Aggregate::MakeList => list(alloc, call.limit),
            Aggregate::MakeListIf => list(alloc, call.limit),
            Aggregate::MakeSet => set(alloc, call.limit),
            Aggregate::MakeSetIf => set(alloc, call.limit),
            Aggregate::ArgMax => best(Prefer::Greatest),
            Aggregate::ArgMin => best(Prefer::Least),
            Aggregate::TakeAny => first(call.kind),
            Aggregate::BinaryAllAnd => bits(BitOp::And),
            Aggregate::BinaryAllOr => bits(BitOp::Or),
            Aggregate::BinaryAllXor => bits(BitOp::Xor),
        }
    }

    /// One value more, behind so many. Without memory all stays.
    #[tactic(auto, unfolding(crate::specs::States::pushed, crate::specs::States::IsBounded))]
    pub(crate) fn push(&mut self, cell: CellRef<'a>, count: usize) -> Result<(), AllocError>
        requires bounded { IsBounded count self.old }
        requires room { count < 2 ^ 63 }
        requires form { IsWellFormed (seen cell) }
        ensures pushed { OnOk result (self.new ≡ pushed self.old count (seen cell.entry)) }
        ensures bounded { OnOk result (IsBounded (count + 1) self.new) }
        ensures kept { OnErr result (self.new ≡ self.old) }
    {
        match self {
            State::Count => Ok(()),
            State::Total(_, total) => {
                *total = with_number(*total, number_of(cell), count);
                Ok(())
            }
            State::Best(best) => {
                best.meet(cell, count);
                Ok(())
            }
            State::Bits(bits) => {
                bits.meet(number_of(cell));
                Ok(())
            }
            State::List(list) => list.push(cell),
            State::Set(set) => set.insert(cell),
            State::Distinct(set) => insert_given(set, None, cell),
        }
    }

    /// What is kept of others, behind so many here. Without memory some of them may have been taken.
    #[tactic(auto, using(crate::proofs::TotalFacts::total_facts), unfolding(crate::specs::States::joined, crate::specs::States::IsBounded))]
    pub(crate) fn join(
        &mut self,
        other: &State<'a>,
        count: usize,
        more: usize,
    ) -> Result<(), AllocError>
        requires bounded { IsBounded count self.old }
        requires other { IsBounded more other.now }
        requires room { count + more ≤ 2 ^ 63 }
        ensures joined { OnOk result (self.new ≡ joined self.old count other.now) }
        ensures bounded { OnOk result (IsBounded (count + more) self.new) }
        ensures kept { OnErr result (IsBounded count self.new) }
    {
        match self {
            State::Count => Ok(()),
            State::Total(_, total) => {
                if let State::Total(_, further) = other {
                    *total = with_total(*total, *further, count, more);
                }
                Ok(())
            }
            State::Best(best) => {
                if let State::Best(further) = other {
                    best.join(further, count);
                }
                Ok(())
            }
            State::Bits(bits) => {
                if let State::Bits(further) = other {
                    bits.meet(further.number);
                }
                Ok(())
            }
            State::List(list) => match other {
                State::List(further) => list.join(further),
                _ => Ok(()),
            },
            State::Set(set) => match other {
                State::Set(further) => set.join(further),
                _ => Ok(()),
            },
            State::Distinct(set) => match other {
                State::Distinct(further) => insert_all(set, None, further.as_slice()),
                _ => Ok(()),
            },
        }
    }

    /// The value that the aggregate has over so many values.
    #[tactic(auto, unfolding(crate::specs::States::value_in, kql_meaning::specs::Numbers::counted))]
    pub(crate) fn value(&self, alloc: Global, count: usize) -> Result<Value, AllocError>
        ensures value { IfOk result (λ v. v ≡ value_in self.now count) }
    {
        match self {
            State::Count => Ok(counted(count)),
            State::Total(kind, total) => Ok(fitted(*kind, *total)),
            State::Best(best) => best.value.cell().to_value(alloc),
            State::Bits(bits) => Ok(long_or_null(bits.number)),
            State::List(list) => listed(alloc, list.values.as_slice()),
            State::Set(set) => listed(alloc, set.values.as_slice()),
            State::Distinct(set) => Ok(counted(set.len())),
        }
    }

    /// The place of the value that is chosen; 0 where none is.
    #[tactic(auto, unfolding(crate::specs::States::place_in))]
    pub(crate) fn place(&self) -> usize
        ensures { result ≡ place_in self.now }
    {
        match self {
            State::Best(best) => best.place,
            _ => 0,
        }
    }
}

fn best<'a>(prefer: Prefer) -> State<'a>
    ensures { result ≡ no_best prefer }
{
    State::Best(Best::new(prefer))
}

fn first<'a>(kind: Option<Kind>) -> State<'a>
    ensures { result ≡ no_first kind }
{
    State::Best(Best::first(kind))
}

fn bits<'a>(op: BitOp) -> State<'a>
    ensures { result ≡ no_bits op }
{
    State::Bits(Bits { op, number: None })
}

fn list<'a>(alloc: Global, limit: Option<usize>) -> State<'a>
    ensures { result ≡ no_list limit }
{
    State::List(Listed {
        limit,
        values: Items::new(alloc),
    })
}

fn set<'a>(alloc: Global, limit: Option<usize>) -> State<'a>
    ensures { result ≡ no_set limit }
{
    State::Set(Members {
        limit,
        values: HeldSet::new(alloc),
    })
}

fn long_or_null(n: Option<i64>) -> Value
    ensures { result ≡ long_or_null n }
{
    match n {
        None => Value::Null,
        Some(n) => Value::Long(n),
    }
}
