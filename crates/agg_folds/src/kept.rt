//! What folds keep, with values of their own.
ghost use Rattle.std.specs.Prelude.{◌≡◌, IfOk};
ghost use Rattle.agg_folds.specs.Own.{lent};
ghost use Rattle.agg_folds.specs.States.{IsBounded};

use crate::best::{Best, Prefer};
use crate::bits::Bits;
use crate::fold::Fold;
use crate::lists::{Listed, Members};
use crate::own::{Own, OwnSet, lend_all, own_all};
use crate::state::State;
use kql_cells::Kind;
use kql_functions::Aggregate;
use kql_items::Items;
use std::alloc::{AllocError, Global};
use std::marker::Model;

/// What a fold keeps, with values of its own: it outlives the rows that the fold took. Contracts see it as that fold.
#[derive(Drop)]
pub struct OwnFold {
    aggregate: Aggregate,
    count: usize,
    state: OwnState,
}

impl Model for OwnFold {
    ghost use Rattle.std.specs.Coded.{codes};
    ghost use Rattle.kql_cells.specs.contracts.dynamic.Dyn as dynamic;
    ghost use Rattle.agg_folds.specs.Own.{lent};
    ghost use Rattle.agg_folds.specs.States.{IsBounded, Kept};

    ghost Value = { Kept };

    ghost coded = { Prim.hlevel (codes, dynamic.the_row.coded) };

    ghost view = { λ f. record { aggregate = f.aggregate; count = f.count; state = lent f.state } };

    ghost invariant = { λ f. IsBounded f.count (lent f.state) };
}

impl OwnFold {
    pub(crate) fn new(aggregate: Aggregate, count: usize, state: OwnState) -> OwnFold
        requires bounded { IsBounded count (lent state) }
        ensures made { result ≡ record { aggregate = aggregate; count = count; state = lent state } }
    {
        OwnFold {
            aggregate,
            count,
            state,
        }
    }

    /// The fold that keeps this, with values that are lent. It takes memory for a list or a set of them.
    pub fn lend(&self, alloc: Global) -> Result<Fold<'_>, AllocError>
        ensures same { IfOk result (λ f. f ≡ self.now) }
    {
        let state = self.state.lend(alloc)?;
        Ok(Fold::of(self.aggregate, self.count, state))
    }
}

/// What is kept of the values that came, as `State` has it.
#[derive(Drop)]
pub(crate) enum OwnState {
    Count,
    Total(Option<Kind>, i128),
    Best(Prefer, Own, usize),
    Bits(Bits),
    List(Option<usize>, Items<Own>),
    Set(Option<usize>, OwnSet),
    Distinct(OwnSet),
}

impl OwnState {
    /// A copy of what is kept.
    #[tactic(auto, unfolding(crate::specs::Own::lent))]
    pub(crate) fn of(alloc: Global, state: &State<'_>) -> Result<OwnState, AllocError>
        ensures same { IfOk result (λ s. lent s ≡ state.now) }
    {
        match state {
            State::Count => Ok(OwnState::Count),
            State::Total(kind, total) => Ok(OwnState::Total(*kind, *total)),
            State::Best(best) => {
                let value = Own::of(alloc, &best.value)?;
                Ok(OwnState::Best(best.prefer, value, best.place))
            }
            State::Bits(bits) => Ok(OwnState::Bits(*bits)),
            State::List(list) => {
                let values = own_all(alloc, list.values.as_slice())?;
                Ok(OwnState::List(list.limit, values))
            }
            State::Set(set) => {
                let values = OwnSet::of(alloc, &set.values)?;
                Ok(OwnState::Set(set.limit, values))
            }
            State::Distinct(set) => {
                let values = OwnSet::of(alloc, set)?;
                Ok(OwnState::Distinct(values))
            }
        }
    }

    /// What is kept, with values that are lent.
    #[tactic(auto, unfolding(crate::specs::Own::lent))]
    fn lend(&self, alloc: Global) -> Result<State<'_>, AllocError>
        ensures same { IfOk result (λ s. s ≡ lent self.now) }
    {
        match self {
            OwnState::Count => Ok(State::Count),
            OwnState::Total(kind, total) => Ok(State::Total(*kind, *total)),
            OwnState::Best(prefer, value, place) => Ok(State::Best(Best {
                prefer: *prefer,
                value: value.lend(),
                place: *place,
            })),
            OwnState::Bits(bits) => Ok(State::Bits(*bits)),
            OwnState::List(limit, values) => {
                let values = lend_all(alloc, values.as_slice())?;
                Ok(State::List(Listed {
                    limit: *limit,
                    values,
                }))
            }
            OwnState::Set(limit, set) => {
                let values = set.lend(alloc)?;
                Ok(State::Set(Members {
                    limit: *limit,
                    values,
                }))
            }
            OwnState::Distinct(set) => {
                let values = set.lend(alloc)?;
                Ok(State::Distinct(values))
            }
        }
    }
}
