ghost use Rattle.std.specs.Prelude.{◌≡◌, ◌<◌, ◌≤◌, ◌+◌, ◌++◌, ◌∷◌, ◌^◌, [], IfOk, IfSome, List, OnErr, OnOk, map, option_map};
ghost use Rattle.kql_cells.specs.Seen.{seen};
ghost use Rattle.kql_cells.specs.Values.{IsWellFormed};
ghost use Rattle.kql_cells.specs.declared.value.Value.{Value as Cell};
ghost use Rattle.kql_scalar_fns.specs.Arguments.{AreWellFormed};
ghost use Rattle.agg_folds.specs.Folds.{chosen_row, folded, taken};
ghost use Rattle.agg_folds.specs.Laws.{HaveOneKind};
ghost use Rattle.agg_folds.specs.States.{IsBounded, fold_of, place_in, value_of, with_fold, with_row, with_value};
ghost use Rattle.agg_folds.specs.declared.call.FoldCall.{FoldCall};

use crate::call::FoldCall;
use crate::kept::{OwnFold, OwnState};
use crate::rows::taken;
use crate::state::State;
use kql_cells::{CellRef, Value};
use kql_functions::Aggregate;
use std::alloc::{AllocError, Global};
use std::marker::Model;
use std::mem::size_of;

/// The fold of an aggregate over the rows of a group: it takes them one by one, and keeps what the aggregate's value needs.
///
/// Cells are lent for as long as the fold lives, and none is copied before `finish`. Contracts say which rows a fold has
/// taken by `fold_of call rows`, where a row is what the arguments of the call are at it.
#[derive(Drop)]
pub struct Fold<'a> {
    aggregate: Aggregate,
    count: usize,
    state: State<'a>,
}

// There is one for each group and aggregate: it is no larger than a cache line.
const _: () = prove!(size_of::<Fold<'static>>() <= 64);

impl<'a> Model for Fold<'a> {
    ghost use Rattle.std.specs.Coded.{codes};
    ghost use Rattle.kql_cells.specs.contracts.dynamic.Dyn as dynamic;
    ghost use Rattle.agg_folds.specs.States.{IsBounded, Kept};

    ghost Value = { Kept };

    ghost coded = { Prim.hlevel (codes, dynamic.the_row.coded) };

    ghost view = { λ f. record { aggregate = f.aggregate; count = f.count; state = f.state } };

    ghost invariant = { λ f. IsBounded f.count f.state };
}

impl<'a> Fold<'a> {
    /// The fold of no rows. It takes no memory.
    #[tactic(auto, using(crate::proofs::RowLaws::start_facts))]
    pub fn new(alloc: Global, call: FoldCall) -> Fold<'a>
        ensures none { result ≡ fold_of call [] }
    {
        let state = State::new(alloc, call);
        Fold {
            aggregate: call.aggregate,
            count: 0,
            state,
        }
    }

    /// How many values were taken: no more than there were rows.
    pub fn count(&self) -> usize
        ensures count { result ≡ self.now.count }
    {
        self.count
    }

    /// Takes one row more, by its arguments: as many as `needs` says, and others are not looked at. Without memory the fold is as it was.
    pub fn step(&mut self, args: &[CellRef<'a>]) -> Result<(), AllocError>
        requires room { self.old.count < 2 ^ 63 }
        requires form { AreWellFormed (map seen args.now) }
        ensures stepped { OnOk result (self.new ≡ with_row self.old (map seen args.now)) }
        ensures row { (call : FoldCall) (rows : List (List Cell)) → self.old ≡ fold_of call rows → OnOk result (self.new ≡ fold_of call (rows ++ map seen args.now ∷ [])) }
        ensures kept { OnErr result (self.new ≡ self.old) }
    {
        match self.taken(args) {
            Some(cell) => self.take(cell),
            None => Ok(()),
        }
    }

    // The value that is taken of a row, where the row counts.
    fn taken(&self, args: &[CellRef<'a>]) -> Option<CellRef<'a>>
        requires form { AreWellFormed (map seen args.now) }
        ensures value { option_map seen result ≡ taken self.now.aggregate (map seen args.now) }
        ensures form { IfSome result (λ c. IsWellFormed (seen c)) }
    {
        taken(self.aggregate, args)
    }

    // One value more.
    #[tactic(auto, unfolding(crate::specs::States::with_value))]
    fn take(&mut self, cell: CellRef<'a>) -> Result<(), AllocError>
        requires room { self.old.count < 2 ^ 63 }
        requires form { IsWellFormed (seen cell) }
        ensures taken { OnOk result (self.new ≡ with_value self.old (seen cell.entry)) }
        ensures kept { OnErr result (self.new ≡ self.old) }
    {
        self.state.push(cell, self.count)?;
        self.count += 1;
        Ok(())
    }

    /// Takes the rows of another fold of the same call behind its own. Without memory it is not known which it has taken.
    pub fn join(&mut self, other: &Fold<'a>) -> Result<(), AllocError>
        requires room { self.old.count + other.now.count ≤ 2 ^ 63 }
        ensures joined { OnOk result (self.new ≡ with_fold self.old other.now) }
        ensures rows { (call : FoldCall) (rows more : List (List Cell)) → HaveOneKind rows more → self.old ≡ fold_of call rows → other.now ≡ fold_of call more → OnOk result (self.new ≡ fold_of call (rows ++ more)) }
    {
        self.take_all(other)
    }

    // The values of another.
    #[tactic(auto, unfolding(crate::specs::States::with_fold))]
    fn take_all(&mut self, other: &Fold<'a>) -> Result<(), AllocError>
        requires room { self.old.count + other.now.count ≤ 2 ^ 63 }
        ensures taken { OnOk result (self.new ≡ with_fold self.old other.now) }
    {
        self.state.join(&other.state, self.count, other.count)?;
        self.count += other.count;
        Ok(())
    }

    /// The value that the aggregate has over the rows that were taken.
    pub fn finish(&self, alloc: Global) -> Result<Value, AllocError>
        ensures kept { IfOk result (λ v. v ≡ value_of self.now) }
        ensures value { (call : FoldCall) (rows : List (List Cell)) → self.now ≡ fold_of call rows → IfOk result (λ v. v ≡ folded call rows) }
    {
        self.value(alloc)
    }

    fn value(&self, alloc: Global) -> Result<Value, AllocError>
        ensures { IfOk result (λ v. v ≡ value_of self.now) }
    {
        self.state.value(alloc, self.count)
    }

    /// The place, among the rows that were taken, of the one that `arg_max`, `arg_min` or `take_any` takes; 0 where no row was taken. It is
    /// of no use for other aggregates.
    pub fn chosen(&self) -> usize
        ensures place { result ≡ place_in self.now.state }
        ensures row { (call : FoldCall) (rows : List (List Cell)) → self.now ≡ fold_of call rows → result ≡ chosen_row call rows }
    {
        self.place()
    }

    fn place(&self) -> usize
        ensures { result ≡ place_in self.now.state }
    {
        self.state.place()
    }

    /// What the fold keeps, with values of its own.
    pub fn own(&self, alloc: Global) -> Result<OwnFold, AllocError>
        ensures same { IfOk result (λ f. f ≡ self.now) }
    {
        let state = OwnState::of(alloc, &self.state)?;
        Ok(OwnFold::new(self.aggregate, self.count, state))
    }

    pub(crate) fn of(aggregate: Aggregate, count: usize, state: State<'a>) -> Fold<'a>
        requires bounded { IsBounded count state }
        ensures made { result ≡ record { aggregate = aggregate; count = count; state = state.entry } }
    {
        Fold {
            aggregate,
            count,
            state,
        }
    }
}
