//! Folds of pieces: rows that come in pieces have the fold that they have at once.
ghost use Rattle.std.specs.Prelude.{◌≡◌, ◌<◌, ◌≤◌, ◌+◌, ◌++◌, ◌∷◌, ◌^◌, [], All, FitsSigned, IfOk, List, Option, ℕ, ℤ, length, map};
ghost use Rattle.std.specs.Int.{w64};
ghost use Rattle.kql_cells.specs.Seen.{seen};
ghost use Rattle.kql_cells.specs.declared.value.Kind.{Kind};
ghost use Rattle.kql_cells.specs.declared.value.Value.{Value as Cell};
ghost use Rattle.kql_scalar_fns.specs.Arguments.{AreWellFormed, argument};
ghost use Rattle.kql_meaning.specs.Values.{number_of};
ghost use Rattle.agg_folds.specs.Folds.{folded};
ghost use Rattle.agg_folds.specs.Pieces.{IsRowOf};
ghost use Rattle.agg_folds.specs.States.{fold_of, value_of, with_fold, with_row};

use crate::call::FoldCall;
use crate::cells::first_number;
use crate::fold::Fold;
use kql_cells::{CellRef, Value};
use std::alloc::{AllocError, Global};

/// An aggregate over rows that come in pieces, in order: each piece has a state, and the states of neighbours are joined.
///
/// `fold f rows` is the state of rows, where a row is what the arguments are at it, and `value f rows` what the aggregate gives for
/// them. Each call has an exact result for every state, and the laws say what it is for the states of rows (`law_of_pieces`). Nothing is
/// tested, lost or wrapped where pieces meet: a sum is kept whole, and `finish` alone asks whether it fits.
pub trait PieceFold<'a> {
    /// What is kept of rows.
    type State: Drop;

    // The type of the first argument, where there is one. The laws speak of all rows of it.
    ghost kind: { Self → Option Kind };

    ghost fold: { Self → List (List Cell) → Self.State };

    ghost value: { Self → List (List Cell) → Cell };

    ghost stepped: { Self → Self.State → List Cell → Self.State };

    ghost joined: { Self → Self.State → Self.State → Self.State };

    ghost finished: { Self → Self.State → Cell };

    // How many rows a state counts: no more than it was made of.
    ghost count: { Self.State → ℕ };

    /// The state of no rows.
    fn start(&self, alloc: Global) -> Result<Self::State, AllocError>
        ensures none { IfOk result (λ s. s ≡ fold self.now []) };

    /// The state with one row more, which is given by its arguments. A number that is read of a cell has 64 bits.
    fn step(&self, s: Self::State, args: &[CellRef<'a>]) -> Result<Self::State, AllocError>
        requires room { count s < 2 ^ 63 }
        requires form { AreWellFormed (map seen args.now) }
        ensures stepped { IfOk result (λ n. n ≡ stepped self.now s (map seen args.now)) }
        ensures number { (n : ℤ) → number_of (argument (map seen args.now) 0) ≡ Some n → FitsSigned w64 n };

    /// The state of the rows of `a` and, behind them, those of `b`.
    fn join(&self, a: Self::State, b: Self::State) -> Result<Self::State, AllocError>
        requires room { count a + count b ≤ 2 ^ 63 }
        ensures joined { IfOk result (λ n. n ≡ joined self.now a b) };

    /// What the aggregate gives for the rows of a state.
    fn finish(&self, alloc: Global, s: Self::State) -> Result<Value, AllocError>
        ensures finished { IfOk result (λ v. v ≡ finished self.now s) };

    /// The laws, with nothing to run. `steps`: the state of rows, with one row more, is the state of these rows. `joins`: the states of two
    /// lists of rows of the argument's type, joined, are the state of the lists after each other. `finishes`: the state of rows gives their value.
    /// `counts`: a state counts no more rows than it was made of.
    fn law_of_pieces(&self)
        ensures steps { (rows : List (List Cell)) (row : List Cell) → fold self.now (rows ++ row ∷ []) ≡ stepped self.now (fold self.now rows) row }
        ensures joins { (rows more : List (List Cell)) → All (IsRowOf (kind self.now)) rows → All (IsRowOf (kind self.now)) more → fold self.now (rows ++ more) ≡ joined self.now (fold self.now rows) (fold self.now more) }
        ensures finishes { (rows : List (List Cell)) → finished self.now (fold self.now rows) ≡ value self.now rows }
        ensures counts { (rows : List (List Cell)) → count (fold self.now rows) ≤ length rows };
}

// Each of the twenty aggregates.
impl<'a> PieceFold<'a> for FoldCall {
    ghost use Rattle.agg_folds.specs.Folds.{folded};
    ghost use Rattle.agg_folds.specs.States.{fold_of, value_of, with_fold, with_row};

    type State = Fold<'a>;

    ghost kind = { λ call. call.kind };

    ghost fold = { fold_of };

    ghost value = { folded };

    ghost stepped = { λ call k row. with_row k row };

    ghost joined = { λ call k l. with_fold k l };

    ghost finished = { λ call k. value_of k };

    ghost count = { λ k. k.count };

    fn start(&self, alloc: Global) -> Result<Fold<'a>, AllocError> {
        Ok(Fold::new(alloc, *self))
    }

    fn step(&self, s: Fold<'a>, args: &[CellRef<'a>]) -> Result<Fold<'a>, AllocError> {
        let _number = first_number(args);
        let mut fold = s;
        match fold.step(args) {
            Ok(()) => Ok(fold),
            Err(e) => {
                drop(fold);
                Err(e)
            }
        }
    }

    fn join(&self, a: Fold<'a>, b: Fold<'a>) -> Result<Fold<'a>, AllocError> {
        let mut fold = a;
        match fold.join(&b) {
            Ok(()) => {
                drop(b);
                Ok(fold)
            }
            Err(e) => {
                drop(b);
                drop(fold);
                Err(e)
            }
        }
    }

    fn finish(&self, alloc: Global, s: Fold<'a>) -> Result<Value, AllocError> {
        s.finish(alloc)
    }

    fn law_of_pieces(&self)
        ensures steps { (rows : List (List Cell)) (row : List Cell) → fold_of self.now (rows ++ row ∷ []) ≡ with_row (fold_of self.now rows) row }
        ensures joins { (rows more : List (List Cell)) → All (IsRowOf self.now.kind) rows → All (IsRowOf self.now.kind) more → fold_of self.now (rows ++ more) ≡ with_fold (fold_of self.now rows) (fold_of self.now more) }
        ensures finishes { (rows : List (List Cell)) → value_of (fold_of self.now rows) ≡ folded self.now rows }
        ensures counts { (rows : List (List Cell)) → (fold_of self.now rows).count ≤ length rows }
    {}
}
