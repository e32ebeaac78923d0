ghost use Rattle.std.specs.Prelude.{◌≡◌, ◌<◌, ◌≤◌, ◌+◌, ◌^◌};
ghost use Rattle.kql_cells.specs.Seen.{seen};
ghost use Rattle.kql_cells.specs.Values.{IsWellFormed};
ghost use Rattle.kql_cells.specs.declared.value.Value.TheVariants.{Null};
ghost use Rattle.kql_meaning.specs.Values.{absent_as};
ghost use Rattle.agg_folds.specs.Kept.{is_better, joined_best, met};
ghost use Rattle.agg_folds.specs.declared.best.Prefer.TheVariants.{First};

use crate::cells::{absent_as, is_below};
use crate::held::Held;
use kql_cells::{CellRef, Kind};

/// Which value is chosen: the greatest or the least that is not null, or the first.
#[derive(Clone, Copy)]
pub(crate) enum Prefer {
    Greatest,
    Least,
    First,
}

/// The value that is chosen so far, and its place among all that came; null at 0 where none came.
#[derive(Drop)]
pub(crate) struct Best<'a> {
    pub(crate) prefer: Prefer,
    pub(crate) value: Held<'a>,
    pub(crate) place: usize,
}

/// Whether a value takes the place of the one that is chosen.
#[tactic(auto, unfolding(crate::specs::Kept::is_better))]
fn is_better(prefer: Prefer, best: CellRef<'_>, cell: CellRef<'_>) -> bool
    ensures { result ≡ is_better prefer (seen best.entry) (seen cell.entry) }
{
    match prefer {
        Prefer::Greatest => (best.is_null() && !cell.is_null()) || is_below(best, cell),
        Prefer::Least => (best.is_null() && !cell.is_null()) || is_below(cell, best),
        Prefer::First => false,
    }
}

impl<'a> Best<'a> {
    /// None so far.
    pub(crate) fn new(prefer: Prefer) -> Best<'a>
        ensures prefer { result.prefer ≡ prefer }
        ensures value { result.value ≡ Null }
        ensures place { result.place ≡ 0 }
    {
        Best {
            prefer,
            value: Held::new(CellRef::Null),
            place: 0,
        }
    }

    /// None so far, where the first is wanted: what stands in a column of the type where there is no value.
    pub(crate) fn first(kind: Option<Kind>) -> Best<'a>
        ensures prefer { result.prefer ≡ First }
        ensures value { result.value ≡ absent_as kind }
        ensures place { result.place ≡ 0 }
    {
        Best {
            prefer: Prefer::First,
            value: Held::new(absent_as(kind)),
            place: 0,
        }
    }

    /// One value more, behind so many.
    #[tactic(auto, unfolding(crate::specs::Kept::met))]
    pub(crate) fn meet(&mut self, cell: CellRef<'a>, count: usize)
        requires form { IsWellFormed (seen cell) }
        requires within { self.old.place ≤ count }
        ensures met { self.new ≡ met self.old count (seen cell.entry) }
        ensures within { self.new.place ≤ count }
    {
        if count == 0 || is_better(self.prefer, self.value.cell(), cell) {
            self.value = Held::new(cell);
            self.place = count;
        }
    }

    /// Those of another, behind so many here.
    #[tactic(auto, unfolding(crate::specs::Kept::joined_best))]
    pub(crate) fn join(&mut self, other: &Best<'a>, count: usize)
        requires room { count + other.now.place < 2 ^ 64 }
        requires within { self.old.place ≤ count }
        ensures joined { self.new ≡ joined_best self.old count other.now }
        ensures within { self.new.place ≤ count + other.now.place }
    {
        let cell = other.value.cell();
        if count == 0 || is_better(self.prefer, self.value.cell(), cell) {
            self.value = Held::new(cell);
            self.place = count + other.place;
        }
    }
}
