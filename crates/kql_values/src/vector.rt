ghost use Rattle.std.specs.Prelude.{◌≡◌, ◌<◌, ◌≤◌, ◌^◌, ◌++◌, ◌∷◌, ◌↔◌, if◌then◌else◌, [], length, take, map, replicate, slice_range, All, IfOk, IfSome, IsTrue, OnErr, OnOk, Some};
ghost use Rattle.kql_values.specs.Moves.{IsWithin, value_or};
ghost use Rattle.kql_values.specs.Numbers.{values_of_numbers};
ghost use Rattle.kql_values.specs.Stores.{number_value, text_value};
ghost use Rattle.kql_cells.specs.Seen.{seen, value_at};
ghost use Rattle.kql_cells.specs.Table.{CellFits};

use crate::fitting::cell_fits;
use crate::number_column::NumberColumn;
use crate::store::{NumberKind, Numbers, Store};
use crate::text_column::TextColumn;
use kql_cells::{CellRef, Column, Kind, Value};
use std::alloc::{AllocError, Global};
use std::marker::Model;

/// The cells of one column, which contracts see as a list of values.
///
/// How they are stored is not told: values of one type stand close together, and a cell is lent as a `CellRef`.
#[derive(Debug, Drop)]
pub struct Vector {
    alloc: Global,
    store: Store,
}

impl Model for Vector {
    ghost use Rattle.std.specs.Prelude.{List};
    ghost use Rattle.std.specs.Coded.{codes};
    ghost use Rattle.kql_cells.specs.contracts.dynamic.Dyn as dynamic;
    ghost use Rattle.kql_cells.specs.declared.value.Value.{Value as Cell};
    ghost use Rattle.kql_values.specs.Stores.{values_of};

    ghost Value = { List Cell };

    ghost coded = { Prim.hlevel (codes, dynamic.the_row.coded) };

    ghost view = { λ v. values_of v.store };
}

impl Vector {
    /// No cells, which takes no memory. The type is that of the values to come; values of others may come too.
    pub fn new(alloc: Global, kind: Kind) -> Vector
        ensures empty { result ≡ [] }
    {
        Vector {
            alloc,
            store: Store::new(alloc, kind),
        }
    }

    /// The numbers of a type, or null, as a vector.
    pub fn from_numbers(alloc: Global, kind: NumberKind, numbers: NumberColumn) -> Vector
        ensures cells { result ≡ map (number_value kind) numbers }
    {
        Vector {
            alloc,
            store: Store::Numbers(kind, numbers),
        }
    }

    /// How many cells there are.
    pub fn len(&self) -> usize
        ensures count { result ≡ length self.now }
        ensures small { result < 2 ^ 63 }
    {
        self.store.len()
    }

    /// A cell.
    pub fn cell(&self, i: usize) -> CellRef<'_>
        requires { i < length self.now }
        ensures same { seen result ≡ value_at self.now i }
    {
        self.store.cell(i)
    }

    /// Whether each cell shows a well-formed value of a column's type, or null.
    pub fn fits(&self, column: &Column) -> bool
        ensures fits { IsTrue result ↔ All (CellFits column.now) self.now }
    {
        for i in 0..self.len() {
            if !cell_fits(column, self.cell(i)) {
                return false;
            }
        }
        true
    }

    /// Adds what a cell shows at the end.
    pub fn push_cell(&mut self, cell: CellRef<'_>) -> Result<(), AllocError>
        ensures added { OnOk result (self.new ≡ self.old ++ seen cell.entry ∷ []) }
        ensures kept { OnErr result (self.new ≡ self.old) }
    {
        self.store.push(self.alloc, cell)
    }

    /// Adds a value at the end. Without memory it is dropped.
    pub fn push(&mut self, value: Value) -> Result<(), AllocError>
        ensures added { OnOk result (self.new ≡ self.old ++ value ∷ []) }
        ensures kept { OnErr result (self.new ≡ self.old) }
    {
        self.store.push_value(self.alloc, value)
    }

    /// Moves the cells of another vector to the end. Without memory they are dropped.
    pub fn append(&mut self, more: Vector) -> Result<(), AllocError>
        ensures added { OnOk result (self.new ≡ self.old ++ more) }
        ensures kept { OnErr result (self.new ≡ self.old) }
    {
        let Vector { alloc: _, store } = more;
        if self.store.len() == 0 {
            self.store = store;
            return Ok(());
        }
        self.store.append(self.alloc, store)
    }

    /// Drops the cells from a place on.
    pub fn truncate(&mut self, count: usize)
        ensures rest { self.new ≡ take count self.old }
    {
        self.store.truncate(count);
    }

    /// Copies of the cells at these places, in this order.
    pub fn gather(&self, alloc: Global, places: &[usize]) -> Result<Vector, AllocError>
        requires { All (λ i. i < length self.now) places.now }
        ensures cells { IfOk result (λ v. v ≡ map (value_at self.now) places.now) }
    {
        Ok(Vector {
            alloc,
            store: self.store.gather(alloc, places)?,
        })
    }

    /// Copies of the cells at these places, in this order, and what `absent` shows where a place is none.
    pub fn gather_or_absent(
        &self,
        alloc: Global,
        places: &[Option<usize>],
        absent: CellRef<'_>,
    ) -> Result<Vector, AllocError>
        requires { All (IsWithin (length self.now)) places.now }
        ensures cells { IfOk result (λ v. v ≡ map (value_or (seen absent.entry) self.now) places.now) }
    {
        let mut gathered = Vector {
            alloc,
            store: self.store.fresh(alloc, places.len())?,
        };
        for place in places {
            gathered.push_cell(self.cell_or(*place, absent))?;
        }
        Ok(gathered)
    }

    // The cell at a place, or this one where there is none.
    fn cell_or<'a>(&'a self, place: Option<usize>, absent: CellRef<'a>) -> CellRef<'a>
        requires { IsWithin (length self.now) place }
        ensures same { seen result ≡ value_or (seen absent.entry) self.now place }
    {
        match place {
            None => absent,
            Some(i) => self.cell(i),
        }
    }

    /// Copies of the cells from a place to another.
    pub fn slice(&self, alloc: Global, from: usize, to: usize) -> Result<Vector, AllocError>
        requires order { from ≤ to }
        requires within { to ≤ length self.now }
        ensures part { IfOk result (λ v. v ≡ slice_range self.now from to) }
    {
        Ok(Vector {
            alloc,
            store: self.store.slice(alloc, from, to)?,
        })
    }

    /// The same cells once more.
    pub fn copy(&self, alloc: Global) -> Result<Vector, AllocError>
        ensures same { IfOk result (λ v. v ≡ self.now) }
    {
        Ok(Vector {
            alloc,
            store: self.store.copy(alloc)?,
        })
    }

    /// The numbers, where the cells are stored as numbers of one type.
    pub fn numbers(&self) -> Option<Numbers<'_>>
        ensures same { IfSome result (λ n. values_of_numbers n ≡ self.now) }
        ensures count { IfSome result (λ n. length n.numbers.now ≡ length self.now) }
        ensures mask { IfSome result (λ n. length n.nulls.now ≡ length n.numbers.now) }
    {
        self.store.numbers()
    }

    /// The texts, where the cells are stored as texts.
    pub fn texts(&self) -> Option<&TextColumn>
        ensures same { IfSome result (λ t. map text_value t.now ≡ self.now) }
    {
        self.store.texts()
    }

    /// What a cell shows, so many times, stored as values of a type: that of the cell, or any where the cell is null.
    pub fn repeated(
        alloc: Global,
        kind: Kind,
        cell: CellRef<'_>,
        count: usize,
    ) -> Result<Vector, AllocError>
        ensures cells { IfOk result (λ v. v ≡ replicate count (seen cell.entry)) }
    {
        let mut vector = Vector {
            alloc,
            store: Store::with_capacity(alloc, kind, count)?,
        };
        for _i in 0..count {
            vector.push_cell(cell)?;
        }
        Ok(vector)
    }
}

// The type of what a cell shows.
pub(crate) fn kind_of(cell: CellRef<'_>) -> Kind {
    match cell {
        CellRef::Bool(_) => Kind::Bool,
        CellRef::Long(_) => Kind::Long,
        CellRef::Text(_) => Kind::Text,
        CellRef::Moment(_) => Kind::Moment,
        CellRef::Span(_) => Kind::Span,
        CellRef::Null | CellRef::Dynamic(_) => Kind::Dynamic,
    }
}
