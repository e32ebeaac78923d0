ghost use Rattle.std.specs.Prelude.{◌≡◌, ◌<◌, ◌≤◌, ◌^◌, ◌++◌, ◌∷◌, if◌then◌else◌, [], length, take, map, slice_range, slice_index_or, All, IfOk, IfSome, None, OnErr, OnOk};
ghost use Rattle.kql_values.specs.Numbers.{values_of_numbers};
ghost use Rattle.kql_cells.specs.Seen.{seen, value_at};
ghost use Rattle.kql_values.specs.Stores.{bool_value, number_value, text_value, values_of};

use crate::number_column::NumberColumn;
use crate::text_column::TextColumn;
use kql_cells::{CellRef, Kind, Value, clone_value};
use kql_items::Items;
use std::alloc::{AllocError, Global};

/// The type of numbers in a column.
#[derive(Clone, Copy, Debug, PartialEq, Eq)]
pub enum NumberKind {
    Long,
    Moment,
    Span,
}

/// Numbers of one type that are lent: a cell is null where the mask says so, and else the number at its place.
#[derive(Clone, Copy)]
pub struct Numbers<'a> {
    pub kind: NumberKind,
    pub numbers: &'a [i64],
    pub nulls: &'a [bool],
}

/// The cells of a column, as they are stored.
#[derive(Debug, Drop)]
pub enum Store {
    Bools(Items<Option<bool>>),
    Numbers(NumberKind, NumberColumn),
    Texts(TextColumn),
    Mixed(Items<Value>),
}

#[tactic(auto, using(crate::proofs::StoreFacts::store_facts))]
impl Store {
    /// No cells, in the store for values of a type.
    pub fn new(alloc: Global, kind: Kind) -> Store
        ensures empty { values_of result ≡ [] }
    {
        match kind {
            Kind::Bool => Store::Bools(Items::new(alloc)),
            Kind::Long => Store::Numbers(NumberKind::Long, NumberColumn::new(alloc)),
            Kind::Moment => Store::Numbers(NumberKind::Moment, NumberColumn::new(alloc)),
            Kind::Span => Store::Numbers(NumberKind::Span, NumberColumn::new(alloc)),
            Kind::Text => Store::Texts(TextColumn::new(alloc)),
            Kind::Dynamic => Store::Mixed(Items::new(alloc)),
        }
    }

    /// No cells, in the store for values of a type, with room for so many.
    pub fn with_capacity(alloc: Global, kind: Kind, count: usize) -> Result<Store, AllocError>
        ensures empty { IfOk result (λ s. values_of s ≡ []) }
    {
        match kind {
            Kind::Bool => Ok(Store::Bools(Items::with_capacity(alloc, count)?)),
            Kind::Long => numbers_for(alloc, NumberKind::Long, count),
            Kind::Moment => numbers_for(alloc, NumberKind::Moment, count),
            Kind::Span => numbers_for(alloc, NumberKind::Span, count),
            Kind::Text => Ok(Store::Texts(TextColumn::with_capacity(alloc, count)?)),
            Kind::Dynamic => Ok(Store::Mixed(Items::with_capacity(alloc, count)?)),
        }
    }

    /// How many cells there are.
    pub fn len(&self) -> usize
        ensures count { result ≡ length (values_of self.now) }
        ensures small { result < 2 ^ 63 }
    {
        match self {
            Store::Bools(bools) => bools.as_slice().len(),
            Store::Numbers(_, numbers) => numbers.len(),
            Store::Texts(texts) => texts.len(),
            Store::Mixed(values) => values.as_slice().len(),
        }
    }

    /// A cell.
    pub fn cell(&self, i: usize) -> CellRef<'_>
        requires { i < length (values_of self.now) }
        ensures same { seen result ≡ value_at (values_of self.now) i }
    {
        match self {
            Store::Bools(bools) => bool_cell(bools.as_slice()[i]),
            Store::Numbers(kind, numbers) => number_cell(*kind, numbers.get(i)),
            Store::Texts(texts) => CellRef::Text(texts.get(i)),
            Store::Mixed(values) => values.as_slice()[i].as_cell(),
        }
    }

    /// The numbers, where the cells are stored as numbers of one type.
    pub fn numbers(&self) -> Option<Numbers<'_>>
        ensures same { IfSome result (λ n. values_of_numbers n ≡ values_of self.now) }
        ensures count { IfSome result (λ n. length n.numbers.now ≡ length (values_of self.now)) }
        ensures mask { IfSome result (λ n. length n.nulls.now ≡ length n.numbers.now) }
    {
        match self {
            Store::Numbers(kind, column) => {
                let (numbers, nulls) = column.parts();
                Some(Numbers {
                    kind: *kind,
                    numbers,
                    nulls,
                })
            }
            _ => None,
        }
    }

    /// The texts, where the cells are stored as texts.
    pub fn texts(&self) -> Option<&TextColumn>
        ensures same { IfSome result (λ t. map text_value t.now ≡ values_of self.now) }
    {
        match self {
            Store::Texts(texts) => Some(texts),
            _ => None,
        }
    }

    /// No cells, in a store of the same sort, with room for so many.
    pub fn fresh(&self, alloc: Global, count: usize) -> Result<Store, AllocError>
        ensures empty { IfOk result (λ s. values_of s ≡ []) }
    {
        match self {
            Store::Bools(_) => Ok(Store::Bools(Items::with_capacity(alloc, count)?)),
            Store::Numbers(kind, _) => numbers_for(alloc, *kind, count),
            Store::Texts(_) => Ok(Store::Texts(TextColumn::with_capacity(alloc, count)?)),
            Store::Mixed(_) => Ok(Store::Mixed(Items::with_capacity(alloc, count)?)),
        }
    }

    // Adds what a cell shows at the end, if cells like it are stored here.
    fn take(&mut self, alloc: Global, cell: CellRef<'_>) -> Result<bool, AllocError>
        ensures added { IfOk result (λ taken. values_of self.new ≡ (if taken then values_of self.old ++ seen cell.entry ∷ [] else values_of self.old)) }
        ensures kept { OnErr result (values_of self.new ≡ values_of self.old) }
    {
        match self {
            Store::Bools(bools) => match as_bool(cell) {
                Some(b) => {
                    bools.push(b)?;
                    Ok(true)
                }
                None => Ok(false),
            },
            Store::Numbers(kind, numbers) => match as_number(*kind, cell) {
                Some(n) => {
                    numbers.push(n)?;
                    Ok(true)
                }
                None => Ok(false),
            },
            Store::Texts(texts) => match cell {
                CellRef::Text(t) => {
                    texts.push(t)?;
                    Ok(true)
                }
                _ => Ok(false),
            },
            Store::Mixed(values) => {
                values.push(cell.to_value(alloc)?)?;
                Ok(true)
            }
        }
    }

    /// Adds what a cell shows at the end.
    pub fn push(&mut self, alloc: Global, cell: CellRef<'_>) -> Result<(), AllocError>
        ensures added { OnOk result (values_of self.new ≡ values_of self.old ++ seen cell.entry ∷ []) }
        ensures kept { OnErr result (values_of self.new ≡ values_of self.old) }
    {
        let taken = self.take(alloc, cell)?;
        if !taken {
            let mut values = self.to_values(alloc)?;
            values.push(cell.to_value(alloc)?)?;
            *self = Store::Mixed(values);
        }
        Ok(())
    }

    /// Adds a value at the end. Without memory it is dropped.
    pub fn push_value(&mut self, alloc: Global, value: Value) -> Result<(), AllocError>
        ensures added { OnOk result (values_of self.new ≡ values_of self.old ++ value ∷ []) }
        ensures kept { OnErr result (values_of self.new ≡ values_of self.old) }
    {
        match self {
            Store::Mixed(values) => values.push(value),
            _ => self.push(alloc, value.as_cell()),
        }
    }

    // The cells as values of their own.
    fn to_values(&self, alloc: Global) -> Result<Items<Value>, AllocError>
        ensures same { IfOk result (λ values. values ≡ values_of self.now) }
    {
        let mut values = Items::with_capacity(alloc, self.len())?;
        for i in 0..self.len() {
            values.push(self.cell(i).to_value(alloc)?)?;
        }
        Ok(values)
    }

    /// Moves the cells of another store to the end. Without memory they are dropped.
    pub fn append(&mut self, alloc: Global, more: Store) -> Result<(), AllocError>
        ensures added { OnOk result (values_of self.new ≡ values_of self.old ++ values_of more) }
        ensures kept { OnErr result (values_of self.new ≡ values_of self.old) }
    {
        match more {
            Store::Bools(more) => self.append_bools(alloc, more),
            Store::Numbers(kind, more) => self.append_numbers(alloc, kind, more),
            Store::Texts(more) => self.append_texts(alloc, more),
            Store::Mixed(more) => self.append_values(alloc, more),
        }
    }

    // Moves truth values to the end.
    fn append_bools(&mut self, alloc: Global, more: Items<Option<bool>>) -> Result<(), AllocError>
        ensures added { OnOk result (values_of self.new ≡ values_of self.old ++ map bool_value more) }
        ensures kept { OnErr result (values_of self.new ≡ values_of self.old) }
    {
        match self {
            Store::Bools(bools) => bools.append(more),
            _ => {
                let values = Store::Bools(more).to_values(alloc)?;
                self.append_values(alloc, values)
            }
        }
    }

    // Moves numbers of a type to the end.
    fn append_numbers(
        &mut self,
        alloc: Global,
        kind: NumberKind,
        more: NumberColumn,
    ) -> Result<(), AllocError>
        ensures added { OnOk result (values_of self.new ≡ values_of self.old ++ map (number_value kind) more) }
        ensures kept { OnErr result (values_of self.new ≡ values_of self.old) }
    {
        match self {
            Store::Numbers(own, numbers) if *own == kind => numbers.append(more),
            _ => {
                let values = Store::Numbers(kind, more).to_values(alloc)?;
                self.append_values(alloc, values)
            }
        }
    }

    // Moves texts to the end.
    fn append_texts(&mut self, alloc: Global, more: TextColumn) -> Result<(), AllocError>
        ensures added { OnOk result (values_of self.new ≡ values_of self.old ++ map text_value more) }
        ensures kept { OnErr result (values_of self.new ≡ values_of self.old) }
    {
        match self {
            Store::Texts(texts) => texts.append(more),
            _ => {
                let values = Store::Texts(more).to_values(alloc)?;
                self.append_values(alloc, values)
            }
        }
    }

    // Moves values to the end, where they are stored as they are.
    fn append_values(&mut self, alloc: Global, more: Items<Value>) -> Result<(), AllocError>
        ensures added { OnOk result (values_of self.new ≡ values_of self.old ++ more) }
        ensures kept { OnErr result (values_of self.new ≡ values_of self.old) }
    {
        match self {
            Store::Mixed(values) => values.append(more),
            _ => {
                let mut values = self.to_values(alloc)?;
                values.append(more)?;
                *self = Store::Mixed(values);
                Ok(())
            }
        }
    }

    /// Drops the cells from a place on.
    pub fn truncate(&mut self, count: usize)
        ensures rest { values_of self.new ≡ take count (values_of self.old) }
    {
        match self {
            Store::Bools(bools) => bools.truncate(count),
            Store::Numbers(_, numbers) => numbers.truncate(count),
            Store::Texts(texts) => texts.truncate(count),
            Store::Mixed(values) => values.truncate(count),
        }
    }

    /// Copies of the cells at these places, in this order.
    pub fn gather(&self, alloc: Global, places: &[usize]) -> Result<Store, AllocError>
        requires { All (λ i. i < length (values_of self.now)) places.now }
        ensures cells { IfOk result (λ s. values_of s ≡ map (value_at (values_of self.now)) places.now) }
    {
        match self {
            Store::Bools(bools) => { Ok(Store::Bools(gather_bools(alloc, bools, places)?)) }
            Store::Numbers(kind, numbers) => {
                Ok(Store::Numbers(*kind, numbers.gather(alloc, places)?))
            }
            Store::Texts(texts) => Ok(Store::Texts(texts.gather(alloc, places)?)),
            Store::Mixed(values) => {
                Ok(Store::Mixed(gather_values(alloc, values.as_slice(), places)?))
            }
        }
    }

    /// Copies of the cells from a place to another.
    pub fn slice(&self, alloc: Global, from: usize, to: usize) -> Result<Store, AllocError>
        requires order { from ≤ to }
        requires within { to ≤ length (values_of self.now) }
        ensures part { IfOk result (λ s. values_of s ≡ slice_range (values_of self.now) from to) }
    {
        match self {
            Store::Bools(bools) => Ok(Store::Bools(Items::from_vec(Vec::from_slice(
                alloc,
                &bools.as_slice()[from..to],
            )?))),
            Store::Numbers(kind, numbers) => {
                Ok(Store::Numbers(*kind, numbers.slice(alloc, from, to)?))
            }
            Store::Texts(texts) => Ok(Store::Texts(texts.slice(alloc, from, to)?)),
            Store::Mixed(values) => {
                Ok(Store::Mixed(clone_values(alloc, &values.as_slice()[from..to])?))
            }
        }
    }

    /// The same cells once more.
    pub fn copy(&self, alloc: Global) -> Result<Store, AllocError>
        ensures same { IfOk result (λ s. values_of s ≡ values_of self.now) }
    {
        match self {
            Store::Bools(bools) => {
                Ok(Store::Bools(Items::from_vec(Vec::from_slice(alloc, bools.as_slice())?)))
            }
            Store::Numbers(kind, numbers) => Ok(Store::Numbers(*kind, numbers.copy(alloc)?)),
            Store::Texts(texts) => Ok(Store::Texts(texts.copy(alloc)?)),
            Store::Mixed(values) => Ok(Store::Mixed(clone_values(alloc, values.as_slice())?)),
        }
    }
}

// No cells, in the store for numbers of a type, with room for so many.
fn numbers_for(alloc: Global, kind: NumberKind, count: usize) -> Result<Store, AllocError>
    ensures { IfOk result (λ s. values_of s ≡ []) }
{
    Ok(Store::Numbers(kind, NumberColumn::with_capacity(alloc, count)?))
}

// The cell of a truth value or null.
fn bool_cell<'a>(b: Option<bool>) -> CellRef<'a>
    ensures { seen result ≡ bool_value b }
{
    match b {
        None => CellRef::Null,
        Some(b) => CellRef::Bool(b),
    }
}

// The cell of a number of a type, or null.
fn number_cell<'a>(kind: NumberKind, n: Option<i64>) -> CellRef<'a>
    ensures { seen result ≡ number_value kind n }
{
    match n {
        None => CellRef::Null,
        Some(n) => match kind {
            NumberKind::Long => CellRef::Long(n),
            NumberKind::Moment => CellRef::Moment(n),
            NumberKind::Span => CellRef::Span(n),
        },
    }
}

// The truth value or null that a cell shows, or none.
fn as_bool(cell: CellRef<'_>) -> Option<Option<bool>>
    ensures { IfSome result (λ b. bool_value b ≡ seen cell.entry) }
{
    match cell {
        CellRef::Null => Some(None),
        CellRef::Bool(b) => Some(Some(b)),
        _ => None,
    }
}

// The number of a type or null that a cell shows, or none.
fn as_number(kind: NumberKind, cell: CellRef<'_>) -> Option<Option<i64>>
    ensures { IfSome result (λ n. number_value kind n ≡ seen cell.entry) }
{
    match (kind, cell) {
        (_, CellRef::Null) => Some(None),
        (NumberKind::Long, CellRef::Long(n)) => Some(Some(n)),
        (NumberKind::Moment, CellRef::Moment(n)) => Some(Some(n)),
        (NumberKind::Span, CellRef::Span(n)) => Some(Some(n)),
        _ => None,
    }
}

// The truth values at these places.
fn gather_bools(
    alloc: Global,
    bools: &Items<Option<bool>>,
    places: &[usize],
) -> Result<Items<Option<bool>>, AllocError>
    requires { All (λ i. i < length bools.now) places.now }
    ensures { IfOk result (λ g. g ≡ map (λ i. slice_index_or bools.now i None) places.now) }
{
    let mut gathered = Items::with_capacity(alloc, places.len())?;
    for place in places {
        gathered.push(bools.as_slice()[*place])?;
    }
    Ok(gathered)
}

// Equal values of those at these places.
fn gather_values(
    alloc: Global,
    values: &[Value],
    places: &[usize],
) -> Result<Items<Value>, AllocError>
    requires { All (λ i. i < length values.now) places.now }
    ensures { IfOk result (λ g. g ≡ map (value_at values.now) places.now) }
{
    let mut gathered = Items::with_capacity(alloc, places.len())?;
    for place in places {
        gathered.push(clone_value(alloc, &values[*place])?)?;
    }
    Ok(gathered)
}

// Equal values.
fn clone_values(alloc: Global, values: &[Value]) -> Result<Items<Value>, AllocError>
    ensures { IfOk result (λ c. c ≡ values.now) }
{
    let mut clones = Items::with_capacity(alloc, values.len())?;
    for value in values {
        clones.push(clone_value(alloc, value)?)?;
    }
    Ok(clones)
}
