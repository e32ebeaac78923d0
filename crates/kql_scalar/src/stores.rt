//! Comparisons of a column with a constant over the column's store: numbers with a number, texts with a text.
ghost use Rattle.std.specs.Prelude.{◌≡◌, ◌<◌, All, IfOk, IfSome, IsTrue, Some, filter, length, map};
ghost use Rattle.std.specs.Str.{bytes_eq};
ghost use Rattle.kql_cells.specs.Seen.{value_at};
ghost use Rattle.kql_cells.specs.declared.value.Value.TheVariants as value;
ghost use Rattle.kql_values.specs.Numbers.{values_of_numbers};
ghost use Rattle.kql_values.specs.Stores.{number_value, text_value};
ghost use Rattle.kql_scalar.specs.Rows.{AreBelow, cell_compares};
ghost use Rattle.kql_scalar.specs.Stores.{is_number_test, is_text_test, number_at, number_test, text_test, value_compares};

use crate::rows::push_if;
use kql_functions::ComparisonFunc;
use kql_values::{NumberKind, Numbers, Table, TextColumn, Value};
use std::alloc::{AllocError, Global};

/// Those of these places at which a comparison of a column with a constant is true, if the store and the constant are such.
#[tactic(auto, using(crate::proofs::StoreSteps::store_steps))]
pub(crate) fn kept_by_store(
    alloc: Global,
    f: ComparisonFunc,
    t: &Table,
    column: usize,
    value: &Value,
    places: &[usize],
) -> Option<Result<Vec<usize>, AllocError>>
    requires column { column < length t.now.columns }
    requires within { AreBelow (length t.now.lines) places.now }
    ensures places { IfSome result (λ r. IfOk r (λ ps. ps.items ≡ filter (cell_compares f t.now column value.now) places.now)) }
{
    let _schema = t.schema();
    let vector = t.column(column);
    if let Value::Text(text) = value {
        let texts = vector.texts()?;
        if is_text_test(f) {
            return Some(kept_by_text(alloc, f, texts, text.as_str(), places));
        }
        return None;
    }
    let numbers = vector.numbers()?;
    let n = number_of_kind(numbers.kind, value)?;
    if is_number_test(f) {
        return Some(kept_by_number(alloc, f, numbers, n, places));
    }
    None
}

// The number that a value is, if it is one of a type.
fn number_of_kind(kind: NumberKind, value: &Value) -> Option<i64>
    ensures value { IfSome result (λ n. number_value kind (Some n) ≡ value.now) }
{
    match (kind, value) {
        (NumberKind::Long, Value::Long(n)) => Some(*n),
        (NumberKind::Moment, Value::Moment(n)) => Some(*n),
        (NumberKind::Span, Value::Span(n)) => Some(*n),
        _ => None,
    }
}

#[tactic(auto, unfolding(crate::specs::Stores::is_number_test))]
fn is_number_test(f: ComparisonFunc) -> bool
    ensures { result ≡ is_number_test f }
{
    match f {
        ComparisonFunc::Equal => true,
        ComparisonFunc::NotEqual => true,
        ComparisonFunc::Less => true,
        ComparisonFunc::AtMost => true,
        ComparisonFunc::Greater => true,
        ComparisonFunc::AtLeast => true,
        _ => false,
    }
}

#[tactic(auto, unfolding(crate::specs::Stores::is_text_test))]
fn is_text_test(f: ComparisonFunc) -> bool
    ensures { result ≡ is_text_test f }
{
    match f {
        ComparisonFunc::Equal => true,
        ComparisonFunc::NotEqual => true,
        _ => false,
    }
}

// Those at which a comparison of a number with another is true.
#[tactic(auto, using(crate::proofs::StoreSteps::number_steps))]
fn kept_by_number(
    alloc: Global,
    f: ComparisonFunc,
    numbers: Numbers<'_>,
    n: i64,
    places: &[usize],
) -> Result<Vec<usize>, AllocError>
    requires mask { length numbers.nulls.now ≡ length numbers.numbers.now }
    requires within { AreBelow (length numbers.numbers.now) places.now }
    requires test { IsTrue (is_number_test f) }
    ensures places { IfOk result (λ ps. ps.items ≡ filter (value_compares f (values_of_numbers numbers.entry) (number_value numbers.entry.kind (Some n))) places.now) }
{
    let mut kept = Vec::new(alloc);
    'places: for place in places {
        let test = number_test(f, number_at(numbers, *place), n);
        push_if(&mut kept, *place, test)?;
    }
    Ok(kept)
}

/// The number at a place, or null.
#[tactic(auto, unfolding(crate::specs::Stores::number_at))]
pub(crate) fn number_at(numbers: Numbers<'_>, i: usize) -> Option<i64>
    requires within { i < length numbers.numbers.now }
    requires mask { length numbers.nulls.now ≡ length numbers.numbers.now }
    ensures value { result ≡ number_at numbers.entry i }
{
    if numbers.nulls[i] {
        None
    } else {
        Some(numbers.numbers[i])
    }
}

// Whether a comparison of a number, or of null, with another number is true.
#[tactic(auto, unfolding(crate::specs::Stores::number_test, crate::specs::Stores::is_number_test))]
fn number_test(f: ComparisonFunc, number: Option<i64>, n: i64) -> bool
    ensures { result ≡ number_test f number n }
{
    let Some(m) = number else {
        return match f {
            ComparisonFunc::NotEqual => true,
            _ => false,
        };
    };
    match f {
        ComparisonFunc::Equal => m == n,
        ComparisonFunc::NotEqual => m != n,
        ComparisonFunc::Less => m < n,
        ComparisonFunc::AtMost => m <= n,
        ComparisonFunc::Greater => m > n,
        ComparisonFunc::AtLeast => m >= n,
        _ => false,
    }
}

// Those at which a comparison of a text with another is true.
#[tactic(auto, using(crate::proofs::StoreSteps::text_steps))]
fn kept_by_text(
    alloc: Global,
    f: ComparisonFunc,
    texts: &TextColumn,
    text: &str,
    places: &[usize],
) -> Result<Vec<usize>, AllocError>
    requires within { AreBelow (length texts.now) places.now }
    requires test { IsTrue (is_text_test f) }
    ensures places { IfOk result (λ ps. ps.items ≡ filter (value_compares f (map text_value texts.now) (value.Text text.now)) places.now) }
{
    let mut kept = Vec::new(alloc);
    'places: for place in places {
        let test = text_test(f, texts.get(*place), text);
        push_if(&mut kept, *place, test)?;
    }
    Ok(kept)
}

// Whether a comparison of two texts is true.
#[tactic(auto, unfolding(crate::specs::Stores::text_test))]
fn text_test(f: ComparisonFunc, a: &str, b: &str) -> bool
    ensures { result ≡ text_test f a.now b.now }
{
    match f {
        ComparisonFunc::Equal => a == b,
        ComparisonFunc::NotEqual => a != b,
        _ => false,
    }
}
