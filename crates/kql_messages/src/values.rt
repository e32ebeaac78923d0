//! The type of a part of a query.

use crate::kinds::kind_named;
use crate::pieces::{Piece, Sort};
use crate::seen::Seen;
use crate::sides::{Part, rank_of};
use kql_cells::Kind;
use kql_functions::{Aggregate, Found, Window, find, operators, result_kind};
use std::alloc::{AllocError, Global};

// A value, and the sign behind it.
#[derive(Clone, Copy)]
struct Signed<'a> {
    kind: Kind,
    sign: &'a str,
}

// What stands between brackets so far, or outside of all.
#[derive(Clone, Copy)]
struct Level<'a> {
    // What is called with the brackets, and where its arguments begin.
    name: &'a str,
    first: usize,
    sum: Option<Signed<'a>>,
    product: Option<Signed<'a>>,
    value: Option<Kind>,
    is_condition: bool,
}

// The levels round a piece, the innermost last, and the arguments of the calls among them.
#[derive(Drop)]
struct Reading<'a> {
    outer: Vec<Level<'a>>,
    inner: Level<'a>,
    given: Vec<Kind>,
}

/// The type of a piece that is a value by itself.
pub(crate) fn kind_of_piece(seen: &Seen<'_>, piece: Piece<'_>) -> Option<Kind> {
    match piece.sort {
        Sort::Number => Some(Kind::Long),
        Sort::Span => Some(Kind::Span),
        Sort::Text => Some(Kind::Text),
        Sort::Typed => kind_named(piece.text.split('(').next().unwrap_or("").trim_end()),
        Sort::Word if piece.text == "true" || piece.text == "false" => Some(Kind::Bool),
        Sort::Word => seen.kind_of_column(piece.text),
        _ => None,
    }
}

// The type of two values with a sign between.
fn combined(left: Option<Signed<'_>>, right: Kind) -> Option<Kind> {
    let Some(left) = left else {
        return Some(right);
    };
    for operator in operators() {
        if operator.name() == left.sign {
            return result_kind(*operator, &[left.kind, right]);
        }
    }
    None
}

/// The type that a call gives for arguments of these types.
pub(crate) fn kind_of_call(name: &str, kinds: &[Kind]) -> Option<Kind> {
    match find(name) {
        Found::Scalar(function) => result_kind(function, kinds),
        Found::Window(Window::RowNumber) => Some(Kind::Long),
        Found::Window(_) => kinds.first().copied(),
        Found::Aggregate(
            Aggregate::Count
            | Aggregate::CountIf
            | Aggregate::CountDistinct
            | Aggregate::CountDistinctIf,
        ) => Some(Kind::Long),
        Found::Aggregate(
            Aggregate::Sum
            | Aggregate::SumIf
            | Aggregate::Min
            | Aggregate::MinIf
            | Aggregate::Max
            | Aggregate::MaxIf
            | Aggregate::TakeAny,
        ) => kinds.first().copied(),
        Found::Aggregate(
            Aggregate::MakeList | Aggregate::MakeListIf | Aggregate::MakeSet | Aggregate::MakeSetIf,
        ) => Some(Kind::Dynamic),
        _ => None,
    }
}

impl<'a> Level<'a> {
    fn new(name: &'a str, first: usize) -> Level<'a> {
        Level {
            name,
            first,
            sum: None,
            product: None,
            value: None,
            is_condition: false,
        }
    }

    // The type of the factors so far.
    fn factor(&self) -> Option<Kind> {
        combined(self.product, self.value?)
    }

    // The type of all that stands there.
    fn whole(&self) -> Option<Kind> {
        if self.is_condition {
            return Some(Kind::Bool);
        }
        combined(self.sum, self.factor()?)
    }

    // Goes on behind a sign that binds so tightly.
    fn pass_sign(&mut self, sign: &'a str, rank: u32) -> Option<()> {
        if self.value.is_none() {
            return if sign == "-" { Some(()) } else { None };
        }
        match rank {
            5 => {
                let kind = self.factor()?;
                self.product = Some(Signed { kind, sign });
            }
            4 => {
                let kind = combined(self.sum, self.factor()?)?;
                self.sum = Some(Signed { kind, sign });
                self.product = None;
            }
            _ => {
                self.is_condition = true;
                self.sum = None;
                self.product = None;
            }
        }
        self.value = None;
        Some(())
    }
}

impl<'a> Reading<'a> {
    // Keeps the argument that ends here.
    fn end_argument(&mut self) -> Result<Option<()>, AllocError> {
        let Some(kind) = self.inner.whole() else {
            return Ok(None);
        };
        self.given.push(kind)?;
        self.inner = Level::new(self.inner.name, self.inner.first);
        Ok(Some(()))
    }

    // Goes on behind a bracket that opens, of what is called.
    fn open(&mut self, name: &'a str) -> Result<(), AllocError> {
        self.outer.push(self.inner)?;
        self.inner = Level::new(name, self.given.len());
        Ok(())
    }

    // Goes on behind a bracket that closes.
    fn close(&mut self) -> Result<Option<()>, AllocError> {
        let is_empty = self.inner.value.is_none() && !self.inner.is_condition;
        if !is_empty || self.given.len() > self.inner.first {
            if self.end_argument()?.is_none() {
                return Ok(None);
            }
        }
        let Level { name, first, .. } = self.inner;
        let given = self.given.as_slice().get(first..).unwrap_or(&[]);
        let kind = match name {
            "[" => Some(Kind::Dynamic),
            "" => given.last().copied(),
            _ => kind_of_call(name, given),
        };
        self.given.truncate(first);
        let (Some(kind), Some(outer)) = (kind, self.outer.pop()) else {
            return Ok(None);
        };
        self.inner = outer;
        self.inner.value = Some(kind);
        Ok(Some(()))
    }

    // Goes on behind the piece at a place.
    fn pass(&mut self, seen: &Seen<'a>, at: usize) -> Result<Option<()>, AllocError> {
        let piece = seen.piece(at);
        let before = seen.piece_before(at);
        if before.text == "."
            || piece.sort == Sort::Word
                && seen.piece(at.saturating_add(1)).text == "("
                && !piece.reserved
        {
            return Ok(Some(()));
        }
        match piece.text {
            "(" if before.sort == Sort::Word && !before.reserved => self.open(before.text)?,
            "(" => self.open("")?,
            "[" => self.open("[")?,
            ")" | "]" => return self.close(),
            "," => return self.end_argument(),
            "." => self.inner.value = Some(Kind::Dynamic),
            _ => {
                return Ok(match rank_of(piece) {
                    Some(0) => None,
                    Some(rank) => self.inner.pass_sign(piece.text, rank),
                    None => self.take(kind_of_piece(seen, piece)),
                });
            }
        }
        Ok(Some(()))
    }

    // Takes a value, if its type is known and none stands before it.
    fn take(&mut self, kind: Option<Kind>) -> Option<()> {
        if self.inner.value.is_some() {
            return None;
        }
        self.inner.value = kind;
        kind.map(|_| ())
    }
}

/// The type of a part of a query, if it is an expression over columns and calls whose types are known.
pub(crate) fn kind_of_part(
    alloc: Global,
    seen: &Seen<'_>,
    part: Part,
) -> Result<Option<Kind>, AllocError> {
    let mut reading = Reading {
        outer: Vec::new(alloc),
        inner: Level::new("", 0),
        given: Vec::new(alloc),
    };
    for at in part.from..part.to {
        if reading.pass(seen, at)?.is_none() {
            return Ok(None);
        }
    }
    if !reading.outer.is_empty() {
        return Ok(None);
    }
    Ok(reading.inner.whole())
}
