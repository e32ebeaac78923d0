//! Operands and arguments, with their types.

ghost use Rattle.std.specs.Prelude.{◌≡◌, IfSome, Some};
ghost use Rattle.kql_messages.specs.Facts.{kind_among, told_as};
ghost use Rattle.kql_messages.specs.declared.operands.Form.TheVariants as form;

use crate::kinds::{column_of, kind_among, value_of};
use crate::pieces::Sort;
use crate::query::KnownColumn;
use crate::seen::Seen;
use crate::sides::{Part, left_of, right_from};
use crate::values::kind_of_part;
use crate::words::front;
use kql_cells::Kind;
use std::alloc::{AllocError, Global};

/// What an operand is written as.
#[derive(Clone, Copy, PartialEq)]
pub(crate) enum Form {
    Column,
    Literal,
    Expression,
}

/// An operand whose type is known.
#[derive(Clone, Copy)]
pub(crate) struct Operand<'a> {
    pub(crate) text: &'a str,
    pub(crate) kind: Kind,
    pub(crate) form: Form,
}

impl Operand<'_> {
    /// What it is, as `a string column`.
    #[tactic(auto, unfolding(crate::specs::Facts::told_as))]
    pub(crate) fn told(&self) -> &'static str
        ensures { result.now ≡ told_as self.now.kind self.now.form }
    {
        match self.form {
            Form::Column => column_of(self.kind),
            Form::Literal => value_of(self.kind),
            Form::Expression => value_of(self.kind),
        }
    }

    /// Whether it is a text in quotes.
    pub(crate) fn is_quoted(&self) -> bool {
        self.kind == Kind::Text && self.form == Form::Literal
    }
}

// How many characters of an operand are shown.
const SHOWN: usize = 40;

// A part without the brackets round all of it.
fn unbracketed(seen: &Seen<'_>, part: Part) -> Part {
    let inner = right_from(seen, part.from.saturating_add(1), 0);
    if seen.piece(part.from).text == "(" && inner.to.saturating_add(1) == part.to {
        inner
    } else {
        part
    }
}

// A column as an operand, where its type is known.
fn column_operand<'a>(columns: &[KnownColumn<'_>], name: &'a str) -> Option<Operand<'a>>
    ensures column { IfSome result (λ o. (o.form ≡ form.Column) × (o.text.now ≡ name.now) × (kind_among columns.now name.now ≡ Some o.kind)) }
{
    let kind = kind_among(columns, name)?;
    Some(Operand {
        text: name,
        kind,
        form: Form::Column,
    })
}

/// A part of a query as an operand, where its type is known; what is too long to be shown is called by these words.
pub(crate) fn operand_of<'a>(
    alloc: Global,
    seen: &Seen<'a>,
    part: Part,
    otherwise: &'static str,
) -> Result<Option<Operand<'a>>, AllocError> {
    let part = unbracketed(seen, part);
    let first = seen.piece(part.from);
    let is_single = part.from.saturating_add(1) == part.to;
    if is_single && first.sort == Sort::Word && !first.reserved {
        return Ok(column_operand(seen.refused.columns, first.text));
    }
    let Some(kind) = kind_of_part(alloc, seen, part)? else {
        return Ok(None);
    };
    let text = seen.text_of(part);
    Ok(Some(Operand {
        text: if front(text, SHOWN).len() < text.len() {
            otherwise
        } else {
            text
        },
        kind,
        form: if is_single {
            Form::Literal
        } else {
            Form::Expression
        },
    }))
}

/// The operand before the sign at the place, which binds so tightly.
pub(crate) fn left_operand<'a>(
    alloc: Global,
    seen: &Seen<'a>,
    rank: u32,
) -> Result<Option<Operand<'a>>, AllocError> {
    operand_of(alloc, seen, left_of(seen, rank), "what stands before it")
}

/// The operand behind that sign.
pub(crate) fn right_operand<'a>(
    alloc: Global,
    seen: &Seen<'a>,
    rank: u32,
) -> Result<Option<Operand<'a>>, AllocError> {
    let behind = seen.at().saturating_add(1);
    operand_of(
        alloc,
        seen,
        right_from(seen, behind, rank),
        "what stands behind it",
    )
}

/// The expressions behind the bracket that opens at a place, with commas or points between; none where a type is not known.
pub(crate) fn listed<'a>(
    alloc: Global,
    seen: &Seen<'a>,
    open: usize,
) -> Result<Vec<Operand<'a>>, AllocError> {
    let mut found = Vec::new(alloc);
    let mut from = open.saturating_add(1);
    for _ in from..seen.count() {
        let part = right_from(seen, from, 0);
        let Some(operand) = operand_of(alloc, seen, part, "one of its arguments")? else {
            return Ok(Vec::new(alloc));
        };
        found.push(operand)?;
        if seen.piece(part.to).text != "," && seen.piece(part.to).text != ".." {
            break;
        }
        from = part.to.saturating_add(1);
    }
    Ok(found)
}
