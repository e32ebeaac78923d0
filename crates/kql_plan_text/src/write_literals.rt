//! Names and literals as text.
ghost use Rattle.std.specs.Prelude.{◌≡◌, ◌++◌, ◌<◌, string_bytes, IfOk, IsTrue, OnOk};
ghost use Rattle.std.specs.Fmt.{decimal, signed_decimal};
ghost use Rattle.std.specs.List.{flat_map};
ghost use Rattle.kql_cells.specs.Dynamic.{is_well_formed_dynamic};
ghost use Rattle.kql_cells.specs.Values.{IsMoment};
ghost use Rattle.kql_ticks.specs.Ranges.{is_moment};
ghost use Rattle.kql_plan_text.specs.Literals.{escaped_byte, escaped_char, lit_text, name_text, null_text, quoted, typed_text, value_text};

use crate::words::kind_word;
use itoa::Buffer;
use kql_bound::Lit;
use kql_cells::{Dyn, KText, Kind, LEVELS_TOP, MOMENT_TOP, Value, has_form, has_levels_within};
use kql_dynamic::print_json;
use kql_lexer::{is_reserved, is_word};
use kql_ticks::{print_moment, print_span};
use std::alloc::{AllocError, Global};

/// Adds a name: itself where it is a word that is not reserved, and else `['name']`.
#[tactic(auto, unfolding(crate::specs::Literals::name_text))]
pub(crate) fn write_name(alloc: Global, text: &mut KText, name: &str) -> Result<(), AllocError>
    ensures added { OnOk result (text.new ≡ text.old ++ name_text name.now) }
{
    if is_word(name) && !is_reserved(name) {
        return text.push_str(name);
    }
    text.push_str("[")?;
    text.push_str(quoted(alloc, '\'', name)?.as_str())?;
    text.push_str("]")
}

/// Adds a string between two double quotes.
pub(crate) fn write_string(alloc: Global, text: &mut KText, t: &str) -> Result<(), AllocError>
    ensures added { OnOk result (text.new ≡ text.old ++ quoted 34 t.now) }
{
    text.push_str(quoted(alloc, '"', t)?.as_str())
}

/// Adds a whole number.
pub(crate) fn write_count(text: &mut KText, n: u64) -> Result<(), AllocError>
    ensures added { OnOk result (text.new ≡ text.old ++ decimal n) }
{
    let mut buffer = Buffer::new();
    text.push_str(buffer.format(n))
}

/// Adds a literal.
pub(crate) fn write_lit(alloc: Global, text: &mut KText, lit: &Lit) -> Result<(), AllocError>
    ensures added { OnOk result (text.new ≡ text.old ++ lit_text lit.now) }
{
    write_value(alloc, text, lit.kind, &lit.value)
}

#[tactic(auto, unfolding(crate::specs::Literals::value_text))]
fn write_value(alloc: Global, text: &mut KText, kind: Kind, value: &Value) -> Result<(), AllocError>
    ensures added { OnOk result (text.new ≡ text.old ++ value_text kind value.now) }
{
    match value {
        Value::Null => write_null(text, kind),
        Value::Bool(true) => text.push_str("true"),
        Value::Bool(false) => text.push_str("false"),
        Value::Long(n) => write_long(text, *n),
        Value::Text(t) => write_string(alloc, text, t.as_str()),
        Value::Moment(x) if is_moment(*x) => {
            write_typed(text, Kind::Moment, print_moment(alloc, *x)?.as_str())
        }
        Value::Moment(_) => write_null(text, Kind::Moment),
        Value::Span(x) => write_typed(text, Kind::Span, print_span(alloc, *x)?.as_str()),
        Value::Dynamic(d) if is_printable(d) => {
            write_typed(text, Kind::Dynamic, print_json(alloc, d)?.as_str())
        }
        Value::Dynamic(_) => write_null(text, Kind::Dynamic),
    }
}

fn write_long(text: &mut KText, n: i64) -> Result<(), AllocError>
    ensures added { OnOk result (text.new ≡ text.old ++ signed_decimal n) }
{
    let mut buffer = Buffer::new();
    text.push_str(buffer.format(n))
}

#[tactic(auto, unfolding(crate::specs::Literals::null_text))]
fn write_null(text: &mut KText, kind: Kind) -> Result<(), AllocError>
    ensures added { OnOk result (text.new ≡ text.old ++ null_text kind) }
{
    text.push_str(kind_word(kind))?;
    text.push_str("(null)")
}

#[tactic(auto, unfolding(crate::specs::Literals::typed_text))]
fn write_typed(text: &mut KText, kind: Kind, inner: &str) -> Result<(), AllocError>
    ensures added { OnOk result (text.new ≡ text.old ++ typed_text kind inner.now) }
{
    text.push_str(kind_word(kind))?;
    text.push_str("(")?;
    text.push_str(inner)?;
    text.push_str(")")
}

#[tactic(auto, using(crate::proofs::Moments::moment_is))]
fn is_moment(x: i64) -> bool
    ensures same { result ≡ is_moment x }
    ensures range { IsTrue result → IsMoment x }
{
    0 <= x && x <= MOMENT_TOP
}

fn is_printable(d: &Dyn) -> bool
    ensures same { result ≡ is_well_formed_dynamic d.now }
{
    has_form(d) && has_levels_within(d, LEVELS_TOP)
}

// A string between two signs of ASCII.
#[tactic(auto, unfolding(crate::specs::Literals::quoted))]
fn quoted(alloc: Global, sign: char, t: &str) -> Result<String, AllocError>
    requires ascii { sign < 128 }
    ensures text { IfOk result (λ s. string_bytes s ≡ quoted sign t.now) }
{
    let mut text = String::with_capacity(alloc, t.len())?;
    text.push(sign)?;
    push_escaped(&mut text, sign, t)?;
    text.push(sign)?;
    Ok(text)
}

#[tactic(auto, using(crate::proofs::Escapes::none_left))]
fn push_escaped(text: &mut String, sign: char, t: &str) -> Result<(), AllocError>
    requires ascii { sign < 128 }
    ensures added { OnOk result (string_bytes text.new ≡ string_bytes text.old ++ flat_map (escaped_byte sign) t.now) }
{
    for c in t.chars() {
        push_char(text, sign, c)?;
    }
    Ok(())
}

// A character with a backslash before it, or in the place of it, where it needs one.
#[tactic(auto, unfolding(crate::specs::Literals::escaped_char))]
fn push_char(text: &mut String, sign: char, c: char) -> Result<(), AllocError>
    requires ascii { sign < 128 }
    ensures added { OnOk result (string_bytes text.new ≡ string_bytes text.old ++ escaped_char sign c) }
{
    if c == '\\' {
        return text.push_str("\\\\");
    }
    if c == sign {
        text.push('\\')?;
        return text.push(sign);
    }
    match c {
        '\n' => text.push_str("\\n"),
        '\r' => text.push_str("\\r"),
        '\t' => text.push_str("\\t"),
        _ => text.push(c),
    }
}
