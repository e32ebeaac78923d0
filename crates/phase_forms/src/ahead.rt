//! Which operators the next phase takes.
ghost use Rattle.std.specs.Prelude.{◌≡◌, ◌<◌, ◌≤◌, ◌+◌, ◌++◌, ◌∷◌, [], IsFalse, IsTrue, List, drop, length, nat_lt, take};
ghost use Rattle.kql_bound.specs.declared.plan.Op.{Op};
ghost use Rattle.kql_bound.specs.declared.plan.Op.TheVariants as operator;
ghost use Rattle.kql_meaning.specs.RowByRow.{are_plain_parts};
ghost use Rattle.phase_laws.specs.Runs.{are_by_row, is_by_row};
ghost use Rattle.phase_forms.specs.Held.{goes_alone};
ghost use Rattle.phase_forms.specs.Phases.{alone_if, are_columns, ops_phases, part_of, range_if, told};
ghost use Rattle.phase_forms.specs.declared.ahead.Form.TheVariants as phase_form;

use kql_bound::{BItem, ExpandItem, Op};
use plan_terms::{are_plain, column_of, is_plain};

/// How a phase goes.
#[derive(Clone, Copy, Debug, PartialEq, Eq)]
pub enum Form {
    /// Not at all: the table stays as it is.
    Same,
    /// By ranges of rows: operators that read one row at a time.
    Range,
    /// By pieces of its own: one operator.
    Alone,
    /// As one piece: one operator.
    Whole,
}

/// The form of the next phase, and how many operators it takes.
#[derive(Clone, Copy)]
pub struct Ahead {
    pub form: Form,
    pub count: usize,
}

/// The next phase. Its form is that of its first operator; a phase by ranges takes as many operators more as read one row at a time.
#[tactic(auto, using(crate::proofs::PhaseLaws::ahead_steps))]
pub fn look_ahead(op: &Op, more: &[Op], workers: u32) -> Ahead
    ensures some { 0 < result.count }
    ensures within { result.count ≤ length more.now + 1 }
    ensures same { result.form ≡ phase_form.Same → take result.count (op.now ∷ more.now) ≡ operator.Serialize ∷ [] }
    ensures range { result.form ≡ phase_form.Range → IsTrue (are_by_row (take result.count (op.now ∷ more.now))) }
    ensures alone { result.form ≡ phase_form.Alone → result.count ≡ 1 }
    ensures goes { result.form ≡ phase_form.Alone → IsTrue (goes_alone op.now) }
    ensures phases { ops_phases (nat_lt 1 workers) (op.now ∷ more.now) ≡ (part_of (nat_lt 1 workers) op.now).inner ++ (told result.form (part_of (nat_lt 1 workers) op.now).rounds ++ ops_phases (nat_lt 1 workers) (drop result.count (op.now ∷ more.now))) }
{
    match form_of(op, workers > 1) {
        Form::Same => Ahead {
            form: Form::Same,
            count: 1,
        },
        Form::Range => Ahead {
            form: Form::Range,
            count: rows_ahead(more) + 1,
        },
        Form::Alone => Ahead {
            form: Form::Alone,
            count: 1,
        },
        Form::Whole => Ahead {
            form: Form::Whole,
            count: 1,
        },
    }
}

// How an operator goes. A range is copied before an operator other than a filter works on it: several workers win that back where they
// expand or parse, and nobody does where columns are only added or chosen.
#[tactic(auto, using(crate::proofs::FormLaws::form_steps, crate::proofs::AloneLaws::alone_steps))]
fn form_of(op: &Op, many: bool) -> Form
    ensures form { result ≡ (part_of many op.now).form }
    ensures same { result ≡ phase_form.Same → op.now ≡ operator.Serialize }
    ensures goes { result ≡ phase_form.Alone → IsTrue (goes_alone op.now) }
{
    match op {
        Op::Where(e) => range_if(is_plain(e)),
        Op::Extend(_) => alone_if(many),
        Op::Project(items) => alone_if(many && !are_columns(items.as_slice())),
        Op::Take(_) => Form::Whole,
        Op::Count => Form::Whole,
        Op::Serialize => Form::Same,
        Op::Sort(_) => Form::Whole,
        Op::Top(_, _) => alone_if(many),
        Op::Summarize(_) => alone_if(many),
        Op::MakeSeries(_) => alone_if(many),
        Op::MvExpand(expand) => range_if(many && are_plain_parts(expand.items.as_slice())),
        Op::Parse(parse) => range_if(many && is_plain(&parse.text)),
        Op::Join(_, _) => alone_if(many),
        Op::Union(_, _) => Form::Whole,
        Op::Scan(_) => Form::Whole,
        Op::Partition(_, _) => alone_if(many),
    }
}

// By ranges, or as one piece.
fn range_if(goes: bool) -> Form
    ensures form { result ≡ range_if goes }
    ensures same { result ≡ phase_form.Same → ⊥ }
    ensures alone { result ≡ phase_form.Alone → ⊥ }
{
    if goes { Form::Range } else { Form::Whole }
}

// By pieces of its own, or as one piece.
fn alone_if(goes: bool) -> Form
    ensures form { result ≡ alone_if goes }
    ensures same { result ≡ phase_form.Same → ⊥ }
{
    if goes { Form::Alone } else { Form::Whole }
}

// Whether items are columns, which are moved in their turn and not computed.
#[tactic(auto, unfolding(crate::specs::Phases::are_columns))]
fn are_columns(items: &[BItem]) -> bool
    ensures columns { result ≡ are_columns items.now }
{
    let mut left = items;
    'items: while let Some((item, more)) = left.split_first() {
        if column_of(&item.expr).is_none() {
            return false;
        }
        left = more;
    }
    true
}

// How many operators from the front read one row at a time.
fn rows_ahead(ops: &[Op]) -> usize
    ensures within { result ≤ length ops.now }
    ensures by_row { IsTrue (are_by_row (take result ops.now)) }
    ensures most { (o : Op) (os : List Op) → drop result ops.now ≡ o ∷ os → IsFalse (is_by_row o) }
{
    let mut count = 0;
    for op in ops {
        if !is_by_row(op) {
            return count;
        }
        count += 1;
    }
    count
}

// Whether an operator reads one row at a time: `where`, `extend`, `project`, `mv-expand` and `parse` without window functions, and
// `serialize`.
#[tactic(auto, using(phase_laws::proofs::ByRowLaws::by_row_steps))]
fn is_by_row(op: &Op) -> bool
    ensures by_row { result ≡ is_by_row op.now }
{
    match op {
        Op::Where(e) => is_plain(e),
        Op::Extend(items) => are_plain(items.as_slice()),
        Op::Project(items) => are_plain(items.as_slice()),
        Op::Take(_) => false,
        Op::Count => false,
        Op::Serialize => true,
        Op::Sort(_) => false,
        Op::Top(_, _) => false,
        Op::Summarize(_) => false,
        Op::MakeSeries(_) => false,
        Op::MvExpand(expand) => are_plain_parts(expand.items.as_slice()),
        Op::Parse(parse) => is_plain(&parse.text),
        Op::Join(_, _) => false,
        Op::Union(_, _) => false,
        Op::Scan(_) => false,
        Op::Partition(_, _) => false,
    }
}

// Whether what `mv-expand` expands is plain.
#[tactic(auto, unfolding(kql_meaning::specs::RowByRow::are_plain_parts))]
fn are_plain_parts(items: &[ExpandItem]) -> bool
    ensures plain { result ≡ are_plain_parts items.now }
{
    let mut left = items;
    'items: while let Some((item, more)) = left.split_first() {
        if !is_plain(&item.expr) {
            return false;
        }
        left = more;
    }
    true
}
