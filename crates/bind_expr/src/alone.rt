//! Parts of an expression that are one term alone.
ghost use Rattle.std.specs.Prelude.{◌≡◌};
ghost use Rattle.std.specs.Option.{option_copied};
ghost use Rattle.kql_syntax.specs.Alone.{literal_of_term, name_of_term, term_alone, term_of_and, term_of_arg, term_of_cmp, term_of_post, term_of_prod, term_of_sign, term_of_sum};

use kql_syntax::{And, Arg, Cmp, Expr, Literal, Name, Post, Prod, Sign, Sum, Term};

#[tactic(auto, using(crate::proofs::AloneSteps::post_steps))]
fn post_term(p: &Post) -> Option<&Term>
    ensures { option_copied result ≡ term_of_post p.now }
{
    match p.more.as_slice() {
        [] => Some(&p.first),
        [_, ..] => None,
    }
}

#[tactic(auto, using(crate::proofs::AloneSteps::sign_steps))]
fn sign_term(s: &Sign) -> Option<&Term>
    ensures { option_copied result ≡ term_of_sign s.now }
{
    match s {
        Sign::Plain(p) => post_term(p),
        Sign::Minus(_, _) => None,
    }
}

#[tactic(auto, using(crate::proofs::AloneSteps::prod_steps))]
fn prod_term(p: &Prod) -> Option<&Term>
    ensures { option_copied result ≡ term_of_prod p.now }
{
    match p.more.as_slice() {
        [] => sign_term(&p.first),
        [_, ..] => None,
    }
}

/// The term that a sum is alone.
#[tactic(auto, using(crate::proofs::AloneSteps::sum_steps))]
pub(crate) fn sum_term(s: &Sum) -> Option<&Term>
    ensures { option_copied result ≡ term_of_sum s.now }
{
    match s.more.as_slice() {
        [] => prod_term(&s.first),
        [_, ..] => None,
    }
}

#[tactic(auto, using(crate::proofs::AloneSteps::cmp_steps))]
fn cmp_term(c: &Cmp) -> Option<&Term>
    ensures { option_copied result ≡ term_of_cmp c.now }
{
    match c {
        Cmp::Plain(s) => sum_term(s),
        Cmp::Compared(_, _, _) => None,
        Cmp::In(_, _, _) => None,
        Cmp::Between(_, _, _) => None,
    }
}

#[tactic(auto, using(crate::proofs::AloneSteps::and_steps))]
fn and_term(a: &And) -> Option<&Term>
    ensures { option_copied result ≡ term_of_and a.now }
{
    match a.more.as_slice() {
        [] => cmp_term(&a.first),
        [_, ..] => None,
    }
}

#[tactic(auto, using(crate::proofs::AloneSteps::expr_steps))]
fn expr_term(e: &Expr) -> Option<&Term>
    ensures { option_copied result ≡ term_alone e.now }
{
    match e.more.as_slice() {
        [] => and_term(&e.first),
        [_, ..] => None,
    }
}

/// The term that an argument is alone.
#[tactic(auto, using(crate::proofs::AloneSteps::arg_steps))]
pub(crate) fn arg_term(a: &Arg) -> Option<&Term>
    ensures { option_copied result ≡ term_of_arg a.now }
{
    match a {
        Arg::Plain(e) => expr_term(e),
        Arg::Star(_) => None,
    }
}

/// The name that a term is.
#[tactic(auto, using(crate::proofs::AloneSteps::name_steps))]
pub(crate) fn term_name(t: &Term) -> Option<&Name>
    ensures { option_copied result ≡ name_of_term t.now }
{
    match t {
        Term::Literal(_) => None,
        Term::Name(n) => Some(n),
        Term::Call(_, _) => None,
        Term::Group(_, _) => None,
    }
}

/// The literal that a term is.
#[tactic(auto, using(crate::proofs::AloneSteps::literal_steps))]
pub(crate) fn term_literal(t: &Term) -> Option<&Literal>
    ensures { option_copied result ≡ literal_of_term t.now }
{
    match t {
        Term::Literal(l) => Some(l),
        Term::Name(_) => None,
        Term::Call(_, _) => None,
        Term::Group(_, _) => None,
    }
}
