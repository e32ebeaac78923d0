//! The places of names, and where expressions and items begin.
ghost use Rattle.std.specs.Prelude.{◌≡◌};
ghost use Rattle.bind_expr.specs.Names.{text_of};
ghost use Rattle.bind_operators.specs.Places.{and_inside, cmp_inside, cmp_place, expr_inside, expr_start, item_start, literal_place, name_place, post_inside, prod_inside, sign_inside, sign_place, sum_inside, sum_start, term_inside, term_place};

use kql_cells::KText;
use kql_lexer::Place;
use kql_syntax::{And, Cmp, Expr, Item, Literal, Name, Post, Prod, Sign, Sum, Term};

/// The place of a name.
#[tactic(auto, unfolding(crate::specs::Places::name_place))]
pub fn name_place(n: &Name) -> Place
    ensures place { result ≡ name_place n.now }
{
    match n {
        Name::Bare(word) => word.place,
        Name::Quoted(place, _) => *place,
    }
}

/// The text of a name.
#[tactic(auto, unfolding(bind_expr::specs::Names::text_of))]
pub fn text_of(n: &Name) -> &KText
    ensures text { result.now ≡ text_of n.now }
{
    match n {
        Name::Bare(word) => &word.text,
        Name::Quoted(_, text) => text,
    }
}

#[tactic(auto, unfolding(crate::specs::Places::literal_place))]
fn literal_place(l: &Literal) -> Place
    ensures place { result ≡ literal_place l.now }
{
    match l {
        Literal::Number(place, _) => *place,
        Literal::Span(place, _) => *place,
        Literal::Text(place, _) => *place,
        Literal::True(place) => *place,
        Literal::False(place) => *place,
        Literal::Typed(place, _, _) => *place,
    }
}

#[tactic(auto, using(crate::proofs::PlaceFacts::term_places))]
fn term_place(t: &Term) -> Place
    ensures place { result ≡ term_place t.now }
{
    match t {
        Term::Literal(l) => literal_place(l),
        Term::Name(n) => name_place(n),
        Term::Call(word, _) => word.place,
        Term::Group(place, _) => *place,
    }
}

#[tactic(auto, using(crate::proofs::PlaceFacts::sign_places))]
fn sign_place(s: &Sign) -> Place
    ensures place { result ≡ sign_place s.now }
{
    match s {
        Sign::Plain(p) => term_place(&p.first),
        Sign::Minus(place, _) => *place,
    }
}

#[tactic(auto, unfolding(crate::specs::Places::sum_start))]
fn sum_start(s: &Sum) -> Place
    ensures place { result ≡ sum_start s.now }
{
    sign_place(&s.first.first)
}

#[tactic(auto, using(crate::proofs::PlaceFacts::cmp_places))]
fn cmp_place(c: &Cmp) -> Place
    ensures place { result ≡ cmp_place c.now }
{
    match c {
        Cmp::Plain(s) => sum_start(s),
        Cmp::Compared(s, _, _) => sum_start(s),
        Cmp::In(s, _, _) => sum_start(s),
        Cmp::Between(s, _, _) => sum_start(s),
    }
}

/// The first token of an expression.
#[tactic(auto, unfolding(crate::specs::Places::expr_start))]
pub fn expr_start(e: &Expr) -> Place
    ensures place { result ≡ expr_start e.now }
{
    cmp_place(&e.first.first)
}

/// The first token of an item: its name, where it is given one.
#[tactic(auto, unfolding(crate::specs::Places::item_start))]
pub fn item_start(item: &Item) -> Place
    ensures place { result ≡ item_start item.now }
{
    match &item.name {
        None => expr_start(&item.value),
        Some(n) => name_place(n),
    }
}

#[cycle(inside)]
#[tactic(auto, using(crate::proofs::PlaceFacts::term_insides))]
fn term_inside(t: &Term) -> Place
    ensures place { result ≡ term_inside t.now }
{
    match t {
        Term::Literal(l) => literal_place(l),
        Term::Name(n) => name_place(n),
        Term::Call(word, _) => word.place,
        Term::Group(_, e) => expr_inside(e.get()),
    }
}

#[cycle(inside)]
#[tactic(auto, using(crate::proofs::PlaceFacts::inner_places))]
fn post_inside(p: &Post) -> Place
    ensures place { result ≡ post_inside p.now }
{
    term_inside(&p.first)
}

#[cycle(inside)]
#[tactic(auto, using(crate::proofs::PlaceFacts::sign_insides))]
fn sign_inside(s: &Sign) -> Place
    ensures place { result ≡ sign_inside s.now }
{
    match s {
        Sign::Plain(p) => post_inside(p),
        Sign::Minus(place, _) => *place,
    }
}

#[cycle(inside)]
#[tactic(auto, using(crate::proofs::PlaceFacts::inner_places))]
fn sum_inside(s: &Sum) -> Place
    ensures place { result ≡ sum_inside s.now }
{
    prod_inside(&s.first)
}

#[cycle(inside)]
#[tactic(auto, using(crate::proofs::PlaceFacts::inner_places))]
fn prod_inside(p: &Prod) -> Place
    ensures place { result ≡ prod_inside p.now }
{
    sign_inside(&p.first)
}

#[cycle(inside)]
#[tactic(auto, using(crate::proofs::PlaceFacts::cmp_insides))]
fn cmp_inside(c: &Cmp) -> Place
    ensures place { result ≡ cmp_inside c.now }
{
    match c {
        Cmp::Plain(s) => sum_inside(s),
        Cmp::Compared(s, _, _) => sum_inside(s),
        Cmp::In(s, _, _) => sum_inside(s),
        Cmp::Between(s, _, _) => sum_inside(s),
    }
}

#[cycle(inside)]
#[tactic(auto, using(crate::proofs::PlaceFacts::inner_places))]
fn and_inside(a: &And) -> Place
    ensures place { result ≡ and_inside a.now }
{
    cmp_inside(&a.first)
}

/// The first token of an expression within brackets: of a call, its function.
#[cycle(inside)]
#[tactic(auto, using(crate::proofs::PlaceFacts::inner_places))]
pub fn expr_inside(e: &Expr) -> Place
    ensures place { result ≡ expr_inside e.now }
{
    and_inside(&e.first)
}
