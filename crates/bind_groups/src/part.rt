use bind_expr::Typed;
use kql_bound::{ExpandItems, Lit, SeriesItems};
use kql_cells::{KText, Kind};
use kql_items::Items;
use kql_lexer::Place;

/// A bound item of `make-series`, with what it gives for a bin without rows.
#[derive(Debug, Drop)]
pub struct SeriesPart {
    pub typed: Typed,
    pub default: Lit,
}

/// Items of `make-series` bound so far.
#[derive(Debug, Drop)]
pub struct NamedSeries {
    /// Under their names.
    pub items: SeriesItems,
    /// The places of their first tokens.
    pub places: Items<Place>,
    /// The number of the next column that has no name by itself.
    pub next: u64,
}

/// The axis of `make-series`: the name of its column, and its bins.
#[derive(Debug, Drop)]
pub struct Axis {
    pub name: KText,
    pub from: Lit,
    pub to: Lit,
    pub step: Lit,
}

/// A bound item of `mv-expand`, with the type that its parts are converted to.
#[derive(Debug, Drop)]
pub struct ExpandPart {
    pub typed: Typed,
    pub to: Kind,
}

/// Items of `mv-expand` bound so far.
#[derive(Debug, Drop)]
pub struct NamedExpands {
    /// Under their names.
    pub items: ExpandItems,
    /// The places of their first tokens.
    pub places: Items<Place>,
    /// The number of the next column that has no name by itself.
    pub next: u64,
}
