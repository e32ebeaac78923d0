//! The trees of queries.

use crate::tree::{Expr, Name, Word};
use kql_cells::KText;
use kql_items::{Boxed, Items};
use kql_lexer::Place;

/// A query: let statements, and a pipe.
#[derive(Drop)]
pub struct Query {
    pub lets: Items<Let>,
    pub main: Pipe,
}

/// A let statement, at the place of its word.
#[derive(Drop)]
pub struct Let {
    pub place: Place,
    pub name: Name,
    pub body: LetBody,
}

/// What a let statement names. A name alone is a pipe.
#[derive(Drop)]
pub enum LetBody {
    Pipe(Pipe),
    Expr(Expr),
}

/// A source and the operators over it.
#[cycle(pipes)]
#[derive(Drop)]
pub struct Pipe {
    pub source: Source,
    pub ops: Items<Op>,
}

/// Where rows come from; all but a table's name with the place of its word.
#[cycle(pipes)]
#[derive(Drop)]
pub enum Source {
    Table(Name),
    Range(Place, Boxed<Range>),
    Print(Place, Items<Item>),
    Union(Place, Union),
}

/// The column of a range, its ends and its step.
#[derive(Drop)]
pub struct Range {
    pub column: Name,
    pub from: Expr,
    pub to: Expr,
    pub step: Expr,
}

/// An operator.
#[cycle(pipes)]
#[derive(Drop)]
pub enum Op {
    Columns(ColumnOp),
    Rows(RowOp),
    Groups(GroupOp),
    Tables(TableOp),
}

/// An operator over columns, with the place of its name.
#[derive(Drop)]
pub enum ColumnOp {
    Where(Place, Expr),
    Extend(Place, Items<Item>),
    Project(Place, Items<Item>),
    Serialize(Place, Items<Item>),
    ProjectAway(Place, Items<Name>),
    ProjectKeep(Place, Items<Name>),
    /// The new names, each with the old one.
    ProjectRename(Place, Items<(Name, Name)>),
}

/// An operator that chooses or orders rows, with the place of its name.
#[derive(Drop)]
pub enum RowOp {
    Take(Place, Expr),
    Limit(Place, Expr),
    Count(Place),
    Sort(Place, Items<Key>),
    Order(Place, Items<Key>),
    Top(Place, Boxed<(Expr, Key)>),
    Distinct(Place, Distinct),
}

/// An operator over groups of rows, or over parts of cells, with the place of its name.
#[derive(Drop)]
pub enum GroupOp {
    Summarize(Place, Summarize),
    MakeSeries(Place, Boxed<MakeSeries>),
    MvExpand(Place, Option<ExpandKind>, Items<Expand>),
    Parse(Place, Option<ParseKind>, Expr, Items<Pat>),
}

/// An operator over other tables, or over runs of rows, with the place of its name.
#[cycle(pipes)]
#[derive(Drop)]
pub enum TableOp {
    Join(Place, Join),
    Lookup(Place, Join),
    Union(Place, Union),
    Scan(Place, Scan),
    Partition(Place, Partition),
}

/// An expression, with a name for its column or without.
#[derive(Drop)]
pub struct Item {
    pub name: Option<Name>,
    pub value: Expr,
}

/// A key to sort by.
#[derive(Drop)]
pub struct Key {
    pub value: Expr,
    pub order: Option<SortOrder>,
    pub nulls: Option<NullsEnd>,
}

/// The order of a key, at the place of its word.
#[derive(Clone, Copy)]
pub enum SortOrder {
    Asc(Place),
    Desc(Place),
}

/// Where nulls stand, at the place of that word, and not of `nulls`.
#[derive(Clone, Copy)]
pub enum NullsEnd {
    First(Place),
    Last(Place),
}

/// All columns, at the place of the star, or some.
#[derive(Drop)]
pub enum Distinct {
    Star(Place),
    Columns(Items<Name>),
}

/// `hint.NAME = VALUE`, at the place of its word.
#[derive(Drop)]
pub struct Hint {
    pub place: Place,
    pub name: Word,
    pub value: HintValue,
}

/// The value of a hint, at its own place.
#[derive(Drop)]
pub enum HintValue {
    Word(Word),
    Number(Place, i64),
}

/// Hints, and what is summarized.
#[derive(Drop)]
pub struct Summarize {
    pub hints: Items<Hint>,
    pub groups: Groups,
}

/// What is summarized.
#[derive(Drop)]
pub enum Groups {
    /// Aggregates, and the keys of their groups, if any.
    Aggregates(Items<Item>, Items<Item>),
    /// Keys alone.
    Keys(Items<Item>),
}

/// Series over an axis.
#[derive(Drop)]
pub struct MakeSeries {
    pub items: Items<Series>,
    pub axis: Name,
    pub from: Expr,
    pub to: Expr,
    pub step: Expr,
    pub keys: Items<Item>,
}

/// A series, with the value of an empty bin.
#[derive(Drop)]
pub struct Series {
    pub item: Item,
    pub default: Option<Expr>,
}

/// The kind of an expansion, at the place of that word, and not of `kind`.
#[derive(Clone, Copy)]
pub enum ExpandKind {
    Bag(Place),
    Array(Place),
}

/// What is expanded, and the word of its type.
#[derive(Drop)]
pub struct Expand {
    pub item: Item,
    pub to: Option<Word>,
}

/// The kind of a pattern, at the place of that word, and not of `kind`.
#[derive(Clone, Copy)]
pub enum ParseKind {
    Simple(Place),
    Relaxed(Place),
}

/// A part of a pattern: anything, at the place of the star; a text, at its own place; or a column with the word of its
/// type.
#[derive(Drop)]
pub enum Pat {
    Star(Place),
    Text(Place, KText),
    Column(Name, Option<Word>),
}

/// What a join or lookup reads beside its input.
#[cycle(pipes)]
#[derive(Drop)]
pub struct Join {
    pub hints: Items<Hint>,
    /// The kind, and the hints after it.
    pub kind: Option<(JoinSign, Items<Hint>)>,
    pub table: TableArg,
    pub on: Items<On>,
}

/// The kind of a join, at the place of that word, and not of `kind`.
#[derive(Clone, Copy)]
pub struct JoinSign {
    pub place: Place,
    pub kind: JoinKind,
}

#[derive(Clone, Copy, PartialEq, Eq)]
pub enum JoinKind {
    InnerUnique,
    Inner,
    LeftOuter,
    RightOuter,
    FullOuter,
    LeftSemi,
    RightSemi,
    LeftAnti,
    RightAnti,
}

/// A key of a join: a column of both sides, or one of each.
#[derive(Drop)]
pub enum On {
    Column(Name),
    Pair(OnPair),
}

/// `$left.NAME == $right.NAME`, with the places of its words and its sign.
#[derive(Drop)]
pub struct OnPair {
    pub left_place: Place,
    pub left: Name,
    pub sign: Place,
    pub right_place: Place,
    pub right: Name,
}

/// Tables one after another.
#[cycle(pipes)]
#[derive(Drop)]
pub struct Union {
    pub kind: Option<UnionKind>,
    pub tables: Items<TableArg>,
}

/// The kind of a union, at the place of that word, and not of `kind`.
#[derive(Clone, Copy)]
pub enum UnionKind {
    Outer(Place),
    Inner(Place),
}

/// A table by name, or a pipe in brackets with the place of the first one.
#[cycle(pipes)]
#[derive(Drop)]
pub enum TableArg {
    Table(Name),
    Pipe(Place, Boxed<Pipe>),
}

/// The steps of a scan.
#[derive(Drop)]
pub struct Scan {
    pub match_id: Option<Name>,
    pub declared: Items<Decl>,
    pub steps: Items<Step>,
}

/// A column of a step's record: its name, the word of its type, and its first value.
#[derive(Drop)]
pub struct Decl {
    pub name: Name,
    pub kind: Word,
    pub default: Option<Expr>,
}

/// A step, at the place of its word.
#[derive(Drop)]
pub struct Step {
    pub place: Place,
    pub name: Name,
    pub output: Option<Output>,
    pub condition: Expr,
    pub sets: Items<(Name, Expr)>,
}

/// Which rows of a step are given out, at the place of that word, and not of `output`.
#[derive(Clone, Copy)]
pub enum Output {
    All(Place),
    Last(Place),
    Nothing(Place),
}

/// Operators for each value of a column.
#[cycle(pipes)]
#[derive(Drop)]
pub struct Partition {
    pub hints: Items<Hint>,
    pub column: Name,
    pub ops: Items<Op>,
}
