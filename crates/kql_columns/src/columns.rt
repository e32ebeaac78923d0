//! The columns of the answers of operators.
ghost use Rattle.std.specs.Prelude.{◌≡◌, [], ◌∷◌, ◌++◌, decimal, filter, map, IfOk};
ghost use Rattle.std.specs.List.{list_all};
ghost use Rattle.kql_bound.specs.declared.parts.Decl.{Decl};
ghost use Rattle.kql_bound.specs.declared.parts.OnPair.{OnPair};
ghost use Rattle.kql_meaning.specs.Extend.{extend_columns};
ghost use Rattle.kql_meaning.specs.Items.{items_columns, items_names, named_columns, without};
ghost use Rattle.kql_meaning.specs.Results.{aggregate_result_kinds, result_kinds, typed};
ghost use Rattle.kql_meaning.specs.Join.{both_columns, first_free, free_name, join_columns, renamed};
ghost use Rattle.kql_meaning.specs.MakeSeries.{series_columns, series_item_columns};
ghost use Rattle.kql_meaning.specs.MvExpand.{expand_columns, kind_named, new_columns, replaced_column, replaced_columns};
ghost use Rattle.kql_meaning.specs.Parse.{parse_columns, pattern_columns};
ghost use Rattle.kql_meaning.specs.Scan.{declared_columns, id_columns, scan_columns};
ghost use Rattle.kql_meaning.specs.Sources.{range_columns};
ghost use Rattle.kql_meaning.specs.Summarize.{group_columns};
ghost use Rattle.kql_meaning.specs.Tables.{distinct_by, has_column, is_name_among, names_of};
ghost use Rattle.kql_meaning.specs.TakeAndCount.{count_columns};
ghost use Rattle.kql_meaning.specs.Union.{all_in_order, same_name, union_columns};

use kql_bound::{
    BExpr, BItem, Decl, Expand, ExpandItem, GroupPlan, JoinKind, JoinPlan, Lit, OnPair, ParsePlan,
    PatItem, ScanPlan, SeriesItem, SeriesPlan,
};
use kql_cells::{Column, KText, Kind, Names, copy_columns, copy_names};
use kql_functions::Aggregate;
use kql_items::Items;
use kql_meaning::kind_of;
use std::alloc::{AllocError, Global};

/// Whether a name is one of these.
#[tactic(auto, unfolding(kql_meaning::specs::Tables::is_name_among))]
pub fn is_name_among(names: &[KText], name: &str) -> bool
    ensures among { result ≡ is_name_among names.now name.now }
{
    names.iter().any(|n| n.as_str() == name)
}

/// Whether there is a column of a name.
#[tactic(auto, unfolding(kql_meaning::specs::Tables::has_column, kql_meaning::specs::Tables::is_name_among, kql_meaning::specs::Tables::names_of))]
pub fn has_column(name: &str, columns: &[Column]) -> bool
    ensures stands { result ≡ has_column name.now columns.now }
{
    let mut left = columns;
    'columns: while let Some((column, more)) = left.split_first() {
        if column.name.as_str() == name {
            return true;
        }
        left = more;
    }
    false
}

// Names.

/// The names of columns, in order.
#[tactic(auto, unfolding(kql_meaning::specs::Tables::names_of))]
pub fn names_of(alloc: Global, columns: &[Column]) -> Result<Names, AllocError>
    ensures names { IfOk result (λ ns. ns ≡ names_of columns.now) }
{
    let mut names = Items::with_capacity(alloc, columns.len())?;
    for column in columns {
        let name = column.name.copy(alloc)?;
        names.push(name)?;
    }
    Ok(names)
}

/// The names that items give, in order.
#[tactic(auto, unfolding(kql_meaning::specs::Items::items_names))]
pub fn items_names(alloc: Global, items: &[BItem]) -> Result<Names, AllocError>
    ensures names { IfOk result (λ ns. ns ≡ items_names items.now) }
{
    let mut names = Items::with_capacity(alloc, items.len())?;
    for item in items {
        let more = copy_names(alloc, item.names.as_slice())?;
        names.append(more)?;
    }
    Ok(names)
}

// The columns that have none of these names.
#[tactic(auto, unfolding(kql_meaning::specs::Items::without))]
fn without(alloc: Global, names: &[KText], columns: &[Column]) -> Result<Items<Column>, AllocError>
    ensures columns { IfOk result (λ cs. cs ≡ without names.now columns.now) }
{
    let mut kept = Items::with_capacity(alloc, columns.len())?;
    for column in columns {
        if !is_name_among(names, column.name.as_str()) {
            let copy = column.copy(alloc)?;
            kept.push(copy)?;
        }
    }
    Ok(kept)
}

// Items.

/// The type of an expression; dynamic where it has none.
#[tactic(auto, unfolding(kql_meaning::specs::Results::typed))]
fn typed(alloc: Global, e: &BExpr, columns: &[Column]) -> Result<Kind, AllocError>
    ensures kind { IfOk result (λ k. k ≡ typed e.now columns.now) }
{
    match kind_of(alloc, e, columns)? {
        Some(kind) => Ok(kind),
        None => Ok(Kind::Dynamic),
    }
}

fn typed_all(alloc: Global, args: &[BExpr], columns: &[Column]) -> Result<Items<Kind>, AllocError>
    ensures kinds { IfOk result (λ ks. ks ≡ map (λ a. typed a columns.now) args.now) }
{
    let mut kinds = Items::with_capacity(alloc, args.len())?;
    for arg in args {
        let kind = typed(alloc, arg, columns)?;
        kinds.push(kind)?;
    }
    Ok(kinds)
}

fn one_kind(alloc: Global, kind: Kind) -> Result<Items<Kind>, AllocError>
    ensures kinds { IfOk result (λ ks. ks ≡ kind ∷ []) }
{
    let mut kinds = Items::with_capacity(alloc, 1)?;
    kinds.push(kind)?;
    Ok(kinds)
}

#[tactic(auto, unfolding(kql_meaning::specs::Results::aggregate_result_kinds))]
fn aggregate_result_kinds(
    alloc: Global,
    f: Aggregate,
    args: &[BExpr],
    one: Kind,
    columns: &[Column],
) -> Result<Items<Kind>, AllocError>
    ensures kinds { IfOk result (λ ks. ks ≡ aggregate_result_kinds f args.now one columns.now) }
{
    match f {
        Aggregate::ArgMax => typed_all(alloc, args, columns),
        Aggregate::ArgMin => typed_all(alloc, args, columns),
        Aggregate::TakeAny => typed_all(alloc, args, columns),
        _ => one_kind(alloc, one),
    }
}

/// The types of the result columns of an expression.
#[tactic(auto, using(kql_meaning::proofs::ResultLaws::result_steps))]
pub fn result_kinds(alloc: Global, e: &BExpr, columns: &[Column]) -> Result<Items<Kind>, AllocError>
    ensures kinds { IfOk result (λ ks. ks ≡ result_kinds e.now columns.now) }
{
    let one = typed(alloc, e, columns)?;
    match e {
        BExpr::Literal(_) => one_kind(alloc, one),
        BExpr::Column(_) => one_kind(alloc, one),
        BExpr::Step(_) => one_kind(alloc, one),
        BExpr::Call(_, _) => one_kind(alloc, one),
        BExpr::Chain(_, _) => one_kind(alloc, one),
        BExpr::Path(_, _) => one_kind(alloc, one),
        BExpr::Window(_, _) => one_kind(alloc, one),
        BExpr::Aggregate(f, args) => {
            aggregate_result_kinds(alloc, *f, args.as_slice(), one, columns)
        }
    }
}

// Columns of these names and types.
#[tactic(auto, unfolding(kql_meaning::specs::Items::named_columns))]
fn named_columns(
    alloc: Global,
    names: &[KText],
    kinds: &[Kind],
) -> Result<Items<Column>, AllocError>
    ensures columns { IfOk result (λ cs. cs ≡ named_columns names.now kinds.now) }
{
    let mut made = Items::with_capacity(alloc, names.len())?;
    let mut left = names;
    let mut others = kinds;
    'names: while let Some((name, more)) = left.split_first() {
        let Some((kind, rest)) = others.split_first() else {
            return Ok(made);
        };
        let name = name.copy(alloc)?;
        made.push(Column { name, kind: *kind })?;
        left = more;
        others = rest;
    }
    Ok(made)
}

fn item_columns(
    alloc: Global,
    item: &BItem,
    columns: &[Column],
) -> Result<Items<Column>, AllocError>
    ensures columns { IfOk result (λ cs. cs ≡ named_columns item.now.names (result_kinds item.now.expr columns.now)) }
{
    let kinds = result_kinds(alloc, &item.expr, columns)?;
    named_columns(alloc, item.names.as_slice(), kinds.as_slice())
}

/// The columns that items give, in order.
#[tactic(auto, unfolding(kql_meaning::specs::Items::items_columns))]
pub fn items_columns(
    alloc: Global,
    items: &[BItem],
    columns: &[Column],
) -> Result<Items<Column>, AllocError>
    ensures columns { IfOk result (λ cs. cs ≡ items_columns items.now columns.now) }
{
    let mut made = Items::with_capacity(alloc, items.len())?;
    for item in items {
        let more = item_columns(alloc, item, columns)?;
        made.append(more)?;
    }
    Ok(made)
}

/// The columns of `extend`.
#[tactic(auto, unfolding(kql_meaning::specs::Extend::extend_columns))]
pub fn extend_columns(
    alloc: Global,
    items: &[BItem],
    columns: &[Column],
) -> Result<Items<Column>, AllocError>
    ensures columns { IfOk result (λ cs. cs ≡ extend_columns items.now columns.now) }
{
    let names = items_names(alloc, items)?;
    let mut kept = without(alloc, names.as_slice(), columns)?;
    kept.append(items_columns(alloc, items, columns)?)?;
    Ok(kept)
}

/// The columns of `summarize`.
#[tactic(auto, unfolding(kql_meaning::specs::Summarize::group_columns))]
pub fn group_columns(
    alloc: Global,
    group: &GroupPlan,
    columns: &[Column],
) -> Result<Items<Column>, AllocError>
    ensures columns { IfOk result (λ cs. cs ≡ group_columns group.now columns.now) }
{
    let mut made = items_columns(alloc, group.keys.as_slice(), columns)?;
    made.append(items_columns(alloc, group.items.as_slice(), columns)?)?;
    Ok(made)
}

// The columns of the items of a series.
#[tactic(auto, unfolding(kql_meaning::specs::MakeSeries::series_item_columns))]
fn series_item_columns(alloc: Global, items: &[SeriesItem]) -> Result<Items<Column>, AllocError>
    ensures columns { IfOk result (λ cs. cs ≡ series_item_columns items.now) }
{
    let mut made = Items::with_capacity(alloc, items.len())?;
    for item in items {
        let name = item.name.copy(alloc)?;
        made.push(Column {
            name,
            kind: Kind::Dynamic,
        })?;
    }
    Ok(made)
}

/// The columns of `make-series`.
#[tactic(auto, unfolding(kql_meaning::specs::MakeSeries::series_columns))]
pub fn series_columns(
    alloc: Global,
    series: &SeriesPlan,
    columns: &[Column],
) -> Result<Items<Column>, AllocError>
    ensures columns { IfOk result (λ cs. cs ≡ series_columns series.now columns.now) }
{
    let mut made = items_columns(alloc, series.keys.as_slice(), columns)?;
    made.append(series_item_columns(alloc, series.items.as_slice())?)?;
    let name = series.axis.copy(alloc)?;
    made.push(Column {
        name,
        kind: Kind::Dynamic,
    })?;
    Ok(made)
}

// The type that the item of a name gives.
#[tactic(auto, unfolding(kql_meaning::specs::MvExpand::kind_named, kql_meaning::specs::MvExpand::item_named))]
fn kind_named(items: &[ExpandItem], name: &str) -> Option<Kind>
    ensures kind { result ≡ kind_named items.now name.now }
{
    let mut left = items;
    'items: while let Some((item, more)) = left.split_first() {
        if item.name.as_str() == name {
            return Some(item.to);
        }
        left = more;
    }
    None
}

// An input column, replaced where an item has its name.
#[tactic(auto, unfolding(kql_meaning::specs::MvExpand::replaced_column))]
fn replaced_column(alloc: Global, column: &Column, kind: Option<Kind>) -> Result<Column, AllocError>
    ensures column { IfOk result (λ c. c ≡ replaced_column column.now kind) }
{
    let name = column.name.copy(alloc)?;
    match kind {
        None => Ok(Column {
            name,
            kind: column.kind,
        }),
        Some(kind) => Ok(Column { name, kind }),
    }
}

#[tactic(auto, unfolding(kql_meaning::specs::MvExpand::replaced_columns))]
fn replaced_columns(
    alloc: Global,
    expand: &Expand,
    columns: &[Column],
) -> Result<Items<Column>, AllocError>
    ensures columns { IfOk result (λ cs. cs ≡ replaced_columns expand.now columns.now) }
{
    let mut made = Items::with_capacity(alloc, columns.len())?;
    for column in columns {
        let kind = kind_named(expand.items.as_slice(), column.name.as_str());
        let replaced = replaced_column(alloc, column, kind)?;
        made.push(replaced)?;
    }
    Ok(made)
}

// The columns of the items whose names no input column has.
#[tactic(auto, unfolding(kql_meaning::specs::MvExpand::new_columns, kql_meaning::specs::MvExpand::new_items))]
fn new_columns(
    alloc: Global,
    items: &[ExpandItem],
    columns: &[Column],
) -> Result<Items<Column>, AllocError>
    ensures columns { IfOk result (λ cs. cs ≡ new_columns items.now columns.now) }
{
    let mut made = Items::with_capacity(alloc, items.len())?;
    let mut left = items;
    'items: while let Some((item, more)) = left.split_first() {
        if !has_column(item.name.as_str(), columns) {
            let name = item.name.copy(alloc)?;
            made.push(Column {
                name,
                kind: item.to,
            })?;
        }
        left = more;
    }
    Ok(made)
}

/// The columns of `mv-expand`.
#[tactic(auto, unfolding(kql_meaning::specs::MvExpand::expand_columns))]
pub fn expand_columns(
    alloc: Global,
    expand: &Expand,
    columns: &[Column],
) -> Result<Items<Column>, AllocError>
    ensures columns { IfOk result (λ cs. cs ≡ expand_columns expand.now columns.now) }
{
    let mut made = replaced_columns(alloc, expand, columns)?;
    made.append(new_columns(alloc, expand.items.as_slice(), columns)?)?;
    Ok(made)
}

/// The columns of a pattern.
#[tactic(auto, unfolding(kql_meaning::specs::Parse::pattern_columns))]
pub fn pattern_columns(alloc: Global, pattern: &[PatItem]) -> Result<Items<Column>, AllocError>
    ensures columns { IfOk result (λ cs. cs ≡ pattern_columns pattern.now) }
{
    let mut made = Items::with_capacity(alloc, pattern.len())?;
    let mut left = pattern;
    'items: while let Some((item, more)) = left.split_first() {
        match item {
            PatItem::Star => {}
            PatItem::Literal(_) => {}
            PatItem::Column { name, kind } => {
                let name = name.copy(alloc)?;
                made.push(Column { name, kind: *kind })?;
            }
        }
        left = more;
    }
    Ok(made)
}

/// The columns of `parse`.
#[tactic(auto, unfolding(kql_meaning::specs::Parse::parse_columns, kql_meaning::specs::Parse::pattern_names))]
pub fn parse_columns(
    alloc: Global,
    parse: &ParsePlan,
    columns: &[Column],
) -> Result<Items<Column>, AllocError>
    ensures columns { IfOk result (λ cs. cs ≡ parse_columns parse.now columns.now) }
{
    let made = pattern_columns(alloc, parse.pattern.as_slice())?;
    let names = names_of(alloc, made.as_slice())?;
    let mut kept = without(alloc, names.as_slice(), columns)?;
    kept.append(made)?;
    Ok(kept)
}

// Join and union.

// The names of the right keys.
fn right_keys(alloc: Global, on: &[OnPair]) -> Result<Names, AllocError>
    ensures names { IfOk result (λ ns. ns ≡ map (λ (pair : OnPair). pair.right) on.now) }
{
    let mut names = Items::with_capacity(alloc, on.len())?;
    for pair in on {
        let name = pair.right.copy(alloc)?;
        names.push(name)?;
    }
    Ok(names)
}

// A name with a number at its end.
fn numbered(alloc: Global, name: &str, number: u64) -> Result<KText, AllocError>
    ensures name { IfOk result (λ n. n ≡ name.now ++ decimal number) }
{
    let text = format!(in alloc; "{name}{number}")?;
    Ok(KText::from_string(text))
}

// A name with the smallest number at its end that is free.
#[tactic(auto, using(crate::proofs::ColumnSteps::free_steps))]
fn first_free(alloc: Global, taken: &[Column], name: &str) -> Result<KText, AllocError>
    ensures free { IfOk result (λ n. n ≡ first_free (names_of taken.now) name.now) }
{
    let mut number = 1u64;
    let mut left = taken.len() + 1;
    'numbers: while left > 0 {
        let with_number = numbered(alloc, name, number)?;
        if !has_column(with_number.as_str(), taken) {
            return Ok(with_number);
        }
        number += 1;
        left -= 1;
    }
    KText::from_str(alloc, name)
}

/// The name of a right column beside these: its own, or where that is taken with the smallest free number at its end.
#[tactic(auto, unfolding(kql_meaning::specs::Join::free_name, kql_meaning::specs::Tables::has_column))]
pub fn free_name(alloc: Global, taken: &[Column], name: &str) -> Result<KText, AllocError>
    ensures free { IfOk result (λ n. n ≡ free_name (names_of taken.now) name.now) }
{
    if has_column(name, taken) {
        first_free(alloc, taken, name)
    } else {
        KText::from_str(alloc, name)
    }
}

// Columns, and then the right ones under the names that they get.
#[tactic(auto, using(crate::proofs::ColumnSteps::renamed_steps))]
fn with_renamed(
    alloc: Global,
    left: &[Column],
    right: &[Column],
) -> Result<Items<Column>, AllocError>
    ensures columns { IfOk result (λ cs. cs ≡ left.now ++ renamed (names_of left.now) right.now) }
{
    let mut made = copy_columns(alloc, left)?;
    let mut rest = right;
    'columns: while let Some((column, more)) = rest.split_first() {
        let name = free_name(alloc, made.as_slice(), column.name.as_str())?;
        made.push(Column {
            name,
            kind: column.kind,
        })?;
        rest = more;
    }
    Ok(made)
}

/// The left columns, and then the right ones that a join shows.
#[tactic(auto, unfolding(kql_meaning::specs::Join::both_columns, kql_meaning::specs::Join::shown_columns))]
pub fn both_columns(
    alloc: Global,
    join: &JoinPlan,
    left: &[Column],
    right: &[Column],
) -> Result<Items<Column>, AllocError>
    ensures columns { IfOk result (λ cs. cs ≡ both_columns join.now left.now right.now) }
{
    if join.lookup {
        let keys = right_keys(alloc, join.on.as_slice())?;
        let shown = without(alloc, keys.as_slice(), right)?;
        with_renamed(alloc, left, shown.as_slice())
    } else {
        with_renamed(alloc, left, right)
    }
}

/// The columns of `join` and `lookup`.
#[tactic(auto, unfolding(kql_meaning::specs::Join::join_columns))]
pub fn join_columns(
    alloc: Global,
    join: &JoinPlan,
    left: &[Column],
    right: &[Column],
) -> Result<Items<Column>, AllocError>
    ensures columns { IfOk result (λ cs. cs ≡ join_columns join.now.kind join.now left.now right.now) }
{
    match join.kind {
        JoinKind::LeftSemi => copy_columns(alloc, left),
        JoinKind::LeftAnti => copy_columns(alloc, left),
        JoinKind::RightSemi => copy_columns(alloc, right),
        JoinKind::RightAnti => copy_columns(alloc, right),
        _ => both_columns(alloc, join, left, right),
    }
}

// The columns of tables, one table after another.
#[tactic(auto, using(crate::proofs::ColumnSteps::tables_steps))]
fn all_in_order(alloc: Global, tables: &[Items<Column>]) -> Result<Items<Column>, AllocError>
    ensures columns { IfOk result (λ cs. cs ≡ all_in_order tables.now) }
{
    let mut all = Items::with_capacity(alloc, tables.len())?;
    let mut left = tables;
    'tables: while let Some((columns, more)) = left.split_first() {
        let copies = copy_columns(alloc, columns.as_slice())?;
        all.append(copies)?;
        left = more;
    }
    Ok(all)
}

// The first column of each name.
#[tactic(auto, using(crate::proofs::ColumnSteps::distinct_steps))]
fn distinct_columns(alloc: Global, columns: &[Column]) -> Result<Items<Column>, AllocError>
    ensures columns { IfOk result (λ cs. cs ≡ distinct_by same_name columns.now) }
{
    let mut made = Items::with_capacity(alloc, columns.len())?;
    let mut rest = columns;
    'columns: while let Some((column, more)) = rest.split_first() {
        if !has_column(column.name.as_str(), made.as_slice()) {
            let copy = column.copy(alloc)?;
            made.push(copy)?;
        }
        rest = more;
    }
    Ok(made)
}

// Whether all tables have a column of a name.
fn all_have(name: &str, tables: &[Items<Column>]) -> bool
    ensures stands { result ≡ list_all (has_column name.now) tables.now }
{
    let mut left = tables;
    'tables: while let Some((columns, more)) = left.split_first() {
        if !has_column(name, columns.as_slice()) {
            return false;
        }
        left = more;
    }
    true
}

// The columns that all other tables have.
fn common_columns(
    alloc: Global,
    first: &[Column],
    others: &[Items<Column>],
) -> Result<Items<Column>, AllocError>
    ensures columns { IfOk result (λ cs. cs ≡ filter (λ c. list_all (has_column c.name) others.now) first.now) }
{
    let mut kept = Items::with_capacity(alloc, first.len())?;
    for column in first {
        if all_have(column.name.as_str(), others) {
            let copy = column.copy(alloc)?;
            kept.push(copy)?;
        }
    }
    Ok(kept)
}

/// The columns of `union`.
#[tactic(auto, unfolding(kql_meaning::specs::Union::union_columns))]
pub fn union_columns(
    alloc: Global,
    inner: bool,
    first: &[Column],
    others: &[Items<Column>],
) -> Result<Items<Column>, AllocError>
    ensures columns { IfOk result (λ cs. cs ≡ union_columns inner first.now others.now) }
{
    if inner {
        common_columns(alloc, first, others)
    } else {
        let mut all = copy_columns(alloc, first)?;
        all.append(all_in_order(alloc, others)?)?;
        distinct_columns(alloc, all.as_slice())
    }
}

// Scan and the sources.

/// The columns that a scan declares.
#[tactic(auto, unfolding(kql_meaning::specs::Scan::declared_columns))]
pub fn declared_columns(alloc: Global, scan: &ScanPlan) -> Result<Items<Column>, AllocError>
    ensures columns { IfOk result (λ cs. cs ≡ declared_columns scan.now) }
{
    decl_columns(alloc, scan.declared.as_slice())
}

fn decl_columns(alloc: Global, declared: &[Decl]) -> Result<Items<Column>, AllocError>
    ensures columns { IfOk result (λ cs. cs ≡ map (λ (d : Decl). record { name = d.name; kind = d.default.kind }) declared.now) }
{
    let mut made = Items::with_capacity(alloc, declared.len())?;
    for decl in declared {
        let name = decl.name.copy(alloc)?;
        made.push(Column {
            name,
            kind: decl.default.kind,
        })?;
    }
    Ok(made)
}

// The column of the match id, where it has a name.
#[tactic(auto, unfolding(kql_meaning::specs::Scan::id_columns))]
fn id_columns(alloc: Global, id: &Option<KText>) -> Result<Items<Column>, AllocError>
    ensures columns { IfOk result (λ cs. cs ≡ id_columns id.now) }
{
    let mut made = Items::with_capacity(alloc, 1)?;
    if let Some(name) = id {
        let name = name.copy(alloc)?;
        made.push(Column {
            name,
            kind: Kind::Long,
        })?;
    }
    Ok(made)
}

/// The columns of `scan`.
#[tactic(auto, unfolding(kql_meaning::specs::Scan::scan_columns))]
pub fn scan_columns(
    alloc: Global,
    scan: &ScanPlan,
    columns: &[Column],
) -> Result<Items<Column>, AllocError>
    ensures columns { IfOk result (λ cs. cs ≡ scan_columns scan.now columns.now) }
{
    let mut made = copy_columns(alloc, columns)?;
    made.append(declared_columns(alloc, scan)?)?;
    made.append(id_columns(alloc, &scan.match_id)?)?;
    Ok(made)
}

/// The column of `range`.
#[tactic(auto, unfolding(kql_meaning::specs::Sources::range_columns))]
pub fn range_columns(alloc: Global, column: &KText, from: &Lit) -> Result<Items<Column>, AllocError>
    ensures columns { IfOk result (λ cs. cs ≡ range_columns column.now from.now) }
{
    let mut made = Items::with_capacity(alloc, 1)?;
    let name = column.copy(alloc)?;
    made.push(Column {
        name,
        kind: from.kind,
    })?;
    Ok(made)
}

/// The column of `count`.
#[tactic(auto, unfolding(kql_meaning::specs::TakeAndCount::count_columns))]
pub fn count_columns(alloc: Global) -> Result<Items<Column>, AllocError>
    ensures columns { IfOk result (λ cs. cs ≡ count_columns) }
{
    let mut made = Items::with_capacity(alloc, 1)?;
    let name = KText::from_str(alloc, "Count")?;
    made.push(Column {
        name,
        kind: Kind::Long,
    })?;
    Ok(made)
}
