//! What operators call.
ghost use Rattle.std.specs.Prelude.{◌≡◌, ◌<◌, ◌≤◌, ◌-◌, [], All, IfOk, filter, length, map};
ghost use Rattle.kql_cells.specs.Values.{IsWellFormed};
ghost use Rattle.kql_meaning.specs.Expressions.{val};
ghost use Rattle.kql_meaning.specs.FittingExpressions.{is_plain_column};
ghost use Rattle.kql_scalar.specs.Evaluated.{AreSound};
ghost use Rattle.kql_scalar.specs.Held.{held, is_lent};
ghost use Rattle.kql_scalar.specs.Rows.{passes, passes_with, rows};
ghost use Rattle.kql_scalar.specs.Scalar.{IsScalar};
ghost use Rattle.kql_scalar.specs.Shown.{shown};

use crate::lent::Lent;
use crate::lent_column::LentColumn;
use crate::locate::locate;
use crate::node::Located;
use crate::rows::{passes_with, places_in};
use crate::values::value_of;
use crate::values_at::{lent_values, values_at};
use kql_bound::BExpr;
use kql_meaning::kind_of;
use kql_values::{Kind, Row, Schema, Table, Value, Vector};
use std::alloc::{AllocError, Global};

#[tactic(auto, using(crate::proofs::LocatedSteps::located_steps))]
impl Located {
    /// An expression with the places of its columns among these, made once for an operator.
    pub fn new(alloc: Global, e: &BExpr, schema: &Schema) -> Result<Located, AllocError>
        requires { IsScalar e.now }
        ensures parts { IfOk result (λ l. l ≡ record { expr = e.now; columns = schema.now }) }
    {
        let kind = kind_of(alloc, e, schema.columns())?.unwrap_or(Kind::Dynamic);
        let columns = schema.copy(alloc)?;
        let node = locate(alloc, e, schema)?;
        Ok(Located {
            node,
            schema: columns,
            kind,
        })
    }

    /// The value at a row of a table, with step records. It is lent where the table, a literal or a record has it.
    pub fn value<'a>(
        &'a self,
        alloc: Global,
        t: &'a Table,
        i: usize,
        s: &'a [Option<Row>],
    ) -> Result<Lent<'a>, AllocError>
        requires columns { t.now.columns ≡ self.now.columns }
        requires row { i < length t.now.lines }
        requires records { AreSound s.now }
        ensures value { IfOk result (λ l. shown l ≡ val self.now.expr t.now i s.now) }
        ensures form { IfOk result (λ l. IsWellFormed (shown l)) }
    {
        value_of(alloc, &self.node, t, i, s)
    }

    /// Whether the value at a row is true, with step records.
    pub fn is_true_at(
        &self,
        alloc: Global,
        t: &Table,
        i: usize,
        s: &[Option<Row>],
    ) -> Result<bool, AllocError>
        requires columns { t.now.columns ≡ self.now.columns }
        requires row { i < length t.now.lines }
        requires records { AreSound s.now }
        ensures truth { IfOk result (λ b. b ≡ passes_with self.now.expr t.now i s.now) }
    {
        passes_with(alloc, &self.node, t, i, s)
    }

    /// The values at the rows from one on and before another.
    pub fn column_of(
        &self,
        alloc: Global,
        t: &Table,
        from: usize,
        to: usize,
    ) -> Result<Vector, AllocError>
        requires columns { t.now.columns ≡ self.now.columns }
        requires order { from ≤ to }
        requires range { to ≤ length t.now.lines }
        ensures values { IfOk result (λ v. v ≡ map (λ i. val self.now.expr t.now i []) (rows from to)) }
        ensures count { IfOk result (λ v. length v ≡ to - from) }
    {
        values_at(alloc, &self.node, self.kind, t, from, to)
    }

    /// The values at all rows: the table's own vector where the expression is a column alone that is there, else one that is made.
    pub fn lent_column<'a>(&self, alloc: Global, t: &'a Table) -> Result<LentColumn<'a>, AllocError>
        requires columns { t.now.columns ≡ self.now.columns }
        ensures values { IfOk result (λ c. held c ≡ map (λ i. val self.now.expr t.now i []) (rows 0 (length t.now.lines))) }
        ensures count { IfOk result (λ c. length (held c) ≡ length t.now.lines) }
        ensures lent { IfOk result (λ c. is_lent c ≡ is_plain_column self.now.columns self.now.expr) }
    {
        match lent_values(&self.node, t) {
            Some(vector) => Ok(LentColumn::Lent(vector)),
            None => {
                let vector = self.column_of(alloc, t, 0, t.len())?;
                Ok(LentColumn::Made(vector))
            }
        }
    }

    /// The places of these rows at which the value is true, rising.
    pub fn places_where(
        &self,
        alloc: Global,
        t: &Table,
        from: usize,
        to: usize,
    ) -> Result<Vec<usize>, AllocError>
        requires columns { t.now.columns ≡ self.now.columns }
        requires order { from ≤ to }
        requires range { to ≤ length t.now.lines }
        ensures places { IfOk result (λ ps. ps.items ≡ filter (passes self.now.expr t.now) (rows from to)) }
        ensures within { IfOk result (λ ps. All (λ i. i < length t.now.lines) ps.items) }
    {
        places_in(alloc, &self.node, t, from, to)
    }
}

/// The value of an expression at a row of a table, with step records.
pub fn eval(
    alloc: Global,
    e: &BExpr,
    t: &Table,
    i: usize,
    s: &[Option<Row>],
) -> Result<Value, AllocError>
    requires scalar { IsScalar e.now }
    requires row { i < length t.now.lines }
    requires records { AreSound s.now }
    ensures value { IfOk result (λ v. v ≡ val e.now t.now i s.now) }
{
    let located = Located::new(alloc, e, t.schema())?;
    let value = located.value(alloc, t, i, s)?;
    value.into_value(alloc)
}
