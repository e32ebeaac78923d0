use crate::table::{Made, shows, table_of};
use kql_bound::BKey;
use kql_fits::sort_fits;
use kql_items::Items;
use kql_values::Table;
use order_ops::{sort_rows, top_rows};
use std::alloc::Global;
use std::test::Fail;

// Whether `sort` gives these rows.
fn sorts(alloc: Global, t: &Table, keys: &[BKey], want: &[i64]) -> Made<bool> {
    if !sort_fits(alloc, keys, t.schema().columns())? {
        return Ok(false);
    }
    let sorted = sort_rows(alloc, t, keys)?;
    Ok(shows(&sorted, want))
}

// Whether `top` gives these rows.
fn tops(alloc: Global, t: &Table, n: u64, keys: &[BKey], want: &[i64]) -> Made<bool> {
    if !sort_fits(alloc, keys, t.schema().columns())? {
        return Ok(false);
    }
    let top = top_rows(alloc, t, n, keys)?;
    Ok(shows(&top, want))
}

#[test]
fn no_keys_leave_the_rows(rt: HostRuntime) -> Result<(), Fail> {
    let alloc = rt.alloc();
    let t = table_of(alloc, &[2, 3, 1])?;
    let none = Items::new(alloc);
    assert!(rt; sorts(alloc, &t, none.as_slice(), &[2, 3, 1])?);
    assert!(rt; tops(alloc, &t, 0, none.as_slice(), &[])?);
    assert!(rt; tops(alloc, &t, 2, none.as_slice(), &[2, 3])?);
    assert!(rt; tops(alloc, &t, u64::MAX, none.as_slice(), &[2, 3, 1])?);
    Ok(())
}
