ghost use Rattle.std.specs.Prelude.{◌≡◌, ◌++◌, flat_map, fold, length};
ghost use Rattle.std.specs.Hash as fed;
ghost use Rattle.kql_cells.specs.Hashed.{cell_writes, writes_of};
ghost use Rattle.kql_cells.specs.Seen.{seen};

use crate::cell::CellRef;
use crate::dynamic::Dyn;
use crate::text::KText;
use std::hash::{Hash, Hasher};

/// Feeds what a cell shows to a hasher: cells that show the same value feed the same.
pub fn hash_cell<H: Hasher>(cell: CellRef<'_>, state: &mut H)
    ensures fed { state.new ≡ fold H.write state.old (cell_writes (seen cell.entry)) }
{
    match cell {
        CellRef::Null => state.write_u8(2),
        CellRef::Bool(b) => b.hash(state),
        CellRef::Long(n) => n.hash(state),
        CellRef::Text(t) => t.hash(state),
        CellRef::Moment(n) => n.hash(state),
        CellRef::Span(n) => n.hash(state),
        CellRef::Dynamic(d) => hash_dyn(d, state),
    }
}

/// Feeds the kind of a dynamic value to a hasher, and then what it holds.
#[cycle(hash_dyn)]
#[tactic(auto, using(crate::proofs::HashLaws::hash_laws))]
pub fn hash_dyn<H: Hasher>(d: &Dyn, state: &mut H)
    ensures fed { state.new ≡ fold H.write state.old (writes_of d.now) }
{
    match d {
        Dyn::Null => state.write_u8(0),
        Dyn::Bool(b) => {
            state.write_u8(1);
            b.hash(state);
        }
        Dyn::Long(n) => {
            state.write_u8(2);
            n.hash(state);
        }
        Dyn::Text(t) => {
            state.write_u8(3);
            t.as_str().hash(state);
        }
        Dyn::Array(parts) => {
            state.write_u8(4);
            hash_parts(parts.as_slice(), state);
        }
        Dyn::Bag(entries) => {
            state.write_u8(5);
            hash_entries(entries.as_slice(), state);
        }
    }
}

#[cycle(hash_dyn)]
fn hash_parts<H: Hasher>(parts: &[Dyn], state: &mut H)
    ensures { state.new ≡ fold H.write state.old (fed.usize (length parts.now) ++ flat_map writes_of parts.now) }
{
    state.write_usize(parts.len());
    for part in parts {
        hash_dyn(part, state);
    }
}

#[cycle(hash_dyn)]
fn hash_entries<H: Hasher>(entries: &[(KText, Dyn)], state: &mut H)
    ensures { state.new ≡ fold H.write state.old
        (fed.usize (length entries.now) ++ flat_map (λ e. fed.str e.0 ++ writes_of e.1) entries.now) }
{
    state.write_usize(entries.len());
    for entry in entries {
        entry.0.as_str().hash(state);
        hash_dyn(&entry.1, state);
    }
}
