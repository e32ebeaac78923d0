ghost use Rattle.std.specs.Prelude.{◌≡◌};
ghost use Rattle.kql_cells.specs.Hashed.{writes_of};
ghost use Rattle.kql_cells.specs.Same.{same};

use kql_cells::{Dyn, hash_dyn, same_dyn};
use std::hash::{Hash, Hasher};
use std::marker::Model;

// A dynamic value that is lent, as a key of a set. Equal values feed a hasher the same.
#[derive(Drop)]
pub(crate) struct DynRef<'a> {
    value: &'a Dyn,
}

impl<'a> Model for DynRef<'a> {
    ghost use Rattle.kql_cells.specs.contracts.dynamic.Dyn as dynamic;
    ghost use Rattle.kql_cells.specs.declared.dynamic.Dyn.{Dyn};

    ghost Value = { Dyn };

    ghost coded = { dynamic.the_row.coded };

    ghost view = { λ k. k.value.now };
}

impl<'a> DynRef<'a> {
    pub(crate) fn new(value: &'a Dyn) -> DynRef<'a>
        ensures { result ≡ value.now }
    {
        DynRef { value }
    }
}

impl<'a> PartialEq for DynRef<'a> {
    ghost use Rattle.std.specs.Cmp.{partial_equiv_from_equiv};
    ghost use Rattle.kql_cells.specs.Same.{same, same-equiv};

    ghost eq = { same };

    ghost laws = { partial_equiv_from_equiv same-equiv };

    fn eq(&self, other: &DynRef<'a>) -> bool {
        same(self.value, other.value)
    }
}

impl<'a> Eq for DynRef<'a> {
    ghost use Rattle.kql_cells.specs.Same.{same-equiv};

    ghost laws = { same-equiv };
}

impl<'a> Hash for DynRef<'a> {
    ghost use Rattle.kql_cells.specs.Same.{same_alike};

    ghost hash_input = { writes_of };

    ghost respects_eq = { same_alike writes_of };

    fn hash<H: Hasher>(&self, state: &mut H) {
        hash_dyn(self.value, state);
    }
}

// Whether two values are identical.
pub(crate) fn same(a: &Dyn, b: &Dyn) -> bool
    ensures { result ≡ same a.now b.now }
{
    same_dyn(a, b)
}
