//! Names of objects, compared.
ghost use Rattle.std.specs.Prelude.{◌≡◌};
ghost use Rattle.fab_base.specs.FlatMap.{is_same};

use fab_base::Oid;

/// Whether two names are one.
pub fn is_same_name(one: Oid, other: Oid) -> bool
    ensures { result ≡ is_same one other }
{
    one == other
}
