//! The order of transactions. The function does nothing: its contract is the law.

ghost use Rattle.std.specs.Prelude.{◌≡◌};
ghost use Rattle.std.specs.Ordering.{is_gt, partial_gt};
ghost use Rattle.fab_base.specs.declared.object.Tid.{Tid as Name};
ghost use Rattle.fab_base.specs.Tids.{is_above};

use crate::object::Tid;

/// Among the transactions of one worker, the derived order of names is that of boots and numbers.
pub fn above_is_the_derived_order()
    ensures { (t last : Name) → t.worker ≡ last.worker → partial_gt ⟦<Tid as PartialOrd>⟧.partial_cmp t last ≡ is_above t last }
{}
