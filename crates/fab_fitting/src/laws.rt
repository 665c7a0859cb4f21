//! A law of a bundle's rights. The function does nothing: its contract is the law.

ghost use Rattle.std.specs.Prelude.{◌≡◌};
ghost use Rattle.fab_tree.specs.declared.resolved.Resolved.{Resolved as AnyBundle};
ghost use Rattle.fab_places.specs.Places.{AreRights};
ghost use Rattle.fab_rights.specs.declared.rights.Rights.{Rights};

/// Two rights of one bundle are the same.
pub fn rights_are_one()
    ensures { (r : AnyBundle) (a b : Rights) → AreRights r a → AreRights r b → a ≡ b }
{}
