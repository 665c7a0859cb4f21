//! Laws of acting for another.
ghost use Rattle.std.specs.Prelude.{ℕ};
ghost use Rattle.fab_base.specs.Principals.{Delegations, ActsFor};

/// To act for is reflexive and transitive, whatever is declared.
pub fn acts_for_laws()
    ensures reflexive { (d : Delegations) (p : ℕ) → ActsFor d p p }
    ensures transitive { (d : Delegations) (p q r : ℕ) → ActsFor d p q → ActsFor d q r → ActsFor d p r }
{}
