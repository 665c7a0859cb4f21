//! What holds a value of some type: a parameter or a field.
ghost use Rattle.std.specs.Prelude.{◌≡◌};

use fab_tree::{Field, Parameter, Sort};

/// What holds a value of some type.
pub(crate) trait Taker {
    ghost use Rattle.fab_tree.specs.declared.declaration.Sort.{Sort as Written};

    ghost sort: { Self → Written };

    fn sort(&self) -> &Sort
        ensures { result.now ≡ sort self.now };
}

impl Taker for Parameter {
    ghost sort = { λ p. p.sort };

    fn sort(&self) -> &Sort {
        &self.sort
    }
}

impl Taker for Field {
    ghost sort = { λ f. f.sort };

    fn sort(&self) -> &Sort {
        &self.sort
    }
}
