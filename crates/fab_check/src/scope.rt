//! What a statement stands in.
ghost use Rattle.std.specs.Prelude.{◌≡◌, map, option_copied, slice_get};
ghost use Rattle.fab_authority.specs.Authority.{IsFew, IsMask};

use crate::labels::Names;
use fab_authority::set_of;
use fab_tree::resolved::{Method, Resolved, Use};

/// A method of a bundle, with the set of the principals whose authority it has.
#[derive(Clone, Copy)]
pub(crate) struct Scope<'a> {
    pub(crate) names: Names<'a>,
    pub(crate) methods: &'a [Method],
    pub(crate) authority: &'a [Use],
    pub(crate) set: u64,
    ghost is_set: { IsMask (map (λ x. x.number) authority.now) set },
}

impl<'a> Scope<'a> {
    /// The scope of a method.
    pub(crate) fn of(start: &'a Resolved, method: &'a Method) -> Scope<'a>
        requires { IsFew method.now }
        ensures classes { result.names.classes.now ≡ start.now.classes }
        ensures locals { result.names.locals.now ≡ method.now.locals }
        ensures methods { result.methods.now ≡ start.now.methods }
        ensures authority { result.authority.now ≡ method.now.authority }
    {
        let authority = method.authority.as_slice();
        Scope {
            names: Names {
                classes: start.classes.as_slice(),
                locals: method.locals.as_slice(),
            },
            methods: start.methods.as_slice(),
            authority,
            set: set_of(authority),
        }
    }
}

/// The method of a number.
pub(crate) fn method_at<'a>(scope: &Scope<'a>, number: u16) -> Option<&'a Method>
    ensures { option_copied result ≡ slice_get scope.now.methods.now number }
{
    scope.methods.get(usize::from(number))
}
