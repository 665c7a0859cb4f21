//! Words of shapes: the kind of a node, the classes and paths of signs.
ghost use Rattle.std.specs.Prelude.{◌≡◌};
ghost use Rattle.fab_svg.specs.Svg.{arrow_class as arrow_class_of, box_class as box_class_of, group_text, life_class as life_class_of, role_text, sign_class as sign_class_of, sign_path as sign_path_of};

use fab_marks::Sign;
use fab_tree::Role;

/// The kind of a node.
pub(crate) fn role_word(role: Role) -> &'static str
    ensures { result.now ≡ role_text role }
{
    match role {
        Role::Principal => "principal",
        Role::Worker { hostile: false } => "worker",
        Role::Worker { hostile: true } => "hostile worker",
        Role::Store { hostile: false } => "store",
        Role::Store { hostile: true } => "hostile store",
    }
}

/// The class of a node's box, by which hostile ones are marked.
pub(crate) fn box_class(role: Role) -> &'static str
    ensures { result.now ≡ box_class_of role }
{
    match role {
        Role::Worker { hostile: true } | Role::Store { hostile: true } => "box hostile",
        _ => "box",
    }
}

/// The class of a part of a node's line.
pub(crate) fn life_class(up: bool) -> &'static str
    ensures { result.now ≡ life_class_of up }
{
    if up { "up" } else { "down" }
}

/// The class of a sign.
pub(crate) fn sign_class(sign: Sign) -> &'static str
    ensures { result.now ≡ sign_class_of sign }
{
    match sign {
        Sign::Begin | Sign::Deliver | Sign::Post => "full",
        Sign::Resume | Sign::Idle | Sign::Recover => "empty",
        Sign::Crash => "cross",
    }
}

/// The path of a sign from its middle on.
pub(crate) fn sign_path(sign: Sign) -> &'static str
    ensures { result.now ≡ sign_path_of sign }
{
    match sign {
        Sign::Begin => "m-5 0a5 5 0 1 0 10 0a5 5 0 1 0-10 0",
        Sign::Resume => "m-4 0a4 4 0 1 0 8 0a4 4 0 1 0-8 0",
        Sign::Deliver => "m-3 0h6",
        Sign::Post | Sign::Idle => "m-5-5h10v10h-10z",
        Sign::Crash => "m-7-7l14 14m0-14l-14 14",
        Sign::Recover => "m0-7l6 12h-12z",
    }
}

/// The class of an arrow.
pub(crate) fn arrow_class(lost: bool) -> &'static str
    ensures { result.now ≡ arrow_class_of lost }
{
    if lost { "lost" } else { "arrow" }
}

/// What opens the group of an arrow.
pub(crate) fn group_opening(stands_out: bool) -> &'static str
    ensures { result.now ≡ group_text stands_out }
{
    if stands_out { "<g class='out'>" } else { "<g>" }
}
