//! Who sees what, and of which program a statement is.
ghost use Rattle.std.specs.Prelude.{◌≡◌};
ghost use Rattle.fab_meaning.specs.Sights.{sees, shows};

use fab_places::Seen;
use fab_rights::is_in;
use fab_tree::resolved::Resolved;

/// Who sees what: the whole, or the labels and the classes that have their bits.
#[derive(Clone, Copy, Debug, PartialEq, Eq)]
pub(crate) enum Sight {
    Whole,
    Part(Seen),
}

impl Sight {
    /// Whether the label of this number is seen.
    pub(crate) fn sees(&self, label: u16) -> bool
        ensures { result ≡ sees self.now label }
    {
        match self {
            Sight::Whole => true,
            Sight::Part(seen) => is_in(seen.labels, label),
        }
    }

    /// Whether objects of the class of this number are shown.
    pub(crate) fn shows(&self, class: u16) -> bool
        ensures { result ≡ shows self.now class }
    {
        match self {
            Sight::Whole => true,
            Sight::Part(seen) => is_in(seen.classes, class),
        }
    }
}

/// In what a statement is done: its program, and who sees what.
#[derive(Clone, Copy)]
pub(crate) struct Setting<'a> {
    pub(crate) program: &'a Resolved,
    pub(crate) sight: Sight,
}
