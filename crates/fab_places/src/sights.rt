//! What a set of workers and stores reads, and what it can't have influenced.

ghost use Rattle.std.specs.Prelude.{◌≡◌, ℕ, ◌<◌, ◌≤◌, ◌↔◌, IsTrue, IsBitSet, IsSomeAnd, slice_get, length};
ghost use Rattle.fab_language.specs.Flows.{delegations_of};
ghost use Rattle.fab_labelling.specs.Readers.{IsVisible, Excludes, label_at};
ghost use Rattle.fab_places.specs.Places.{ClassIsVisible, ClassExcludes};

use crate::masks::{Seen, mask_of};
use crate::nodes::{influencing, reading};
use fab_principals::Acts;
use fab_tree::resolved::Resolved;

/// Whether one of the nodes may read what has the label of this number.
fn is_visible(start: &Resolved, acts: &Acts, nodes: u64, label: u16) -> bool
    requires of { acts.now ≡ delegations_of start.now }
    requires few { length start.now.nodes ≤ 64 }
    ensures { IsTrue result ↔ IsVisible start.now acts.now nodes (label_at start.now label) }
{
    nodes & reading(start, acts, label) != 0
}

/// Whether one of them may read objects of the class of this number.
fn is_class_visible(start: &Resolved, acts: &Acts, nodes: u64, class: u16) -> bool
    requires of { acts.now ≡ delegations_of start.now }
    requires few { length start.now.nodes ≤ 64 }
    ensures { IsTrue result ↔ ClassIsVisible start.now acts.now nodes class }
{
    match start.classes.as_slice().get(usize::from(class)) {
        Some(class) => is_visible(start, acts, nodes, class.label.number),
        None => false,
    }
}

/// Whether none of them may have influenced what has the label of this number.
fn is_excluding(start: &Resolved, acts: &Acts, nodes: u64, label: u16) -> bool
    requires of { acts.now ≡ delegations_of start.now }
    requires few { length start.now.nodes ≤ 64 }
    ensures { IsTrue result ↔ Excludes start.now acts.now nodes (label_at start.now label) }
{
    nodes & influencing(start, acts, label) == 0
}

/// Whether none of them may have influenced objects of the class of this number.
fn is_class_excluding(start: &Resolved, acts: &Acts, nodes: u64, class: u16) -> bool
    requires of { acts.now ≡ delegations_of start.now }
    requires few { length start.now.nodes ≤ 64 }
    ensures { IsTrue result ↔ ClassExcludes start.now acts.now nodes class }
{
    match start.classes.as_slice().get(usize::from(class)) {
        Some(class) => is_excluding(start, acts, nodes, class.label.number),
        None => false,
    }
}

/// What one of the nodes may read: bit n of a mask of nodes stands for node n.
pub fn seen(start: &Resolved, acts: &Acts, nodes: u64) -> Seen
    requires of { acts.now ≡ delegations_of start.now }
    requires few { length start.now.nodes ≤ 64 }
    requires few_labels { length start.now.labels ≤ 64 }
    requires few_classes { length start.now.classes ≤ 64 }
    ensures labels { (l : ℕ) → IsBitSet result.labels l
        ↔ ((l < length start.now.labels) × IsVisible start.now acts.now nodes (label_at start.now l)) }
    ensures classes { (c : ℕ) → IsBitSet result.classes c ↔ ClassIsVisible start.now acts.now nodes c }
{
    let labels = start.labels.len() as u16;
    let classes = start.classes.len() as u16;
    Seen {
        labels: mask_of(labels, |l| is_visible(start, acts, nodes, l)),
        classes: mask_of(classes, |c| is_class_visible(start, acts, nodes, c)),
    }
}

/// What none of the nodes may have influenced.
pub fn trusted(start: &Resolved, acts: &Acts, nodes: u64) -> Seen
    requires of { acts.now ≡ delegations_of start.now }
    requires few { length start.now.nodes ≤ 64 }
    requires few_labels { length start.now.labels ≤ 64 }
    requires few_classes { length start.now.classes ≤ 64 }
    ensures labels { (l : ℕ) → IsBitSet result.labels l
        ↔ ((l < length start.now.labels) × Excludes start.now acts.now nodes (label_at start.now l)) }
    ensures classes { (c : ℕ) → IsBitSet result.classes c ↔ ClassExcludes start.now acts.now nodes c }
{
    let labels = start.labels.len() as u16;
    Seen {
        labels: mask_of(labels, |l| is_excluding(start, acts, nodes, l)),
        classes: excluding(start, acts, nodes),
    }
}

/// The classes whose objects none of the nodes may have influenced.
pub fn excluding(start: &Resolved, acts: &Acts, nodes: u64) -> u64
    requires of { acts.now ≡ delegations_of start.now }
    requires few { length start.now.nodes ≤ 64 }
    requires few_classes { length start.now.classes ≤ 64 }
    ensures exact { (c : ℕ) → IsBitSet result c ↔ ClassExcludes start.now acts.now nodes c }
{
    let classes = start.classes.len() as u16;
    mask_of(classes, |c| is_class_excluding(start, acts, nodes, c))
}
