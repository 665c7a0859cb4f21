//! The rules of labels, and what breaks one.

/// A rule of labels, in the order in which a refusal names them at one place.
#[derive(Clone, Copy, Debug, PartialEq, Eq)]
pub enum LabelRule {
    /// A store may hold the class of an object.
    Placement,
    /// What decided on a call flows to the label under which the method begins.
    Begin,
    /// What decided on an `atomic` flows to its label.
    Atomic,
    /// What is written flows to where it is written.
    Write,
    /// What an object is asked for under may be learned by the store that holds it.
    Access,
    /// What decided on a failure flows to where it is caught.
    Fail,
    /// A method may declassify a value.
    Declassify,
    /// A method may endorse a value.
    Endorse,
    /// A worker acts for those whose authority its request uses.
    Authority,
}

/// One side of a flow that a rule asks for: a label, or a principal, workers and stores included, by
/// its number; or a failure label that isn't there.
#[derive(Clone, Copy, Debug, PartialEq, Eq)]
pub enum Side {
    Label(u16),
    Principal(u16),
    Absent,
}

/// Where a bundle breaks a rule of labels, and what doesn't flow where. The place is in bytes from 0.
#[derive(Clone, Copy, Debug, PartialEq, Eq)]
pub struct Refusal {
    pub rule: LabelRule,
    pub at: u32,
    pub source: Side,
    pub target: Side,
}
