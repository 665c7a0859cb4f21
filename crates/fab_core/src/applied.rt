//! Whether an event was done.

/// Whether an event was done, or was cut since a call of the journal of its node failed, for good.
#[derive(Clone, Copy, Debug, PartialEq, Eq)]
pub enum Applied {
    Whole,
    Cut,
}
