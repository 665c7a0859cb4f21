//! What a robust declassification asks for.

/// At a place, the integrity of a label is to flow to that of a principal alone, by their numbers.
#[derive(Clone, Copy, Debug, PartialEq, Eq)]
pub struct Guard {
    pub at: u32,
    pub source: u16,
    pub principal: u16,
}
