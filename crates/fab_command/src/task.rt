//! What a command line may ask for.

use crate::command::Command;

/// What a command line may ask for.
#[derive(Debug, Drop)]
pub enum Task {
    /// What a command replies to the text that is read.
    Reply(Command),
    /// The text of the bundle that is made up from a number and a size.
    Generate { number: u32, size: u32 },
    /// A run of that bundle's nodes, each by itself, and its summary.
    Drill { number: u32, size: u32 },
}
