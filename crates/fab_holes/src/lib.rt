//! Holes of a bundle, the labels that are to be inferred, and the least labels for them: definitions and laws.
#![tactic(auto)]

mod laws;

pub use laws::{
    filling_is_renaming, holes_are_filled_in_turn, lasting_masks_have_what_lies_below,
    least_labels_solve, one_answer, solutions_meet_what_is_owed,
};
