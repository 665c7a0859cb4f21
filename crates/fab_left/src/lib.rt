//! What is left of a request at a point, by definitions and laws.
#![tactic(auto)]

mod laws;

pub use laws::{
    acts_carry_over, acts_cost_one, acts_leave_no_new_objects, answers_go_on, calls_enter,
    deeds_are_put_behind, ends_unwind, failures_unwind, meanings_are_split, misses_change_little,
    pauses_go_on, requests_begin, requests_end_so, statements_lead_on, steps_end_so,
    steps_keep_what_is_left, steps_leave_no_new_objects, steps_that_lack, what_is_over_passes,
};
