//! Laws of what requests do over a flat map, as the contracts of calls that do nothing.
#![tactic(auto)]

mod laws;

pub use laws::{
    changes_carry_over, fuel_never_rises, made_names_are_new, names_pass_as_before,
    nothing_missing, objects_keep_their_shape, only_changed_names_change, same_until_missing,
    touches_come_from_somewhere, touches_go_on, touches_stay_within_limits,
    written_names_are_known,
};
