//! What a bundle gives the machine, and that integrity holds of all runs of every accepted bundle, which go on.
#![tactic(auto)]

mod laws;

pub use laws::{
    bundles_are_serial, bundles_give_settings, bundles_go_on, meanings_are_evaluations,
};
