//! A bundle made up from two numbers, for tests and measurements: four workers that each move money
//! among as many accounts of their own as is asked for.
#![tactic(auto)]

mod generator;

pub use generator::generated;
