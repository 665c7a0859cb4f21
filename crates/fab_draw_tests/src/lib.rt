//! Tests of pictures: hostile names and bytes, and what is refused, as tables.
#![tactic(auto)]

#[cfg(test)]
mod ending_tests;
#[cfg(test)]
mod hostile_tests;
