//! Tests of runs by threads, of the gates that hold them, and of the pool.
#![tactic(auto)]

#[cfg(test)]
mod gate_tests;
#[cfg(test)]
mod left_tests;
#[cfg(test)]
mod pool_tests;
