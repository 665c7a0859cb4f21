//! Tests of the top call over sources, sinks, journals and gates that a program over files doesn't have. What words and a text
//! give stands in `cases`, and is run on the built program.
#![tactic(auto)]

#[cfg(test)]
mod fault_tests;
#[cfg(test)]
mod gate_tests;
#[cfg(test)]
mod journal_tests;
#[cfg(test)]
mod replay_tests;
#[cfg(test)]
mod run_tests;
#[cfg(test)]
mod sink_tests;
#[cfg(test)]
mod tests;
#[cfg(test)]
mod view_tests;
#[cfg(test)]
mod watch_tests;
