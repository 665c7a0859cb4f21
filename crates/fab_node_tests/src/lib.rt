//! Tests of what nodes are made of, each library by itself over its public calls, as tables of outside
//! values. They stand apart, so that no library is proved a second time for its tests.
#![tactic(auto)]

#[cfg(test)]
mod cache_tests;
#[cfg(test)]
mod commit_tests;
#[cfg(test)]
mod journal_tests;
#[cfg(test)]
mod locks_tests;
#[cfg(test)]
mod queues_tests;
#[cfg(test)]
mod session_tests;
#[cfg(test)]
mod shelf_tests;
#[cfg(test)]
mod store_tests;
#[cfg(test)]
mod versions_tests;
#[cfg(test)]
mod wire_tests;
