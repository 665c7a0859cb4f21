//! Tests of what bundles mean and of texts, each library by itself over its public calls, as tables of
//! outside values. They stand apart, so that no library is proved a second time for its tests.
#![tactic(auto)]

#[cfg(test)]
mod labels_tests;
#[cfg(test)]
mod maps_tests;
#[cfg(test)]
mod meaning_tests;
#[cfg(test)]
mod nested_tests;
#[cfg(test)]
mod places_tests;
#[cfg(test)]
mod reports_tests;
#[cfg(test)]
mod secret_tests;
#[cfg(test)]
mod serial_tests;
