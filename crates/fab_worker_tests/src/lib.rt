//! Tests of workers of whole bundles, by calls and by transcripts of them. They stand apart, so that what gives a
//! bundle's nodes their program isn't proved a second time for them.
#![tactic(auto)]

#[cfg(test)]
mod bundles;
#[cfg(test)]
mod tests;
#[cfg(test)]
mod told;
#[cfg(test)]
mod trial;
