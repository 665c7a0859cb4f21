//! What a bundle's text and the rules of names say of its names, posts and numbers: names are words, posts are
//! bytes, and each number of a worker or store is one's. These are laws, the contracts of calls that do nothing.
#![tactic(auto)]

mod laws;

pub use laws::{events_and_posts_have_nodes, names_are_words, nodes_have_numbers, posts_are_bytes};
