//! Isolation: what the nodes outside a set have sent into it is the public replay of what was released.
#![tactic(auto)]

mod laws;

pub use laws::{
    bundles_are_followed, bundles_post_few, isolated_are_alike, rights_are_public,
    sights_are_public,
};
