//! Label inference: the least labels for the holes of a bundle, or why there are none, and the bundle
//! with labels for its holes.
#![tactic(auto)]

mod below;
mod choice;
mod closing;
mod declared;
mod error;
mod filled;
mod flows;
mod held;
mod labels;
mod laws;
mod least;
mod masks;
mod opened;
mod places;
mod rows;
mod scope;
mod whole;

pub use error::InferError;
pub use filled::fill;
pub use held::holes;
pub use laws::{filled_bundles_keep_the_rules_of_names, numbered_bundles_are_taken};
pub use whole::infer;
