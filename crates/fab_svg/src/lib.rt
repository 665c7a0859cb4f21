//! The text of a picture, in SVG: its shapes with their places in pixels, and every text of a name or of
//! bytes escaped.
#![tactic(auto)]

mod elements;
mod escaped;
mod laws;
mod picture;
mod places;
mod shapes;
mod words;

pub use laws::{each_mark_is_a_line, escaped_text_is_plain};
pub use picture::svg;
