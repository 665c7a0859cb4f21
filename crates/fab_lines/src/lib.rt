//! Printed forms: values, names of objects, and objects, each as bytes at the end of a text. Where
//! memory runs out, the text may have lost or gained something, and isn't to be used.
#![tactic(auto)]

mod names;
mod objects;

pub use names::{class_name, name_at, node_name, put_hex, put_name};
pub use objects::{put_objects, put_result, put_value, put_values, put_word, stop_word};
