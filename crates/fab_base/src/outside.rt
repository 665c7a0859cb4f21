//! The outside: where bytes come from and go to, each with a count of its faults.

mod memory;
mod standard;
mod sure;
mod traits;

pub use memory::{FailingCalls, MemSink, MemSource};
pub use standard::{StdSink, StdSource};
pub use sure::{SureSink, SureSource, sure_objects_never_fail};
pub use traits::{Failed, Sink, SinkError, Source};
