//! Runs of bundles over journals, with a report that tells of the run. The schedule's comes here, its events one
//! after the other, on this thread. How else a run may be made stands above: between its start and its end.
#![tactic(auto)]

mod answers;
mod beginning;
mod course;
mod ending;
mod events;
mod honest;
mod integral;
mod isolated;
mod journals;
mod laws;
mod reading;
mod replayed;
mod running;
mod trust;
mod view;
mod whole;

pub use answers::report_of;
pub use course::{ByCall, ByHand, Course, make_run};
pub use honest::honest_nodes;
pub use integral::is_integral;
pub use isolated::is_isolated;
pub use laws::{no_fault_is_hidden, replays_are_exact, runs_have_one_answer, views_are_public};
pub use reading::read_in;
pub use replayed::{Replayed, Told, Wanted};
pub use running::{Came, come_next, fail_next};
pub use trust::{first_unkept, is_trusted, trust_in};
pub use view::view_into;
