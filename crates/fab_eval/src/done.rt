//! An evaluation that is over.
ghost use Rattle.std.specs.Prelude.{◌≡◌};
ghost use Rattle.fab_eval.specs.Outcomes.{meant_of, outcome_of};

use crate::job::{Job, Outcome};
use fab_base::{Oid, Seq, Value};

/// A job with what it came to, which is what its request means over its answers with 1,000,000 of
/// fuel: the outcome; each touch, a site and an object, once, in the order in which they came first;
/// and the values that were downgraded, each with its site, in order.
#[derive(Drop)]
pub struct Done {
    pub job: Job,
    pub outcome: Outcome,
    pub touches: Seq<(u16, Oid)>,
    pub downs: Seq<(u16, Value)>,
    pub ghost outcome_meant: { outcome ≡ outcome_of job },
    pub ghost touches_meant: { touches ≡ (meant_of job).touches },
    pub ghost downs_meant: { downs ≡ (meant_of job).downs },
}
