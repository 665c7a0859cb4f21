//! What holds of every run.
ghost use Rattle.fab_finite.specs.Finite.{EndsByLines, EndsByStarts, TouchesWhatWasMissing};
ghost use Rattle.fab_world.specs.Machine.{Setting};
ghost use Rattle.fab_world.specs.Serial.{IsEvaluation, IsSetting};

/// No run has more moves than a number that its attempts and recoveries give. Where crash lines are kept, these are
/// few, so that no such run has more moves than a number of the requests, the posts, the nodes and the lines alone:
/// nodes that take what is due come to an end.
pub fn runs_end()
    ensures starts { (S : Setting) → IsSetting S → IsEvaluation S → TouchesWhatWasMissing S → EndsByStarts S }
    ensures lines { (S : Setting) → IsSetting S → IsEvaluation S → TouchesWhatWasMissing S → EndsByLines S }
{}
