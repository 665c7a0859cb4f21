//! That erasing agrees with what is done.
ghost use Rattle.fab_erasure.specs.Agreement.{ErasureAgrees, SeesAllAlike};

/// With everything seen and nothing given the erased meaning is the meaning.
pub fn everything_seen()
    ensures { SeesAllAlike }
{}

/// Who sees some labels that are closed under what a program owes them computes by the erased
/// meaning, over the objects that are shown and with the values that were downgraded into view, what
/// of a request is in view, and touches nothing else.
pub fn erasing_agrees()
    ensures { ErasureAgrees }
{}
