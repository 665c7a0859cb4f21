//! Trusted replay and robust declassifications.
ghost use Rattle.fab_trusted.specs.Agreement.{OutsideReplayAgrees, RobustValuesTrusted, TrustedReplayAgrees};

/// Whatever set of nodes is distrusted, as long as the hostile ones are among them: what the others hold of
/// the classes that none of the set can have influenced is trusted replay of the commits, those of all workers
/// that aren't hostile, or those of the workers outside the set alone. No answer enters it but by the endorsed
/// values. Which requests are committed, in which order and with which attempt, the set may decide.
pub fn trusted_replay_agrees()
    ensures agrees { TrustedReplayAgrees }
    ensures outside { OutsideReplayAgrees }
{}

/// Each commit ends when it is replayed so. In a robust program a site that declassifies with the authority
/// of a principal for whom no node of the set acts lets out, in every committed attempt, the values that
/// trusted replay gives: of what the set answers these hang on endorsed values alone.
pub fn robust_values_trusted()
    ensures { RobustValuesTrusted }
{}
