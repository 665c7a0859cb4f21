//! The crash line that is used now.
ghost use Rattle.std.specs.Prelude.{◌≡◌, ◌==◌, ℕ, slice_get};
ghost use Rattle.std.specs.List.{filter};
ghost use Rattle.std.specs.Option.{option_copied};

use fab_tree::resolved::{Crash, Resolved};

/// The line of a node behind so many crashes.
pub(crate) fn line_at(program: &Resolved, node: u16, crashes: usize) -> Option<&Crash>
    ensures { option_copied result ≡ slice_get (filter (λ c. c.node == node) program.now.crashes) crashes }
{
    program
        .crashes
        .as_slice()
        .iter()
        .filter(|crash| crash.node == node)
        .nth(crashes)
}
