//! What holds of the run that a right report tells.
ghost use Rattle.std.specs.Prelude.{ℕ, List};
ghost use Rattle.fab_audit.specs.Right.{IsRight};
ghost use Rattle.fab_audited.specs.Sound.{IsSound};
ghost use Rattle.fab_core.specs.Starts.{given_by};
ghost use Rattle.fab_language.specs.Numbers.{resolved};
ghost use Rattle.fab_rights.specs.declared.rights.Rights.{Rights};
ghost use Rattle.fab_settings.specs.Settings.{IsAcceptedWith};
ghost use Rattle.fab_tree.specs.declared.start.Start.{Start};

use fab_places::outsiders_write_and_hold_nothing;
use fab_settings::bundles_are_serial;
use fab_shadow::bundles_are_isolated;
use fab_trusted::{robust_values_trusted, trusted_replay_agrees};

/// Of the run that a right report of an accepted bundle tells both halves of the headline hold, whoever made the report: for
/// every set of nodes that contains the hostile ones, what the others hold of classes that exclude the set is what the
/// commits of the others give, and what trusted replay gives; and what they have sent into the set is the public replay of
/// what the run released.
pub fn right_reports_are_sound()
    ensures { (s : Start) (rights : Rights) (report : List ℕ) → IsAcceptedWith s rights → (x : IsRight (resolved s) rights report) → IsSound (given_by (resolved s) rights) x.moves }
{
    bundles_are_serial();
    outsiders_write_and_hold_nothing();
    bundles_are_isolated();
    trusted_replay_agrees();
    robust_values_trusted();
}
