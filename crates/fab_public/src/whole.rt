//! The whole replay.
ghost use Rattle.std.specs.Prelude.{◌≡◌, ◌<◌, ◌++◌, ℕ, IfOk, OnOk};
ghost use Rattle.fab_release.specs.Bundles.{public_of, sight_of};
ghost use Rattle.fab_release.specs.Replay.{Rebuilt, next, public, sent_at};
ghost use Rattle.fab_rights.specs.Computed.{has_bit};
ghost use Rattle.fab_sent.specs.Messages.{messages_in};
ghost use Rattle.fab_public.specs.Settings.{public_at, sight_at};
ghost use Rattle.fab_public.specs.States.{IsKept};

use crate::setting::Setting;
use crate::start::at_start;
use crate::states::Kept;
use crate::steps::{step, tell};
use fab_base::NoMemory;
use fab_places::Seen;
use fab_release::Released;
use fab_rights::Rights;
use fab_sent::Sent;
use fab_tree::resolved::Resolved;
use std::alloc::Global;

/// The public replay: what the nodes outside a set have sent into it, rebuilt from the public part of
/// a bundle, its rights, what the set sees, and what a run released to the set.
pub fn public(
    alloc: Global,
    nodes: u64,
    part: &Resolved,
    rights: &Rights,
    seen: &Seen,
    released: &[Released],
) -> Result<Sent, NoMemory>
    ensures exact { IfOk result (λ sent. (n d : ℕ) → n < 64 → d < 64 → messages_in sent n d
        ≡ public (sight_of (has_bit seen.now.labels) (has_bit seen.now.classes) (has_bit nodes) part.now)
        (public_of (has_bit seen.now.labels) (has_bit seen.now.classes) rights.now part.now) released.now n d) }
{
    let setting = Setting {
        alloc,
        nodes,
        seen: *seen,
        rights,
        part,
    };
    replay(&setting, released)
}

/// The replay of a record.
fn replay(setting: &Setting<'_>, released: &[Released]) -> Result<Sent, NoMemory>
    ensures { IfOk result (λ sent. (n d : ℕ) → n < 64 → d < 64 → messages_in sent n d ≡ public (sight_at setting.now) (public_at setting.now) released.now n d) }
{
    let mut kept = at_start(setting)?;
    let mut sent = Sent::nothing(setting.alloc)?;
    for entry in released {
        replay_one(setting, &mut kept, &mut sent, entry)?;
    }
    Ok(sent)
}

/// One entry more.
fn replay_one<'a>(
    setting: &Setting<'a>,
    kept: &mut Kept<'a>,
    sent: &mut Sent,
    entry: &Released,
) -> Result<(), NoMemory>
    ensures { OnOk result ((k : Rebuilt) → IsKept (sight_at setting.now) (public_at setting.now) kept.old k
        → IsKept (sight_at setting.now) (public_at setting.now) kept.new (next (sight_at setting.now) (public_at setting.now) entry.now.release k)
        × ((n d : ℕ) → n < 64 → d < 64 → messages_in sent.new n d ≡ messages_in sent.old n d ++ sent_at (sight_at setting.now) (public_at setting.now) entry.now k n d)) }
{
    let told = step(setting, kept, &entry.release)?;
    tell(sent, entry, told)
}
