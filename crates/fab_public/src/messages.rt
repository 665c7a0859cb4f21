//! What workers send to the stores of the set.
ghost use Rattle.std.specs.Prelude.{◌≡◌, ◌++◌, IfOk};
ghost use Rattle.std.specs.List.{filter, flat_map};
ghost use Rattle.fab_base.specs.declared.message.Message.TheVariants.{Boot, Commit};
ghost use Rattle.fab_release.specs.Replay.{sharers};
ghost use Rattle.fab_rights.specs.Computed.{has_bit, stores_in};
ghost use Rattle.fab_sent.specs.Messages.{all_spelled};
ghost use Rattle.fab_world.specs.Workers.{to_all};
ghost use Rattle.fab_public.specs.Settings.{public_at, sight_at};

use crate::setting::Setting;
use fab_base::{Message, NoMemory, Seq};
use fab_commit::participants;
use fab_known::Commits;
use fab_parts::{add_all, keep_in_set, stores_below};
use fab_protocol::Parts;
use fab_sent::Sends;

/// The stores of the set that take part.
pub(crate) fn sharers(setting: &Setting<'_>, parts: &Parts) -> Result<Seq<u16>, NoMemory>
    ensures { IfOk result (λ stores. stores ≡ sharers (sight_at setting.now) (public_at setting.now) parts.now) }
{
    let mut stores = participants(setting.alloc, parts)?;
    keep_in_set(setting.nodes, &mut stores);
    Ok(Seq::from_vec(stores))
}

/// The stores of the set.
fn stores_of_set(setting: &Setting<'_>) -> Result<Vec<u16>, NoMemory>
    ensures { IfOk result (λ stores. stores.items ≡ filter (has_bit setting.now.nodes) (stores_in setting.now.rights.now)) }
{
    let mut stores = stores_below(setting.alloc, setting.rights, 64)?;
    keep_in_set(setting.nodes, &mut stores);
    Ok(stores)
}

/// Each Commit again, in order, and then the boot to every store of the set.
pub(crate) fn wakes(setting: &Setting<'_>, commits: &Commits, boot: u32) -> Result<Sends, NoMemory>
    ensures { IfOk result (λ sent. sent ≡ all_spelled (flat_map (λ c. to_all c.stores (Commit c.tid)) commits.now
        ++ to_all (filter (has_bit setting.now.nodes) (stores_in setting.now.rights.now)) (Boot boot))) }
{
    let mut sends = commits.again(setting.alloc)?;
    let stores = stores_of_set(setting)?;
    add_all(setting.alloc, &mut sends, &stores, &Message::Boot { boot })?;
    Ok(sends)
}
