//! Stores outside the set, by their numbers.
ghost use Rattle.std.specs.Prelude.{◌≡◌, ◌<◌, ℕ, length, IfOk, OnOk};
ghost use Rattle.fab_protocol.specs.Stores.{asks};
ghost use Rattle.fab_release.specs.Replay.{StoreSeen, applies, shown_roots, store_applies, store_hears, store_says, votes};
ghost use Rattle.fab_world.specs.Machine.{with_at};
ghost use Rattle.fab_sent.specs.Messages.{all_spelled};
ghost use Rattle.fab_public.specs.Settings.{public_at, sight_at};
ghost use Rattle.fab_public.specs.States.{AreStored};

use crate::leaving::shown;
use crate::setting::Setting;
use fab_base::{Answer, Message, NoMemory, Object, Oid, Seq, Tid};
use fab_map::ObjectMap;
use fab_sent::Sends;
use fab_shelf::Stored;

/// What a store that hears a message tells: what it sends, and what enters the table.
#[derive(Drop)]
pub(crate) struct Heard {
    pub(crate) sends: Sends,
    pub(crate) leaves: Seq<(Oid, u32, Object)>,
}

/// Room for the store of this number.
fn make_room(
    setting: &Setting<'_>,
    roots: &ObjectMap,
    stores: &mut Vec<Stored>,
    store: u16,
) -> Result<(), NoMemory>
    ensures made { OnOk result (store < length stores.new.items) }
    ensures kept { OnOk result ((k : ℕ → StoreSeen) → roots.now ≡ shown_roots (sight_at setting.now) (public_at setting.now)
        → AreStored (sight_at setting.now) (public_at setting.now) stores.old.items k → AreStored (sight_at setting.now) (public_at setting.now) stores.new.items k) }
{
    while stores.len() <= usize::from(store) {
        let number = stores.len() as u16;
        stores.push(Stored::make(setting.alloc, number, roots.rows())?)?;
    }
    Ok(())
}

/// What a store that hears a message tells at once.
#[tactic(auto, using(crate::proofs::Storing::applies_shown))]
fn answer(
    setting: &Setting<'_>,
    stored: &Stored,
    store: u16,
    sender: u16,
    message: &Message,
) -> Result<Heard, NoMemory>
    ensures sent { IfOk result (λ told. told.sends ≡ all_spelled (store_says (sight_at setting.now) (public_at setting.now) store sender message.now stored.now)) }
    ensures left { IfOk result (λ told. told.leaves ≡ store_applies (sight_at setting.now) (public_at setting.now) store sender message.now stored.now) }
{
    let sends = stored.says(setting.alloc, setting.rights, store, sender, message)?;
    let leaves = stored.applies(setting.alloc, sender, message)?;
    Ok(Heard {
        sends,
        leaves: shown(setting, leaves),
    })
}

/// The store of this number hears a message of a worker in the set.
pub(crate) fn deliver(
    setting: &Setting<'_>,
    roots: &ObjectMap,
    stores: &mut Vec<Stored>,
    store: u16,
    sender: u16,
    message: Message,
) -> Result<Heard, NoMemory>
    ensures kept { OnOk result ((k : ℕ → StoreSeen) → roots.now ≡ shown_roots (sight_at setting.now) (public_at setting.now)
        → AreStored (sight_at setting.now) (public_at setting.now) stores.old.items k
        → AreStored (sight_at setting.now) (public_at setting.now) stores.new.items (with_at k store (store_hears (sight_at setting.now) (public_at setting.now) store sender message (k store)))) }
    ensures sent { IfOk result (λ told. (k : ℕ → StoreSeen) → roots.now ≡ shown_roots (sight_at setting.now) (public_at setting.now)
        → AreStored (sight_at setting.now) (public_at setting.now) stores.old.items k
        → told.sends ≡ all_spelled (store_says (sight_at setting.now) (public_at setting.now) store sender message (k store))) }
    ensures left { IfOk result (λ told. (k : ℕ → StoreSeen) → roots.now ≡ shown_roots (sight_at setting.now) (public_at setting.now)
        → AreStored (sight_at setting.now) (public_at setting.now) stores.old.items k
        → told.leaves ≡ store_applies (sight_at setting.now) (public_at setting.now) store sender message (k store)) }
{
    make_room(setting, roots, stores, store)?;
    let stored = &mut stores[usize::from(store)];
    let told = answer(setting, stored, store, sender, &message)?;
    stored.hear(setting.alloc, setting.rights, store, sender, message)?;
    Ok(told)
}

/// The store of this number votes on a Prepare of a worker in the set.
pub(crate) fn vote(
    setting: &Setting<'_>,
    roots: &ObjectMap,
    stores: &mut Vec<Stored>,
    store: u16,
    tid: Tid,
    answer: Answer,
) -> Result<(), NoMemory>
    ensures { OnOk result ((k : ℕ → StoreSeen) → roots.now ≡ shown_roots (sight_at setting.now) (public_at setting.now)
        → AreStored (sight_at setting.now) (public_at setting.now) stores.old.items k
        → AreStored (sight_at setting.now) (public_at setting.now) stores.new.items (with_at k store (votes (sight_at setting.now) (public_at setting.now) tid answer (k store)))) }
{
    make_room(setting, roots, stores, store)?;
    stores[usize::from(store)].vote(tid, answer)
}

/// The store of this number applies these rows.
pub(crate) fn apply(
    setting: &Setting<'_>,
    roots: &ObjectMap,
    stores: &mut Vec<Stored>,
    store: u16,
    rows: Seq<(Oid, u32, Object)>,
) -> Result<(), NoMemory>
    ensures { OnOk result ((k : ℕ → StoreSeen) → roots.now ≡ shown_roots (sight_at setting.now) (public_at setting.now)
        → AreStored (sight_at setting.now) (public_at setting.now) stores.old.items k
        → AreStored (sight_at setting.now) (public_at setting.now) stores.new.items (with_at k store (applies (sight_at setting.now) (public_at setting.now) rows (k store)))) }
{
    make_room(setting, roots, stores, store)?;
    stores[usize::from(store)].apply(rows)
}

/// The store of this number comes back after a crash, and asks what became of what is prepared.
pub(crate) fn wake(
    setting: &Setting<'_>,
    roots: &ObjectMap,
    stores: &mut Vec<Stored>,
    store: u16,
) -> Result<Sends, NoMemory>
    ensures kept { OnOk result ((k : ℕ → StoreSeen) → roots.now ≡ shown_roots (sight_at setting.now) (public_at setting.now)
        → AreStored (sight_at setting.now) (public_at setting.now) stores.old.items k → AreStored (sight_at setting.now) (public_at setting.now) stores.new.items k) }
    ensures sent { IfOk result (λ sent. (k : ℕ → StoreSeen) → roots.now ≡ shown_roots (sight_at setting.now) (public_at setting.now)
        → AreStored (sight_at setting.now) (public_at setting.now) stores.old.items k → sent ≡ all_spelled (asks (k store).shelf).sends) }
{
    make_room(setting, roots, stores, store)?;
    stores[usize::from(store)].asks(setting.alloc)
}
