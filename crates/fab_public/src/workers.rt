//! Workers outside the set, by their numbers.
ghost use Rattle.std.specs.Prelude.{◌≡◌, ◌<◌, suc, ℕ, [], length, IfOk, OnOk};
ghost use Rattle.fab_release.specs.Replay.{WorkerSeen, closes, decided, enters, got_by, run, worker_hears, worker_says};
ghost use Rattle.fab_base.specs.declared.message.Message.{Message as AnyMessage};
ghost use Rattle.fab_protocol.specs.Versions.{Rows};
ghost use Rattle.fab_world.specs.Machine.{with_at};
ghost use Rattle.fab_sent.specs.Messages.{all_spelled};
ghost use Rattle.fab_known.specs.Tables.{AreAlike};
ghost use Rattle.fab_public.specs.Changes.{changed, told_by};
ghost use Rattle.fab_public.specs.Settings.{public_at, sight_at};
ghost use Rattle.fab_public.specs.States.{AreWatched, IsCaching, IsRunBy, unwatched, worker_of};

use crate::setting::Setting;
use crate::states::{Stage, Watched};
use crate::watched::Decided;
use fab_base::{Message, NoMemory, Value};
use fab_cache::Caches;
use fab_known::{Commits, Known, Table};
use fab_sent::Sends;

const STORES: u16 = 64;

/// What an entry makes of a worker.
#[derive(Clone, Copy, Debug)]
pub(crate) enum Change {
    /// It begins an attempt of its request of this number.
    Begin(u32),
    /// It is given a value.
    Give(Value),
    /// Its attempt is over, and its caches are empty.
    Reset,
    /// It lacks an object of a store in the set.
    Ask,
    /// Its evaluation ends.
    End,
    /// It comes back after a crash.
    Wake,
}

/// A worker before the first entry.
fn unwatched<'a>(setting: &Setting<'a>) -> Result<Watched<'a>, NoMemory>
    ensures seen { IfOk result (λ w. worker_of w ≡ unwatched) }
    ensures caching { IfOk result (IsCaching (public_at setting.now).cache) }
    ensures by { IfOk result (λ w. IsRunBy (public_at setting.now) w.known.by) }
{
    let alloc = setting.alloc;
    let caches = Caches::make(alloc, setting.part.cache, STORES)?;
    Ok(Watched {
        boot: 1,
        number: 0,
        request: 0,
        stage: Stage::Rests,
        known: Known::nothing(alloc, setting.part, setting.seen),
        commits: Commits::none(alloc),
        caches,
    })
}

/// Room for the worker of this number.
fn make_room<'a>(
    setting: &Setting<'a>,
    workers: &mut Vec<Watched<'a>>,
    worker: u16,
) -> Result<(), NoMemory>
    ensures made { OnOk result (worker < length workers.new.items) }
    ensures kept { OnOk result ((k : ℕ → WorkerSeen) → AreWatched (public_at setting.now) workers.old.items k → AreWatched (public_at setting.now) workers.new.items k) }
{
    while workers.len() <= usize::from(worker) {
        workers.push(unwatched(setting)?)?;
    }
    Ok(())
}

/// What an entry makes of the worker of this number, and what it sends.
pub(crate) fn make_change<'a>(
    setting: &Setting<'a>,
    workers: &mut Vec<Watched<'a>>,
    worker: u16,
    change: Change,
) -> Result<Sends, NoMemory>
    ensures kept { OnOk result ((k : ℕ → WorkerSeen) → AreWatched (public_at setting.now) workers.old.items k
        → AreWatched (public_at setting.now) workers.new.items (with_at k worker (changed (sight_at setting.now) (public_at setting.now) worker change (k worker)))) }
    ensures sent { IfOk result (λ sent. (k : ℕ → WorkerSeen) → AreWatched (public_at setting.now) workers.old.items k
        → sent ≡ all_spelled (told_by (sight_at setting.now) (public_at setting.now) worker change (k worker))) }
{
    make_room(setting, workers, worker)?;
    workers[usize::from(worker)].make(setting, worker, change)
}

/// The worker of this number has read an object of a store outside the set.
pub(crate) fn get<'a>(
    setting: &Setting<'a>,
    workers: &mut Vec<Watched<'a>>,
    worker: u16,
    version: u32,
    table: &Table,
) -> Result<(), NoMemory>
    ensures { OnOk result ((k : ℕ → WorkerSeen) (rows : Rows) → AreWatched (public_at setting.now) workers.old.items k → AreAlike table.now rows
        → AreWatched (public_at setting.now) workers.new.items (with_at k worker (got_by (sight_at setting.now) (public_at setting.now) rows version
        (run (sight_at setting.now) (public_at setting.now) worker (k worker)).ending (k worker)))) }
{
    make_room(setting, workers, worker)?;
    workers[usize::from(worker)].get(setting, worker, version, table)
}

/// The attempt of the worker of this number is over, with a commit or without one.
pub(crate) fn decide<'a>(
    setting: &Setting<'a>,
    workers: &mut Vec<Watched<'a>>,
    worker: u16,
    commit: bool,
) -> Result<Decided, NoMemory>
    ensures kept { OnOk result ((k : ℕ → WorkerSeen) → AreWatched (public_at setting.now) workers.old.items k
        → AreWatched (public_at setting.now) workers.new.items (with_at k worker (decided (sight_at setting.now) (public_at setting.now) worker commit (k worker)))) }
    ensures sent { IfOk result (λ told. (k : ℕ → WorkerSeen) → AreWatched (public_at setting.now) workers.old.items k
        → told.sends ≡ all_spelled (closes (sight_at setting.now) (public_at setting.now) worker commit (k worker).stage (k worker))) }
    ensures leaves { IfOk result (λ told. (k : ℕ → WorkerSeen) → AreWatched (public_at setting.now) workers.old.items k
        → told.leaves ≡ enters (sight_at setting.now) (public_at setting.now) commit (k worker).stage) }
{
    make_room(setting, workers, worker)?;
    workers[usize::from(worker)].decide(setting, worker, commit)
}

/// The worker of this number hears a message of a store in the set.
pub(crate) fn hear<'a>(
    setting: &Setting<'a>,
    workers: &mut Vec<Watched<'a>>,
    worker: u16,
    sender: u16,
    message: Message,
) -> Result<Sends, NoMemory>
    ensures kept { OnOk result ((k : ℕ → WorkerSeen) → AreWatched (public_at setting.now) workers.old.items k
        → AreWatched (public_at setting.now) workers.new.items (with_at k worker (worker_hears (sight_at setting.now) (public_at setting.now) worker sender message (k worker)))) }
    ensures sent { IfOk result (λ sent. (k : ℕ → WorkerSeen) → AreWatched (public_at setting.now) workers.old.items k
        → sent ≡ all_spelled (worker_says (sight_at setting.now) (public_at setting.now) worker sender message (k worker))) }
{
    make_room(setting, workers, worker)?;
    workers[usize::from(worker)].hear(setting, worker, sender, message)
}
