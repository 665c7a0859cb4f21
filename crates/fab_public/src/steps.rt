//! What an entry makes of what is rebuilt, and what its node sends.
ghost use Rattle.std.specs.Prelude.{◌≡◌, ◌<◌, ◌++◌, ℕ, Some, IfOk, OnOk, option_copied, slice_get};
ghost use Rattle.fab_base.specs.declared.message.Message.{Message as AnyMessage};
ghost use Rattle.fab_release.specs.Replay.{Rebuilt, at_worker, hears, is_heard, leaves_at, next, node_in, sends, sent_at, told};
ghost use Rattle.fab_release.specs.Sights.{Public, Sight};
ghost use Rattle.fab_release.specs.declared.release.Release.TheVariants.{Applied, Decided, Got, Received, Recover, Voted};
ghost use Rattle.fab_sent.specs.Messages.{all_spelled, messages_in};
ghost use Rattle.fab_wire.specs.Reading.{read_message};
ghost use Rattle.fab_public.specs.Changes.{changed, told_by};
ghost use Rattle.fab_public.specs.Settings.{public_at, sight_at};
ghost use Rattle.fab_public.specs.States.{IsKept, kept_at, unwatched, worker_of};

use crate::setting::Setting;
use crate::states::{Kept, Watched};
use crate::workers::Change;
use crate::{stores, workers};
use fab_base::{Answer, Message, NoMemory, Object, Oid, Seq, Tid};
use fab_parts::one;
use fab_release::{Release, Released};
use fab_rights::Rights;
use fab_sent::{Sends, Sent};
use fab_wire::{DecodeError, decode};
use std::alloc::{AllocError, Global};

/// What an entry makes of what is rebuilt; and what its node sends.
pub(crate) fn step<'a>(
    setting: &Setting<'a>,
    kept: &mut Kept<'a>,
    release: &Release,
) -> Result<Sends, NoMemory>
    ensures kept { OnOk result ((k : Rebuilt) → IsKept (sight_at setting.now) (public_at setting.now) kept.old k
        → IsKept (sight_at setting.now) (public_at setting.now) kept.new (next (sight_at setting.now) (public_at setting.now) release.now k)) }
    ensures sent { IfOk result (λ sent. (k : Rebuilt) → IsKept (sight_at setting.now) (public_at setting.now) kept.old k
        → sent ≡ all_spelled (sends (sight_at setting.now) (public_at setting.now) release.now k)) }
{
    match release {
        Release::Received {
            node,
            sender,
            bytes,
        } => receive(setting, kept, *node, *sender, bytes.as_slice()),
        Release::Begin { worker, request } => {
            change_worker(setting, kept, *worker, Change::Begin(*request))
        }
        Release::Down { worker, value } => change_worker(
            setting,
            kept,
            *worker,
            Change::Give(*value),
        ),
        Release::Got { worker, version } => get(setting, kept, *worker, *version),
        Release::Ask { worker } => change_worker(setting, kept, *worker, Change::Ask),
        Release::Ended { worker } => change_worker(setting, kept, *worker, Change::End),
        Release::Failed { worker } | Release::Stopped { worker } => {
            change_worker(setting, kept, *worker, Change::Reset)
        }
        Release::Decided { worker, commit } => decide(setting, kept, *worker, *commit),
        Release::Applied { store, tid } => apply(setting, kept, *store, *tid),
        Release::Voted { store, tid, answer } => vote(setting, kept, *store, *tid, *answer),
        Release::Crash { node } => change_worker(setting, kept, *node, Change::Reset),
        Release::Recover { node } => recover(setting, kept, *node),
    }
}

/// A change of a worker.
fn change_worker<'a>(
    setting: &Setting<'a>,
    kept: &mut Kept<'a>,
    worker: u16,
    change: Change,
) -> Result<Sends, NoMemory>
    ensures kept { OnOk result ((k : Rebuilt) → IsKept (sight_at setting.now) (public_at setting.now) kept.old k
        → IsKept (sight_at setting.now) (public_at setting.now) kept.new (at_worker (sight_at setting.now) (public_at setting.now) k worker
        (changed (sight_at setting.now) (public_at setting.now) worker change))) }
    ensures sent { IfOk result (λ sent. (k : Rebuilt) → IsKept (sight_at setting.now) (public_at setting.now) kept.old k
        → sent ≡ all_spelled (told_by (sight_at setting.now) (public_at setting.now) worker change (k.worker worker))) }
{
    workers::make_change(setting, &mut kept.workers, worker, change)
}

/// A worker has read an object of a store outside the set in this version.
fn get<'a>(
    setting: &Setting<'a>,
    kept: &mut Kept<'a>,
    worker: u16,
    version: u32,
) -> Result<Sends, NoMemory>
    ensures kept { OnOk result ((k : Rebuilt) → IsKept (sight_at setting.now) (public_at setting.now) kept.old k
        → IsKept (sight_at setting.now) (public_at setting.now) kept.new (next (sight_at setting.now) (public_at setting.now) (Got worker version) k)) }
    ensures sent { IfOk result (λ sent. (k : Rebuilt) → IsKept (sight_at setting.now) (public_at setting.now) kept.old k
        → sent ≡ all_spelled (sends (sight_at setting.now) (public_at setting.now) (Got worker version) k)) }
{
    workers::get(setting, &mut kept.workers, worker, version, &kept.table)?;
    Ok(Seq::new(setting.alloc))
}

/// An attempt of a worker is over.
fn decide<'a>(
    setting: &Setting<'a>,
    kept: &mut Kept<'a>,
    worker: u16,
    commit: bool,
) -> Result<Sends, NoMemory>
    ensures kept { OnOk result ((k : Rebuilt) → IsKept (sight_at setting.now) (public_at setting.now) kept.old k
        → IsKept (sight_at setting.now) (public_at setting.now) kept.new (next (sight_at setting.now) (public_at setting.now) (Decided worker commit) k)) }
    ensures sent { IfOk result (λ sent. (k : Rebuilt) → IsKept (sight_at setting.now) (public_at setting.now) kept.old k
        → sent ≡ all_spelled (sends (sight_at setting.now) (public_at setting.now) (Decided worker commit) k)) }
{
    let told = workers::decide(setting, &mut kept.workers, worker, commit)?;
    kept.table.put_all(told.leaves)?;
    Ok(told.sends)
}

/// The worker of this number, if anything is kept of it.
fn watched_at<'a, 'b>(workers: &'b [Watched<'a>], worker: u16) -> Option<&'b Watched<'a>>
    ensures { option_copied result ≡ slice_get workers.now worker }
{
    workers.get(usize::from(worker))
}

/// What the commits of a worker leave at a store in an attempt.
fn left_at(
    setting: &Setting<'_>,
    workers: &[Watched<'_>],
    store: u16,
    tid: Tid,
) -> Result<Seq<(Oid, u32, Object)>, NoMemory>
    ensures { IfOk result (λ rows. rows ≡ leaves_at (sight_at setting.now) (public_at setting.now) store tid (kept_at (λ n. unwatched) worker_of workers.now tid.worker).commits) }
{
    match watched_at(workers, tid.worker) {
        Some(watched) => watched.commits.leaves_at(setting.alloc, store, tid),
        None => Ok(Seq::new(setting.alloc)),
    }
}

/// A store applies what an attempt of a worker outside the set leaves there.
fn apply(
    setting: &Setting<'_>,
    kept: &mut Kept<'_>,
    store: u16,
    tid: Tid,
) -> Result<Sends, NoMemory>
    ensures kept { OnOk result ((k : Rebuilt) → IsKept (sight_at setting.now) (public_at setting.now) kept.old k
        → IsKept (sight_at setting.now) (public_at setting.now) kept.new (next (sight_at setting.now) (public_at setting.now) (Applied store tid) k)) }
    ensures sent { IfOk result (λ sent. (k : Rebuilt) → IsKept (sight_at setting.now) (public_at setting.now) kept.old k
        → sent ≡ all_spelled (sends (sight_at setting.now) (public_at setting.now) (Applied store tid) k)) }
{
    let rows = left_at(setting, &kept.workers, store, tid)?;
    stores::apply(setting, &kept.roots, &mut kept.stores, store, rows)?;
    Ok(Seq::new(setting.alloc))
}

/// A store votes on a Prepare of a worker in the set.
fn vote(
    setting: &Setting<'_>,
    kept: &mut Kept<'_>,
    store: u16,
    tid: Tid,
    answer: Answer,
) -> Result<Sends, NoMemory>
    ensures kept { OnOk result ((k : Rebuilt) → IsKept (sight_at setting.now) (public_at setting.now) kept.old k
        → IsKept (sight_at setting.now) (public_at setting.now) kept.new (next (sight_at setting.now) (public_at setting.now) (Voted store tid answer) k)) }
    ensures sent { IfOk result (λ sent. (k : Rebuilt) → IsKept (sight_at setting.now) (public_at setting.now) kept.old k
        → sent ≡ all_spelled (sends (sight_at setting.now) (public_at setting.now) (Voted store tid answer) k)) }
{
    stores::vote(setting, &kept.roots, &mut kept.stores, store, tid, answer)?;
    one(setting.alloc, tid.worker, &Message::Vote { tid, answer })
}

/// A node comes back after a crash.
fn recover<'a>(setting: &Setting<'a>, kept: &mut Kept<'a>, node: u16) -> Result<Sends, NoMemory>
    ensures kept { OnOk result ((k : Rebuilt) → IsKept (sight_at setting.now) (public_at setting.now) kept.old k
        → IsKept (sight_at setting.now) (public_at setting.now) kept.new (next (sight_at setting.now) (public_at setting.now) (Recover node) k)) }
    ensures sent { IfOk result (λ sent. (k : Rebuilt) → IsKept (sight_at setting.now) (public_at setting.now) kept.old k
        → sent ≡ all_spelled (sends (sight_at setting.now) (public_at setting.now) (Recover node) k)) }
{
    if setting.rights.is_worker(node) {
        change_worker(setting, kept, node, Change::Wake)
    } else {
        stores::wake(setting, &kept.roots, &mut kept.stores, node)
    }
}

/// Whether a node hears another: a store hears workers alone, and a worker stores.
fn is_heard(rights: &Rights, node: u16, sender: u16) -> bool
    ensures { (sight : Sight) (P : Public) → P.rights ≡ rights.now → result ≡ is_heard sight P node sender }
{
    (rights.is_worker(node) && rights.is_store(sender))
        || (rights.is_store(node) && rights.is_worker(sender))
}

/// The message that bytes are read as.
fn read(alloc: Global, bytes: &[u8]) -> Result<Option<Message>, NoMemory>
    ensures { IfOk result (λ message. message ≡ read_message bytes.now) }
{
    match decode(alloc, bytes) {
        Ok(message) => Ok(Some(message)),
        Err(DecodeError::Memory) => Err(AllocError),
        Err(DecodeError::Bad { at: _ }) => Ok(None),
    }
}

/// A node hears a message of a node in the set.
fn hear<'a>(
    setting: &Setting<'a>,
    kept: &mut Kept<'a>,
    node: u16,
    sender: u16,
    message: Message,
) -> Result<Sends, NoMemory>
    ensures kept { OnOk result ((k : Rebuilt) → IsKept (sight_at setting.now) (public_at setting.now) kept.old k
        → IsKept (sight_at setting.now) (public_at setting.now) kept.new (hears (sight_at setting.now) (public_at setting.now) node sender (Some message) k)) }
    ensures sent { IfOk result (λ sent. (k : Rebuilt) → IsKept (sight_at setting.now) (public_at setting.now) kept.old k
        → sent ≡ all_spelled (told (sight_at setting.now) (public_at setting.now) node sender (Some message) k)) }
{
    if setting.rights.is_worker(node) {
        return workers::hear(setting, &mut kept.workers, node, sender, message);
    }
    let told = stores::deliver(
        setting,
        &kept.roots,
        &mut kept.stores,
        node,
        sender,
        message,
    )?;
    kept.table.put_all(told.leaves)?;
    Ok(told.sends)
}

/// A node hears the message that bytes are read as.
fn hear_bytes<'a>(
    setting: &Setting<'a>,
    kept: &mut Kept<'a>,
    node: u16,
    sender: u16,
    bytes: &[u8],
) -> Result<Sends, NoMemory>
    ensures kept { OnOk result ((k : Rebuilt) → IsKept (sight_at setting.now) (public_at setting.now) kept.old k
        → IsKept (sight_at setting.now) (public_at setting.now) kept.new (hears (sight_at setting.now) (public_at setting.now) node sender (read_message bytes.now) k)) }
    ensures sent { IfOk result (λ sent. (k : Rebuilt) → IsKept (sight_at setting.now) (public_at setting.now) kept.old k
        → sent ≡ all_spelled (told (sight_at setting.now) (public_at setting.now) node sender (read_message bytes.now) k)) }
{
    let read = read(setting.alloc, bytes)?;
    match read {
        Some(message) => hear(setting, kept, node, sender, message),
        None => Ok(Seq::new(setting.alloc)),
    }
}

/// Bytes of a node in the set reach a node.
fn receive<'a>(
    setting: &Setting<'a>,
    kept: &mut Kept<'a>,
    node: u16,
    sender: u16,
    bytes: &[u8],
) -> Result<Sends, NoMemory>
    ensures kept { OnOk result ((k : Rebuilt) → IsKept (sight_at setting.now) (public_at setting.now) kept.old k
        → IsKept (sight_at setting.now) (public_at setting.now) kept.new (next (sight_at setting.now) (public_at setting.now) (Received node sender bytes.now) k)) }
    ensures sent { IfOk result (λ sent. (k : Rebuilt) → IsKept (sight_at setting.now) (public_at setting.now) kept.old k
        → sent ≡ all_spelled (sends (sight_at setting.now) (public_at setting.now) (Received node sender bytes.now) k)) }
{
    if is_heard(setting.rights, node, sender) {
        hear_bytes(setting, kept, node, sender, bytes)
    } else {
        Ok(Seq::new(setting.alloc))
    }
}

/// The node that an entry speaks of.
fn node_in(release: &Release) -> u16
    ensures { (sight : Sight) (P : Public) → result ≡ node_in sight P release.now }
{
    match release {
        Release::Received { node, .. } | Release::Crash { node } | Release::Recover { node } =>
            *node,
        Release::Begin { worker, .. }
        | Release::Down { worker, .. }
        | Release::Got { worker, .. }
        | Release::Ask { worker }
        | Release::Ended { worker }
        | Release::Failed { worker }
        | Release::Stopped { worker }
        | Release::Decided { worker, .. } => *worker,
        Release::Applied { store, .. } | Release::Voted { store, .. } => *store,
    }
}

/// What the node of an entry sends joins what was sent, unless the entry is quiet.
pub(crate) fn tell(sent: &mut Sent, entry: &Released, told: Sends) -> Result<(), NoMemory>
    ensures { OnOk result ((sight : Sight) (P : Public) (k : Rebuilt) → told ≡ all_spelled (sends sight P entry.now.release k) → (n d : ℕ) → n < 64 → d < 64
        → messages_in sent.new n d ≡ messages_in sent.old n d ++ sent_at sight P entry.now k n d) }
{
    if entry.quiet {
        return Ok(());
    }
    sent.put_all(node_in(&entry.release), told)
}
