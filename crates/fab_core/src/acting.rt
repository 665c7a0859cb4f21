//! One node does what an event asks of it.

ghost use Rattle.std.specs.Prelude.{◌≡◌, ◌<◌, ◌≤◌, ℕ, length, IfOk, IsErrOf, true};
ghost use Rattle.std.specs.Option.{option_copied};
ghost use Rattle.fab_device.specs.Devices.{JournalCause, KeepsSure};
ghost use Rattle.fab_device.specs.declared.traits.JournalError.TheVariants.{Failed as JournalFailed, Memory};
ghost use Rattle.fab_queues.specs.Channels.{spare_of};
ghost use Rattle.fab_world.specs.Machine.{Node as Standing, node_of as node_in};
ghost use Rattle.fab_node.specs.Deeds.{HasRoomFor, IsPlanAt, entry_in, failed, is_recovery};
ghost use Rattle.fab_node.specs.Standing.{Stands};
ghost use Rattle.fab_nodes.specs.Acts.{HasRecord, IsAbout, IsReadyFor, IsCutTo, IsDone, IsFailed, MayPlan, StandsStill};
ghost use Rattle.fab_core.specs.Places.{AreOthers, HasRecordAt, IsCutToAt, IsDoneAt, IsFailedAt, IsLostAt, IsStillAt, MayPlanAt, journals_of};
ghost use Rattle.fab_core.specs.Moved.{IsCaused};
ghost use Rattle.fab_nodes.specs.Transit.{OnlyGainsLanes, bytes_to};

use fab_device::{Journal, JournalError};
use fab_eval::Done;
use fab_net::{Inner, Step, node_of};
use fab_node::{Given, Node, NodePlan};
use fab_nodes::make_room;
use fab_queues::Queues;

/// The node plans what the event asks of it.
fn plan<J: Journal>(
    given: &Given,
    node: &mut Node<J>,
    inner: Inner,
    bytes: &[u8],
    done: Option<&Done>,
) -> Result<NodePlan, JournalError>
    requires number { node.old.number ≡ node_in inner }
    requires may { MayPlan given.now inner (option_copied done) node.old }
    ensures plan { IfOk result (λ p. (x : Standing) → Stands given.now x node.old → IsAbout inner x → IsPlanAt given.now x inner bytes.now node.new p) }
    ensures room { IfOk result (λ p. HasRoomFor (entry_in p) node.new.journal.room) }
    ensures stands { (IsErrOf result JournalFailed → ⊥) → StandsStill given.now node.old node.new }
    ensures failed { IsErrOf result JournalFailed → (x : Standing) → Stands given.now x node.old → Stands given.now (failed x) node.new }
    ensures number { node.new.number ≡ node.old.number }
    ensures cause { JournalCause node.old.journal.faults node.new.journal.faults result }
    ensures sure { KeepsSure node.old.journal.sure node.new.journal.sure (IsErrOf result JournalFailed) }
    ensures read { IsErrOf result JournalFailed → is_recovery inner ≡ true }
{
    match inner {
        Inner::Begin(_) => Ok(node.plan_begin()?),
        Inner::Resume(_) => match done {
            Some(done) => Ok(node.plan_resume(done)?),
            None => unreachable!(),
        },
        Inner::Deliver(sender, _) => Ok(node.plan_deliver(sender, bytes)?),
        Inner::Idle(_, store) => Ok(node.plan_give_up(store)?),
        Inner::Recover(_) => node.plan_recover(given),
    }
}

/// The node does what the event asks of it, and answers its step, for which there is room in its
/// queues. Where a call of its journal fails, it has failed for good.
pub(crate) fn act<J: Journal>(
    given: &Given,
    node: &mut Node<J>,
    queues: &mut Queues,
    inner: Inner,
    bytes: &[u8],
    done: Option<&Done>,
) -> Result<Step, JournalError>
    requires number { node.old.number ≡ node_in inner }
    requires may { MayPlan given.now inner (option_copied done) node.old }
    requires ready { IsReadyFor given.now inner node.old }
    requires lanes { queues.old.nodes ≡ 64 }
    requires from { node.old.number < 64 }
    ensures done { IfOk result (λ step. (x : Standing) → Stands given.now x node.old → IsAbout inner x → IsDone given.now inner bytes.now x node.new step) }
    ensures room { IfOk result (λ step. (b : ℕ) → b < 64 → length (bytes_to b step.sends) ≤ spare_of queues.new node.old.number b) }
    ensures memory { IsErrOf result Memory → StandsStill given.now node.old node.new }
    ensures failed { IsErrOf result JournalFailed → (x : Standing) → Stands given.now x node.old → IsAbout inner x → IsFailed given.now inner bytes.now x node.new }
    ensures number { node.new.number ≡ node.old.number }
    ensures queues { OnlyGainsLanes queues.old queues.new }
    ensures cause { JournalCause node.old.journal.faults node.new.journal.faults result }
    ensures sure { KeepsSure node.old.journal.sure node.new.journal.sure (IsErrOf result JournalFailed) }
{
    match plan(given, node, inner, bytes, done) {
        Ok(plan) => {
            make_room(queues, node_of(inner), plan.sends())?;
            match node.carry_out(plan) {
                Ok(step) => Ok(step),
                Err(_) => Err(JournalError::Failed),
            }
        }
        Err(problem) => Err(problem),
    }
}

/// The node of an event does what the event asks of it, as `act`.
pub(crate) fn act_at<J: Journal>(
    given: &Given,
    nodes: &mut Vec<Option<Node<J>>>,
    queues: &mut Queues,
    inner: Inner,
    bytes: &[u8],
    done: Option<&Done>,
) -> Result<Step, JournalError>
    requires may { MayPlanAt given.now inner (option_copied done) nodes.old.items }
    requires lanes { queues.old.nodes ≡ 64 }
    requires from { node_in inner < 64 }
    ensures done { IfOk result (λ step. IsDoneAt given.now inner bytes.now nodes.old.items nodes.new.items step) }
    ensures room { IfOk result (λ step. (b : ℕ) → b < 64 → length (bytes_to b step.sends) ≤ spare_of queues.new (node_in inner) b) }
    ensures memory { IsErrOf result Memory → IsStillAt given.now inner nodes.old.items nodes.new.items }
    ensures failed { IsErrOf result JournalFailed → IsFailedAt given.now inner bytes.now nodes.old.items nodes.new.items }
    ensures others { AreOthers (node_in inner) nodes.old.items nodes.new.items }
    ensures queues { OnlyGainsLanes queues.old queues.new }
    ensures cause { IsCaused (node_in inner) (IsErrOf result JournalFailed) (journals_of nodes.old.items) (journals_of nodes.new.items) }
{
    match &mut nodes[usize::from(node_of(inner))] {
        Some(node) => act(given, node, queues, inner, bytes, done),
        None => unreachable!(),
    }
}

/// The node does what the event asks of it up to its record, of which so many bytes stay, and goes
/// down. Where all of them stay, the record counts, and its step is answered. Where a call of its
/// journal fails, it has failed for good.
fn act_cut<J: Journal>(
    given: &Given,
    node: &mut Node<J>,
    inner: Inner,
    bytes: &[u8],
    done: Option<&Done>,
    keep: usize,
) -> Result<Option<Step>, JournalError>
    requires number { node.old.number ≡ node_in inner }
    requires may { MayPlan given.now inner (option_copied done) node.old }
    requires record { (x : Standing) × Stands given.now x node.old × IsAbout inner x × HasRecord given.now inner bytes.now keep x }
    ensures done { IfOk result (λ step. (x : Standing) → Stands given.now x node.old → IsAbout inner x → IsCutTo given.now inner bytes.now keep x node.new step) }
    ensures memory { IsErrOf result Memory → StandsStill given.now node.old node.new }
    ensures failed { IsErrOf result JournalFailed → (x : Standing) → Stands given.now x node.old → IsAbout inner x → Stands given.now (failed x) node.new }
    ensures number { node.new.number ≡ node.old.number }
    ensures cause { JournalCause node.old.journal.faults node.new.journal.faults result }
    ensures sure { KeepsSure node.old.journal.sure node.new.journal.sure (IsErrOf result JournalFailed) }
{
    match plan(given, node, inner, bytes, done) {
        Ok(plan) => match node.cut(plan, keep) {
            Ok(step) => Ok(step),
            Err(_) => Err(JournalError::Failed),
        },
        Err(problem) => Err(problem),
    }
}

/// The node of an event does what the event asks of it up to its record, as `act_cut`.
pub(crate) fn act_cut_at<J: Journal>(
    given: &Given,
    nodes: &mut Vec<Option<Node<J>>>,
    inner: Inner,
    bytes: &[u8],
    done: Option<&Done>,
    keep: usize,
) -> Result<Option<Step>, JournalError>
    requires may { MayPlanAt given.now inner (option_copied done) nodes.old.items }
    requires record { HasRecordAt given.now inner bytes.now keep nodes.old.items }
    ensures done { IfOk result (λ step. IsCutToAt given.now inner bytes.now keep nodes.old.items nodes.new.items step) }
    ensures memory { IsErrOf result Memory → IsStillAt given.now inner nodes.old.items nodes.new.items }
    ensures failed { IsErrOf result JournalFailed → IsLostAt given.now inner nodes.old.items nodes.new.items }
    ensures others { AreOthers (node_in inner) nodes.old.items nodes.new.items }
    ensures cause { IsCaused (node_in inner) (IsErrOf result JournalFailed) (journals_of nodes.old.items) (journals_of nodes.new.items) }
{
    match &mut nodes[usize::from(node_of(inner))] {
        Some(node) => act_cut(given, node, inner, bytes, done, keep),
        None => unreachable!(),
    }
}
