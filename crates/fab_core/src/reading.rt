//! What a core tells of its run.

ghost use Rattle.std.specs.Prelude.{◌≡◌, ◌≤◌, ◌+◌, ◌++◌, ◌∷◌, [], false, IsTrue, IfOk, IfSome, Some, length, map, vec_capacity};
ghost use Rattle.std.specs.Bool.{MatchBool};
ghost use Rattle.std.specs.List.{IsDistinct, list_any};
ghost use Rattle.std.specs.Option.{option_copied};
ghost use Rattle.fab_base.specs.FlatMap.{is_same};
ghost use Rattle.fab_eval.specs.Attempts.{is_made_in};
ghost use Rattle.fab_protocol.specs.Versions.{names_of};
ghost use Rattle.fab_world.specs.Machine.{at_start, logs, outcome};
ghost use Rattle.fab_core.specs.Cores.{HasPlaces, count_in, is_honest, setting, slot, world};
ghost use Rattle.fab_nodes.specs.Seen.{TellsJobAt, TellsJobOf, ended_as, outcome_in};
ghost use Rattle.fab_core.specs.Telling.{HasAnswer, HasJobAt, HasJobOf, TellsAnswer, TellsJob, those_in};

use crate::core_state::Core;
use fab_base::{NoMemory, Object, Oid, Seq};
use fab_device::Journal;
use fab_eval::Job;
use fab_net::{Logged, ReqOutcome};
use fab_node::{Node, Role};
use fab_nodes::node_at;
use fab_rights::Rights;
use fab_tree::resolved::Resolved;
use fab_worker::WorkerState;
use std::sync::Arc;

/// How a request of a worker ended, if its record tells.
fn ended(role: &Role, request: u32) -> Option<ReqOutcome>
    ensures { result ≡ ended_as role.now request }
{
    match role {
        Role::Worker(worker) => worker.outcome(request),
        Role::Store(_) => None,
    }
}

/// How a request of a node ended, or why it hasn't.
pub(crate) fn outcome_at<J: Journal>(
    nodes: &[Option<Node<J>>],
    worker: usize,
    request: u32,
) -> ReqOutcome
    ensures { result ≡ outcome_in (slot nodes.now worker) request }
{
    match node_at(nodes, worker) {
        Some(node) => match ended(node.role(), request) {
            Some(outcome) => outcome,
            None if node.has_failed() => ReqOutcome::NodeDown,
            None => ReqOutcome::Unfinished,
        },
        None => ReqOutcome::Unfinished,
    }
}

/// What a worker has to evaluate, if it evaluates.
fn job_of(role: &Role) -> Result<Option<Job>, NoMemory>
    ensures job { IfOk result (TellsJobOf role.now) }
    ensures distinct { IfOk result (λ told. IfSome told (λ job. IsDistinct is_same (names_of job.answers))) }
    ensures made_before { IfOk result (λ told. IfSome told (λ job. list_any (λ a. is_made_in job.tid a.0) job.answers ≡ false)) }
{
    match role {
        Role::Worker(worker) => match worker.state() {
            WorkerState::Evaluating => Ok(Some(worker.job()?)),
            _ => Ok(None),
        },
        Role::Store(_) => Ok(None),
    }
}

/// The same of the worker of this number, if it is up.
fn job_at<J: Journal>(nodes: &[Option<Node<J>>], worker: usize) -> Result<Option<Job>, NoMemory>
    ensures job { IfOk result (TellsJobAt (slot nodes.now worker)) }
    ensures distinct { IfOk result (λ told. IfSome told (λ job. IsDistinct is_same (names_of job.answers))) }
    ensures made_before { IfOk result (λ told. IfSome told (λ job. list_any (λ a. is_made_in job.tid a.0) job.answers ≡ false)) }
{
    match node_at(nodes, worker) {
        Some(node) if node.is_up() => job_of(node.role()),
        _ => Ok(None),
    }
}

/// Whether this is the job of a worker that evaluates.
fn is_job_of(role: &Role, job: &Job) -> bool
    ensures { MatchBool result (HasJobOf role.now job.now) (HasJobOf role.now job.now → ⊥) }
{
    match role {
        Role::Worker(worker) => match worker.state() {
            WorkerState::Evaluating => worker.is_job(job),
            _ => false,
        },
        Role::Store(_) => false,
    }
}

/// The same of the worker of this number, if it is up.
fn is_job_at<J: Journal>(nodes: &[Option<Node<J>>], worker: usize, job: &Job) -> bool
    ensures { MatchBool result (HasJobAt (slot nodes.now worker) job.now) (HasJobAt (slot nodes.now worker) job.now → ⊥) }
{
    match node_at(nodes, worker) {
        Some(node) if node.is_up() => is_job_of(node.role(), job),
        _ => false,
    }
}

/// The last answer of a worker that evaluates, where its job is this one with this answer more.
fn answer_of<'a>(role: &'a Role, job: &Job) -> Option<&'a (Oid, u32, Object)>
    ensures { HasAnswer (HasJobOf role.now) job.now (option_copied result) }
{
    match role {
        Role::Worker(worker) => match worker.state() {
            WorkerState::Evaluating => worker.answer_behind(job),
            _ => None,
        },
        Role::Store(_) => None,
    }
}

/// The same of the worker of this number, if it is up.
fn answer_at<'a, J: Journal>(
    nodes: &'a [Option<Node<J>>],
    worker: usize,
    job: &Job,
) -> Option<&'a (Oid, u32, Object)>
    ensures { HasAnswer (HasJobAt (slot nodes.now worker)) job.now (option_copied result) }
{
    match node_at(nodes, worker) {
        Some(node) if node.is_up() => answer_of(node.role(), job),
        _ => None,
    }
}

/// The journal of a node, if there is one, behind others.
pub(crate) fn put_journal<J: Journal + Drop>(journals: &mut Vec<J>, slot: Option<Node<J>>)
    requires { length journals.old.items + count_in (slot ∷ []) ≤ vec_capacity journals.old }
    ensures capacity { vec_capacity journals.new ≡ vec_capacity journals.old }
    ensures count { length journals.new.items ≡ length journals.old.items + count_in (slot ∷ []) }
    ensures journals { map (λ journal. record { content = J.content journal; synced = J.synced journal; room = J.room journal; faults = J.faults journal; sure = J.sure journal }) journals.new.items
        ≡ map (λ journal. record { content = J.content journal; synced = J.synced journal; room = J.room journal; faults = J.faults journal; sure = J.sure journal }) journals.old.items
        ++ map (λ node. node.journal) (those_in (slot ∷ [])) }
{
    if let Some(node) = slot {
        journals.push_reserved(node.into_journal());
    }
}

/// The journals of nodes, in their order, in a vector that has a place for each.
pub(crate) fn journals_of<J: Journal + Drop>(nodes: Vec<Option<Node<J>>>, places: Vec<J>) -> Vec<J>
    requires { HasPlaces nodes.items (length places.items) (vec_capacity places) }
    ensures { map (λ journal. record { content = J.content journal; synced = J.synced journal; room = J.room journal; faults = J.faults journal; sure = J.sure journal }) result.items
        ≡ map (λ node. node.journal) (those_in nodes.items) }
{
    let mut rest = nodes;
    rest.reverse();
    let mut journals = places;
    'nodes: while let Some(slot) = rest.pop() {
        put_journal(&mut journals, slot);
    }
    journals
}

impl<J: Journal> Core<J> {
    /// The bundle that it was made of.
    pub fn start(&self) -> &Arc<Resolved>
        ensures { result.now.value ≡ self.now.given.program }
    {
        self.given.program()
    }

    /// The rights that it was made of.
    pub fn rights(&self) -> &Rights
        ensures { result.now ≡ self.now.given.rights }
    {
        self.given.rights()
    }

    /// The log of the run so far.
    pub fn log(&self) -> &[Logged]
        ensures { result.now ≡ logs (setting self.now.given) (at_start (setting self.now.given)) self.now.moves }
    {
        self.log.as_slice()
    }

    /// All that one node ever sent to another; nothing where one is no node.
    pub fn sent(&self, sender: u16, receiver: u16) -> &[Seq<u8>]
        ensures { result.now ≡ (world self.now).sent sender receiver }
    {
        if sender < 64 && receiver < 64 {
            self.queues.sent(sender, receiver)
        } else {
            &[]
        }
    }

    /// How a worker's request ended, by its number from 1, or why it hasn't.
    pub fn outcome(&self, worker: u16, request: u32) -> ReqOutcome
        ensures { result ≡ outcome (setting self.now.given) (world self.now) worker request }
    {
        outcome_at(&self.nodes, usize::from(worker), request)
    }

    /// What a worker has to evaluate; nothing exactly where it isn't an honest worker that is up and
    /// evaluates. It is as an evaluation needs it.
    pub fn job(&self, worker: u16) -> Result<Option<Job>, NoMemory>
        ensures job { IfOk result (TellsJob self.now.given (world self.now) worker) }
        ensures distinct { IfOk result (λ told. IfSome told (λ job. IsDistinct is_same (names_of job.answers))) }
        ensures made_before { IfOk result (λ told. IfSome told (λ job. list_any (λ a. is_made_in job.tid a.0) job.answers ≡ false)) }
    {
        job_at(&self.nodes, usize::from(worker))
    }

    /// Whether a job is what a worker has to evaluate. Nothing is copied: who has the job of an evaluation that is over asks this and not
    /// for the job.
    pub fn is_current(&self, worker: u16, job: &Job) -> bool
        requires { job.now.program.value ≡ self.now.given.program }
        ensures { MatchBool result (TellsJob self.now.given (world self.now) worker (Some job.now)) (TellsJob self.now.given (world self.now) worker (Some job.now) → ⊥) }
    {
        is_job_at(&self.nodes, usize::from(worker), job)
    }

    /// The last answer of a worker, where what it has to evaluate is this job with this answer more. It is lent, and nothing is copied.
    pub fn answer_behind(&self, worker: u16, job: &Job) -> Option<&(Oid, u32, Object)>
        requires { job.now.program.value ≡ self.now.given.program }
        ensures { TellsAnswer self.now.given (world self.now) worker job.now (option_copied result) }
    {
        answer_at(&self.nodes, usize::from(worker), job)
    }

    /// The journal of an honest node.
    pub fn journal(&self, node: u16) -> &J
        requires { IsTrue (is_honest self.now.given node) }
        ensures { slot self.now.journals node
            ≡ Some (record { content = J.content result.now; synced = J.synced result.now; room = J.room result.now; faults = J.faults result.now; sure = J.sure result.now }) }
    {
        match node_at(&self.nodes, usize::from(node)) {
            Some(node) => node.journal(),
            None => unreachable!(),
        }
    }
}
