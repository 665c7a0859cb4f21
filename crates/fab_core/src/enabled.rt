//! Whether an event may come, and how long its record is. Nothing but room changes.

ghost use Rattle.std.specs.Prelude.{◌≡◌, ◌<◌, ◌^◌, [], ℕ, true, IsTrue, IfOk, IfSome, length, option_map};
ghost use Rattle.std.specs.Option.{option_copied};
ghost use Rattle.fab_net.specs.declared.event.Inner.TheVariants.{Resume, Deliver, Idle, Recover};
ghost use Rattle.fab_world.specs.Machine.{Cuts, Node as Standing, Posts, World, act, enabled, form_of, is_running, may};
ghost use Rattle.fab_world.specs.Serial.{attempts};
ghost use Rattle.fab_node.specs.Deeds.{MayGiveUp, MayResume, deed, entry_in};
ghost use Rattle.fab_node.specs.Standing.{GivenModel, IsGiven, OnlyGainsRoom, Stands};
ghost use Rattle.fab_queues.specs.Channels.{queue_of};
ghost use Rattle.fab_core.specs.Cores.{EventHasDone, InnerHasDone, NodesStand, setting, slot, unmarked, world};
ghost use Rattle.fab_core.specs.Planning.{CanDeliver, CanGiveUp, CanPlan, CanResume, IsThere, IsUncut};
ghost use Rattle.fab_nodes.specs.Seen.{may_in, may_post_in};
ghost use Rattle.fab_core.specs.Telling.{MayBeDone, NodesGain, OnlyGainRoom, inner_of, length_in};

use crate::core_state::Core;
use fab_base::NoMemory;
use fab_device::Journal;
use fab_eval::Done;
use fab_net::{Event, Inner};
use fab_node::{Given, Node, NodePlan, Role};
use fab_nodes::{
    all_settled, has_post, is_node, is_up, may_begin, may_recover, may_resume, node_at, waits,
    waits_for,
};
use fab_queues::Queues;

/// How long the record of a worker's recovery is.
const BOOT_LENGTH: u32 = 9;

/// What is done in an event, if it is one that is done and no post.
fn inner_of(event: Event) -> Option<Inner>
    ensures { result ≡ inner_of event }
{
    match event {
        Event::Begin(node) => Some(Inner::Begin(node)),
        Event::Resume(node) => Some(Inner::Resume(node)),
        Event::Deliver(sender, receiver) => Some(Inner::Deliver(sender, receiver)),
        Event::Idle(worker, node) => Some(Inner::Idle(worker, node)),
        Event::Recover(node) => Some(Inner::Recover(node)),
        Event::Post(_) | Event::Crash(_) | Event::CrashIn(..) => None,
    }
}

/// Whether an event that may be cut may come.
fn may<J: Journal>(
    given: &Given,
    nodes: &[Option<Node<J>>],
    queues: &Queues,
    places: &[usize],
    event: Inner,
) -> bool
    requires { queues.now.nodes ≡ 64 }
    ensures { result ≡ may_in given.now nodes.now queues.now places.now event }
{
    match event {
        Inner::Begin(worker) => may_begin(nodes, worker),
        Inner::Resume(worker) => may_resume(nodes, worker),
        Inner::Deliver(sender, receiver) => {
            is_up(nodes, receiver)
                && is_node(given.rights(), sender)
                && waits(queues, sender, receiver)
        }
        Inner::Idle(worker, node) => {
            waits_for(nodes, worker, node)
                && is_node(given.rights(), node)
                && all_settled(given, nodes, queues, places)
        }
        Inner::Recover(node) => may_recover(nodes, node),
    }
}

/// Whether a hostile node may post.
fn may_post<J: Journal>(
    given: &Given,
    nodes: &[Option<Node<J>>],
    places: &[usize],
    sender: u16,
) -> bool
    ensures { result ≡ may_post_in given.now nodes.now places.now sender }
{
    is_node(given.rights(), sender)
        && node_at(nodes, usize::from(sender)).is_none()
        && has_post(given, places, sender)
}

/// How long the record of a plan is, if it writes one.
fn length_of(plan: &NodePlan) -> Option<u32>
    requires { IfSome (entry_in plan.now) (λ bytes. length bytes < 2 ^ 32) }
    ensures { result ≡ option_map length (entry_in plan.now) }
{
    plan.entry().map(|bytes| bytes.len() as u32)
}

/// How long the record is that a worker writes as its evaluation is over.
fn length_at_resume<J: Journal>(node: &mut Node<J>, done: &Done) -> Result<Option<u32>, NoMemory>
    requires may { MayResume done.now node.old.role }
    requires stands { (g : GivenModel) × (x : Standing) × Stands g x node.old × (x.up ≡ true) }
    ensures length { IfOk result (λ len. (g : GivenModel) (x : Standing) → Stands g x node.old → x.up ≡ true
        → len ≡ length_in (deed g x (Resume node.old.number) [])) }
    ensures kept { OnlyGainsRoom node.old node.new }
{
    let plan = node.plan_resume(done)?;
    Ok(length_of(&plan))
}

/// How long the record is that a node writes as these bytes reach it.
fn length_at_delivery<J: Journal>(
    node: &mut Node<J>,
    sender: u16,
    bytes: &[u8],
) -> Result<Option<u32>, NoMemory>
    requires stands { (g : GivenModel) × (x : Standing) × Stands g x node.old × (x.up ≡ true) }
    ensures length { IfOk result (λ len. (g : GivenModel) (x : Standing) → Stands g x node.old → x.up ≡ true
        → len ≡ length_in (deed g x (Deliver sender node.old.number) bytes.now)) }
    ensures kept { OnlyGainsRoom node.old node.new }
{
    let plan = node.plan_deliver(sender, bytes)?;
    Ok(length_of(&plan))
}

/// How long the record is that a worker writes as it gives up waiting for a store.
fn length_at_silence<J: Journal>(node: &mut Node<J>, store: u16) -> Result<Option<u32>, NoMemory>
    requires may { MayGiveUp store node.old.role }
    requires stands { (g : GivenModel) × (x : Standing) × Stands g x node.old × (x.up ≡ true) }
    ensures length { IfOk result (λ len. (g : GivenModel) (x : Standing) → Stands g x node.old → x.up ≡ true
        → len ≡ length_in (deed g x (Idle node.old.number store) [])) }
    ensures kept { OnlyGainsRoom node.old node.new }
{
    let plan = node.plan_give_up(store)?;
    Ok(length_of(&plan))
}

/// The same of the worker of this number.
fn resume_length<J: Journal>(
    nodes: &mut [Option<Node<J>>],
    worker: u16,
    done: &Done,
) -> Result<Option<u32>, NoMemory>
    requires can { CanResume done.now worker nodes.old }
    ensures length { IfOk result (λ len. (g : GivenModel) (w : World) → NodesStand g w nodes.old → (w.node worker).up ≡ true
        → len ≡ length_in (deed g (w.node worker) (Resume worker) [])) }
    ensures kept { NodesGain nodes.old nodes.new }
{
    match &mut nodes[usize::from(worker)] {
        Some(node) => length_at_resume(node, done),
        None => unreachable!(),
    }
}

/// The same of the node of this number.
fn delivery_length<J: Journal>(
    nodes: &mut [Option<Node<J>>],
    sender: u16,
    receiver: u16,
    bytes: &[u8],
) -> Result<Option<u32>, NoMemory>
    requires can { CanDeliver receiver nodes.old }
    ensures length { IfOk result (λ len. (g : GivenModel) (w : World) → NodesStand g w nodes.old → (w.node receiver).up ≡ true
        → len ≡ length_in (deed g (w.node receiver) (Deliver sender receiver) bytes.now)) }
    ensures kept { NodesGain nodes.old nodes.new }
{
    match &mut nodes[usize::from(receiver)] {
        Some(node) => length_at_delivery(node, sender, bytes),
        None => unreachable!(),
    }
}

/// The same of the worker of this number.
fn silence_length<J: Journal>(
    nodes: &mut [Option<Node<J>>],
    worker: u16,
    store: u16,
) -> Result<Option<u32>, NoMemory>
    requires can { CanGiveUp store worker nodes.old }
    ensures length { IfOk result (λ len. (g : GivenModel) (w : World) → NodesStand g w nodes.old → (w.node worker).up ≡ true
        → len ≡ length_in (deed g (w.node worker) (Idle worker store) [])) }
    ensures kept { NodesGain nodes.old nodes.new }
{
    match &mut nodes[usize::from(worker)] {
        Some(node) => length_at_silence(node, store),
        None => unreachable!(),
    }
}

/// How long the record of a recovery is: a worker writes its boot, and a store writes nothing.
fn recovery_length<J: Journal>(nodes: &[Option<Node<J>>], number: u16) -> Option<u32>
    requires { IsThere number nodes.now }
    ensures { (g : GivenModel) (w : World) → IsGiven g → NodesStand g w nodes.now → result ≡ length_in (deed g (w.node number) (Recover number) []) }
{
    match node_at(nodes, usize::from(number)) {
        Some(node) => match node.role() {
            Role::Worker(_) => Some(BOOT_LENGTH),
            Role::Store(_) => None,
        },
        None => unreachable!(),
    }
}

/// How long the record of an event is that may come, if it writes one.
fn planned_length<J: Journal>(
    nodes: &mut [Option<Node<J>>],
    queues: &Queues,
    event: Inner,
    done: Option<&Done>,
) -> Result<Option<u32>, NoMemory>
    requires { CanPlan event (option_copied done) nodes.old queues.now }
    ensures length { IfOk result (λ len. (g : GivenModel) (w : World) → IsGiven g → NodesStand g w nodes.old
        → ((a b : ℕ) → queue_of queues.now a b ≡ w.queue a b) → IsTrue (may (setting g) w event) → len ≡ length_in (act (setting g) w event)) }
    ensures kept { NodesGain nodes.old nodes.new }
{
    match event {
        Inner::Begin(_) => Ok(None),
        Inner::Resume(worker) => match done {
            Some(done) => resume_length(nodes, worker, done),
            None => unreachable!(),
        },
        Inner::Deliver(sender, receiver) => match queues.front(sender, receiver) {
            Some(bytes) => delivery_length(nodes, sender, receiver, bytes.as_slice()),
            None => unreachable!(),
        },
        Inner::Idle(worker, store) => silence_length(nodes, worker, store),
        Inner::Recover(node) => Ok(recovery_length(nodes, node)),
    }
}

impl<J: Journal> Core<J> {
    /// Whether an event that may be cut may come.
    fn may(&self, event: Inner) -> bool
        ensures { result ≡ may (setting self.now.given) (world self.now) event }
    {
        may(&self.given, &self.nodes, &self.queues, &self.places, event)
    }

    /// How long the record of an event is that may come, if it writes one.
    fn length(&mut self, event: Inner, done: Option<&Done>) -> Result<Option<u32>, NoMemory>
        requires may { IsTrue (may (setting self.old.given) (world self.old) event) }
        requires done { InnerHasDone self.old.given (world self.old) event (option_copied done) }
        requires few { attempts self.old.moves < 4000000000 }
        ensures length { IfOk result (λ len. len ≡ length_in (act (setting self.old.given) (world self.old) event)) }
        ensures given { self.new.given ≡ self.old.given }
        ensures moves { self.new.moves ≡ self.old.moves }
        ensures journals { OnlyGainRoom self.old.journals self.new.journals }
    {
        planned_length(&mut self.nodes, &self.queues, event, done)
    }

    /// Whether an event may be cut so that this many bytes of its record stay.
    fn may_cut(&mut self, keep: u32, event: Inner, done: Option<&Done>) -> Result<bool, NoMemory>
        requires done { InnerHasDone self.old.given (world self.old) event (option_copied done) }
        requires few { attempts self.old.moves < 4000000000 }
        ensures answer { IfOk result (λ b. b ≡ enabled (setting self.old.given) (world self.old) (Cuts keep event)) }
        ensures given { self.new.given ≡ self.old.given }
        ensures moves { self.new.moves ≡ self.old.moves }
        ensures journals { OnlyGainRoom self.old.journals self.new.journals }
    {
        if !self.may(event) {
            return Ok(false);
        }
        match self.length(event, done)? {
            Some(length) => Ok(keep <= length),
            None => Ok(false),
        }
    }

    /// Whether an event may come now. For an evaluation that is over `done` is what its job came to.
    pub fn enabled(&mut self, event: &Event, done: Option<&Done>) -> Result<bool, NoMemory>
        requires done { EventHasDone self.old.given (world self.old) event.now (option_copied done) }
        requires few { attempts self.old.moves < 4000000000 }
        ensures answer { IfOk result (λ b. b ≡ enabled (setting self.old.given) (world self.old) (form_of (unmarked event.now))) }
        ensures given { self.new.given ≡ self.old.given }
        ensures moves { self.new.moves ≡ self.old.moves }
        ensures journals { OnlyGainRoom self.old.journals self.new.journals }
    {
        match *event {
            Event::CrashIn(keep, inner) => self.may_cut(keep, inner, done),
            whole => Ok(self.may_whole(whole)),
        }
    }

    /// How long the record of an event is that may come, if it writes one.
    pub fn record_len(
        &mut self,
        event: &Event,
        done: Option<&Done>,
    ) -> Result<Option<u32>, NoMemory>
        requires done { EventHasDone self.old.given (world self.old) event.now (option_copied done) }
        requires few { attempts self.old.moves < 4000000000 }
        requires may { MayBeDone (setting self.old.given) (world self.old) (inner_of event.now) }
        ensures length { IfOk result (λ len. IfSome (inner_of event.now) (λ inner. len ≡ length_in (act (setting self.old.given) (world self.old) inner))) }
        ensures given { self.new.given ≡ self.old.given }
        ensures moves { self.new.moves ≡ self.old.moves }
        ensures journals { OnlyGainRoom self.old.journals self.new.journals }
    {
        match inner_of(*event) {
            Some(inner) => self.length(inner, done),
            None => unreachable!(),
        }
    }

    /// Whether an event that isn't cut may come. It takes no memory.
    pub fn may_whole(&self, event: Event) -> bool
        requires { IsUncut event }
        ensures { result ≡ enabled (setting self.now.given) (world self.now) (form_of (unmarked event)) }
    {
        match event {
            Event::Begin(worker) => self.may(Inner::Begin(worker)),
            Event::Resume(worker) => self.may(Inner::Resume(worker)),
            Event::Deliver(sender, receiver) => self.may(Inner::Deliver(sender, receiver)),
            Event::Idle(worker, node) => self.may(Inner::Idle(worker, node)),
            Event::Recover(node) => self.may(Inner::Recover(node)),
            Event::Post(sender) => self.may_post(sender),
            Event::Crash(node) => self.is_running(node),
            Event::CrashIn(..) => unreachable!(),
        }
    }

    /// Whether a hostile node may post.
    fn may_post(&self, sender: u16) -> bool
        ensures { result ≡ enabled (setting self.now.given) (world self.now) (Posts sender) }
    {
        may_post(&self.given, &self.nodes, &self.places, sender)
    }

    /// Whether an honest node is up.
    fn is_running(&self, number: u16) -> bool
        ensures { result ≡ is_running (setting self.now.given) (world self.now) number }
    {
        is_up(&self.nodes, number)
    }
}
