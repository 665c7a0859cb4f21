//! The threads, what each gives back, and the run when they have returned.
ghost use Rattle.std.specs.Prelude.{◌≡◌, ◌+◌, ◌^◌, ◌<◌, ◌≤◌, ℕ, [], sum, length, vec_capacity, vec_len, IfErr, IfNone, IfOk, IfSome, OnOk};
ghost use Rattle.fab_exchange.specs.Turns.{AreAsSure, AreOver};
ghost use Rattle.fab_threads.specs.Counts.{IsReady};

use crate::alone::finish;
use crate::bells::Bells;
use crate::evaluating::evaluate_at;
use crate::name::RunName;
use crate::shared::Shared;
use crate::turning::Turning;
use crate::watch::Rest;
use fab_base::NoMemory;
use fab_device::Journal;
use fab_eval::Job;
use fab_exchange::{Exchange, Given, Turn};
use fab_gates::Gate;
use fab_pauses::Evaluator;
use std::alloc::Global;
use std::marker::Brand;
use std::sync::ledger::{Blank, Share};
use std::sync::{Mutex, Wait};
use std::thread;
use std::thread::Threads;

/// After so many looks in a row, a millisecond apart, a thread leaves that nobody else would wake.
const MOST_LOOKS: u32 = 100;

/// What a thread begins with.
#[derive(Drop)]
struct Worker<N: RunName> {
    node: u16,
    share: Share<N>,
    ghost one_part: { share.parts ≡ 1 },
    ghost nothing: { share.amount ≡ 0 },
}

/// What a thread gives back: how many events it made.
#[derive(Drop)]
struct Ran<N: RunName> {
    share: Share<N>,
    count: u64,
    ghost one_part: { share.parts ≡ 1 },
    ghost counted: { share.amount ≡ count },
}

/// A run that is over, with a count for each thread and one for the calling thread: together as many as it has events.
#[derive(Drop)]
pub struct Finished<J: Journal> {
    pub exchange: Exchange<J>,
    pub counts: Vec<u64>,
    pub own: u64,
}

fn worker_of<N: RunName>(node: u16, share: Share<N>) -> Worker<N>
    requires one_part { share.parts ≡ 1 }
    requires nothing { share.amount ≡ 0 }
{
    Worker { node, share }
}

fn ran_with<N: RunName>(share: Share<N>, count: u64) -> Ran<N>
    requires one_part { share.parts ≡ 1 }
    requires counted { share.amount ≡ count }
{
    Ran { share, count }
}

/// A thread that is to wait does so. Whether it goes on then.
fn rests<R: Wait>(rt: &R, bells: &Bells, node: u16, rest: Rest, looks: u32) -> bool {
    match rest {
        Rest::Sleep => {
            bells.sleep(rt, node);
            true
        }
        Rest::Look if looks < MOST_LOOKS => {
            bells.doze(rt, node);
            true
        }
        Rest::Look | Rest::Leave => false,
    }
}

/// A job is evaluated while the lock is free, and what it came to is brought back. How many events came of it, or nothing where memory
/// runs out.
fn bring<X: Turning, N: RunName, R: Wait, G: Gate>(
    rt: &R,
    shared: &Mutex<Shared<X, N>>,
    gate: &G,
    node: u16,
    evaluator: &mut Evaluator<'_>,
    job: Job,
    mine: &mut Share<N>,
) -> Option<u64>
    requires job { IsReady N.given.program job }
    requires program { evaluator.old.program ≡ N.given.program }
    requires part { 0 < mine.old.parts }
    ensures program { evaluator.new.program ≡ evaluator.old.program }
    ensures none { IfNone result (mine.new.amount ≡ mine.old.amount) }
    ensures amount { IfSome result (λ came. mine.new.amount ≡ mine.old.amount + came) }
    ensures bound { IfSome result (λ came. mine.new.amount < 2 ^ 64) }
    ensures parts { mine.new.parts ≡ mine.old.parts }
{
    if evaluate_at(gate, node, evaluator, job).is_err() {
        return None;
    }
    let Some(done) = evaluator.done() else {
        unreachable!()
    };
    let given = shared.lock(rt).give(node, done, mine);
    match given {
        Ok(Given::Taken) => Some(1),
        Ok(Given::Stale) => Some(0),
        Err(_) => None,
    }
}

/// The turns of one node's thread, until all is over, nobody is left that would do what is due, or memory runs out: how many events came.
/// What it leaves undone is found due again by others. Each turn is bound before it is looked at, so that the lock is free while a job is
/// evaluated. Where a thread leaves the lock for long, it first wakes one of those for whom it left something to do.
fn take_turns<X: Turning, N: RunName, R: Wait, G: Gate>(
    rt: &R,
    shared: &Mutex<Shared<X, N>>,
    bells: &Bells,
    gate: &G,
    node: u16,
    evaluator: &mut Evaluator<'_>,
    share: &mut Share<N>,
) -> u64
    requires program { evaluator.old.program ≡ N.given.program }
    requires one_part { share.old.parts ≡ 1 }
    requires nothing { share.old.amount ≡ 0 }
    ensures one_part { share.new.parts ≡ 1 }
    ensures counted { share.new.amount ≡ result }
{
    let mut count = 0_u64;
    let mut looks = 0;
    for _ in rt.forever() {
        let (turn, aside) = shared.lock(rt).turn(node, share);
        bells.ring(aside.wakes);
        match turn {
            Ok(Turn::Acted) => {
                count += 1;
                looks = 0;
            }
            Ok(Turn::Evaluate(job)) => {
                let Some(came) = bring(rt, shared, gate, node, evaluator, job, share) else {
                    break;
                };
                count += came;
            }
            Ok(Turn::Wait) => {
                if !rests(rt, bells, node, aside.rest, looks) {
                    break;
                }
                looks = looks.saturating_add(1);
            }
            Ok(Turn::Over) | Err(_) => break,
        }
    }
    count
}

/// One node's thread. Its evaluator is its own, so a job goes on where the thread's last one paused. The program is had under the lock,
/// once.
fn work<X: Turning, N: RunName, R: Wait, G: Gate>(
    rt: &R,
    alloc: Global,
    shared: &Mutex<Shared<X, N>>,
    bells: &Bells,
    gate: &G,
    worker: Worker<N>,
) -> Ran<N> {
    let Worker { node, mut share } = worker;
    let program = shared.lock(rt).program();
    let count = match program {
        Ok(program) => {
            let mut evaluator = Evaluator::new(alloc, &program);
            take_turns(rt, shared, bells, gate, node, &mut evaluator, &mut share)
        }
        Err(_) => 0,
    };
    let woken = shared.lock(rt).leave(node);
    bells.ring(woken);
    ran_with(share, count)
}

/// A thread's beginning for each of these nodes, with a part each of the shares, which all have.
fn workers_of<N: RunName>(
    alloc: Global,
    nodes: &[u16],
    all: &mut Share<N>,
) -> Result<Vec<Worker<N>>, NoMemory>
    requires parts { all.old.parts ≡ length nodes.now + 1 }
    requires nothing { all.old.amount ≡ 0 }
    ensures parts { OnOk result (all.new.parts ≡ 1) }
    ensures nothing { all.new.amount ≡ 0 }
    ensures many { IfOk result (λ workers. vec_len workers ≡ length nodes.now) }
{
    let mut workers = Vec::new(alloc);
    for place in 0..nodes.len() {
        let share = all.split_off(1, 0);
        workers.push(worker_of(nodes[place], share))?;
    }
    Ok(workers)
}

/// What the threads counted, whose parts all have again. The vector has a place for each.
fn counts_of<N: RunName>(rans: Vec<Ran<N>>, all: &mut Share<N>, places: Vec<u64>) -> Vec<u64>
    requires parts { all.old.parts ≡ 1 }
    requires nothing { all.old.amount ≡ 0 }
    requires none { vec_len places ≡ 0 }
    requires room { vec_len rans ≤ vec_capacity places }
    ensures parts { all.new.parts ≡ vec_len rans + 1 }
    ensures amount { all.new.amount ≡ sum result.items }
    ensures many { vec_len result ≡ vec_len rans }
{
    let mut counts = places;
    for Ran { share, count } in rans {
        all.merge(share);
        counts.push_reserved(count);
    }
    counts
}

/// The threads, under a name. Without memory what takes turns is handed back, once all of them have returned.
fn run_named<X: Turning + Send, N: RunName + Send + Sync, R: Threads + Wait + Sync, G: Gate + Sync>(
    rt: &R,
    alloc: Global,
    held: X,
    nodes: &[u16],
    gate: &G,
    blank: Blank,
) -> Result<(X, Vec<u64>), X>
    requires given { X.given held ≡ N.given }
    requires sure { (n : ℕ) → X.sure held n ≡ N.sure n }
    requires empty { X.events held ≡ 0 }
    requires name { blank.name ≡ N.name }
    requires parts { blank.parts ≡ N.parts }
    requires one_more { blank.parts ≡ length nodes.now + 1 }
    ensures given { IfOk result (λ r. X.given r.0 ≡ N.given) }
    ensures sure { IfOk result (λ r. (n : ℕ) → X.sure r.0 n ≡ N.sure n) }
    ensures threads { IfOk result (λ r. vec_len r.1 ≡ length nodes.now) }
    ensures counted { IfOk result (λ r. X.events r.0 ≡ sum r.1.items) }
    ensures back_given { IfErr result (λ back. X.given back ≡ N.given) }
    ensures back_sure { IfErr result (λ back. (n : ℕ) → X.sure back n ≡ N.sure n) }
{
    let (book, mut all) = blank.open::<N>();
    let Ok(workers) = workers_of(alloc, nodes, &mut all) else {
        return Err(held);
    };
    let Ok(bells) = Bells::make(alloc) else {
        return Err(held);
    };
    let mut places = Vec::new(alloc);
    if places.reserve(nodes.len()).is_err() {
        return Err(held);
    }
    let shared = Mutex::new(Shared::new(held, book));
    let Ok(rans) = thread::map_vec(rt, workers, &|w| work(rt, alloc, &shared, &bells, gate, w))
    else {
        return Err(shared.into_inner().into_held());
    };
    let counts = counts_of(rans, &mut all, places);
    let held = shared.into_inner().close(&mut all);
    Ok((held, counts))
}

/// Has whatever takes turns take them until nothing is due: by a thread for each of these nodes, and what they leave by the calling thread.
/// How many events each thread made, and how many the calling one. Without memory it is handed back as it then is.
pub fn run_turning<X: Turning + Send, R: Threads + Wait + Sync, G: Gate + Sync>(
    rt: &R,
    alloc: Global,
    held: X,
    nodes: &[u16],
    gate: &G,
) -> Result<(X, Vec<u64>, u64), X>
    requires { X.events held ≡ 0 }
    ensures given { IfOk result (λ r. X.given r.0 ≡ X.given held) }
    ensures sure { IfOk result (λ r. (n : ℕ) → X.sure r.0 n ≡ X.sure held n) }
    ensures over { IfOk result (λ r. X.over r.0) }
    ensures threads { IfOk result (λ r. vec_len r.1 ≡ length nodes.now) }
    ensures counted { IfOk result (λ r. X.events r.0 ≡ sum r.1.items + r.2) }
    ensures back_given { IfErr result (λ back. X.given back ≡ X.given held) }
    ensures back_sure { IfErr result (λ back. (n : ℕ) → X.sure back n ≡ X.sure held n) }
{
    let blank = Blank::new(nodes.len() as u64 + 1);
    let run = run_named::<X, Brand, R, G>(rt, alloc, held, nodes, gate, blank);
    let (held, counts) = match run {
        Ok(run) => run,
        Err(back) => return Err(back),
    };
    match finish(rt, alloc, held, gate) {
        Ok((held, own)) => Ok((held, counts, own)),
        Err(back) => Err(back),
    }
}

/// Runs an exchange until it is over: a thread for each of these nodes, and what they leave by the calling thread. The counts of all
/// threads and of the calling one add up to the events of the run. Without memory the exchange is handed back as it then is.
pub fn run_threads<J: Journal + Drop + Send, R: Threads + Wait + Sync, G: Gate + Sync>(
    rt: &R,
    alloc: Global,
    exchange: Exchange<J>,
    nodes: &[u16],
    gate: &G,
) -> Result<Finished<J>, Exchange<J>>
    requires { exchange.moves ≡ [] }
    ensures given { IfOk result (λ x. x.exchange.given ≡ exchange.given) }
    ensures sure { IfOk result (λ x. AreAsSure exchange.journals x.exchange.journals) }
    ensures over { IfOk result (λ x. AreOver x.exchange.given x.exchange.moves) }
    ensures threads { IfOk result (λ x. vec_len x.counts ≡ length nodes.now) }
    ensures counted { IfOk result (λ x. length x.exchange.moves ≡ sum x.counts.items + x.own) }
    ensures back_given { IfErr result (λ back. back.given ≡ exchange.given) }
    ensures back_sure { IfErr result (λ back. AreAsSure exchange.journals back.journals) }
{
    match run_turning(rt, alloc, exchange, nodes, gate) {
        Ok((exchange, counts, own)) => Ok(Finished {
            exchange,
            counts,
            own,
        }),
        Err(back) => Err(back),
    }
}
