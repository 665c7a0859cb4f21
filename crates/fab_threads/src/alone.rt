//! What the threads left is done by the calling thread: events that are due, least node first, and between them the evaluations of all
//! workers that wait for theirs, by the pool.
ghost use Rattle.std.specs.Prelude.{◌≡◌, ℕ, ◌+◌, ◌≤◌, IfOk, IfErr};
ghost use Rattle.fab_threads.specs.Counts.{IsReady, JobIsReady, OnOver};
ghost use Rattle.fab_threads.specs.Rounds.{IsLeft};

use crate::bench::Bench;
use crate::turning::Turning;
use fab_base::{NoMemory, Seq};
use fab_eval::{Done, Job};
use fab_exchange::{Given, Turn};
use fab_gates::Gate;
use std::alloc::Global;
use std::sync::Wait;
use std::thread::Threads;

/// Nodes have numbers below this.
const NUMBERS: u16 = 64;

/// What is left where no event is due: nothing, since all is over, or jobs.
#[derive(Drop)]
enum Left {
    Nothing,
    Jobs(Seq<Job>),
}

/// What a node's job came to is brought. Whether it is taken.
fn is_taken<X: Turning>(held: &mut X, node: u16, done: &Done) -> Result<bool, NoMemory>
    requires { done.now.job.program.value ≡ (X.given held.old).program }
    ensures given { X.given held.new ≡ X.given held.old }
    ensures sure { (n : ℕ) → X.sure held.new n ≡ X.sure held.old n }
    ensures grown { X.events held.old ≤ X.events held.new }
{
    match held.give(node, done)? {
        Given::Taken => Ok(true),
        Given::Stale => Ok(false),
    }
}

/// The same of what the pool made of its last job, if that is here. Nothing is copied to see whether the node has that job still.
fn kept_is_taken<X: Turning>(held: &mut X, bench: &Bench<'_>, node: u16) -> Result<bool, NoMemory>
    requires { bench.now ≡ (X.given held.old).program }
    ensures given { X.given held.new ≡ X.given held.old }
    ensures sure { (n : ℕ) → X.sure held.new n ≡ X.sure held.old n }
    ensures grown { X.events held.old ≤ X.events held.new }
{
    match bench.kept_of(node) {
        Some(done) => is_taken(held, node, done),
        None => Ok(false),
    }
}

/// The same of what its own evaluator makes of a job now.
fn evaluated_is_taken<X: Turning, G: Gate>(
    held: &mut X,
    bench: &mut Bench<'_>,
    gate: &G,
    node: u16,
    job: Job,
) -> Result<bool, NoMemory>
    requires program { bench.old ≡ (X.given held.old).program }
    requires job { IsReady bench.old job }
    ensures program { bench.new ≡ bench.old }
    ensures given { X.given held.new ≡ X.given held.old }
    ensures sure { (n : ℕ) → X.sure held.new n ≡ X.sure held.old n }
    ensures grown { X.events held.old ≤ X.events held.new }
{
    bench.evaluate(gate, node, job)?;
    match bench.done(node) {
        Some(done) => is_taken(held, node, done),
        None => Ok(false),
    }
}

/// What a turn is that asks for a node's job: an event that came of it by its own evaluator, or the job for the pool.
fn evaluated_or_left<X: Turning, G: Gate>(
    held: &mut X,
    bench: &mut Bench<'_>,
    gate: &G,
    node: u16,
    job: Job,
) -> Result<Turn, NoMemory>
    requires program { bench.old ≡ (X.given held.old).program }
    requires job { IsReady bench.old job }
    ensures program { bench.new ≡ bench.old }
    ensures given { X.given held.new ≡ X.given held.old }
    ensures sure { (n : ℕ) → X.sure held.new n ≡ X.sure held.old n }
    ensures grown { X.events held.old ≤ X.events held.new }
    ensures job { IfOk result (JobIsReady bench.old) }
    ensures over { IfOk result (λ turn. OnOver turn (X.over held.new)) }
{
    if !bench.is_own(node, &job) {
        return Ok(Turn::Evaluate(job));
    }
    if evaluated_is_taken(held, bench, gate, node, job)? {
        Ok(Turn::Acted)
    } else {
        Ok(Turn::Wait)
    }
}

/// A due event of a node, or its job for the pool.
fn due_turn<X: Turning, G: Gate>(
    held: &mut X,
    bench: &mut Bench<'_>,
    gate: &G,
    node: u16,
) -> Result<Turn, NoMemory>
    requires { bench.old ≡ (X.given held.old).program }
    ensures program { bench.new ≡ bench.old }
    ensures given { X.given held.new ≡ X.given held.old }
    ensures sure { (n : ℕ) → X.sure held.new n ≡ X.sure held.old n }
    ensures grown { X.events held.old ≤ X.events held.new }
    ensures job { IfOk result (JobIsReady bench.old) }
    ensures over { IfOk result (λ turn. OnOver turn (X.over held.new)) }
{
    match held.next(node)? {
        Turn::Evaluate(job) => evaluated_or_left(held, bench, gate, node, job),
        turn => Ok(turn),
    }
}

/// The turns of a node until none of it is due but an evaluation that the pool is to make: how the last one ended.
fn turns_of<X: Turning, R: Wait, G: Gate>(
    rt: &R,
    held: &mut X,
    bench: &mut Bench<'_>,
    gate: &G,
    node: u16,
) -> Result<Turn, NoMemory>
    requires { bench.old ≡ (X.given held.old).program }
    ensures program { bench.new ≡ bench.old }
    ensures given { X.given held.new ≡ X.given held.old }
    ensures sure { (n : ℕ) → X.sure held.new n ≡ X.sure held.old n }
    ensures grown { X.events held.old ≤ X.events held.new }
    ensures job { IfOk result (JobIsReady bench.old) }
    ensures over { IfOk result (λ turn. OnOver turn (X.over held.new)) }
{
    for _ in rt.forever() {
        if kept_is_taken(held, bench, node)? {
            continue;
        }
        match due_turn(held, bench, gate, node)? {
            Turn::Acted => {}
            turn => return Ok(turn),
        }
    }
    unreachable!()
}

/// The turns of all nodes, one node after the other: that all is over, or which jobs are left.
fn walk<X: Turning, R: Wait, G: Gate>(
    rt: &R,
    alloc: Global,
    held: &mut X,
    bench: &mut Bench<'_>,
    gate: &G,
) -> Result<Left, NoMemory>
    requires { bench.old ≡ (X.given held.old).program }
    ensures program { bench.new ≡ bench.old }
    ensures given { X.given held.new ≡ X.given held.old }
    ensures sure { (n : ℕ) → X.sure held.new n ≡ X.sure held.old n }
    ensures grown { X.events held.old ≤ X.events held.new }
    ensures left { IfOk result (IsLeft bench.old (X.over held.new)) }
{
    let mut jobs = Seq::new(alloc);
    for node in 0..NUMBERS {
        let turn = turns_of(rt, held, bench, gate, node)?;
        match turn {
            Turn::Evaluate(job) => jobs.push(job)?,
            Turn::Over => return Ok(Left::Nothing),
            Turn::Acted | Turn::Wait => {}
        }
    }
    Ok(Left::Jobs(jobs))
}

/// Walks until no event comes on a walk, so all workers that wait for the pool are found at once.
fn left_over<X: Turning, R: Wait, G: Gate>(
    rt: &R,
    alloc: Global,
    held: &mut X,
    bench: &mut Bench<'_>,
    gate: &G,
) -> Result<Left, NoMemory>
    requires { bench.old ≡ (X.given held.old).program }
    ensures program { bench.new ≡ bench.old }
    ensures given { X.given held.new ≡ X.given held.old }
    ensures sure { (n : ℕ) → X.sure held.new n ≡ X.sure held.old n }
    ensures grown { X.events held.old ≤ X.events held.new }
    ensures left { IfOk result (IsLeft bench.old (X.over held.new)) }
{
    for _ in rt.forever() {
        let before = held.len();
        let left = walk(rt, alloc, held, bench, gate)?;
        if held.len() == before {
            return Ok(left);
        }
    }
    unreachable!()
}

/// Applies events and evaluates jobs until all is over. How many events came. Without memory what takes turns is handed back.
pub fn finish<X: Turning, R: Threads + Wait + Sync, G: Gate + Sync>(
    rt: &R,
    alloc: Global,
    held: X,
    gate: &G,
) -> Result<(X, u64), X>
    ensures given { IfOk result (λ r. X.given r.0 ≡ X.given held) }
    ensures sure { IfOk result (λ r. (n : ℕ) → X.sure r.0 n ≡ X.sure held n) }
    ensures counted { IfOk result (λ r. X.events r.0 ≡ X.events held + r.1) }
    ensures over { IfOk result (λ r. X.over r.0) }
    ensures back_given { IfErr result (λ back. X.given back ≡ X.given held) }
    ensures back_sure { IfErr result (λ back. (n : ℕ) → X.sure back n ≡ X.sure held n) }
{
    let Ok(program) = held.program() else {
        return Err(held);
    };
    let Ok(mut bench) = Bench::new(alloc, &program) else {
        return Err(held);
    };
    let before = held.len();
    let mut held = held;
    for _ in rt.forever() {
        match left_over(rt, alloc, &mut held, &mut bench, gate) {
            Ok(Left::Nothing) => {
                let own = (held.len() - before) as u64;
                return Ok((held, own));
            }
            Ok(Left::Jobs(jobs)) => {
                if bench.evaluate_all(rt, alloc, jobs, gate).is_err() {
                    return Err(held);
                }
            }
            Err(_) => return Err(held),
        }
    }
    unreachable!()
}
