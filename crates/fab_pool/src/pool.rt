//! The threads of a pool.
ghost use Rattle.std.specs.Prelude.{◌≡◌, ◌<◌, ◌≤◌, All, IfOk, length, map};
ghost use Rattle.fab_pool.specs.Jobs.{IsAt, IsOf, IsReady};

use crate::slot::{Slot, Waiting};
use crossbeam_channel::Receiver;
use fab_base::{NoMemory, Seq};
use fab_eval::{Done, Job};
use fab_gates::Gate;
use std::alloc::Global;
use std::sync::Wait;
use std::thread;
use std::thread::Threads;

/// What a copy of a job came to, with the job's place.
#[derive(Drop)]
struct Placed {
    place: usize,
    done: Done,
}

/// Jobs that wait.
fn slots_of(alloc: Global, jobs: Seq<Job>) -> Result<Vec<Slot>, NoMemory>
    requires { All IsReady jobs }
    ensures { IfOk result (λ slots. slots.items ≡ jobs) }
{
    let mut slots = Vec::new(alloc);
    for job in jobs.into_vec() {
        slots.push(Slot::new(job))?;
    }
    Ok(slots)
}

/// What a copy of the job in this place comes to.
fn evaluate_at<S: Waiting, G: Gate>(
    alloc: Global,
    slots: &[S],
    place: usize,
    gate: &G,
) -> Result<Placed, NoMemory>
    requires { place < length slots.now }
    ensures { IfOk result (λ placed. IsOf S.job slots.now placed.place placed.done.job) }
{
    let done = slots[place].evaluate_copy(alloc, gate)?;
    Ok(Placed { place, done })
}

/// One thread: it evaluates copies of the jobs whose places it gets, until there are no more, or memory runs out.
fn take_places<S: Waiting, R: Wait, G: Gate>(
    rt: &R,
    alloc: Global,
    places: &Receiver<usize>,
    slots: &[S],
    gate: &G,
) -> Vec<Placed>
    ensures { All (λ placed. IsOf S.job slots.now placed.place placed.done.job) result.items }
{
    let mut taken: Vec<Placed> = Vec::new(alloc);
    for _ in rt.forever() {
        if taken.reserve(1).is_err() {
            break;
        }
        let Ok(place) = places.recv(rt) else {
            break;
        };
        if slots.len() <= place {
            break;
        }
        let Ok(placed) = evaluate_at(alloc, slots, place, gate) else {
            break;
        };
        taken.push_reserved(placed);
    }
    taken
}

/// What the threads bring back, each its own. All places stand in the channel before the first thread starts, and there is room for each,
/// so nobody waits for a place.
fn by_threads<S: Waiting + Sync, R: Threads + Wait + Sync, G: Gate + Sync>(
    rt: &R,
    alloc: Global,
    slots: &[S],
    width: usize,
    gate: &G,
) -> Result<Vec<Vec<Placed>>, NoMemory>
    ensures { IfOk result (λ lists. All (λ list. All (λ placed. IsOf S.job slots.now placed.place placed.done.job) list.items) lists.items) }
{
    let (feed, places) = crossbeam_channel::bounded(alloc, slots.len())?;
    for place in 0..slots.len() {
        let _ = feed.send(rt, place);
    }
    drop(feed);
    thread::map_indices(
        rt,
        alloc,
        width.min(slots.len()),
        &|_| take_places(rt, alloc, &places, slots, gate),
    )
}

/// Keeps what a thread brought back.
fn put_all(slots: &mut Vec<Slot>, list: Vec<Placed>)
    requires { All (λ placed. IsAt slots.old.items placed.place placed.done.job) list.items }
    ensures { slots.new.items ≡ slots.old.items }
{
    for Placed { place, done } in list {
        if place < slots.len() {
            slots[place].put(done);
        }
    }
}

/// Keeps what all threads brought back.
fn put_lists(slots: &mut Vec<Slot>, lists: Vec<Vec<Placed>>)
    requires { All (λ list. All (λ placed. IsAt slots.old.items placed.place placed.done.job) list.items) lists.items }
    ensures { slots.new.items ≡ slots.old.items }
{
    for list in lists {
        put_all(slots, list);
    }
}

/// What the jobs come to, in their order.
fn all_done<G: Gate>(alloc: Global, slots: Vec<Slot>, gate: &G) -> Result<Seq<Done>, NoMemory>
    ensures { IfOk result (λ dones. map (λ d. d.job) dones ≡ slots.items) }
{
    let mut dones = Vec::new(alloc);
    for slot in slots {
        dones.push(slot.finish(alloc, gate)?)?;
    }
    Ok(Seq::from_vec(dones))
}

/// Evaluators of several jobs.
pub struct Pool;

impl Pool {
    /// Evaluates jobs by so many threads. What they come to stands in the jobs' order. A gate is called around each evaluation, with the
    /// job's worker.
    pub fn evaluate_all<R: Threads + Wait + Sync, G: Gate + Sync>(
        rt: &R,
        alloc: Global,
        jobs: Seq<Job>,
        width: u16,
        gate: &G,
    ) -> Result<Seq<Done>, NoMemory>
        requires width { (0 < width) × (width ≤ 32) }
        requires ready { All IsReady jobs }
        ensures order { IfOk result (λ dones. map (λ d. d.job) dones ≡ jobs) }
    {
        let mut slots = slots_of(alloc, jobs)?;
        let lists = by_threads(rt, alloc, slots.as_slice(), usize::from(width), gate)?;
        put_lists(&mut slots, lists);
        all_done(alloc, slots, gate)
    }
}
