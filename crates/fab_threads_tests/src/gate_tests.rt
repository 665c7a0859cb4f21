//! Gates by themselves: whom they hold, whom they don't, and that they let go.

use fab_gates::{Gate, HoldGate, MeetGate, OpenGate};
use std::sync::atomic::{AtomicBool, Ordering};
use std::test::Fail;
use std::thread;

/// Comes, passes a gate, and tells whether the other had come by then.
fn passed<G: Gate>(gate: &G, worker: u16, mine: &AtomicBool, theirs: &AtomicBool) -> bool {
    mine.store(true, Ordering::SeqCst);
    gate.before(worker);
    theirs.load(Ordering::SeqCst)
}

#[test]
fn two_meet(rt: HostRuntime) -> Result<(), Fail> {
    let gate = MeetGate::make(3, 5);
    let one = AtomicBool::new(false);
    let other = AtomicBool::new(false);
    let (saw_other, saw_one) = thread::join(
        &rt,
        || passed(&gate, 3, &one, &other),
        || passed(&gate, 5, &other, &one),
    );
    assert!(rt; saw_other && saw_one);
    assert!(rt; !gate.gave_up());
    Ok(())
}

#[test]
fn they_meet_once_and_nobody_else_does(rt: HostRuntime) -> Result<(), Fail> {
    let gate = MeetGate::make(3, 5);
    gate.before(4);
    gate.after(3);
    assert!(rt; !gate.gave_up());
    thread::join(&rt, || gate.before(3), || gate.before(5));
    gate.before(3);
    gate.before(5);
    assert!(rt; !gate.gave_up());
    let of_one = MeetGate::make(3, 3);
    of_one.before(3);
    assert!(rt; !of_one.gave_up());
    Ok(())
}

#[test]
fn others_pass(rt: HostRuntime) -> Result<(), Fail> {
    OpenGate.before(3);
    OpenGate.after(3);
    let meet = MeetGate::make(3, 5);
    let hold = HoldGate::make(3, 5);
    meet.before(4);
    meet.after(4);
    hold.before(5);
    hold.after(3);
    assert!(rt; !meet.gave_up() && !hold.gave_up());
    Ok(())
}

/// Evaluates between a gate's calls, and leaves a flag.
fn evaluates<G: Gate>(gate: &G, worker: u16, done: &AtomicBool) {
    gate.before(worker);
    done.store(true, Ordering::SeqCst);
    gate.after(worker);
}

#[test]
fn one_is_held(rt: HostRuntime) -> Result<(), Fail> {
    let gate = HoldGate::make(3, 5);
    let held = AtomicBool::new(false);
    let done = AtomicBool::new(false);
    evaluates(&gate, 4, &held);
    let (was_done, ()) = thread::join(
        &rt,
        || passed(&gate, 3, &held, &done),
        || evaluates(&gate, 5, &done),
    );
    assert!(rt; was_done);
    gate.before(3);
    assert!(rt; !gate.gave_up());
    Ok(())
}
