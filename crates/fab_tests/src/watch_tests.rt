//! Reads of one object beside a run.

use crate::run_tests::{COMMITTED, TRANSFER, replied_with};
use fab_gates::HoldGate;
use std::test::Fail;

/// The number by which the reader passes a gate.
const READER: u16 = 65_535;

/// The worker's first evaluation waits for a read: that read sees the object before any commit, and the one behind the run sees its end. Who
/// reads behind the run alone lets the gate give up.
#[test]
fn a_read_comes_before_the_end(rt: HostRuntime) -> Result<(), Fail> {
    let alloc = rt.alloc();
    let text = format!(in alloc; "{TRANSFER}}}")?;
    let gate = HoldGate::make(0, READER);
    let (status, told) = replied_with(&rt, alloc, "watch a 1", text.as_str(), &gate)?;
    let end = format!(in alloc; "{COMMITTED}end 11\nread 1 after 0 100\nread 2 after 1 95\n")?;
    assert_eq!(&rt; status, 0);
    assert!(&rt; told.as_str().ends_with(end.as_str()), "{told}");
    assert!(&rt; !gate.gave_up());
    Ok(())
}

/// The first read waits for an evaluation of the worker. Who reads before the run alone lets the gate give up.
#[test]
fn a_read_comes_behind_an_evaluation(rt: HostRuntime) -> Result<(), Fail> {
    let alloc = rt.alloc();
    let text = format!(in alloc; "{TRANSFER}}}")?;
    let gate = HoldGate::make(READER, 0);
    let (status, told) = replied_with(&rt, alloc, "watch a 1", text.as_str(), &gate)?;
    assert_eq!(&rt; status, 0);
    assert!(&rt; told.as_str().ends_with("read 2 after 1 95\n"), "{told}");
    assert!(&rt; !gate.gave_up());
    Ok(())
}

/// The first read waits for somebody who never comes, so the run is over before it: all lines tell the end.
#[test]
fn a_late_reader_sees_the_end(rt: HostRuntime) -> Result<(), Fail> {
    let alloc = rt.alloc();
    let text = format!(in alloc; "{TRANSFER}}}")?;
    let gate = HoldGate::make(READER, 63);
    let (status, told) = replied_with(&rt, alloc, "watch a 2", text.as_str(), &gate)?;
    let end = format!(in alloc;
        "{COMMITTED}end 11\nread 1 after 1 95\nread 2 after 1 95\nread 3 after 1 95\n"
    )?;
    assert_eq!(&rt; status, 0);
    assert!(&rt; told.as_str().ends_with(end.as_str()), "{told}");
    assert!(&rt; gate.gave_up());
    Ok(())
}
