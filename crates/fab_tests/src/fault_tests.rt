//! Runs in which a journal fails: the other nodes go on.

use crate::run_tests::{COMMITTED, EVENTS, PREPARE, TRANSFER, words_of};
use crate::tests::asked;
use fab_base::{NoMemory, Seq, SureSink, SureSource, Text};
use fab_device::MemJournals;
use fab_gates::OpenGate;
use std::alloc::Global;
use std::process::Abort;
use std::sync::Wait;
use std::test::Fail;
use std::thread::Threads;

/// What is left where nothing was committed.
const SILENT: &str = "outcome w1 1 silent s1\nobject s1 a Account 1 100\nobject s1 b Account 1 0\n";

const DOWN: &str = "outcome w1 1 down\nobject s1 a Account 1 100\nobject s1 b Account 1 0\n";

const PREPARED: &str = "event 9 deliver w1 s1 ";

const VOTED: &str = "event 10 deliver s1 w1 01050000000000010000000100\n";

/// The report of the transfer's run where this call of a node's journal fails. Two calls make the header; a record
/// takes an append and a sync.
fn report_of(alloc: Global, node: &str, call: u32) -> Result<String, NoMemory> {
    match (node, call) {
        (_, 1 | 2) => Ok(String::new(alloc)),
        ("s1", 3 | 4) => {
            format!(in alloc;
                "{EVENTS}event 9 crashin 0 deliver w1 s1 {PREPARE}\nevent 10 idle w1 s1\n{SILENT}end 10\n"
            )
        }
        ("s1", _) => {
            format!(in alloc;
                "{EVENTS}{PREPARED}{PREPARE}\n{VOTED}event 11 crashin 0 deliver w1 s1 010600000000000100000001\n{COMMITTED}end 11\n"
            )
        }
        _ => {
            format!(in alloc;
                "{EVENTS}{PREPARED}{PREPARE}\nevent 10 crashin 0 deliver s1 w1 01050000000000010000000100\n{DOWN}end 10\n"
            )
        }
    }
}

/// The status and the report of a run where this call of the node's journal fails.
fn run_with_fault<R: Abort + Threads + Wait + Sync>(
    rt: &R,
    alloc: Global,
    text: &str,
    node: &str,
    call: u32,
) -> Result<(u8, String), NoMemory> {
    let words = words_of(alloc, "run")?;
    let mut source = SureSource::new(Seq::from_slice(alloc, text.as_bytes())?);
    let mut sink = SureSink::new(alloc)?;
    let mut fails = Seq::new(alloc);
    fails.push((Text::make(alloc, node)?, call))?;
    let mut journals = MemJournals::with_fails(alloc, fails)?;
    let status = asked(
        rt,
        alloc,
        &words,
        &mut source,
        &mut sink,
        &mut journals,
        &OpenGate,
    );
    let Ok(written) = std::str::from_utf8(sink.bytes()) else {
        panic!(rt; "no text of {text}");
    };
    Ok((status.number(), String::from_str(alloc, written)?))
}

/// The calls of the journals that a run of the transfer makes.
const CALLS: [(&str, u32); 10] = [
    ("s1", 1),
    ("s1", 2),
    ("s1", 3),
    ("s1", 4),
    ("s1", 5),
    ("s1", 6),
    ("w1", 1),
    ("w1", 2),
    ("w1", 3),
    ("w1", 4),
];

/// Each journal call of each node fails in turn: status 10, with the whole run's report behind the headers.
#[test]
fn journals_fail(rt: HostRuntime) -> Result<(), Fail> {
    let alloc = rt.alloc();
    let text = format!(in alloc; "{TRANSFER}}}")?;
    for (node, call) in CALLS {
        let (status, report) = run_with_fault(&rt, alloc, text.as_str(), node, call)?;
        let wanted = report_of(alloc, node, call)?;
        assert_eq!(&rt; status, 10, "{node} {call}");
        assert_eq!(&rt; report.as_str(), wanted.as_str(), "{node} {call}");
    }
    Ok(())
}

/// A store that crashed can't read its journal again, or can't cut it: it has failed for good.
#[test]
fn recovery_fails(rt: HostRuntime) -> Result<(), Fail> {
    let alloc = rt.alloc();
    let text = format!(in alloc; "{TRANSFER}crash s1 after 2;}}")?;
    for call in [3, 4] {
        let (status, report) = run_with_fault(&rt, alloc, text.as_str(), "s1", call)?;
        assert_eq!(&rt; status, 10, "{call}");
        assert!(&rt; report.as_str().contains(SILENT), "{call}: {report}");
    }
    Ok(())
}
