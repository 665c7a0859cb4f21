//! Replays whose journals can't be made or fail, and what their journals then hold.

use crate::replay_tests::{
    COMMITTED, COUNT, DOWN, OPEN, TRANSFER, events_between, lines_between, report_to,
};
use crate::tests::{asked, words_of};
use fab_base::{NoMemory, Seq, SureSink, SureSource, Text};
use fab_device::{JournalError, Journals, MemJournal, MemJournals, SureJournal, SureJournals};
use fab_gates::OpenGate;
use fab_top::Status;
use std::alloc::{AllocError, Global};
use std::process::Abort;
use std::sync::Wait;
use std::test::Fail;
use std::thread::Threads;

/// The bytes that the run leaves in the journals of both nodes, all of them synced: the header, and the
/// worker's decision, or what the store prepared and then applied.
const WORKER: &str = "4641424a00010000000000140100000000000100000001000000010300010001";

const STORE: &str =
    "4641424a000100010000004d04000000000001000000010000000200010000ffff0000000000000000ffff000000000001000001000000005f00010000ffff0000000000000001ffff000000000001000001000000000500000000000b0600000000000100000001";

/// Bytes in hexadecimal digits.
fn digits_of(alloc: Global, bytes: &[u8]) -> Result<String, NoMemory> {
    let mut digits = String::new(alloc);
    for byte in bytes {
        let byte = format!(in alloc; "{byte:02x}")?;
        digits.push_str(byte.as_str())?;
    }
    Ok(digits)
}

/// What a replay of the transfer comes to, and the journals that it left.
#[derive(Drop)]
struct Outcome {
    status: u8,
    reply: String,
    journals: MemJournals,
}

/// A replay by this schedule, where the node's journal fails at its call of this number.
fn replay_with_fault(
    rt: &(impl Abort + Threads + Wait + Sync),
    alloc: Global,
    schedule: &str,
    node: &str,
    call: u32,
) -> Result<Outcome, NoMemory> {
    let text = format!(in alloc; "{TRANSFER}{schedule}}}}}")?;
    let words = words_of(alloc, "replay")?;
    let mut source = SureSource::new(Seq::from_slice(alloc, text.as_str().as_bytes())?);
    let mut sink = SureSink::new(alloc)?;
    let mut fails = Seq::new(alloc);
    fails.push((Text::make(alloc, node)?, call))?;
    let mut journals = MemJournals::with_fails(alloc, fails)?;
    let status = asked(
        rt,
        alloc,
        &words,
        &mut source,
        &mut sink,
        &mut journals,
        &OpenGate,
    );
    let Ok(written) = std::str::from_utf8(sink.bytes()) else {
        panic!(rt; "no text of {schedule}");
    };
    Ok(Outcome {
        status: status.number(),
        reply: String::from_str(alloc, written)?,
        journals,
    })
}

/// A node's journal was kept, with so many of the first bytes of what the run leaves.
fn holds(
    rt: &(impl Abort + Threads + Wait + Sync),
    alloc: Global,
    journals: &MemJournals,
    node: &str,
    whole: &str,
    count: usize,
) -> Result<(), NoMemory> {
    let Some(journal) = journals.kept(node) else {
        panic!(rt; "no journal of {node}");
    };
    let found = digits_of(alloc, journal.bytes())?;
    assert!(rt; whole.starts_with(found.as_str()), "{node}: {found}");
    assert_eq!(rt; journal.bytes().len(), count, "{node}");
    Ok(())
}

/// A node's journal fails at a call: in the event of this number, 0 before the first, 12 in none. Then so
/// many bytes are in the worker's journal and in the store's. Calls are counted from 1: two make the
/// header; a record takes an append and a sync.
const FAULTS: [(&str, u32, u32, usize, usize); 12] = [
    ("w1", 1, 0, 0, 0),
    ("w1", 2, 0, 8, 0),
    ("w1", 3, 10, 8, 89),
    ("w1", 4, 10, 32, 89),
    ("w1", 5, 12, 32, 104),
    ("s1", 1, 0, 8, 0),
    ("s1", 2, 0, 8, 8),
    ("s1", 3, 9, 8, 8),
    ("s1", 4, 9, 8, 89),
    ("s1", 5, 11, 32, 89),
    ("s1", 6, 11, 32, 104),
    ("s1", 7, 12, 32, 104),
];

/// What comes of a fault in a run: the report up to the event, which is cut there.
fn cut_report(alloc: Global, event: u32, node: &str) -> Result<String, NoMemory> {
    let before = event.saturating_sub(1);
    let lines = lines_between(alloc, before, event)?;
    let line = lines.first().copied().unwrap_or("");
    let events = report_to(alloc, before)?;
    let held = if event == 11 {
        COMMITTED
    } else if node == "w1" {
        DOWN
    } else {
        OPEN
    };
    format!(in alloc; "{events}event {event} crashin 0 {line}\n{held}end {event}\n")
}

/// Each journal call of each node fails in turn.
#[test]
fn journals_fail(rt: HostRuntime) -> Result<(), Fail> {
    let alloc = rt.alloc();
    let schedule = events_between(alloc, 0, COUNT)?;
    let events = report_to(alloc, COUNT)?;
    for (node, call, event, worker, store) in FAULTS {
        let found = replay_with_fault(&rt, alloc, schedule.as_str(), node, call)?;
        let (status, reply) = if event == 0 {
            (10, String::new(alloc))
        } else if event <= COUNT {
            (10, cut_report(alloc, event, node)?)
        } else {
            let whole = format!(in alloc; "{events}{COMMITTED}end {COUNT}\n")?;
            (0, whole)
        };
        assert_eq!(&rt; found.status, status, "{node} {call}");
        assert_eq!(&rt; found.reply.as_str(), reply.as_str(), "{node} {call}");
        holds(&rt, alloc, &found.journals, "w1", WORKER, worker)?;
        holds(&rt, alloc, &found.journals, "s1", STORE, store)?;
    }
    Ok(())
}

/// Where an event may not come, and where a record is torn, the journals are kept as well.
#[test]
fn other_journals_are_kept(rt: HostRuntime) -> Result<(), Fail> {
    let alloc = rt.alloc();
    let nine = events_between(alloc, 0, 9)?;
    let barred = format!(in alloc; "{nine}begin w1;")?;
    let eight = events_between(alloc, 0, 8)?;
    let torn = format!(in alloc; "{eight}crashin 40 deliver w1 s1;")?;
    for (schedule, status, store) in [(barred.as_str(), 9, 89), (torn.as_str(), 0, 48)] {
        let found = replay_with_fault(&rt, alloc, schedule, "none", 1)?;
        assert_eq!(&rt; found.status, status, "{schedule}");
        holds(&rt, alloc, &found.journals, "w1", WORKER, 8)?;
        holds(&rt, alloc, &found.journals, "s1", STORE, store)?;
    }
    Ok(())
}

/// Behind eight events the worker crashes and comes back in the tenth, and the store hears of it; behind
/// nine the store does, comes back in the eleventh, and asks the worker, which has decided.
const WORKER_RECOVERS: &str = "crash w1;recover w1;deliver w1 s1;deliver w1 s1;";

const STORE_RECOVERS: &str = "crash s1;recover s1;deliver s1 w1;deliver s1 w1;deliver w1 s1;";

/// How many events come before, and the node whose journal fails at a call: in the event of this number, 0
/// in none. A recovery reads, cuts off what is torn, and then writes.
const FAULTS_AT_RECOVERIES: [(u32, &str, u32, u32); 19] = [
    (8, "w1", 3, 10),
    (8, "w1", 4, 10),
    (8, "w1", 5, 10),
    (8, "w1", 6, 10),
    (8, "w1", 7, 0),
    (8, "s1", 3, 11),
    (8, "s1", 4, 11),
    (8, "s1", 5, 12),
    (8, "s1", 6, 12),
    (8, "s1", 7, 0),
    (9, "s1", 4, 9),
    (9, "s1", 5, 11),
    (9, "s1", 6, 11),
    (9, "s1", 7, 14),
    (9, "s1", 8, 14),
    (9, "s1", 9, 0),
    (9, "w1", 3, 12),
    (9, "w1", 4, 12),
    (9, "w1", 5, 0),
];

/// A journal call fails in a schedule with a recovery: up to the event in which it does the report is that of
/// the run in which none fails, and this event is the last, cut before its record.
fn fails_at_recovery(
    rt: &(impl Abort + Threads + Wait + Sync),
    alloc: Global,
    row: (u32, &str, u32, u32),
) -> Result<(), NoMemory> {
    let (count, node, call, event) = row;
    let before = events_between(alloc, 0, count)?;
    let more = if count == 8 {
        WORKER_RECOVERS
    } else {
        STORE_RECOVERS
    };
    let schedule = format!(in alloc; "{before}{more}")?;
    let whole = replay_with_fault(rt, alloc, schedule.as_str(), "none", 1)?;
    let found = replay_with_fault(rt, alloc, schedule.as_str(), node, call)?;
    if event == 0 {
        assert_eq!(rt; found.status, 0, "{count} {node} {call}");
        assert_eq!(rt;
            found.reply.as_str(),
            whole.reply.as_str(),
            "{count} {node} {call}"
        );
        return Ok(());
    }
    let line = format!(in alloc; "\nevent {event} ")?;
    let Some((front, _)) = whole.reply.as_str().split_once(line.as_str()) else {
        panic!(rt; "no event {event}");
    };
    let cut = format!(in alloc; "{front}\nevent {event} crashin 0 ")?;
    let end = format!(in alloc; "\nend {event}\n")?;
    assert_eq!(rt; found.status, 10, "{count} {node} {call}");
    assert!(rt;
        found.reply.as_str().starts_with(cut.as_str()),
        "{count} {node} {call}"
    );
    assert!(rt;
        found.reply.as_str().ends_with(end.as_str()),
        "{count} {node} {call}"
    );
    Ok(())
}

#[test]
fn journals_fail_at_recoveries(rt: HostRuntime) -> Result<(), Fail> {
    let alloc = rt.alloc();
    for row in FAULTS_AT_RECOVERIES {
        fails_at_recovery(&rt, alloc, row)?;
    }
    Ok(())
}

#[test]
fn journals_are_kept(rt: HostRuntime) -> Result<(), Fail> {
    let alloc = rt.alloc();
    let schedule = events_between(alloc, 0, COUNT)?;
    let text = format!(in alloc; "{TRANSFER}{schedule}}}}}")?;
    let words = words_of(alloc, "replay")?;
    let mut source = SureSource::new(Seq::from_slice(alloc, text.as_str().as_bytes())?);
    let mut sink = SureSink::new(alloc)?;
    let mut journals = SureJournals::new(alloc)?;
    asked(
        &rt,
        alloc,
        &words,
        &mut source,
        &mut sink,
        &mut journals,
        &OpenGate,
    );
    for (node, digits) in [("w1", WORKER), ("s1", STORE)] {
        let Some(journal) = journals.kept(node) else {
            panic!(&rt; "no journal of {node}");
        };
        let found = digits_of(alloc, journal.bytes())?;
        assert_eq!(&rt; found.as_str(), digits);
        assert_eq!(&rt; journal.synced(), journal.bytes().len() as u64);
    }
    Ok(())
}

/// A maker of journals that refuses one node's, and counts those that it made and those that it is given to keep.
#[derive(Drop)]
struct Refusing {
    alloc: Global,
    node: &'static str,
    made: u16,
    kept: u32,
    faults: u64,
}

impl Journals for Refusing {
    ghost use Rattle.std.specs.Prelude.{None};

    type Item = SureJournal;

    ghost seen = { λ s. record { may_fail = None; made = None; kept = None; faults = s.faults; lost = 0 } };

    fn make(&mut self, node: &str) -> Result<SureJournal, JournalError> {
        if node == self.node {
            self.faults = self.faults.saturating_add(1);
            return Err(JournalError::Failed);
        }
        self.made = self.made.saturating_add(1);
        Ok(SureJournal::new(self.alloc)?)
    }

    fn keep(&mut self, _node: &str, journal: SureJournal) -> Result<(), NoMemory> {
        drop(journal);
        self.kept = self.kept.saturating_add(1);
        Ok(())
    }
}

/// Where a node's journal can't be made, it is this node's fault, nothing is written, none behind it is made, and those
/// before it are kept. Where each can, each is made once, and kept.
#[test]
fn journals_cannot_be_made(rt: HostRuntime) -> Result<(), Fail> {
    let alloc = rt.alloc();
    let schedule = events_between(alloc, 0, COUNT)?;
    let text = format!(in alloc; "{TRANSFER}{schedule}}}}}")?;
    for (name, node) in [("w1", 0), ("s1", 1), ("none", 2)] {
        let words = words_of(alloc, "replay")?;
        let mut source = SureSource::new(Seq::from_slice(alloc, text.as_str().as_bytes())?);
        let mut sink = SureSink::new(alloc)?;
        let mut journals = Refusing {
            alloc,
            node: name,
            made: 0,
            kept: 0,
            faults: 0,
        };
        let status = asked(
            &rt,
            alloc,
            &words,
            &mut source,
            &mut sink,
            &mut journals,
            &OpenGate,
        );
        assert_eq!(&rt; journals.made, node);
        assert_eq!(&rt; journals.kept, u32::from(node));
        if node == 2 {
            assert_eq!(&rt; status, Status::Ok);
        } else {
            assert_eq!(&rt; status, Status::JournalFault { node });
            assert_eq!(&rt; sink.bytes(), b"".as_slice());
        }
    }
    Ok(())
}

/// A maker of journals that wants memory to keep any.
#[derive(Drop)]
struct Losing {
    makers: MemJournals,
    lost: u64,
}

impl Journals for Losing {
    ghost use Rattle.std.specs.Prelude.{None};

    type Item = MemJournal;

    ghost seen = { λ s. record { may_fail = None; made = None; kept = None; faults = 0; lost = s.lost } };

    fn make(&mut self, node: &str) -> Result<MemJournal, JournalError> {
        self.makers.make(node)
    }

    fn keep(&mut self, _node: &str, journal: MemJournal) -> Result<(), NoMemory> {
        drop(journal);
        self.lost = self.lost.saturating_add(1);
        Err(AllocError)
    }
}

/// Where the maker loses each journal, it is offered all the same, and a journal's fault in the run or at a header is
/// told, without a text; where none fails, want of memory is.
#[test]
fn journals_are_lost(rt: HostRuntime) -> Result<(), Fail> {
    let alloc = rt.alloc();
    let schedule = events_between(alloc, 0, COUNT)?;
    let text = format!(in alloc; "{TRANSFER}{schedule}}}}}")?;
    let faults = [
        ("w1", 3, Status::JournalFault { node: 0 }),
        ("s1", 1, Status::JournalFault { node: 1 }),
        ("none", 1, Status::Memory),
    ];
    for (name, call, wanted) in faults {
        let words = words_of(alloc, "replay")?;
        let mut source = SureSource::new(Seq::from_slice(alloc, text.as_str().as_bytes())?);
        let mut sink = SureSink::new(alloc)?;
        let mut fails = Seq::new(alloc);
        fails.push((Text::make(alloc, name)?, call))?;
        let mut journals = Losing {
            makers: MemJournals::with_fails(alloc, fails)?,
            lost: 0,
        };
        let status = asked(
            &rt,
            alloc,
            &words,
            &mut source,
            &mut sink,
            &mut journals,
            &OpenGate,
        );
        assert_eq!(&rt; status, wanted);
        assert_eq!(&rt; sink.bytes(), b"".as_slice());
        assert_eq!(&rt; journals.lost, 2);
    }
    Ok(())
}
