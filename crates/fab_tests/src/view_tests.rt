//! Views and trusted replays that can't be written whole, or whose run a journal's fault ends.

use crate::replay_tests::{COUNT, TRANSFER, events_between};
use crate::tests::{asked, expect_fronts, words_of};
use fab_base::{NoMemory, Seq, SureSink, SureSource, Text};
use fab_device::MemJournals;
use fab_gates::OpenGate;
use std::alloc::Global;
use std::test::Fail;

/// A worker and a store that act for Alice, a store that is hostile, a secret pin at the one and a box at the
/// other. `probe` reads the pin and puts 7 into the box; `tell` would put the pin there. The hostile store sends
/// the box at version 1, and a vote.
const PINS: &str =
    "principal Alice;worker w1;store s1;hostile store h1;w1 actsfor Alice;s1 actsfor Alice;\
    label S={Alice->};label P={};class Pin label S access S{int v;}class Box label P access P{int f;}\
    method probe(Pin p:P,Box b:P)begin P fails{int x:S=p.v;b.f=7;}\
    method tell(Pin p:P,Box b:P)begin P fails authority Alice{int x:S=p.v;int y:P=0;y=declassify(x,S to P);b.f=y;}\
    run{root p:Pin@s1(1234);root b:Box@h1(0);session w1{probe(p,b);}\
    post h1->w1\"01020000000000010000000100020001ffff0000000000000001ffff0000000000010001010000000000\";\
    post h1->w1\"01050000000000010000000100\";\
    schedule{begin w1;resume w1;deliver w1 s1;deliver s1 w1;resume w1;post h1;deliver h1 w1;resume w1;\
    deliver w1 s1;deliver s1 w1;post h1;deliver h1 w1;}}";

/// What is sent to the hostile store: it is asked for the box, is to prepare 7 for it, and to commit.
const TO_BOX: [&str; 3] = [
    "message w1 h1 1 01010000000000010000000100020001ffff0000000000000001ffff0000\n",
    "message w1 h1 2 0104000000000001000000010000000100020001ffff0000000000000001ffff00000000000100010100000000070000\n",
    "message w1 h1 3 010600000000000100000001\n",
];

/// A cut decision is told to nobody: the record isn't written whole where the journal fails, and what was
/// sent before is listed.
#[test]
fn view_to_a_fault(rt: HostRuntime) -> Result<(), Fail> {
    let alloc = rt.alloc();
    let [fetch, prepare, _] = TO_BOX;
    let text = format!(in alloc; "{fetch}{prepare}end 2\n")?;
    for (call, text) in [(2, ""), (3, text.as_str()), (4, text.as_str())] {
        let words = words_of(alloc, "view h1")?;
        let mut source = SureSource::new(Seq::from_slice(alloc, PINS.as_bytes())?);
        let mut sink = SureSink::new(alloc)?;
        let mut fails = Seq::new(alloc);
        fails.push((Text::make(alloc, "w1")?, call))?;
        let mut journals = MemJournals::with_fails(alloc, fails)?;
        let found = asked(
            &rt,
            alloc,
            &words,
            &mut source,
            &mut sink,
            &mut journals,
            &OpenGate,
        );
        assert_eq!(&rt; found.number(), 10, "{call}");
        assert_eq!(&rt; sink.bytes(), text.as_bytes(), "{call}");
    }
    Ok(())
}

/// Where any write fails, of a byte each, what was written before is a front of the text.
#[test]
fn views_in_part(rt: HostRuntime) -> Result<(), Fail> {
    let alloc = rt.alloc();
    let [fetch, prepare, commit] = TO_BOX;
    let text = format!(in alloc; "{fetch}{prepare}{commit}end 3\n")?;
    expect_fronts(&rt, alloc, "view h1", PINS, text.as_str())?;
    Ok(())
}

/// The accounts of the transfer before it is decided, and behind.
const UNDECIDED: &str = "robust\nobject s1 a Account 100\nobject s1 b Account 0\nend 2\n";

const DECIDED: &str = "robust\nobject s1 a Account 95\nobject s1 b Account 5\nend 2\n";

/// A commit whose record is cut is none; one that a store can't write down any more was decided before.
#[test]
fn trust_to_a_fault(rt: HostRuntime) -> Result<(), Fail> {
    let alloc = rt.alloc();
    let schedule = events_between(alloc, 0, COUNT)?;
    let bundle = format!(in alloc; "{TRANSFER}{schedule}}}}}")?;
    for (node, call, text) in [("w1", 2, ""), ("w1", 4, UNDECIDED), ("s1", 6, DECIDED)] {
        let words = words_of(alloc, "trust")?;
        let mut source = SureSource::new(Seq::from_slice(alloc, bundle.as_str().as_bytes())?);
        let mut sink = SureSink::new(alloc)?;
        let mut fails = Seq::new(alloc);
        fails.push((Text::make(alloc, node)?, call))?;
        let mut journals = MemJournals::with_fails(alloc, fails)?;
        let found = asked(
            &rt,
            alloc,
            &words,
            &mut source,
            &mut sink,
            &mut journals,
            &OpenGate,
        );
        assert_eq!(&rt; found.number(), 10, "{node} {call}");
        assert_eq!(&rt; sink.bytes(), text.as_bytes(), "{node} {call}");
    }
    Ok(())
}
