//! What the tests share, words, and faults.
ghost use Rattle.std.specs.Prelude.{Some};

use fab_base::{
    Failed, MemSink, MemSource, NoMemory, Seq, Sink, SinkError, Source, SureSink, SureSource, What,
};
use fab_device::{Journals, SureJournals};
use fab_gates::{Gate, OpenGate};
use fab_top::{Status, fab};
use std::alloc::Global;
use std::process::Abort;
use std::sync::Wait;
use std::test::Fail;
use std::thread::Threads;

const SMALLEST: &str = "worker w1;store s1;run{}";

/// What `fab` comes to. It has no contract, so that no test is proved over the clauses of `fab`, of which none asks for one.
pub(crate) fn asked<R: Threads + Wait + Sync, S: Source, K: Sink, M: Journals, G: Gate + Sync>(
    rt: &R,
    alloc: Global,
    words: &[String],
    source: &mut S,
    sink: &mut K,
    journals: &mut M,
    gate: &G,
) -> Status {
    fab(rt, alloc, words, source, sink, journals, gate)
}

/// The words of a command line.
pub(crate) fn words_of(alloc: Global, words: &str) -> Result<Vec<String>, NoMemory> {
    let mut list = Vec::new(alloc);
    for word in words.split(' ') {
        list.push(String::from_str(alloc, word)?)?;
    }
    Ok(list)
}

/// Words that ask for nothing: nothing is read, even where the first read would fail.
#[test]
fn other_words(rt: HostRuntime) -> Result<(), Fail> {
    let alloc = rt.alloc();
    let words = words_of(alloc, "runs")?;
    let text = Seq::from_slice(alloc, SMALLEST.as_bytes())?;
    let mut source = MemSource::with_fails(alloc, text, Seq::from_slice(alloc, &[1])?)?;
    let mut sink = SureSink::new(alloc)?;
    let mut journals = SureJournals::new(alloc)?;
    let status = asked(
        &rt,
        alloc,
        &words,
        &mut source,
        &mut sink,
        &mut journals,
        &OpenGate,
    );
    assert_eq!(rt; status, Status::Usage);
    assert_eq!(rt; sink.bytes(), b"usage\n".as_slice());
    Ok(())
}

#[test]
fn second_read_fails(rt: HostRuntime) -> Result<(), Fail> {
    let alloc = rt.alloc();
    let words = words_of(alloc, "fmt")?;
    let text = Seq::from_slice(alloc, SMALLEST.as_bytes())?;
    let mut source = MemSource::with_fails(alloc, text, Seq::from_slice(alloc, &[2])?)?;
    let mut sink = SureSink::new(alloc)?;
    let mut journals = SureJournals::new(alloc)?;
    let status = asked(
        &rt,
        alloc,
        &words,
        &mut source,
        &mut sink,
        &mut journals,
        &OpenGate,
    );
    assert_eq!(rt; status, Status::ReadFault);
    assert_eq!(rt; sink.bytes(), b"".as_slice());
    Ok(())
}

/// A source of spaces without end, which tells nothing.
#[derive(Drop)]
struct Spaces {
    reads: u32,
    longest: usize,
    last: usize,
}

impl Source for Spaces {
    ghost use Rattle.std.specs.Prelude.{None};

    ghost left = { λ _. None };

    ghost faults = { λ _. 0 };

    fn read(&mut self, buf: &mut [u8]) -> Result<usize, Failed> {
        self.reads = self.reads.saturating_add(1);
        self.longest = self.longest.max(buf.len());
        self.last = buf.len();
        buf.fill(b' ');
        Ok(buf.len())
    }
}

/// 4,194,305 bytes are 64 pieces and one byte.
#[test]
fn pieces_of_65_536_bytes(rt: HostRuntime) -> Result<(), Fail> {
    let alloc = rt.alloc();
    let words = words_of(alloc, "eval")?;
    let mut source = Spaces {
        reads: 0,
        longest: 0,
        last: 0,
    };
    let mut sink = SureSink::new(alloc)?;
    let mut journals = SureJournals::new(alloc)?;
    let status = asked(
        &rt,
        alloc,
        &words,
        &mut source,
        &mut sink,
        &mut journals,
        &OpenGate,
    );
    assert_eq!(rt; status, Status::Limit { what: What::Bytes });
    assert_eq!(rt; source.reads, 65);
    assert_eq!(rt; source.longest, 65_536);
    assert_eq!(rt; source.last, 1);
    Ok(())
}

/// A sink that takes a byte at a call, and fails at one of its calls.
#[derive(Drop)]
struct Drip {
    bytes: Vec<u8>,
    calls: u32,
    fails_at: u32,
    faults: u64,
}

impl Sink for Drip {
    ghost written = { λ s. Some s.bytes.items };

    ghost faults = { λ s. s.faults };

    fn write(&mut self, piece: &[u8]) -> Result<usize, SinkError> {
        self.calls = self.calls.saturating_add(1);
        if self.calls == self.fails_at {
            self.faults = self.faults.saturating_add(1);
            return Err(SinkError::Failed);
        }
        match piece {
            [] => Ok(0),
            [first, ..] => {
                self.bytes.push(*first)?;
                Ok(1)
            }
        }
    }
}

/// What the smallest bundle is replied to this word, where the write of this number fails.
fn expect_front(
    rt: &(impl Abort + Threads + Wait + Sync),
    alloc: Global,
    words: &str,
    text: &str,
    fails_at: u32,
    front: &str,
) -> Result<(), NoMemory> {
    let words = words_of(alloc, words)?;
    let mut source = SureSource::new(Seq::from_slice(alloc, text.as_bytes())?);
    let mut sink = Drip {
        bytes: Vec::new(alloc),
        calls: 0,
        fails_at,
        faults: 0,
    };
    let mut journals = SureJournals::new(alloc)?;
    let status = asked(
        rt,
        alloc,
        &words,
        &mut source,
        &mut sink,
        &mut journals,
        &OpenGate,
    );
    assert_eq!(rt; status, Status::WriteFault);
    assert_eq!(rt; sink.bytes.as_slice(), front.as_bytes());
    Ok(())
}

/// Where any of its writes fails, of a byte each, what was written before is a front of the reply.
pub(crate) fn expect_fronts(
    rt: &(impl Abort + Threads + Wait + Sync),
    alloc: Global,
    words: &str,
    text: &str,
    reply: &str,
) -> Result<(), NoMemory> {
    let mut front = String::new(alloc);
    let mut number = 0u32;
    for letter in reply.chars() {
        number = number.saturating_add(1);
        expect_front(rt, alloc, words, text, number, front.as_str())?;
        front.push(letter)?;
    }
    Ok(())
}

#[test]
fn a_write_fails(rt: HostRuntime) -> Result<(), Fail> {
    let alloc = rt.alloc();
    expect_fronts(&rt, alloc, "eval", SMALLEST, "end\n")?;
    expect_fronts(&rt, alloc, "replay", SMALLEST, "fab report 1\nend 0\n")?;
    Ok(())
}

/// The line of a refusal isn't written where the sink fails.
#[test]
fn a_refusal_is_not_written(rt: HostRuntime) -> Result<(), Fail> {
    let alloc = rt.alloc();
    let words = words_of(alloc, "fmt")?;
    let mut source = SureSource::new(Seq::from_slice(alloc, b"run")?);
    let mut sink = MemSink::with_fails(alloc, Seq::from_slice(alloc, &[1])?)?;
    let mut journals = SureJournals::new(alloc)?;
    let status = asked(
        &rt,
        alloc,
        &words,
        &mut source,
        &mut sink,
        &mut journals,
        &OpenGate,
    );
    assert_eq!(rt; status, Status::WriteFault);
    assert_eq!(rt; sink.bytes(), b"".as_slice());
    Ok(())
}

/// A sink that takes nothing.
#[derive(Drop)]
struct Full {
    faults: u64,
}

impl Sink for Full {
    ghost use Rattle.std.specs.Prelude.{Some, []};

    ghost written = { λ _. Some [] };

    ghost faults = { λ s. s.faults };

    fn write(&mut self, piece: &[u8]) -> Result<usize, SinkError> {
        if !piece.is_empty() {
            self.faults = self.faults.saturating_add(1);
        }
        Ok(0)
    }
}

#[test]
fn nothing_is_taken(rt: HostRuntime) -> Result<(), Fail> {
    let alloc = rt.alloc();
    let words = words_of(alloc, "fmt")?;
    let mut source = SureSource::new(Seq::from_slice(alloc, SMALLEST.as_bytes())?);
    let mut sink = Full { faults: 0 };
    let mut journals = SureJournals::new(alloc)?;
    let status = asked(
        &rt,
        alloc,
        &words,
        &mut source,
        &mut sink,
        &mut journals,
        &OpenGate,
    );
    assert_eq!(rt; status, Status::WriteFault);
    Ok(())
}
