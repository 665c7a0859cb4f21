//! Runs whose report can't be written whole.

use crate::run_tests::{COMMITTED, EVENTS, PREPARE, TRANSFER, words_of};
use crate::tests::asked;
use fab_base::{MemSink, Seq, SureSource};
use fab_device::SureJournals;
use fab_gates::OpenGate;
use std::test::Fail;

/// The sink's first calls fail in turn: status 3, and a front of the report is written; a sink that fails later than
/// it is called takes it whole.
#[test]
fn sinks_fail(rt: HostRuntime) -> Result<(), Fail> {
    let alloc = rt.alloc();
    let text = format!(in alloc; "{TRANSFER}}}")?;
    let whole = format!(in alloc;
        "{EVENTS}event 9 deliver w1 s1 {PREPARE}\nevent 10 deliver s1 w1 01050000000000010000000100\nevent 11 deliver w1 s1 010600000000000100000001\n{COMMITTED}end 11\n"
    )?;
    let words = words_of(alloc, "run")?;
    for call in 1..4u32 {
        let mut source = SureSource::new(Seq::from_slice(alloc, text.as_str().as_bytes())?);
        let mut fails = Seq::new(alloc);
        fails.push(call)?;
        let mut sink = MemSink::with_fails(alloc, fails)?;
        let mut journals = SureJournals::new(alloc)?;
        let status = asked(
            &rt,
            alloc,
            &words,
            &mut source,
            &mut sink,
            &mut journals,
            &OpenGate,
        );
        let Ok(written) = std::str::from_utf8(sink.bytes()) else {
            panic!(&rt; "no text at {call}");
        };
        assert!(&rt; whole.as_str().starts_with(written), "{call}");
        if status.number() == 0 {
            assert_eq!(&rt; written, whole.as_str(), "{call}");
        } else {
            assert_eq!(&rt; status.number(), 3, "{call}");
        }
    }
    Ok(())
}
