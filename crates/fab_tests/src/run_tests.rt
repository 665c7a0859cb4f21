//! Runs and their reports.

use crate::tests::asked;
use fab_base::{NoMemory, Seq, SureSink, SureSource};
use fab_device::SureJournals;
use fab_gates::{Gate, OpenGate};
use std::alloc::Global;
use std::process::Abort;
use std::sync::Wait;
use std::test::Fail;
use std::thread::Threads;

/// Two accounts, and a worker that moves 5 from one to the other. Further lines of the run may follow, and then
/// its last bracket.
pub(crate) const TRANSFER: &str =
    "principal Bank;worker w1;store s1;w1 actsfor Bank;s1 actsfor Bank;label T={Bank ->;Bank <-};\
class Account label T access T{int balance;}\
method transfer(Account a:T,Account b:T,int n:T)begin T fails{a.balance=a.balance-n;b.balance=b.balance+n;}\
run{root a:Account@s1(100);root b:Account@s1(0);session w1{transfer(a,b,5);}";

/// The events of its run: fetches, a vote, and the decision.
pub(crate) const EVENTS: &str = "\
fab report 1
event 1 begin w1
event 2 resume w1
event 3 deliver w1 s1 01010000000000010000000100010000ffff0000000000000000ffff0000
event 4 deliver s1 w1 01020000000000010000000100010000ffff0000000000000000ffff0000000000010000010000000064
event 5 resume w1
event 6 deliver w1 s1 01010000000000010000000100010000ffff0000000000000001ffff0000
event 7 deliver s1 w1 01020000000000010000000100010000ffff0000000000000001ffff0000000000010000010000000000
event 8 resume w1
";

/// The bytes of the request to prepare it.
pub(crate) const PREPARE: &str =
    "0104000000000001000000010000000200010000ffff0000000000000000ffff000000000001000001000000005f00010000ffff0000000000000001ffff00000000000100000100000000050000";

/// What the worker and the store end with, where it is committed.
pub(crate) const COMMITTED: &str = "\
commit 1 w1 1 1.1
outcome w1 1 committed 1.1 none
object s1 a Account 2 95
object s1 b Account 2 5
";

/// The words of a command line.
pub(crate) fn words_of(alloc: Global, words: &str) -> Result<Vec<String>, NoMemory> {
    let mut list = Vec::new(alloc);
    for word in words.split(' ') {
        list.push(String::from_str(alloc, word)?)?;
    }
    Ok(list)
}

/// The status and the report of a run, with this gate around evaluations.
pub(crate) fn report_with<R: Abort + Threads + Wait + Sync, G: Gate + Sync>(
    rt: &R,
    alloc: Global,
    text: &str,
    gate: &G,
) -> Result<(u8, String), NoMemory> {
    replied_with(rt, alloc, "run", text, gate)
}

/// The status and the text that these words give, with this gate around evaluations.
pub(crate) fn replied_with<R: Abort + Threads + Wait + Sync, G: Gate + Sync>(
    rt: &R,
    alloc: Global,
    words: &str,
    text: &str,
    gate: &G,
) -> Result<(u8, String), NoMemory> {
    let words = words_of(alloc, words)?;
    let mut source = SureSource::new(Seq::from_slice(alloc, text.as_bytes())?);
    let mut sink = SureSink::new(alloc)?;
    let mut journals = SureJournals::new(alloc)?;
    let status = asked(
        rt,
        alloc,
        &words,
        &mut source,
        &mut sink,
        &mut journals,
        gate,
    );
    let Ok(written) = std::str::from_utf8(sink.bytes()) else {
        panic!(rt; "no text of {text}");
    };
    Ok((status.number(), String::from_str(alloc, written)?))
}

/// The one order that two nodes can take for one request.
#[test]
fn transfer_is_run(rt: HostRuntime) -> Result<(), Fail> {
    let alloc = rt.alloc();
    let text = format!(in alloc; "{TRANSFER}}}")?;
    let (status, report) = report_with(&rt, alloc, text.as_str(), &OpenGate)?;
    let wanted = format!(in alloc;
        "{EVENTS}event 9 deliver w1 s1 {PREPARE}\nevent 10 deliver s1 w1 01050000000000010000000100\nevent 11 deliver w1 s1 010600000000000100000001\n{COMMITTED}end 11\n"
    )?;
    assert_eq!(&rt; status, 0);
    assert_eq!(&rt; report.as_str(), wanted.as_str());
    Ok(())
}

/// A store that crashes behind its first two events comes back, and the run goes on to its end.
#[test]
fn crash_line_is_kept(rt: HostRuntime) -> Result<(), Fail> {
    let alloc = rt.alloc();
    let text = format!(in alloc; "{TRANSFER}crash s1 after 2;}}")?;
    let (status, report) = report_with(&rt, alloc, text.as_str(), &OpenGate)?;
    assert_eq!(&rt; status, 0);
    assert!(&rt; report.as_str().contains("crash s1\n"), "{report}");
    assert!(&rt; report.as_str().contains("recover s1\n"), "{report}");
    Ok(())
}
