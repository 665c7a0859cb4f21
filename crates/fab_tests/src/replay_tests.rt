//! The replay of a transfer, and its report where it can't be written whole.

use crate::tests::expect_fronts;
use fab_base::NoMemory;
use std::alloc::Global;
use std::test::Fail;

/// A worker, a store, and a transfer of 5 between accounts of 100 and 0.
pub(crate) const TRANSFER: &str =
    "principal Bank;worker w1;store s1;w1 actsfor Bank;s1 actsfor Bank;label T={Bank->;Bank<-};\
    class Account label T access T{int balance;}\
    method transfer(Account a:T,Account b:T,int n:T)begin T fails{\
    a.balance=a.balance-n;b.balance=b.balance+n;}\
    run{root a:Account@s1(100);root b:Account@s1(0);session w1{transfer(a,b,5);}schedule{";

/// Its run from the first event to the last, with the bytes that are delivered.
const EVENTS: &str = "begin w1\n\
    resume w1\n\
    deliver w1 s1 01010000000000010000000100010000ffff0000000000000000ffff0000\n\
    deliver s1 w1 01020000000000010000000100010000ffff0000000000000000ffff0000000000010000010000000064\n\
    resume w1\n\
    deliver w1 s1 01010000000000010000000100010000ffff0000000000000001ffff0000\n\
    deliver s1 w1 01020000000000010000000100010000ffff0000000000000001ffff0000000000010000010000000000\n\
    resume w1\n\
    deliver w1 s1 0104000000000001000000010000000200010000ffff0000000000000000ffff000000000001000001000000005f00010000ffff0000000000000001ffff00000000000100000100000000050000\n\
    deliver s1 w1 01050000000000010000000100\n\
    deliver w1 s1 010600000000000100000001";

/// How many there are.
pub(crate) const COUNT: u32 = 11;

/// What became of the request and of the accounts before it is decided, where its worker failed, and once
/// it is decided.
pub(crate) const OPEN: &str =
    "outcome w1 1 open\nobject s1 a Account 1 100\nobject s1 b Account 1 0\n";

pub(crate) const DOWN: &str =
    "outcome w1 1 down\nobject s1 a Account 1 100\nobject s1 b Account 1 0\n";

pub(crate) const COMMITTED: &str = "commit 1 w1 1 1.1\noutcome w1 1 committed 1.1 none\n\
    object s1 a Account 2 95\nobject s1 b Account 2 5\n";

/// The event of a line. A schedule doesn't tell the bytes that are delivered.
fn event_in(line: &str) -> &str {
    match line.split_once(" 01") {
        Some((event, _)) => event,
        None => line,
    }
}

/// The lines from one number on up to another.
pub(crate) fn lines_between(
    alloc: Global,
    from: u32,
    to: u32,
) -> Result<Vec<&'static str>, NoMemory> {
    let mut found = Vec::new(alloc);
    let mut number = 0u32;
    for line in EVENTS.lines() {
        if from <= number && number < to {
            found.push(line)?;
        }
        number = number.saturating_add(1);
    }
    Ok(found)
}

/// A schedule's events, from one number on up to another.
pub(crate) fn events_between(alloc: Global, from: u32, to: u32) -> Result<String, NoMemory> {
    let mut events = String::new(alloc);
    for line in lines_between(alloc, from, to)? {
        events.push_str(event_in(line))?;
        events.push_str(";")?;
    }
    Ok(events)
}

/// A report's lines up to this event.
pub(crate) fn report_to(alloc: Global, count: u32) -> Result<String, NoMemory> {
    let mut report = String::from_str(alloc, "fab report 1\n")?;
    let mut number = 0u32;
    for line in lines_between(alloc, 0, count)? {
        number = number.saturating_add(1);
        let event = format!(in alloc; "event {number} {line}\n")?;
        report.push_str(event.as_str())?;
    }
    Ok(report)
}

/// Where any write fails, of a byte each, what was written before is a front of the report.
#[test]
fn reports_in_part(rt: HostRuntime) -> Result<(), Fail> {
    let alloc = rt.alloc();
    let schedule = events_between(alloc, 0, 3)?;
    let text = format!(in alloc; "{TRANSFER}{schedule}}}}}")?;
    let events = report_to(alloc, 3)?;
    let report = format!(in alloc; "{events}{OPEN}end 3\n")?;
    expect_fronts(&rt, alloc, "replay", text.as_str(), report.as_str())?;
    Ok(())
}
