//! Two workers that evaluate at once.

use crate::run_tests::report_with;
use fab_gates::{HoldGate, MeetGate};
use std::test::Fail;

/// Two workers, each with a counter of its own.
const COUNTERS: &str =
    "principal Bank;worker w1;worker w2;store s1;w1 actsfor Bank;w2 actsfor Bank;s1 actsfor Bank;label T={Bank ->;Bank <-};\
class Counter label T access T{int n;}method inc(Counter c:T)begin T fails{c.n=c.n+1;}\
run{root c:Counter@s1(10);root d:Counter@s1(10);session w1{inc(c);}session w2{inc(d);}}";

/// What the run of both ends with, but for which committed first.
const BOTH: &str = "\
outcome w1 1 committed 1.1 none
outcome w2 1 committed 1.1 none
object s1 c Counter 2 11
object s1 d Counter 2 11
end ";

/// Each worker's first evaluation waits for the other's, so they are under way at once: a run on one thread, or one
/// with the lock held around an evaluation, gives up.
#[test]
fn evaluations_meet(rt: HostRuntime) -> Result<(), Fail> {
    let alloc = rt.alloc();
    let gate = MeetGate::make(0, 1);
    let (status, report) = report_with(&rt, alloc, COUNTERS, &gate)?;
    assert_eq!(&rt; status, 0);
    assert!(&rt; report.as_str().contains(BOTH), "{report}");
    assert!(&rt; !gate.gave_up());
    Ok(())
}

/// The first worker's first evaluation begins when the second's has ended.
#[test]
fn evaluation_is_held(rt: HostRuntime) -> Result<(), Fail> {
    let alloc = rt.alloc();
    let gate = HoldGate::make(0, 1);
    let (status, report) = report_with(&rt, alloc, COUNTERS, &gate)?;
    assert_eq!(&rt; status, 0);
    assert!(&rt; report.as_str().contains(BOTH), "{report}");
    assert!(&rt; !gate.gave_up());
    Ok(())
}
