//! A session of one request, which ends at its second try.

use fab_net::ReqOutcome;
use fab_session::Session;
use std::test::Fail;

#[test]
fn a_request_ends_at_its_second_try(rt: HostRuntime) -> Result<(), Fail> {
    let mut session = Session::make(rt.alloc(), 3, 1, 1)?;
    assert_eq!(rt; session.next_request(), Some(1));
    assert_eq!(rt; session.begin_attempt().number, 1);
    assert!(rt; !session.try_ended());
    assert_eq!(rt; session.tries(), 1);
    assert_eq!(rt; session.begin_attempt().number, 2);
    assert!(rt; session.outcome(1).is_none());
    session.close(ReqOutcome::Failed);
    assert_eq!(rt; session.tries(), 0);
    assert_eq!(rt; session.next_request(), None);
    assert!(rt; session.outcome(1).is_some());
    assert!(rt; session.outcome(0).is_none());
    assert_eq!(rt; session.tid().number, 2);
    assert_eq!(rt; session.boot(), 1);
    assert_eq!(rt; session.outcomes().len(), 1);
    Ok(())
}
