//! A commit of two stores.

use fab_base::{Message, Oid, Seq, Tid};
use fab_commit::{Verdict, begin_prepare, resend, to_each};
use fab_protocol::{Decision, Parts};
use std::test::Fail;

const TID: Tid = Tid {
    worker: 3,
    boot: 1,
    number: 1,
};

/// The name of a root.
fn root(store: u16) -> Oid {
    Oid {
        store,
        class: 2,
        worker: 65535,
        boot: 0,
        number: 7,
        site: 65535,
        index: 0,
    }
}

#[test]
fn each_store_votes(rt: HostRuntime) -> Result<(), Fail> {
    let parts = Parts {
        value: None,
        touched: Seq::from_slice(rt.alloc(), &[(root(5), 1), (root(4), 1)])?,
        writes: Seq::new(rt.alloc()),
        creates: Seq::new(rt.alloc()),
    };
    let (mut coordinator, sends) = begin_prepare(rt.alloc(), TID, &parts)?;
    assert_eq!(rt; coordinator.tid().number, 1);
    assert_eq!(rt; coordinator.stores().len(), 2);
    assert_eq!(rt; sends.len(), 2);
    assert!(rt; coordinator.takes_part(4) && !coordinator.takes_part(6));
    assert!(rt; coordinator.vote(5, true) == Verdict::Wait);
    assert!(rt; coordinator.vote(5, true) == Verdict::Wait);
    assert!(rt; coordinator.lacks(4) && !coordinator.lacks(5));
    assert!(rt; coordinator.would_vote(4, false) == Verdict::Abort);
    assert!(rt; coordinator.vote(4, true) == Verdict::Commit);
    Ok(())
}

#[test]
fn a_decision_is_told_again(rt: HostRuntime) -> Result<(), Fail> {
    let stores = [4, 5];
    let told = to_each(rt.alloc(), &stores, &Message::Commit { tid: TID })?;
    let decision = Decision {
        tid: TID,
        request: 1,
        stores: Seq::from_slice(rt.alloc(), &stores)?,
        value: None,
    };
    let again = resend(rt.alloc(), &[decision])?;
    assert_eq!(rt; told.len(), 2);
    assert_eq!(rt; again.len(), 2);
    Ok(())
}
