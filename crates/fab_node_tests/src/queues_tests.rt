//! Messages among three nodes.

use fab_base::Seq;
use fab_queues::Queues;
use std::alloc::{AllocError, Global};
use std::test::Fail;

fn message(alloc: Global, bytes: &[u8]) -> Result<Seq<u8>, AllocError> {
    Seq::from_slice(alloc, bytes)
}

fn is_front(front: Option<&Seq<u8>>, bytes: &[u8]) -> bool {
    match front {
        Some(message) => message.as_slice() == bytes,
        None => false,
    }
}

#[test]
fn messages_come_in_order(rt: HostRuntime) -> Result<(), Fail> {
    let mut queues = Queues::make(rt.alloc(), 3)?;
    queues.reserve(1, 2, 2)?;
    queues.push(1, 2, message(rt.alloc(), b"one")?);
    assert!(rt; is_front(queues.front(1, 2), b"one"));
    assert!(rt; queues.front(2, 1).is_none());
    queues.drop_to(2);
    assert!(rt; queues.front(1, 2).is_none());
    assert_eq!(rt; queues.sent(1, 2).len(), 1);
    Ok(())
}
