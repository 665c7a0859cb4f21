ghost use Rattle.fab_base.specs.MessageSpelling.{KeepsCounts};

use fab_base::{Answer, Items, Object, Oid, Seq, Tid, Value, Why};
use fab_wire::*;
use std::alloc::Global;
use std::process::Abort;
use std::test::Fail;

const FIRST: Tid = Tid {
    worker: 0,
    boot: 1,
    number: 1,
};

const ACCOUNT: Oid = Oid {
    store: 1,
    class: 0,
    worker: 65_535,
    boot: 0,
    number: 0,
    site: 65_535,
    index: 0,
};

const OTHER: Oid = Oid {
    store: 5,
    class: 6,
    worker: 7,
    boot: 8,
    number: 9,
    site: 10,
    index: 11,
};

const PREPARE: &[u8] = b"\x01\x04\x00\x00\x00\x00\x00\x01\x00\x00\x00\x01\
      \x00\x01\x00\x05\x00\x06\x00\x07\x00\x00\x00\x08\x00\x00\x00\x09\x00\x0a\x00\x0b\x00\x00\x01\x02\
      \x00\x01\x00\x01\x00\x00\xff\xff\x00\x00\x00\x00\x00\x00\x00\x00\xff\xff\x00\x00\x00\x00\x00\x01\
      \x00\x00\x01\x00\x00\x00\x00\x5f\
      \x00\x01\x00\x05\x00\x06\x00\x07\x00\x00\x00\x08\x00\x00\x00\x09\x00\x0a\x00\x0b\
      \x00\x07\x03\x00\xff\xff\xff\xfe\x01\
      \x02\x00\x05\x00\x06\x00\x07\x00\x00\x00\x08\x00\x00\x00\x09\x00\x0a\x00\x0b";

/// The message is encoded to these bytes, and what they are decoded to is again.
fn travels(rt: &impl Abort, alloc: Global, message: &Message, bytes: &[u8]) -> Result<(), Fail>
    requires { KeepsCounts message.now }
{
    assert_eq!(rt; encode(alloc, message)?.as_slice(), bytes);
    let read = decode(alloc, bytes)?;
    assert_eq!(rt; encode(alloc, &read)?.as_slice(), bytes);
    Ok(())
}

// The messages of a transfer of 5 from an account with 100.

#[test]
fn a_fetch(rt: HostRuntime) -> Result<(), Fail> {
    let fetch = Message::Fetch {
        tid: FIRST,
        oid: ACCOUNT,
    };
    let bytes = b"\x01\x01\x00\x00\x00\x00\x00\x01\x00\x00\x00\x01\
      \x00\x01\x00\x00\xff\xff\x00\x00\x00\x00\x00\x00\x00\x00\xff\xff\x00\x00";
    travels(&rt, rt.alloc(), &fetch, bytes)
}

#[test]
fn an_object(rt: HostRuntime) -> Result<(), Fail> {
    let fields = Seq::from_slice(rt.alloc(), &[Value::Int(100)])?;
    let object = Message::Object {
        tid: FIRST,
        oid: ACCOUNT,
        version: 1,
        object: Object { class: 0, fields },
    };
    let bytes = b"\x01\x02\x00\x00\x00\x00\x00\x01\x00\x00\x00\x01\
      \x00\x01\x00\x00\xff\xff\x00\x00\x00\x00\x00\x00\x00\x00\xff\xff\x00\x00\
      \x00\x00\x00\x01\x00\x00\x01\x00\x00\x00\x00\x64";
    travels(&rt, rt.alloc(), &object, bytes)
}

/// A read, a write, and a create of an object with each kind of value.
#[test]
fn a_prepare(rt: HostRuntime) -> Result<(), Fail> {
    let alloc = rt.alloc();
    let mut writes = Seq::new(alloc);
    let fields = Seq::from_slice(alloc, &[Value::Int(95)])?;
    writes.push((ACCOUNT, 1, Object { class: 0, fields }))?;
    let mut creates = Seq::new(alloc);
    let fields = Seq::from_slice(alloc, &[Value::Int(-2), Value::Null, Value::Ref(OTHER)])?;
    creates.push((OTHER, Object { class: 7, fields }))?;
    let items = Items {
        reads: Seq::from_slice(alloc, &[(OTHER, 258)])?,
        writes,
        creates,
    };
    travels(&rt, alloc, &Message::Prepare { tid: FIRST, items }, PREPARE)
}

#[test]
fn a_vote_and_a_commit(rt: HostRuntime) -> Result<(), Fail> {
    let vote = Message::Vote {
        tid: FIRST,
        answer: Answer::Yes,
    };
    travels(
        &rt,
        rt.alloc(),
        &vote,
        b"\x01\x05\x00\x00\x00\x00\x00\x01\x00\x00\x00\x01\x00",
    )?;
    let commit = Message::Commit { tid: FIRST };
    travels(
        &rt,
        rt.alloc(),
        &commit,
        b"\x01\x06\x00\x00\x00\x00\x00\x01\x00\x00\x00\x01",
    )
}

// The other kinds.

#[test]
fn a_denial(rt: HostRuntime) -> Result<(), Fail> {
    let deny = Message::Deny {
        tid: FIRST,
        oid: OTHER,
        why: Why::Rights,
    };
    let bytes = b"\x01\x03\x00\x00\x00\x00\x00\x01\x00\x00\x00\x01\
      \x00\x05\x00\x06\x00\x07\x00\x00\x00\x08\x00\x00\x00\x09\x00\x0a\x00\x0b\
      \x02";
    travels(&rt, rt.alloc(), &deny, bytes)
}

#[test]
fn a_stale_read(rt: HostRuntime) -> Result<(), Fail> {
    let vote = Message::Vote {
        tid: FIRST,
        answer: Answer::Stale(OTHER, 65_536),
    };
    let bytes = b"\x01\x05\x00\x00\x00\x00\x00\x01\x00\x00\x00\x01\x01\
      \x00\x05\x00\x06\x00\x07\x00\x00\x00\x08\x00\x00\x00\x09\x00\x0a\x00\x0b\
      \x00\x01\x00\x00";
    travels(&rt, rt.alloc(), &vote, bytes)
}

#[test]
fn an_abort_a_boot_and_an_inquiry(rt: HostRuntime) -> Result<(), Fail> {
    let abort = Message::Abort { tid: FIRST };
    travels(
        &rt,
        rt.alloc(),
        &abort,
        b"\x01\x07\x00\x00\x00\x00\x00\x01\x00\x00\x00\x01",
    )?;
    let boot = Message::Boot { boot: 0xfedc_ba98 };
    travels(&rt, rt.alloc(), &boot, b"\x01\x08\xfe\xdc\xba\x98")?;
    let inquire = Message::Inquire { tid: FIRST };
    travels(
        &rt,
        rt.alloc(),
        &inquire,
        b"\x01\x09\x00\x00\x00\x00\x00\x01\x00\x00\x00\x01",
    )
}

/// Where the bytes go wrong, if they do.
fn place(alloc: Global, bytes: &[u8]) -> Result<Option<u32>, DecodeError> {
    match decode(alloc, bytes) {
        Err(DecodeError::Bad { at }) => Ok(Some(at)),
        Err(DecodeError::Memory) => Err(DecodeError::Memory),
        Ok(_) => Ok(None),
    }
}

#[test]
fn wrong_bytes(rt: HostRuntime) -> Result<(), Fail> {
    assert_eq!(rt; place(rt.alloc(), b"\x02\x08\x00\x00\x00\x01")?, Some(0));
    assert_eq!(rt; place(rt.alloc(), b"\x01\x0a\x00\x00\x00\x01")?, Some(1));
    assert_eq!(rt; place(rt.alloc(), b"\x01\x08\x00\x00\x00")?, Some(5));
    assert_eq!(rt;
        place(rt.alloc(), b"\x01\x08\x00\x00\x00\x01\x00")?,
        Some(6)
    );
    // A count of 1,025 reads.
    let many = b"\x01\x04\x00\x00\x00\x00\x00\x01\x00\x00\x00\x01\x04\x01";
    assert_eq!(rt; place(rt.alloc(), many)?, Some(13));
    Ok(())
}

/// A place is told.
#[test]
fn errors_as_they_are_shown(rt: HostRuntime) -> Result<(), Fail> {
    let bad = format!(in rt.alloc(); "{}", DecodeError::Bad { at: 131_072 })?;
    assert_eq!(rt; bad.as_str(), "no message: wrong at byte 131072");
    let memory = format!(in rt.alloc(); "{}", DecodeError::Memory)?;
    assert_eq!(rt; memory.as_str(), "out of memory");
    Ok(())
}
