use fab_base::Seq;
use fab_net::Denial;
use fab_reports::*;
use std::alloc::Global;
use std::test::Fail;

const TRANSFER: &[u8] = b"fab report 1\n\
      event 1 begin w1\n\
      event 2 resume w1\n\
      event 3 deliver w1 s1 01010000000000010000000100010000ffff0000000000000000ffff0000\n\
      event 4 deliver s1 w1 01020000000000010000000100010000ffff0000000000000000ffff0000000000010000010000000064\n\
      event 5 resume w1\n\
      event 6 deliver w1 s1 01010000000000010000000100010000ffff0000000000000001ffff0000\n\
      event 7 deliver s1 w1 01020000000000010000000100010000ffff0000000000000001ffff0000000000010000010000000000\n\
      event 8 resume w1\n\
      event 9 deliver w1 s1 0104000000000001000000010000000200010000ffff0000000000000000ffff000000000001000001000000005f00010000ffff0000000000000001ffff00000000000100000100000000050000\n\
      event 10 deliver s1 w1 01050000000000010000000100\n\
      event 11 deliver w1 s1 010600000000000100000001\n\
      commit 1 w1 1 1.1\n\
      outcome w1 1 committed 1.1 none\n\
      object s1 a Account 2 95\n\
      object s1 b Account 2 5\n\
      end 11\n";

/// The lines of bytes that are few.
fn read(alloc: Global, bytes: &[u8]) -> Result<Seq<Line>, TraceError> {
    if bytes.len() >= 4_294_967_295 {
        return Err(TraceError::Bad { at: 0 });
    }
    read_events(alloc, bytes)
}

/// Where the bytes go wrong, if they do.
fn place_of(alloc: Global, bytes: &[u8]) -> Result<Option<u32>, TraceError> {
    match read(alloc, bytes) {
        Err(TraceError::Bad { at }) => Ok(Some(at)),
        Err(TraceError::Memory) => Err(TraceError::Memory),
        Ok(_) => Ok(None),
    }
}

/// How many bytes are delivered by the lines of such events, and how many such lines there are.
fn delivered(lines: &[Line]) -> (usize, usize) {
    let mut events = 0usize;
    let mut bytes = 0usize;
    for line in lines {
        if let Line::Event { event, .. } = line {
            events = events.saturating_add(1);
            if let ShownEvent::Inner(ShownInner::Deliver { bytes: few, .. }) = event {
                bytes = bytes.saturating_add(few.len());
            }
        }
    }
    (events, bytes)
}

fn committed_once(line: &Line) -> bool {
    let Line::Commit { number: 1, commit } = line else {
        return false;
    };
    commit.worker.as_str() == "w1" && commit.request == 1 && commit.attempt.number == 1
}

fn holds_five(line: &Line) -> bool {
    let Line::Object(object) = line else {
        return false;
    };
    let [ShownValue::Number(5)] = object.fields.as_slice() else {
        return false;
    };
    let ShownName::Root(name) = &object.name else {
        return false;
    };
    name.as_str() == "b" && object.class.as_str() == "Account" && object.version == 2
}

#[test]
fn a_transfer(rt: HostRuntime) -> Result<(), Fail> {
    let lines = read(rt.alloc(), TRANSFER)?;
    assert_eq!(rt; delivered(lines.as_slice()), (11, 247));
    let [
        Line::Head,
        ..,
        commit,
        _outcome,
        _other,
        object,
        Line::End { events: 11 },
    ] = lines.as_slice()
    else {
        return Err(Fail::new("other lines"));
    };
    assert!(rt; committed_once(commit));
    assert!(rt; holds_five(object));
    Ok(())
}

/// Cut anywhere, a report goes wrong at its length.
#[test]
fn cut_reports(rt: HostRuntime) -> Result<(), Fail> {
    for at in 0..TRANSFER.len() {
        let place = place_of(rt.alloc(), &TRANSFER[..at])?;
        assert!(rt; place.is_some_and(|place| place as usize == at));
    }
    Ok(())
}

#[test]
fn other_bytes(rt: HostRuntime) -> Result<(), Fail> {
    let alloc = rt.alloc();
    assert_eq!(rt; place_of(alloc, b"fab report 2\nend 0\n")?, Some(11));
    assert_eq!(rt;
        place_of(alloc, b"fab report 1\nevent 2 begin w\n")?,
        Some(19)
    );
    assert_eq!(rt;
        place_of(alloc, b"fab report 1\nevent 1 begin 1\n")?,
        Some(27)
    );
    assert_eq!(rt;
        place_of(alloc, b"fab report 1\nevent 1 crushed w\n")?,
        Some(23)
    );
    assert_eq!(rt; place_of(alloc, b"fab report 1\nend 0\nend 0\n")?, Some(19));
    Ok(())
}

#[test]
fn other_numbers(rt: HostRuntime) -> Result<(), Fail> {
    let alloc = rt.alloc();
    assert_eq!(rt; place_of(alloc, b"fab report 1\nend 1\n")?, Some(17));
    assert_eq!(rt;
        place_of(alloc, b"fab report 1\noutcome w 0 open\n")?,
        Some(23)
    );
    assert_eq!(rt;
        place_of(alloc, b"fab report 1\ncommit 1 w 1 01.1\n")?,
        Some(27)
    );
    assert_eq!(rt;
        place_of(alloc, b"fab report 1\noutcome w 4294967296 open\n")?,
        Some(32)
    );
    assert_eq!(rt;
        place_of(alloc, b"fab report 1\nobject s a C 1 -0\nend 0\n")?,
        Some(29)
    );
    assert_eq!(rt;
        place_of(alloc, b"fab report 1\nevent 1 post h s 0F\n")?,
        Some(31)
    );
    assert_eq!(rt;
        place_of(alloc, b"fab report 1\nevent 1 post h s 0\n")?,
        Some(31)
    );
    Ok(())
}

fn is_one(line: &Line) -> bool {
    let Line::Outcome(outcome) = line else {
        return false;
    };
    matches!(&outcome.ending, ShownEnding::Denied { node, denial: Denial::Rights } if node.as_str() == "h")
}

#[test]
fn each_ending(rt: HostRuntime) -> Result<(), Fail> {
    let text = b"fab report 1\n\
      outcome w 1 committed 4.5 -2147483648\n\
      outcome w 2 failed\n\
      outcome w 3 conflict\n\
      outcome w 4 silent s\n\
      outcome w 5 denied h rights\n\
      outcome w 6 denied h illformed\n\
      outcome w 7 stopped writes\n\
      outcome w 8 down\n\
      outcome w 9 open\n\
      end 0\n";
    let lines = read(rt.alloc(), text)?;
    assert_eq!(rt; lines.len(), 11);
    assert_eq!(rt;
        lines.as_slice().iter().filter(|line| is_one(line)).count(),
        1
    );
    Ok(())
}

#[test]
fn each_value(rt: HostRuntime) -> Result<(), Fail> {
    let text = b"fab report 1\n\
      object s #0001000200030000000400000005000600ff C 7 0 null a -1 #ffffffffffffffffffffffffffffffffffff\n\
      end 0\n";
    let lines = read(rt.alloc(), text)?;
    let [_, Line::Object(object), _] = lines.as_slice() else {
        return Err(Fail::new("other lines"));
    };
    let ShownName::Unnamed(oid) = &object.name else {
        return Err(Fail::new("another name"));
    };
    assert_eq!(rt; oid.boot, 4);
    assert_eq!(rt; oid.index, 255);
    assert_eq!(rt; object.fields.len(), 5);
    Ok(())
}

/// A place is told.
#[test]
fn errors_as_they_are_shown(rt: HostRuntime) -> Result<(), Fail> {
    let bad = format!(in rt.alloc(); "{}", TraceError::Bad { at: 12 })?;
    assert_eq!(rt; bad.as_str(), "no report: wrong at byte 12");
    let memory = format!(in rt.alloc(); "{}", TraceError::Memory)?;
    assert_eq!(rt; memory.as_str(), "out of memory");
    Ok(())
}
