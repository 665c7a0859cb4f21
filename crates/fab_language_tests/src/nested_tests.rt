//! An account that was answered and one that is made, with a write that is undone and one that is kept.

use fab_base::{NoMemory, Object, Oid, Seq, Value};
use fab_nested::{FrameError, Frames};
use std::alloc::Global;
use std::test::Fail;

const ACCOUNT: Oid = Oid {
    store: 1,
    class: 2,
    worker: 65535,
    boot: 0,
    number: 3,
    site: 65535,
    index: 0,
};

const NEW: Oid = Oid {
    store: 1,
    class: 2,
    worker: 0,
    boot: 1,
    number: 1,
    site: 7,
    index: 0,
};

fn account(alloc: Global, value: i32) -> Result<Object, NoMemory> {
    Ok(Object {
        class: 2,
        fields: Seq::from_slice(alloc, &[Value::Int(value)])?,
    })
}

fn with_a_new_one<'a>(alloc: Global) -> Result<Frames<'a>, FrameError> {
    let answers = vec![in alloc; (ACCOUNT, 5, account(alloc, 100)?)]?;
    let mut frames = Frames::make(alloc, &answers)?;
    frames.create(NEW, account(alloc, 1)?)?;
    Ok(frames)
}

fn in_the_place_of_one<'a>(alloc: Global) -> Result<Frames<'a>, FrameError> {
    let answers = vec![in alloc; (ACCOUNT, 5, account(alloc, 100)?)]?;
    let mut frames = Frames::make(alloc, &answers)?;
    frames.enter()?;
    frames.create(ACCOUNT, account(alloc, 1)?)?;
    Ok(frames)
}

fn undone(frames: &mut Frames<'_>) -> Result<Value, FrameError> {
    frames.enter()?;
    frames.write(3, ACCOUNT, 0, Value::Int(95))?;
    frames.abort();
    frames.read(5, ACCOUNT, 0)
}

fn kept(frames: &mut Frames<'_>) -> Result<Value, FrameError> {
    frames.enter()?;
    frames.write(3, ACCOUNT, 0, Value::Int(95))?;
    frames.merge()?;
    frames.read(5, ACCOUNT, 0)
}

fn counts(frames: &Frames<'_>) -> Result<(usize, usize), FrameError> {
    let (writes, creates) = frames.changed()?;
    Ok((writes.len(), creates.len()))
}

#[test]
fn a_write_is_undone_and_one_is_kept(rt: HostRuntime) -> Result<(), Fail> {
    let mut frames = with_a_new_one(rt.alloc())?;
    assert!(rt; undone(&mut frames)? == Value::Int(100));
    assert!(rt; kept(&mut frames)? == Value::Int(95));
    assert!(rt; counts(&frames)? == (1, 1));
    Ok(())
}

#[test]
fn one_that_was_known_comes_back(rt: HostRuntime) -> Result<(), Fail> {
    let mut frames = in_the_place_of_one(rt.alloc())?;
    assert!(rt; frames.read(5, ACCOUNT, 0)? == Value::Int(1));
    frames.abort();
    assert!(rt; frames.read(5, ACCOUNT, 0)? == Value::Int(100));
    Ok(())
}
