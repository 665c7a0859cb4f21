//! A transaction that reads an object, and made-up calls beside a plain list.

use fab_base::{Items, NoMemory, Object, Oid, Seq, Tid};
use fab_locks::Locks;
use std::alloc::Global;
use std::test::Fail;

const ROOT: Oid = Oid {
    store: 1,
    class: 2,
    worker: 65535,
    boot: 0,
    number: 7,
    site: 65535,
    index: 0,
};

const READER: Tid = Tid {
    worker: 3,
    boot: 1,
    number: 1,
};

fn reading(alloc: Global, oid: Oid) -> Result<Items, NoMemory> {
    Ok(Items {
        reads: Seq::from_slice(alloc, &[(oid, 1)])?,
        writes: Seq::new(alloc),
        creates: Seq::new(alloc),
    })
}

#[test]
fn a_reader_bars_a_writer_alone(rt: HostRuntime) -> Result<(), Fail> {
    let mut locks = Locks::new(rt.alloc());
    locks.reserve()?;
    locks.hold(READER, reading(rt.alloc(), ROOT)?)?;
    assert!(rt; locks.conflict(ROOT, false).is_none());
    assert!(rt; locks.conflict(ROOT, true).is_some());
    locks.free_all(4);
    assert!(rt; locks.is_held(READER));
    assert!(rt; locks.free(READER).is_some());
    assert_eq!(rt; locks.held().count(), 0);
    Ok(())
}

// ---- made-up calls beside a list that is walked for each answer

/// The next of some made-up numbers.
fn next(state: &mut u64) -> u64 {
    *state = state
        .wrapping_mul(6_364_136_223_846_793_005)
        .wrapping_add(1_442_695_040_888_963_407);
    *state >> 40
}

fn tid_of(number: u64) -> Tid {
    Tid {
        worker: (number % 3) as u16,
        boot: 1,
        number: (number / 3 % 200) as u32,
    }
}

fn oid_of(number: u64) -> Oid {
    Oid {
        store: 1,
        class: 2,
        worker: 65535,
        boot: 0,
        number: (number % 4) as u32,
        site: 65535,
        index: 0,
    }
}

/// Items that read one object, and maybe write or make one.
fn made_up(alloc: Global, number: u64) -> Result<Items, NoMemory> {
    let mut items = reading(alloc, oid_of(number))?;
    let object = Object {
        class: 2,
        fields: Seq::new(alloc),
    };
    // A few have as many items as a list of few may have.
    if number / 4 % 64 == 3 {
        for _ in 0..300u32 {
            items.reads.push((oid_of(number), 1))?;
        }
    }
    if number / 4 % 3 == 1 {
        items.writes.push((oid_of(number / 16), 1, object))?;
    } else if number / 4 % 3 == 2 {
        items.creates.push((oid_of(number / 16), object))?;
    }
    Ok(items)
}

fn changes(items: &Items, oid: Oid) -> bool {
    items.writes.as_slice().iter().any(|write| write.0 == oid)
        || items
            .creates
            .as_slice()
            .iter()
            .any(|create| create.0 == oid)
}

fn names(items: &Items, oid: Oid) -> bool {
    items.reads.as_slice().iter().any(|read| read.0 == oid) || changes(items, oid)
}

/// The first of the list that bars a name.
fn first_of(list: &[(Tid, Items)], oid: Oid, writing: bool) -> Option<Tid> {
    for one in list {
        if changes(&one.1, oid) || writing && names(&one.1, oid) {
            return Some(one.0);
        }
    }
    None
}

/// Whether the same is held, in the same order.
fn are_held(locks: &Locks, list: &[(Tid, Items)]) -> bool {
    let mut held = locks.held();
    for one in list {
        match held.next() {
            Some(other) if other.0 == one.0 => {}
            _ => return false,
        }
    }
    held.next().is_none()
}

/// Whether the same bars each name.
fn bar_the_same(locks: &Locks, list: &[(Tid, Items)]) -> bool {
    for number in 0..4u64 {
        let oid = oid_of(number);
        if locks.conflict(oid, false) != first_of(list, oid, false)
            || locks.conflict(oid, true) != first_of(list, oid, true)
        {
            return false;
        }
    }
    true
}

/// One call of both.
fn call(
    alloc: Global,
    locks: &mut Locks,
    list: &mut Vec<(Tid, Items)>,
    number: u64,
) -> Result<(), NoMemory> {
    let tid = tid_of(number / 16);
    if number % 16 == 15 {
        locks.settle(number % 32 == 15);
    } else if number % 256 == 0 {
        locks.free_all(tid.worker);
        list.retain(|one| one.0.worker != tid.worker);
    } else if number % 16 < 5 {
        let _ = locks.free(tid);
        list.retain(|one| one.0 != tid);
    } else if !locks.is_held(tid) {
        locks.reserve()?;
        locks.hold(tid, made_up(alloc, number / 1024)?)?;
        list.push((tid, made_up(alloc, number / 1024)?))?;
    }
    Ok(())
}

#[test]
fn made_up_calls_answer_as_a_plain_list_does(rt: HostRuntime) -> Result<(), Fail> {
    let alloc = rt.alloc();
    let mut locks = Locks::new(alloc);
    let mut list = Vec::new(alloc);
    let mut state = 7;
    for _ in 0..900u32 {
        let number = next(&mut state);
        call(alloc, &mut locks, &mut list, number)?;
        assert!(rt; are_held(&locks, list.as_slice()));
        assert!(rt; bar_the_same(&locks, list.as_slice()));
        assert_eq!(rt; locks.is_held(READER), false);
    }
    Ok(())
}
