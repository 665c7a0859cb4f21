//! Two stores, of each of which the last objects are kept.

use fab_base::{NoMemory, Object, Oid, Seq};
use fab_cache::Caches;
use std::alloc::Global;
use std::test::Fail;

fn named(store: u16, number: u32) -> Oid {
    Oid {
        store,
        class: 2,
        worker: 65535,
        boot: 0,
        number,
        site: 65535,
        index: 0,
    }
}

fn row(alloc: Global, store: u16, number: u32, version: u32) -> (Oid, u32, Object) {
    let object = Object {
        class: 2,
        fields: Seq::new(alloc),
    };
    (named(store, number), version, object)
}

fn is_at(found: Option<(u32, &Object)>, version: u32) -> bool {
    match found {
        Some((current, _)) => current == version,
        None => false,
    }
}

#[test]
fn each_store_keeps_its_last_put(rt: HostRuntime) -> Result<(), Fail> {
    let mut caches = Caches::make(rt.alloc(), 1, 2)?;
    let puts = [
        row(rt.alloc(), 0, 1, 5),
        row(rt.alloc(), 1, 2, 7),
        row(rt.alloc(), 0, 3, 6),
    ];
    let new = caches.with_puts(&puts)?;
    caches.take_new(new);
    assert!(rt; caches.peek(named(0, 1)).is_none());
    assert!(rt; is_at(caches.peek(named(0, 3)), 6));
    assert!(rt; is_at(caches.peek(named(1, 2)), 7));
    caches.clear();
    assert!(rt; caches.peek(named(1, 2)).is_none());
    Ok(())
}

/// A put into a plain list, the newest first: the last three distinct names stay.
fn put(list: &mut Vec<(Oid, u32)>, oid: Oid, version: u32) -> Result<(), NoMemory> {
    list.retain(|one| one.0 != oid);
    list.insert(0, (oid, version))?;
    list.truncate(3);
    Ok(())
}

/// The version of a name in a plain list, 0 where it isn't there.
fn version_in(list: &[(Oid, u32)], oid: Oid) -> u32 {
    for one in list {
        if one.0 == oid {
            return one.1;
        }
    }
    0
}

/// Whether of each name of a store the same is cached.
fn are_cached(caches: &Caches, list: &[(Oid, u32)], store: u16) -> bool {
    for number in 0..8u32 {
        let oid = named(store, number);
        let version = match caches.peek(oid) {
            Some((version, _)) => version,
            None => 0,
        };
        if version != version_in(list, oid) {
            return false;
        }
    }
    true
}

/// Two puts at once, of names that a number tells, into caches and into plain lists.
fn put_two(
    alloc: Global,
    caches: &mut Caches,
    lists: (&mut Vec<(Oid, u32)>, &mut Vec<(Oid, u32)>),
    told: u32,
    version: u32,
) -> Result<(), NoMemory> {
    let first = told / 65536 % 8;
    let second = told / 1024 % 8;
    let puts = [
        row(alloc, 0, first, version),
        row(alloc, 1, second, version),
    ];
    let new = caches.with_puts(&puts)?;
    caches.take_new(new);
    put(lists.0, named(0, first), version)?;
    put(lists.1, named(1, second), version)
}

#[test]
fn made_up_puts_stay_as_in_a_plain_list(rt: HostRuntime) -> Result<(), Fail> {
    let alloc = rt.alloc();
    let mut caches = Caches::make(alloc, 3, 2)?;
    let mut first = Vec::new(alloc);
    let mut second = Vec::new(alloc);
    let mut told: u32 = 7;
    for version in 1..1000u32 {
        told = told.wrapping_mul(1_664_525).wrapping_add(1_013_904_223);
        put_two(alloc, &mut caches, (&mut first, &mut second), told, version)?;
        assert!(rt; are_cached(&caches, first.as_slice(), 0));
        assert!(rt; are_cached(&caches, second.as_slice(), 1));
    }
    Ok(())
}
