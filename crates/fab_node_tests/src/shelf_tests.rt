//! A store that prepares, commits and serves.

use fab_base::{Answer, Items, Message, NoMemory, Object, Oid, Seq, Tid};
use fab_rights::{ClassRights, Rights};
use fab_shelf::Stored;
use std::alloc::Global;
use std::test::Fail;

const ROOT: Oid = Oid {
    store: 1,
    class: 0,
    worker: 65535,
    boot: 0,
    number: 0,
    site: 65535,
    index: 0,
};

const TID: Tid = Tid {
    worker: 0,
    boot: 1,
    number: 1,
};

/// An object without fields.
fn thing(alloc: Global) -> Object {
    Object {
        class: 0,
        fields: Seq::new(alloc),
    }
}

/// Worker 0 may do all with objects of class 0, which store 1 holds.
fn rights(alloc: Global) -> Result<Rights, NoMemory> {
    let mut classes = Seq::new(alloc);
    classes.push(ClassRights {
        fetchers: 1,
        writers: 1,
        holders: 2,
        fields: Seq::new(alloc),
    })?;
    Ok(Rights::make(1, 2, classes))
}

/// The root is written.
fn items(alloc: Global) -> Result<Items, NoMemory> {
    let mut writes = Seq::new(alloc);
    writes.push((ROOT, 1, thing(alloc)))?;
    Ok(Items {
        reads: Seq::new(alloc),
        writes,
        creates: Seq::new(alloc),
    })
}

#[test]
fn a_commit_is_applied_and_served(rt: HostRuntime) -> Result<(), Fail> {
    let alloc = rt.alloc();
    let rights = rights(alloc)?;
    let mut stored = Stored::make(alloc, 1, &[])?;
    let prepare = Message::Prepare {
        tid: TID,
        items: items(alloc)?,
    };
    stored.hear(alloc, &rights, 1, 0, prepare)?;
    stored.vote(TID, Answer::Yes)?;
    assert_eq!(rt; stored.asks(alloc)?.len(), 1);
    let commit = Message::Commit { tid: TID };
    let rows = stored.applies(alloc, 0, &commit)?;
    assert_eq!(rt; rows.len(), 1);
    stored.hear(alloc, &rights, 1, 0, commit)?;
    assert_eq!(rt; stored.asks(alloc)?.len(), 0);
    stored.apply(rows)?;
    let fetch = Message::Fetch {
        tid: TID,
        oid: ROOT,
    };
    assert_eq!(rt; stored.says(alloc, &rights, 1, 0, &fetch)?.len(), 1);
    Ok(())
}
