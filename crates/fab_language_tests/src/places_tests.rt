//! Rights worked out by hand from the rules.

ghost use Rattle.std.specs.Prelude.{◌≡◌, ◌<◌, [], All, IfOk, IfSome, Some, length};
ghost use Rattle.fab_language.specs.Flows.{delegations_of};
ghost use Rattle.fab_places.specs.Places.{HasNumbers};

use fab_base::{Label, Object, Oid, Policy, Seq, Text, Value};
use fab_places::{excluding, rights, seen};
use fab_principals::Acts;
use fab_tree::resolved::{Class, Field, NamedLabel, Principal, Resolved, Sort, Use};
use fab_tree::{Name, Role};
use std::alloc::Global;
use std::test::Fail;

fn name(alloc: Global) -> Result<Name, Fail> {
    Ok(Name {
        text: Text::make(alloc, "x")?,
        at: 0,
    })
}

fn node(alloc: Global, role: Role, number: u16) -> Result<Principal, Fail>
    ensures { IfOk result (λ x. x.node ≡ Some number) }
{
    Ok(Principal {
        role,
        name: name(alloc)?,
        node: Some(number),
    })
}

fn number(number: u16) -> Use {
    Use { number, at: 0 }
}

fn policy(alloc: Global, owner: u16, other: u16) -> Result<Seq<Policy>, Fail> {
    let mut list = Seq::new(alloc);
    let others = Seq::from_slice(alloc, &[other])?;
    list.push(Policy { owner, others })?;
    Ok(list)
}

fn class(alloc: Global) -> Result<Class, Fail> {
    let mut fields = Seq::new(alloc);
    fields.push(Field {
        sort: Sort::Class(number(0)),
        name: name(alloc)?,
    })?;
    Ok(Class {
        name: name(alloc)?,
        label: number(0),
        access: number(1),
        fields,
    })
}

/// A worker and two stores.
fn nodes(alloc: Global) -> Result<Seq<Principal>, Fail>
    ensures few { IfOk result (λ xs. length xs ≡ 3) }
    ensures numbers { IfOk result (λ xs. All (λ x. IfSome x.node (λ n. n < 64)) xs) }
{
    let mut nodes = Seq::new(alloc);
    nodes.push(node(alloc, Role::Worker { hostile: false }, 0)?)?;
    nodes.push(node(alloc, Role::Store { hostile: false }, 1)?)?;
    nodes.push(node(alloc, Role::Store { hostile: false }, 2)?)?;
    Ok(nodes)
}

/// A label with a policy of the worker that names a store, and one that says nothing.
fn labels(alloc: Global) -> Result<Seq<NamedLabel>, Fail>
    ensures { IfOk result (λ xs. length xs ≡ 2) }
{
    let mut labels = Seq::new(alloc);
    labels.push(NamedLabel {
        name: name(alloc)?,
        label: Label {
            conf: policy(alloc, 0, 1)?,
            integ: policy(alloc, 0, 1)?,
        },
    })?;
    labels.push(NamedLabel {
        name: name(alloc)?,
        label: Label {
            conf: Seq::new(alloc),
            integ: Seq::new(alloc),
        },
    })?;
    Ok(labels)
}

/// These, with one class, under the first label and asked for under the second.
fn bundle(alloc: Global) -> Result<Resolved, Fail>
    ensures of { IfOk result (λ r. delegations_of r ≡ record { count = 3; pairs = [] }) }
    ensures numbers { IfOk result (λ r. HasNumbers r) }
    ensures few { IfOk result (λ r. (length r.labels ≡ 2) × (length r.classes ≡ 1)) }
{
    let mut classes = Seq::new(alloc);
    classes.push(class(alloc)?)?;
    Ok(Resolved {
        nodes: nodes(alloc)?,
        pairs: Seq::new(alloc),
        labels: labels(alloc)?,
        classes,
        methods: Seq::new(alloc),
        roots: Seq::new(alloc),
        sessions: Seq::new(alloc),
        posts: Seq::new(alloc),
        crashes: Seq::new(alloc),
        cache: 0,
        schedule: Seq::new(alloc),
    })
}

/// An object with a reference to one at this store.
fn object(alloc: Global, store: u16) -> Result<Object, Fail> {
    let oid = Oid {
        store,
        class: 0,
        worker: 0,
        boot: 1,
        number: 1,
        site: 0,
        index: 0,
    };
    Ok(Object {
        class: 0,
        fields: Seq::from_slice(alloc, &[Value::Ref(oid)])?,
    })
}

#[test]
fn a_store_that_nobody_trusts(rt: HostRuntime) -> Result<(), Fail> {
    let start = bundle(rt.alloc())?;
    let acts = Acts::close(rt.alloc(), 3, &[])?;
    let found = rights(rt.alloc(), &start, &acts)?;
    assert!(rt; found.may_write(0, 0) && found.may_hold(1, 0) && !found.may_hold(2, 0));
    assert!(rt; found.well_formed(&object(rt.alloc(), 1)?));
    assert!(rt; !found.well_formed(&object(rt.alloc(), 2)?));
    let untrusted = seen(&start, &acts, 4);
    assert!(rt; untrusted.labels == 2 && untrusted.classes == 0);
    assert!(rt; excluding(&start, &acts, 4) == 1 && excluding(&start, &acts, 6) == 0);
    Ok(())
}
