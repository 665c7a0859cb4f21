//! Requests one after the other.
ghost use Rattle.std.specs.Prelude.{◌≡◌, ◌++◌, IfOk, OnOk, flat_map, map};
ghost use Rattle.fab_base.specs.FlatMap.{put_all};
ghost use Rattle.fab_language.specs.Evaluation.{asked_at, in_turn, requests_of};
ghost use Rattle.fab_evaluation.specs.Asking.{asked};

use crate::single::{Single, run_one};
use fab_base::{NoMemory, Object, Oid, Seq};
use fab_language::Ending;
use fab_map::ObjectMap;
use fab_tree::resolved::{Asked, Request, Resolved, Session};
use std::alloc::Global;
use std::sync::Arc;

/// How requests ended, in their order, and the map behind the last of them.
#[derive(Drop)]
pub(crate) struct Ran {
    pub(crate) endings: Seq<Ending>,
    pub(crate) map: ObjectMap,
}

/// Runs requests one after the other over a map, each over what those before it left.
pub(crate) fn run(
    alloc: Global,
    program: &Arc<Resolved>,
    objects: ObjectMap,
    requests: &[&Request],
) -> Result<Ran, NoMemory>
    ensures endings { IfOk result (λ r. r.endings ≡ (in_turn program.now.value objects (asked requests.now)).endings) }
    ensures map { IfOk result (λ r. r.map ≡ (in_turn program.now.value objects (asked requests.now)).map) }
{
    let mut map = objects;
    let mut endings = Seq::new(alloc);
    for request in requests {
        let Single { ending, changed } = run_one(alloc, program, &map, *request)?;
        put_changed(&mut map, changed)?;
        endings.push(ending)?;
    }
    Ok(Ran { endings, map })
}

/// Puts what a request changed into the map.
fn put_changed(map: &mut ObjectMap, changed: Seq<(Oid, Object)>) -> Result<(), NoMemory>
    ensures { OnOk result (map.new ≡ put_all changed map.old) }
{
    'changed: for (oid, object) in changed.into_vec() {
        map.put(oid, object)?;
    }
    Ok(())
}

/// The requests of all sessions, in the order of their workers' numbers. None is copied.
pub(crate) fn in_order<'a>(alloc: Global, start: &'a Resolved) -> Result<Seq<&'a Request>, NoMemory>
    ensures { IfOk result (λ requests. asked requests ≡ requests_of start.now) }
{
    let mut requests = Seq::new(alloc);
    let mut rest = start.nodes.as_slice();
    'nodes: while let Some((principal, after)) = rest.split_first() {
        if let Some(node) = principal.node {
            add_sessions(&mut requests, start.sessions.as_slice(), node)?;
        }
        rest = after;
    }
    Ok(requests)
}

/// The requests of this node at the end of others.
fn add_sessions<'a>(
    requests: &mut Seq<&'a Request>,
    sessions: &'a [Session],
    node: u16,
) -> Result<(), NoMemory>
    ensures { OnOk result (asked requests.new ≡ asked requests.old ++ flat_map (asked_at node) sessions.now) }
{
    let mut rest = sessions;
    'sessions: while let Some((session, after)) = rest.split_first() {
        add_session(requests, session, node)?;
        rest = after;
    }
    Ok(())
}

/// The requests of a session at the end of others, if it is this node's.
fn add_session<'a>(
    requests: &mut Seq<&'a Request>,
    session: &'a Session,
    node: u16,
) -> Result<(), NoMemory>
    ensures { OnOk result (asked requests.new ≡ asked requests.old ++ asked_at node session.now) }
{
    if session.worker.number == node {
        add_all(requests, session.requests.as_slice())?;
    }
    Ok(())
}

/// These requests at the end of others.
#[tactic(auto, using(crate::proofs::Asking::asked_push))]
fn add_all<'a>(requests: &mut Seq<&'a Request>, more: &'a [Asked]) -> Result<(), NoMemory>
    ensures { OnOk result (asked requests.new ≡ asked requests.old ++ map (λ a. a.request) more.now) }
{
    let mut rest = more;
    'more: while let Some((one, after)) = rest.split_first() {
        requests.push(&one.request)?;
        rest = after;
    }
    Ok(())
}
