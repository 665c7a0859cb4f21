//! Sessions, with numbers for names.
ghost use Rattle.std.specs.Prelude.{◌≡◌, ◌≤◌, map, length, sum_by, IfOk};
ghost use Rattle.fab_language.specs.Numbers.{asked_of, asked_from, roots_from, session_of};

use crate::declarations::node_use;
use crate::objects::arguments;
use fab_base::{NoMemory, Seq};
use fab_tables::Tables;
use fab_tree::resolved::{Asked, Request, Root as NumberedRoot, Session as NumberedSession};
use fab_tree::{RequestText, Session};
use std::alloc::Global;

/// The sessions of a bundle.
pub(crate) fn numbered_sessions(
    alloc: Global,
    tables: &Tables<'_>,
    roots: &[NumberedRoot],
    sessions: &[Session],
) -> Result<Seq<NumberedSession>, NoMemory>
    requires few { sum_by (λ x. length x.requests) sessions.now ≤ 100000 }
    requires roots { roots.now ≡ roots_from tables.now 0 tables.now.roots }
    ensures { IfOk result (λ r. r ≡ map (session_of tables.now) sessions.now) }
{
    let mut made = Seq::new(alloc);
    for session in sessions {
        let one = numbered_session(alloc, tables, roots, session)?;
        made.push(one)?;
    }
    Ok(made)
}

fn numbered_session(
    alloc: Global,
    tables: &Tables<'_>,
    roots: &[NumberedRoot],
    session: &Session,
) -> Result<NumberedSession, NoMemory>
    requires few { length session.now.requests ≤ 100000 }
    requires roots { roots.now ≡ roots_from tables.now 0 tables.now.roots }
    ensures { IfOk result (λ r. r ≡ session_of tables.now session.now) }
{
    let worker = node_use(tables, &session.worker);
    Ok(NumberedSession {
        worker,
        requests: asked(
            alloc,
            tables,
            roots,
            worker.number,
            session.requests.as_slice(),
        )?,
    })
}

/// The requests of a worker, numbered from 1.
fn asked(
    alloc: Global,
    tables: &Tables<'_>,
    roots: &[NumberedRoot],
    worker: u16,
    requests: &[RequestText],
) -> Result<Seq<Asked>, NoMemory>
    requires few { length requests.now ≤ 100000 }
    requires roots { roots.now ≡ roots_from tables.now 0 tables.now.roots }
    ensures { IfOk result (λ r. r ≡ asked_from tables.now worker 1 requests.now) }
{
    let mut made = Seq::new(alloc);
    for (index, request) in requests.iter().enumerate() {
        let one = one_asked(alloc, tables, roots, worker, index as u32 + 1, request)?;
        made.push(one)?;
    }
    Ok(made)
}

fn one_asked(
    alloc: Global,
    tables: &Tables<'_>,
    roots: &[NumberedRoot],
    worker: u16,
    number: u32,
    request: &RequestText,
) -> Result<Asked, NoMemory>
    requires { roots.now ≡ roots_from tables.now 0 tables.now.roots }
    ensures { IfOk result (λ r. r ≡ asked_of tables.now worker number request.now) }
{
    Ok(Asked {
        request: Request {
            worker,
            number,
            method: tables.method_number(&request.method),
            args: Seq::from_vec(arguments(alloc, tables, roots, request.arguments.as_slice())?),
        },
        at: request.method.at,
    })
}
