//! What a set of nodes may know of a bundle before any run.
ghost use Rattle.std.specs.Prelude.{◌≡◌, ◌++◌, IfOk, OnOk, map, slice_get};
ghost use Rattle.fab_erasure.specs.Erased.{args_shown, shown_if};
ghost use Rattle.fab_release.specs.Bundles.{public_args, public_asked, public_part, public_root, public_session};
ghost use Rattle.fab_rights.specs.Computed.{has_bit};
ghost use Rattle.fab_record.specs.Parts.{shown_to};

use fab_base::{NoMemory, Seq, Value};
use fab_places::Seen;
use fab_rights::is_in;
use fab_tree::resolved::{Asked, Local, Method, Resolved, Root, Session};
use std::alloc::Global;
use std::mem;

/// A root with its name, and with its values if its class is seen.
fn public_root(alloc: Global, seen: &Seen, root: Root) -> Root
    ensures { result ≡ public_root (has_bit seen.now.labels) (has_bit seen.now.classes) root }
{
    let mut root = root;
    root.name.at = 0;
    if !is_in(seen.classes, root.oid.class) {
        root.values = Seq::new(alloc);
    }
    root
}

/// What is given to a parameter as it is seen, and what is given to none.
fn shown_to(seen: &Seen, locals: &[Local], local: usize, value: Value) -> Value
    ensures { result ≡ shown_to (has_bit seen.now.labels) (slice_get locals.now local) value }
{
    match locals.get(local) {
        None => value,
        Some(local) => {
            if is_in(seen.labels, local.label.number) {
                value
            } else {
                Value::Null
            }
        }
    }
}

/// What is given to parameters, each as it is seen.
fn args_shown(
    alloc: Global,
    seen: &Seen,
    locals: &[Local],
    args: &[Value],
) -> Result<Seq<Value>, NoMemory>
    ensures { IfOk result (λ values. values ≡ args_shown (has_bit seen.now.labels) (has_bit seen.now.classes) locals.now args.now) }
{
    let mut values = Seq::new(alloc);
    let mut i = 0;
    while i < args.len() {
        values.push(shown_to(seen, locals, i, args[i]))?;
        i += 1;
    }
    Ok(values)
}

/// What a request's method is given as it is seen; all of it, where there is no such method.
fn public_args(
    alloc: Global,
    seen: &Seen,
    methods: &[Method],
    method: u16,
    args: Seq<Value>,
) -> Result<Seq<Value>, NoMemory>
    ensures { IfOk result (λ values. values ≡ public_args (has_bit seen.now.labels) (has_bit seen.now.classes) (slice_get methods.now method) args) }
{
    match methods.get(usize::from(method)) {
        None => Ok(args),
        Some(method) => args_shown(alloc, seen, method.locals.as_slice(), args.as_slice()),
    }
}

/// A request with what is seen of its arguments.
fn public_asked(
    alloc: Global,
    seen: &Seen,
    methods: &[Method],
    asked: Asked,
) -> Result<Asked, NoMemory>
    ensures { IfOk result (λ x. x ≡ public_asked (has_bit seen.now.labels) (has_bit seen.now.classes) methods.now asked) }
{
    let mut asked = asked;
    asked.at = 0;
    let args = mem::replace(&mut asked.request.args, Seq::new(alloc));
    asked.request.args = public_args(alloc, seen, methods, asked.request.method, args)?;
    Ok(asked)
}

/// The requests with what is seen of their arguments.
fn all_asked(
    alloc: Global,
    seen: &Seen,
    methods: &[Method],
    requests: Seq<Asked>,
) -> Result<Seq<Asked>, NoMemory>
    ensures { IfOk result (λ xs. xs ≡ map (public_asked (has_bit seen.now.labels) (has_bit seen.now.classes) methods.now) requests) }
{
    let mut shown = Seq::new(alloc);
    for asked in requests.into_vec() {
        shown.push(public_asked(alloc, seen, methods, asked)?)?;
    }
    Ok(shown)
}

/// A worker's requests with what is seen of their arguments.
fn public_session(
    alloc: Global,
    seen: &Seen,
    methods: &[Method],
    session: Session,
) -> Result<Session, NoMemory>
    ensures { IfOk result (λ x. x ≡ public_session (has_bit seen.now.labels) (has_bit seen.now.classes) methods.now session) }
{
    let mut session = session;
    session.worker.at = 0;
    let requests = mem::replace(&mut session.requests, Seq::new(alloc));
    session.requests = all_asked(alloc, seen, methods, requests)?;
    Ok(session)
}

/// The sessions with what is seen of the arguments of their requests.
fn all_sessions(
    alloc: Global,
    seen: &Seen,
    methods: &[Method],
    sessions: Seq<Session>,
) -> Result<Seq<Session>, NoMemory>
    ensures { IfOk result (λ xs. xs ≡ map (public_session (has_bit seen.now.labels) (has_bit seen.now.classes) methods.now) sessions) }
{
    let mut shown = Seq::new(alloc);
    for session in sessions.into_vec() {
        shown.push(public_session(alloc, seen, methods, session)?)?;
    }
    Ok(shown)
}

/// The roots, with the values of those whose class is seen.
fn all_roots(alloc: Global, seen: &Seen, roots: Seq<Root>) -> Result<Seq<Root>, NoMemory>
    ensures { IfOk result (λ xs. xs ≡ map (public_root (has_bit seen.now.labels) (has_bit seen.now.classes)) roots) }
{
    let mut shown = Seq::new(alloc);
    for root in roots.into_vec() {
        shown.push(public_root(alloc, seen, root))?;
    }
    Ok(shown)
}

/// The public part of a bundle: what of it may be known to nodes that see these labels and classes.
/// The program, the nodes and the delegations are kept as they are, without taking memory.
pub fn public_part(alloc: Global, start: Resolved, seen: &Seen) -> Result<Resolved, NoMemory>
    ensures exact { IfOk result (λ part. part ≡ public_part (has_bit seen.now.labels) (has_bit seen.now.classes) start) }
{
    let mut part = start;
    let roots = mem::replace(&mut part.roots, Seq::new(alloc));
    part.roots = all_roots(alloc, seen, roots)?;
    let sessions = mem::replace(&mut part.sessions, Seq::new(alloc));
    part.sessions = all_sessions(alloc, seen, part.methods.as_slice(), sessions)?;
    part.posts = Seq::new(alloc);
    part.crashes = Seq::new(alloc);
    part.schedule = Seq::new(alloc);
    Ok(part)
}
