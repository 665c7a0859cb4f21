//! Names that aren't declared, in the run part.
ghost use Rattle.std.specs.Prelude.{◌≡◌, fold};
ghost use Rattle.fab_language.specs.Unknown.{in_crash, in_event, in_given, in_literal, in_post, in_request, in_root, in_session, in_step};
ghost use Rattle.fab_rules.specs.First.{first_from};

use super::{if_found, in_class_name, in_method_name, in_principal};
use fab_language::Fault;
use fab_tables::Tables;
use fab_tree::{CrashLine, Event, Given, Literal, PostLine, RequestText, Root, Session, Step};

/// The class and the store of a root, and the roots among its values.
#[tactic(auto, using(fab_rules::proofs::Firsts::in_parts, crate::proofs::Parts::in_each))]
pub fn in_root(tables: &Tables<'_>, first: Option<Fault>, root: &Root) -> Option<Fault>
    ensures { result ≡ first_from first (in_root tables.now root.now) }
{
    let first = in_class_name(tables, first, &root.class);
    let first = in_principal(tables, first, &root.store);
    in_all_given(tables, first, root.values.as_slice())
}

/// Values.
fn in_all_given(tables: &Tables<'_>, first: Option<Fault>, values: &[Given]) -> Option<Fault>
    ensures { result ≡ fold (λ a x. first_from a (in_given tables.now x)) first values.now }
{
    values.iter().fold(
        first,
        |first, value| in_literal(tables, first, &value.literal),
    )
}

/// A value.
fn in_literal(tables: &Tables<'_>, first: Option<Fault>, literal: &Literal) -> Option<Fault>
    ensures { result ≡ first_from first (in_literal tables.now literal.now) }
{
    match literal {
        Literal::Number(_) | Literal::Null => first,
        Literal::Root(name) => if_found(first, tables.root(name), name),
    }
}

/// The worker of a session, and its requests.
#[tactic(auto, using(fab_rules::proofs::Firsts::in_parts, crate::proofs::Parts::in_each))]
pub fn in_session(tables: &Tables<'_>, first: Option<Fault>, session: &Session) -> Option<Fault>
    ensures { result ≡ first_from first (in_session tables.now session.now) }
{
    let first = in_principal(tables, first, &session.worker);
    in_requests(tables, first, session.requests.as_slice())
}

/// Requests.
fn in_requests(tables: &Tables<'_>, first: Option<Fault>, requests: &[RequestText]) -> Option<Fault>
    ensures { result ≡ fold (λ a x. first_from a (in_request tables.now x)) first requests.now }
{
    requests
        .iter()
        .fold(first, |first, request| in_request(tables, first, request))
}

/// The method of a request, and the roots among its arguments.
#[tactic(auto, using(fab_rules::proofs::Firsts::in_parts, crate::proofs::Parts::in_each))]
fn in_request(tables: &Tables<'_>, first: Option<Fault>, request: &RequestText) -> Option<Fault>
    ensures { result ≡ first_from first (in_request tables.now request.now) }
{
    let first = in_method_name(tables, first, &request.method);
    in_all_given(tables, first, request.arguments.as_slice())
}

/// Who posts, and to whom.
#[tactic(auto, using(fab_rules::proofs::Firsts::in_parts))]
pub fn in_post(tables: &Tables<'_>, first: Option<Fault>, post: &PostLine) -> Option<Fault>
    ensures { result ≡ first_from first (in_post tables.now post.now) }
{
    let first = in_principal(tables, first, &post.sender);
    in_principal(tables, first, &post.receiver)
}

/// What crashes.
pub fn in_crash(tables: &Tables<'_>, first: Option<Fault>, crash: &CrashLine) -> Option<Fault>
    ensures { result ≡ first_from first (in_crash tables.now crash.now) }
{
    in_principal(tables, first, &crash.node)
}

/// An event of the schedule.
pub fn in_event(tables: &Tables<'_>, first: Option<Fault>, event: &Event) -> Option<Fault>
    ensures { result ≡ first_from first (in_event tables.now event.now) }
{
    match event {
        Event::Step(step) | Event::CrashIn { step, .. } => in_step(tables, first, step),
        Event::Post(name) | Event::Crash(name) => in_principal(tables, first, name),
    }
}

/// A step of a node.
#[tactic(auto, using(fab_rules::proofs::Firsts::in_parts))]
fn in_step(tables: &Tables<'_>, first: Option<Fault>, step: &Step) -> Option<Fault>
    ensures { result ≡ first_from first (in_step tables.now step.now) }
{
    match step {
        Step::Begin(name) | Step::Resume(name) | Step::Recover(name) => in_principal(
            tables, first, name,
        ),
        Step::Deliver {
            sender: one,
            receiver: other,
        }
        | Step::Idle {
            worker: one,
            node: other,
        } => {
            let first = in_principal(tables, first, one);
            in_principal(tables, first, other)
        }
    }
}
