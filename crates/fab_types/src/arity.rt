//! Whether as many values are given as are wanted.
ghost use Rattle.std.specs.Prelude.{◌≡◌, length, option_copied};
ghost use Rattle.fab_language.specs.Arity.{if_as_many, for_method, for_class, in_call, in_right, in_root, in_request, in_session};
ghost use Rattle.fab_rules.specs.First.{first_from};

use fab_language::{Fault, NameRule};
use fab_rules::noted_unless;
use fab_tables::Tables;
use fab_tree::{Class, Expression, Method, Name, RequestText, Right, Root, Session};

/// So many are given as are wanted, or it is a fault.
fn if_as_many(first: Option<Fault>, wanted: usize, given: usize, name: &Name) -> Option<Fault>
    ensures { result ≡ first_from first (if_as_many wanted given name.now) }
{
    noted_unless(wanted == given, first, NameRule::Arity, name.at)
}

/// So many arguments for a method.
fn for_method(
    first: Option<Fault>,
    method: Option<&Method>,
    given: usize,
    name: &Name,
) -> Option<Fault>
    ensures { result ≡ first_from first (for_method (option_copied method.entry) given name.now) }
{
    match method {
        None => first,
        Some(method) => if_as_many(first, method.parameters.len(), given, name),
    }
}

/// So many values for the fields of a class.
fn for_class(
    first: Option<Fault>,
    class: Option<&Class>,
    given: usize,
    name: &Name,
) -> Option<Fault>
    ensures { result ≡ first_from first (for_class (option_copied class.entry) given name.now) }
{
    match class {
        None => first,
        Some(class) => if_as_many(first, class.fields.len(), given, name),
    }
}

/// A call of this method with so many arguments.
fn in_arguments(
    tables: &Tables<'_>,
    first: Option<Fault>,
    method: &Name,
    given: usize,
) -> Option<Fault>
    ensures { result ≡ first_from first (in_call tables.now method.now given) }
{
    for_method(first, tables.method(method), given, method)
}

/// A root, with a value for each field of its class.
pub fn in_root(tables: &Tables<'_>, first: Option<Fault>, root: &Root) -> Option<Fault>
    ensures { result ≡ first_from first (in_root tables.now root.now) }
{
    for_class(
        first,
        tables.class(&root.class),
        root.values.len(),
        &root.name,
    )
}

/// A request, with an argument for each parameter of its method.
fn in_request(tables: &Tables<'_>, first: Option<Fault>, request: &RequestText) -> Option<Fault>
    ensures { result ≡ first_from first (in_request tables.now request.now) }
{
    in_arguments(tables, first, &request.method, request.arguments.len())
}

/// The requests of a session.
#[tactic(auto, using(fab_rules::proofs::Firsts::in_parts))]
pub fn in_session(tables: &Tables<'_>, first: Option<Fault>, session: &Session) -> Option<Fault>
    ensures { result ≡ first_from first (in_session tables.now session.now) }
{
    let mut first = first;
    for request in session.requests.as_slice() {
        first = in_request(tables, first, request);
    }
    first
}

/// `m(..);`
pub fn in_call(
    tables: &Tables<'_>,
    first: Option<Fault>,
    method: &Name,
    arguments: &[Expression],
) -> Option<Fault>
    ensures { result ≡ first_from first (in_call tables.now method.now (length arguments.now)) }
{
    in_arguments(tables, first, method, arguments.len())
}

/// What is assigned.
pub fn in_assignment(tables: &Tables<'_>, first: Option<Fault>, right: &Right) -> Option<Fault>
    ensures { result ≡ first_from first (in_right tables.now right.now) }
{
    match right {
        Right::Plain(_) | Right::Downgrade { .. } => first,
        Right::Call { method, arguments } => in_call(tables, first, method, arguments.as_slice()),
        Right::New {
            class,
            arguments,
            ..
        } => for_class(first, tables.class(class), arguments.len(), class),
    }
}
