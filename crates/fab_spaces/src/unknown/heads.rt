//! Names that aren't declared, in what statements hold outside their blocks.
ghost use Rattle.std.specs.Prelude.{◌≡◌, ◌++◌};
ghost use Rattle.fab_language.specs.Heads.{assign, call, result as returning, test, write};
ghost use Rattle.fab_language.specs.Unknown.{in_expression, in_head, in_label, in_right, in_sort};
ghost use Rattle.fab_rules.specs.First.{first_from};

use super::expressions::{in_expression, in_expressions, in_local, in_reach};
use super::{in_class_name, in_label, in_method_name, in_principal, in_sort};
use fab_language::Fault;
use fab_rules::Known;
use fab_tables::Tables;
use fab_tree::{Expression, Name, Return, Right, Sort};

/// The declaration of a local, of whatever name.
#[tactic(auto, using(fab_rules::proofs::Firsts::in_parts))]
pub fn in_declaration(
    tables: &Tables<'_>,
    known: &Known<'_>,
    first: Option<Fault>,
    sort: &Sort,
    label: &Name,
    value: &Expression,
) -> Option<Fault>
    ensures { result ≡ first_from first (in_sort tables.now sort.now ++ in_label tables.now label.now ++ in_expression tables.now known.now value.now) }
{
    let first = in_sort(tables, first, sort);
    let first = in_label(tables, first, label);
    in_expression(tables, known, first, value)
}

/// An assignment to a local.
#[tactic(auto, using(fab_rules::proofs::Firsts::in_parts))]
pub fn in_assignment(
    tables: &Tables<'_>,
    known: &Known<'_>,
    first: Option<Fault>,
    name: &Name,
    right: &Right,
) -> Option<Fault>
    ensures { result ≡ first_from first (in_head tables.now known.now (assign name.now right.now)) }
{
    let first = in_local(known, first, name);
    in_right(tables, known, first, right)
}

/// What is assigned.
#[tactic(auto, using(fab_rules::proofs::Firsts::in_parts, crate::proofs::Parts::in_each))]
fn in_right(
    tables: &Tables<'_>,
    known: &Known<'_>,
    first: Option<Fault>,
    right: &Right,
) -> Option<Fault>
    ensures { result ≡ first_from first (in_right tables.now known.now right.now) }
{
    match right {
        Right::Plain(value) => in_expression(tables, known, first, value),
        Right::Call { method, arguments } => in_call(
            tables,
            known,
            first,
            method,
            arguments.as_slice(),
        ),
        Right::New {
            class,
            store,
            arguments,
            ..
        } => {
            let first = in_class_name(tables, first, class);
            let first = in_principal(tables, first, store);
            in_expressions(tables, known, first, arguments.as_slice())
        }
        Right::Downgrade {
            value,
            from,
            to,
            ..
        } => in_downgrade(tables, known, first, value, from, to),
    }
}

/// A value at another label.
#[tactic(auto, using(fab_rules::proofs::Firsts::in_parts))]
fn in_downgrade(
    tables: &Tables<'_>,
    known: &Known<'_>,
    first: Option<Fault>,
    value: &Expression,
    from: &Name,
    to: &Name,
) -> Option<Fault>
    ensures { result ≡ first_from first (in_expression tables.now known.now value.now ++ in_label tables.now from.now ++ in_label tables.now to.now) }
{
    let first = in_expression(tables, known, first, value);
    let first = in_label(tables, first, from);
    in_label(tables, first, to)
}

/// The write of a field.
#[tactic(auto, using(fab_rules::proofs::Firsts::in_parts))]
pub fn in_write(
    tables: &Tables<'_>,
    known: &Known<'_>,
    first: Option<Fault>,
    object: &Name,
    field: &Name,
    value: &Expression,
) -> Option<Fault>
    ensures { result ≡ first_from first (in_head tables.now known.now (write object.now field.now value.now)) }
{
    let first = in_reach(tables, known, first, object, field);
    in_expression(tables, known, first, value)
}

/// A call.
#[tactic(auto, using(fab_rules::proofs::Firsts::in_parts, crate::proofs::Parts::in_each))]
pub fn in_call(
    tables: &Tables<'_>,
    known: &Known<'_>,
    first: Option<Fault>,
    method: &Name,
    arguments: &[Expression],
) -> Option<Fault>
    ensures { result ≡ first_from first (in_head tables.now known.now (call method.now arguments.now)) }
{
    let first = in_method_name(tables, first, method);
    in_expressions(tables, known, first, arguments)
}

/// A condition.
pub fn in_test(
    tables: &Tables<'_>,
    known: &Known<'_>,
    first: Option<Fault>,
    condition: &Expression,
) -> Option<Fault>
    ensures { result ≡ first_from first (in_head tables.now known.now (test condition.now)) }
{
    in_expression(tables, known, first, condition)
}

/// A method's result.
pub fn in_result(
    tables: &Tables<'_>,
    known: &Known<'_>,
    first: Option<Fault>,
    returned: &Return,
) -> Option<Fault>
    ensures { result ≡ first_from first (in_head tables.now known.now (returning returned.now)) }
{
    in_expression(tables, known, first, &returned.value)
}
