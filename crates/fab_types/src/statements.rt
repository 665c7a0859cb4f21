//! What stands in a method: values of statements, and its heading.
ghost use Rattle.std.specs.Prelude.{◌≡◌, ◌++◌, flat_map, map};
ghost use Rattle.fab_language.specs.Heads.{Locals};
ghost use Rattle.fab_language.specs.Kinds.{class_of, field_of, fields_of, kind_of_field, kind_of_sort, method_of, number};
ghost use Rattle.fab_language.specs.Types.{each_given, given_to, if_so, if_value, in_arguments, in_call, in_expression, in_reach, in_right, local_kind, parameter_kinds, result_kind, returned, says_so, typed};
ghost use Rattle.fab_rules.specs.First.{first_from};
ghost use Rattle.fab_types.specs.Seen.{seen};
ghost use Rattle.fab_types.specs.Values.{in_value};

use crate::expressions::{
    given_to, if_so, in_expression, in_given, in_reach, kind_of, value_given_to,
};
use crate::kinds::{Kind, class_kind, field_of, kind_of_field, kind_of_sort, local_kind};
use crate::taker::Taker;
use fab_base::Width;
use fab_language::Fault;
use fab_rules::Known;
use fab_tables::Tables;
use fab_tree::{Expression, Field, Method, Name, Parameter, Return, Returns, Right, Sort};

/// The parameters of the method of this name.
pub(crate) fn parameters_of<'a>(tables: &Tables<'a>, method: &Name) -> &'a [Parameter]
    ensures { map (λ p. kind_of_sort tables.now p.sort) result.now ≡ parameter_kinds tables.now (method_of tables.now method.now) }
{
    match tables.method(method) {
        None => &[],
        Some(method) => method.parameters.as_slice(),
    }
}

/// The fields of the class of this name.
pub(crate) fn fields_of<'a>(tables: &Tables<'a>, class: &Name) -> &'a [Field]
    ensures { result.now ≡ fields_of tables.now (class_of tables.now class.now) }
{
    match tables.class(class) {
        None => &[],
        Some(class) => class.fields.as_slice(),
    }
}

/// What is wrong in each of these expressions.
fn in_expressions(
    tables: &Tables<'_>,
    known: &Known<'_>,
    first: Option<Fault>,
    expressions: &[Expression],
) -> Option<Fault>
    ensures { result ≡ first_from first (flat_map (in_expression tables.now known.now) expressions.now) }
{
    let mut first = first;
    for expression in expressions {
        first = in_expression(tables, known, first, expression);
    }
    first
}

/// The values of these expressions are given in turn to these.
fn each_given<T: Taker>(
    tables: &Tables<'_>,
    known: &Known<'_>,
    first: Option<Fault>,
    takers: &[T],
    values: &[Expression],
) -> Option<Fault>
    ensures { result ≡ first_from first (each_given (map (λ t. kind_of_sort tables.now (T.sort t)) takers.now) (map (typed tables.now known.now) values.now)) }
{
    let mut first = first;
    let mut values = values;
    for taker in takers {
        match values {
            [] => return first,
            [value, rest @ ..] => {
                let kind = kind_of_sort(tables, taker.sort());
                first = value_given_to(tables, known, first, kind, value);
                values = rest;
            }
        }
    }
    first
}

/// What is wrong in arguments, and in that they are given to these.
#[tactic(auto, using(fab_rules::proofs::Firsts::in_parts))]
fn in_arguments<T: Taker>(
    tables: &Tables<'_>,
    known: &Known<'_>,
    first: Option<Fault>,
    takers: &[T],
    arguments: &[Expression],
) -> Option<Fault>
    ensures { result ≡ first_from first (in_arguments tables.now known.now (map (λ t. kind_of_sort tables.now (T.sort t)) takers.now) arguments.now) }
{
    let first = in_expressions(tables, known, first, arguments);
    each_given(tables, known, first, takers, arguments)
}

/// What a call of this method gives is given to what holds this kind.
fn result_given_to(
    tables: &Tables<'_>,
    first: Option<Fault>,
    taker: Kind<'_>,
    method: &Name,
) -> Option<Fault>
    ensures { (known : Locals) → result ≡ first_from first (if_value tables.now known (returned tables.now known (method_of tables.now method.now)) (seen taker.entry) method.now.at) }
{
    match tables.method(method) {
        None => given_to(first, taker, Kind::Unknown, method.at),
        Some(found) => match &found.returns {
            None => if_so(first, false, method.at),
            Some(returns) => {
                given_to(first, taker, kind_of_sort(tables, &returns.sort), method.at)
            }
        },
    }
}

/// What is assigned to what holds this kind.
fn in_right(
    tables: &Tables<'_>,
    known: &Known<'_>,
    first: Option<Fault>,
    taker: Kind<'_>,
    right: &Right,
) -> Option<Fault>
    ensures { result ≡ first_from first (in_right tables.now known.now (seen taker.entry) right.now) }
{
    match right {
        Right::Plain(value) => in_given(tables, known, first, taker, value),
        Right::Call { method, arguments } => {
            let first = in_call(tables, known, first, method, arguments.as_slice());
            result_given_to(tables, first, taker, method)
        }
        Right::New {
            class,
            arguments,
            at,
            ..
        } => {
            let fields = fields_of(tables, class);
            let first = in_arguments(tables, known, first, fields, arguments.as_slice());
            given_to(first, taker, class_kind(tables, class), *at)
        }
        Right::Downgrade { value, at, .. } => {
            let first = in_expression(tables, known, first, value);
            given_to(first, taker, kind_of(tables, known, value), *at)
        }
    }
}

/// `T x : L = e;`
pub fn in_declaration(
    tables: &Tables<'_>,
    known: &Known<'_>,
    first: Option<Fault>,
    sort: &Sort,
    value: &Expression,
) -> Option<Fault>
    ensures { result ≡ first_from first (in_value tables.now known.now (kind_of_sort tables.now sort.now) value.now) }
{
    in_given(tables, known, first, kind_of_sort(tables, sort), value)
}

/// `x = ..;`
pub fn in_assignment(
    tables: &Tables<'_>,
    known: &Known<'_>,
    first: Option<Fault>,
    name: &Name,
    right: &Right,
) -> Option<Fault>
    ensures { result ≡ first_from first (in_right tables.now known.now (local_kind tables.now known.now name.now) right.now) }
{
    in_right(tables, known, first, local_kind(tables, known, name), right)
}

/// `x.f = e;`
#[tactic(auto, using(fab_rules::proofs::Firsts::in_parts))]
pub fn in_write(
    tables: &Tables<'_>,
    known: &Known<'_>,
    first: Option<Fault>,
    object: &Name,
    field: &Name,
    value: &Expression,
) -> Option<Fault>
    ensures { let taker = kind_of_field tables.now (field_of tables.now known.now object.now field.now) in
        let reach = in_reach tables.now known.now object.now object.now.at in
        result ≡ first_from first (reach ++ in_expression tables.now known.now value.now ++ given_to taker (typed tables.now known.now value.now)) }
{
    let first = in_reach(tables, known, first, object, object.at);
    let taker = kind_of_field(tables, field_of(tables, known, object, field));
    in_given(tables, known, first, taker, value)
}

/// `m(..);`
pub fn in_call(
    tables: &Tables<'_>,
    known: &Known<'_>,
    first: Option<Fault>,
    method: &Name,
    arguments: &[Expression],
) -> Option<Fault>
    ensures { result ≡ first_from first (in_call tables.now known.now method.now arguments.now) }
{
    in_arguments(
        tables,
        known,
        first,
        parameters_of(tables, method),
        arguments,
    )
}

/// The condition of an `if` or a `while`.
pub fn in_test(
    tables: &Tables<'_>,
    known: &Known<'_>,
    first: Option<Fault>,
    condition: &Expression,
) -> Option<Fault>
    ensures { result ≡ first_from first (in_value tables.now known.now (number Width.Int) condition.now) }
{
    in_given(tables, known, first, Kind::Number(Width::Int), condition)
}

/// `return e;` in a method that returns this.
pub fn in_result(
    tables: &Tables<'_>,
    known: &Known<'_>,
    first: Option<Fault>,
    returns: &Option<Returns>,
    value: &Return,
) -> Option<Fault>
    ensures { result ≡ first_from first (in_value tables.now known.now (result_kind tables.now known.now returns.now) value.now.value) }
{
    let taker = match returns {
        None => Kind::Unknown,
        Some(returns) => kind_of_sort(tables, &returns.sort),
    };
    in_given(tables, known, first, taker, &value.value)
}

/// A method says that it returns something where it does. Nothing is looked up for this.
pub fn in_heading(_tables: &Tables<'_>, first: Option<Fault>, method: &Method) -> Option<Fault>
    ensures { result ≡ first_from first (if_so (says_so _tables.now method.now.returns method.now.result) method.now.name.at) }
{
    if_so(
        first,
        method.returns.is_some() == method.result.is_some(),
        method.name.at,
    )
}
