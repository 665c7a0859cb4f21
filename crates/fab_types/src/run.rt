//! The run part: the values of roots and requests.
ghost use Rattle.std.specs.Prelude.{◌≡◌, map};
ghost use Rattle.fab_language.specs.Kinds.{kind_of_literal, kind_of_sort};
ghost use Rattle.fab_language.specs.Types.{each_given, given_value, in_request, in_root, in_session};
ghost use Rattle.fab_rules.specs.First.{first_from};
ghost use Rattle.fab_types.specs.Seen.{seen};

use crate::expressions::given_to;
use crate::kinds::{Kind, class_kind, kind_of_sort};
use crate::statements::{fields_of, parameters_of};
use crate::taker::Taker;
use fab_language::Fault;
use fab_tables::Tables;
use fab_tree::{Given, Literal, RequestText, Root, Session};

/// The kind of a value as it is written.
fn kind_of_literal<'a>(tables: &Tables<'a>, literal: &Literal) -> Kind<'a>
    ensures { seen result ≡ kind_of_literal tables.now literal.now }
{
    match literal {
        Literal::Number(number) => Kind::Number(number.width()),
        Literal::Null => Kind::Nothing,
        Literal::Root(name) => match tables.root(name) {
            None => Kind::Unknown,
            Some(root) => class_kind(tables, &root.class),
        },
    }
}

/// These values are given in turn to these.
fn each_given<T: Taker>(
    tables: &Tables<'_>,
    first: Option<Fault>,
    takers: &[T],
    values: &[Given],
) -> Option<Fault>
    ensures { result ≡ first_from first (each_given (map (λ t. kind_of_sort tables.now (T.sort t)) takers.now) (map (given_value tables.now) values.now)) }
{
    let mut first = first;
    let mut values = values;
    for taker in takers {
        match values {
            [] => return first,
            [value, rest @ ..] => {
                let kind = kind_of_sort(tables, taker.sort());
                first = given_to(
                    first,
                    kind,
                    kind_of_literal(tables, &value.literal),
                    value.at,
                );
                values = rest;
            }
        }
    }
    first
}

/// The values of a root, which its fields begin with.
pub fn in_root(tables: &Tables<'_>, first: Option<Fault>, root: &Root) -> Option<Fault>
    ensures { result ≡ first_from first (in_root tables.now root.now) }
{
    each_given(
        tables,
        first,
        fields_of(tables, &root.class),
        root.values.as_slice(),
    )
}

/// The arguments of a request.
fn in_request(tables: &Tables<'_>, first: Option<Fault>, request: &RequestText) -> Option<Fault>
    ensures { result ≡ first_from first (in_request tables.now request.now) }
{
    each_given(
        tables,
        first,
        parameters_of(tables, &request.method),
        request.arguments.as_slice(),
    )
}

/// The requests of a session.
pub fn in_session(tables: &Tables<'_>, first: Option<Fault>, session: &Session) -> Option<Fault>
    ensures { result ≡ first_from first (in_session tables.now session.now) }
{
    let mut first = first;
    for request in session.requests.as_slice() {
        first = in_request(tables, first, request);
    }
    first
}
