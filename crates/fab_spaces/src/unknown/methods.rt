//! Names that aren't declared, in the headings of methods.
ghost use Rattle.std.specs.Prelude.{◌≡◌, fold, option_copied};
ghost use Rattle.fab_language.specs.Unknown.{in_heading, in_parameter, in_returns};
ghost use Rattle.fab_rules.specs.First.{first_from};

use super::{in_label, in_principals, in_sort};
use fab_language::Fault;
use fab_tables::Tables;
use fab_tree::{Method, Parameter, Returns};

/// What stands before a method's body.
#[tactic(auto, using(fab_rules::proofs::Firsts::in_parts, crate::proofs::Parts::in_each))]
pub fn in_heading(tables: &Tables<'_>, first: Option<Fault>, method: &Method) -> Option<Fault>
    ensures { result ≡ first_from first (in_heading tables.now method.now) }
{
    let first = in_parameters(tables, first, method.parameters.as_slice());
    let first = in_returns(tables, first, method.returns.as_ref());
    let first = in_label(tables, first, &method.begin);
    in_principals(tables, first, method.authority.as_slice())
}

/// The types and labels of parameters.
fn in_parameters(
    tables: &Tables<'_>,
    first: Option<Fault>,
    parameters: &[Parameter],
) -> Option<Fault>
    ensures { result ≡ fold (λ a x. first_from a (in_parameter tables.now x)) first parameters.now }
{
    parameters.iter().fold(
        first,
        |first, parameter| in_parameter(tables, first, parameter),
    )
}

/// The type and the label of a parameter.
#[tactic(auto, using(fab_rules::proofs::Firsts::in_parts))]
fn in_parameter(tables: &Tables<'_>, first: Option<Fault>, parameter: &Parameter) -> Option<Fault>
    ensures { result ≡ first_from first (in_parameter tables.now parameter.now) }
{
    let first = in_sort(tables, first, &parameter.sort);
    in_label(tables, first, &parameter.label)
}

/// The type and the label of what a method returns.
#[tactic(auto, using(fab_rules::proofs::Firsts::in_parts))]
fn in_returns(tables: &Tables<'_>, first: Option<Fault>, returns: Option<&Returns>) -> Option<Fault>
    ensures { result ≡ first_from first (in_returns tables.now (option_copied returns.entry)) }
{
    match returns {
        Some(returns) => {
            let first = in_sort(tables, first, &returns.sort);
            in_label(tables, first, &returns.label)
        }
        None => first,
    }
}
