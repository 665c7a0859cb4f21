//! Names that aren't declared, in declarations.
ghost use Rattle.std.specs.Prelude.{◌≡◌, fold};
ghost use Rattle.fab_language.specs.Unknown.{in_class, in_delegation, in_label_text, in_policy, in_sort};
ghost use Rattle.fab_rules.specs.First.{first_from};

use super::{in_label, in_principal, in_principals, in_sort};
use fab_language::Fault;
use fab_tables::Tables;
use fab_tree::{Class, Delegation, Field, LabelText, PolicyText};

/// Who is said to act for whom.
#[tactic(auto, using(fab_rules::proofs::Firsts::in_parts))]
pub fn in_delegation(
    tables: &Tables<'_>,
    first: Option<Fault>,
    delegation: &Delegation,
) -> Option<Fault>
    ensures { result ≡ first_from first (in_delegation tables.now delegation.now) }
{
    let first = in_principal(tables, first, &delegation.actor);
    in_principal(tables, first, &delegation.principal)
}

/// The policies of a label.
#[tactic(auto, using(crate::proofs::Parts::in_each))]
pub fn in_label_text(tables: &Tables<'_>, first: Option<Fault>, label: &LabelText) -> Option<Fault>
    ensures { result ≡ first_from first (in_label_text tables.now label.now) }
{
    in_policies(tables, first, label.policies.as_slice())
}

/// Policies.
fn in_policies(tables: &Tables<'_>, first: Option<Fault>, policies: &[PolicyText]) -> Option<Fault>
    ensures { result ≡ fold (λ a x. first_from a (in_policy tables.now x)) first policies.now }
{
    policies
        .iter()
        .fold(first, |first, policy| in_policy(tables, first, policy))
}

/// The owner and the others of a policy.
#[tactic(auto, using(fab_rules::proofs::Firsts::in_parts, crate::proofs::Parts::in_each))]
fn in_policy(tables: &Tables<'_>, first: Option<Fault>, policy: &PolicyText) -> Option<Fault>
    ensures { result ≡ first_from first (in_policy tables.now policy.now) }
{
    let first = in_principal(tables, first, &policy.owner);
    in_principals(tables, first, policy.others.as_slice())
}

/// The labels of a class, and the types of its fields.
#[tactic(auto, using(fab_rules::proofs::Firsts::in_parts, crate::proofs::Parts::in_each))]
pub fn in_class(tables: &Tables<'_>, first: Option<Fault>, class: &Class) -> Option<Fault>
    ensures { result ≡ first_from first (in_class tables.now class.now) }
{
    let first = in_label(tables, first, &class.label);
    let first = in_label(tables, first, &class.access);
    in_fields(tables, first, class.fields.as_slice())
}

/// The types of fields.
fn in_fields(tables: &Tables<'_>, first: Option<Fault>, fields: &[Field]) -> Option<Fault>
    ensures { result ≡ fold (λ a x. first_from a (in_sort tables.now x.sort)) first fields.now }
{
    fields
        .iter()
        .fold(first, |first, field| in_sort(tables, first, &field.sort))
}
