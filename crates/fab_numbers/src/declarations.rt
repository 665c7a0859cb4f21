//! What a program declares besides its methods, with numbers for names.
ghost use Rattle.std.specs.Prelude.{◌≡◌, ◌≤◌, map, count_by, IfOk};
ghost use Rattle.fab_language.specs.Names.{label_name, class_name, method_name};
ghost use Rattle.fab_language.specs.Uses.{principal_number, principal_use, node_use, label_use, class_use, method_use, sort_of};
ghost use Rattle.fab_language.specs.Numbers.{principal_of, principals_from, policy_of, said_by};
ghost use Rattle.fab_tree.specs.Limits.{is_node};

use crate::parts::{Numbered, copied, each_numbered};
use fab_base::{Label, NoMemory, Policy, Seq};
use fab_tables::Tables;
use fab_tree::resolved::{
    Class as NumberedClass, Field as NumberedField, NamedLabel, Principal, Sort as NumberedSort,
    Use,
};
use fab_tree::{Aspect, Class, Delegation, Field, LabelText, Name, Node, PolicyText, Role, Sort};
use std::alloc::Global;

/// The principals, with the numbers of workers and stores among themselves.
pub(crate) fn principals(alloc: Global, nodes: &[Node]) -> Result<Seq<Principal>, NoMemory>
    requires { count_by (λ x. is_node x.role) nodes.now ≤ 32 }
    ensures { IfOk result (λ r. r ≡ principals_from 0 nodes.now) }
{
    let mut principals = Seq::new(alloc);
    let mut number = 0u16;
    for node in nodes {
        let of_node = is_node(node.role);
        principals.push(principal(number, node)?)?;
        if of_node {
            number += 1;
        }
    }
    Ok(principals)
}

/// A principal that has this number if it is a worker or a store.
fn principal(number: u16, node: &Node) -> Result<Principal, NoMemory>
    ensures { IfOk result (λ r. r ≡ principal_of number node.now) }
{
    Ok(Principal {
        role: node.role,
        name: copied(&node.name)?,
        node: if is_node(node.role) {
            Some(number)
        } else {
            None
        },
    })
}

/// Whether it is a worker or a store.
fn is_node(role: Role) -> bool
    ensures { result ≡ is_node role }
{
    match role {
        Role::Principal => false,
        Role::Worker { .. } | Role::Store { .. } => true,
    }
}

impl Numbered for Delegation {
    ghost use Rattle.fab_language.specs.Numbers.{pair_of};

    type Made = (u16, u16);

    ghost made = { pair_of };

    fn numbered(&self, alloc: Global, tables: &Tables<'_>) -> Result<(u16, u16), NoMemory> {
        Ok((
            tables.principal_number(&self.actor),
            tables.principal_number(&self.principal),
        ))
    }
}

impl Numbered for LabelText {
    ghost use Rattle.fab_language.specs.Numbers.{label_of};

    type Made = NamedLabel;

    ghost made = { label_of };

    fn numbered(&self, alloc: Global, tables: &Tables<'_>) -> Result<NamedLabel, NoMemory> {
        Ok(NamedLabel {
            name: copied(&self.name)?,
            label: label(alloc, tables, self.policies.as_slice())?,
        })
    }
}

/// What policies say: those of readers and those of writers.
fn label(alloc: Global, tables: &Tables<'_>, policies: &[PolicyText]) -> Result<Label, NoMemory>
    ensures { IfOk result (λ r. r ≡ said_by tables.now policies.now) }
{
    let mut conf = Seq::new(alloc);
    let mut integ = Seq::new(alloc);
    for policy in policies {
        let numbered = numbered_policy(alloc, tables, policy)?;
        match policy.aspect {
            Aspect::Confidentiality => conf.push(numbered)?,
            Aspect::Integrity => integ.push(numbered)?,
        }
    }
    Ok(Label { conf, integ })
}

fn numbered_policy(
    alloc: Global,
    tables: &Tables<'_>,
    policy: &PolicyText,
) -> Result<Policy, NoMemory>
    ensures { IfOk result (λ r. r ≡ policy_of tables.now policy.now) }
{
    let others = principal_numbers(alloc, tables, policy.others.as_slice())?;
    Ok(Policy {
        owner: tables.principal_number(&policy.owner),
        others: Seq::from_vec(others),
    })
}

fn principal_numbers(
    alloc: Global,
    tables: &Tables<'_>,
    names: &[Name],
) -> Result<Vec<u16>, NoMemory>
    ensures { IfOk result (λ v. v.items ≡ map (principal_number tables.now) names.now) }
{
    names
        .iter()
        .map(|name| tables.principal_number(name))
        .collect(alloc)
}

impl Numbered for Class {
    ghost use Rattle.fab_language.specs.Numbers.{class_of};

    type Made = NumberedClass;

    ghost made = { class_of };

    fn numbered(&self, alloc: Global, tables: &Tables<'_>) -> Result<NumberedClass, NoMemory> {
        Ok(NumberedClass {
            name: copied(&self.name)?,
            label: label_use(tables, &self.label),
            access: label_use(tables, &self.access),
            fields: each_numbered(alloc, tables, self.fields.as_slice())?,
        })
    }
}

impl Numbered for Field {
    ghost use Rattle.fab_language.specs.Numbers.{field_of};

    type Made = NumberedField;

    ghost made = { field_of };

    fn numbered(&self, alloc: Global, tables: &Tables<'_>) -> Result<NumberedField, NoMemory> {
        Ok(NumberedField {
            sort: numbered_sort(tables, &self.sort),
            name: copied(&self.name)?,
        })
    }
}

/// A type, with the number of its class.
pub(crate) fn numbered_sort(tables: &Tables<'_>, sort: &Sort) -> NumberedSort
    ensures { result ≡ sort_of tables.now sort.now }
{
    match sort {
        Sort::Number(width) => NumberedSort::Number(*width),
        Sort::Class(name) => NumberedSort::Class(class_use(tables, name)),
    }
}

/// The use of a principal.
pub(crate) fn principal_use(tables: &Tables<'_>, name: &Name) -> Use
    ensures { result ≡ principal_use tables.now name.now }
{
    Use {
        number: tables.principal_number(name),
        at: name.at,
    }
}

/// The use of a worker or a store.
pub(crate) fn node_use(tables: &Tables<'_>, name: &Name) -> Use
    ensures { result ≡ node_use tables.now name.now }
{
    Use {
        number: tables.node_number(name),
        at: name.at,
    }
}

/// The use of a label.
pub(crate) fn label_use(tables: &Tables<'_>, name: &Name) -> Use
    ensures { result ≡ label_use tables.now name.now }
{
    Use {
        number: tables.label_number(name),
        at: name.at,
    }
}

/// The use of a class.
pub(crate) fn class_use(tables: &Tables<'_>, name: &Name) -> Use
    ensures { result ≡ class_use tables.now name.now }
{
    Use {
        number: tables.class_number(name),
        at: name.at,
    }
}

/// The use of a method.
pub(crate) fn method_use(tables: &Tables<'_>, name: &Name) -> Use
    ensures { result ≡ method_use tables.now name.now }
{
    Use {
        number: tables.method_number(name),
        at: name.at,
    }
}
