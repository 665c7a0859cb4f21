//! Roots and values, with numbers for names.
ghost use Rattle.std.specs.Prelude.{◌≡◌, ◌≤◌, length, IfOk};
ghost use Rattle.fab_language.specs.Names.{named, number_of, root_name};
ghost use Rattle.fab_language.specs.Numbers.{oid_of, reference_to, value_of, values_of, root_of, roots_from};

use crate::parts::copied;
use fab_base::{NoMemory, Oid, Seq, Value};
use fab_tables::Tables;
use fab_tree::resolved::Root as NumberedRoot;
use fab_tree::{Given, Literal, Name, Root};
use std::alloc::Global;

/// The roots of a bundle, numbered from 0.
pub(crate) fn numbered_roots(
    alloc: Global,
    tables: &Tables<'_>,
    roots: &[Root],
) -> Result<Seq<NumberedRoot>, NoMemory>
    requires { length roots.now ≤ 100000 }
    ensures { IfOk result (λ r. r ≡ roots_from tables.now 0 roots.now) }
{
    let mut made = Seq::new(alloc);
    for (number, root) in roots.iter().enumerate() {
        made.push(numbered_root(alloc, tables, number as u32, root)?)?;
    }
    Ok(made)
}

fn numbered_root(
    alloc: Global,
    tables: &Tables<'_>,
    number: u32,
    root: &Root,
) -> Result<NumberedRoot, NoMemory>
    ensures { IfOk result (λ r. r ≡ root_of tables.now number root.now) }
{
    Ok(NumberedRoot {
        name: copied(&root.name)?,
        oid: oid(tables, number, root),
        values: Seq::from_vec(values(alloc, tables, root.values.as_slice())?),
    })
}

/// The object of the root of this number.
fn oid(tables: &Tables<'_>, number: u32, root: &Root) -> Oid
    ensures { result ≡ oid_of tables.now number root.now }
{
    Oid {
        store: tables.node_number(&root.store),
        class: tables.class_number(&root.class),
        worker: u16::MAX,
        boot: 0,
        number,
        site: u16::MAX,
        index: 0,
    }
}

/// What fields begin with.
fn values(alloc: Global, tables: &Tables<'_>, given: &[Given]) -> Result<Vec<Value>, NoMemory>
    ensures { IfOk result (λ v. v.items ≡ values_of tables.now given.now) }
{
    given
        .iter()
        .map(|given| value(tables, &given.literal))
        .collect(alloc)
}

fn value(tables: &Tables<'_>, literal: &Literal) -> Value
    ensures { result ≡ value_of tables.now literal.now }
{
    match literal {
        Literal::Number(number) => number.value(),
        Literal::Null => Value::Null,
        Literal::Root(name) => reference(tables, name),
    }
}

/// What a request is given, over the roots with numbers for names: of a root it costs one look-up.
pub(crate) fn arguments(
    alloc: Global,
    tables: &Tables<'_>,
    roots: &[NumberedRoot],
    given: &[Given],
) -> Result<Vec<Value>, NoMemory>
    requires { roots.now ≡ roots_from tables.now 0 tables.now.roots }
    ensures { IfOk result (λ v. v.items ≡ values_of tables.now given.now) }
{
    let mut values = Vec::with_capacity(alloc, given.len())?;
    for one in given {
        values.push(argument(tables, roots, &one.literal))?;
    }
    Ok(values)
}

fn argument(tables: &Tables<'_>, roots: &[NumberedRoot], literal: &Literal) -> Value
    requires { roots.now ≡ roots_from tables.now 0 tables.now.roots }
    ensures { result ≡ value_of tables.now literal.now }
{
    match literal {
        Literal::Number(number) => number.value(),
        Literal::Null => Value::Null,
        Literal::Root(name) => match roots.get(tables.root_number(name) as usize) {
            Some(root) => Value::Ref(root.oid),
            None => Value::Null,
        },
    }
}

/// A reference to the object of the root of this name.
fn reference(tables: &Tables<'_>, name: &Name) -> Value
    ensures { result ≡ reference_to tables.now (number_of root_name tables.now.roots name.now) (named root_name tables.now.roots name.now) }
{
    match tables.root(name) {
        Some(root) => Value::Ref(oid(tables, tables.root_number(name), root)),
        None => Value::Null,
    }
}
