//! The labels of what is read in a method, holes included.
ghost use Rattle.std.specs.Prelude.{◌≡◌, ◌==◌, ◌++◌, IfOk, OnOk, option_copied, slice_get};
ghost use Rattle.std.specs.List.{flat_map, list_any};
ghost use Rattle.fab_labelling.specs.Obligations.{class_behind, class_of_sort, label_of_class, local_labels, part, under as under_labels};

use crate::opened::OpenLocal;
use fab_base::{NoMemory, Seq};
use fab_tree::resolved::{Class, Expression, Form, Operand, Sort, Use};
use std::alloc::Global;

/// What the names in a method stand for.
#[derive(Clone, Copy)]
pub(crate) struct Names<'a> {
    pub(crate) classes: &'a [Class],
    pub(crate) locals: &'a [OpenLocal<'a>],
}

/// The local of a number.
pub(crate) fn local_at<'a>(names: &Names<'a>, number: u16) -> Option<&'a OpenLocal<'a>>
    ensures { option_copied result ≡ slice_get names.now.locals.now number }
{
    names.locals.get(usize::from(number))
}

/// The class of what has this type.
fn class_of_sort<'a>(names: &Names<'a>, sort: Sort) -> Option<&'a Class>
    ensures { option_copied result ≡ class_of_sort names.now.classes.now sort }
{
    match sort {
        Sort::Number(_) => None,
        Sort::Class(class) => names.classes.get(usize::from(class.number)),
    }
}

/// The label of a local.
fn put_local(names: &Names<'_>, out: &mut Seq<u32>, local: Use) -> Result<(), NoMemory>
    ensures { OnOk result (out.new ≡ out.old ++ local_labels names.now.classes.now names.now.locals.now local) }
{
    match local_at(names, local.number) {
        None => Ok(()),
        Some(found) => out.push(found.number),
    }
}

/// The label of what a local refers to.
fn put_behind(names: &Names<'_>, out: &mut Seq<u32>, local: Use) -> Result<(), NoMemory>
    ensures { OnOk result (out.new ≡ out.old ++ label_of_class (class_behind names.now.classes.now names.now.locals.now local)) }
{
    let Some(found) = local_at(names, local.number) else {
        return Ok(());
    };
    match class_of_sort(names, found.local.sort) {
        None => Ok(()),
        Some(class) => out.push(u32::from(class.label.number)),
    }
}

/// The labels of what is read in an expression.
#[cycle(labels)]
pub(crate) fn put_labels(
    names: &Names<'_>,
    out: &mut Seq<u32>,
    expression: &Expression,
) -> Result<(), NoMemory>
    ensures { OnOk result (out.new ≡ out.old ++ (part names.now.classes.now names.now.locals.now expression.now).labels) }
{
    match &expression.form {
        Form::Number(_) | Form::Null => Ok(()),
        Form::Local(local) => put_local(names, out, *local),
        Form::Read { object, .. } => {
            put_local(names, out, *object)?;
            put_behind(names, out, *object)
        }
        Form::Unary { operand, .. } => put_labels(names, out, operand.get()),
        Form::Chain { first, others } => {
            put_labels(names, out, first.get())?;
            put_operands(names, out, others.as_slice())
        }
        Form::Compared { left, right, .. } => {
            put_labels(names, out, left.get())?;
            put_labels(names, out, right.get())
        }
    }
}

/// The labels of what is read in the operands of a chain behind the first.
#[cycle(labels)]
fn put_operands(names: &Names<'_>, out: &mut Seq<u32>, others: &[Operand]) -> Result<(), NoMemory>
    ensures { OnOk result (out.new ≡ out.old ++ flat_map (λ u. (part names.now.classes.now names.now.locals.now u.operand).labels) others.now) }
{
    for other in others {
        put_labels(names, out, &other.operand)?;
    }
    Ok(())
}

/// Whether a label is among these.
fn is_among(labels: &[u32], label: u32) -> bool
    ensures { result ≡ list_any (λ k. k == label) labels.now }
{
    let mut rest = labels;
    'labels: while let Some((other, after)) = rest.split_first() {
        if *other == label {
            return true;
        }
        rest = after;
    }
    false
}

/// These labels, and behind them each of the others that isn't among them yet.
pub(crate) fn inside(alloc: Global, pc: &[u32], labels: &[u32]) -> Result<Seq<u32>, NoMemory>
    ensures { IfOk result (λ found. found ≡ under_labels pc.now labels.now) }
{
    let mut found = Seq::from_slice(alloc, pc)?;
    let mut rest = labels;
    'labels: while let Some((label, after)) = rest.split_first() {
        if !is_among(found.as_slice(), *label) {
            found.push(*label)?;
        }
        rest = after;
    }
    Ok(found)
}
