//! The labels of what is read in a method.
ghost use Rattle.std.specs.Prelude.{◌≡◌, ◌++◌, ◌∷◌, [], IfOk, OnOk, option_copied, slice_get};
ghost use Rattle.std.specs.List.{flat_map};
ghost use Rattle.fab_labelling.specs.Obligations.{class_of_sort, label_of_class, parameter_labels};
ghost use Rattle.fab_check.specs.Shown.{class_reached, labels_of, labels_of_local};

use fab_base::{NoMemory, Seq};
use fab_tree::resolved::{Class, Expression, Form, Local, Method, Operand, Sort, Use};
use std::alloc::Global;

/// What the names in a method stand for.
#[derive(Clone, Copy)]
pub(crate) struct Names<'a> {
    pub(crate) classes: &'a [Class],
    pub(crate) locals: &'a [Local],
}

/// The class of a number.
pub(crate) fn class_at<'a>(names: &Names<'a>, number: u16) -> Option<&'a Class>
    ensures { option_copied result ≡ slice_get names.now.classes.now number }
{
    names.classes.get(usize::from(number))
}

/// The local of a number.
pub(crate) fn local_at<'a>(names: &Names<'a>, number: u16) -> Option<&'a Local>
    ensures { option_copied result ≡ slice_get names.now.locals.now number }
{
    names.locals.get(usize::from(number))
}

/// The class of what has this type.
fn class_of_sort<'a>(names: &Names<'a>, sort: Sort) -> Option<&'a Class>
    ensures { option_copied result ≡ class_of_sort names.now.classes.now sort }
{
    match sort {
        Sort::Number(_) => None,
        Sort::Class(class) => class_at(names, class.number),
    }
}

/// The class of what a local refers to.
pub(crate) fn class_behind<'a>(names: &Names<'a>, local: Use) -> Option<&'a Class>
    ensures { option_copied result ≡ class_reached names.now local }
{
    match local_at(names, local.number) {
        None => None,
        Some(found) => class_of_sort(names, found.sort),
    }
}

/// The label of a local.
pub(crate) fn put_local(names: &Names<'_>, out: &mut Seq<u16>, local: Use) -> Result<(), NoMemory>
    ensures { OnOk result (out.new ≡ out.old ++ labels_of_local names.now local) }
{
    match local_at(names, local.number) {
        None => Ok(()),
        Some(found) => out.push(found.label.number),
    }
}

/// The label of what a local refers to.
fn put_behind(names: &Names<'_>, out: &mut Seq<u16>, local: Use) -> Result<(), NoMemory>
    ensures { OnOk result (out.new ≡ out.old ++ label_of_class (class_reached names.now local)) }
{
    match class_behind(names, local) {
        None => Ok(()),
        Some(class) => out.push(class.label.number),
    }
}

/// The labels of what is read in an expression.
#[cycle(labels)]
pub(crate) fn put_labels(
    names: &Names<'_>,
    out: &mut Seq<u16>,
    expression: &Expression,
) -> Result<(), NoMemory>
    ensures { OnOk result (out.new ≡ out.old ++ labels_of names.now expression.now) }
{
    match &expression.form {
        Form::Number(_) | Form::Null => Ok(()),
        Form::Local(local) => put_local(names, out, *local),
        Form::Read { object, .. } => {
            put_local(names, out, *object)?;
            put_behind(names, out, *object)
        }
        Form::Unary { operand, .. } => put_labels(names, out, operand.get()),
        Form::Chain { first, others } => {
            put_labels(names, out, first.get())?;
            put_operands(names, out, others.as_slice())
        }
        Form::Compared { left, right, .. } => {
            put_labels(names, out, left.get())?;
            put_labels(names, out, right.get())
        }
    }
}

/// The labels of what is read in the operands of a chain behind the first.
#[cycle(labels)]
fn put_operands(names: &Names<'_>, out: &mut Seq<u16>, others: &[Operand]) -> Result<(), NoMemory>
    ensures { OnOk result (out.new ≡ out.old ++ flat_map (λ u. labels_of names.now u.operand) others.now) }
{
    for other in others {
        put_labels(names, out, &other.operand)?;
    }
    Ok(())
}

/// These labels, and behind them those of what is read in an expression.
pub(crate) fn labels_under(
    alloc: Global,
    names: &Names<'_>,
    pc: &[u16],
    expression: &Expression,
) -> Result<Seq<u16>, NoMemory>
    ensures { IfOk result (λ ls. ls ≡ pc.now ++ labels_of names.now expression.now) }
{
    let mut labels = Seq::from_slice(alloc, pc)?;
    put_labels(names, &mut labels, expression)?;
    Ok(labels)
}

/// The labels of a method's parameters.
pub(crate) fn parameter_labels(alloc: Global, method: &Method) -> Result<Seq<u16>, NoMemory>
    ensures { IfOk result (λ ls. ls ≡ parameter_labels method.now) }
{
    let mut labels = Seq::new(alloc);
    let mut left = method.parameters;
    for local in method.locals.as_slice() {
        if left == 0 {
            return Ok(labels);
        }
        left -= 1;
        labels.push(local.label.number)?;
    }
    Ok(labels)
}
