//! What is seen of what stands in a method.
ghost use Rattle.std.specs.Prelude.{◌≡◌, ◌&&◌, option_copied, slice_get};
ghost use Rattle.std.specs.List.{list_all};
ghost use Rattle.fab_labelling.specs.Obligations.{class_of_sort, label_of_class, label_of_local};
ghost use Rattle.fab_rights.specs.Computed.{has_bit};
ghost use Rattle.fab_record.specs.Scopes.{class_behind, reads_seen};

use fab_rights::is_in;
use fab_tree::resolved::{Class, Expression, Form, Local, Operand, Sort, Use};

/// The labels that are seen, and what the names in a method stand for.
#[derive(Clone, Copy)]
pub(crate) struct Scope<'a> {
    pub(crate) labels: u64,
    pub(crate) classes: &'a [Class],
    pub(crate) locals: &'a [Local],
}

/// The class of what has this type.
fn class_of_sort<'a>(scope: &Scope<'a>, sort: Sort) -> Option<&'a Class>
    ensures { option_copied result ≡ class_of_sort scope.now.classes.now sort }
{
    match sort {
        Sort::Number(_) => None,
        Sort::Class(class) => scope.classes.get(usize::from(class.number)),
    }
}

/// The class of what a local refers to.
fn class_behind<'a>(scope: &Scope<'a>, local: Use) -> Option<&'a Class>
    ensures { option_copied result ≡ class_behind scope.now local }
{
    match scope.locals.get(usize::from(local.number)) {
        None => None,
        Some(found) => class_of_sort(scope, found.sort),
    }
}

/// Whether the label of a local is seen, if there is such a local.
fn sees_local(scope: &Scope<'_>, local: Use) -> bool
    ensures { result ≡ list_all (has_bit scope.now.labels) (label_of_local (slice_get scope.now.locals.now local.number)) }
{
    match scope.locals.get(usize::from(local.number)) {
        None => true,
        Some(found) => is_in(scope.labels, found.label.number),
    }
}

/// Whether the label of the class behind a local is seen, if there is such a class.
fn sees_behind(scope: &Scope<'_>, local: Use) -> bool
    ensures { result ≡ list_all (has_bit scope.now.labels) (label_of_class (class_behind scope.now local)) }
{
    match class_behind(scope, local) {
        None => true,
        Some(class) => is_in(scope.labels, class.label.number),
    }
}

/// Whether whatever an expression reads is seen.
#[cycle(reads)]
pub(crate) fn reads_seen(scope: &Scope<'_>, expression: &Expression) -> bool
    ensures { result ≡ reads_seen scope.now expression.now }
{
    match &expression.form {
        Form::Number(_) | Form::Null => true,
        Form::Local(local) => sees_local(scope, *local),
        Form::Read { object, .. } => sees_local(scope, *object) && sees_behind(scope, *object),
        Form::Unary { operand, .. } => reads_seen(scope, operand.get()),
        Form::Chain { first, others } => {
            reads_seen(scope, first.get()) && operands_seen(scope, others.as_slice())
        }
        Form::Compared { left, right, .. } => {
            reads_seen(scope, left.get()) && reads_seen(scope, right.get())
        }
    }
}

/// Whether whatever the operands of a chain behind the first read is seen.
#[cycle(reads)]
fn operands_seen(scope: &Scope<'_>, others: &[Operand]) -> bool
    ensures { result ≡ list_all (λ u. reads_seen scope.now u.operand) others.now }
{
    for other in others {
        if !reads_seen(scope, &other.operand) {
            return false;
        }
    }
    true
}

/// Whether what stands under a condition is seen.
pub(crate) fn sees_inside(scope: &Scope<'_>, condition: &Expression, seen: bool) -> bool
    ensures { result ≡ (seen && reads_seen scope.now condition.now) }
{
    seen && reads_seen(scope, condition)
}

/// Whether what stands under a label is seen.
pub(crate) fn sees_under(scope: &Scope<'_>, label: u16, seen: bool) -> bool
    ensures { result ≡ (seen && has_bit scope.now.labels label) }
{
    seen && is_in(scope.labels, label)
}
