//! What expressions owe.
ghost use Rattle.std.specs.Prelude.{◌≡◌, ◌++◌, OnOk};
ghost use Rattle.std.specs.List.{flat_map};
ghost use Rattle.fab_labelling.specs.Obligations.{division};
ghost use Rattle.fab_check.specs.Noted.{all_noted};
ghost use Rattle.fab_check.specs.Shown.{labels_of, owes_of, reaching};

use crate::labels::{Names, class_behind, labels_under, put_local};
use crate::notes::{Under, note_confs, note_failures};
use crate::verdicts::Verdicts;
use fab_base::{NoMemory, Seq};
use fab_tree::Operator;
use fab_tree::resolved::{Expression, Form, Operand, Use};

/// An object is reached through a local, which may be null.
#[tactic(auto, using(crate::proofs::Parts::in_parts, crate::proofs::Parts::in_none))]
pub(crate) fn note_reaching(
    verdicts: &mut Verdicts<'_>,
    names: &Names<'_>,
    under: &Under<'_>,
    object: Use,
) -> Result<(), NoMemory>
    ensures { OnOk result (verdicts.new ≡ all_noted verdicts.old (reaching names.now under.now object)) }
{
    let mut from = Seq::from_slice(verdicts.alloc(), under.pc)?;
    put_local(names, &mut from, object)?;
    if let Some(class) = class_behind(names, object) {
        note_confs(verdicts, object.at, from.as_slice(), class.access.number);
    }
    note_failures(verdicts, object.at, from.as_slice(), under.failure);
    Ok(())
}

/// A division by an operand fails where that is 0.
#[tactic(auto, using(crate::proofs::Parts::in_none))]
fn note_division(
    verdicts: &mut Verdicts<'_>,
    names: &Names<'_>,
    under: &Under<'_>,
    other: &Operand,
) -> Result<(), NoMemory>
    ensures { OnOk result (verdicts.new ≡ all_noted verdicts.old (division other.now.operator other.now.at (under.now.pc.now ++ labels_of names.now other.now.operand) under.now.failure)) }
{
    match other.operator {
        Operator::Divide => {
            let from = labels_under(verdicts.alloc(), names, under.pc, &other.operand)?;
            note_failures(verdicts, other.at, from.as_slice(), under.failure);
            Ok(())
        }
        Operator::Or | Operator::And | Operator::Add | Operator::Subtract | Operator::Multiply =>
            Ok(()),
    }
}

/// What an expression owes.
#[cycle(expression)]
#[tactic(auto, using(crate::proofs::Parts::in_parts, crate::proofs::Parts::in_none))]
pub(crate) fn note_expression(
    verdicts: &mut Verdicts<'_>,
    names: &Names<'_>,
    under: &Under<'_>,
    expression: &Expression,
) -> Result<(), NoMemory>
    ensures { OnOk result (verdicts.new ≡ all_noted verdicts.old (owes_of names.now under.now expression.now)) }
{
    match &expression.form {
        Form::Number(_) | Form::Null | Form::Local(_) => Ok(()),
        Form::Read { object, .. } => note_reaching(verdicts, names, under, *object),
        Form::Unary { operand, .. } => { note_expression(verdicts, names, under, operand.get()) }
        Form::Chain { first, others } => {
            note_expression(verdicts, names, under, first.get())?;
            note_operands(verdicts, names, under, others.as_slice())
        }
        Form::Compared { left, right, .. } => {
            note_expression(verdicts, names, under, left.get())?;
            note_expression(verdicts, names, under, right.get())
        }
    }
}

/// What the operands of a chain behind the first owe.
#[cycle(expression)]
fn note_operands(
    verdicts: &mut Verdicts<'_>,
    names: &Names<'_>,
    under: &Under<'_>,
    others: &[Operand],
) -> Result<(), NoMemory>
    ensures { OnOk result (verdicts.new ≡ all_noted verdicts.old (flat_map (λ u. owes_of names.now under.now u.operand ++ division u.operator u.at (under.now.pc.now ++ labels_of names.now u.operand) under.now.failure) others.now)) }
{
    for other in others {
        note_expression(verdicts, names, under, &other.operand)?;
        note_division(verdicts, names, under, other)?;
    }
    Ok(())
}
