//! What calls owe, and what values owe that are given to something.
ghost use Rattle.std.specs.Prelude.{◌≡◌, ◌++◌, OnOk};
ghost use Rattle.fab_labelling.specs.Obligations.{failing, for_each};
ghost use Rattle.fab_check.specs.Noted.{all_noted};
ghost use Rattle.fab_check.specs.Shown.{all_given, call_owes, given, making};

use crate::expressions::note_expression;
use crate::labels::{Names, class_at, labels_under, parameter_labels};
use crate::notes::{Under, note_confs, note_failures, note_flows};
use crate::scope::{Scope, method_at};
use crate::verdicts::Verdicts;
use fab_base::NoMemory;
use fab_labelling::LabelRule;
use fab_tree::resolved::{Class, Expression, Method, Use};

/// A value is given to what has this label.
#[tactic(auto, using(crate::proofs::Parts::in_parts))]
fn note_given(
    verdicts: &mut Verdicts<'_>,
    names: &Names<'_>,
    under: &Under<'_>,
    value: &Expression,
    to: u16,
) -> Result<(), NoMemory>
    ensures { OnOk result (verdicts.new ≡ all_noted verdicts.old (given names.now under.now value.now to)) }
{
    note_expression(verdicts, names, under, value)?;
    let from = labels_under(verdicts.alloc(), names, under.pc, value)?;
    note_flows(verdicts, LabelRule::Write, value.at, from.as_slice(), to);
    Ok(())
}

/// Values are given in turn to what has these labels.
fn note_all_given(
    verdicts: &mut Verdicts<'_>,
    names: &Names<'_>,
    under: &Under<'_>,
    values: &[Expression],
    to: &[u16],
) -> Result<(), NoMemory>
    ensures { OnOk result (verdicts.new ≡ all_noted verdicts.old (all_given names.now under.now values.now to.now)) }
{
    let mut to = to;
    for value in values {
        match to.split_first() {
            None => note_expression(verdicts, names, under, value)?,
            Some((label, after)) => {
                note_given(verdicts, names, under, value, *label)?;
                to = after;
            }
        }
    }
    Ok(())
}

/// Values are given to what has the one label.
fn note_each_given(
    verdicts: &mut Verdicts<'_>,
    names: &Names<'_>,
    under: &Under<'_>,
    values: &[Expression],
    to: u16,
) -> Result<(), NoMemory>
    ensures { OnOk result (verdicts.new ≡ all_noted verdicts.old (all_given names.now under.now values.now (for_each to values.now))) }
{
    for value in values {
        note_given(verdicts, names, under, value, to)?;
    }
    Ok(())
}

/// A method that may fail fails at its caller.
#[tactic(auto, using(crate::proofs::Parts::in_none))]
fn note_failing(verdicts: &mut Verdicts<'_>, method: &Method, at: u32, failure: Option<u16>)
    ensures { verdicts.new ≡ all_noted verdicts.old (failing method.now at failure) }
{
    if method.fails {
        note_failures(verdicts, at, &[method.begin.number], failure);
    }
}

/// A method is called.
#[tactic(auto, using(crate::proofs::Parts::in_parts))]
pub(crate) fn note_call(
    verdicts: &mut Verdicts<'_>,
    scope: &Scope<'_>,
    under: &Under<'_>,
    method: Use,
    arguments: &[Expression],
) -> Result<(), NoMemory>
    ensures { OnOk result (verdicts.new ≡ all_noted verdicts.old (call_owes scope.now under.now method arguments.now)) }
{
    match method_at(scope, method.number) {
        None => note_all_given(verdicts, &scope.names, under, arguments, &[]),
        Some(called) => {
            let to = parameter_labels(verdicts.alloc(), called)?;
            note_flows(
                verdicts,
                LabelRule::Begin,
                method.at,
                under.pc,
                called.begin.number,
            );
            note_failing(verdicts, called, method.at, under.failure);
            note_all_given(verdicts, &scope.names, under, arguments, to.as_slice())
        }
    }
}

/// An object is made of values.
#[tactic(auto, using(crate::proofs::Parts::in_parts))]
pub(crate) fn note_making(
    verdicts: &mut Verdicts<'_>,
    scope: &Scope<'_>,
    under: &Under<'_>,
    at: u32,
    arguments: &[Expression],
    class: Use,
) -> Result<(), NoMemory>
    ensures { OnOk result (verdicts.new ≡ all_noted verdicts.old (making scope.now under.now at arguments.now class)) }
{
    match class_at(&scope.names, class.number) {
        None => note_all_given(verdicts, &scope.names, under, arguments, &[]),
        Some(class) => {
            note_flows(verdicts, LabelRule::Write, at, under.pc, class.label.number);
            note_confs(verdicts, at, under.pc, class.access.number);
            note_each_given(verdicts, &scope.names, under, arguments, class.label.number)
        }
    }
}
