//! What assignments owe.
ghost use Rattle.std.specs.Prelude.{◌≡◌, ◌++◌, ◌∷◌, [], OnOk};
ghost use Rattle.fab_labelling.specs.Obligations.{all_flow};
ghost use Rattle.fab_labelling.specs.declared.rule.LabelRule.TheVariants.{Write as OfWrite};
ghost use Rattle.fab_check.specs.Noted.{all_noted};
ghost use Rattle.fab_check.specs.Shown.{assigning, downgrading, labels_of, owes_of, reaching, returned, right_labels, right_owes, writing};

use crate::calls::{note_call, note_making};
use crate::downgrades::note_downgrade;
use crate::expressions::{note_expression, note_reaching};
use crate::labels::{class_behind, local_at, put_labels, put_local};
use crate::notes::{Under, note_flows};
use crate::placement::note_placement;
use crate::scope::{Scope, method_at};
use crate::verdicts::Verdicts;
use fab_base::{NoMemory, Seq};
use fab_labelling::LabelRule;
use fab_tree::Downgrade;
use fab_tree::resolved::{Expression, Right, Use};

/// The label of what a method returns.
fn put_returned(scope: &Scope<'_>, out: &mut Seq<u16>, method: Use) -> Result<(), NoMemory>
    ensures { OnOk result (out.new ≡ out.old ++ returned scope.now method) }
{
    match method_at(scope, method.number) {
        None => Ok(()),
        Some(called) => match called.returns {
            None => Ok(()),
            Some(returns) => out.push(returns.label.number),
        },
    }
}

/// The labels of what is assigned.
fn put_right(scope: &Scope<'_>, out: &mut Seq<u16>, right: &Right) -> Result<(), NoMemory>
    ensures { OnOk result (out.new ≡ out.old ++ right_labels scope.now right.now) }
{
    match right {
        Right::Plain(value) => put_labels(&scope.names, out, value),
        Right::Call { method, .. } => put_returned(scope, out, *method),
        Right::New { .. } => Ok(()),
        Right::Downgrade { to, .. } => out.push(to.number),
    }
}

/// A value is downgraded from the one label to the other.
#[tactic(auto, using(crate::proofs::Parts::in_parts))]
fn note_downgraded(
    verdicts: &mut Verdicts<'_>,
    scope: &Scope<'_>,
    under: &Under<'_>,
    downgrade: Downgrade,
    value: &Expression,
    labels: (u16, u16),
    at: u32,
) -> Result<(), NoMemory>
    ensures { OnOk result (verdicts.new ≡ all_noted verdicts.old (owes_of scope.now.names under.now value.now ++ all_flow OfWrite at (labels_of scope.now.names value.now) labels.0 ++ downgrading scope.now downgrade at labels.0 labels.1 ∷ [])) }
{
    let (from, to) = labels;
    note_expression(verdicts, &scope.names, under, value)?;
    let mut read = Seq::new(verdicts.alloc());
    put_labels(&scope.names, &mut read, value)?;
    note_flows(verdicts, LabelRule::Write, at, read.as_slice(), from);
    note_downgrade(verdicts, scope, downgrade, at, from, to);
    Ok(())
}

/// What is assigned.
#[tactic(auto, using(crate::proofs::Parts::in_parts))]
fn note_right(
    verdicts: &mut Verdicts<'_>,
    scope: &Scope<'_>,
    under: &Under<'_>,
    right: &Right,
) -> Result<(), NoMemory>
    ensures { OnOk result (verdicts.new ≡ all_noted verdicts.old (right_owes scope.now under.now right.now)) }
{
    match right {
        Right::Plain(value) => note_expression(verdicts, &scope.names, under, value),
        Right::Call { method, arguments } => {
            note_call(verdicts, scope, under, *method, arguments.as_slice())
        }
        Right::New {
            class,
            store,
            arguments,
            at,
            ..
        } => {
            note_placement(verdicts, *at, store.number, class.number);
            note_making(verdicts, scope, under, *at, arguments.as_slice(), *class)
        }
        Right::Downgrade {
            downgrade,
            value,
            from,
            to,
            at,
            ..
        } => {
            let labels = (from.number, to.number);
            note_downgraded(verdicts, scope, under, *downgrade, value, labels, *at)
        }
    }
}

/// A local is assigned.
#[tactic(auto, using(crate::proofs::Parts::in_parts, crate::proofs::Parts::in_none))]
pub(crate) fn note_assignment(
    verdicts: &mut Verdicts<'_>,
    scope: &Scope<'_>,
    under: &Under<'_>,
    local: u16,
    right: &Right,
    at: u32,
) -> Result<(), NoMemory>
    ensures { OnOk result (verdicts.new ≡ all_noted verdicts.old (assigning scope.now under.now local right.now at)) }
{
    note_right(verdicts, scope, under, right)?;
    if let Some(found) = local_at(&scope.names, local) {
        let mut from = Seq::from_slice(verdicts.alloc(), under.pc)?;
        put_right(scope, &mut from, right)?;
        note_flows(
            verdicts,
            LabelRule::Write,
            at,
            from.as_slice(),
            found.label.number,
        );
    }
    Ok(())
}

/// A field of what a local refers to takes a value.
#[tactic(auto, using(crate::proofs::Parts::in_none))]
fn note_writing(
    verdicts: &mut Verdicts<'_>,
    scope: &Scope<'_>,
    under: &Under<'_>,
    object: Use,
    value: &Expression,
) -> Result<(), NoMemory>
    ensures { OnOk result (verdicts.new ≡ all_noted verdicts.old (writing scope.now under.now object value.now)) }
{
    if let Some(class) = class_behind(&scope.names, object) {
        let mut from = Seq::from_slice(verdicts.alloc(), under.pc)?;
        put_local(&scope.names, &mut from, object)?;
        put_labels(&scope.names, &mut from, value)?;
        note_flows(
            verdicts,
            LabelRule::Write,
            object.at,
            from.as_slice(),
            class.label.number,
        );
    }
    Ok(())
}

/// A field of what a local refers to is written.
#[tactic(auto, using(crate::proofs::Parts::in_parts))]
pub(crate) fn note_write(
    verdicts: &mut Verdicts<'_>,
    scope: &Scope<'_>,
    under: &Under<'_>,
    object: Use,
    value: &Expression,
) -> Result<(), NoMemory>
    ensures { OnOk result (verdicts.new ≡ all_noted verdicts.old (owes_of scope.now.names under.now value.now ++ reaching scope.now.names under.now object ++ writing scope.now under.now object value.now)) }
{
    note_expression(verdicts, &scope.names, under, value)?;
    note_reaching(verdicts, &scope.names, under, object)?;
    note_writing(verdicts, scope, under, object, value)
}
