//! What statements owe.
ghost use Rattle.std.specs.Prelude.{◌≡◌, ◌==◌, ◌∷◌, [], IfOk, OnOk};
ghost use Rattle.std.specs.List.{list_any};
ghost use Rattle.fab_tree.specs.declared.resolved.Statement.TheVariants.{If, While, Atomic as AtomicBlock};
ghost use Rattle.fab_labelling.specs.Obligations.{all_flow, under as under_labels};
ghost use Rattle.fab_labelling.specs.declared.rule.LabelRule.TheVariants.{Atomic as OfAtomic};
ghost use Rattle.fab_check.specs.Noted.{all_noted};
ghost use Rattle.fab_check.specs.Shown.{block_owes, labels_of, owes_of, statement_owes};

use crate::assignments::{note_assignment, note_write};
use crate::calls::note_call;
use crate::expressions::note_expression;
use crate::labels::{Names, put_labels};
use crate::notes::{Under, note_failures, note_flows};
use crate::scope::Scope;
use crate::verdicts::Verdicts;
use fab_base::{NoMemory, Seq};
use fab_labelling::LabelRule;
use fab_tree::resolved::{Expression, Statement, Use};
use std::alloc::Global;

/// Whether a label is among these.
fn is_among(labels: &[u16], label: u16) -> bool
    ensures { result ≡ list_any (λ k. k == label) labels.now }
{
    let mut rest = labels;
    'labels: while let Some((other, after)) = rest.split_first() {
        if *other == label {
            return true;
        }
        rest = after;
    }
    false
}

/// These labels, and behind them each of the others that isn't among them yet.
pub(crate) fn inside(alloc: Global, pc: &[u16], labels: &[u16]) -> Result<Seq<u16>, NoMemory>
    ensures { IfOk result (λ found. found ≡ under_labels pc.now labels.now) }
{
    let mut found = Seq::from_slice(alloc, pc)?;
    let mut rest = labels;
    'labels: while let Some((label, after)) = rest.split_first() {
        if !is_among(found.as_slice(), *label) {
            found.push(*label)?;
        }
        rest = after;
    }
    Ok(found)
}

/// The labels that decide in a block whose condition is this expression.
pub(crate) fn inside_condition(
    alloc: Global,
    names: &Names<'_>,
    pc: &[u16],
    condition: &Expression,
) -> Result<Seq<u16>, NoMemory>
    ensures { IfOk result (λ found. found ≡ under_labels pc.now (labels_of names.now condition.now)) }
{
    let mut read = Seq::new(alloc);
    put_labels(names, &mut read, condition)?;
    inside(alloc, pc, read.as_slice())
}

/// A condition, with the labels that decide behind it.
fn note_condition(
    verdicts: &mut Verdicts<'_>,
    scope: &Scope<'_>,
    under: &Under<'_>,
    condition: &Expression,
) -> Result<Seq<u16>, NoMemory>
    ensures inside { IfOk result (λ found. found ≡ under_labels under.now.pc.now (labels_of scope.now.names condition.now)) }
    ensures owes { OnOk result (verdicts.new ≡ all_noted verdicts.old (owes_of scope.now.names under.now condition.now)) }
{
    note_expression(verdicts, &scope.names, under, condition)?;
    inside_condition(verdicts.alloc(), &scope.names, under.pc, condition)
}

/// An `atomic` begins, with the labels that decide in it.
fn note_attempt(
    verdicts: &mut Verdicts<'_>,
    under: &Under<'_>,
    label: Use,
    at: u32,
) -> Result<Seq<u16>, NoMemory>
    ensures inside { IfOk result (λ found. found ≡ under_labels under.now.pc.now (label.number ∷ [])) }
    ensures owes { OnOk result (verdicts.new ≡ all_noted verdicts.old (all_flow OfAtomic at under.now.pc.now label.number)) }
{
    note_flows(verdicts, LabelRule::Atomic, at, under.pc, label.number);
    inside(verdicts.alloc(), under.pc, &[label.number])
}

/// What the statements of a block owe.
#[cycle(block)]
pub(crate) fn note_block(
    verdicts: &mut Verdicts<'_>,
    scope: &Scope<'_>,
    under: &Under<'_>,
    statements: &[Statement],
) -> Result<(), NoMemory>
    ensures { OnOk result (verdicts.new ≡ all_noted verdicts.old (block_owes scope.now under.now.pc.now under.now.failure statements.now)) }
{
    for statement in statements {
        note_statement(verdicts, scope, under, statement)?;
    }
    Ok(())
}

/// What a statement owes.
#[cycle(block)]
#[tactic(auto, using(crate::proofs::Parts::in_parts))]
fn note_statement(
    verdicts: &mut Verdicts<'_>,
    scope: &Scope<'_>,
    under: &Under<'_>,
    statement: &Statement,
) -> Result<(), NoMemory>
    ensures { OnOk result (verdicts.new ≡ all_noted verdicts.old (statement_owes scope.now under.now statement.now)) }
{
    match statement {
        Statement::Assign { local, right, at } => {
            note_assignment(verdicts, scope, under, *local, right, *at)
        }
        Statement::Write { object, value, .. } => {
            note_write(verdicts, scope, under, *object, value)
        }
        Statement::Call { method, arguments } => {
            note_call(verdicts, scope, under, *method, arguments.as_slice())
        }
        Statement::If {
            condition,
            block,
            otherwise,
        } => note_choice(verdicts, scope, under, condition, block, otherwise),
        Statement::While { condition, block } => {
            note_loop(verdicts, scope, under, condition, block)
        }
        Statement::Atomic {
            label,
            block,
            otherwise,
            at,
        } => note_atomic(verdicts, scope, under, *label, block, otherwise, *at),
        Statement::Fail { at } => {
            note_failures(verdicts, *at, under.pc, under.failure);
            Ok(())
        }
    }
}

/// What a condition owes, and the blocks of which it decides which one runs.
#[cycle(block)]
#[tactic(auto, using(crate::proofs::Parts::in_parts))]
fn note_choice(
    verdicts: &mut Verdicts<'_>,
    scope: &Scope<'_>,
    under: &Under<'_>,
    condition: &Expression,
    block: &Seq<Statement>,
    otherwise: &Seq<Statement>,
) -> Result<(), NoMemory>
    ensures { OnOk result (verdicts.new ≡ all_noted verdicts.old (statement_owes scope.now under.now (If condition.now block.now otherwise.now))) }
{
    let pc = note_condition(verdicts, scope, under, condition)?;
    let inner = Under::of(&pc, under.failure);
    note_block(verdicts, scope, &inner, block.as_slice())?;
    note_block(verdicts, scope, &inner, otherwise.as_slice())
}

/// What a condition owes, and the block that runs as long as it is true.
#[cycle(block)]
#[tactic(auto, using(crate::proofs::Parts::in_parts))]
fn note_loop(
    verdicts: &mut Verdicts<'_>,
    scope: &Scope<'_>,
    under: &Under<'_>,
    condition: &Expression,
    block: &Seq<Statement>,
) -> Result<(), NoMemory>
    ensures { OnOk result (verdicts.new ≡ all_noted verdicts.old (statement_owes scope.now under.now (While condition.now block.now))) }
{
    let pc = note_condition(verdicts, scope, under, condition)?;
    let inner = Under::of(&pc, under.failure);
    note_block(verdicts, scope, &inner, block.as_slice())
}

/// What an `atomic` owes: its block may fail to its label, the other where it stands.
#[cycle(block)]
#[tactic(auto, using(crate::proofs::Parts::in_parts))]
fn note_atomic(
    verdicts: &mut Verdicts<'_>,
    scope: &Scope<'_>,
    under: &Under<'_>,
    label: Use,
    block: &Seq<Statement>,
    otherwise: &Seq<Statement>,
    at: u32,
) -> Result<(), NoMemory>
    ensures { OnOk result (verdicts.new ≡ all_noted verdicts.old (statement_owes scope.now under.now (AtomicBlock label block.now otherwise.now at))) }
{
    let pc = note_attempt(verdicts, under, label, at)?;
    let inner = Under::of(&pc, Some(label.number));
    note_block(verdicts, scope, &inner, block.as_slice())?;
    let behind = Under::of(&pc, under.failure);
    note_block(verdicts, scope, &behind, otherwise.as_slice())
}
