//! The labels under which each site stands.
ghost use Rattle.std.specs.Prelude.{◌≡◌, ◌∷◌, [], ◌++◌, IfOk, OnOk, map};
ghost use Rattle.std.specs.List.{flat_map};
ghost use Rattle.fab_labelling.specs.Sites.{block_sites, method_sites, pcs_of, return_sites, right_sites, sited, sites_in, sites_of};
ghost use Rattle.fab_check.specs.Sited.{all_sited, with_sites};

use crate::labels::Names;
use crate::statements::{inside, inside_condition};
use fab_base::{NoMemory, Seq};
use fab_tree::resolved::{Expression, Form, Method, Operand, Resolved, Return, Right, Statement};
use std::alloc::Global;

/// One more site under these labels.
fn put_site(alloc: Global, out: &mut Seq<Seq<u16>>, pc: &[u16]) -> Result<(), NoMemory>
    ensures { OnOk result (out.new ≡ out.old ++ pc.now ∷ []) }
{
    let labels = Seq::from_slice(alloc, pc)?;
    out.push(labels)
}

/// The sites in an expression.
#[cycle(sites)]
#[tactic(auto, using(crate::proofs::Sitings::sites_in_parts, crate::proofs::Sitings::no_sites, crate::proofs::Sitings::one_site))]
fn put_expression(
    alloc: Global,
    out: &mut Seq<Seq<u16>>,
    pc: &[u16],
    expression: &Expression,
) -> Result<(), NoMemory>
    ensures { OnOk result (out.new ≡ with_sites out.old pc.now (sites_in expression.now)) }
{
    match &expression.form {
        Form::Number(_) | Form::Null | Form::Local(_) => Ok(()),
        Form::Read { .. } => put_site(alloc, out, pc),
        Form::Unary { operand, .. } => { put_expression(alloc, out, pc, operand.get()) }
        Form::Chain { first, others } => {
            put_expression(alloc, out, pc, first.get())?;
            put_operands(alloc, out, pc, others.as_slice())
        }
        Form::Compared { left, right, .. } => {
            put_expression(alloc, out, pc, left.get())?;
            put_expression(alloc, out, pc, right.get())
        }
    }
}

/// The sites in the operands of a chain behind the first.
#[cycle(sites)]
fn put_operands(
    alloc: Global,
    out: &mut Seq<Seq<u16>>,
    pc: &[u16],
    others: &[Operand],
) -> Result<(), NoMemory>
    ensures { OnOk result (out.new ≡ with_sites out.old pc.now (flat_map (λ u. sites_in u.operand) others.now)) }
{
    for other in others {
        put_expression(alloc, out, pc, &other.operand)?;
    }
    Ok(())
}

/// The sites in arguments.
fn put_arguments(
    alloc: Global,
    out: &mut Seq<Seq<u16>>,
    pc: &[u16],
    arguments: &[Expression],
) -> Result<(), NoMemory>
    ensures { OnOk result (out.new ≡ with_sites out.old pc.now (flat_map sites_in arguments.now)) }
{
    for argument in arguments {
        put_expression(alloc, out, pc, argument)?;
    }
    Ok(())
}

/// The sites in what is assigned.
#[tactic(auto, using(crate::proofs::Sitings::site_first))]
fn put_right(
    alloc: Global,
    out: &mut Seq<Seq<u16>>,
    pc: &[u16],
    right: &Right,
) -> Result<(), NoMemory>
    ensures { OnOk result (out.new ≡ with_sites out.old pc.now (right_sites right.now)) }
{
    match right {
        Right::Plain(value) => put_expression(alloc, out, pc, value),
        Right::Call { arguments, .. } => put_arguments(alloc, out, pc, arguments.as_slice()),
        Right::New { arguments, .. } => {
            put_site(alloc, out, pc)?;
            put_arguments(alloc, out, pc, arguments.as_slice())
        }
        Right::Downgrade { value, .. } => {
            put_site(alloc, out, pc)?;
            put_expression(alloc, out, pc, value)
        }
    }
}

/// A field is written.
fn put_write(
    alloc: Global,
    out: &mut Seq<Seq<u16>>,
    pc: &[u16],
    value: &Expression,
) -> Result<(), NoMemory>
    ensures { OnOk result (out.new ≡ with_sites (out.old ++ pc.now ∷ []) pc.now (sites_in value.now)) }
{
    put_site(alloc, out, pc)?;
    put_expression(alloc, out, pc, value)
}

/// The sites in a block.
#[cycle(blocks)]
fn put_block(
    alloc: Global,
    names: &Names<'_>,
    out: &mut Seq<Seq<u16>>,
    pc: &[u16],
    statements: &[Statement],
) -> Result<(), NoMemory>
    ensures { OnOk result (out.new ≡ all_sited out.old (block_sites names.now.classes.now names.now.locals.now statements.now pc.now)) }
{
    for statement in statements {
        put_statement(alloc, names, out, pc, statement)?;
    }
    Ok(())
}

/// The sites in a statement.
#[cycle(blocks)]
#[tactic(auto, using(crate::proofs::Sitings::sited_in_parts, crate::proofs::Sitings::site_first, crate::proofs::Sitings::none_sited))]
fn put_statement(
    alloc: Global,
    names: &Names<'_>,
    out: &mut Seq<Seq<u16>>,
    pc: &[u16],
    statement: &Statement,
) -> Result<(), NoMemory>
    ensures { OnOk result (out.new ≡ all_sited out.old (sited names.now.classes.now names.now.locals.now statement.now pc.now)) }
{
    match statement {
        Statement::Assign { right, .. } => put_right(alloc, out, pc, right),
        Statement::Write { value, .. } => put_write(alloc, out, pc, value),
        Statement::Call { arguments, .. } => put_arguments(alloc, out, pc, arguments.as_slice()),
        Statement::If {
            condition,
            block,
            otherwise,
        } => {
            put_expression(alloc, out, pc, condition)?;
            let inner = inside_condition(alloc, names, pc, condition)?;
            put_block(alloc, names, out, inner.as_slice(), block.as_slice())?;
            put_block(alloc, names, out, inner.as_slice(), otherwise.as_slice())
        }
        Statement::While { condition, block } => {
            put_expression(alloc, out, pc, condition)?;
            let inner = inside_condition(alloc, names, pc, condition)?;
            put_block(alloc, names, out, inner.as_slice(), block.as_slice())
        }
        Statement::Atomic {
            label,
            block,
            otherwise,
            ..
        } => {
            let inner = inside(alloc, pc, &[label.number])?;
            put_block(alloc, names, out, inner.as_slice(), block.as_slice())?;
            put_block(alloc, names, out, inner.as_slice(), otherwise.as_slice())
        }
        Statement::Fail { .. } => Ok(()),
    }
}

/// The sites in what is returned.
#[tactic(auto, using(crate::proofs::Sitings::none_sited))]
fn put_return(
    alloc: Global,
    out: &mut Seq<Seq<u16>>,
    pc: &[u16],
    returned: &Option<Return>,
) -> Result<(), NoMemory>
    ensures { OnOk result (out.new ≡ with_sites out.old pc.now (return_sites returned.now)) }
{
    match returned {
        None => Ok(()),
        Some(returned) => put_expression(alloc, out, pc, &returned.value),
    }
}

/// The sites in a method.
#[tactic(auto, using(crate::proofs::Sitings::sited_in_parts))]
fn put_method(
    alloc: Global,
    out: &mut Seq<Seq<u16>>,
    start: &Resolved,
    method: &Method,
) -> Result<(), NoMemory>
    ensures { OnOk result (out.new ≡ all_sited out.old (method_sites start.now.classes method.now)) }
{
    let names = Names {
        classes: start.classes.as_slice(),
        locals: method.locals.as_slice(),
    };
    let pc = [method.begin.number];
    put_block(alloc, &names, out, &pc, method.body.as_slice())?;
    put_return(alloc, out, &pc, &method.result)
}

/// The labels of each site of a program, in the order of the text.
#[tactic(auto, unfolding(crate::specs::Sited::all_sited))]
pub(crate) fn pcs_of(alloc: Global, start: &Resolved) -> Result<Seq<Seq<u16>>, NoMemory>
    ensures { IfOk result (λ pcs. pcs ≡ pcs_of start.now) }
{
    let mut pcs = Seq::new(alloc);
    put_methods(alloc, &mut pcs, start)?;
    Ok(pcs)
}

/// The sites in all methods.
fn put_methods(alloc: Global, out: &mut Seq<Seq<u16>>, start: &Resolved) -> Result<(), NoMemory>
    ensures { OnOk result (out.new ≡ all_sited out.old (sites_of start.now)) }
{
    for method in start.methods.as_slice() {
        put_method(alloc, out, start, method)?;
    }
    Ok(())
}
