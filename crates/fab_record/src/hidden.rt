//! The sites of a program that are out of view.
ghost use Rattle.std.specs.Prelude.{◌≡◌, ◌∷◌, ◌++◌, IfOk, OnOk};
ghost use Rattle.std.specs.List.{flat_map};
ghost use Rattle.fab_labelling.specs.Sites.{return_sites, right_sites, sites_in};
ghost use Rattle.fab_rights.specs.Computed.{has_bit};
ghost use Rattle.fab_record.specs.Hidden.{hidden_method, hidden_sites, unless_seen};
ghost use Rattle.fab_record.specs.Scopes.{hidden_block, hidden_in};

use crate::scope::{Scope, sees_inside, sees_under};
use fab_base::{NoMemory, Seq};
use fab_rights::is_in;
use fab_tree::resolved::{Expression, Form, Method, Operand, Resolved, Return, Right, Statement};
use std::alloc::Global;

/// The sites in an expression.
#[cycle(sites)]
fn put_expression(out: &mut Seq<u16>, expression: &Expression) -> Result<(), NoMemory>
    ensures { OnOk result (out.new ≡ out.old ++ sites_in expression.now) }
{
    match &expression.form {
        Form::Number(_) | Form::Null | Form::Local(_) => Ok(()),
        Form::Read { site, .. } => out.push(*site),
        Form::Unary { operand, .. } => put_expression(out, operand.get()),
        Form::Chain { first, others } => {
            put_expression(out, first.get())?;
            put_operands(out, others.as_slice())
        }
        Form::Compared { left, right, .. } => {
            put_expression(out, left.get())?;
            put_expression(out, right.get())
        }
    }
}

/// The sites in the operands of a chain behind the first.
#[cycle(sites)]
fn put_operands(out: &mut Seq<u16>, others: &[Operand]) -> Result<(), NoMemory>
    ensures { OnOk result (out.new ≡ out.old ++ flat_map (λ u. sites_in u.operand) others.now) }
{
    for other in others {
        put_expression(out, &other.operand)?;
    }
    Ok(())
}

/// The sites in arguments.
fn put_arguments(out: &mut Seq<u16>, arguments: &[Expression]) -> Result<(), NoMemory>
    ensures { OnOk result (out.new ≡ out.old ++ flat_map sites_in arguments.now) }
{
    for argument in arguments {
        put_expression(out, argument)?;
    }
    Ok(())
}

/// A site, and behind it those in an expression.
fn put_with(out: &mut Seq<u16>, site: u16, value: &Expression) -> Result<(), NoMemory>
    ensures { OnOk result (out.new ≡ out.old ++ site ∷ sites_in value.now) }
{
    out.push(site)?;
    put_expression(out, value)
}

/// The sites in what is assigned.
fn put_right(out: &mut Seq<u16>, right: &Right) -> Result<(), NoMemory>
    ensures { OnOk result (out.new ≡ out.old ++ right_sites right.now) }
{
    match right {
        Right::Plain(value) => put_expression(out, value),
        Right::Call { arguments, .. } => put_arguments(out, arguments.as_slice()),
        Right::New {
            arguments,
            site,
            ..
        } => {
            out.push(*site)?;
            put_arguments(out, arguments.as_slice())
        }
        Right::Downgrade { value, site, .. } => put_with(out, *site, value),
    }
}

/// The sites in what is returned.
fn put_return(out: &mut Seq<u16>, returned: &Option<Return>) -> Result<(), NoMemory>
    ensures { OnOk result (out.new ≡ out.old ++ return_sites returned.now) }
{
    match returned {
        None => Ok(()),
        Some(returned) => put_expression(out, &returned.value),
    }
}

/// The sites in what is returned, unless what stands around it is seen.
fn hide_return(out: &mut Seq<u16>, returned: &Option<Return>, seen: bool) -> Result<(), NoMemory>
    ensures { OnOk result (out.new ≡ out.old ++ unless_seen seen (return_sites returned.now)) }
{
    if seen {
        Ok(())
    } else {
        put_return(out, returned)
    }
}

/// The sites in an expression, unless what stands around it is seen.
fn hide_expression(out: &mut Seq<u16>, expression: &Expression, seen: bool) -> Result<(), NoMemory>
    ensures { OnOk result (out.new ≡ out.old ++ unless_seen seen (sites_in expression.now)) }
{
    if seen {
        Ok(())
    } else {
        put_expression(out, expression)
    }
}

/// The sites in arguments, unless what stands around them is seen.
fn hide_arguments(out: &mut Seq<u16>, arguments: &[Expression], seen: bool) -> Result<(), NoMemory>
    ensures { OnOk result (out.new ≡ out.old ++ unless_seen seen (flat_map sites_in arguments.now)) }
{
    if seen {
        Ok(())
    } else {
        put_arguments(out, arguments)
    }
}

/// The sites in what is assigned, unless what stands around it is seen.
fn hide_right(out: &mut Seq<u16>, right: &Right, seen: bool) -> Result<(), NoMemory>
    ensures { OnOk result (out.new ≡ out.old ++ unless_seen seen (right_sites right.now)) }
{
    if seen { Ok(()) } else { put_right(out, right) }
}

/// The site at which a value is written and those in the value, unless what stands around them is seen.
fn hide_write(out: &mut Seq<u16>, site: u16, value: &Expression, seen: bool) -> Result<(), NoMemory>
    ensures { OnOk result (out.new ≡ out.old ++ unless_seen seen (site ∷ sites_in value.now)) }
{
    if seen {
        Ok(())
    } else {
        put_with(out, site, value)
    }
}

/// The sites of a block that are out of view, if what stands around it is seen or not.
#[cycle(blocks)]
fn hide_block(
    scope: &Scope<'_>,
    out: &mut Seq<u16>,
    statements: &[Statement],
    seen: bool,
) -> Result<(), NoMemory>
    ensures { OnOk result (out.new ≡ out.old ++ hidden_block scope.now statements.now seen) }
{
    for statement in statements {
        hide_statement(scope, out, statement, seen)?;
    }
    Ok(())
}

/// The sites of a statement that are out of view.
#[cycle(blocks)]
fn hide_statement(
    scope: &Scope<'_>,
    out: &mut Seq<u16>,
    statement: &Statement,
    seen: bool,
) -> Result<(), NoMemory>
    ensures { OnOk result (out.new ≡ out.old ++ hidden_in scope.now statement.now seen) }
{
    match statement {
        Statement::Assign { right, .. } => hide_right(out, right, seen),
        Statement::Write { value, site, .. } => hide_write(out, *site, value, seen),
        Statement::Call { arguments, .. } => hide_arguments(out, arguments.as_slice(), seen),
        Statement::If {
            condition,
            block,
            otherwise,
        } => {
            hide_expression(out, condition, seen)?;
            let inside = sees_inside(scope, condition, seen);
            hide_block(scope, out, block.as_slice(), inside)?;
            hide_block(scope, out, otherwise.as_slice(), inside)
        }
        Statement::While { condition, block } => {
            hide_expression(out, condition, seen)?;
            let inside = sees_inside(scope, condition, seen);
            hide_block(scope, out, block.as_slice(), inside)
        }
        Statement::Atomic {
            label,
            block,
            otherwise,
            ..
        } => {
            let inside = sees_under(scope, label.number, seen);
            hide_block(scope, out, block.as_slice(), inside)?;
            hide_block(scope, out, otherwise.as_slice(), inside)
        }
        Statement::Fail { .. } => Ok(()),
    }
}

/// The sites of a method that are out of view.
fn hide_method(
    out: &mut Seq<u16>,
    labels: u64,
    start: &Resolved,
    method: &Method,
) -> Result<(), NoMemory>
    ensures { OnOk result (out.new ≡ out.old ++ hidden_method (has_bit labels) start.now.classes method.now) }
{
    let scope = Scope {
        labels,
        classes: start.classes.as_slice(),
        locals: method.locals.as_slice(),
    };
    let seen = is_in(labels, method.begin.number);
    hide_block(&scope, out, method.body.as_slice(), seen)?;
    hide_return(out, &method.result, seen)
}

/// The sites of all methods that are out of view.
fn hide_methods(out: &mut Seq<u16>, labels: u64, start: &Resolved) -> Result<(), NoMemory>
    ensures { OnOk result (out.new ≡ out.old ++ hidden_sites (has_bit labels) start.now) }
{
    for method in start.methods.as_slice() {
        hide_method(out, labels, start, method)?;
    }
    Ok(())
}

/// The sites of a program that are out of view of who sees these labels.
pub(crate) fn hidden_sites(
    alloc: Global,
    start: &Resolved,
    labels: u64,
) -> Result<Seq<u16>, NoMemory>
    ensures { IfOk result (λ sites. sites ≡ hidden_sites (has_bit labels) start.now) }
{
    let mut out = Seq::new(alloc);
    hide_methods(&mut out, labels, start)?;
    Ok(out)
}
