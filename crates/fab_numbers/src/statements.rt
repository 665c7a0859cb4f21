//! Statements with numbers for names.
ghost use Rattle.fab_language.specs.MethodNumbers.{block_of, expression_of, expressions_of, made_of, right_of, statement_of};
ghost use Rattle.fab_language.specs.Uses.{local_number, method_use};
ghost use Rattle.fab_tree.specs.declared.resolved.Right.TheVariants.{Plain};
ghost use Rattle.fab_tree.specs.declared.resolved.Statement.TheVariants as numbered;
ghost use Rattle.fab_tree.specs.declared.statement.Statement.TheVariants.{Write, If, While, Atomic};
ghost use Rattle.fab_numbers.specs.Gives.{Gives};

use crate::declarations::{label_use, method_use};
use crate::expressions::{numbered_expression, numbered_expressions};
use crate::rights::numbered_right;
use crate::scope::Scope;
use crate::sites::{Refusal, next_site};
use fab_base::Seq;
use fab_tree::resolved::{Right as NumberedRight, Statement as NumberedStatement};
use fab_tree::{Expression, Name, Right, Statement};
use std::alloc::Global;

/// The statements of a block.
#[cycle(block)]
pub(crate) fn numbered_block(
    alloc: Global,
    scope: &Scope<'_, '_>,
    sites: &mut u16,
    block: &[Statement],
) -> Result<Seq<NumberedStatement>, Refusal>
    ensures { Gives result sites.new (block_of scope.now.tables.now scope.now.locals block.now sites.old) }
{
    let mut made = Seq::from_vec(Vec::with_capacity(alloc, block.len())?);
    for statement in block {
        let one = numbered_statement(alloc, scope, sites, statement)?;
        made.push(one)?;
    }
    Ok(made)
}

#[cycle(block)]
fn numbered_statement(
    alloc: Global,
    scope: &Scope<'_, '_>,
    sites: &mut u16,
    statement: &Statement,
) -> Result<NumberedStatement, Refusal>
    ensures { Gives result sites.new (statement_of scope.now.tables.now scope.now.locals statement.now sites.old) }
{
    match statement {
        Statement::Declare {
            name,
            value,
            at,
            ..
        } => numbered_declaration(alloc, scope, sites, name, value, *at),
        Statement::Assign { name, right } => numbered_assignment(alloc, scope, sites, name, right),
        Statement::Write {
            object,
            field,
            value,
        } => numbered_write(alloc, scope, sites, object, field, value),
        Statement::Call { method, arguments } => {
            numbered_call(alloc, scope, sites, method, arguments.as_slice())
        }
        Statement::If {
            condition,
            block,
            otherwise,
        } => numbered_choice(alloc, scope, sites, condition, block, otherwise),
        Statement::While { condition, block } => {
            numbered_loop(alloc, scope, sites, condition, block)
        }
        Statement::Atomic {
            label,
            block,
            otherwise,
            at,
        } => numbered_atomic(alloc, scope, sites, label, block, otherwise, *at),
        Statement::Fail { at } => Ok(NumberedStatement::Fail { at: *at }),
    }
}

/// What a declared local gets.
fn numbered_declaration(
    alloc: Global,
    scope: &Scope<'_, '_>,
    sites: &mut u16,
    name: &Name,
    value: &Expression,
    at: u32,
) -> Result<NumberedStatement, Refusal>
    ensures { Gives result sites.new (made_of (λ v. numbered.Assign (local_number scope.now.locals name.now) (Plain v) at) (expression_of scope.now.tables.now scope.now.locals value.now) sites.old) }
{
    Ok(NumberedStatement::Assign {
        local: scope.locals.number(name),
        right: NumberedRight::Plain(numbered_expression(alloc, scope, sites, value)?),
        at,
    })
}

/// What a local gets.
fn numbered_assignment(
    alloc: Global,
    scope: &Scope<'_, '_>,
    sites: &mut u16,
    name: &Name,
    right: &Right,
) -> Result<NumberedStatement, Refusal>
    ensures { Gives result sites.new (made_of (λ v. numbered.Assign (local_number scope.now.locals name.now) v name.now.at) (right_of scope.now.tables.now scope.now.locals right.now) sites.old) }
{
    Ok(NumberedStatement::Assign {
        local: scope.locals.number(name),
        right: numbered_right(alloc, scope, sites, right)?,
        at: name.at,
    })
}

/// A method is called for what it does.
fn numbered_call(
    alloc: Global,
    scope: &Scope<'_, '_>,
    sites: &mut u16,
    method: &Name,
    arguments: &[Expression],
) -> Result<NumberedStatement, Refusal>
    ensures { Gives result sites.new (made_of (numbered.Call (method_use scope.now.tables.now method.now)) (expressions_of scope.now.tables.now scope.now.locals arguments.now) sites.old) }
{
    Ok(NumberedStatement::Call {
        method: method_use(scope.tables, method),
        arguments: numbered_expressions(alloc, scope, sites, arguments)?,
    })
}

/// What a field gets. The write takes its site before what is written takes its own.
fn numbered_write(
    alloc: Global,
    scope: &Scope<'_, '_>,
    sites: &mut u16,
    object: &Name,
    field: &Name,
    value: &Expression,
) -> Result<NumberedStatement, Refusal>
    ensures { Gives result sites.new (statement_of scope.now.tables.now scope.now.locals (Write object.now field.now value.now) sites.old) }
{
    let site = next_site(sites)?;
    let written = numbered_expression(alloc, scope, sites, value)?;
    Ok(NumberedStatement::Write {
        object: scope.locals.local_use(object),
        field: scope.field_number(object, field),
        value: written,
        site,
    })
}

#[cycle(block)]
fn numbered_choice(
    alloc: Global,
    scope: &Scope<'_, '_>,
    sites: &mut u16,
    condition: &Expression,
    block: &Seq<Statement>,
    otherwise: &Option<Seq<Statement>>,
) -> Result<NumberedStatement, Refusal>
    ensures { Gives result sites.new (statement_of scope.now.tables.now scope.now.locals (If condition.now block.now otherwise.now) sites.old) }
{
    Ok(NumberedStatement::If {
        condition: numbered_expression(alloc, scope, sites, condition)?,
        block: numbered_block(alloc, scope, sites, block.as_slice())?,
        otherwise: match otherwise {
            Some(other) => numbered_block(alloc, scope, sites, other.as_slice())?,
            None => Seq::new(alloc),
        },
    })
}

#[cycle(block)]
fn numbered_loop(
    alloc: Global,
    scope: &Scope<'_, '_>,
    sites: &mut u16,
    condition: &Expression,
    block: &Seq<Statement>,
) -> Result<NumberedStatement, Refusal>
    ensures { Gives result sites.new (statement_of scope.now.tables.now scope.now.locals (While condition.now block.now) sites.old) }
{
    Ok(NumberedStatement::While {
        condition: numbered_expression(alloc, scope, sites, condition)?,
        block: numbered_block(alloc, scope, sites, block.as_slice())?,
    })
}

#[cycle(block)]
fn numbered_atomic(
    alloc: Global,
    scope: &Scope<'_, '_>,
    sites: &mut u16,
    label: &Name,
    block: &Seq<Statement>,
    otherwise: &Seq<Statement>,
    at: u32,
) -> Result<NumberedStatement, Refusal>
    ensures { Gives result sites.new (statement_of scope.now.tables.now scope.now.locals (Atomic label.now block.now otherwise.now at) sites.old) }
{
    Ok(NumberedStatement::Atomic {
        label: label_use(scope.tables, label),
        block: numbered_block(alloc, scope, sites, block.as_slice())?,
        otherwise: numbered_block(alloc, scope, sites, otherwise.as_slice())?,
        at,
    })
}
