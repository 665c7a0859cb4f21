//! The numbers in the bodies of methods.
ghost use Rattle.std.specs.List.{flat_map};
ghost use Rattle.fab_settings.specs.Numbers.{AllFit, in_method, in_result, in_right, in_statement};

use crate::expressions::{read_arguments, read_expression};
use fab_tree::resolved::{Method, Return, Right, Statement};

/// Reads the numbers in what is assigned.
fn read_right(right: &Right)
    ensures { AllFit (in_right right.now) }
{
    match right {
        Right::Plain(value) | Right::Downgrade { value, .. } => read_expression(value),
        Right::Call { arguments, .. } => read_arguments(arguments.as_slice()),
        Right::New { arguments, .. } => read_arguments(arguments.as_slice()),
    }
}

/// Reads the numbers in a statement.
#[cycle(block)]
fn read_statement(statement: &Statement)
    ensures { AllFit (in_statement statement.now) }
{
    match statement {
        Statement::Assign { right, .. } => read_right(right),
        Statement::Write { value, .. } => read_expression(value),
        Statement::Call { arguments, .. } => read_arguments(arguments.as_slice()),
        Statement::If {
            condition,
            block,
            otherwise,
        } => {
            read_expression(condition);
            read_block(block.as_slice());
            read_block(otherwise.as_slice());
        }
        Statement::While { condition, block } => {
            read_expression(condition);
            read_block(block.as_slice());
        }
        Statement::Atomic {
            block,
            otherwise,
            ..
        } => {
            read_block(block.as_slice());
            read_block(otherwise.as_slice());
        }
        Statement::Fail { .. } => {}
    }
}

/// Reads the numbers in a block.
#[cycle(block)]
fn read_block(statements: &[Statement])
    ensures { AllFit (flat_map in_statement statements.now) }
{
    for statement in statements {
        read_statement(statement);
    }
}

/// Reads the numbers in what a method returns.
fn read_returned(returned: &Option<Return>)
    ensures { AllFit (in_result returned.now) }
{
    if let Some(returned) = returned {
        read_expression(&returned.value);
    }
}

/// Reads the numbers in a method.
fn read_method(method: &Method)
    ensures { AllFit (in_method method.now) }
{
    read_block(method.body.as_slice());
    read_returned(&method.result);
}

/// Reads the numbers in methods.
pub(crate) fn read_methods(methods: &[Method])
    ensures { AllFit (flat_map in_method methods.now) }
{
    for method in methods {
        read_method(method);
    }
}
