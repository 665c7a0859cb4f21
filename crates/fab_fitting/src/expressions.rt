//! The numbers in expressions. Who reads a number knows that it fits its type.
ghost use Rattle.std.specs.List.{flat_map};
ghost use Rattle.fab_settings.specs.Numbers.{AllFit, IsSmall, in_expression};
ghost use Rattle.fab_tree.specs.Numbers.{number_value};

use fab_tree::Number;
use fab_tree::resolved::{Expression, Form, Operand};

/// Reads a number.
fn read_number(number: &Number)
    ensures { IsSmall (number_value number.now) }
{
    match number {
        Number::Int(n) => {
            let _n = *n;
        }
    }
}

/// Reads the numbers in an expression.
#[cycle(expression)]
pub(crate) fn read_expression(expression: &Expression)
    ensures { AllFit (in_expression expression.now) }
{
    match &expression.form {
        Form::Number(number) => read_number(number),
        Form::Null | Form::Local(_) | Form::Read { .. } => {}
        Form::Unary { operand, .. } => read_expression(operand.get()),
        Form::Chain { first, others } => {
            read_expression(first.get());
            read_operands(others.as_slice());
        }
        Form::Compared { left, right, .. } => {
            read_expression(left.get());
            read_expression(right.get());
        }
    }
}

/// Reads the numbers in the operands of a chain behind the first.
#[cycle(expression)]
fn read_operands(others: &[Operand])
    ensures { AllFit (flat_map (λ u. in_expression u.operand) others.now) }
{
    for other in others {
        read_expression(&other.operand);
    }
}

/// Reads the numbers in arguments.
pub(crate) fn read_arguments(arguments: &[Expression])
    ensures { AllFit (flat_map in_expression arguments.now) }
{
    for argument in arguments {
        read_expression(argument);
    }
}
