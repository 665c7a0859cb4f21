//! Expressions with numbers for names.
ghost use Rattle.std.specs.Prelude.{map};
ghost use Rattle.fab_language.specs.MethodNumbers.{in_turn, form_of, expression_of, expressions_of, operand_of};
ghost use Rattle.fab_numbers.specs.Gives.{Gives};

use crate::scope::Scope;
use crate::sites::{Refusal, next_site};
use fab_base::{Boxed, Seq};
use fab_tree::resolved::{
    Expression as NumberedExpression, Form as NumberedForm, Operand as NumberedOperand,
};
use fab_tree::{Expression, Form, Operand};
use std::alloc::Global;

/// Expressions one behind the other.
pub(crate) fn numbered_expressions(
    alloc: Global,
    scope: &Scope<'_, '_>,
    sites: &mut u16,
    expressions: &[Expression],
) -> Result<Seq<NumberedExpression>, Refusal>
    ensures { Gives result sites.new (expressions_of scope.now.tables.now scope.now.locals expressions.now sites.old) }
{
    let mut made = Seq::from_vec(Vec::with_capacity(alloc, expressions.len())?);
    for expression in expressions {
        let one = numbered_expression(alloc, scope, sites, expression)?;
        made.push(one)?;
    }
    Ok(made)
}

#[cycle(expression)]
pub(crate) fn numbered_expression(
    alloc: Global,
    scope: &Scope<'_, '_>,
    sites: &mut u16,
    expression: &Expression,
) -> Result<NumberedExpression, Refusal>
    ensures { Gives result sites.new (expression_of scope.now.tables.now scope.now.locals expression.now sites.old) }
{
    let form = numbered_form(alloc, scope, sites, &expression.form)?;
    Ok(NumberedExpression {
        form,
        at: expression.at,
    })
}

#[cycle(expression)]
fn numbered_form(
    alloc: Global,
    scope: &Scope<'_, '_>,
    sites: &mut u16,
    form: &Form,
) -> Result<NumberedForm, Refusal>
    ensures { Gives result sites.new (form_of scope.now.tables.now scope.now.locals form.now sites.old) }
{
    match form {
        Form::Number(number) => Ok(NumberedForm::Number(*number)),
        Form::Null => Ok(NumberedForm::Null),
        Form::Local(name) => Ok(NumberedForm::Local(scope.locals.local_use(name))),
        Form::Read { object, field } => Ok(NumberedForm::Read {
            object: scope.locals.local_use(object),
            field: scope.field_number(object, field),
            site: next_site(sites)?,
        }),
        Form::Unary { operator, operand } => {
            let operand = numbered_boxed(alloc, scope, sites, operand)?;
            Ok(NumberedForm::Unary {
                operator: *operator,
                operand,
            })
        }
        Form::Chain { first, others } => Ok(NumberedForm::Chain {
            first: numbered_boxed(alloc, scope, sites, first)?,
            others: numbered_operands(alloc, scope, sites, others.as_slice())?,
        }),
        Form::Compared {
            left,
            comparison,
            right,
        } => Ok(NumberedForm::Compared {
            left: numbered_boxed(alloc, scope, sites, left)?,
            comparison: *comparison,
            right: numbered_boxed(alloc, scope, sites, right)?,
        }),
    }
}

/// An expression inside another.
#[cycle(expression)]
fn numbered_boxed(
    alloc: Global,
    scope: &Scope<'_, '_>,
    sites: &mut u16,
    expression: &Boxed<Expression>,
) -> Result<Boxed<NumberedExpression>, Refusal>
    ensures { Gives result sites.new (expression_of scope.now.tables.now scope.now.locals expression.now sites.old) }
{
    let inner = numbered_expression(alloc, scope, sites, expression.get())?;
    Ok(Boxed::make(alloc, inner)?)
}

/// The operands of a chain behind its first.
#[cycle(expression)]
fn numbered_operands(
    alloc: Global,
    scope: &Scope<'_, '_>,
    sites: &mut u16,
    others: &[Operand],
) -> Result<Seq<NumberedOperand>, Refusal>
    ensures { Gives result sites.new (in_turn (map (operand_of scope.now.tables.now scope.now.locals) others.now) sites.old) }
{
    let mut made = Seq::from_vec(Vec::with_capacity(alloc, others.len())?);
    for other in others {
        let operand = numbered_expression(alloc, scope, sites, &other.operand)?;
        made.push(NumberedOperand {
            operator: other.operator,
            at: other.at,
            operand,
        })?;
    }
    Ok(made)
}
