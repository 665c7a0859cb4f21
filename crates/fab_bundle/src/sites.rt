//! The sites of methods.
ghost use Rattle.std.specs.Prelude.{◌≡◌, ◌+◌, ◌<◌, MatchOption, length, flat_map};
ghost use Rattle.fab_tree.specs.Sites.{in_expression, in_expressions, in_right, in_statement, in_method};

use fab_tree::{Expression, Form, Method, Operand, Right, Statement};

/// What is left of a room after the sites of methods.
pub(crate) fn room_after_sites_of_methods(room: usize, methods: &[Method]) -> Option<usize>
    ensures { MatchOption result (room < length (flat_map in_method methods.now)) (λ left. left + length (flat_map in_method methods.now) ≡ room) }
{
    let mut left = room;
    for method in methods {
        left = room_after_method(left, method)?;
    }
    Some(left)
}

/// What is left of a room after the sites of a method.
fn room_after_method(room: usize, method: &Method) -> Option<usize>
    ensures { MatchOption result (room < length (in_method method.now)) (λ left. left + length (in_method method.now) ≡ room) }
{
    let left = room_after_block(room, method.body.as_slice())?;
    match &method.result {
        Some(result) => room_after_expression(left, &result.value),
        None => Some(left),
    }
}

/// What is left of a room after the sites of a block.
#[cycle(sites)]
fn room_after_block(room: usize, block: &[Statement]) -> Option<usize>
    ensures { MatchOption result (room < length (flat_map in_statement block.now)) (λ left. left + length (flat_map in_statement block.now) ≡ room) }
{
    let mut left = room;
    for statement in block {
        left = room_after_statement(left, statement)?;
    }
    Some(left)
}

/// What is left of a room after the sites of a statement.
#[cycle(sites)]
fn room_after_statement(room: usize, statement: &Statement) -> Option<usize>
    ensures { MatchOption result (room < length (in_statement statement.now)) (λ left. left + length (in_statement statement.now) ≡ room) }
{
    match statement {
        Statement::Declare { value, .. } => room_after_expression(room, value),
        Statement::Assign { right, .. } => room_after_right(room, right),
        Statement::Write { value, .. } => room_after_expression(room.checked_sub(1)?, value),
        Statement::Call { arguments, .. } => room_after_expressions(room, arguments.as_slice()),
        Statement::If {
            condition,
            block,
            otherwise,
        } => {
            let left = room_after_expression(room, condition)?;
            let left = room_after_block(left, block.as_slice())?;
            match otherwise {
                Some(other) => room_after_block(left, other.as_slice()),
                None => Some(left),
            }
        }
        Statement::While { condition, block } => {
            let left = room_after_expression(room, condition)?;
            room_after_block(left, block.as_slice())
        }
        Statement::Atomic {
            block,
            otherwise,
            ..
        } => {
            let left = room_after_block(room, block.as_slice())?;
            room_after_block(left, otherwise.as_slice())
        }
        Statement::Fail { .. } => Some(room),
    }
}

/// What is left of a room after the sites of what is assigned.
fn room_after_right(room: usize, right: &Right) -> Option<usize>
    ensures { MatchOption result (room < length (in_right right.now)) (λ left. left + length (in_right right.now) ≡ room) }
{
    match right {
        Right::Plain(value) => room_after_expression(room, value),
        Right::Call { arguments, .. } => room_after_expressions(room, arguments.as_slice()),
        Right::New { arguments, .. } => {
            room_after_expressions(room.checked_sub(1)?, arguments.as_slice())
        }
        Right::Downgrade { value, .. } => room_after_expression(room.checked_sub(1)?, value),
    }
}

/// What is left of a room after the sites of expressions.
fn room_after_expressions(room: usize, expressions: &[Expression]) -> Option<usize>
    ensures { MatchOption result (room < length (in_expressions expressions.now)) (λ left. left + length (in_expressions expressions.now) ≡ room) }
{
    let mut left = room;
    for expression in expressions {
        left = room_after_expression(left, expression)?;
    }
    Some(left)
}

/// What is left of a room after the sites of operands.
#[cycle(expression)]
fn room_after_operands(room: usize, operands: &[Operand]) -> Option<usize>
    ensures { MatchOption result (room < length (flat_map (λ u. in_expression u.operand) operands.now)) (λ left. left + length (flat_map (λ u. in_expression u.operand) operands.now) ≡ room) }
{
    let mut left = room;
    for other in operands {
        left = room_after_expression(left, &other.operand)?;
    }
    Some(left)
}

/// What is left of a room after the sites of an expression.
#[cycle(expression)]
fn room_after_expression(room: usize, expression: &Expression) -> Option<usize>
    ensures { MatchOption result (room < length (in_expression expression.now)) (λ left. left + length (in_expression expression.now) ≡ room) }
{
    match &expression.form {
        Form::Number(_) | Form::Null | Form::Local(_) => Some(room),
        Form::Read { .. } => room.checked_sub(1),
        Form::Unary { operand, .. } => room_after_expression(room, operand.get()),
        Form::Chain { first, others } => {
            let left = room_after_expression(room, first.get())?;
            room_after_operands(left, others.as_slice())
        }
        Form::Compared { left, right, .. } => {
            let room = room_after_expression(room, left.get())?;
            room_after_expression(room, right.get())
        }
    }
}
