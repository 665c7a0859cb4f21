//! The locals that methods declare.
ghost use Rattle.std.specs.Prelude.{◌≡◌, ◌+◌, ◌<◌, MatchOption, length, flat_map};
ghost use Rattle.fab_tree.specs.Limits.{declared_in, locals_of};

use fab_tree::{Method, Statement};

/// What is left of a room after the locals of a method.
pub(crate) fn room_after_locals_of_method(room: usize, method: &Method) -> Option<usize>
    ensures { MatchOption result (room < length (locals_of method.now)) (λ left. left + length (locals_of method.now) ≡ room) }
{
    let left = room.checked_sub(method.parameters.len())?;
    room_after_locals_of_block(left, method.body.as_slice())
}

/// What is left of a room after the locals that a block declares.
#[cycle(locals)]
fn room_after_locals_of_block(room: usize, block: &[Statement]) -> Option<usize>
    ensures { MatchOption result (room < length (flat_map declared_in block.now)) (λ left. left + length (flat_map declared_in block.now) ≡ room) }
{
    let mut left = room;
    for statement in block {
        left = room_after_locals(left, statement)?;
    }
    Some(left)
}

/// What is left of a room after the locals that a statement declares.
#[cycle(locals)]
fn room_after_locals(room: usize, statement: &Statement) -> Option<usize>
    ensures { MatchOption result (room < length (declared_in statement.now)) (λ left. left + length (declared_in statement.now) ≡ room) }
{
    match statement {
        Statement::Declare { .. } => room.checked_sub(1),
        Statement::Assign { .. }
        | Statement::Write { .. }
        | Statement::Call { .. }
        | Statement::Fail { .. } => Some(room),
        Statement::While { block, .. } => room_after_locals_of_block(room, block.as_slice()),
        Statement::If {
            block,
            otherwise,
            ..
        } => {
            let left = room_after_locals_of_block(room, block.as_slice())?;
            match otherwise {
                Some(other) => room_after_locals_of_block(left, other.as_slice()),
                None => Some(left),
            }
        }
        Statement::Atomic {
            block,
            otherwise,
            ..
        } => {
            let left = room_after_locals_of_block(room, block.as_slice())?;
            room_after_locals_of_block(left, otherwise.as_slice())
        }
    }
}
