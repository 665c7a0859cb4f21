//! The locals of a method.
ghost use Rattle.std.specs.Prelude.{◌≡◌, ◌++◌, IfOk, OnOk, flat_map};
ghost use Rattle.fab_tree.specs.Limits.{declared_in, locals_of};
ghost use Rattle.fab_rules.specs.Known.{shown};

use fab_base::NoMemory;
use fab_rules::Local;
use fab_tree::{Method, Statement};
use std::alloc::Global;

/// The locals of a method: its parameters, and those that its body declares, blocks included.
pub(crate) fn locals_of<'a>(alloc: Global, method: &'a Method) -> Result<Vec<Local<'a>>, NoMemory>
    ensures { IfOk result (λ v. shown v.items ≡ locals_of method.now) }
{
    let mut locals = Vec::new(alloc);
    for parameter in method.parameters.as_slice() {
        locals.push(Local {
            sort: &parameter.sort,
            name: &parameter.name,
            label: &parameter.label,
        })?;
    }
    gather_block(&mut locals, method.body.as_slice())?;
    Ok(locals)
}

/// The locals that a block declares, behind those that are there.
#[cycle(gather)]
fn gather_block<'a>(locals: &mut Vec<Local<'a>>, block: &'a [Statement]) -> Result<(), NoMemory>
    ensures { OnOk result (shown locals.new.items ≡ shown locals.old.items ++ flat_map declared_in block.now) }
{
    for statement in block {
        gather(locals, statement)?;
    }
    Ok(())
}

/// The locals that a statement declares, behind those that are there.
#[cycle(gather)]
fn gather<'a>(locals: &mut Vec<Local<'a>>, statement: &'a Statement) -> Result<(), NoMemory>
    ensures { OnOk result (shown locals.new.items ≡ shown locals.old.items ++ declared_in statement.now) }
{
    match statement {
        Statement::Declare {
            sort,
            name,
            label,
            ..
        } => {
            locals.push(Local { sort, name, label })?;
            Ok(())
        }
        Statement::If {
            block,
            otherwise,
            ..
        } => {
            gather_block(locals, block.as_slice())?;
            match otherwise {
                Some(other) => gather_block(locals, other.as_slice()),
                None => Ok(()),
            }
        }
        Statement::While { block, .. } => gather_block(locals, block.as_slice()),
        Statement::Atomic {
            block,
            otherwise,
            ..
        } => {
            gather_block(locals, block.as_slice())?;
            gather_block(locals, otherwise.as_slice())
        }
        Statement::Assign { .. }
        | Statement::Write { .. }
        | Statement::Call { .. }
        | Statement::Fail { .. } => Ok(()),
    }
}
