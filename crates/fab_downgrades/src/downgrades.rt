//! The walk over the statements of a method.
ghost use Rattle.std.specs.Prelude.{◌≡◌, ◌++◌, IfOk, OnOk, map};
ghost use Rattle.std.specs.List.{flat_map};
ghost use Rattle.fab_downgrades.specs.Downgraded.{all_in, downgraded_by, downgraded_by_right, downgraded_in};

use crate::rows::Downgraded;
use fab_base::{NoMemory, Seq};
use fab_tree::resolved::{Method, Right, Statement};
use std::alloc::Global;

/// The downgrade that is assigned, if one is.
fn put_right(out: &mut Seq<Downgraded>, right: &Right) -> Result<(), NoMemory>
    ensures { OnOk result (out.new ≡ out.old ++ downgraded_by_right right.now) }
{
    match right {
        Right::Plain(_) | Right::Call { .. } | Right::New { .. } => Ok(()),
        Right::Downgrade {
            downgrade,
            from,
            to,
            site,
            at,
            ..
        } => out.push(Downgraded {
            downgrade: *downgrade,
            at: *at,
            site: *site,
            from: from.number,
            to: to.number,
        }),
    }
}

/// The downgrades in a block.
#[cycle(blocks)]
fn put_block(out: &mut Seq<Downgraded>, statements: &[Statement]) -> Result<(), NoMemory>
    ensures { OnOk result (out.new ≡ out.old ++ all_in (map downgraded_in statements.now)) }
{
    for statement in statements {
        put_statement(out, statement)?;
    }
    Ok(())
}

/// The downgrades in a statement.
#[cycle(blocks)]
fn put_statement(out: &mut Seq<Downgraded>, statement: &Statement) -> Result<(), NoMemory>
    ensures { OnOk result (out.new ≡ out.old ++ downgraded_in statement.now) }
{
    match statement {
        Statement::Assign { right, .. } => put_right(out, right),
        Statement::Write { .. } | Statement::Call { .. } | Statement::Fail { .. } => Ok(()),
        Statement::If {
            block,
            otherwise,
            ..
        } => {
            put_block(out, block.as_slice())?;
            put_block(out, otherwise.as_slice())
        }
        Statement::While { block, .. } => put_block(out, block.as_slice()),
        Statement::Atomic {
            block,
            otherwise,
            ..
        } => {
            put_block(out, block.as_slice())?;
            put_block(out, otherwise.as_slice())
        }
    }
}

/// The downgrades of a method, behind others.
fn put_method(out: &mut Seq<Downgraded>, method: &Method) -> Result<(), NoMemory>
    ensures { OnOk result (out.new ≡ out.old ++ downgraded_by method.now) }
{
    put_block(out, method.body.as_slice())?;
    Ok(())
}

/// The downgrades of a method, in the order of the text.
pub fn downgraded_by(alloc: Global, method: &Method) -> Result<Seq<Downgraded>, NoMemory>
    ensures { IfOk result (λ found. found ≡ downgraded_by method.now) }
{
    let mut out = Seq::new(alloc);
    put_method(&mut out, method)?;
    Ok(out)
}

/// The downgrades of several methods, in the order of the text.
pub fn downgraded_by_all(alloc: Global, methods: &[Method]) -> Result<Seq<Downgraded>, NoMemory>
    ensures { IfOk result (λ found. found ≡ flat_map downgraded_by methods.now) }
{
    let mut out = Seq::new(alloc);
    for method in methods {
        put_method(&mut out, method)?;
    }
    Ok(out)
}
