//! The places of holes in a text.
ghost use Rattle.std.specs.Prelude.{◌≡◌, ◌++◌, IfOk, OnOk, flat_map};
ghost use Rattle.fab_tree.specs.Limits.{declared_in};
ghost use Rattle.fab_holes.specs.Holes.{holes, holes_in};
ghost use Rattle.fab_infer.specs.Fill.{hole_at, of_labels, places_among};

use crate::declared::Declared;
use fab_base::{NoMemory, Seq};
use fab_tree::{Method, Name, Parameter, Start, Statement};
use std::alloc::Global;

/// The place of a label's name, if it is a hole, behind those that are there.
fn put_hole(declared: &Declared<'_>, out: &mut Seq<u32>, label: &Name) -> Result<(), NoMemory>
    ensures { OnOk result (out.new ≡ out.old ++ hole_at (of_labels declared.now.labels.now) label.now) }
{
    if declared.is_hole(label) {
        return out.push(label.at);
    }
    Ok(())
}

/// The places of holes among parameters, behind those that are there.
fn put_parameters(
    declared: &Declared<'_>,
    out: &mut Seq<u32>,
    parameters: &[Parameter],
) -> Result<(), NoMemory>
    ensures { OnOk result (out.new ≡ out.old ++ places_among (of_labels declared.now.labels.now) parameters.now) }
{
    for parameter in parameters {
        put_hole(declared, out, &parameter.label)?;
    }
    Ok(())
}

/// The places of holes in a block, behind those that are there.
#[cycle(held)]
fn put_block(
    declared: &Declared<'_>,
    out: &mut Seq<u32>,
    block: &[Statement],
) -> Result<(), NoMemory>
    ensures { OnOk result (out.new ≡ out.old ++ places_among (of_labels declared.now.labels.now) (flat_map declared_in block.now)) }
{
    for statement in block {
        put_statement(declared, out, statement)?;
    }
    Ok(())
}

/// The places of holes in a statement, behind those that are there.
#[cycle(held)]
fn put_statement(
    declared: &Declared<'_>,
    out: &mut Seq<u32>,
    statement: &Statement,
) -> Result<(), NoMemory>
    ensures { OnOk result (out.new ≡ out.old ++ places_among (of_labels declared.now.labels.now) (declared_in statement.now)) }
{
    match statement {
        Statement::Declare { label, .. } => put_hole(declared, out, label),
        Statement::Assign { .. }
        | Statement::Write { .. }
        | Statement::Call { .. }
        | Statement::Fail { .. } => Ok(()),
        Statement::If {
            block,
            otherwise,
            ..
        } => {
            put_block(declared, out, block.as_slice())?;
            match otherwise {
                Some(other) => put_block(declared, out, other.as_slice()),
                None => Ok(()),
            }
        }
        Statement::While { block, .. } => put_block(declared, out, block.as_slice()),
        Statement::Atomic {
            block,
            otherwise,
            ..
        } => {
            put_block(declared, out, block.as_slice())?;
            put_block(declared, out, otherwise.as_slice())
        }
    }
}

/// The places of the holes of a method, behind those that are there.
fn put_method(declared: &Declared<'_>, out: &mut Seq<u32>, method: &Method) -> Result<(), NoMemory>
    ensures { OnOk result (out.new ≡ out.old ++ holes_in (of_labels declared.now.labels.now) method.now) }
{
    put_parameters(declared, out, method.parameters.as_slice())?;
    put_block(declared, out, method.body.as_slice())
}

/// The places of the holes of a bundle, in bytes from 0, in the order of the text.
pub fn holes(alloc: Global, start: &Start) -> Result<Seq<u32>, NoMemory>
    ensures { IfOk result (λ places. places ≡ holes start.now) }
{
    let declared = Declared::of(start.program.labels.as_slice());
    let mut out = Seq::new(alloc);
    for method in start.program.methods.as_slice() {
        put_method(&declared, &mut out, method)?;
    }
    Ok(out)
}
