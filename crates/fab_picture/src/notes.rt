//! The shapes of what stands at the feet of nodes' lines.
ghost use Rattle.std.specs.Prelude.{◌≡◌, ◌==◌, ◌++◌, ◌<◌, ◌≤◌, ◌+◌, ◌^◌, [], OnOk, IfOk, count_by, length};
ghost use Rattle.fab_picture.specs.Ends.{note_at, notes};

use crate::foot::Foot;
use fab_base::{NoMemory, Seq};
use fab_marks::{Shape, Spot, put_short};
use std::alloc::Global;

const LABEL_LENGTH: usize = 30;

/// How many of these are of a node.
fn count_of(node: u16, feet: &[Foot]) -> u32
    requires { length feet.now < 2 ^ 31 }
    ensures count { result ≡ count_by (λ y. y.node == node) feet.now }
    ensures few { result ≤ length feet.now }
{
    let mut count = 0;
    for foot in feet {
        if foot.node == node {
            count += 1;
        }
    }
    count
}

/// A note below those of its node in front of it, which stand from this row on.
fn note_at(alloc: Global, first: u32, front: &[Foot], foot: &Foot) -> Result<Shape, NoMemory>
    requires { first + length front.now < 2 ^ 31 }
    ensures { IfOk result (λ shape. shape ≡ note_at first front.now foot.now) }
{
    let at = Spot {
        column: u32::from(foot.node),
        row: first + count_of(foot.node, front),
    };
    let mut label = Seq::new(alloc);
    put_short(&mut label, LABEL_LENGTH, foot.text.as_slice())?;
    Ok(Shape::Note {
        at,
        label,
        title: Seq::from_slice(alloc, foot.text.as_slice())?,
    })
}

/// A note for each of these.
pub(crate) fn put_notes(
    alloc: Global,
    out: &mut Seq<Shape>,
    first: u32,
    feet: &[Foot],
) -> Result<(), NoMemory>
    requires { first + length feet.now < 2 ^ 31 }
    ensures { OnOk result (out.new ≡ out.old ++ notes first [] feet.now) }
{
    for (index, foot) in feet.iter().enumerate() {
        out.push(note_at(alloc, first, &feet[..index], foot)?)?;
    }
    Ok(())
}
