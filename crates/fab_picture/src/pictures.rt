//! The shapes of a picture, in order.
ghost use Rattle.std.specs.Prelude.{◌≡◌, ◌++◌, ◌<◌, ◌≤◌, ◌^◌, ◌∷◌, [], Some, OnOk, IfOk, length, take};
ghost use Rattle.std.specs.Fmt.{decimal};
ghost use Rattle.fab_picture.specs.Moves.{before, within};
ghost use Rattle.fab_picture.specs.Picture.{all_lives, caption, head_of, heads, most_feet, picture};

use crate::events::moves;
use crate::foot::Foot;
use crate::notes::put_notes;
use crate::outcomes::feet;
use fab_base::{NoMemory, Seq};
use fab_marks::{Move, Shape, is_up, put_lives, put_marks, put_short};
use fab_reports::Line;
use fab_tree::resolved::{Principal, Resolved};
use std::alloc::Global;

const MOST_EVENTS: usize = 1000;

const MOST_FEET: usize = 200;

/// The events in front of number `from`, counted from 1.
fn before(from: u32, events: &[Move]) -> &[Move]
    ensures { result.now ≡ before from events.now }
{
    let front = from.saturating_sub(1) as usize;
    &events[..front.min(events.len())]
}

/// Those from there to number `to`, at most 1,000.
fn within(from: u32, to: u32, events: &[Move]) -> &[Move]
    ensures events { result.now ≡ within from to events.now }
    ensures few { length result.now ≤ 1000 }
{
    let front = &events[..(to as usize).min(events.len())];
    let skipped = from.saturating_sub(1) as usize;
    let rest = &front[skipped.min(front.len())..];
    &rest[..MOST_EVENTS.min(rest.len())]
}

/// The lines of what came of a run that are drawn, at most 200.
fn most(feet: &[Foot]) -> &[Foot]
    ensures feet { result.now ≡ take most_feet feet.now }
    ensures few { length result.now ≤ 200 }
{
    &feet[..MOST_FEET.min(feet.len())]
}

/// How many there are.
fn put_count(alloc: Global, out: &mut Seq<u8>, count: usize) -> Result<(), NoMemory>
    ensures { OnOk result (out.new ≡ out.old ++ decimal count) }
{
    let text = format!(in alloc; "{count}")?;
    out.extend(text.as_str().as_bytes())
}

/// What is drawn, and what was left out: numbers of events and of lines of what came of them.
fn caption(
    alloc: Global,
    from: u32,
    drawn: &[Move],
    all: &[Move],
    feet_drawn: &[Foot],
    all_feet: &[Foot],
) -> Result<Seq<u8>, NoMemory>
    ensures { IfOk result (λ text. text ≡ caption from drawn.now all.now feet_drawn.now all_feet.now) }
{
    let mut text = Seq::new(alloc);
    put_count(alloc, &mut text, drawn.len())?;
    text.extend(b" of ")?;
    put_count(alloc, &mut text, all.len())?;
    text.extend(b" events, from number ")?;
    put_count(alloc, &mut text, from as usize)?;
    text.extend(b" on, and ")?;
    put_count(alloc, &mut text, feet_drawn.len())?;
    text.extend(b" of ")?;
    put_count(alloc, &mut text, all_feet.len())?;
    text.extend(b" lines of what came of them")?;
    Ok(text)
}

/// The head of a worker's or store's line.
fn head_of(alloc: Global, principal: &Principal, node: u16) -> Result<Shape, NoMemory>
    ensures { IfOk result (λ shape. head_of principal.now (Some node) ≡ shape ∷ []) }
{
    let name = principal.name.text.as_str().as_bytes();
    let mut label = Seq::new(alloc);
    put_short(&mut label, 24, name)?;
    Ok(Shape::Head {
        column: u32::from(node),
        role: principal.role,
        label,
        title: Seq::from_slice(alloc, name)?,
    })
}

/// The heads of all.
fn put_heads(alloc: Global, out: &mut Seq<Shape>, principals: &[Principal]) -> Result<(), NoMemory>
    ensures { OnOk result (out.new ≡ out.old ++ heads principals.now) }
{
    let mut rest = principals;
    'heads: while let Some((principal, later)) = rest.split_first() {
        if let Some(node) = principal.node {
            out.push(head_of(alloc, principal, node)?)?;
        }
        rest = later;
    }
    Ok(())
}

/// Their lines.
fn put_all_lives(
    out: &mut Seq<Shape>,
    past: &[Move],
    drawn: &[Move],
    principals: &[Principal],
) -> Result<(), NoMemory>
    requires { length drawn.now < 2 ^ 31 }
    ensures { OnOk result (out.new ≡ out.old ++ all_lives past.now drawn.now principals.now) }
{
    let mut rest = principals;
    'lives: while let Some((principal, later)) = rest.split_first() {
        if let Some(node) = principal.node {
            put_lives(out, node, is_up(node, true, past), drawn)?;
        }
        rest = later;
    }
    Ok(())
}

/// The picture of events `from` to `to` of a report, in which what is sent into a set of nodes stands out.
pub fn picture(
    alloc: Global,
    start: &Resolved,
    nodes: &[Seq<u8>],
    from: u32,
    to: u32,
    lines: &[Line],
) -> Result<Seq<Shape>, NoMemory>
    ensures { IfOk result (λ shapes. shapes ≡ picture start.now nodes.now from to lines.now) }
{
    let events = moves(alloc, start, lines)?;
    let all = events.as_slice();
    let past = before(from, all);
    let drawn = within(from, to, all);
    let ends = feet(alloc, start, lines)?;
    let all_feet = ends.as_slice();
    let feet_drawn = most(all_feet);
    let text = caption(alloc, from, drawn, all, feet_drawn, all_feet)?;
    let mut shapes = Seq::new(alloc);
    shapes.push(Shape::Caption { text })?;
    put_heads(alloc, &mut shapes, start.nodes.as_slice())?;
    put_all_lives(&mut shapes, past, drawn, start.nodes.as_slice())?;
    put_marks(alloc, &mut shapes, start, nodes, past, drawn)?;
    put_notes(alloc, &mut shapes, drawn.len() as u32 + 2, feet_drawn)?;
    Ok(shapes)
}
