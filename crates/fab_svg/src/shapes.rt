//! Shapes, each as a group of elements on a line of its own.
ghost use Rattle.std.specs.Prelude.{◌≡◌, ◌+◌, ◌*◌, ◌++◌, OnOk, codes, nat_lt};
ghost use Rattle.fab_language.specs.Words.{line};
ghost use Rattle.fab_svg.specs.Svg.{above as above_of, across as across_of, arrow_class as arrow_class_of, arrow_text, beyond, box_class as box_class_of, down as down_of, end_text, event_text, ground_text, group_text, head_text, life_class as life_class_of, line_at, mark_text, note_text, path_at, role_text, sign_class as sign_class_of, sign_path as sign_path_of, text_at};

use crate::elements::{put, put_line, put_path, put_text, put_title};
use crate::places::{above, across, before, behind, down};
use crate::words::{
    arrow_class, box_class, group_opening, life_class, role_word, sign_class, sign_path,
};
use fab_base::{NoMemory, Seq};
use fab_marks::{Shape, Sign, Spot};
use fab_tree::Role;
use std::alloc::Global;

/// The box of a node.
fn put_box(alloc: Global, out: &mut Seq<u8>, column: u32, role: Role) -> Result<(), NoMemory>
    ensures { OnOk result (out.new ≡ out.old ++ path_at (box_class_of role) (135 + 230 * column) 35 (codes "h210v36h-210z")) }
{
    let left = 135 + 230 * u64::from(column);
    put_path(alloc, out, box_class(role), left, 35, "h210v36h-210z")
}

/// The kind of a node, in its box.
fn put_kind(alloc: Global, out: &mut Seq<u8>, column: u32, role: Role) -> Result<(), NoMemory>
    ensures { OnOk result (out.new ≡ out.old ++ text_at (codes "middle") (across_of column) 49 (role_text role)) }
{
    let word = role_word(role).as_bytes();
    put_text(alloc, out, "middle", across(column), 49, word)
}

/// The name of a node, in its box.
fn put_name(alloc: Global, out: &mut Seq<u8>, column: u32, label: &[u8]) -> Result<(), NoMemory>
    ensures { OnOk result (out.new ≡ out.old ++ text_at (codes "middle name") (across_of column) 64 label.now) }
{
    put_text(alloc, out, "middle name", across(column), 64, label)
}

/// The box of a node, with its kind and name.
fn put_head(
    alloc: Global,
    out: &mut Seq<u8>,
    column: u32,
    role: Role,
    label: &[u8],
    name: &[u8],
) -> Result<(), NoMemory>
    ensures { OnOk result (out.new ≡ out.old ++ line (head_text column role label.now name.now)) }
{
    put(out, "<g>")?;
    put_title(out, name)?;
    put_box(alloc, out, column, role)?;
    put_kind(alloc, out, column, role)?;
    put_name(alloc, out, column, label)?;
    put(out, "</g>")?;
    put(out, "\n")?;
    Ok(())
}

/// A part of a node's line.
fn put_life(
    alloc: Global,
    out: &mut Seq<u8>,
    column: u32,
    from: u32,
    to: u32,
    up: bool,
) -> Result<(), NoMemory>
    ensures { OnOk result (out.new ≡ out.old ++ line (line_at (life_class_of up) (across_of column) (down_of from) (across_of column) (down_of to))) }
{
    let x = across(column);
    put_line(alloc, out, life_class(up), (x, down(from)), (x, down(to)))?;
    put(out, "\n")
}

/// A sign at its place.
fn put_sign(alloc: Global, out: &mut Seq<u8>, at: Spot, sign: Sign) -> Result<(), NoMemory>
    ensures { OnOk result (out.new ≡ out.old ++ path_at (sign_class_of sign) (across_of at.column) (down_of at.row) (sign_path_of sign)) }
{
    let (x, y) = (across(at.column), down(at.row));
    put_path(alloc, out, sign_class(sign), x, y, sign_path(sign))
}

/// The cross where a message is lost.
fn put_end(alloc: Global, out: &mut Seq<u8>, lost: bool, to: Spot) -> Result<(), NoMemory>
    ensures { OnOk result (out.new ≡ out.old ++ end_text lost to) }
{
    if !lost {
        return Ok(());
    }
    let path = sign_path(Sign::Crash);
    put_path(alloc, out, "cross", across(to.column), down(to.row), path)
}

/// An arrow's label, on the side of the receiver's line that the arrow doesn't come from.
fn put_beyond(
    alloc: Global,
    out: &mut Seq<u8>,
    from_left: bool,
    to: Spot,
    label: &[u8],
) -> Result<(), NoMemory>
    ensures { OnOk result (out.new ≡ out.old ++ beyond from_left to label.now) }
{
    if from_left {
        put_text(alloc, out, "start", behind(to.column), above(to.row), label)
    } else {
        put_text(alloc, out, "end", before(to.column), above(to.row), label)
    }
}

/// The sign of what happens at a node.
fn put_mark(
    alloc: Global,
    out: &mut Seq<u8>,
    at: Spot,
    sign: Sign,
    label: &[u8],
    title: &[u8],
) -> Result<(), NoMemory>
    ensures { OnOk result (out.new ≡ out.old ++ line (mark_text at sign label.now title.now)) }
{
    put(out, "<g>")?;
    put_title(out, title)?;
    put_sign(alloc, out, at, sign)?;
    put_beyond(alloc, out, true, at, label)?;
    put(out, "</g>")?;
    put(out, "\n")?;
    Ok(())
}

/// How a message went.
#[derive(Clone, Copy)]
struct Way {
    from: Spot,
    to: Spot,
    lost: bool,
    stands_out: bool,
}

/// The line of a message.
fn put_way(alloc: Global, out: &mut Seq<u8>, way: Way) -> Result<(), NoMemory>
    ensures { OnOk result (out.new ≡ out.old ++ line_at (arrow_class_of way.lost) (across_of way.from.column) (down_of way.from.row) (across_of way.to.column) (down_of way.to.row)) }
{
    let Way { from, to, lost, .. } = way;
    let start = (across(from.column), down(from.row));
    let end = (across(to.column), down(to.row));
    put_line(alloc, out, arrow_class(lost), start, end)
}

/// What opens the group of a message.
fn put_group(out: &mut Seq<u8>, stands_out: bool) -> Result<(), NoMemory>
    ensures { OnOk result (out.new ≡ out.old ++ group_text stands_out) }
{
    put(out, group_opening(stands_out))
}

/// The label of a message.
fn put_label(alloc: Global, out: &mut Seq<u8>, way: Way, label: &[u8]) -> Result<(), NoMemory>
    ensures { OnOk result (out.new ≡ out.old ++ beyond (nat_lt way.from.column way.to.column) way.to label.now) }
{
    let Way { from, to, .. } = way;
    put_beyond(alloc, out, from.column < to.column, to, label)
}

/// The arrow of a message.
fn put_arrow(
    alloc: Global,
    out: &mut Seq<u8>,
    way: Way,
    label: &[u8],
    title: &[u8],
) -> Result<(), NoMemory>
    ensures { OnOk result (out.new ≡ out.old ++ line (arrow_text way.from way.to way.lost way.stands_out label.now title.now)) }
{
    put_group(out, way.stands_out)?;
    put_title(out, title)?;
    put_way(alloc, out, way)?;
    put_end(alloc, out, way.lost, way.to)?;
    put_label(alloc, out, way, label)?;
    put(out, "</g>")?;
    put(out, "\n")?;
    Ok(())
}

/// The label at the foot of a node's line.
fn put_foot(alloc: Global, out: &mut Seq<u8>, at: Spot, label: &[u8]) -> Result<(), NoMemory>
    ensures { OnOk result (out.new ≡ out.old ++ text_at (codes "middle") (across_of at.column) (above_of at.row) label.now) }
{
    put_text(
        alloc,
        out,
        "middle",
        across(at.column),
        above(at.row),
        label,
    )
}

/// A line at the foot of a node's line.
fn put_note(
    alloc: Global,
    out: &mut Seq<u8>,
    at: Spot,
    label: &[u8],
    title: &[u8],
) -> Result<(), NoMemory>
    ensures { OnOk result (out.new ≡ out.old ++ line (note_text at label.now title.now)) }
{
    put(out, "<g>")?;
    put_title(out, title)?;
    put_foot(alloc, out, at, label)?;
    put(out, "</g>")?;
    put(out, "\n")?;
    Ok(())
}

/// A line of text above all.
fn put_caption(alloc: Global, out: &mut Seq<u8>, text: &[u8]) -> Result<(), NoMemory>
    ensures { OnOk result (out.new ≡ out.old ++ line (text_at (codes "start") 20 20 text.now)) }
{
    put_text(alloc, out, "start", 20, 20, text)?;
    put(out, "\n")
}

/// Nodes and what stands at their feet; nothing for an event.
pub(crate) fn put_ground(alloc: Global, out: &mut Seq<u8>, shape: &Shape) -> Result<(), NoMemory>
    ensures { OnOk result (out.new ≡ out.old ++ ground_text shape.now) }
{
    match shape {
        Shape::Caption { text } => put_caption(alloc, out, text.as_slice()),
        Shape::Head {
            column,
            role,
            label,
            title,
        } => {
            put_head(
                alloc,
                out,
                *column,
                *role,
                label.as_slice(),
                title.as_slice(),
            )
        }
        Shape::Life {
            column,
            from,
            to,
            up,
        } => put_life(alloc, out, *column, *from, *to, *up),
        Shape::Note { at, label, title } => {
            put_note(alloc, out, *at, label.as_slice(), title.as_slice())
        }
        Shape::Mark { .. } | Shape::Arrow { .. } => Ok(()),
    }
}

/// The mark of an event; nothing for any other shape.
pub(crate) fn put_event(alloc: Global, out: &mut Seq<u8>, shape: &Shape) -> Result<(), NoMemory>
    ensures { OnOk result (out.new ≡ out.old ++ event_text shape.now) }
{
    match shape {
        Shape::Mark {
            at,
            sign,
            label,
            title,
        } => { put_mark(alloc, out, *at, *sign, label.as_slice(), title.as_slice()) }
        Shape::Arrow {
            from,
            to,
            lost,
            stands_out,
            label,
            title,
        } => {
            let way = Way {
                from: *from,
                to: *to,
                lost: *lost,
                stands_out: *stands_out,
            };
            put_arrow(alloc, out, way, label.as_slice(), title.as_slice())
        }
        Shape::Caption { .. } | Shape::Head { .. } | Shape::Life { .. } | Shape::Note { .. } => {
            Ok(())
        }
    }
}
