//! The whole picture.
ghost use Rattle.std.specs.Prelude.{◌≡◌, ◌++◌, OnOk, IfOk, flat_map};
ghost use Rattle.fab_language.specs.Words.{line};
ghost use Rattle.fab_svg.specs.Svg.{column_of as column_in, events_text, ground_text, last_column as last_column_of, last_row as last_row_of, opening, row_of as row_in, style, svg as svg_of};

use crate::elements::{put, put_number_attribute};
use crate::shapes::{put_event, put_ground};
use fab_base::{NoMemory, Seq};
use fab_marks::Shape;
use std::alloc::Global;

/// Black on white: lines of nodes that are down are dotted, arrows that are lost dashed, what stands out is
/// thick, and text has a white edge.
const STYLE: &str = "<style>
text { font: 11px monospace; paint-order: stroke; stroke: white; stroke-width: 8px; stroke-linejoin: round; }
.start { text-anchor: start; } .middle { text-anchor: middle; } .end { text-anchor: end; } .name { font-weight: bold; font-size: 12px; }
line, path { stroke: black; fill: none; } .box { fill: white; } .hostile { stroke-width: 3px; stroke-dasharray: 8 3; }
.full { fill: black; } .empty { fill: white; } .cross { stroke-width: 2px; } .down { stroke-dasharray: 1 5; stroke-width: 2px; }
.arrow { marker-end: url(#head); } .lost { stroke-dasharray: 5 4; }
.out line { stroke-width: 3px; } .out text { font-weight: bold; }
</style>
<marker id='head' viewBox='0 0 10 10' refX='10' refY='5' markerUnits='userSpaceOnUse' markerWidth='11' markerHeight='11' orient='auto'>
<path class='full' d='M0 1L10 5L0 9z'/></marker>
<rect width='100%' height='100%' fill='white'/>
";

/// The column in which a shape stands.
fn column_of(shape: &Shape) -> u32
    ensures { result ≡ column_in shape.now }
{
    match shape {
        Shape::Caption { .. } => 0,
        Shape::Head { column, .. } | Shape::Life { column, .. } => *column,
        Shape::Mark { at, .. } | Shape::Note { at, .. } => at.column,
        Shape::Arrow { to, .. } => to.column,
    }
}

/// The last row in which a shape stands.
fn row_of(shape: &Shape) -> u32
    ensures { result ≡ row_in shape.now }
{
    match shape {
        Shape::Caption { .. } | Shape::Head { .. } => 0,
        Shape::Life { to, .. } => *to,
        Shape::Mark { at, .. } | Shape::Note { at, .. } => at.row,
        Shape::Arrow { to, .. } => to.row,
    }
}

/// The last column in which a shape stands.
fn last_column(shapes: &[Shape]) -> u32
    ensures { result ≡ last_column_of 0 shapes.now }
{
    let mut most = 0;
    let mut rest = shapes;
    'shapes: while let Some((shape, after)) = rest.split_first() {
        most = most.max(column_of(shape));
        rest = after;
    }
    most
}

/// The last row in which a shape stands.
fn last_row(shapes: &[Shape]) -> u32
    ensures { result ≡ last_row_of 0 shapes.now }
{
    let mut most = 0;
    let mut rest = shapes;
    'shapes: while let Some((shape, after)) = rest.split_first() {
        most = most.max(row_of(shape));
        rest = after;
    }
    most
}

/// The head of the picture, with its size.
fn put_opening(alloc: Global, out: &mut Seq<u8>, width: u64, height: u64) -> Result<(), NoMemory>
    ensures { OnOk result (out.new ≡ out.old ++ opening width height) }
{
    put(out, "<svg xmlns='http://www.w3.org/2000/svg'")?;
    put_number_attribute(alloc, out, "width", width)?;
    put_number_attribute(alloc, out, "height", height)?;
    put(out, ">")?;
    put(out, "\n")?;
    Ok(())
}

/// How shapes are drawn.
fn put_style(out: &mut Seq<u8>) -> Result<(), NoMemory>
    ensures { OnOk result (out.new ≡ out.old ++ flat_map line style) }
{
    put(out, STYLE)
}

/// All but events, in order.
fn put_grounds(alloc: Global, out: &mut Seq<u8>, shapes: &[Shape]) -> Result<(), NoMemory>
    ensures { OnOk result (out.new ≡ out.old ++ flat_map ground_text shapes.now) }
{
    let mut rest = shapes;
    'shapes: while let Some((shape, after)) = rest.split_first() {
        put_ground(alloc, out, shape)?;
        rest = after;
    }
    Ok(())
}

/// Events, the last one first.
fn put_events(alloc: Global, out: &mut Seq<u8>, shapes: &[Shape]) -> Result<(), NoMemory>
    ensures { OnOk result (out.new ≡ out.old ++ events_text shapes.now) }
{
    let mut rest = shapes;
    'shapes: while let Some((shape, before)) = rest.split_last() {
        put_event(alloc, out, shape)?;
        rest = before;
    }
    Ok(())
}

/// The text of a picture. A node's line, a caption and a foot stand below events, and each event below those
/// before it.
pub fn svg(alloc: Global, shapes: &[Shape]) -> Result<Seq<u8>, NoMemory>
    ensures { IfOk result (λ text. text ≡ svg_of shapes.now) }
{
    let width = 480 + 230 * u64::from(last_column(shapes));
    let height = 95 + 20 * u64::from(last_row(shapes));
    let mut out = Seq::new(alloc);
    put_opening(alloc, &mut out, width, height)?;
    put_style(&mut out)?;
    put_grounds(alloc, &mut out, shapes)?;
    put_events(alloc, &mut out, shapes)?;
    put(&mut out, "</svg>\n")?;
    Ok(out)
}
