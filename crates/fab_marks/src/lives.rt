//! When nodes are up and when they are down.
ghost use Rattle.std.specs.Prelude.{◌≡◌, ◌++◌, ◌<◌, ◌^◌, OnOk, length};
ghost use Rattle.fab_marks.specs.Lives.{is_up, lives, up_at, up_behind};

use crate::moves::Move;
use crate::shape::{Shape, Sign};
use fab_base::{NoMemory, Seq};

/// Whether a node is up behind what happens at it.
fn up_at(sign: Sign, up: bool) -> bool
    ensures { result ≡ up_at sign up }
{
    match sign {
        Sign::Crash => false,
        Sign::Recover => true,
        Sign::Begin | Sign::Resume | Sign::Deliver | Sign::Post | Sign::Idle => up,
    }
}

/// Whether a node is up behind an event.
fn up_behind(node: u16, up: bool, event: &Move) -> bool
    ensures { result ≡ up_behind node up event.now }
{
    if event.node != node {
        up
    } else if event.cut.is_some() {
        false
    } else {
        up_at(event.sign, up)
    }
}

/// Whether a node is up behind several events.
pub fn is_up(node: u16, up: bool, events: &[Move]) -> bool
    ensures { result ≡ is_up node up events.now }
{
    let mut now = up;
    for event in events {
        now = up_behind(node, now, event);
    }
    now
}

/// The parts of a node's line beside these events, which stand in rows from 1 on.
pub fn put_lives(out: &mut Seq<Shape>, node: u16, up: bool, events: &[Move]) -> Result<(), NoMemory>
    requires { length events.now < 2 ^ 31 }
    ensures { OnOk result (out.new ≡ out.old ++ lives node up 0 1 events.now) }
{
    let column = u32::from(node);
    let mut now = up;
    let mut from = 0;
    let mut row = 1;
    let mut rest = events;
    'events: while let Some((event, later)) = rest.split_first() {
        if up_behind(node, now, event) != now {
            out.push(Shape::Life {
                column,
                from,
                to: row,
                up: now,
            })?;
            now = !now;
            from = row;
        }
        row += 1;
        rest = later;
    }
    out.push(Shape::Life {
        column,
        from,
        to: row,
        up: now,
    })
}
