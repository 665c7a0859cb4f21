//! A whole bundle.
ghost use Rattle.std.specs.Prelude.{◌≡◌, IfOk, OnOk};
ghost use Rattle.fab_tree.specs.Print as printed;
ghost use Rattle.fab_print.specs.Adding.{Adds};

use crate::list::print_all;
use crate::program::put_program;
use crate::run::{put_cache, put_schedule};
use fab_base::{NoMemory, Seq};
use fab_tree::Start;
use std::alloc::Global;

/// The canonical text of a bundle: brackets exactly where they are needed, one space where tokens are
/// apart, two more at the front of a line for each level.
pub fn print_start(alloc: Global, start: &Start) -> Result<Seq<u8>, NoMemory>
    ensures { IfOk result (λ bytes. bytes ≡ printed.canonical start.now) }
{
    let mut text = Seq::new(alloc);
    put_start(alloc, &mut text, start)?;
    Ok(text)
}

/// A bundle.
fn put_start(alloc: Global, out: &mut Seq<u8>, start: &Start) -> Result<(), NoMemory>
    ensures { OnOk result (Adds (printed.start start.now) out.old out.new) }
{
    put_program(alloc, out, &start.program)?;
    out.extend(b"run {\n")?;
    print_all(alloc, out, start.roots.as_slice())?;
    print_all(alloc, out, start.sessions.as_slice())?;
    print_all(alloc, out, start.posts.as_slice())?;
    print_all(alloc, out, start.crashes.as_slice())?;
    put_cache(alloc, out, start.cache)?;
    put_schedule(alloc, out, start.schedule.as_slice())?;
    out.extend(b"}\n")?;
    Ok(())
}
