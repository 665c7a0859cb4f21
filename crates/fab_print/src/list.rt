//! Lists.
ghost use Rattle.std.specs.Prelude.{◌≡◌, OnOk, map};
ghost use Rattle.fab_base.specs.declared.token.Mark.{Mark};
ghost use Rattle.fab_base.specs.declared.token.Mark.TheVariants as m;
ghost use Rattle.fab_base.specs.Tokens.{mark_text};
ghost use Rattle.fab_tree.specs.Print as print;
ghost use Rattle.fab_print.specs.Adding.{Adds};

use crate::piece::Print;
use fab_base::{NoMemory, Seq};
use fab_tree::Name;
use std::alloc::Global;

/// One behind the other.
pub(crate) fn print_all<T: Print>(
    alloc: Global,
    out: &mut Seq<u8>,
    items: &[T],
) -> Result<(), NoMemory>
    ensures { OnOk result (Adds (print.all (map T.inks items.now)) out.old out.new) }
{
    let mut rest = items;
    'items: while let Some((item, after)) = rest.split_first() {
        item.print(alloc, out)?;
        rest = after;
    }
    Ok(())
}

/// Each behind a mark, which is spelled so, and a space.
fn print_each_behind<T: Print>(
    alloc: Global,
    out: &mut Seq<u8>,
    between: &[u8],
    items: &[T],
) -> Result<(), NoMemory>
    ensures { OnOk result ((x : Mark) → mark_text x ≡ between.now → Adds (print.each_behind x (map T.inks items.now)) out.old out.new) }
{
    let mut rest = items;
    'others: while let Some((item, after)) = rest.split_first() {
        out.extend(between)?;
        out.push(b' ')?;
        item.print(alloc, out)?;
        rest = after;
    }
    Ok(())
}

/// With a mark, which is spelled so, and a space between two.
pub(crate) fn print_separated<T: Print>(
    alloc: Global,
    out: &mut Seq<u8>,
    between: &[u8],
    items: &[T],
) -> Result<(), NoMemory>
    ensures { OnOk result ((x : Mark) → mark_text x ≡ between.now → Adds (print.separated x (map T.inks items.now)) out.old out.new) }
{
    match items.split_first() {
        None => Ok(()),
        Some((first, others)) => {
            first.print(alloc, out)?;
            print_each_behind(alloc, out, between, others)?;
            Ok(())
        }
    }
}

/// In brackets, with commas between two.
pub(crate) fn print_in_brackets<T: Print>(
    alloc: Global,
    out: &mut Seq<u8>,
    items: &[T],
) -> Result<(), NoMemory>
    ensures { OnOk result (Adds (print.in_brackets (print.separated m.Comma (map T.inks items.now))) out.old out.new) }
{
    out.push(b'(')?;
    print_separated(alloc, out, b",", items)?;
    out.push(b')')?;
    Ok(())
}

/// Names behind a space, where there are any.
pub(crate) fn put_spaced_names(
    alloc: Global,
    out: &mut Seq<u8>,
    names: &[Name],
) -> Result<(), NoMemory>
    ensures { OnOk result (Adds (print.spaced_names names.now) out.old out.new) }
{
    match names.split_first() {
        None => Ok(()),
        Some(_) => {
            out.push(b' ')?;
            print_separated(alloc, out, b",", names)?;
            Ok(())
        }
    }
}
