//! The line of a summary.
ghost use Rattle.std.specs.Prelude.{◌≡◌, ◌++◌, ◌∷◌, [], OnOk, IfOk, codes};
ghost use Rattle.std.specs.Fmt.{decimal, signed_decimal};
ghost use Rattle.fab_language.specs.Words.{line, spaced};
ghost use Rattle.fab_drill.specs.Summary.{summary_line, summary_of};

use crate::counts::{committed_in, count_in};
use crate::totals::total_in;
use fab_base::{NoMemory, Seq};
use fab_lines::put_word;
use fab_trace::{Held, Outcomes, put_number};
use std::alloc::Global;

/// A word and a number.
fn put_count(alloc: Global, out: &mut Seq<u8>, word: &str, count: u64) -> Result<(), NoMemory>
    ensures { OnOk result (out.new ≡ out.old ++ spaced (word.now ∷ decimal count ∷ [])) }
{
    put_word(out, word)?;
    put_number(alloc, out, count)
}

/// What numbers come to, behind its word.
fn put_total(alloc: Global, out: &mut Seq<u8>, total: i128) -> Result<(), NoMemory>
    ensures { OnOk result (out.new ≡ out.old ++ spaced (codes "total" ∷ signed_decimal total ∷ [])) }
{
    put_word(out, "total")?;
    let text = format!(in alloc; "{total}")?;
    put_word(out, text.as_str())
}

/// The line of these four.
fn print_line(
    alloc: Global,
    requests: u64,
    committed: u64,
    objects: u64,
    total: i128,
) -> Result<Seq<u8>, NoMemory>
    ensures { IfOk result (λ bytes. bytes ≡ summary_line requests committed objects total) }
{
    let mut text = Seq::new(alloc);
    text.extend(b"requests")?;
    put_number(alloc, &mut text, requests)?;
    put_count(alloc, &mut text, "committed", committed)?;
    put_count(alloc, &mut text, "objects", objects)?;
    put_total(alloc, &mut text, total)?;
    text.push(b'\n')?;
    Ok(text)
}

/// The summary of a run, in bytes: how many requests there were and how many of them were committed,
/// how many objects are held, and what the numbers in their fields come to. A reference counts for
/// nothing, as `null` does.
pub fn print_summary(alloc: Global, held: &Held, outcomes: &Outcomes) -> Result<Seq<u8>, NoMemory>
    ensures { IfOk result (λ bytes. bytes ≡ summary_of held.now.stores outcomes.now.workers) }
{
    let requests = count_in(outcomes.workers.as_slice())?;
    let committed = committed_in(outcomes.workers.as_slice())?;
    let objects = count_in(held.stores.as_slice())?;
    let total = total_in(held.stores.as_slice())?;
    print_line(alloc, requests, committed, objects, total)
}
