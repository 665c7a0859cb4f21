//! The whole report.
ghost use Rattle.std.specs.Prelude.{◌≡◌, ◌++◌, ◌∷◌, [], OnOk, IfOk, codes, length};
ghost use Rattle.std.specs.Fmt.{decimal};
ghost use Rattle.fab_language.specs.Words.{line, spaced};
ghost use Rattle.fab_lines.specs.Numbered.{AreNumbered};
ghost use Rattle.fab_trace.specs.Report.{report};

use crate::commits::put_commits;
use crate::events::put_events;
use crate::requests::{Outcomes, put_outcomes};
use crate::stores::{Held, put_held};
use crate::words::put_number;
use fab_base::{NoMemory, Seq};
use fab_net::Logged;
use fab_tree::resolved::Resolved;
use std::alloc::Global;

/// The last line, with the number of events.
fn put_end(alloc: Global, out: &mut Seq<u8>, events: usize) -> Result<(), NoMemory>
    ensures { OnOk result (out.new ≡ out.old ++ line (codes "end" ++ spaced (decimal events ∷ []))) }
{
    out.extend(b"end")?;
    put_number(alloc, out, events as u64)?;
    out.push(b'\n')
}

/// The report of a run, in bytes.
pub fn print_report(
    alloc: Global,
    start: &Resolved,
    log: &[Logged],
    held: &Held,
    outcomes: &Outcomes,
) -> Result<Seq<u8>, NoMemory>
    requires { AreNumbered start.now.roots }
    ensures { IfOk result (λ bytes. bytes ≡ report start.now log.now held.now.stores outcomes.now.workers) }
{
    let mut text = Seq::new(alloc);
    text.extend(b"fab report 1\n")?;
    put_events(alloc, &mut text, start, log)?;
    put_commits(alloc, &mut text, start, log)?;
    put_outcomes(alloc, &mut text, start, outcomes.workers.as_slice())?;
    put_held(alloc, &mut text, start, held.stores.as_slice())?;
    put_end(alloc, &mut text, log.len())?;
    Ok(text)
}
