//! How requests ended, as lines at the end of a text.
ghost use Rattle.std.specs.Prelude.{◌≡◌, ◌++◌, OnOk};
ghost use Rattle.fab_language.specs.Evaluation.{ending_words, outcome_line, outcomes_text};
ghost use Rattle.fab_language.specs.Words.{spaced};
ghost use Rattle.fab_evaluation.specs.Asking.{asked};
ghost use Rattle.fab_lines.specs.Numbered.{AreNumbered};

use fab_base::{NoMemory, Seq};
use fab_language::Ending;
use fab_lines::{node_name, put_result, put_word, stop_word};
use fab_tree::resolved::{Request, Resolved};
use std::alloc::Global;

/// How a request ended, each word behind a space. Want of an object has no words.
fn put_ending(
    alloc: Global,
    out: &mut Seq<u8>,
    start: &Resolved,
    ending: Ending,
) -> Result<(), NoMemory>
    requires { AreNumbered start.now.roots }
    ensures { OnOk result (out.new ≡ out.old ++ spaced (ending_words start.now ending)) }
{
    match ending {
        Ending::Ended(value) => {
            put_word(out, "ended")?;
            out.push(b' ')?;
            put_result(alloc, out, start, value)
        }
        Ending::Failed => put_word(out, "failed"),
        Ending::Stopped(stop) => {
            put_word(out, "stopped")?;
            put_word(out, stop_word(stop))
        }
        Ending::Missing { .. } => Ok(()),
    }
}

/// The line of a request.
fn put_outcome(
    alloc: Global,
    out: &mut Seq<u8>,
    start: &Resolved,
    request: &Request,
    ending: Ending,
) -> Result<(), NoMemory>
    requires { AreNumbered start.now.roots }
    ensures { OnOk result (out.new ≡ out.old ++ outcome_line start.now request.now ending) }
{
    let number = request.number;
    let number = format!(in alloc; "{number}")?;
    out.extend(b"outcome")?;
    put_word(out, node_name(start, request.worker))?;
    put_word(out, number.as_str())?;
    put_ending(alloc, out, start, ending)?;
    out.push(b'\n')
}

/// A line for each request, with its ending.
pub(crate) fn put_outcomes(
    alloc: Global,
    out: &mut Seq<u8>,
    start: &Resolved,
    requests: &[&Request],
    endings: &[Ending],
) -> Result<(), NoMemory>
    requires { AreNumbered start.now.roots }
    ensures { OnOk result (out.new ≡ out.old ++ outcomes_text start.now (asked requests.now) endings.now) }
{
    let mut others = endings;
    for request in requests {
        let Some((ending, left)) = others.split_first() else {
            return Ok(());
        };
        put_outcome(alloc, out, start, *request, *ending)?;
        others = left;
    }
    Ok(())
}
