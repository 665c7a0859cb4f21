//! The text of an audit, read: the report and the journals behind it, or the place at which it is none.

ghost use Rattle.std.specs.Prelude.{◌<◌, IfOk, length};
ghost use Rattle.fab_evidence.specs.Reading.{AnswersText, AreNamed};
ghost use Rattle.fab_evidence.specs.Texts.{AnswersAudit, IsAuditText, RefusesRightly};

use crate::journals::journals_of;
use crate::shown::Evidence;
use fab_reports::{TraceError, report_of};
use fab_tree::resolved::Resolved;
use fab_wire::Stop;
use std::alloc::Global;

/// The report at the front, and the journals that all bytes behind it are.
fn evidence_of(
    alloc: Global,
    program: &Resolved,
    nodes: &[u16],
    text: &[u8],
) -> Result<Evidence, Stop>
    requires few { length text.now < 4294967295 }
    requires named { AreNamed program.now nodes.now }
    ensures { AnswersText program.now nodes.now text.now result }
{
    let (lines, rest) = report_of(alloc, text)?;
    let journals = journals_of(alloc, program, nodes, rest)?;
    Ok(Evidence { lines, journals })
}

/// The lines of the report and the journals of these nodes that the text is of.
pub fn read_audit(
    alloc: Global,
    program: &Resolved,
    nodes: &[u16],
    text: &[u8],
) -> Result<Evidence, TraceError>
    requires few { length text.now < 4294967295 }
    requires named { AreNamed program.now nodes.now }
    // The text is of these lines and journals.
    ensures found { IfOk result (λ x. IsAuditText program.now nodes.now text.now x.lines x.journals) }
    // Whatever lines and journals it is of are answered, unless memory runs out.
    ensures only { AnswersAudit program.now nodes.now text.now result }
    // `Bad` comes only where it is of none, and its place is the length of the longest front that begins such
    // a text.
    ensures bad { RefusesRightly program.now nodes.now text.now result }
{
    match evidence_of(alloc, program, nodes, text) {
        Ok(evidence) => Ok(evidence),
        Err(Stop::Memory) => Err(TraceError::Memory),
        Err(Stop::Bad { left }) => Err(TraceError::Bad {
            at: (text.len() - left) as u32,
        }),
    }
}
