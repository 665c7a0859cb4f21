//! A report's lines, or the place at which bytes are none.
ghost use Rattle.std.specs.Prelude.{◌<◌, IfOk, length};
ghost use Rattle.fab_reports.specs.Reports.{IsReport};
ghost use Rattle.fab_reports.specs.Answers.{AnswersReport, RefusesRightly};

use crate::error::TraceError;
use crate::line::Line;
use crate::reading::whole_of;
use fab_base::Seq;
use fab_wire::Stop;
use std::alloc::Global;

/// The lines of the report that the bytes are.
pub fn read_events(alloc: Global, bytes: &[u8]) -> Result<Seq<Line>, TraceError>
    requires { length bytes.now < 4294967295 }
    // The bytes are the report of these lines.
    ensures found { IfOk result (λ lines. IsReport bytes.now lines) }
    // Whatever lines they are the report of are answered, unless memory runs out.
    ensures only { AnswersReport bytes.now result }
    // `Bad` comes only where they are no report, and its place is the length of their longest front
    // that begins one.
    ensures bad { RefusesRightly bytes.now result }
{
    match whole_of(alloc, bytes) {
        Ok(lines) => Ok(lines),
        Err(Stop::Memory) => Err(TraceError::Memory),
        Err(Stop::Bad { left }) => Err(TraceError::Bad {
            at: (bytes.len() - left) as u32,
        }),
    }
}
