//! The text of an evaluation.
ghost use Rattle.std.specs.Prelude.{◌≡◌, IfOk};
ghost use Rattle.fab_language.specs.Evaluation.{evaluation_text};
ghost use Rattle.fab_evaluation.specs.Roots.{IsResolved};

use crate::objects::at_start;
use crate::outcomes::put_outcomes;
use crate::sequence::{in_order, run};
use fab_base::{NoMemory, Seq};
use fab_lines::put_objects;
use fab_tree::resolved::Resolved;
use std::alloc::Global;
use std::sync::Arc;

/// The text of the evaluation of a bundle: a line for each request, in the order of the workers and
/// of each one's session, one for each object behind the last of them, in the order of their names,
/// and `end`.
pub fn evaluation(alloc: Global, start: Resolved) -> Result<Seq<u8>, NoMemory>
    requires { IsResolved start }
    ensures { IfOk result (λ text. text ≡ evaluation_text start) }
{
    let start = Arc::new(alloc, start)?;
    let requests = in_order(alloc, &start)?;
    let objects = at_start(alloc, &start)?;
    let ran = run(alloc, &start, objects, requests.as_slice())?;
    let mut text = Seq::new(alloc);
    put_outcomes(
        alloc,
        &mut text,
        &start,
        requests.as_slice(),
        ran.endings.as_slice(),
    )?;
    put_objects(alloc, &mut text, &start, ran.map.rows())?;
    text.extend(b"end\n")?;
    Ok(text)
}
