//! Whether a report, and journals behind it, are those of a run.

ghost use Rattle.std.specs.Prelude.{◌≡◌, ◌≤◌, true, IfOk, length};
ghost use Rattle.std.specs.List.{AllByRecursion};
ghost use Rattle.fab_reports.specs.Lines.{AreBytes};
ghost use Rattle.fab_audit.specs.Auditing.{IsAudit, IsBundle, IsVerdict};
ghost use Rattle.fab_audit.specs.Right.{first_wrong, kept_journal};
ghost use Rattle.fab_audit.specs.Runs.{honest_nodes};
ghost use Rattle.fab_audit.specs.Steps.{RunsAsTold};
ghost use Rattle.fab_evidence.specs.Marks.{told_in};
ghost use Rattle.fab_evidence.specs.Texts.{IsAuditText};

use crate::keeping::put_all_kept;
use crate::retelling::retell;
use crate::start::at_start;
use crate::verdict::{AuditError, Verdict};
use fab_base::NoMemory;
use fab_core::Core;
use fab_device::SureJournal;
use fab_evidence::{
    Difference, Evidence, first_before_barred, first_difference, read_audit, told_in,
};
use fab_replay::{honest_nodes, report_of};
use fab_reports::TraceError;
use fab_rights::Rights;
use fab_tree::resolved::Resolved;
use std::alloc::Global;
use std::sync::Arc;

/// The first line of the text that isn't the one that belongs there, behind the run of the events that are told.
fn compared(
    alloc: Global,
    core: &Core<SureJournal>,
    program: &Resolved,
    evidence: &Evidence,
    all: bool,
    text: &[u8],
) -> Result<Option<Difference>, NoMemory>
    requires program { program.now ≡ core.now.given.program }
    requires ran { RunsAsTold core.now.given (told_in program.now core.now.given.rights evidence.now.lines) core.now.moves all }
    requires form { IsAuditText program.now (honest_nodes program.now core.now.given.rights) text.now evidence.now.lines evidence.now.journals }
    requires few { length text.now ≤ 4194304 }
    ensures first { IfOk result (λ found. found ≡ first_wrong program.now core.now.given.rights text.now evidence.now.lines evidence.now.journals) }
    ensures bytes { IfOk result (λ _. all ≡ true → AllByRecursion (λ j. AreBytes (kept_journal program.now core.now.given.rights core.now.moves j).bytes) evidence.now.journals) }
{
    core.is_a_run();
    let mut kept = report_of(alloc, core, program)?;
    if !all {
        return first_before_barred(alloc, text, kept.as_slice(), core.log().len() + 1);
    }
    put_all_kept(&mut kept, core, program, evidence.journals.as_slice())?;
    first_difference(alloc, text, kept.as_slice())
}

/// The verdict on a text that is of these lines and journals.
fn judged(
    alloc: Global,
    program: Arc<Resolved>,
    rights: Rights,
    bundle: &Resolved,
    nodes: &[u16],
    evidence: &Evidence,
    text: &[u8],
) -> Result<Verdict, NoMemory>
    requires accepted { IsBundle program.value rights }
    requires bundle { bundle.now ≡ program.value }
    requires nodes { nodes.now ≡ honest_nodes program.value rights }
    requires form { IsAuditText bundle.now nodes.now text.now evidence.now.lines evidence.now.journals }
    requires few { length text.now ≤ 4194304 }
    ensures { IfOk result (IsVerdict program.value rights text.now) }
{
    let told = told_in(alloc, bundle, &rights, evidence.lines.as_slice())?;
    let mut core = at_start(alloc, program, rights, nodes)?;
    let all = retell(alloc, &mut core, bundle, told.as_slice())?;
    match compared(alloc, &core, bundle, evidence, all, text)? {
        None => Ok(Verdict::Right),
        Some(difference) => Ok(Verdict::Wrong(difference)),
    }
}

/// The same as `audit`, with the bundle at hand.
fn audit_of(
    alloc: Global,
    program: Arc<Resolved>,
    rights: Rights,
    bundle: &Resolved,
    text: &[u8],
) -> Result<Verdict, AuditError>
    requires accepted { IsBundle program.value rights }
    requires bundle { bundle.now ≡ program.value }
    requires few { length text.now ≤ 4194304 }
    ensures { IsAudit program.value rights text.now result }
{
    let nodes = honest_nodes(alloc, bundle, &rights)?;
    match read_audit(alloc, bundle, nodes.as_slice(), text) {
        Ok(evidence) => Ok(judged(
            alloc,
            program,
            rights,
            bundle,
            nodes.as_slice(),
            &evidence,
            text,
        )?),
        Err(TraceError::Memory) => Err(AuditError::Memory),
        Err(TraceError::Bad { at }) => Err(AuditError::Trace { at }),
    }
}

/// Whether the text is a report, and journals behind it, of a run of an accepted bundle, which is what a text stands for.
/// The bundle's schedule and its crash lines aren't asked: the events that the report tells come one after the other,
/// each done once, and what the run then shows is compared, line by line. It costs what a replay of these events does,
/// also where an early line is wrong, and beside the run the text, its lines and the report of the run are in memory; it
/// needs no threads.
pub fn audit(
    alloc: Global,
    program: Arc<Resolved>,
    rights: Rights,
    text: &[u8],
) -> Result<Verdict, AuditError>
    requires accepted { IsBundle program.value rights }
    requires few { length text.now ≤ 4194304 }
    ensures { IsAudit program.value rights text.now result }
{
    let bundle = program.clone()?;
    audit_of(alloc, program, rights, &bundle, text)
}
