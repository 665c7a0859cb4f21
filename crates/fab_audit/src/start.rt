//! What an audit begins with: all nodes of the bundle, over journals that never fail.

ghost use Rattle.std.specs.Prelude.{◌≡◌, [], IfOk, length};
ghost use Rattle.std.specs.List.{AllByRecursion};
ghost use Rattle.fab_tree.specs.declared.start.Start.{Start};
ghost use Rattle.fab_language.specs.Numbers.{resolved};
ghost use Rattle.fab_settings.specs.Settings.{IsAcceptedWith};
ghost use Rattle.fab_core.specs.Honest.{honest_in};
ghost use Rattle.fab_core.specs.Starts.{given_by};
ghost use Rattle.fab_audit.specs.Steps.{AreSure};

use fab_base::{NoMemory, Seq};
use fab_core::{Core, CoreRefused};
use fab_device::SureJournal;
use fab_rights::Rights;
use fab_tree::resolved::Resolved;
use std::alloc::{AllocError, Global};
use std::sync::Arc;

/// An empty journal for each of these nodes.
fn empty_journals(alloc: Global, nodes: &[u16]) -> Result<Seq<SureJournal>, NoMemory>
    ensures long { IfOk result (λ journals. length journals ≡ length nodes.now) }
    ensures empty { IfOk result (λ journals. AllByRecursion (λ j. j.content ≡ []) journals) }
{
    let mut journals = Seq::new(alloc);
    let mut rest = nodes;
    'nodes: while let Some((_, after)) = rest.split_first() {
        journals.push(SureJournal::new(alloc)?)?;
        rest = after;
    }
    Ok(journals)
}

/// All nodes at the start of a run.
pub(crate) fn at_start(
    alloc: Global,
    program: Arc<Resolved>,
    rights: Rights,
    nodes: &[u16],
) -> Result<Core<SureJournal>, NoMemory>
    requires accepted { (s : Start) × (resolved s ≡ program.value) × IsAcceptedWith s rights }
    requires nodes { nodes.now ≡ honest_in (given_by program.value rights) }
    ensures given { IfOk result (λ core. core.given ≡ given_by program.value rights) }
    ensures moves { IfOk result (λ core. core.moves ≡ []) }
    ensures sure { IfOk result (λ core. AreSure core.journals) }
{
    let journals = empty_journals(alloc, nodes)?;
    match Core::make(alloc, program, rights, journals) {
        Ok(core) => Ok(core),
        Err(CoreRefused::Memory { .. }) => Err(AllocError),
        Err(CoreRefused::Journal { .. }) => unreachable!(),
    }
}
