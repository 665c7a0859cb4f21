//! What an attempt touched.

ghost use Rattle.std.specs.Prelude.{◌≡◌, IfOk, map};
ghost use Rattle.fab_language.specs.Heaps.{touched};
ghost use Rattle.fab_protocol.specs.Versions.{version_of};

use crate::rows::version_in;
use fab_base::{NoMemory, Object, Oid, Seq};
use indexmap::IndexSet;
use std::alloc::Global;

/// The objects that were touched, each once, in the order of first touches.
fn touched_once(alloc: Global, touches: &[(u16, Oid)]) -> Result<IndexSet<Oid>, NoMemory>
    ensures { IfOk result (λ names. names.keys ≡ touched touches.now) }
{
    let mut names = IndexSet::new(alloc);
    for touch in touches {
        names.insert(touch.1)?;
    }
    Ok(names)
}

/// These names with the versions of these answers.
fn versions_of(
    alloc: Global,
    names: &[Oid],
    answers: &[(Oid, u32, Object)],
) -> Result<Seq<(Oid, u32)>, NoMemory>
    ensures { IfOk result (λ versions. versions ≡ map (λ o. (o, version_of answers.now o)) names.now) }
{
    let mut versions = Seq::new(alloc);
    for name in names {
        versions.push((*name, version_in(answers, *name)))?;
    }
    Ok(versions)
}

/// What was touched, with the versions of these answers.
pub fn touched_versions(
    alloc: Global,
    touches: &[(u16, Oid)],
    answers: &[(Oid, u32, Object)],
) -> Result<Seq<(Oid, u32)>, NoMemory>
    ensures { IfOk result (λ names. names ≡ map (λ o. (o, version_of answers.now o)) (touched touches.now)) }
{
    let names = touched_once(alloc, touches)?;
    versions_of(alloc, names.as_slice(), answers)
}
