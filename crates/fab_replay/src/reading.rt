//! What somebody may read beside a run.

ghost use Rattle.std.specs.Prelude.{◌≡◌, ◌<◌, ◌↔◌, find, option_copied, ℕ, IfOk, IsTrue, MatchOption};
ghost use Rattle.std.specs.Str.{bytes_eq};
ghost use Rattle.fab_base.specs.declared.object.Oid.{Oid as AnyOid};
ghost use Rattle.fab_language.specs.Flows.{delegations_of};
ghost use Rattle.fab_front.specs.Readable.{ClassExcludesHostile, IsReadable, is_declared_hostile};
ghost use Rattle.fab_places.specs.Places.{HasNumbers};
ghost use Rattle.fab_rights.specs.Computed.{has_bit};
ghost use Rattle.fab_replay.specs.Reading.{IsReadingOf};
ghost use Rattle.fab_replay.specs.View.{CanBeSeen};

use fab_base::{NoMemory, Text};
use fab_listing::hostile_nodes;
use fab_places::excluding;
use fab_principals::Acts;
use fab_reads::Reading;
use fab_rights::is_in;
use fab_tree::resolved::{Resolved, Root};
use std::alloc::Global;

/// The root of this name.
fn root_named<'a>(program: &'a Resolved, name: &Text) -> Option<&'a Root>
    ensures { option_copied result ≡ find (λ x. bytes_eq x.name.text name.now) program.now.roots }
{
    program
        .roots
        .as_slice()
        .iter()
        .find(|x| x.name.text.as_str() == name.as_str())
}

/// Whether the node of this number is one of the hostile ones.
fn is_hostile(program: &Resolved, hostile: u64, number: u16) -> bool
    requires numbers { HasNumbers program.now }
    requires hostile { (n : ℕ) → n < 64 → has_bit hostile n ≡ is_declared_hostile program.now n }
    ensures { result ≡ is_declared_hostile program.now number }
{
    let _program = program;
    is_in(hostile, number)
}

/// The classes whose objects none of these nodes may have influenced, which are the hostile ones.
fn trusted_without(program: &Resolved, acts: &Acts, hostile: u64) -> u64
    requires of { acts.now ≡ delegations_of program.now }
    requires seen { CanBeSeen program.now }
    requires numbers { HasNumbers program.now }
    requires hostile { (n : ℕ) → n < 64 → has_bit hostile n ≡ is_declared_hostile program.now n }
    ensures { (c : ℕ) → IsTrue (has_bit result c) ↔ ClassExcludesHostile program.now c }
{
    excluding(program, acts, hostile)
}

/// The classes whose objects no hostile node may have influenced, as a mask.
fn trusted_classes(alloc: Global, program: &Resolved, hostile: u64) -> Result<u64, NoMemory>
    requires seen { CanBeSeen program.now }
    requires numbers { HasNumbers program.now }
    requires hostile { (n : ℕ) → n < 64 → has_bit hostile n ≡ is_declared_hostile program.now n }
    ensures { IfOk result (λ classes. (c : ℕ) → IsTrue (has_bit classes c) ↔ ClassExcludesHostile program.now c) }
{
    let count = program.nodes.len() as u16;
    let acts = Acts::close(alloc, count, program.pairs.as_slice())?;
    Ok(trusted_without(program, &acts, hostile))
}

/// What is read so often of the root of this name, of an accepted bundle; nothing where no root of that name may be
/// read: each stands at a store that was declared hostile, or some hostile node may have influenced its class.
pub fn read_in(
    alloc: Global,
    program: &Resolved,
    root: &Text,
    times: u32,
) -> Result<Option<Reading>, NoMemory>
    requires seen { CanBeSeen program.now }
    requires numbers { HasNumbers program.now }
    ensures { IfOk result (λ found. MatchOption found ((oid : AnyOid) → IsReadable program.now root.now oid → ⊥) (IsReadingOf program.now root.now times)) }
{
    let Some(root) = root_named(program, root) else {
        return Ok(None);
    };
    let hostile = hostile_nodes(program);
    let classes = trusted_classes(alloc, program, hostile)?;
    let oid = root.oid;
    if is_hostile(program, hostile, oid.store) {
        return Ok(None);
    }
    if !is_in(classes, oid.class) {
        return Ok(None);
    }
    Ok(Some(Reading {
        oid,
        classes,
        times,
    }))
}
