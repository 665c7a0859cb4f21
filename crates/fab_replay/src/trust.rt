//! Trusted replay of a run, without a set of nodes.

ghost use Rattle.std.specs.Prelude.{◌≡◌, IfOk, MatchOption};
ghost use Rattle.fab_authority.specs.Authority.{HasFew};
ghost use Rattle.fab_flows.specs.Numbers.{HasPrincipals};
ghost use Rattle.fab_labelling.specs.Claims.{IsWellLabelled};
ghost use Rattle.fab_labelling.specs.Sites.{pcs_of};
ghost use Rattle.fab_language.specs.Flows.{delegations_of};
ghost use Rattle.fab_lines.specs.Numbered.{AreNumbered};
ghost use Rattle.fab_rights.specs.Computed.{has_bit};
ghost use Rattle.fab_trusted.specs.Robust.{IsFirstUnkept, IsRobust, guards};
ghost use Rattle.fab_replay.specs.Replays.{trust_of};
ghost use Rattle.fab_replay.specs.Trusted.{IsTrustIn, IsTrusted, trusted_in};
ghost use Rattle.fab_replay.specs.View.{CanBeSeen};

use crate::replayed::Wanted;
use fab_base::{NoMemory, Seq};
use fab_check::{Checked, LabelError, check};
use fab_core::Core;
use fab_device::Journal;
use fab_listing::print_trusted;
use fab_map::ObjectMap;
use fab_places::{Seen, trusted};
use fab_principals::Acts;
use fab_serial::{commits, commits_are_honest};
use fab_tree::resolved::Resolved;
use fab_trust::{RobustError, endorsed, robust, trusted_replay};
use fab_trusted::{Guard, robust_values_trusted, trusted_replay_agrees};
use std::alloc::{AllocError, Global};

/// Whichever set of nodes is distrusted, if the hostile ones are among them: what the others hold of classes that
/// exclude it is trusted replay of the commits, and in a robust program so is what its guarded declassifications
/// let out.
pub fn is_trusted<J: Journal>(core: &Core<J>)
    ensures { IsTrusted core.now.given core.now.moves }
{
    core.is_a_run();
    trusted_replay_agrees();
    robust_values_trusted();
}

/// What is wanted of a run for its trusted replay without a set of nodes, as a mask, of an accepted bundle.
pub fn trust_in(alloc: Global, program: &Resolved, nodes: u64) -> Result<Wanted, NoMemory>
    requires { CanBeSeen program.now }
    ensures { IfOk result (IsTrustIn program.now nodes) }
{
    let count = program.nodes.len() as u16;
    let acts = Acts::close(alloc, count, program.pairs.as_slice())?;
    let part = trusted(program, &acts, nodes);
    Ok(Wanted::Trust { nodes, part })
}

/// The labels of the sites of an accepted bundle.
fn checked<'a>(alloc: Global, program: &'a Resolved, acts: &Acts) -> Result<Checked<'a>, NoMemory>
    requires of { acts.now ≡ delegations_of program.now }
    requires few { HasFew program.now }
    requires labelled { IsWellLabelled program.now }
    ensures start { IfOk result (λ c. c.start.now ≡ program.now) }
    ensures pcs { IfOk result (λ c. c.pcs ≡ pcs_of program.now) }
{
    match check(alloc, program, acts) {
        Ok(checked) => Ok(checked),
        Err(LabelError::Memory) => Err(AllocError),
        Err(LabelError::Refused { .. }) => unreachable!(),
    }
}

/// The first declassification of an accepted bundle that isn't robust, if there is one.
pub fn first_unkept(alloc: Global, program: &Resolved) -> Result<Option<Guard>, NoMemory>
    requires principals { HasPrincipals program.now }
    requires few { HasFew program.now }
    requires labelled { IsWellLabelled program.now }
    ensures { IfOk result (λ found. MatchOption found (IsRobust program.now) (IsFirstUnkept program.now (guards program.now))) }
{
    let count = program.nodes.len() as u16;
    let acts = Acts::close(alloc, count, program.pairs.as_slice())?;
    let checked = checked(alloc, program, &acts)?;
    match robust(alloc, &checked, &acts) {
        Ok(()) => Ok(None),
        Err(RobustError::Memory) => Err(AllocError),
        Err(
            RobustError::Refused {
                at,
                source,
                principal,
            },
        ) => Ok(Some(Guard {
            at,
            source,
            principal,
        })),
    }
}

/// Trusted replay of the run so far.
fn replayed<J: Journal>(
    alloc: Global,
    core: &Core<J>,
    program: &Resolved,
    part: &Seen,
) -> Result<ObjectMap, NoMemory>
    requires program { program.now ≡ core.now.given.program }
    ensures { IfOk result (λ map. map ≡ trusted_in core.now.given (has_bit part.now.labels) (has_bit part.now.classes) core.now.moves) }
{
    core.is_a_run();
    commits_are_honest();
    let count = program.nodes.len() as u16;
    let acts = Acts::close(alloc, count, program.pairs.as_slice())?;
    let checked = checked(alloc, program, &acts)?;
    let commits = commits(alloc, core.log())?;
    let endorsed = endorsed(alloc, &checked, part, commits.as_slice())?;
    trusted_replay(
        alloc,
        program,
        part,
        commits.as_slice(),
        endorsed.as_slice(),
    )
}

/// The same, as a text.
pub(crate) fn trust_of<J: Journal>(
    alloc: Global,
    core: &Core<J>,
    program: &Resolved,
    part: &Seen,
) -> Result<Seq<u8>, NoMemory>
    requires program { program.now ≡ core.now.given.program }
    requires numbered { AreNumbered program.now.roots }
    ensures { IfOk result (λ bytes. bytes ≡ trust_of core.now.given (has_bit part.now.labels) (has_bit part.now.classes) core.now.moves) }
{
    let map = replayed(alloc, core, program, part)?;
    print_trusted(alloc, program, map.rows())
}
