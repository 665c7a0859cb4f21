//! What was sent into a set of nodes in a run, rebuilt from what is public.

ghost use Rattle.std.specs.Prelude.{◌≡◌, ◌<◌, ◌≤◌, ℕ, false, true, IfOk, length};
ghost use Rattle.fab_rights.specs.Computed.{has_bit};
ghost use Rattle.fab_node.specs.Standing.{GivenModel};
ghost use Rattle.fab_core.specs.Cores.{world_by};
ghost use Rattle.fab_sent.specs.Messages.{messages_in};
ghost use Rattle.fab_replay.specs.Replays.{IsReadyToView, view_of};
ghost use Rattle.fab_replay.specs.View.{CanBeSeen, IsViewInto};

use crate::isolated::is_isolated;
use crate::replayed::Wanted;
use fab_base::{NoMemory, Seq};
use fab_core::Core;
use fab_device::Journal;
use fab_listing::print_view;
use fab_places::{Seen, seen};
use fab_principals::Acts;
use fab_public::public;
use fab_record::{public_part, released};
use fab_sent::Sent;
use fab_tree::resolved::Resolved;
use std::alloc::Global;

/// What is wanted of a run to view what is sent into a set of nodes, as a mask, of an accepted bundle.
pub fn view_into(alloc: Global, program: Resolved, nodes: u64) -> Result<Wanted, NoMemory>
    requires { CanBeSeen program }
    ensures { IfOk result (IsViewInto program nodes) }
{
    let count = program.nodes.len() as u16;
    let acts = Acts::close(alloc, count, program.pairs.as_slice())?;
    let seen = seen(&program, &acts, nodes);
    let part = public_part(alloc, program, &seen)?;
    Ok(Wanted::View { nodes, seen, part })
}

/// The public replay of what the run so far has released to a set.
fn messages_into<J: Journal>(
    alloc: Global,
    core: &Core<J>,
    program: &Resolved,
    nodes: u64,
    seen: &Seen,
    part: &Resolved,
) -> Result<Sent, NoMemory>
    requires program { program.now ≡ core.now.given.program }
    requires ready { IsReadyToView core.now.given nodes seen.now part.now }
    ensures { IfOk result (λ sent. (n d : ℕ) → n < 64 → d < 64 → has_bit nodes n ≡ false → has_bit nodes d ≡ true
        → messages_in sent n d ≡ (world_by core.now.given core.now.moves).sent n d) }
{
    is_isolated(core);
    let released = released(alloc, nodes, program, seen, core.log())?;
    public(alloc, nodes, part, core.rights(), seen, released.as_slice())
}

/// What those outside a set have sent into it, as a text.
pub(crate) fn view_of<J: Journal>(
    alloc: Global,
    core: &Core<J>,
    program: &Resolved,
    nodes: u64,
    seen: &Seen,
    part: &Resolved,
) -> Result<Seq<u8>, NoMemory>
    requires program { program.now ≡ core.now.given.program }
    requires ready { IsReadyToView core.now.given nodes seen.now part.now }
    ensures { IfOk result (λ bytes. bytes ≡ view_of core.now.given nodes core.now.moves) }
{
    core.is_a_run();
    let sent = messages_into(alloc, core, program, nodes, seen, part)?;
    print_view(alloc, program, nodes, &sent)
}
