ghost use Rattle.std.specs.Prelude.{◌≡◌, ◌<◌, ◌≤◌, ◌^◌, ◌↔◌, length, slice_get, IsTrue, IfSome};
ghost use Rattle.fab_base.specs.Labels.{FlowsConf, FlowsInteg, Flows, DeclassifyOk, EndorseOk, IsFirstCover};

use crate::policies::{are_covered, are_covered_with, first_cover};
use fab_base::Label;
use fab_principals::Acts;

/// Whether a flows to b: b forbids each reading that a does, and a each writing that b does.
pub fn flows(acts: &Acts, a: &Label, b: &Label) -> bool
    ensures exact { IsTrue result ↔ Flows acts.now a.now b.now }
{
    flows_integ(acts, a, b) && flows_conf(acts, a, b)
}

/// Whether the confidentiality of a flows to that of b.
pub fn flows_conf(acts: &Acts, a: &Label, b: &Label) -> bool
    ensures exact { IsTrue result ↔ FlowsConf acts.now a.now b.now }
{
    are_covered(acts, a.conf.as_slice(), b.conf.as_slice())
}

/// Whether the integrity of a flows to that of b.
pub fn flows_integ(acts: &Acts, a: &Label, b: &Label) -> bool
    ensures exact { IsTrue result ↔ FlowsInteg acts.now a.now b.now }
{
    are_covered(acts, b.integ.as_slice(), a.integ.as_slice())
}

/// Whether a may be declassified to b with the authority of the principals whose bits are set.
pub fn declass_ok(acts: &Acts, a: &Label, b: &Label, authority: u64) -> bool
    ensures exact { IsTrue result ↔ DeclassifyOk acts.now a.now b.now authority }
{
    are_covered_with(acts, a.conf.as_slice(), b.conf.as_slice(), authority)
        && flows_integ(acts, a, b)
}

/// Whether a may be endorsed to b with the authority of the principals whose bits are set.
pub fn endorse_ok(acts: &Acts, a: &Label, b: &Label, authority: u64) -> bool
    ensures exact { IsTrue result ↔ EndorseOk acts.now a.now b.now authority }
{
    flows_conf(acts, a, b)
        && are_covered_with(acts, b.integ.as_slice(), a.integ.as_slice(), authority)
}

/// A place as a number of 32 bits.
fn narrow(place: Option<usize>) -> Option<u32>
    requires { IfSome place (λ k. k < 2 ^ 32) }
    ensures { result ≡ place }
{
    match place {
        Some(k) => Some(k as u32),
        None => None,
    }
}

/// The first confidentiality policy of b that covers policy i of a.
pub fn cover_conf(acts: &Acts, a: &Label, b: &Label, i: u32) -> Option<u32>
    requires within { i < length a.now.conf }
    requires countable { length b.now.conf ≤ 2 ^ 32 }
    ensures first { IfSome (slice_get a.now.conf i) (λ policy. IsFirstCover acts.now b.now.conf policy result) }
{
    narrow(first_cover(acts, b.conf.as_slice(), &a.conf.as_slice()[i as usize]))
}

/// The first integrity policy of a that covers policy j of b.
pub fn cover_integ(acts: &Acts, a: &Label, b: &Label, j: u32) -> Option<u32>
    requires within { j < length b.now.integ }
    requires countable { length a.now.integ ≤ 2 ^ 32 }
    ensures first { IfSome (slice_get b.now.integ j) (λ policy. IsFirstCover acts.now a.now.integ policy result) }
{
    narrow(first_cover(acts, a.integ.as_slice(), &b.integ.as_slice()[j as usize]))
}
