//! Policies that cover policies, a line for each.
ghost use Rattle.std.specs.Prelude.{◌≡◌, ◌<◌, OnOk, IfOk, IfSome, MatchOption, length};
ghost use Rattle.fab_base.specs.Principals.{ActsFor, IsBestChain};
ghost use Rattle.fab_language.specs.Flows.{delegations_of};
ghost use Rattle.fab_flows.specs.Lines.{GrowsByLine, GrowsByLines, IsFirstUncoveredAt};
ghost use Rattle.fab_flows.specs.Numbers.{AreOwned};

use crate::names::put_line;
use fab_base::{NoMemory, Policy, Seq};
use fab_labels::first_cover;
use fab_principals::Acts;
use fab_tree::resolved::Resolved;

/// The best chain from p to q, who are principals, and p acts for q.
fn chain_between(acts: &Acts, p: u16, q: u16) -> Result<Seq<u16>, NoMemory>
    requires p_below { p < acts.now.count }
    requires q_below { q < acts.now.count }
    requires acts { ActsFor acts.now p q }
    ensures { IfOk result (IsBestChain acts.now p q) }
{
    match acts.path(p, q)? {
        Some(chain) => Ok(chain),
        None => unreachable!(),
    }
}

/// The line of a policy that another covers.
fn put_cover(
    out: &mut Seq<u8>,
    start: &Resolved,
    acts: &Acts,
    sign: &str,
    i: &Policy,
    j: &Policy,
) -> Result<(), NoMemory>
    requires of { acts.now ≡ delegations_of start.now }
    requires i_owned { i.now.owner < acts.now.count }
    requires j_owned { j.now.owner < acts.now.count }
    requires acts { ActsFor acts.now j.now.owner i.now.owner }
    ensures { OnOk result (GrowsByLine start.now sign.now i.now j.now out.old out.new) }
{
    let chain = chain_between(acts, j.owner, i.owner)?;
    put_line(out, start, sign, i, j, chain.as_slice())
}

/// A line for each of these policies, or the place of the first that none of the others covers.
pub fn put_covers(
    out: &mut Seq<u8>,
    start: &Resolved,
    acts: &Acts,
    sign: &str,
    policies: &[Policy],
    by: &[Policy],
) -> Result<Option<usize>, NoMemory>
    requires of { acts.now ≡ delegations_of start.now }
    requires owned { AreOwned acts.now.count policies.now }
    requires by_owned { AreOwned acts.now.count by.now }
    ensures covered { IfOk result (λ found. MatchOption found
        (GrowsByLines start.now sign.now by.now policies.now out.old out.new)
        (λ at. IsFirstUncoveredAt start.now by.now policies.now at)) }
    ensures within { IfOk result (λ found. IfSome found (λ at. at < length policies.now)) }
{
    for (at, i) in policies.iter().enumerate() {
        match first_cover(acts, by, i) {
            Some(k) => put_cover(out, start, acts, sign, i, &by[k])?,
            None => return Ok(Some(at)),
        }
    }
    Ok(None)
}
