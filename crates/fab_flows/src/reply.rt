//! The whole reply.
ghost use Rattle.std.specs.Prelude.{◌≡◌, ◌++◌, IfOk, codes, length};
ghost use Rattle.fab_language.specs.Flows.{IsFlowReply, delegations_of, policy_text};
ghost use Rattle.fab_language.specs.Words.{line};
ghost use Rattle.fab_flows.specs.Numbers.{HasOwners, HasPrincipals};

use crate::covers::put_covers;
use crate::names::put_policy;
use fab_base::{Label, NoMemory, Policy, Seq};
use fab_principals::Acts;
use fab_tree::resolved::Resolved;
use std::alloc::Global;

/// That a label doesn't flow to another, for this policy.
fn refusal(
    alloc: Global,
    start: &Resolved,
    sign: &str,
    policy: &Policy,
) -> Result<Seq<u8>, NoMemory>
    ensures { IfOk result (λ text. text ≡ line (codes "no") ++ line (policy_text start.now sign.now policy.now)) }
{
    let mut out = Seq::from_slice(alloc, b"no\n")?;
    put_policy(&mut out, start, sign, policy)?;
    out.push(b'\n')?;
    Ok(out)
}

/// What is replied to whether a label flows to another, with the closed delegations.
fn reply(
    alloc: Global,
    start: &Resolved,
    acts: &Acts,
    from: &Label,
    to: &Label,
) -> Result<Seq<u8>, NoMemory>
    requires of { acts.now ≡ delegations_of start.now }
    requires from_owned { HasOwners acts.now.count from.now }
    requires to_owned { HasOwners acts.now.count to.now }
    ensures { IfOk result (λ text. IsFlowReply start.now from.now to.now text) }
{
    let mut out = Seq::from_slice(alloc, b"yes\n")?;
    let (conf, by) = (from.conf.as_slice(), to.conf.as_slice());
    if let Some(at) = put_covers(&mut out, start, acts, "->", conf, by)? {
        return refusal(alloc, start, "->", &conf[at]);
    }
    let (integ, by) = (to.integ.as_slice(), from.integ.as_slice());
    if let Some(at) = put_covers(&mut out, start, acts, "<-", integ, by)? {
        return refusal(alloc, start, "<-", &integ[at]);
    }
    Ok(out)
}

/// What is replied to whether a label flows to another: `yes` and why, or `no` and the first
/// policy that stands in the way.
pub fn flow_reply(
    alloc: Global,
    start: &Resolved,
    from: &Label,
    to: &Label,
) -> Result<Seq<u8>, NoMemory>
    requires principals { HasPrincipals start.now }
    requires from_owned { HasOwners (length start.now.nodes) from.now }
    requires to_owned { HasOwners (length start.now.nodes) to.now }
    ensures { IfOk result (λ text. IsFlowReply start.now from.now to.now text) }
{
    let count = start.nodes.len() as u16;
    let acts = Acts::close(alloc, count, start.pairs.as_slice())?;
    reply(alloc, start, &acts, from, to)
}
