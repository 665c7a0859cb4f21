//! Names of principals, and policies.
ghost use Rattle.std.specs.Prelude.{◌≡◌, ◌++◌, ◌∷◌, [], OnOk};
ghost use Rattle.std.specs.List.{flat_map};
ghost use Rattle.fab_language.specs.Flows.{principal_text, members_text, policy_text, cover_line};
ghost use Rattle.fab_flows.specs.Lines.{named};

use fab_base::{NoMemory, Policy, Seq};
use fab_tree::resolved::Resolved;

/// The name of the principal of a number, or nothing where there is none.
fn principal_name(start: &Resolved, number: u16) -> &str
    ensures { result.now ≡ principal_text start.now number }
{
    match start.nodes.as_slice().get(usize::from(number)) {
        Some(principal) => principal.name.text.as_str(),
        None => "",
    }
}

fn put_principal(out: &mut Seq<u8>, start: &Resolved, number: u16) -> Result<(), NoMemory>
    ensures { OnOk result (out.new ≡ out.old ++ principal_text start.now number) }
{
    out.extend(principal_name(start, number).as_bytes())
}

/// Each name behind a mark.
fn put_behind(
    out: &mut Seq<u8>,
    start: &Resolved,
    mark: &str,
    numbers: &[u16],
) -> Result<(), NoMemory>
    ensures { OnOk result (out.new ≡ out.old ++ flat_map (λ m. mark.now ++ principal_text start.now m) numbers.now) }
{
    let mut rest = numbers;
    'numbers: while let Some((number, after)) = rest.split_first() {
        out.extend(mark.as_bytes())?;
        put_principal(out, start, *number)?;
        rest = after;
    }
    Ok(())
}

/// Names with a mark between.
fn put_names(
    out: &mut Seq<u8>,
    start: &Resolved,
    mark: &str,
    numbers: &[u16],
) -> Result<(), NoMemory>
    ensures { OnOk result (out.new ≡ out.old ++ named start.now mark.now numbers.now) }
{
    match numbers.split_first() {
        None => Ok(()),
        Some((first, others)) => {
            put_principal(out, start, *first)?;
            put_behind(out, start, mark, others)
        }
    }
}

/// Members behind a space, if there are any.
fn put_members(out: &mut Seq<u8>, start: &Resolved, members: &[u16]) -> Result<(), NoMemory>
    ensures { OnOk result (out.new ≡ out.old ++ members_text start.now members.now) }
{
    if members.is_empty() {
        return Ok(());
    }
    out.push(b' ')?;
    put_names(out, start, ", ", members)
}

/// A policy, by the sign of its half of a label.
pub fn put_policy(
    out: &mut Seq<u8>,
    start: &Resolved,
    sign: &str,
    policy: &Policy,
) -> Result<(), NoMemory>
    ensures { OnOk result (out.new ≡ out.old ++ policy_text start.now sign.now policy.now) }
{
    put_principal(out, start, policy.owner)?;
    out.push(b' ')?;
    out.extend(sign.as_bytes())?;
    put_members(out, start, policy.others.as_slice())
}

/// The line of a policy, one that covers it, and the chain from that one's owner to its owner.
pub fn put_line(
    out: &mut Seq<u8>,
    start: &Resolved,
    sign: &str,
    i: &Policy,
    j: &Policy,
    chain: &[u16],
) -> Result<(), NoMemory>
    ensures { OnOk result (out.new ≡ out.old ++ cover_line start.now sign.now i.now j.now chain.now) }
{
    put_policy(out, start, sign, i)?;
    out.extend(b" by ")?;
    put_policy(out, start, sign, j)?;
    out.extend(b" via ")?;
    put_names(out, start, " ", chain)?;
    out.push(b'\n')
}
