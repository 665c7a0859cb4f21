//! Whether a bundle is accepted: its names, its types and its labels.
ghost use Rattle.std.specs.Prelude.{◌≡◌, None as Nothing, [], IfOk, MatchOption, MatchResult};
ghost use Rattle.fab_tree.specs.Limits.{first_passed};
ghost use Rattle.fab_language.specs.Faults.{faults, IsFirst};
ghost use Rattle.fab_language.specs.Numbers.{resolved as resolved_of};
ghost use Rattle.fab_authority.specs.Authority.{HasFew};
ghost use Rattle.fab_flows.specs.Numbers.{HasPrincipals};
ghost use Rattle.fab_labelling.specs.Claims.{IsWellLabelled};
ghost use Rattle.fab_labelling.specs.Refusals.{IsFirstRefusal};
ghost use Rattle.fab_front.specs.Accepted.{IsAccepted};

use fab_base::NoMemory;
use fab_check::{LabelError, check};
use fab_labelling::Refusal;
use fab_language::Fault;
use fab_names::{NameError, resolve};
use fab_principals::Acts;
use fab_tree::Start;
use fab_tree::resolved::Resolved;
use std::alloc::{AllocError, Global};

/// A bundle with numbers for names that keeps all rules, the first fault of its names, or the first
/// refusal of its labels.
#[derive(Drop)]
pub enum Accepted {
    Bundle(Resolved),
    Misnamed(Fault),
    Mislabelled {
        resolved: Resolved,
        refusal: Refusal,
    },
}

/// A bundle with numbers for names, or its first fault.
pub fn named(alloc: Global, start: &Start) -> Result<Result<Resolved, Fault>, NoMemory>
    requires { first_passed start.now ≡ Nothing }
    ensures { IfOk result (λ found. MatchResult found (λ r. (faults start.now ≡ []) × (r ≡ resolved_of start.now)) (IsFirst (faults start.now))) }
{
    match resolve(alloc, start) {
        Ok(resolved) => Ok(Ok(resolved)),
        Err(NameError::Refused { rule, at }) => Ok(Err(Fault { rule, at })),
        Err(NameError::Memory) => Err(AllocError),
    }
}

/// The first refusal of a bundle's labels, if there is one.
fn refusal_of(alloc: Global, resolved: &Resolved) -> Result<Option<Refusal>, NoMemory>
    requires principals { HasPrincipals resolved.now }
    requires few { HasFew resolved.now }
    ensures { IfOk result (λ found. MatchOption found (IsWellLabelled resolved.now) (IsFirstRefusal resolved.now)) }
{
    let count = resolved.nodes.len() as u16;
    let acts = Acts::close(alloc, count, resolved.pairs.as_slice())?;
    match check(alloc, resolved, &acts) {
        Ok(_) => Ok(None),
        Err(
            LabelError::Refused {
                rule,
                at,
                source,
                target,
            },
        ) => Ok(Some(Refusal {
            rule,
            at,
            source,
            target,
        })),
        Err(LabelError::Memory) => Err(AllocError),
    }
}

/// Whether a bundle is accepted.
pub fn accept(alloc: Global, start: &Start) -> Result<Accepted, NoMemory>
    requires { first_passed start.now ≡ Nothing }
    ensures { IfOk result (IsAccepted start.now) }
{
    match named(alloc, start)? {
        Err(fault) => Ok(Accepted::Misnamed(fault)),
        Ok(resolved) => {
            let told = refusal_of(alloc, &resolved)?;
            match told {
                None => Ok(Accepted::Bundle(resolved)),
                Some(refusal) => Ok(Accepted::Mislabelled { resolved, refusal }),
            }
        }
    }
}
