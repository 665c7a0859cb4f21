//! What a bundle gives its nodes.

ghost use Rattle.std.specs.Prelude.{◌≡◌, ◌≢◌, ◌<◌, ◌^◌, [], None as Nothing, IfOk, MatchOption};
ghost use Rattle.fab_tree.specs.Limits.{first_passed};
ghost use Rattle.fab_language.specs.Faults.{faults};
ghost use Rattle.fab_flows.specs.Numbers.{HasPrincipals};
ghost use Rattle.fab_places.specs.Places.{AreRights, HasNumbers};
ghost use Rattle.fab_setup.specs.Setups.{IsAcceptedBundle, IsAcceptedSetup, IsSetupOf};

use fab_base::NoMemory;
use fab_fitting::read_numbers;
use fab_names::{NameError, resolve};
use fab_places::rights;
use fab_principals::Acts;
use fab_rights::Rights;
use fab_tree::Start;
use fab_tree::resolved::Resolved;
use std::alloc::{AllocError, Global};
use std::sync::Arc;

/// What every node of a bundle is given: the bundle with numbers for names, and what to know of nodes
/// and classes.
#[derive(Drop)]
pub struct Setup {
    pub program: Arc<Resolved>,
    pub rights: Rights,
}

/// The rights over the classes of a bundle.
fn rights_of(alloc: Global, resolved: &Resolved) -> Result<Rights, NoMemory>
    requires principals { HasPrincipals resolved.now }
    requires numbers { HasNumbers resolved.now }
    ensures exact { IfOk result (AreRights resolved.now) }
    ensures masks { IfOk result (λ rights. (rights.workers < 2 ^ 64) × (rights.stores < 2 ^ 64)) }
{
    let count = resolved.nodes.len() as u16;
    let acts = Acts::close(alloc, count, resolved.pairs.as_slice())?;
    rights(alloc, resolved, &acts)
}

/// What a bundle gives its nodes, unless it breaks a rule of names and types.
pub fn setup_of(alloc: Global, start: &Start) -> Result<Option<Setup>, NoMemory>
    requires within { first_passed start.now ≡ Nothing }
    ensures given { IfOk result (λ found. MatchOption found (faults start.now ≢ []) (IsSetupOf start.now)) }
{
    match resolve(alloc, start) {
        Ok(resolved) => {
            let rights = rights_of(alloc, &resolved)?;
            let program = Arc::new(alloc, resolved)?;
            Ok(Some(Setup { program, rights }))
        }
        Err(NameError::Refused { .. }) => Ok(None),
        Err(NameError::Memory) => Err(AllocError),
    }
}

/// What an accepted bundle gives its nodes, of the bundle with numbers for names: all that nodes ask
/// of a bundle and its rights. Each number in it is read, since its type says that it fits.
pub fn accepted_setup(alloc: Global, resolved: Resolved) -> Result<Setup, NoMemory>
    requires { IsAcceptedBundle resolved }
    ensures { IfOk result (IsAcceptedSetup resolved) }
{
    read_numbers(&resolved);
    let rights = rights_of(alloc, &resolved)?;
    let program = Arc::new(alloc, resolved)?;
    Ok(Setup { program, rights })
}
