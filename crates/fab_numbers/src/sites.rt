//! The numbers of sites, taken one after the other.
ghost use Rattle.std.specs.Prelude.{◌≡◌, suc};
ghost use Rattle.fab_numbers.specs.declared.sites.Refusal.TheVariants.{Memory};
ghost use Rattle.fab_numbers.specs.Gives.{Gives};

use std::alloc::AllocError;

/// Why nothing is numbered: memory ran out, or the numbers of sites did.
#[derive(Clone, Copy, Debug, PartialEq, Eq)]
pub(crate) enum Refusal {
    Memory,
    Sites,
}

impl From<AllocError> for Refusal {
    ghost from_gives = { λ _ e. e ≡ Memory };

    fn from(_: AllocError) -> Self {
        Refusal::Memory
    }
}

/// The number of the next site.
pub(crate) fn next_site(sites: &mut u16) -> Result<u16, Refusal>
    ensures { Gives result sites.new (sites.old, suc sites.old) }
{
    let site = *sites;
    match site.checked_add(1) {
        Some(next) => {
            *sites = next;
            Ok(site)
        }
        None => Err(Refusal::Sites),
    }
}
