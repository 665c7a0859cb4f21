//! What a set of nodes sees of a program, computed once.
ghost use Rattle.std.specs.Prelude.{◌≡◌, ◌&&◌, IfOk, map};
ghost use Rattle.fab_downgrades.specs.Downgraded.{plain};
ghost use Rattle.fab_release.specs.Bundles.{sight_of};
ghost use Rattle.fab_release.specs.Record.{is_in_view};
ghost use Rattle.fab_rights.specs.Computed.{has_bit};
ghost use Rattle.fab_record.specs.Views.{crosses, crossing_sites, sight_in};

use crate::hidden::hidden_sites;
use fab_base::{NoMemory, Oid, Seq};
use fab_downgrades::{Downgraded, downgraded_by_all};
use fab_places::Seen;
use fab_rights::is_in;
use fab_sets::{is_listed, set_of};
use fab_tree::resolved::Resolved;
use indexmap::IndexSet;
use std::alloc::Global;

/// What a set of nodes sees: the nodes of the set and the classes, as masks, the sites that are out of
/// view, and those of downgrades out of what it doesn't see into what it does.
pub(crate) struct Sights {
    pub(crate) nodes: u64,
    pub(crate) classes: u64,
    pub(crate) hidden: IndexSet<u16>,
    pub(crate) crossing: IndexSet<u16>,
}

impl Drop for Sights {
    fn drop(self) {
        let Sights {
            nodes,
            classes,
            hidden,
            crossing,
        } = self;
    }
}

impl Sights {
    /// What the nodes of the set see of a program.
    pub(crate) fn make(
        alloc: Global,
        nodes: u64,
        start: &Resolved,
        seen: &Seen,
    ) -> Result<Sights, NoMemory>
        ensures { IfOk result (λ sights. sight_in sights ≡ sight_of (has_bit seen.now.labels) (has_bit seen.now.classes) (has_bit nodes) start.now) }
    {
        let hidden = hidden_sites(alloc, start, seen.labels)?;
        let downgrades = downgraded_by_all(alloc, start.methods.as_slice())?;
        let crossing = crossing_sites(alloc, downgrades.as_slice(), seen.labels)?;
        Ok(Sights {
            nodes,
            classes: seen.classes,
            hidden: set_of(alloc, hidden.as_slice())?,
            crossing: set_of(alloc, crossing.as_slice())?,
        })
    }

    /// Whether the node is of the set.
    pub(crate) fn has(&self, node: u16) -> bool
        ensures { result ≡ (sight_in self.now).has node }
    {
        is_in(self.nodes, node)
    }

    /// Whether the set sees objects of the class.
    pub(crate) fn shows(&self, class: u16) -> bool
        ensures { result ≡ (sight_in self.now).shows class }
    {
        is_in(self.classes, class)
    }

    /// Whether the site is in view.
    fn in_view(&self, site: u16) -> bool
        ensures { result ≡ (sight_in self.now).in_view site }
    {
        !is_listed(&self.hidden, site)
    }

    /// Whether a downgrade at the site goes into view.
    pub(crate) fn into_view(&self, site: u16) -> bool
        ensures { result ≡ (sight_in self.now).into_view site }
    {
        self.in_view(site) && is_listed(&self.crossing, site)
    }

    /// Whether an object is touched in view.
    pub(crate) fn is_in_view(&self, touch: &(u16, Oid, u32)) -> bool
        ensures { result ≡ is_in_view (sight_in self.now) touch.now }
    {
        self.in_view(touch.0) && self.shows(touch.1.class)
    }
}

/// Whether a downgrade goes out of what isn't seen into what is.
fn crosses(downgrade: &Downgraded, labels: u64) -> bool
    ensures { result ≡ crosses (has_bit labels) (plain downgrade.now) }
{
    !is_in(labels, downgrade.from) && is_in(labels, downgrade.to)
}

/// The sites of those downgrades that go out of what isn't seen into what is.
fn crossing_sites(
    alloc: Global,
    downgrades: &[Downgraded],
    labels: u64,
) -> Result<Seq<u16>, NoMemory>
    ensures { IfOk result (λ sites. sites ≡ crossing_sites (has_bit labels) (map plain downgrades.now)) }
{
    let mut sites = Seq::new(alloc);
    for downgrade in downgrades {
        if crosses(downgrade, labels) {
            sites.push(downgrade.site)?;
        }
    }
    Ok(sites)
}
