//! What committed attempts endorsed, from what some nodes may have influenced to what they can't have.
ghost use Rattle.std.specs.Prelude.{◌≡◌, ◌++◌, [], ℕ, IfOk, OnOk, map, slice_get, unwrap_or};
ghost use Rattle.std.specs.List.{enumerate_from, flat_map, list_all};
ghost use Rattle.fab_base.specs.FlatMap.{map_of};
ghost use Rattle.fab_labelling.specs.Sites.{pcs_of, sites_of};
ghost use Rattle.fab_language.specs.Meaning.{meaning as what_is_meant};
ghost use Rattle.fab_meaning.specs.Ends.{IsMeant};
ghost use Rattle.fab_protocol.specs.Versions.{objects_of};
ghost use Rattle.fab_rights.specs.Computed.{has_bit};
ghost use Rattle.fab_settings.specs.Settings.{meant_of, request_at as request_of};
ghost use Rattle.fab_downgrades.specs.Downgraded.{downgraded_by};
ghost use Rattle.fab_trusted.specs.Trusted.{endorsed, endorses_at};
ghost use Rattle.fab_trust.specs.Endorsing.{is_let_in, opens_at, sites_let_in, values_let_in};

use fab_base::{NoMemory, Object, Oid, Seq, Value};
use fab_check::Checked;
use fab_downgrades::{Downgraded, downgraded_by};
use fab_map::ObjectMap;
use fab_meaning::{Meant, plain_meaning};
use fab_net::Commit;
use fab_places::Seen;
use fab_rights::is_in;
use fab_serial::request_at;
use fab_sets::{is_listed, set_of};
use fab_tree::Downgrade;
use fab_tree::resolved::{Method, Request, Resolved};
use indexmap::IndexSet;
use std::alloc::Global;

const FUEL: u32 = 1_000_000;

/// Where a program lets something in: the labels of its sites, which labels are trusted, and the sites at
/// which what isn't trusted is endorsed to what is.
#[derive(Drop)]
struct Doors<'a> {
    pcs: &'a [Seq<u16>],
    labels: u64,
    sites: IndexSet<u16>,
}

/// Whether what isn't trusted is endorsed to what is.
fn is_let_in(row: Downgraded, labels: u64) -> bool
    ensures { result ≡ is_let_in (has_bit labels) row }
{
    match row.downgrade {
        Downgrade::Declassify => false,
        Downgrade::Endorse => !is_in(labels, row.from) && is_in(labels, row.to),
    }
}

/// The sites at which that is so.
fn put_sites(out: &mut Seq<u16>, rows: &[Downgraded], labels: u64) -> Result<(), NoMemory>
    ensures { OnOk result (out.new ≡ out.old ++ sites_let_in (has_bit labels) rows.now) }
{
    for row in rows {
        if is_let_in(*row, labels) {
            out.push(row.site)?;
        }
    }
    Ok(())
}

/// Those of all methods.
fn sites_in(alloc: Global, methods: &[Method], labels: u64) -> Result<Seq<u16>, NoMemory>
    ensures { IfOk result (λ sites. sites ≡ flat_map (λ m. sites_let_in (has_bit labels) (downgraded_by m)) methods.now) }
{
    let mut sites = Seq::new(alloc);
    for method in methods {
        let rows = downgraded_by(alloc, method)?;
        put_sites(&mut sites, rows.as_slice(), labels)?;
    }
    Ok(sites)
}

/// Whether each of these labels is trusted.
fn are_trusted(labels: u64, these: &[u16]) -> bool
    ensures { result ≡ list_all (has_bit labels) these.now }
{
    these.iter().all(|label| is_in(labels, *label))
}

impl<'a> Doors<'a> {
    /// Where a bundle lets something in to this part.
    fn make(alloc: Global, checked: &'a Checked<'_>, part: &Seen) -> Result<Doors<'a>, NoMemory>
        requires pcs { checked.now.pcs ≡ pcs_of checked.now.start.now }
        requires numbered { sites_of checked.now.start.now ≡ enumerate_from 0 (pcs_of checked.now.start.now) }
        ensures { IfOk result (λ doors. (n : ℕ) → opens_at doors n ≡ endorses_at (has_bit part.now.labels) (has_bit part.now.classes) checked.now.start.now n) }
    {
        let sites = sites_in(alloc, checked.start.methods.as_slice(), part.labels)?;
        Ok(Doors {
            pcs: checked.pcs.as_slice(),
            labels: part.labels,
            sites: set_of(alloc, sites.as_slice())?,
        })
    }

    /// Whether all that decides at a site is trusted.
    fn is_trusted_at(&self, site: u16) -> bool
        ensures { result ≡ list_all (has_bit self.now.labels) (unwrap_or (slice_get self.now.pcs.now site) []) }
    {
        match self.pcs.get(usize::from(site)) {
            Some(pc) => are_trusted(self.labels, pc.as_slice()),
            None => true,
        }
    }

    /// Whether something is let in at a site.
    fn opens_at(&self, site: u16) -> bool
        ensures { result ≡ opens_at self.now site }
    {
        self.is_trusted_at(site) && is_listed(&self.sites, site)
    }
}

/// Of what was downgraded, the values that were let in.
fn values_let_in(
    alloc: Global,
    doors: &Doors<'_>,
    downs: &[(u16, Value)],
) -> Result<Seq<Value>, NoMemory>
    ensures { IfOk result (λ values. values ≡ values_let_in doors.now downs.now) }
{
    let mut values = Seq::new(alloc);
    for down in downs {
        if doors.opens_at(down.0) {
            values.push(down.1)?;
        }
    }
    Ok(values)
}

/// The objects of answers.
fn answered(alloc: Global, answers: &[(Oid, u32, Object)]) -> Result<ObjectMap, NoMemory>
    ensures { IfOk result (λ m. m ≡ map_of (objects_of answers.now)) }
{
    let mut map = ObjectMap::new(alloc);
    let mut rest = answers;
    while let Some((row, after)) = rest.split_first() {
        map.put(row.0, row.2.copy(alloc)?)?;
        rest = after;
    }
    Ok(map)
}

/// What a request of a commit did over its answers.
fn done(
    alloc: Global,
    start: &Resolved,
    request: &Request,
    commit: &Commit,
) -> Result<Meant, NoMemory>
    ensures { IfOk result (λ m. IsMeant m (what_is_meant start.now (map_of (objects_of commit.now.answers)) request.now commit.now.tid 1000000)) }
{
    let known = answered(alloc, commit.answers.as_slice())?;
    plain_meaning(alloc, start, &known, request, commit.tid, FUEL)
}

/// The values that a commit's attempt let in.
fn endorsed_by(
    alloc: Global,
    doors: &Doors<'_>,
    start: &Resolved,
    commit: &Commit,
) -> Result<Seq<Value>, NoMemory>
    ensures { IfOk result (λ values. values ≡ values_let_in doors.now
        (meant_of start.now (request_of start.now commit.now.worker commit.now.request) commit.now.tid (map_of (objects_of commit.now.answers))).downs) }
{
    match request_at(start, commit.worker, commit.request) {
        Some(request) => {
            let meant = done(alloc, start, request, commit)?;
            values_let_in(alloc, doors, meant.downs.as_slice())
        }
        None => Ok(Seq::new(alloc)),
    }
}

/// Of each commit the values that its attempt endorsed, in order, from what isn't in the part to what is,
/// at sites that are: what an attempt did is done again over its answers. The part is what some nodes
/// can't have influenced.
pub fn endorsed(
    alloc: Global,
    checked: &Checked<'_>,
    part: &Seen,
    commits: &[Commit],
) -> Result<Seq<Seq<Value>>, NoMemory>
    requires pcs { checked.now.pcs ≡ pcs_of checked.now.start.now }
    requires numbered { sites_of checked.now.start.now ≡ enumerate_from 0 (pcs_of checked.now.start.now) }
    ensures exact { IfOk result (λ values. values ≡ endorsed (has_bit part.now.labels) (has_bit part.now.classes) checked.now.start.now commits.now) }
{
    let doors = Doors::make(alloc, checked, part)?;
    let mut all = Seq::new(alloc);
    for commit in commits {
        all.push(endorsed_by(alloc, &doors, checked.start, commit)?)?;
    }
    Ok(all)
}
