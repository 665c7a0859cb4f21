//! Whether declassifications are robust.
ghost use Rattle.std.specs.Prelude.{◌≡◌, ◌∷◌, [], ℕ, IfOk, Err as Refusing, slice_get, unwrap_or};
ghost use Rattle.std.specs.List.{flat_map};
ghost use Rattle.fab_language.specs.Flows.{delegations_of};
ghost use Rattle.fab_labelling.specs.Readers.{label_at};
ghost use Rattle.fab_labelling.specs.Sites.{pcs_of};
ghost use Rattle.fab_trusted.specs.Robust.{IsFirstUnkept, IsRobust, guards};
ghost use Rattle.fab_trust.specs.Noted.{guards_at, kind_guards, method_guards, is_kept, noted, sooner};
ghost use Rattle.fab_trust.specs.declared.error.RobustError.TheVariants.{Refused};

use crate::error::RobustError;
use fab_base::{NoMemory, Policy, Seq};
use fab_check::Checked;
use fab_downgrades::{Downgraded, downgraded_by};
use fab_labels::first_cover;
use fab_principals::Acts;
use fab_tree::Downgrade;
use fab_tree::resolved::{Method, Resolved, Use};
use fab_trusted::Guard;
use std::alloc::Global;

/// A bundle, the labels of its sites, and who acts for whom in it.
#[derive(Clone, Copy)]
struct Scope<'a> {
    alloc: Global,
    start: &'a Resolved,
    pcs: &'a [Seq<u16>],
    acts: &'a Acts,
}

/// The policies of integrity of the label of this number. A label that isn't there says nothing.
fn integ_at(start: &Resolved, label: u16) -> &[Policy]
    ensures { result.now ≡ (label_at start.now label).integ }
{
    match start.labels.as_slice().get(usize::from(label)) {
        Some(named) => named.label.integ.as_slice(),
        None => &[],
    }
}

/// Whether a guard is kept: what flows to the integrity of a principal alone has a policy that covers it.
fn is_kept(scope: &Scope<'_>, guard: Guard) -> bool
    requires { scope.now.acts.now ≡ delegations_of scope.now.start.now }
    ensures { result ≡ is_kept scope.now.start.now guard }
{
    let alone = Policy {
        owner: guard.principal,
        others: Seq::new(scope.alloc),
    };
    first_cover(scope.acts, integ_at(scope.start, guard.source), &alone).is_some()
}

/// The first by its place of the guard so far and this one.
fn sooner(first: Option<Guard>, guard: Guard) -> Option<Guard>
    ensures { result ≡ sooner first guard }
{
    match first {
        None => Some(guard),
        Some(before) => {
            if guard.at < before.at {
                Some(guard)
            } else {
                Some(before)
            }
        }
    }
}

/// One guard more.
fn note(scope: &Scope<'_>, first: Option<Guard>, guard: Guard) -> Option<Guard>
    requires { scope.now.acts.now ≡ delegations_of scope.now.start.now }
    ensures { result ≡ noted scope.now.start.now first (guard ∷ []) }
{
    if is_kept(scope, guard) {
        first
    } else {
        sooner(first, guard)
    }
}

/// One label, for each principal of an authority.
fn note_label(
    scope: &Scope<'_>,
    first: Option<Guard>,
    at: u32,
    source: u16,
    authority: &[Use],
) -> Option<Guard>
    requires { scope.now.acts.now ≡ delegations_of scope.now.start.now }
    ensures { result ≡ noted scope.now.start.now first (guards_at at source authority.now) }
{
    let mut found = first;
    for principal in authority {
        let guard = Guard {
            at,
            source,
            principal: principal.number,
        };
        found = note(scope, found, guard);
    }
    found
}

/// Some labels, for each principal of an authority.
fn note_labels(
    scope: &Scope<'_>,
    first: Option<Guard>,
    at: u32,
    sources: &[u16],
    authority: &[Use],
) -> Option<Guard>
    requires { scope.now.acts.now ≡ delegations_of scope.now.start.now }
    ensures { result ≡ noted scope.now.start.now first (flat_map (λ l. guards_at at l authority.now) sources.now) }
{
    let mut found = first;
    for source in sources {
        found = note_label(scope, found, at, *source, authority);
    }
    found
}

/// The labels that decide at a site, the outermost first.
fn pc_at<'a>(scope: &Scope<'a>, site: u16) -> &'a [u16]
    ensures { result.now ≡ unwrap_or (slice_get scope.now.pcs.now site) [] }
{
    match scope.pcs.get(usize::from(site)) {
        Some(labels) => labels.as_slice(),
        None => &[],
    }
}

/// A downgrade, if it declassifies.
fn note_row(
    scope: &Scope<'_>,
    first: Option<Guard>,
    row: Downgraded,
    authority: &[Use],
) -> Option<Guard>
    requires { scope.now.acts.now ≡ delegations_of scope.now.start.now }
    ensures { result ≡ noted scope.now.start.now first (kind_guards scope.now.pcs.now authority.now row) }
{
    match row.downgrade {
        Downgrade::Declassify => {
            let decided = note_labels(scope, first, row.at, pc_at(scope, row.site), authority);
            note_label(scope, decided, row.at, row.from, authority)
        }
        Downgrade::Endorse => first,
    }
}

/// The declassifications among downgrades.
fn note_rows(
    scope: &Scope<'_>,
    first: Option<Guard>,
    rows: &[Downgraded],
    authority: &[Use],
) -> Option<Guard>
    requires { scope.now.acts.now ≡ delegations_of scope.now.start.now }
    ensures { result ≡ noted scope.now.start.now first (flat_map (kind_guards scope.now.pcs.now authority.now) rows.now) }
{
    let mut found = first;
    for row in rows {
        found = note_row(scope, found, *row, authority);
    }
    found
}

/// The declassifications of methods.
fn note_methods(scope: &Scope<'_>, methods: &[Method]) -> Result<Option<Guard>, NoMemory>
    requires { scope.now.acts.now ≡ delegations_of scope.now.start.now }
    ensures { IfOk result (λ first. first ≡ noted scope.now.start.now None (flat_map (method_guards scope.now.pcs.now) methods.now)) }
{
    let mut found = None;
    for method in methods {
        let rows = downgraded_by(scope.alloc, method)?;
        found = note_rows(scope, found, rows.as_slice(), method.authority.as_slice());
    }
    Ok(found)
}

/// Whether each `declassify` of a bundle is robust: whoever may not act for the authority of its method
/// has influenced neither that it is done nor what is declassified, by the integrity of the labels that
/// decide and of the label from which it is. The first that isn't is told, by its place; of one place
/// the label that decides first, the outermost first, and for each label the authority in the order of
/// the text.
pub fn robust(alloc: Global, checked: &Checked<'_>, acts: &Acts) -> Result<(), RobustError>
    requires of { acts.now ≡ delegations_of checked.now.start.now }
    requires pcs { checked.now.pcs ≡ pcs_of checked.now.start.now }
    ensures right { IfOk result (λ _. IsRobust checked.now.start.now) }
    ensures refused { (at source principal : ℕ) → result ≡ Refusing (Refused at source principal)
        → IsFirstUnkept checked.now.start.now (guards checked.now.start.now) (record { at = at; source = source; principal = principal }) }
{
    let scope = Scope {
        alloc,
        start: checked.start,
        pcs: checked.pcs.as_slice(),
        acts,
    };
    match note_methods(&scope, checked.start.methods.as_slice())? {
        Some(guard) => Err(RobustError::Refused {
            at: guard.at,
            source: guard.source,
            principal: guard.principal,
        }),
        None => Ok(()),
    }
}
