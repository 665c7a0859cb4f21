//! The lists of a bundle, each gone through by one rule.
ghost use Rattle.std.specs.Prelude.{◌≡◌, fold};
ghost use Rattle.fab_language.specs.Arity as counted;
ghost use Rattle.fab_language.specs.Roles as placed;
ghost use Rattle.fab_language.specs.Types as kinds;
ghost use Rattle.fab_language.specs.Unknown as names;
ghost use Rattle.fab_rules.specs.First.{first_from};

use fab_language::Fault;
use fab_spaces::{roles, unknown};
use fab_tables::Tables;
use fab_tree::{Class, CrashLine, Delegation, Event, LabelText, PostLine, Root, Session};
use fab_types::arity;

/// Names that aren't declared, in delegations.
pub(crate) fn unknown_in_delegations(
    tables: &Tables<'_>,
    first: Option<Fault>,
    items: &[Delegation],
) -> Option<Fault>
    ensures { result ≡ fold (λ a x. first_from a (names.in_delegation tables.now x)) first items.now }
{
    items
        .iter()
        .fold(first, |first, x| unknown::in_delegation(tables, first, x))
}

/// Names that aren't declared, in labels.
pub(crate) fn unknown_in_labels(
    tables: &Tables<'_>,
    first: Option<Fault>,
    items: &[LabelText],
) -> Option<Fault>
    ensures { result ≡ fold (λ a x. first_from a (names.in_label_text tables.now x)) first items.now }
{
    items
        .iter()
        .fold(first, |first, x| unknown::in_label_text(tables, first, x))
}

/// Names that aren't declared, in classes.
pub(crate) fn unknown_in_classes(
    tables: &Tables<'_>,
    first: Option<Fault>,
    items: &[Class],
) -> Option<Fault>
    ensures { result ≡ fold (λ a x. first_from a (names.in_class tables.now x)) first items.now }
{
    items
        .iter()
        .fold(first, |first, x| unknown::in_class(tables, first, x))
}

/// Names that aren't declared, in roots.
pub(crate) fn unknown_in_roots(
    tables: &Tables<'_>,
    first: Option<Fault>,
    items: &[Root],
) -> Option<Fault>
    ensures { result ≡ fold (λ a x. first_from a (names.in_root tables.now x)) first items.now }
{
    items
        .iter()
        .fold(first, |first, x| unknown::in_root(tables, first, x))
}

/// Names that aren't declared, in sessions.
pub(crate) fn unknown_in_sessions(
    tables: &Tables<'_>,
    first: Option<Fault>,
    items: &[Session],
) -> Option<Fault>
    ensures { result ≡ fold (λ a x. first_from a (names.in_session tables.now x)) first items.now }
{
    items
        .iter()
        .fold(first, |first, x| unknown::in_session(tables, first, x))
}

/// Names that aren't declared, in posts.
pub(crate) fn unknown_in_posts(
    tables: &Tables<'_>,
    first: Option<Fault>,
    items: &[PostLine],
) -> Option<Fault>
    ensures { result ≡ fold (λ a x. first_from a (names.in_post tables.now x)) first items.now }
{
    items
        .iter()
        .fold(first, |first, x| unknown::in_post(tables, first, x))
}

/// Names that aren't declared, in crashes.
pub(crate) fn unknown_in_crashes(
    tables: &Tables<'_>,
    first: Option<Fault>,
    items: &[CrashLine],
) -> Option<Fault>
    ensures { result ≡ fold (λ a x. first_from a (names.in_crash tables.now x)) first items.now }
{
    items
        .iter()
        .fold(first, |first, x| unknown::in_crash(tables, first, x))
}

/// Names that aren't declared, in events.
pub(crate) fn unknown_in_events(
    tables: &Tables<'_>,
    first: Option<Fault>,
    items: &[Event],
) -> Option<Fault>
    ensures { result ≡ fold (λ a x. first_from a (names.in_event tables.now x)) first items.now }
{
    items
        .iter()
        .fold(first, |first, x| unknown::in_event(tables, first, x))
}

/// Principals of another kind than their places need, in roots.
pub(crate) fn misplaced_in_roots(
    tables: &Tables<'_>,
    first: Option<Fault>,
    items: &[Root],
) -> Option<Fault>
    ensures { result ≡ fold (λ a x. first_from a (placed.in_root tables.now x)) first items.now }
{
    items
        .iter()
        .fold(first, |first, x| roles::in_root(tables, first, x))
}

/// Principals of another kind than their places need, in sessions.
pub(crate) fn misplaced_in_sessions(
    tables: &Tables<'_>,
    first: Option<Fault>,
    items: &[Session],
) -> Option<Fault>
    ensures { result ≡ fold (λ a x. first_from a (placed.in_session tables.now x)) first items.now }
{
    items
        .iter()
        .fold(first, |first, x| roles::in_session(tables, first, x))
}

/// Principals of another kind than their places need, in posts.
pub(crate) fn misplaced_in_posts(
    tables: &Tables<'_>,
    first: Option<Fault>,
    items: &[PostLine],
) -> Option<Fault>
    ensures { result ≡ fold (λ a x. first_from a (placed.in_post tables.now x)) first items.now }
{
    items
        .iter()
        .fold(first, |first, x| roles::in_post(tables, first, x))
}

/// Principals of another kind than their places need, in crashes.
pub(crate) fn misplaced_in_crashes(
    tables: &Tables<'_>,
    first: Option<Fault>,
    items: &[CrashLine],
) -> Option<Fault>
    ensures { result ≡ fold (λ a x. first_from a (placed.in_crash tables.now x)) first items.now }
{
    items
        .iter()
        .fold(first, |first, x| roles::in_crash(tables, first, x))
}

/// Principals of another kind than their places need, in events.
pub(crate) fn misplaced_in_events(
    tables: &Tables<'_>,
    first: Option<Fault>,
    items: &[Event],
) -> Option<Fault>
    ensures { result ≡ fold (λ a x. first_from a (placed.in_event tables.now x)) first items.now }
{
    items
        .iter()
        .fold(first, |first, x| roles::in_event(tables, first, x))
}

/// Too many or too few given, in roots.
pub(crate) fn miscounted_in_roots(
    tables: &Tables<'_>,
    first: Option<Fault>,
    items: &[Root],
) -> Option<Fault>
    ensures { result ≡ fold (λ a x. first_from a (counted.in_root tables.now x)) first items.now }
{
    items
        .iter()
        .fold(first, |first, x| arity::in_root(tables, first, x))
}

/// Too many or too few given, in sessions.
pub(crate) fn miscounted_in_sessions(
    tables: &Tables<'_>,
    first: Option<Fault>,
    items: &[Session],
) -> Option<Fault>
    ensures { result ≡ fold (λ a x. first_from a (counted.in_session tables.now x)) first items.now }
{
    items
        .iter()
        .fold(first, |first, x| arity::in_session(tables, first, x))
}

/// Values of other types than their places need, in roots.
pub(crate) fn mistyped_in_roots(
    tables: &Tables<'_>,
    first: Option<Fault>,
    items: &[Root],
) -> Option<Fault>
    ensures { result ≡ fold (λ a x. first_from a (kinds.in_root tables.now x)) first items.now }
{
    items
        .iter()
        .fold(first, |first, x| fab_types::in_root(tables, first, x))
}

/// Values of other types than their places need, in sessions.
pub(crate) fn mistyped_in_sessions(
    tables: &Tables<'_>,
    first: Option<Fault>,
    items: &[Session],
) -> Option<Fault>
    ensures { result ≡ fold (λ a x. first_from a (kinds.in_session tables.now x)) first items.now }
{
    items
        .iter()
        .fold(first, |first, x| fab_types::in_session(tables, first, x))
}
