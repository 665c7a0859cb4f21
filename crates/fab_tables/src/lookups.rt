//! Look-ups by name, in a table or by a scan.
ghost use Rattle.std.specs.Prelude.{◌≡◌, ◌≤◌, length, option_copied, slice_get};
ghost use Rattle.std.specs.List.{position};
ghost use Rattle.fab_language.specs.Names.{is_same_name, named, number_of};
ghost use Rattle.fab_tables.specs.Places.{texts_of};

use crate::name_table::NameTable;
use crate::named::Named;
use fab_tree::Name;

/// The first of this name.
pub fn first_named<'a, T: Named>(
    items: &'a [T],
    table: &NameTable<'_>,
    name: &Name,
) -> Option<&'a T>
    requires { table.now ≡ texts_of T.name items.now }
    ensures { option_copied result ≡ named T.name items.now name.now }
{
    match table.find(name) {
        Some(place) => item_at(items, place),
        None => None,
    }
}

/// The item at a place.
pub(crate) fn item_at<T>(items: &[T], place: u32) -> Option<&T>
    ensures { option_copied result ≡ slice_get items.now place }
{
    items.get(place as usize)
}

/// How many stand before the first of this name, or how many there are where none has it.
pub fn number_of<T: Named>(items: &[T], table: &NameTable<'_>, name: &Name) -> usize
    requires { table.now ≡ texts_of T.name items.now }
    ensures number { result ≡ number_of T.name items.now name.now }
    ensures within { result ≤ length items.now }
{
    match table.find(name) {
        Some(place) => place as usize,
        None => items.len(),
    }
}

/// The first of this name, by a scan.
pub fn first_among<'a, T: Named>(items: &'a [T], name: &Name) -> Option<&'a T>
    ensures { option_copied result ≡ named T.name items.now name.now }
{
    items.iter().find(|item| are_same(item.name(), name))
}

/// How many stand before the first of this name, or how many there are where none has it, by a scan.
pub fn number_among<T: Named>(items: &[T], name: &Name) -> usize
    ensures number { result ≡ number_of T.name items.now name.now }
    ensures within { result ≤ length items.now }
{
    place_among(items, name).unwrap_or(items.len())
}

/// Where the first of this name stands.
fn place_among<T: Named>(items: &[T], name: &Name) -> Option<usize>
    ensures { result ≡ position (λ y. is_same_name (T.name y) name.now) items.now }
{
    items.iter().position(|item| are_same(item.name(), name))
}

/// Whether two names have one text.
pub fn are_same(left: &Name, right: &Name) -> bool
    ensures { result ≡ is_same_name left.now right.now }
{
    left.text.as_str() == right.text.as_str()
}
