//! Names that aren't declared in the space that their place needs.
ghost use Rattle.std.specs.Prelude.{◌≡◌, fold, option_copied};
ghost use Rattle.fab_language.specs.Unknown.{if_found, in_principal, in_label, in_class_name, in_method_name, in_sort};
ghost use Rattle.fab_rules.specs.First.{first_from};

mod declarations;
mod expressions;
mod heads;
mod methods;
mod run;

pub use declarations::{in_class, in_delegation, in_label_text};
use fab_language::{Fault, NameRule};
use fab_rules::noted_unless;
use fab_tables::Tables;
use fab_tree::{Name, Sort};
pub use heads::{in_assignment, in_call, in_declaration, in_result, in_test, in_write};
pub use methods::in_heading;
pub use run::{in_crash, in_event, in_post, in_root, in_session};

/// A name that stands for something, or a fault.
fn if_found<T>(first: Option<Fault>, found: Option<&T>, name: &Name) -> Option<Fault>
    ensures { result ≡ first_from first (if_found (option_copied found.entry) name.now) }
{
    noted_unless(found.is_some(), first, NameRule::Unknown, name.at)
}

/// The name of a principal.
fn in_principal(tables: &Tables<'_>, first: Option<Fault>, name: &Name) -> Option<Fault>
    ensures { result ≡ first_from first (in_principal tables.now name.now) }
{
    if_found(first, tables.principal(name), name)
}

/// The names of principals.
fn in_principals(tables: &Tables<'_>, first: Option<Fault>, names: &[Name]) -> Option<Fault>
    ensures { result ≡ fold (λ a x. first_from a (in_principal tables.now x)) first names.now }
{
    names
        .iter()
        .fold(first, |first, name| in_principal(tables, first, name))
}

/// The name of a label, also as that of an `atomic`.
pub fn in_label(tables: &Tables<'_>, first: Option<Fault>, name: &Name) -> Option<Fault>
    ensures { result ≡ first_from first (in_label tables.now name.now) }
{
    if_found(first, tables.label(name), name)
}

/// The name of a class.
fn in_class_name(tables: &Tables<'_>, first: Option<Fault>, name: &Name) -> Option<Fault>
    ensures { result ≡ first_from first (in_class_name tables.now name.now) }
{
    if_found(first, tables.class(name), name)
}

/// The name of a method.
fn in_method_name(tables: &Tables<'_>, first: Option<Fault>, name: &Name) -> Option<Fault>
    ensures { result ≡ first_from first (in_method_name tables.now name.now) }
{
    if_found(first, tables.method(name), name)
}

/// The type of a field, a parameter, a local or a result.
fn in_sort(tables: &Tables<'_>, first: Option<Fault>, sort: &Sort) -> Option<Fault>
    ensures { result ≡ first_from first (in_sort tables.now sort.now) }
{
    match sort {
        Sort::Number(_) => first,
        Sort::Class(name) => in_class_name(tables, first, name),
    }
}
