//! Where the names in a method are looked up.
ghost use Rattle.std.specs.Prelude.{◌≡◌, ◌≤◌, length, map};
ghost use Rattle.fab_language.specs.Names.{class_name, field_name, named, number_of};
ghost use Rattle.fab_language.specs.Uses.{field_number, fields_in, fields_of_sort};
ghost use Rattle.fab_tree.specs.Limits.{greatest};

use crate::locals::Locals;
use fab_tables::{Tables, number_among};
use fab_tree::{Name, Sort};

/// The tables of a bundle, whose classes have so few fields that their numbers fit, and the locals of
/// one of its methods.
pub(crate) struct Scope<'t, 'a> {
    pub(crate) tables: &'t Tables<'a>,
    pub(crate) locals: Locals<'a>,
    ghost fields: { greatest (map (λ c. length c.fields) tables.now.program.classes) ≤ 16 },
}

impl<'t, 'a> Drop for Scope<'t, 'a> {
    fn drop(self) {
        let Scope { tables, locals } = self;
    }
}

impl Scope<'_, '_> {
    /// The number of the field of this name in the class of the local of that name.
    pub(crate) fn field_number(&self, object: &Name, field: &Name) -> u16
        ensures { result ≡ field_number self.now.tables.now self.now.locals object.now field.now }
    {
        match self.locals.find(object) {
            Some(local) => self.field_of_sort(local.sort, field),
            None => 0,
        }
    }

    fn field_of_sort(&self, sort: &Sort, field: &Name) -> u16
        ensures { result ≡ number_of field_name (fields_of_sort self.now.tables.now sort.now) field.now }
    {
        match sort {
            Sort::Number(_) => 0,
            Sort::Class(class) => self.field_in(class, field),
        }
    }

    /// The number of the field of this name in the class of that name.
    fn field_in(&self, class: &Name, field: &Name) -> u16
        ensures { result ≡ number_of field_name (fields_in (named class_name self.now.tables.now.program.classes class.now)) field.now }
    {
        match self.tables.class(class) {
            Some(class) => number_among(class.fields.as_slice(), field) as u16,
            None => 0,
        }
    }
}
