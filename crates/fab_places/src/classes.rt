//! The rights over the classes of a bundle.

ghost use Rattle.std.specs.Prelude.{◌≡◌, ℕ, ◌<◌, ◌≤◌, IfOk, IfSome, All, length, map};
ghost use Rattle.fab_language.specs.Flows.{delegations_of};
ghost use Rattle.fab_places.specs.Places.{AreRights, HasNumbers, shape_of};
ghost use Rattle.fab_places.specs.ClassRights.{IsClassRights};

use crate::nodes::{influencing, reading, stores, workers};
use fab_base::{NoMemory, Seq};
use fab_principals::Acts;
use fab_rights::{ClassRights, Rights, Shape};
use fab_tree::resolved::{Class, Field, Resolved, Sort};
use std::alloc::Global;

/// What a field holds.
fn shape_of(field: &Field) -> Shape
    ensures { result ≡ shape_of field.now }
{
    match field.sort {
        Sort::Number(width) => Shape::Number(width),
        Sort::Class(class) => Shape::Class(class.number),
    }
}

fn shapes_of(alloc: Global, fields: &[Field]) -> Result<Seq<Shape>, NoMemory>
    ensures { IfOk result (λ shapes. shapes ≡ map shape_of fields.now) }
{
    let mut shapes = Seq::new(alloc);
    for field in fields {
        shapes.push(shape_of(field))?;
    }
    Ok(shapes)
}

/// The rights over a class.
fn class_rights(
    alloc: Global,
    start: &Resolved,
    acts: &Acts,
    class: &Class,
) -> Result<ClassRights, NoMemory>
    requires of { acts.now ≡ delegations_of start.now }
    requires few { length start.now.nodes ≤ 64 }
    requires numbers { HasNumbers start.now }
    ensures { IfOk result (λ x. IsClassRights start.now class.now x) }
{
    let readers = reading(start, acts, class.label.number);
    let writers = influencing(start, acts, class.label.number);
    let learners = reading(start, acts, class.access.number);
    let fetchers = workers(start) & readers;
    Ok(ClassRights {
        fetchers,
        writers: fetchers & writers,
        holders: stores(start) & readers & learners & writers,
        fields: shapes_of(alloc, class.fields.as_slice())?,
    })
}

/// What workers and stores are to know of a bundle's classes and nodes.
pub fn rights(alloc: Global, start: &Resolved, acts: &Acts) -> Result<Rights, NoMemory>
    requires of { acts.now ≡ delegations_of start.now }
    requires few { length start.now.nodes ≤ 64 }
    requires numbers { HasNumbers start.now }
    ensures exact { IfOk result (λ rights. AreRights start.now rights) }
{
    let mut classes = Seq::new(alloc);
    for class in start.classes.as_slice() {
        classes.push(class_rights(alloc, start, acts, class)?)?;
    }
    Ok(Rights::make(workers(start), stores(start), classes))
}
