//! The objects that were answered.
ghost use Rattle.std.specs.Prelude.{◌≡◌, IfOk};
ghost use Rattle.std.specs.List.{IsDistinct};
ghost use Rattle.fab_base.specs.FlatMap.{is_same};
ghost use Rattle.fab_language.specs.Meaning.{field_of, with_field};
ghost use Rattle.fab_nested.specs.Nested.{names_of, objects_of, version_of, versions_of};

use fab_base::{NoMemory, Object, Oid, Seq, Value};
use indexmap::IndexMap;
use std::alloc::Global;

/// Copies of the objects, without their versions.
pub(crate) fn copies(
    alloc: Global,
    answers: &[(Oid, u32, Object)],
) -> Result<Vec<(Oid, Object)>, NoMemory>
    ensures { IfOk result (λ rows. rows.items ≡ objects_of answers.now) }
{
    let mut rows = Vec::new(alloc);
    for answer in answers {
        rows.push((answer.0, answer.2.copy(alloc)?))?;
    }
    Ok(rows)
}

/// The versions of the objects, by name.
pub(crate) fn versions_of(
    alloc: Global,
    answers: &[(Oid, u32, Object)],
) -> Result<IndexMap<Oid, u32>, NoMemory>
    requires { IsDistinct is_same (names_of answers.now) }
    ensures { IfOk result (λ versions. versions.entries ≡ versions_of answers.now) }
{
    let mut versions = IndexMap::new(alloc);
    for answer in answers {
        versions.insert(answer.0, answer.1)?;
    }
    Ok(versions)
}

/// The version with which an object was answered, 0 for none.
pub(crate) fn version_of(versions: &IndexMap<Oid, u32>, oid: Oid) -> u32
    ensures { result ≡ version_of versions.now.entries oid }
{
    versions.get(&oid).copied().unwrap_or(0)
}

/// What a field of an object holds; null where it has no such field.
pub fn field_of(object: &Object, field: u16) -> Value
    ensures { result ≡ field_of field object.now }
{
    let fields = object.fields.as_slice();
    fields.get(field as usize).copied().unwrap_or(Value::Null)
}

/// An object with another value in a field; it stays as it is where it has no such field.
pub(crate) fn with_field(object: Object, field: u16, value: Value) -> Object
    ensures { result ≡ with_field field value object }
{
    let class = object.class;
    let mut items = object.into_fields().into_vec();
    if (field as usize) < items.len() {
        items[field as usize] = value;
    }
    Object {
        class,
        fields: Seq::from_vec(items),
    }
}
