//! What numbers come to. More of them than a sum of 128 bits can take have no room in memory.
ghost use Rattle.std.specs.Prelude.{◌≡◌, ◌+ℤ◌, IfOk, map, flat_map};
ghost use Rattle.fab_drill.specs.Summary.{joined, number_in, numbers_of, total};

use fab_base::{NoMemory, Object, Oid, Seq, Value};
use std::alloc::AllocError;

/// The number in a field, 0 where there is none.
fn number_in(value: Value) -> i32
    ensures { result ≡ number_in value }
{
    match value {
        Value::Int(number) => number,
        Value::Null | Value::Ref(_) => 0,
    }
}

/// What the numbers in fields come to, with those before.
fn add_fields(before: i128, fields: &[Value]) -> Result<i128, NoMemory>
    ensures { IfOk result (λ n. n ≡ before +ℤ total (map number_in fields.now)) }
{
    let mut sum = before;
    let mut rest = fields;
    'fields: while let Some((value, after)) = rest.split_first() {
        let number = i128::from(number_in(*value));
        sum = sum.checked_add(number).ok_or(AllocError)?;
        rest = after;
    }
    Ok(sum)
}

/// What the numbers in objects come to, with those before.
fn add_rows(before: i128, rows: &[(Oid, u32, Object)]) -> Result<i128, NoMemory>
    ensures { IfOk result (λ n. n ≡ before +ℤ total (flat_map numbers_of rows.now)) }
{
    let mut sum = before;
    let mut rest = rows;
    'rows: while let Some((row, after)) = rest.split_first() {
        sum = add_fields(sum, row.2.fields.as_slice())?;
        rest = after;
    }
    Ok(sum)
}

/// What the numbers in all objects come to.
pub(crate) fn total_in(stores: &[Seq<(Oid, u32, Object)>]) -> Result<i128, NoMemory>
    ensures { IfOk result (λ n. n ≡ total (flat_map numbers_of (joined stores.now))) }
{
    let mut sum = 0;
    let mut rest = stores;
    'stores: while let Some((rows, after)) = rest.split_first() {
        sum = add_rows(sum, rows.as_slice())?;
        rest = after;
    }
    Ok(sum)
}
