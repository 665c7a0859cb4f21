//! What is seen: of values by the labels of what they were computed from, and of objects by their
//! classes.
ghost use Rattle.std.specs.Prelude.{◌≡◌, IfOk, map, option_copied, slice_get};
ghost use Rattle.std.specs.List.{list_all};
ghost use Rattle.fab_base.specs.declared.object.Value.TheVariants.{Null};
ghost use Rattle.fab_erasure.specs.Erased.{fields_shown, read_shown, shown_if, write_shown};
ghost use Rattle.fab_stack.specs.Gives.{Gives};
ghost use Rattle.fab_meaning.specs.Settings.{class_behind, is_seen, others_of, sees_local, sees_read};
ghost use Rattle.fab_meaning.specs.Sights.{sees, shows};

use crate::setting::{Setting, Sight};
use fab_base::{NoMemory, Seq, Value};
use fab_stack::{End, Halt, State};
use fab_tree::resolved::{Class, Expression, Form, Method, Operand, Sort, Use};
use std::alloc::Global;

/// A value if it is seen, and else a blank.
pub(crate) fn shown_if(seen: bool, value: Value) -> Value
    ensures { result ≡ shown_if seen value }
{
    if seen { value } else { Value::Null }
}

/// Whether the label of a local is seen, if there is such a local.
pub(crate) fn sees_local(sight: Sight, method: &Method, local: u16) -> bool
    ensures { result ≡ sees_local sight method.now local }
{
    match method.locals.as_slice().get(usize::from(local)) {
        Some(found) => sight.sees(found.label.number),
        None => true,
    }
}

/// The class of what a local refers to.
fn class_behind<'a>(setting: &Setting<'a>, method: &Method, local: Use) -> Option<&'a Class>
    ensures { option_copied result ≡ class_behind setting.now method.now local }
{
    match method.locals.as_slice().get(usize::from(local.number)) {
        Some(found) => match found.sort {
            Sort::Number(_) => None,
            Sort::Class(class) => setting
                .program
                .classes
                .as_slice()
                .get(usize::from(class.number)),
        },
        None => None,
    }
}

/// Whether what is read of the object of a local is seen.
pub(crate) fn sees_read(setting: &Setting<'_>, method: &Method, local: Use) -> bool
    ensures { result ≡ sees_read setting.now method.now local }
{
    let sees_class = match class_behind(setting, method, local) {
        Some(class) => setting.sight.sees(class.label.number),
        None => true,
    };
    sees_local(setting.sight, method, local.number) && sees_class
}

/// Whether the value of an expression is seen.
#[cycle(is_seen)]
pub(crate) fn is_seen(setting: &Setting<'_>, method: &Method, expression: &Expression) -> bool
    ensures { result ≡ is_seen setting.now method.now expression.now }
{
    match &expression.form {
        Form::Number(_) | Form::Null => true,
        Form::Local(x) => sees_local(setting.sight, method, x.number),
        Form::Read { object, .. } => sees_read(setting, method, *object),
        Form::Unary { operand, .. } => is_seen(setting, method, operand.get()),
        Form::Chain { first, others } => {
            is_seen(setting, method, first.get()) && are_seen(setting, method, others.as_slice())
        }
        Form::Compared { left, right, .. } => {
            is_seen(setting, method, left.get()) && is_seen(setting, method, right.get())
        }
    }
}

/// Whether the values of all these operands are seen.
#[cycle(is_seen)]
fn are_seen(setting: &Setting<'_>, method: &Method, others: &[Operand]) -> bool
    ensures { result ≡ list_all (λ u. u.1.seen) (others_of setting.now method.now others.now) }
{
    for other in others {
        if !is_seen(setting, method, &other.operand) {
            return false;
        }
    }
    true
}

/// A field of the object behind a value; one of a class that isn't shown isn't looked up.
pub(crate) fn read_shown(
    sight: Sight,
    state: &mut State<'_>,
    site: u16,
    field: u16,
    at: Value,
) -> Result<Value, Halt>
    ensures gives { Gives result state.new (read_shown (sees sight) (shows sight) site field at state.old.state) }
    ensures base { state.new.base ≡ state.old.base }
    ensures fuel { state.new.state.fuel ≡ state.old.state.fuel }
{
    match at {
        Value::Ref(oid) => {
            if sight.shows(oid.class) {
                state.read(site, field, at)
            } else {
                Ok(Value::Null)
            }
        }
        Value::Int(_) | Value::Null => Err(Halt::Ended(End::Failed)),
    }
}

/// Writes a field of the object behind a value; one of a class that isn't shown isn't looked up.
pub(crate) fn write_shown(
    sight: Sight,
    state: &mut State<'_>,
    site: u16,
    field: u16,
    value: Value,
    at: Value,
) -> Result<(), Halt>
    ensures gives { Gives result state.new (write_shown (sees sight) (shows sight) site field value at state.old.state) }
    ensures base { state.new.base ≡ state.old.base }
    ensures fuel { state.new.state.fuel ≡ state.old.state.fuel }
{
    match at {
        Value::Ref(oid) => {
            if sight.shows(oid.class) {
                state.write(site, field, value, at)
            } else {
                Ok(())
            }
        }
        _ => Err(Halt::Ended(End::Failed)),
    }
}

/// The fields of a new object, blank where its class isn't shown.
pub(crate) fn fields_shown(
    alloc: Global,
    sight: Sight,
    class: u16,
    fields: Seq<Value>,
) -> Result<Seq<Value>, NoMemory>
    ensures { IfOk result (λ vs. vs ≡ fields_shown (sees sight) (shows sight) class fields) }
{
    if sight.shows(class) {
        return Ok(fields);
    }
    Ok(Seq::from_vec(blanks(alloc, fields.as_slice())?))
}

/// A blank for each of these.
fn blanks(alloc: Global, values: &[Value]) -> Result<Vec<Value>, NoMemory>
    ensures { IfOk result (λ vs. vs.items ≡ map (λ v. Null) values.now) }
{
    let mut all = Vec::new(alloc);
    let mut i = 0;
    while i < values.len() {
        all.push(Value::Null)?;
        i += 1;
    }
    Ok(all)
}
