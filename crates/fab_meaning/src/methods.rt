//! What a method begins with, and whether what it returns is seen.
ghost use Rattle.std.specs.Prelude.{◌≡◌, IfOk, slice_get, unwrap_or};
ghost use Rattle.fab_base.specs.declared.object.Value.TheVariants.{Null};
ghost use Rattle.fab_erasure.specs.Erased.{args_shown, locals_at_start, returns_blank, sees_result, shown_if};
ghost use Rattle.fab_meaning.specs.Sights.{sees, sees_given, shows};

use crate::setting::Sight;
use crate::shown::shown_if;
use fab_base::{NoMemory, Value};
use fab_tree::resolved::{Local, Method};
use fab_values::default;
use std::alloc::Global;

/// What a call of a method that is skipped gives: a blank, if the method returns.
pub(crate) fn blank_result(method: &Method) -> Option<Value>
    ensures { result ≡ returns_blank method.now.returns }
{
    match method.returns {
        Some(_) => Some(Value::Null),
        None => None,
    }
}

/// Whether what a method returns is seen.
pub(crate) fn sees_result(sight: Sight, method: &Method) -> bool
    ensures { result ≡ sees_result (sees sight) (shows sight) method.now.returns }
{
    match &method.returns {
        Some(returns) => sight.sees(returns.label.number),
        None => true,
    }
}

/// A method's locals at its start: what it is given as far as it is seen, and then each other local's
/// default.
pub(crate) fn locals_at_start(
    alloc: Global,
    sight: Sight,
    method: &Method,
    args: &[Value],
) -> Result<Vec<Value>, NoMemory>
    ensures { IfOk result (λ v. v.items ≡ locals_at_start (sees sight) (shows sight) method.now args.now) }
{
    let locals = method.locals.as_slice();
    let mut values = args_shown(alloc, sight, locals, args)?;
    let mut i = args.len();
    while i < locals.len() {
        values.push(default(locals[i].sort))?;
        i += 1;
    }
    Ok(values)
}

/// What is given to locals, blank for each that isn't seen.
fn args_shown(
    alloc: Global,
    sight: Sight,
    locals: &[Local],
    args: &[Value],
) -> Result<Vec<Value>, NoMemory>
    ensures { IfOk result (λ v. v.items ≡ args_shown (sees sight) (shows sight) locals.now args.now) }
{
    let mut values = Vec::new(alloc);
    let mut i = 0;
    while i < args.len() {
        values.push(given_at(sight, locals, args, i))?;
        i += 1;
    }
    Ok(values)
}

/// What is given to a local, blank if it isn't seen; null where nothing is given.
fn given_at(sight: Sight, locals: &[Local], args: &[Value], local: usize) -> Value
    ensures { result ≡ shown_if (sees_given sight (slice_get locals.now local)) (unwrap_or (slice_get args.now local) Null) }
{
    let value = args.get(local).copied().unwrap_or(Value::Null);
    shown_if(sees_given(sight, locals, local), value)
}

/// Whether what is given to a local is seen; where there is no such local, it is.
fn sees_given(sight: Sight, locals: &[Local], local: usize) -> bool
    ensures { result ≡ sees_given sight (slice_get locals.now local) }
{
    match locals.get(local) {
        Some(found) => sight.sees(found.label.number),
        None => true,
    }
}
