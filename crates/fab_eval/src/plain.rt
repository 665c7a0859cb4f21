//! A program that is read by its meaning.
ghost use Rattle.std.specs.Prelude.{◌≡◌, IfOk, Ok};
ghost use Rattle.fab_base.specs.declared.object.Tid.{Tid as AnyTid};
ghost use Rattle.fab_tree.specs.declared.resolved.Resolved.{Resolved as AnyProgram};
ghost use Rattle.fab_language.specs.Meaning.{locals_at_start, returned};
ghost use Rattle.fab_left.proofs.Split.{plain_split};
ghost use Rattle.fab_left.specs.Acts.{act, meanings};
ghost use Rattle.fab_left.specs.Left.{Place, handed};
ghost use Rattle.fab_stack.specs.Gives.{Gives};

use crate::act::act;
use crate::expressions::value;
use fab_base::{NoMemory, Seq, Value};
use fab_stack::{Acts, Call, Halt, Lead, State};
use fab_tree::resolved::{Method, Resolved, Statement};
use fab_values::default;
use std::alloc::Global;

/// Programs are read by their meaning.
#[derive(Clone, Copy)]
pub struct Plain;

impl Acts for Plain {
    ghost means = { λ x. meanings };

    ghost does = { λ x program tid p. act tid };

    fn act<'a>(
        &self,
        _program: &'a Resolved,
        state: &mut State<'_>,
        _method: &'a Method,
        statement: &'a Statement,
    ) -> Result<Lead<'a>, Halt> {
        act(state, statement)
    }

    fn result_of(
        &self,
        _program: &Resolved,
        state: &mut State<'_>,
        method: &Method,
    ) -> Result<Option<Value>, Halt> {
        result_of(state, method)
    }

    fn hand(
        &self,
        state: &mut State<'_>,
        _caller: &Method,
        target: Option<u16>,
        value: Option<Value>,
    ) {
        hand(state, target, value);
    }

    fn call<'a>(
        &self,
        _alloc: Global,
        program: &'a Resolved,
        number: u16,
        args: Seq<Value>,
    ) -> Result<Call<'a>, NoMemory> {
        let Some(callee) = program.methods.as_slice().get(number as usize) else {
            return Ok(Call::Absent);
        };
        let locals = locals_at_start(callee, args)?;
        Ok(Call::Runs(callee, locals))
    }

    ghost split = { λ x program tid. plain_split program tid };
}

/// What a method returns.
fn result_of(state: &mut State<'_>, method: &Method) -> Result<Option<Value>, Halt>
    ensures gives { Gives result state.new (returned method.now.result state.old.state) }
    ensures base { state.new.base ≡ state.old.base }
    ensures fuel { state.new.state.fuel ≡ state.old.state.fuel }
{
    match &method.result {
        None => Ok(None),
        Some(returned) => Ok(Some(value(state, &returned.value)?)),
    }
}

/// Gives what a call gave to a local, or to none.
fn hand(state: &mut State<'_>, target: Option<u16>, value: Option<Value>)
    ensures gives { (program : AnyProgram) (tid : AnyTid) (p : Place) → Gives (Ok tt) state.new (handed (meanings program tid) p target value state.old.state) }
    ensures base { state.new.base ≡ state.old.base }
    ensures fuel { state.new.state.fuel ≡ state.old.state.fuel }
{
    if let Some(local) = target {
        state.assign(local, value.unwrap_or(Value::Null));
    }
}

/// A method's locals at its start: what it is given, and then each other local's default.
pub fn locals_at_start(method: &Method, args: Seq<Value>) -> Result<Vec<Value>, NoMemory>
    ensures { IfOk result (λ v. v.items ≡ locals_at_start method.now args) }
{
    let mut values = args.into_vec();
    let locals = method.locals.as_slice();
    let mut i = values.len();
    while i < locals.len() {
        values.push(default(locals[i].sort))?;
        i += 1;
    }
    Ok(values)
}
