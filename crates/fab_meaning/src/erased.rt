//! A program that is read as far as who sees some labels can compute it.
ghost use Rattle.std.specs.Prelude.{◌≡◌, ℕ, IfOk, Ok};
ghost use Rattle.fab_base.specs.declared.object.Tid.{Tid as AnyTid};
ghost use Rattle.fab_tree.specs.declared.resolved.Method.{Method as AnyMethod};
ghost use Rattle.fab_tree.specs.declared.resolved.Resolved.{Resolved as AnyProgram};
ghost use Rattle.fab_left.proofs.Split.{erased_split};
ghost use Rattle.fab_left.specs.ErasedActs.{act, meanings};
ghost use Rattle.fab_left.specs.Left.{handed};
ghost use Rattle.fab_stack.specs.Calls.{Calls};
ghost use Rattle.fab_stack.specs.Gives.{Gives};
ghost use Rattle.fab_stack.specs.Stacks.{place};
ghost use Rattle.fab_meaning.specs.Settings.{returned};
ghost use Rattle.fab_meaning.specs.Sights.{sees, shows};

use crate::act::{act, take};
use crate::expressions::value;
use crate::methods::{blank_result, locals_at_start, sees_result};
use crate::setting::{Setting, Sight};
use crate::shown::shown_if;
use fab_base::{NoMemory, Seq, Value};
use fab_stack::{Acts, Call, Halt, Lead, State};
use fab_tree::resolved::{Method, Resolved, Statement};
use std::alloc::Global;

/// Programs are read by their erased meaning, for somebody's sight.
#[derive(Clone, Copy)]
pub(crate) struct Erased {
    pub(crate) sight: Sight,
}

impl Acts for Erased {
    ghost means = { λ x. meanings (sees x.sight) (shows x.sight) };

    ghost does = { λ x program tid p. act (sees x.sight) (shows x.sight) program.classes p.method.locals tid };

    fn act<'a>(
        &self,
        program: &'a Resolved,
        state: &mut State<'_>,
        method: &'a Method,
        statement: &'a Statement,
    ) -> Result<Lead<'a>, Halt> {
        let setting = Setting {
            program,
            sight: self.sight,
        };
        act(&setting, state, method, statement)
    }

    fn result_of(
        &self,
        program: &Resolved,
        state: &mut State<'_>,
        method: &Method,
    ) -> Result<Option<Value>, Halt> {
        let setting = Setting {
            program,
            sight: self.sight,
        };
        result_of(&setting, state, method)
    }

    fn hand(
        &self,
        state: &mut State<'_>,
        caller: &Method,
        target: Option<u16>,
        value: Option<Value>,
    ) {
        hand(self.sight, state, caller, target, value);
    }

    fn call<'a>(
        &self,
        alloc: Global,
        program: &'a Resolved,
        number: u16,
        args: Seq<Value>,
    ) -> Result<Call<'a>, NoMemory> {
        called(alloc, self.sight, program, number, args)
    }

    ghost split = { λ x program tid. erased_split (sees x.sight) (shows x.sight) program tid };
}

/// What a method returns, as far as it is seen.
fn result_of(
    setting: &Setting<'_>,
    state: &mut State<'_>,
    method: &Method,
) -> Result<Option<Value>, Halt>
    ensures gives { Gives result state.new (returned setting.now method.now state.old.state) }
    ensures base { state.new.base ≡ state.old.base }
    ensures fuel { state.new.state.fuel ≡ state.old.state.fuel }
{
    match &method.result {
        None => Ok(None),
        Some(returned) => {
            let v = value(setting, method, state, &returned.value)?;
            Ok(Some(shown_if(sees_result(setting.sight, method), v)))
        }
    }
}

/// Gives what a call gave to a local of its caller, or to none.
fn hand(
    sight: Sight,
    state: &mut State<'_>,
    caller: &Method,
    target: Option<u16>,
    value: Option<Value>,
)
    ensures gives { (program : AnyProgram) (tid : AnyTid) (depth : ℕ) → Gives (Ok tt) state.new (handed (meanings (sees sight) (shows sight) program tid) (place caller.now depth) target value state.old.state) }
    ensures base { state.new.base ≡ state.old.base }
    ensures fuel { state.new.state.fuel ≡ state.old.state.fuel }
{
    if let Some(local) = target {
        take(sight, state, caller, local, value.unwrap_or(Value::Null));
    }
}

/// What a call of the method of a number comes to: one whose begin label isn't seen is skipped.
fn called<'a>(
    alloc: Global,
    sight: Sight,
    program: &'a Resolved,
    number: u16,
    args: Seq<Value>,
) -> Result<Call<'a>, NoMemory>
    ensures { IfOk result (λ call. (tid : AnyTid) (caller : AnyMethod) → Calls (meanings (sees sight) (shows sight) program.now tid) caller number args call) }
{
    let Some(callee) = program.methods.as_slice().get(usize::from(number)) else {
        return Ok(Call::Absent);
    };
    if !sight.sees(callee.begin.number) {
        return Ok(Call::Skipped(blank_result(callee)));
    }
    let locals = locals_at_start(alloc, sight, callee, args.as_slice())?;
    Ok(Call::Runs(callee, locals))
}
