//! What the parts of a program do at once.
ghost use Rattle.std.specs.Prelude.{◌≡◌, ℕ, Ok, IfOk};
ghost use Rattle.fab_base.specs.declared.object.Tid.{Tid as AnyTid};
ghost use Rattle.fab_tree.specs.declared.resolved.Method.{Method as AnyMethod};
ghost use Rattle.fab_tree.specs.declared.resolved.Resolved.{Resolved as AnyProgram};
ghost use Rattle.fab_tree.specs.declared.resolved.Statement.{Statement as AnyStatement};
ghost use Rattle.fab_language.specs.Meaning.{M};
ghost use Rattle.fab_left.specs.Deeds.{Deed};
ghost use Rattle.fab_left.specs.Left.{Means, Place, handed};
ghost use Rattle.fab_left.specs.Steps.{IsSplit};
ghost use Rattle.fab_stack.specs.Calls.{Calls};
ghost use Rattle.fab_stack.specs.Gives.{Gives};
ghost use Rattle.fab_stack.specs.Leads.{Leads, Lowers};
ghost use Rattle.fab_stack.specs.Stacks.{place};

use crate::halt::Halt;
use crate::stack::{Call, Lead};
use crate::state::State;
use fab_base::{NoMemory, Seq, Value};
use fab_tree::resolved::{Method, Resolved, Statement};
use std::alloc::Global;

/// What the parts of programs do at once. A program is read by its meaning, or by the one that is left
/// of it for somebody who doesn't see all.
pub trait Acts {
    /// What the parts of a program mean in an attempt.
    ghost means: { Self → AnyProgram → AnyTid → Means };

    /// What a statement does at once at a place in an attempt.
    ghost does: { Self → AnyProgram → AnyTid → Place → AnyStatement → M Deed };

    /// Does what a statement of a method does at once, which costs 1.
    fn act<'a>(
        &self,
        program: &'a Resolved,
        state: &mut State<'_>,
        method: &'a Method,
        statement: &'a Statement,
    ) -> Result<Lead<'a>, Halt>
        ensures gives { (depth : ℕ) → Leads result state.new (does self.now program.now state.old.base.tid (place method.now depth) statement.now state.old.state) }
        ensures base { state.new.base ≡ state.old.base }
        ensures fuel { Lowers result state.old.state.fuel state.new.state.fuel };

    /// What a method returns, which costs nothing.
    fn result_of(
        &self,
        program: &Resolved,
        state: &mut State<'_>,
        method: &Method,
    ) -> Result<Option<Value>, Halt>
        ensures gives { (tid : AnyTid) (depth : ℕ) → Gives result state.new ((means self.now program.now tid).result (place method.now depth) state.old.state) }
        ensures base { state.new.base ≡ state.old.base }
        ensures fuel { state.new.state.fuel ≡ state.old.state.fuel };

    /// Gives what a call gave to a local of its caller, or to none.
    fn hand(
        &self,
        state: &mut State<'_>,
        caller: &Method,
        target: Option<u16>,
        value: Option<Value>,
    )
        ensures gives { (program : AnyProgram) (tid : AnyTid) (depth : ℕ) → Gives (Ok tt) state.new (handed (means self.now program tid) (place caller.now depth) target value state.old.state) }
        ensures base { state.new.base ≡ state.old.base }
        ensures fuel { state.new.state.fuel ≡ state.old.state.fuel };

    /// What a call of the method of a number comes to.
    fn call<'a>(
        &self,
        alloc: Global,
        program: &'a Resolved,
        number: u16,
        args: Seq<Value>,
    ) -> Result<Call<'a>, NoMemory>
        ensures { IfOk result (λ call. (tid : AnyTid) (caller : AnyMethod) → Calls (means self.now program.now tid) caller number args call) };

    /// A statement is what it does at once, and then what that leads into.
    ghost split: { (acts : Self) (program : AnyProgram) (tid : AnyTid) → IsSplit (means acts program tid) tid (does acts program tid) };
}
