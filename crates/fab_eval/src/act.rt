//! What a statement does at once.
ghost use Rattle.std.specs.Prelude.{◌≡◌};
ghost use Rattle.fab_left.specs.Acts.{act, right_act};
ghost use Rattle.fab_stack.specs.Leads.{Leads, Lowers};

use crate::expressions::{value, values};
use fab_stack::{End, Halt, Lead, State};
use fab_tree::resolved::{Right, Statement};
use fab_values::holds;

/// Does what a statement does at once, which costs 1.
#[tactic(auto, using(crate::proofs::Acting::act_assign, crate::proofs::Acting::act_write, crate::proofs::Acting::act_call, crate::proofs::Acting::act_if, crate::proofs::Acting::act_while, crate::proofs::Acting::act_atomic, crate::proofs::Acting::act_fail))]
pub(crate) fn act<'a>(state: &mut State<'_>, s: &'a Statement) -> Result<Lead<'a>, Halt>
    ensures gives { Leads result state.new (act state.old.base.tid s.now state.old.state) }
    ensures base { state.new.base ≡ state.old.base }
    ensures fuel { Lowers result state.old.state.fuel state.new.state.fuel }
{
    state.charge()?;
    match s {
        Statement::Assign { local, right, .. } => assignment(state, *local, right),
        Statement::Write {
            object,
            field,
            value: e,
            site,
        } => {
            let v = value(state, e)?;
            let at = state.local(object.number);
            state.write(*site, *field, v, at)?;
            Ok(Lead::Passed)
        }
        Statement::Call { method, arguments } => {
            let args = values(state, arguments.as_slice())?;
            Ok(Lead::Enter(method.number, args, None))
        }
        Statement::If {
            condition,
            block,
            otherwise,
        } => {
            let v = value(state, condition)?;
            Ok(Lead::Into(if holds(v) {
                block.as_slice()
            } else {
                otherwise.as_slice()
            }))
        }
        Statement::While { condition, block } => {
            let v = value(state, condition)?;
            Ok(if holds(v) {
                Lead::Again(block.as_slice())
            } else {
                Lead::Passed
            })
        }
        Statement::Atomic {
            block,
            otherwise,
            ..
        } => Ok(Lead::Try(block.as_slice(), otherwise.as_slice())),
        Statement::Fail { .. } => Err(Halt::Ended(End::Failed)),
    }
}

/// Gives a local what a right side comes to, or calls the method that gives it.
fn assignment<'a>(state: &mut State<'_>, local: u16, right: &'a Right) -> Result<Lead<'a>, Halt>
    ensures gives { Leads result state.new (right_act state.old.base.tid local right.now state.old.state) }
    ensures base { state.new.base ≡ state.old.base }
    ensures fuel { state.new.state.fuel ≡ state.old.state.fuel }
{
    match right {
        Right::Plain(e) => {
            let v = value(state, e)?;
            state.assign(local, v);
            Ok(Lead::Passed)
        }
        Right::Call { method, arguments } => {
            let args = values(state, arguments.as_slice())?;
            Ok(Lead::Enter(method.number, args, Some(local)))
        }
        Right::New {
            class,
            store,
            arguments,
            site,
            ..
        } => {
            let fields = values(state, arguments.as_slice())?;
            let v = state.create(store.number, class.number, *site, fields)?;
            state.assign(local, v);
            Ok(Lead::Passed)
        }
        Right::Downgrade { value: e, site, .. } => {
            let v = value(state, e)?;
            let v = state.note_down(*site, v)?;
            state.assign(local, v);
            Ok(Lead::Passed)
        }
    }
}
