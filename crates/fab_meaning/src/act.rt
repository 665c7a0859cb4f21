//! What a statement does at once. What only unseen values decide isn't done.
ghost use Rattle.std.specs.Prelude.{◌≡◌, Ok, if◌then◌else◌};
ghost use Rattle.fab_left.specs.Deeds.{passed, trying};
ghost use Rattle.fab_stack.specs.Gives.{Gives};
ghost use Rattle.fab_stack.specs.Leads.{Leads, Lowers, deed_of};
ghost use Rattle.fab_meaning.specs.Settings.{act, blank_of, calling, choice, downgraded, lowering, making, repeat, right_act, takes, writing};
ghost use Rattle.fab_meaning.specs.Sights.{sees};

use crate::expressions::{value, values};
use crate::setting::{Setting, Sight};
use crate::shown::{fields_shown, is_seen, sees_local, shown_if, write_shown};
use fab_base::{Seq, Value};
use fab_stack::{End, Halt, Lead, State};
use fab_tree::resolved::{Expression, Method, Right, Statement, Use};
use fab_values::{default, holds};

/// Does what a statement does at once, which costs 1.
#[tactic(auto, using(crate::proofs::Acting::act_assign, crate::proofs::Acting::act_write, crate::proofs::Acting::act_call, crate::proofs::Acting::act_if, crate::proofs::Acting::act_while, crate::proofs::Acting::act_atomic, crate::proofs::Acting::act_fail))]
pub(crate) fn act<'a>(
    setting: &Setting<'_>,
    state: &mut State<'_>,
    method: &'a Method,
    s: &'a Statement,
) -> Result<Lead<'a>, Halt>
    ensures gives { Leads result state.new (act setting.now method.now state.old.base.tid s.now state.old.state) }
    ensures base { state.new.base ≡ state.old.base }
    ensures fuel { Lowers result state.old.state.fuel state.new.state.fuel }
{
    state.charge()?;
    match s {
        Statement::Assign { local, right, .. } => assignment(setting, state, method, *local, right),
        Statement::Write {
            object,
            field,
            value: e,
            site,
        } => writing(setting, state, method, *object, *field, e, *site),
        Statement::Call {
            method: other,
            arguments,
        } => calling(setting, state, method, *other, arguments, None),
        Statement::If {
            condition,
            block,
            otherwise,
        } => choice(setting, state, method, condition, block, otherwise),
        Statement::While { condition, block } => repeat(setting, state, method, condition, block),
        Statement::Atomic {
            label,
            block,
            otherwise,
            ..
        } => Ok(trial(setting.sight, *label, block, otherwise)),
        Statement::Fail { .. } => Err(Halt::Ended(End::Failed)),
    }
}

/// Writes what an expression comes to into a field of the object of a local.
fn writing<'a>(
    setting: &Setting<'_>,
    state: &mut State<'_>,
    method: &Method,
    object: Use,
    field: u16,
    e: &Expression,
    site: u16,
) -> Result<Lead<'a>, Halt>
    ensures gives { Leads result state.new (writing setting.now method.now object field e.now site state.old.state) }
    ensures base { state.new.base ≡ state.old.base }
    ensures fuel { state.new.state.fuel ≡ state.old.state.fuel }
{
    let v = value(setting, method, state, e)?;
    let at = state.local(object.number);
    write_shown(setting.sight, state, site, field, v, at)?;
    Ok(Lead::Passed)
}

/// Calls a method with what arguments come to; a local takes what it gives, or none.
fn calling<'a>(
    setting: &Setting<'_>,
    state: &mut State<'_>,
    method: &Method,
    other: Use,
    arguments: &Seq<Expression>,
    target: Option<u16>,
) -> Result<Lead<'a>, Halt>
    ensures gives { Leads result state.new (calling setting.now method.now other arguments.now target state.old.state) }
    ensures base { state.new.base ≡ state.old.base }
    ensures fuel { state.new.state.fuel ≡ state.old.state.fuel }
{
    let args = values(setting, method, state, arguments.as_slice())?;
    Ok(Lead::Enter(other.number, args, target))
}

/// Tries a block before another, if the label of the trial is seen.
fn trial<'a>(
    sight: Sight,
    label: Use,
    block: &'a Seq<Statement>,
    otherwise: &'a Seq<Statement>,
) -> Lead<'a>
    ensures { deed_of result ≡ (if sees sight label.number then trying block.now otherwise.now else passed) }
{
    if sight.sees(label.number) {
        Lead::Try(block.as_slice(), otherwise.as_slice())
    } else {
        Lead::Passed
    }
}

/// Goes into one block where a condition is true, and into the other where it isn't; into neither where
/// it isn't seen.
fn choice<'a>(
    setting: &Setting<'_>,
    state: &mut State<'_>,
    method: &Method,
    condition: &Expression,
    block: &'a Seq<Statement>,
    otherwise: &'a Seq<Statement>,
) -> Result<Lead<'a>, Halt>
    ensures gives { Leads result state.new (choice setting.now method.now condition.now block.now otherwise.now state.old.state) }
    ensures base { state.new.base ≡ state.old.base }
    ensures fuel { state.new.state.fuel ≡ state.old.state.fuel }
{
    let v = value(setting, method, state, condition)?;
    if !is_seen(setting, method, condition) {
        return Ok(Lead::Passed);
    }
    Ok(Lead::Into(if holds(v) {
        block.as_slice()
    } else {
        otherwise.as_slice()
    }))
}

/// Goes into a block as long as a condition is true; one that isn't seen is tested once.
fn repeat<'a>(
    setting: &Setting<'_>,
    state: &mut State<'_>,
    method: &Method,
    condition: &Expression,
    block: &'a Seq<Statement>,
) -> Result<Lead<'a>, Halt>
    ensures gives { Leads result state.new (repeat setting.now method.now condition.now block.now state.old.state) }
    ensures base { state.new.base ≡ state.old.base }
    ensures fuel { state.new.state.fuel ≡ state.old.state.fuel }
{
    let v = value(setting, method, state, condition)?;
    if !is_seen(setting, method, condition) {
        return Ok(Lead::Passed);
    }
    Ok(if holds(v) {
        Lead::Again(block.as_slice())
    } else {
        Lead::Passed
    })
}

/// Gives a local what a right side comes to, or calls the method that gives it.
fn assignment<'a>(
    setting: &Setting<'_>,
    state: &mut State<'_>,
    method: &Method,
    local: u16,
    right: &'a Right,
) -> Result<Lead<'a>, Halt>
    ensures gives { Leads result state.new (right_act setting.now method.now state.old.base.tid local right.now state.old.state) }
    ensures base { state.new.base ≡ state.old.base }
    ensures fuel { state.new.state.fuel ≡ state.old.state.fuel }
{
    match right {
        Right::Plain(e) => {
            let v = value(setting, method, state, e)?;
            take(setting.sight, state, method, local, v);
            Ok(Lead::Passed)
        }
        Right::Call {
            method: other,
            arguments,
        } => calling(setting, state, method, *other, arguments, Some(local)),
        Right::New {
            class,
            store,
            arguments,
            site,
            ..
        } => making(
            setting, state, method, local, *store, *class, *site, arguments,
        ),
        Right::Downgrade {
            value: e,
            from,
            to,
            site,
            ..
        } => lowering(setting, state, method, local, *from, *to, *site, e),
    }
}

/// Makes an object of what arguments come to, as far as its class is shown.
fn making<'a>(
    setting: &Setting<'_>,
    state: &mut State<'_>,
    method: &Method,
    local: u16,
    store: Use,
    class: Use,
    site: u16,
    arguments: &Seq<Expression>,
) -> Result<Lead<'a>, Halt>
    ensures gives { Leads result state.new (making setting.now method.now state.old.base.tid local store.number class.number site arguments.now state.old.state) }
    ensures base { state.new.base ≡ state.old.base }
    ensures fuel { state.new.state.fuel ≡ state.old.state.fuel }
{
    let fields = values(setting, method, state, arguments.as_slice())?;
    let shown = fields_shown(state.alloc(), setting.sight, class.number, fields)?;
    let v = state.create(store.number, class.number, site, shown)?;
    take(setting.sight, state, method, local, v);
    Ok(Lead::Passed)
}

/// Notes what is downgraded from a label to another, and gives it to a local.
fn lowering<'a>(
    setting: &Setting<'_>,
    state: &mut State<'_>,
    method: &Method,
    local: u16,
    from: Use,
    to: Use,
    site: u16,
    e: &Expression,
) -> Result<Lead<'a>, Halt>
    ensures gives { Leads result state.new (lowering setting.now method.now local from.number to.number site e.now state.old.state) }
    ensures base { state.new.base ≡ state.old.base }
    ensures fuel { state.new.state.fuel ≡ state.old.state.fuel }
{
    let v = value(setting, method, state, e)?;
    let blank = blank_of(method, local);
    let down = downgraded(setting.sight, state, blank, from.number, to.number, v);
    let noted = state.note_down(site, down)?;
    take(setting.sight, state, method, local, noted);
    Ok(Lead::Passed)
}

/// What a value comes to that is downgraded from a label to another: where the first isn't seen and
/// the second is, the next given value.
fn downgraded(
    sight: Sight,
    state: &mut State<'_>,
    blank: Value,
    from: u16,
    to: u16,
    value: Value,
) -> Value
    ensures gives { Gives (Ok result) state.new (downgraded sight blank from to value state.old.state) }
    ensures base { state.new.base ≡ state.old.base }
    ensures fuel { state.new.state.fuel ≡ state.old.state.fuel }
{
    if sight.sees(from) {
        value
    } else if sight.sees(to) {
        state.take_given(blank)
    } else {
        Value::Null
    }
}

/// Gives a local a value, blank where the local isn't seen.
pub(crate) fn take(sight: Sight, state: &mut State<'_>, method: &Method, local: u16, value: Value)
    ensures gives { Gives (Ok tt) state.new (takes sight method.now local value state.old.state) }
    ensures base { state.new.base ≡ state.old.base }
    ensures fuel { state.new.state.fuel ≡ state.old.state.fuel }
{
    state.assign(local, shown_if(sees_local(sight, method, local), value));
}

/// What a local holds before it is assigned.
fn blank_of(method: &Method, local: u16) -> Value
    ensures { result ≡ blank_of method.now local }
{
    match method.locals.as_slice().get(usize::from(local)) {
        Some(found) => default(found.sort),
        None => Value::Null,
    }
}
