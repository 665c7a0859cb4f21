//! Step by step through what is left to do.
ghost use Rattle.std.specs.Prelude.{◌≡◌, ℕ, ◌+◌, ◌<◌, ◌≤◌, ◌∷◌, ◌++◌, List, [], length, true, None, Ok, IfOk, OnOk};
ghost use Rattle.fab_base.specs.FlatMap.{FlatMap};
ghost use Rattle.fab_base.specs.declared.object.Tid.{Tid as AnyTid};
ghost use Rattle.fab_tree.specs.declared.resolved.Statement.{Statement as AnyStatement};
ghost use Rattle.fab_language.specs.Heaps.{Heap};
ghost use Rattle.fab_language.specs.Meaning.{State as AnyState, goes};
ghost use Rattle.fab_left.specs.Deeds.{entering};
ghost use Rattle.fab_left.specs.Left.{AllStem, Means, Place, at_start, rest, returning, tried};
ghost use Rattle.fab_stack.specs.declared.stepping.Fall.TheVariants.{Memory};
ghost use Rattle.fab_stack.specs.Leads.{deed_of};
ghost use Rattle.fab_stack.specs.Points.{saving, with_locals};
ghost use Rattle.fab_stack.specs.Stacks.{behind, entries_of, in_hand, place, trials};
ghost use Rattle.fab_stack.specs.Stepping.{IsMatched, IsSameAttempt, Runs, Shortens, Steps, Strides, Turns, UnlessMemory, Unwinds, bound};

use crate::acts::Acts;
use crate::halt::{End, Halt};
use crate::stack::{Call, Entry, Hand, Lead};
use crate::state::State;
use fab_base::{NoMemory, Oid, Seq, Stop, Value};
use fab_tree::resolved::{Method, Resolved, Statement};
use std::alloc::{AllocError, AllocFailed};

/// How a run came to an end: it is over, or an object lacks, with the fuel before what lacks it and
/// how many touches there were, of how many objects.
#[derive(Drop)]
pub enum Way {
    Over(Result<Option<Value>, End>),
    Lacks {
        site: u16,
        oid: Oid,
        fuel: u32,
        pairs: usize,
        objects: usize,
    },
}

/// Why a step doesn't go on: want of memory, a failure of what was done, or the end of the run.
#[derive(Drop)]
enum Fall {
    Memory,
    Failed,
    Ended(Way),
}

impl From<AllocError> for Fall {
    ghost from_gives = { λ _ e. e ≡ Memory };

    fn from(_: AllocError) -> Self {
        Fall::Memory
    }
}

impl<T: Drop> From<AllocFailed<T>> for Fall {
    ghost from_gives = { λ _ e. e ≡ Memory };

    fn from(_: AllocFailed<T>) -> Self {
        Fall::Memory
    }
}

/// How many calls may be open at once.
const DEPTH: u32 = 64;

/// The stack with which a method begins, over these locals. Want of memory alone is an error; whether
/// the state has the locals then isn't told.
pub fn begun<'a>(
    state: &mut State<'_>,
    first: &'a Method,
    locals: Vec<Value>,
) -> Result<Vec<Entry<'a>>, NoMemory>
    requires saved { state.old.base.saved ≡ [] }
    ensures entries { IfOk result (λ stack. entries_of stack.items state.new.base.saved ≡ rest (at_start first.now) first.now.body ∷ []) }
    ensures matched { IfOk result (λ stack. IsMatched stack.items state.new) }
    ensures locals { OnOk result (state.new ≡ with_locals locals.items state.old) }
{
    state.exchange(locals);
    let mut stack = Vec::new(state.alloc());
    stack.push(Entry::Rest {
        method: first,
        statements: first.body.as_slice(),
        depth: DEPTH - 1,
    })?;
    Ok(stack)
}

/// Runs what is left to do, to the end or until an object lacks. Want of memory alone is an error, and
/// may come in the midst of a step: nothing is told then of the stack and the state, and whoever wants
/// the run begins it anew.
pub fn run<'a, A: Acts>(
    acts: &A,
    program: &'a Resolved,
    first: &'a Method,
    stack: &mut Vec<Entry<'a>>,
    state: &mut State<'_>,
) -> Result<Way, NoMemory>
    requires matched { IsMatched stack.old.items state.old }
    ensures runs { IfOk result (λ way. (known : FlatMap) → AllStem state.old.base.tid known (entries_of stack.old.items state.old.base.saved) state.old.state → Runs (A.means acts.now program.now state.old.base.tid) (at_start first.now) state.old.base.tid known way (entries_of stack.old.items state.old.base.saved) state.old.state (entries_of stack.new.items state.new.base.saved) state.new.state) }
    ensures matched { OnOk result (IsMatched stack.new.items state.new) }
    ensures attempt { OnOk result (IsSameAttempt state.new.base state.old.base) }
{
    loop {
        if let Some(way) = step(acts, program, first, stack, state)? {
            return Ok(way);
        }
    }
}

/// One step, and where a statement fails, on to the last block that is tried.
#[inline(always)]
fn step<'a, A: Acts>(
    acts: &A,
    program: &'a Resolved,
    first: &'a Method,
    stack: &mut Vec<Entry<'a>>,
    state: &mut State<'_>,
) -> Result<Option<Way>, NoMemory>
    requires matched { IsMatched stack.old.items state.old }
    ensures turns { IfOk result (λ way. (known : FlatMap) → AllStem state.old.base.tid known (entries_of stack.old.items state.old.base.saved) state.old.state → Turns (A.means acts.now program.now state.old.base.tid) (at_start first.now) state.old.base.tid known way (entries_of stack.old.items state.old.base.saved) state.old.state (entries_of stack.new.items state.new.base.saved) state.new.state) }
    ensures matched { OnOk result (IsMatched stack.new.items state.new) }
    ensures attempt { OnOk result (IsSameAttempt state.new.base state.old.base) }
    ensures bound { IfOk result (λ way. way ≡ None → bound stack.new.items state.new < bound stack.old.items state.old) }
{
    let Some(entry) = stack.pop() else {
        return Ok(Some(last(acts, program, first, state)?));
    };
    match advance(acts, program, stack, state, entry) {
        Ok(()) => Ok(None),
        Err(Fall::Memory) => Err(AllocError),
        Err(Fall::Failed) => {
            if unwind(stack, state)? {
                return Ok(None);
            }
            Ok(Some(Way::Over(Err(End::Failed))))
        }
        Err(Fall::Ended(way)) => Ok(Some(way)),
    }
}

/// The end of a run: what the method that was asked for gives.
#[inline(never)]
fn last<'a, A: Acts>(
    acts: &A,
    program: &'a Resolved,
    first: &'a Method,
    state: &mut State<'_>,
) -> Result<Way, NoMemory>
    ensures runs { IfOk result (λ way. (depth : ℕ) (known : FlatMap) → AllStem state.old.base.tid known [] state.old.state → Runs (A.means acts.now program.now state.old.base.tid) (place first.now depth) state.old.base.tid known way [] state.old.state [] state.new.state) }
    ensures base { state.new.base ≡ state.old.base }
{
    let fuel = state.fuel();
    let (pairs, objects) = state.touch_counts();
    match acts.result_of(program, state, first) {
        Ok(value) => Ok(Way::Over(Ok(value))),
        Err(Halt::Memory) => Err(AllocError),
        Err(Halt::Ended(End::Failed)) => Ok(Way::Over(Err(End::Failed))),
        Err(Halt::Ended(End::Stopped(stop))) => Ok(Way::Over(Err(End::Stopped(stop)))),
        Err(Halt::Ended(End::Missing { site, oid })) => {
            Ok(Way::Lacks {
                site,
                oid,
                fuel,
                pairs,
                objects,
            })
        }
    }
}

/// One step: through the rest of a block, or past an entry.
#[inline(always)]
fn advance<'a, A: Acts>(
    acts: &A,
    program: &'a Resolved,
    stack: &mut Vec<Entry<'a>>,
    state: &mut State<'_>,
    entry: Entry<'a>,
) -> Result<(), Fall>
    requires matched { IsMatched (stack.old.items ++ entry ∷ []) state.old }
    ensures steps { (first : Place) (known : FlatMap) → AllStem state.old.base.tid known (entries_of (stack.old.items ++ entry.entry ∷ []) state.old.base.saved) state.old.state → Steps (A.means acts.now program.now state.old.base.tid) first state.old.base.tid known result (entries_of (stack.old.items ++ entry.entry ∷ []) state.old.base.saved) state.old.state (entries_of stack.new.items state.new.base.saved) state.new.state }
    ensures matched { UnlessMemory result (IsMatched stack.new.items state.new) }
    ensures attempt { UnlessMemory result (IsSameAttempt state.new.base state.old.base) }
    ensures bound { Shortens result (bound (stack.old.items ++ entry.entry ∷ []) state.old) (bound stack.new.items state.new) }
{
    match entry {
        Entry::Rest {
            method,
            statements,
            depth,
        } => {
            let hand = Hand {
                method,
                statements,
                depth,
            };
            next(acts, program, stack, state, hand)
        }
        Entry::Tried { .. } => Ok(state.merge()?),
        Entry::Returning {
            callee,
            depth,
            caller,
            caller_depth,
            locals,
            target,
        } => give_back(
            acts,
            program,
            stack,
            state,
            callee,
            depth,
            caller,
            caller_depth,
            locals,
            target,
        ),
    }
}

/// Through what is in hand, and what that leads into, until nothing is.
#[inline(always)]
fn next<'a, A: Acts>(
    acts: &A,
    program: &'a Resolved,
    stack: &mut Vec<Entry<'a>>,
    state: &mut State<'_>,
    hand: Hand<'a>,
) -> Result<(), Fall>
    requires matched { IsMatched stack.old.items state.old }
    ensures steps { (first : Place) (known : FlatMap) → AllStem state.old.base.tid known (entries_of stack.old.items state.old.base.saved ++ in_hand hand.entry ∷ []) state.old.state → Steps (A.means acts.now program.now state.old.base.tid) first state.old.base.tid known result (entries_of stack.old.items state.old.base.saved ++ in_hand hand.entry ∷ []) state.old.state (entries_of stack.new.items state.new.base.saved) state.new.state }
    ensures matched { UnlessMemory result (IsMatched stack.new.items state.new) }
    ensures attempt { UnlessMemory result (IsSameAttempt state.new.base state.old.base) }
    ensures bound { Shortens result (1 + bound stack.old.items state.old) (bound stack.new.items state.new) }
{
    let mut hand = hand;
    'on: while let Some((s, others)) = hand.statements.split_first() {
        match through(acts, program, stack, state, hand, s, others) {
            Ok(then) => hand = then,
            Err(fall) => return Err(fall),
        }
    }
    Ok(())
}

/// Through the first statement of what is in hand, to what is in hand then. The fuel and the touches
/// before it are counted here, since where it lacks an object the run goes back to them.
#[inline(always)]
fn through<'a, A: Acts>(
    acts: &A,
    program: &'a Resolved,
    stack: &mut Vec<Entry<'a>>,
    state: &mut State<'_>,
    hand: Hand<'a>,
    s: &'a Statement,
    others: &'a [Statement],
) -> Result<Hand<'a>, Fall>
    requires matched { IsMatched stack.old.items state.old }
    requires first { hand.statements.now ≡ s.now ∷ others.now }
    ensures steps { (first : Place) (known : FlatMap) → AllStem state.old.base.tid known (entries_of stack.old.items state.old.base.saved ++ in_hand hand.entry ∷ []) state.old.state → Strides (A.means acts.now program.now state.old.base.tid) first state.old.base.tid known result (entries_of stack.old.items state.old.base.saved ++ in_hand hand.entry ∷ []) state.old.state (entries_of stack.new.items state.new.base.saved) state.new.state }
    ensures matched { UnlessMemory result (IsMatched stack.new.items state.new) }
    ensures attempt { UnlessMemory result (IsSameAttempt state.new.base state.old.base) }
    ensures bound { Shortens result (bound stack.old.items state.old) (bound stack.new.items state.new) }
{
    let fuel = state.fuel();
    let (pairs, objects) = state.touch_counts();
    match acts.act(program, state, hand.method, s) {
        Ok(lead) => follow(acts, program, stack, state, hand, others, lead),
        Err(Halt::Memory) => Err(Fall::Memory),
        Err(Halt::Ended(End::Failed)) => Err(Fall::Failed),
        Err(Halt::Ended(End::Stopped(stop))) => {
            Err(Fall::Ended(Way::Over(Err(End::Stopped(stop)))))
        }
        Err(Halt::Ended(End::Missing { site, oid })) => {
            put(stack, hand.method, hand.statements, hand.depth)?;
            Err(Fall::Ended(Way::Lacks {
                site,
                oid,
                fuel,
                pairs,
                objects,
            }))
        }
    }
}

/// What is in hand when the first statement of a block has led there. What comes behind that goes on
/// the stack.
#[inline(always)]
fn follow<'a, A: Acts>(
    acts: &A,
    program: &'a Resolved,
    stack: &mut Vec<Entry<'a>>,
    state: &mut State<'_>,
    hand: Hand<'a>,
    others: &'a [Statement],
    lead: Lead<'a>,
) -> Result<Hand<'a>, Fall>
    requires matched { IsMatched stack.old.items state.old }
    ensures steps { (first : Place) (known : FlatMap) (s : AnyStatement) (before : AnyState) → hand.entry.statements.now ≡ s ∷ others.now → A.does acts.now program.now state.old.base.tid (place hand.entry.method.now hand.entry.depth) s before ≡ goes (deed_of lead.entry) state.old.state → AllStem state.old.base.tid known (entries_of stack.old.items state.old.base.saved ++ rest (place hand.entry.method.now hand.entry.depth) (s ∷ others.now) ∷ []) before → Strides (A.means acts.now program.now state.old.base.tid) first state.old.base.tid known result (entries_of stack.old.items state.old.base.saved ++ rest (place hand.entry.method.now hand.entry.depth) (s ∷ others.now) ∷ []) before (entries_of stack.new.items state.new.base.saved) state.new.state }
    ensures matched { UnlessMemory result (IsMatched stack.new.items state.new) }
    ensures attempt { UnlessMemory result (IsSameAttempt state.new.base state.old.base) }
    ensures fuel { state.new.state.fuel ≡ state.old.state.fuel }
    ensures room { UnlessMemory result (length stack.new.items ≤ 2 + length stack.old.items) }
{
    let Hand {
        method,
        statements,
        depth,
    } = hand;
    match lead {
        Lead::Passed => Ok(Hand {
            method,
            statements: others,
            depth,
        }),
        Lead::Into(block) => {
            put(stack, method, others, depth)?;
            Ok(Hand {
                method,
                statements: block,
                depth,
            })
        }
        Lead::Again(block) => {
            put(stack, method, statements, depth)?;
            Ok(Hand {
                method,
                statements: block,
                depth,
            })
        }
        Lead::Try(block, otherwise) => {
            attempt(stack, state, method, others, otherwise, depth)?;
            Ok(Hand {
                method,
                statements: block,
                depth,
            })
        }
        Lead::Enter(number, args, target) => enter(
            acts, program, stack, state, method, others, depth, number, args, target,
        ),
    }
}

/// Puts behind what is left the rest of a block, and the end of one that is tried, for which the heap
/// is saved.
#[inline(never)]
fn attempt<'a>(
    stack: &mut Vec<Entry<'a>>,
    state: &mut State<'_>,
    method: &'a Method,
    others: &'a [Statement],
    otherwise: &'a [Statement],
    depth: u32,
) -> Result<(), NoMemory>
    requires matched { IsMatched stack.old.items state.old }
    ensures entries { OnOk result (entries_of stack.new.items state.new.base.saved ≡ behind (entries_of stack.old.items state.old.base.saved) (place method.now depth) others.now ++ tried (place method.now depth) state.old.state.locals state.old.state.heap otherwise.now ∷ []) }
    ensures matched { OnOk result (IsMatched stack.new.items state.new) }
    ensures saved { OnOk result (state.new ≡ saving state.old) }
    ensures fuel { state.new.state.fuel ≡ state.old.state.fuel }
    ensures room { OnOk result (length stack.new.items ≤ 2 + length stack.old.items) }
{
    let locals = state.enter()?;
    put(stack, method, others, depth)?;
    Ok(stack.push(Entry::Tried {
        method,
        locals,
        otherwise,
        depth,
    })?)
}

/// Calls the method of a number. It is entered where so many calls more may be open; where it is
/// skipped, or there is none, the caller goes on with the rest of its block. An error is want of
/// memory, or that no more calls may be open, which ends the run, of a method that there isn't, too.
#[inline(never)]
fn enter<'a, A: Acts>(
    acts: &A,
    program: &'a Resolved,
    stack: &mut Vec<Entry<'a>>,
    state: &mut State<'_>,
    caller: &'a Method,
    others: &'a [Statement],
    depth: u32,
    number: u16,
    args: Seq<Value>,
    target: Option<u16>,
) -> Result<Hand<'a>, Fall>
    requires matched { IsMatched stack.old.items state.old }
    ensures steps { (first : Place) (known : FlatMap) (s : AnyStatement) (before : AnyState) → A.does acts.now program.now state.old.base.tid (place caller.now depth) s before ≡ goes (entering number args target) state.old.state → AllStem state.old.base.tid known (entries_of stack.old.items state.old.base.saved ++ rest (place caller.now depth) (s ∷ others.now) ∷ []) before → Strides (A.means acts.now program.now state.old.base.tid) first state.old.base.tid known result (entries_of stack.old.items state.old.base.saved ++ rest (place caller.now depth) (s ∷ others.now) ∷ []) before (entries_of stack.new.items state.new.base.saved) state.new.state }
    ensures matched { UnlessMemory result (IsMatched stack.new.items state.new) }
    ensures base { state.new.base ≡ state.old.base }
    ensures fuel { state.new.state.fuel ≡ state.old.state.fuel }
    ensures room { UnlessMemory result (length stack.new.items ≤ 2 + length stack.old.items) }
{
    let call = acts.call(state.alloc(), program, number, args)?;
    match call {
        Call::Skipped(value) => {
            acts.hand(state, caller, target, value);
            Ok(Hand {
                method: caller,
                statements: others,
                depth,
            })
        }
        Call::Absent => {
            if depth == 0 {
                return Err(Fall::Ended(Way::Over(Err(End::Stopped(Stop::Depth)))));
            }
            acts.hand(state, caller, target, None);
            Ok(Hand {
                method: caller,
                statements: others,
                depth,
            })
        }
        Call::Runs(callee, locals) => {
            if depth == 0 {
                return Err(Fall::Ended(Way::Over(Err(End::Stopped(Stop::Depth)))));
            }
            let locals = state.exchange(locals);
            put(stack, caller, others, depth)?;
            stack.push(Entry::Returning {
                callee,
                depth: depth - 1,
                caller,
                caller_depth: depth,
                locals,
                target,
            })?;
            Ok(Hand {
                method: callee,
                statements: callee.body.as_slice(),
                depth: depth - 1,
            })
        }
    }
}

/// Puts the rest of a block behind what is left, where there is one.
fn put<'a>(
    stack: &mut Vec<Entry<'a>>,
    method: &'a Method,
    statements: &'a [Statement],
    depth: u32,
) -> Result<(), NoMemory>
    ensures entries { OnOk result ((heaps : List Heap) → entries_of stack.new.items heaps ≡ behind (entries_of stack.old.items heaps) (place method.now depth) statements.now) }
    ensures trials { OnOk result (trials stack.new.items ≡ trials stack.old.items) }
    ensures room { OnOk result (length stack.new.items ≤ 1 + length stack.old.items) }
{
    if statements.is_empty() {
        return Ok(());
    }
    Ok(stack.push(Entry::Rest {
        method,
        statements,
        depth,
    })?)
}

/// Ends a call: its caller goes on with what the method returns.
#[inline(never)]
fn give_back<'a, A: Acts>(
    acts: &A,
    program: &'a Resolved,
    stack: &mut Vec<Entry<'a>>,
    state: &mut State<'_>,
    callee: &'a Method,
    depth: u32,
    caller: &'a Method,
    caller_depth: u32,
    locals: Vec<Value>,
    target: Option<u16>,
) -> Result<(), Fall>
    requires matched { IsMatched stack.old.items state.old }
    ensures steps { (first : Place) (known : FlatMap) → AllStem state.old.base.tid known (entries_of stack.old.items state.old.base.saved ++ returning (place callee.now depth) (place caller.now caller_depth) locals.items target ∷ []) state.old.state → Steps (A.means acts.now program.now state.old.base.tid) first state.old.base.tid known result (entries_of stack.old.items state.old.base.saved ++ returning (place callee.now depth) (place caller.now caller_depth) locals.items target ∷ []) state.old.state (entries_of stack.new.items state.new.base.saved) state.new.state }
    ensures matched { UnlessMemory result (IsMatched stack.new.items state.new) }
    ensures base { state.new.base ≡ state.old.base }
    ensures bound { Shortens result (1 + bound stack.old.items state.old) (bound stack.new.items state.new) }
{
    let fuel = state.fuel();
    let (pairs, objects) = state.touch_counts();
    match acts.result_of(program, state, callee) {
        Ok(value) => {
            state.exchange(locals);
            Ok(acts.hand(state, caller, target, value))
        }
        Err(Halt::Memory) => Err(Fall::Memory),
        Err(Halt::Ended(End::Failed)) => {
            state.exchange(locals);
            Err(Fall::Failed)
        }
        Err(Halt::Ended(End::Stopped(stop))) => {
            Err(Fall::Ended(Way::Over(Err(End::Stopped(stop)))))
        }
        Err(Halt::Ended(End::Missing { site, oid })) => {
            stack.push(Entry::Returning {
                callee,
                depth,
                caller,
                caller_depth,
                locals,
                target,
            })?;
            Err(Fall::Ended(Way::Lacks {
                site,
                oid,
                fuel,
                pairs,
                objects,
            }))
        }
    }
}

/// A failure goes to the last block that is tried, and on with the one that is run then. False where
/// none is.
#[inline(never)]
fn unwind<'a>(stack: &mut Vec<Entry<'a>>, state: &mut State<'_>) -> Result<bool, NoMemory>
    requires matched { IsMatched stack.old.items state.old }
    ensures unwinds { (m : Means) (first : Place) (tid : AnyTid) (known : FlatMap) → AllStem tid known (entries_of stack.old.items state.old.base.saved) state.old.state → Unwinds m first tid known result (entries_of stack.old.items state.old.base.saved) state.old.state (entries_of stack.new.items state.new.base.saved) state.new.state }
    ensures matched { OnOk result (IsMatched stack.new.items state.new) }
    ensures attempt { OnOk result (IsSameAttempt state.new.base state.old.base) }
    ensures bound { IfOk result (λ more. bound stack.new.items state.new ≤ bound stack.old.items state.old) }
{
    'down: while let Some(entry) = stack.pop() {
        match entry {
            Entry::Rest { .. } => {}
            Entry::Returning { locals, .. } => {
                state.exchange(locals);
            }
            Entry::Tried {
                method,
                locals,
                otherwise,
                depth,
            } => {
                state.abort(locals);
                put(stack, method, otherwise, depth)?;
                return Ok(true);
            }
        }
    }
    Ok(false)
}
