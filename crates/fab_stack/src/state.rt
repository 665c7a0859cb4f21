//! What an evaluation has at a point, and the steps that change it.
ghost use Rattle.std.specs.Prelude.{◌≡◌, ◌<◌, ◌≤◌, ◌++◌, Ok, OnOk, IfOk, length, take, true};
ghost use Rattle.std.specs.List.{IsDistinct};
ghost use Rattle.fab_base.specs.FlatMap.{ascends, is_same};
ghost use Rattle.fab_erasure.specs.Erased.{take_given};
ghost use Rattle.fab_language.specs.Heaps.{touched};
ghost use Rattle.fab_language.specs.Meaning.{assign, charge, create, local, noted_down, read, write};
ghost use Rattle.fab_nested.specs.Effects.{objects_at};
ghost use Rattle.fab_nested.specs.Nested.{changed_in, names_of, writes_in, creates_in};
ghost use Rattle.fab_stack.specs.Points.{Lacks, aborted, merged, point_at_start, point_before, point_over, saving, with_answer, with_locals};
ghost use Rattle.fab_stack.specs.Gives.{Gives, halt_at};

use crate::halt::{End, Halt};
use fab_base::{NoMemory, Object, Oid, Seq, Stop, Tid, Value};
use fab_map::ObjectMap;
use fab_nested::{FrameError, Frames};
use std::alloc::Global;
use std::marker::Model;
use std::mem;

/// What an evaluation has at a point: the attempt in which it runs, the fuel that is left, the
/// locals of the method that it is in, the objects, the values that were downgraded, and those that are
/// given, with how many of them were taken. Contracts see it as the state that the meaning has, with
/// the given values that are left, over what stays through each step. No two objects are made of one
/// name.
pub struct State<'a> {
    alloc: Global,
    tid: Tid,
    fuel: u32,
    locals: Vec<Value>,
    frames: Frames<'a>,
    downs: Vec<(u16, Value)>,
    given: Seq<Value>,
    taken: usize,
}

impl Drop for State<'_> {
    fn drop(self) {
        let State {
            alloc,
            tid,
            fuel,
            locals,
            frames,
            downs,
            given,
            taken,
        } = self;
    }
}

impl<'a> Model for State<'a> {
    ghost use Rattle.std.specs.Prelude.{◌∷◌, drop};
    ghost use Rattle.fab_stack.specs.Attempts.{AreCounted};
    ghost use Rattle.fab_stack.specs.Points.{Point};

    ghost Value = { Point };

    ghost view = { λ s. record { state = record { fuel = s.fuel; locals = s.locals.items; heap = s.frames.now; touches = s.frames.touches; downs = s.downs.items; given = drop s.taken s.given }; base = record { tid = s.tid; versions = s.frames.versions; saved = s.frames.saved } } };

    ghost invariant = { λ s. AreCounted (s.frames.now ∷ s.frames.saved) };
}

impl<'a> State<'a> {
    /// The state in which a request begins, with so much fuel, over the objects that were answered.
    pub fn begin(
        alloc: Global,
        tid: Tid,
        fuel: u32,
        answers: &[(Oid, u32, Object)],
    ) -> Result<State<'a>, NoMemory>
        requires { IsDistinct is_same (names_of answers.now) }
        ensures { IfOk result (λ s. s ≡ point_at_start tid fuel answers.now) }
    {
        Ok(State {
            alloc,
            tid,
            fuel,
            locals: Vec::new(alloc),
            frames: Frames::make(alloc, answers)?,
            downs: Vec::new(alloc),
            given: Seq::new(alloc),
            taken: 0,
        })
    }

    /// The same over the objects of a map, which isn't copied, and with these given values.
    pub fn over(
        alloc: Global,
        tid: Tid,
        fuel: u32,
        known: &'a ObjectMap,
        given: &[Value],
    ) -> Result<State<'a>, NoMemory>
        ensures { IfOk result (λ s. s ≡ point_over tid fuel known.now given.now) }
    {
        Ok(State {
            alloc,
            tid,
            fuel,
            locals: Vec::new(alloc),
            frames: Frames::over(alloc, known),
            downs: Vec::new(alloc),
            given: Seq::from_slice(alloc, given)?,
            taken: 0,
        })
    }

    /// The same over the objects of a map that is given.
    pub fn owning(
        alloc: Global,
        tid: Tid,
        fuel: u32,
        known: ObjectMap,
        given: &[Value],
    ) -> Result<State<'a>, NoMemory>
        ensures { IfOk result (λ s. s ≡ point_over tid fuel known given.now) }
    {
        Ok(State {
            alloc,
            tid,
            fuel,
            locals: Vec::new(alloc),
            frames: Frames::owning(alloc, known),
            downs: Vec::new(alloc),
            given: Seq::from_slice(alloc, given)?,
            taken: 0,
        })
    }

    /// Where memory comes from.
    pub fn alloc(&self) -> Global {
        self.alloc
    }

    /// The fuel that is left.
    pub(crate) fn fuel(&self) -> u32
        ensures { result ≡ self.now.state.fuel }
    {
        self.fuel
    }

    /// How many touches there are, and of how many objects.
    pub(crate) fn touch_counts(&self) -> (usize, usize)
        ensures pairs { result.0 ≡ length self.now.state.touches }
        ensures objects { result.1 ≡ length (touched self.now.state.touches) }
    {
        self.frames.touch_counts()
    }

    /// A step that costs 1.
    pub fn charge(&mut self) -> Result<(), Halt>
        ensures gives { Gives result self.new (charge self.old.state) }
        ensures base { self.new.base ≡ self.old.base }
        ensures fuel { self.new.state.fuel ≤ self.old.state.fuel }
        ensures spent { OnOk result (self.new.state.fuel < self.old.state.fuel) }
    {
        if self.fuel == 0 {
            return Err(Halt::Ended(End::Stopped(Stop::Fuel)));
        }
        self.fuel -= 1;
        Ok(())
    }

    /// The value of a local.
    pub fn local(&self, x: u16) -> Value
        ensures { Gives (Ok result) self.now (local x self.now.state) }
    {
        self.locals.get(x as usize).copied().unwrap_or(Value::Null)
    }

    /// Gives a local a value.
    pub fn assign(&mut self, x: u16, value: Value)
        ensures gives { Gives (Ok tt) self.new (assign x value self.old.state) }
        ensures base { self.new.base ≡ self.old.base }
        ensures fuel { self.new.state.fuel ≡ self.old.state.fuel }
    {
        if (x as usize) < self.locals.len() {
            self.locals[x as usize] = value;
        }
    }

    /// Takes other locals, and gives those that were there.
    pub(crate) fn exchange(&mut self, locals: Vec<Value>) -> Vec<Value>
        ensures before { result.items ≡ self.old.state.locals }
        ensures after { self.new ≡ with_locals locals.items self.old }
    {
        mem::replace(&mut self.locals, locals)
    }

    /// A field of the object behind a value.
    pub fn read(&mut self, site: u16, field: u16, at: Value) -> Result<Value, Halt>
        ensures gives { Gives result self.new (read site field at self.old.state) }
        ensures base { self.new.base ≡ self.old.base }
        ensures fuel { self.new.state.fuel ≡ self.old.state.fuel }
    {
        let Some(oid) = at.referred() else {
            return Err(Halt::Ended(End::Failed));
        };
        match self.frames.read(site, oid, field) {
            Ok(value) => Ok(value),
            Err(error) => Err(halt_at(site, error)),
        }
    }

    /// Writes a field of the object behind a value.
    pub fn write(&mut self, site: u16, field: u16, value: Value, at: Value) -> Result<(), Halt>
        ensures gives { Gives result self.new (write site field value at self.old.state) }
        ensures base { self.new.base ≡ self.old.base }
        ensures fuel { self.new.state.fuel ≡ self.old.state.fuel }
    {
        let Some(oid) = at.referred() else {
            return Err(Halt::Ended(End::Failed));
        };
        match self.frames.write(site, oid, field, value) {
            Ok(()) => Ok(()),
            Err(error) => Err(halt_at(site, error)),
        }
    }

    /// Makes an object of a class at a store.
    pub fn create(
        &mut self,
        store: u16,
        class: u16,
        site: u16,
        fields: Seq<Value>,
    ) -> Result<Value, Halt>
        ensures gives { Gives result self.new (create self.old.base.tid store class site fields self.old.state) }
        ensures base { self.new.base ≡ self.old.base }
        ensures fuel { self.new.state.fuel ≡ self.old.state.fuel }
    {
        let oid = Oid {
            store,
            class,
            worker: self.tid.worker,
            boot: self.tid.boot,
            number: self.tid.number,
            site,
            index: self.frames.made_at(site),
        };
        match self.frames.create(oid, Object { class, fields }) {
            Ok(()) => Ok(Value::Ref(oid)),
            Err(error) => Err(halt_at(site, error)),
        }
    }

    /// Notes the value of a downgrade.
    pub fn note_down(&mut self, site: u16, value: Value) -> Result<Value, Halt>
        ensures gives { Gives result self.new (noted_down site value self.old.state) }
        ensures base { self.new.base ≡ self.old.base }
        ensures fuel { self.new.state.fuel ≡ self.old.state.fuel }
    {
        self.downs.push((site, value))?;
        Ok(value)
    }

    /// The next given value, or this one where none is left.
    pub fn take_given(&mut self, blank: Value) -> Value
        ensures gives { Gives (Ok result) self.new (take_given blank self.old.state) }
        ensures base { self.new.base ≡ self.old.base }
        ensures fuel { self.new.state.fuel ≡ self.old.state.fuel }
    {
        match self.given.as_slice().get(self.taken).copied() {
            Some(value) => {
                self.taken += 1;
                value
            }
            None => blank,
        }
    }

    /// Saves the heap, and gives a copy of the locals. Without memory nothing is saved.
    pub(crate) fn enter(&mut self) -> Result<Vec<Value>, NoMemory>
        ensures locals { IfOk result (λ v. v.items ≡ self.old.state.locals) }
        ensures saved { OnOk result (self.new ≡ saving self.old) }
        ensures fuel { self.new.state.fuel ≡ self.old.state.fuel }
    {
        let locals = Vec::from_slice(self.alloc, self.locals.as_slice())?;
        self.frames.enter()?;
        Ok(locals)
    }

    /// Goes back to the heap that was saved last, and to these locals.
    pub(crate) fn abort(&mut self, locals: Vec<Value>)
        ensures { self.new ≡ with_locals locals.items (aborted self.old) }
    {
        self.locals = locals;
        self.frames.abort();
    }

    /// Gives up the heap that was saved last. It takes no memory, and so is never an error.
    pub(crate) fn merge(&mut self) -> Result<(), NoMemory>
        ensures merged { OnOk result (self.new ≡ merged self.old) }
        ensures fuel { self.new.state.fuel ≡ self.old.state.fuel }
    {
        self.frames.merge()
    }

    /// Goes back to the fuel and the touches before what lacked an object.
    pub fn go_back(&mut self, fuel: u32, pairs: usize, objects: usize)
        requires { objects ≡ length (touched (take pairs self.old.state.touches)) }
        ensures { self.new ≡ point_before fuel pairs self.old }
    {
        self.fuel = fuel;
        self.frames.cut_touches(pairs, objects);
    }

    /// One answer more, of an object that lacked.
    pub fn answer(&mut self, oid: Oid, version: u32, object: Object) -> Result<(), NoMemory>
        requires { Lacks oid self.old }
        ensures { OnOk result (self.new ≡ with_answer oid version object self.old) }
    {
        self.frames.answer(oid, version, object)
    }

    /// The objects that were written, each with the version of its answer, and those that were
    /// made.
    pub fn changed(&self) -> Result<(Seq<(Oid, u32, Object)>, Seq<(Oid, Object)>), NoMemory>
        ensures written { IfOk result (λ c. c.0 ≡ writes_in self.now.base.versions self.now.state.heap.written self.now.state.heap.rows) }
        ensures made { IfOk result (λ c. c.1 ≡ creates_in self.now.state.heap.made self.now.state.heap.rows) }
    {
        self.frames.changed()
    }

    /// Copies of the objects that were written, and then of those that were made, in the order in which
    /// they came.
    pub fn changes(&self) -> Result<Seq<(Oid, Object)>, NoMemory>
        ensures rows { IfOk result (λ rows. rows ≡ objects_at self.now.state.heap.rows (self.now.state.heap.written ++ self.now.state.heap.made)) }
        ensures ascends { ascends self.now.state.heap.rows ≡ true }
    {
        self.frames.changes()
    }

    /// The objects that were written or made, in the order of names. None is copied.
    pub fn into_changed(self) -> Seq<(Oid, Object)>
        ensures { result ≡ changed_in self.entry.state.heap }
    {
        let State {
            alloc: _,
            tid: _,
            fuel: _,
            locals: _,
            frames,
            downs: _,
            given: _,
            taken: _,
        } = self;
        frames.into_changed()
    }

    /// All objects as they are now, and the names that were written and made.
    pub fn parts(&self) -> Result<(ObjectMap, Seq<Oid>, Seq<Oid>), NoMemory>
        ensures rows { IfOk result (λ r. r.0 ≡ self.now.state.heap.rows) }
        ensures written { IfOk result (λ r. r.1 ≡ self.now.state.heap.written) }
        ensures made { IfOk result (λ r. r.2 ≡ self.now.state.heap.made) }
    {
        self.frames.parts()
    }

    /// Copies of the touches, and of the values that were downgraded.
    pub fn notes(&self) -> Result<(Seq<(u16, Oid)>, Seq<(u16, Value)>), NoMemory>
        ensures touches { IfOk result (λ n. n.0 ≡ self.now.state.touches) }
        ensures downs { IfOk result (λ n. n.1 ≡ self.now.state.downs) }
    {
        let touches = Seq::from_slice(self.alloc, self.frames.touches())?;
        let downs = Seq::from_slice(self.alloc, self.downs.as_slice())?;
        Ok((touches, downs))
    }

    /// The touches, and the values that were downgraded.
    pub fn into_notes(self) -> Result<(Seq<(u16, Oid)>, Seq<(u16, Value)>), NoMemory>
        ensures touches { IfOk result (λ n. n.0 ≡ self.entry.state.touches) }
        ensures downs { IfOk result (λ n. n.1 ≡ self.entry.state.downs) }
    {
        let touches = Seq::from_slice(self.alloc, self.frames.touches())?;
        let State {
            alloc: _,
            tid: _,
            fuel: _,
            locals: _,
            frames: _,
            downs,
            given: _,
            taken: _,
        } = self;
        Ok((touches, Seq::from_vec(downs)))
    }
}

/// How an evaluation ends where frames don't give what is asked for at a site.
fn halt_at(site: u16, error: FrameError) -> Halt
    ensures { result ≡ halt_at site error }
{
    match error {
        FrameError::Memory => Halt::Memory,
        FrameError::Need(oid) => Halt::Ended(End::Missing { site, oid }),
        FrameError::Full(stop) => Halt::Ended(End::Stopped(stop)),
    }
}
