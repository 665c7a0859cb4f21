//! Frames: one heap, with the heaps to which a failure may have to go back.
ghost use Rattle.std.specs.Prelude.{◌≡◌, ◌++◌, [], length, take, true, false, None, Some, IfOk, OnOk, OnErr, if◌then◌else◌};
ghost use Rattle.std.specs.Bool.{OnFalse};
ghost use Rattle.std.specs.List.{IsDistinct};
ghost use Rattle.fab_base.specs.declared.object.Object.{Object as AnyObject};
ghost use Rattle.fab_base.specs.FlatMap.{ascends, get, is_same};
ghost use Rattle.fab_language.specs.Heaps.{found, full, index_at, is_among, is_changed, reach_in, touched};
ghost use Rattle.fab_nested.specs.Calls.{Gives};
ghost use Rattle.fab_nested.specs.Effects.{objects_at};
ghost use Rattle.fab_nested.specs.Nested.{aborted, answered, changed_in, create, creates_in, entered, merged, names_of, nested_of, nested_over, read, write, writes_in};

use crate::answers::{copies, version_of, versions_of, with_field};
use crate::copies::{map_copy, put_all_found, put_rows};
use crate::frame_error::FrameError;
use crate::known::{Known, field_at};
use crate::log::{Change, make_room, note, undo_to};
use crate::names::Names;
use crate::objects::{Objects, is_in};
use crate::touches::Touches;
use fab_base::{NoMemory, Object, Oid, Seq, Stop, Value};
use fab_map::ObjectMap;
use indexmap::IndexMap;
use std::alloc::Global;
use std::marker::Model;

/// The objects of a run: those that are known, and over them those that it wrote or made. A call that
/// wants memory changes nothing.
#[derive(Drop)]
pub struct Frames<'a> {
    versions: IndexMap<Oid, u32>,
    known: Known<'a>,
    objects: Objects,
    log: Vec<Change>,
    marks: Vec<usize>,
    touches: Touches,
}

impl<'a> Model for Frames<'a> {
    ghost use Rattle.fab_nested.specs.Logs.{heap_of};
    ghost use Rattle.fab_nested.specs.Nested.{Nested};
    ghost use Rattle.fab_nested.specs.Overlay.{framed, rows_of, IsFramed};

    ghost Value = { Nested };

    ghost view = { λ f. framed f.versions.entries (rows_of f.known) f.log.items (heap_of f.objects) f.marks.items f.touches };

    ghost invariant = { λ f. IsFramed f.versions.entries (rows_of f.known) f.log.items (heap_of f.objects) f.marks.items };
}

impl<'a> Frames<'a> {
    /// Copies of the objects that were answered, of which none is touched yet.
    pub fn make(alloc: Global, answers: &[(Oid, u32, Object)]) -> Result<Frames<'a>, NoMemory>
        requires { IsDistinct is_same (names_of answers.now) }
        ensures { IfOk result (λ f. f ≡ nested_of answers.now) }
    {
        let versions = versions_of(alloc, answers)?;
        let rows = copies(alloc, answers)?;
        Ok(Frames {
            versions,
            known: Known::Own(ObjectMap::from_rows(rows)),
            objects: Objects::none(alloc),
            log: Vec::new(alloc),
            marks: Vec::new(alloc),
            touches: Touches::new(alloc),
        })
    }

    /// The objects of a map, of which none is touched yet. It takes no memory.
    pub fn over(alloc: Global, known: &'a ObjectMap) -> Frames<'a>
        ensures { result ≡ nested_over known.now }
    {
        // (a map's rows are in the order of names)
        let _ = known.rows();
        Frames {
            versions: IndexMap::new(alloc),
            known: Known::Lent(known),
            objects: Objects::none(alloc),
            log: Vec::new(alloc),
            marks: Vec::new(alloc),
            touches: Touches::new(alloc),
        }
    }

    /// The same over a map that is given.
    pub fn owning(alloc: Global, known: ObjectMap) -> Frames<'a>
        ensures { result ≡ nested_over known }
    {
        // (a map's rows are in the order of names)
        let _ = known.rows();
        Frames {
            versions: IndexMap::new(alloc),
            known: Known::Own(known),
            objects: Objects::none(alloc),
            log: Vec::new(alloc),
            marks: Vec::new(alloc),
            touches: Touches::new(alloc),
        }
    }

    /// One answer more, of an object that wasn't there: in the heap, and in each heap that is saved,
    /// without going over these.
    pub fn answer(&mut self, oid: Oid, version: u32, object: Object) -> Result<(), NoMemory>
        requires absent { get self.old.now.rows oid ≡ None }
        ensures ok { OnOk result (self.new ≡ answered oid version object self.old) }
        ensures err { OnErr result (self.new ≡ self.old) }
    {
        let alloc = *self.log.allocator();
        self.versions.reserve(1)?;
        self.known.put(alloc, oid, object)?;
        if self.versions.insert(oid, version).is_err() {
            unreachable!();
        }
        Ok(())
    }

    /// The heap is saved, for `abort` to go back to. It takes memory for a mark, whatever was changed.
    pub fn enter(&mut self) -> Result<(), NoMemory>
        ensures ok { OnOk result (self.new ≡ entered self.old) }
        ensures err { OnErr result (self.new ≡ self.old) }
    {
        self.marks.push(self.log.len())?;
        Ok(())
    }

    /// What a field of an object holds. The object is touched, if it wasn't made here.
    pub fn read(&mut self, site: u16, oid: Oid, field: u16) -> Result<Value, FrameError>
        ensures { Gives result self.old self.new (read site oid field self.old) }
    {
        let Some(value) = field_at(self.known.map(), &self.objects.changed, oid, field) else {
            return Err(FrameError::Need(oid));
        };
        if !touch(&self.objects.made, &mut self.touches, site, oid)? {
            return Err(FrameError::Full(Stop::Reads));
        }
        Ok(value)
    }

    /// Writes a field of an object. The object is touched, if it wasn't made here, and then counted.
    pub fn write(&mut self, site: u16, oid: Oid, field: u16, value: Value) -> Result<(), FrameError>
        ensures { Gives result self.old self.new (write site oid field value self.old) }
    {
        if self.objects.changed.get(oid).is_some() {
            self.write_again(site, oid, field, value)
        } else {
            self.write_first(site, oid, field, value)
        }
    }

    /// The same of an object that was written or made before.
    fn write_again(
        &mut self,
        site: u16,
        oid: Oid,
        field: u16,
        value: Value,
    ) -> Result<(), FrameError>
        requires { is_changed oid self.old.now ≡ true }
        ensures { Gives result self.old self.new (write site oid field value self.old) }
    {
        make_room(&mut self.log, self.marks.as_slice())?;
        if !touch(&self.objects.made, &mut self.touches, site, oid)? {
            return Err(FrameError::Full(Stop::Reads));
        }
        let change = self.objects.write_field(oid, field, value);
        note(&mut self.log, &self.marks, change);
        Ok(())
    }

    /// The same of another object, of which a copy is written. Its touch is taken back where the copy
    /// wants memory.
    fn write_first(
        &mut self,
        site: u16,
        oid: Oid,
        field: u16,
        value: Value,
    ) -> Result<(), FrameError>
        requires { is_changed oid self.old.now ≡ false }
        ensures { Gives result self.old self.new (write site oid field value self.old) }
    {
        let alloc = *self.log.allocator();
        let Some(object) = self.known.map().get(oid) else {
            return Err(FrameError::Need(oid));
        };
        let object = with_field(object.copy(alloc)?, field, value);
        make_room(&mut self.log, self.marks.as_slice())?;
        let (pairs, objects) = self.touches.counts();
        if !self.touches.reach(site, oid)? {
            return Err(FrameError::Full(Stop::Reads));
        }
        match self.objects.join(oid, object) {
            Ok(Some(change)) => {
                note(&mut self.log, &self.marks, change);
                Ok(())
            }
            Ok(None) => Err(FrameError::Full(Stop::Writes)),
            Err(_) => {
                self.touches.cut(pairs, objects);
                Err(FrameError::Memory)
            }
        }
    }

    /// Makes an object of a name of which none was made. One of this name that is known or was written
    /// makes room for it.
    pub fn create(&mut self, oid: Oid, object: Object) -> Result<(), FrameError>
        requires { is_among oid self.old.now.made ≡ false }
        ensures { Gives result self.old self.new (create oid object self.old) }
    {
        let alloc = *self.log.allocator();
        make_room(&mut self.log, self.marks.as_slice())?;
        let Some(change) = self.objects.make(alloc, oid, object)? else {
            return Err(FrameError::Full(Stop::Writes));
        };
        note(&mut self.log, &self.marks, change);
        Ok(())
    }

    /// Goes back to the heap that was saved last; where none is saved, nothing changes. It takes no
    /// memory, and as long as undoing what was done since.
    pub fn abort(&mut self)
        ensures { self.new ≡ aborted self.old }
    {
        if let Some(mark) = self.marks.pop() {
            undo_to(&mut self.objects, &mut self.log, mark);
        }
    }

    /// Keeps the heap as it is, and gives up the one that was saved last. It takes no memory, and so is
    /// never an error. The log stays until no heap is saved.
    pub fn merge(&mut self) -> Result<(), NoMemory>
        ensures ok { OnOk result (self.new ≡ merged self.old) }
        ensures err { OnErr result (self.new ≡ self.old) }
    {
        self.marks.pop();
        if self.marks.is_empty() {
            self.log.clear();
        }
        Ok(())
    }

    /// The touches, in order.
    pub fn touches(&self) -> &[(u16, Oid)]
        ensures { result.now ≡ self.now.touches }
    {
        self.touches.pairs()
    }

    /// How many touches there are, and of how many objects.
    pub fn touch_counts(&self) -> (usize, usize)
        ensures pairs { result.0 ≡ length self.now.touches }
        ensures objects { result.1 ≡ length (touched self.now.touches) }
    {
        self.touches.counts()
    }

    /// Takes back all touches but so many, the first ones, of so many objects.
    pub fn cut_touches(&mut self, pairs: usize, objects: usize)
        requires { objects ≡ length (touched (take pairs self.old.touches)) }
        ensures { self.new ≡ record self.old { touches = take pairs self.old.touches } }
    {
        self.touches.cut(pairs, objects);
    }

    /// How many objects that were made this site has in the heap.
    pub fn made_at(&self, site: u16) -> u16
        ensures { result ≡ index_at site self.now.now }
    {
        let made = self
            .objects
            .made
            .as_slice()
            .iter()
            .filter(|oid| oid.site == site);
        made.count() as u16
    }

    /// Copies of the objects that were written, each with the version of its answer, and of those
    /// that were made, both in the order of names.
    pub fn changed(&self) -> Result<(Seq<(Oid, u32, Object)>, Seq<(Oid, Object)>), NoMemory>
        ensures writes { IfOk result (λ r. r.0 ≡ writes_in self.now.versions self.now.now.written self.now.now.rows) }
        ensures creates { IfOk result (λ r. r.1 ≡ creates_in self.now.now.made self.now.now.rows) }
    {
        let alloc = *self.log.allocator();
        let mut writes = Seq::new(alloc);
        let mut creates = Seq::new(alloc);
        for row in self.objects.changed.rows() {
            if is_in(&self.objects.written, row.0) {
                let version = version_of(&self.versions, row.0);
                writes.push((row.0, version, row.1.copy(alloc)?))?;
            }
            if is_in(&self.objects.made, row.0) {
                creates.push((row.0, row.1.copy(alloc)?))?;
            }
        }
        Ok((writes, creates))
    }

    /// Copies of the objects that were written, and then of those that were made, in the order in which
    /// they came.
    pub fn changes(&self) -> Result<Seq<(Oid, Object)>, NoMemory>
        ensures rows { IfOk result (λ rows. rows ≡ objects_at self.now.now.rows (self.now.now.written ++ self.now.now.made)) }
        ensures ascends { ascends self.now.now.rows ≡ true }
    {
        let alloc = *self.log.allocator();
        let objects = &self.objects;
        let mut rows = Seq::new(alloc);
        put_all_found(
            alloc,
            &mut rows,
            &objects.changed,
            objects.written.as_slice(),
        )?;
        put_all_found(alloc, &mut rows, &objects.changed, objects.made.as_slice())?;
        Ok(rows)
    }

    /// The objects that were written or made, in the order of names. None is copied.
    pub fn into_changed(self) -> Seq<(Oid, Object)>
        ensures { result ≡ changed_in self.entry.now }
    {
        let Frames {
            versions: _,
            known: _,
            objects,
            log: _,
            marks: _,
            touches: _,
        } = self;
        Seq::from_vec(objects.into_rows())
    }

    /// All objects as they are now, and the names that were written and made.
    pub fn parts(&self) -> Result<(ObjectMap, Seq<Oid>, Seq<Oid>), NoMemory>
        ensures rows { IfOk result (λ r. r.0 ≡ self.now.now.rows) }
        ensures written { IfOk result (λ r. r.1 ≡ self.now.now.written) }
        ensures made { IfOk result (λ r. r.2 ≡ self.now.now.made) }
    {
        let alloc = *self.log.allocator();
        let mut rows = map_copy(alloc, self.known.map())?;
        put_rows(alloc, &mut rows, self.objects.changed.rows())?;
        let written = Seq::from_slice(alloc, self.objects.written.as_slice())?;
        let made = Seq::from_slice(alloc, self.objects.made.as_slice())?;
        Ok((rows, written, made))
    }
}

/// Touches an object that is there, unless it was made here or would be one too many.
fn touch(made: &Names<Oid>, touches: &mut Touches, site: u16, oid: Oid) -> Result<bool, NoMemory>
    ensures fits { IfOk result (λ fits. (x : AnyObject) → reach_in site oid (Some x) made.now touches.old ≡ (if fits then found x touches.new else full)) }
    ensures full { IfOk result (λ fits. OnFalse fits (touches.new ≡ touches.old)) }
    ensures err { OnErr result (touches.new ≡ touches.old) }
{
    if is_in(made, oid) {
        return Ok(true);
    }
    touches.reach(site, oid)
}
