//! What a run begins with, and what it is told to do.
ghost use Rattle.std.specs.Prelude.{◌≡◌, OnOk};
ghost use Rattle.fab_tree.specs.Print as print;
ghost use Rattle.fab_print.specs.Adding.{Adds};

use crate::expression::put_null;
use crate::list::{print_all, print_in_brackets};
use crate::piece::{Print, put_bytes, put_integer, put_name, put_number};
use fab_base::{NoMemory, Seq};
use fab_tree::{CrashLine, Event, Given, Literal, PostLine, RequestText, Root, Session, Step};
use std::alloc::Global;

impl Print for Given {
    ghost use Rattle.fab_tree.specs.Print.{literal};

    ghost inks = { λ x. literal x.literal };

    fn print(&self, alloc: Global, out: &mut Seq<u8>) -> Result<(), NoMemory> {
        match &self.literal {
            Literal::Number(number) => put_integer(alloc, out, *number),
            Literal::Null => put_null(out),
            Literal::Root(root) => put_name(out, root),
        }
    }
}

impl Print for Root {
    ghost use Rattle.fab_tree.specs.Print.{root};

    ghost inks = { root };

    fn print(&self, alloc: Global, out: &mut Seq<u8>) -> Result<(), NoMemory> {
        out.extend(b"  root ")?;
        put_name(out, &self.name)?;
        out.extend(b" : ")?;
        put_name(out, &self.class)?;
        out.extend(b" @ ")?;
        put_name(out, &self.store)?;
        out.push(b' ')?;
        print_in_brackets(alloc, out, self.values.as_slice())?;
        out.extend(b";\n")?;
        Ok(())
    }
}

impl Print for RequestText {
    ghost use Rattle.fab_tree.specs.Print.{request};

    ghost inks = { request };

    fn print(&self, alloc: Global, out: &mut Seq<u8>) -> Result<(), NoMemory> {
        out.extend(b"    ")?;
        put_name(out, &self.method)?;
        print_in_brackets(alloc, out, self.arguments.as_slice())?;
        out.extend(b";\n")?;
        Ok(())
    }
}

impl Print for Session {
    ghost use Rattle.fab_tree.specs.Print.{session};

    ghost inks = { session };

    fn print(&self, alloc: Global, out: &mut Seq<u8>) -> Result<(), NoMemory> {
        out.extend(b"  session ")?;
        put_name(out, &self.worker)?;
        out.extend(b" {\n")?;
        print_all(alloc, out, self.requests.as_slice())?;
        out.extend(b"  }\n")?;
        Ok(())
    }
}

impl Print for PostLine {
    ghost use Rattle.fab_tree.specs.Print.{post};

    ghost inks = { post };

    fn print(&self, _alloc: Global, out: &mut Seq<u8>) -> Result<(), NoMemory> {
        out.extend(b"  post ")?;
        put_name(out, &self.sender)?;
        out.extend(b" -> ")?;
        put_name(out, &self.receiver)?;
        out.push(b' ')?;
        put_bytes(out, self.bytes.as_slice())?;
        out.extend(b";\n")?;
        Ok(())
    }
}

/// How many bytes of a record a crash keeps, where it is said.
fn put_keep(alloc: Global, out: &mut Seq<u8>, keep: Option<u32>) -> Result<(), NoMemory>
    ensures { OnOk result (Adds (print.keep keep) out.old out.new) }
{
    match keep {
        None => Ok(()),
        Some(number) => {
            out.extend(b" keep ")?;
            put_number(alloc, out, number)?;
            Ok(())
        }
    }
}

impl Print for CrashLine {
    ghost use Rattle.fab_tree.specs.Print.{crash};

    ghost inks = { crash };

    fn print(&self, alloc: Global, out: &mut Seq<u8>) -> Result<(), NoMemory> {
        out.extend(b"  crash ")?;
        put_name(out, &self.node)?;
        out.extend(b" after ")?;
        put_number(alloc, out, self.after)?;
        put_keep(alloc, out, self.keep)?;
        out.extend(b";\n")?;
        Ok(())
    }
}

/// The line of the cache. One of 0 leaves no line.
pub(crate) fn put_cache(alloc: Global, out: &mut Seq<u8>, cache: u32) -> Result<(), NoMemory>
    ensures { OnOk result (Adds (print.cache cache) out.old out.new) }
{
    if cache == 0 {
        Ok(())
    } else {
        out.extend(b"  cache ")?;
        put_number(alloc, out, cache)?;
        out.extend(b";\n")?;
        Ok(())
    }
}

/// A step.
fn put_step(out: &mut Seq<u8>, step: &Step) -> Result<(), NoMemory>
    ensures { OnOk result (Adds (print.step step.now) out.old out.new) }
{
    match step {
        Step::Begin(worker) => {
            out.extend(b"begin ")?;
            put_name(out, worker)?;
            Ok(())
        }
        Step::Resume(worker) => {
            out.extend(b"resume ")?;
            put_name(out, worker)?;
            Ok(())
        }
        Step::Deliver { sender, receiver } => {
            out.extend(b"deliver ")?;
            put_name(out, sender)?;
            out.push(b' ')?;
            put_name(out, receiver)?;
            Ok(())
        }
        Step::Idle { worker, node } => {
            out.extend(b"idle ")?;
            put_name(out, worker)?;
            out.push(b' ')?;
            put_name(out, node)?;
            Ok(())
        }
        Step::Recover(node) => {
            out.extend(b"recover ")?;
            put_name(out, node)?;
            Ok(())
        }
    }
}

/// An event.
fn put_event(alloc: Global, out: &mut Seq<u8>, event: &Event) -> Result<(), NoMemory>
    ensures { OnOk result (Adds (print.event event.now) out.old out.new) }
{
    match event {
        Event::Step(step) => put_step(out, step),
        Event::CrashIn { keep, step } => {
            out.extend(b"crashin ")?;
            put_number(alloc, out, *keep)?;
            out.push(b' ')?;
            put_step(out, step)?;
            Ok(())
        }
        Event::Post(node) => {
            out.extend(b"post ")?;
            put_name(out, node)?;
            Ok(())
        }
        Event::Crash(node) => {
            out.extend(b"crash ")?;
            put_name(out, node)?;
            Ok(())
        }
    }
}

impl Print for Event {
    ghost use Rattle.fab_print.specs.Adding.{event_line};

    ghost inks = { event_line };

    fn print(&self, alloc: Global, out: &mut Seq<u8>) -> Result<(), NoMemory> {
        out.extend(b"    ")?;
        put_event(alloc, out, self)?;
        out.extend(b";\n")?;
        Ok(())
    }
}

/// The lines of a schedule. One without events leaves no line.
pub(crate) fn put_schedule(
    alloc: Global,
    out: &mut Seq<u8>,
    events: &[Event],
) -> Result<(), NoMemory>
    ensures { OnOk result (Adds (print.schedule events.now) out.old out.new) }
{
    match events.split_first() {
        None => Ok(()),
        Some(_) => {
            out.extend(b"  schedule {\n")?;
            print_all(alloc, out, events)?;
            out.extend(b"  }\n")?;
            Ok(())
        }
    }
}
