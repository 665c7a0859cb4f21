//! What each task does.
ghost use Rattle.std.specs.Prelude.{◌≡◌, ◌≢◌, ◌≤◌, [], Some};
ghost use Rattle.fab_base.specs.Faults.{Rose};
ghost use Rattle.fab_asked.specs.Numbers.{IsSized};
ghost use Rattle.fab_replay.specs.Courses.{IsCourse};
ghost use Rattle.fab_front.specs.declared.status.Status.TheVariants.{Usage, ReadFault, WriteFault};
ghost use Rattle.fab_command.specs.declared.command.Command.TheVariants.{Run};
ghost use Rattle.fab_command.specs.declared.command.Telling.TheVariants.{Summary};
ghost use Rattle.fab_gen.specs.Generated.{generated_text};
ghost use Rattle.fab_reply.specs.Answered.{IsAnswered, IsDone};
ghost use Rattle.fab_reply.specs.Replays.{CanMake};
ghost use Rattle.fab_reply.specs.Tasks.{Generates, command_in};

use fab_base::{Sink, SinkError, Source};
use fab_command::{Command, Task, Telling};
use fab_core::Core;
use fab_device::Journals;
use fab_front::{Status, write_all};
use fab_gen::generated;
use fab_replay::Course;
use fab_reply::{answer, answer_text};
use std::alloc::{AllocError, Global};

/// Writes the bundle that is made up from a number and a size.
fn generate<K: Sink>(alloc: Global, number: u32, size: u32, sink: &mut K) -> Status
    requires some { 1 ≤ size }
    requires few { size ≤ 1000 }
    ensures text { Generates number size result (K.written sink.old) (K.written sink.new) }
    ensures failed { result ≡ WriteFault → Rose (K.faults sink.old) (K.faults sink.new) }
    ensures later { K.faults sink.old ≤ K.faults sink.new }
    ensures unfailed { result ≢ WriteFault → K.faults sink.new ≡ K.faults sink.old }
{
    let text = match generated(alloc, number, size) {
        Ok(text) => text,
        Err(AllocError) => return Status::Memory,
    };
    match write_all(sink, text.as_slice()) {
        Ok(()) => Status::Ok,
        Err(SinkError::Failed) => Status::WriteFault,
        Err(SinkError::Memory) => Status::Memory,
    }
}

/// Does a run of the bundle that is made up from a number and a size, and writes its summary.
fn drill<C: Course<Core<M::Item>>, K: Sink, M: Journals>(
    alloc: Global,
    course: &C,
    number: u32,
    size: u32,
    sink: &mut K,
    journals: &mut M,
) -> Status
    requires some { 1 ≤ size }
    requires few { size ≤ 1000 }
    requires made { CanMake C.makes (Some (Run Summary)) }
    requires course { IsCourse C.makes (C.may course.now) (C.comes course.now) }
    ensures answered { IsAnswered (Unit {0}) (Some (Run Summary)) result (Some (generated_text number size)) (Some []) K.written K.faults sink.old sink.new M.seen journals.old journals.new }
    ensures read_never { result ≢ ReadFault }
    ensures usage_never { result ≢ Usage }
{
    match generated(alloc, number, size) {
        Ok(text) => {
            let command = Command::Run(Telling::Summary);
            answer_text(alloc, course, command, text.as_slice(), sink, journals)
        }
        Err(AllocError) => Status::Memory,
    }
}

/// Does what is asked, by runs of this course.
pub(crate) fn done<C: Course<Core<M::Item>>, S: Source, K: Sink, M: Journals>(
    alloc: Global,
    course: &C,
    task: Option<Task>,
    source: &mut S,
    sink: &mut K,
    journals: &mut M,
) -> Status
    requires made { CanMake C.makes (command_in task) }
    requires course { IsCourse C.makes (C.may course.now) (C.comes course.now) }
    requires sized { IsSized task }
    ensures done { IsDone task result S.left S.faults source.old source.new K.written K.faults sink.old sink.new M.seen journals.old journals.new }
{
    match task {
        None => answer(alloc, course, None, source, sink, journals),
        Some(Task::Reply(command)) => {
            answer(alloc, course, Some(command), source, sink, journals)
        }
        Some(Task::Generate { number, size }) => generate(alloc, number, size, sink),
        Some(Task::Drill { number, size }) => { drill(alloc, course, number, size, sink, journals) }
    }
}
