//! What is asked of a text that is at hand.
ghost use Rattle.std.specs.Prelude.{◌≡◌, ◌≢◌, ◌≤◌, [], Some};
ghost use Rattle.fab_base.specs.Faults.{Rose};
ghost use Rattle.fab_replay.specs.Courses.{IsCourse};
ghost use Rattle.fab_reply.specs.Answered.{IsAnswered};
ghost use Rattle.fab_reply.specs.Reply.{Ends};
ghost use Rattle.fab_answers.specs.Says.{MakesRuns};
ghost use Rattle.fab_reply.specs.Replays.{CanMake};
ghost use Rattle.fab_front.specs.declared.status.Status.TheVariants.{Usage, ReadFault, WriteFault};

use crate::command::replied;
use fab_base::{Sink, SinkError};
use fab_command::Command;
use fab_core::Core;
use fab_device::Journals;
use fab_front::{Status, write_all};
use fab_replay::Course;
use std::alloc::{AllocError, Global};

/// Replies, and says how it ended.
fn run_text<C: Course<Core<M::Item>>, K: Sink, M: Journals>(
    alloc: Global,
    course: &C,
    command: &Command,
    text: &[u8],
    sink: &mut K,
    journals: &mut M,
) -> Status
    requires made { CanMake C.makes (Some command.now) }
    requires course { IsCourse C.makes (C.may course.now) (C.comes course.now) }
    ensures means { Ends (Some command.now) result (Some text.now) (Some []) (K.written sink.old) (K.written sink.new) (M.seen journals.old) (M.seen journals.new) }
    ensures untouched { (MakesRuns (Some command.now) → ⊥) → journals.new ≡ journals.old }
    ensures faulty { (M.seen journals.old).faults ≤ (M.seen journals.new).faults }
    ensures told { (M.seen journals.new).may_fail ≡ (M.seen journals.old).may_fail }
    ensures read_never { result ≢ ReadFault }
    ensures write { result ≡ WriteFault → Rose (K.faults sink.old) (K.faults sink.new) }
    ensures sink_faults { K.faults sink.old ≤ K.faults sink.new }
    ensures sink_unfailed { result ≢ WriteFault → K.faults sink.new ≡ K.faults sink.old }
{
    let (status, reply) = match replied(alloc, course, command, text, journals) {
        Ok(reply) => reply,
        Err(AllocError) => return Status::Memory,
    };
    match write_all(sink, reply.as_slice()) {
        Ok(()) => status,
        Err(SinkError::Failed) => Status::WriteFault,
        Err(SinkError::Memory) => Status::Memory,
    }
}

/// Does what `answer` does with a command and a source that has this text, and reads nothing.
pub fn answer_text<C: Course<Core<M::Item>>, K: Sink, M: Journals>(
    alloc: Global,
    course: &C,
    command: Command,
    text: &[u8],
    sink: &mut K,
    journals: &mut M,
) -> Status
    requires made { CanMake C.makes (Some command) }
    requires course { IsCourse C.makes (C.may course.now) (C.comes course.now) }
    ensures answered { IsAnswered (Unit {0}) (Some command) result (Some text.now) (Some []) K.written K.faults sink.old sink.new M.seen journals.old journals.new }
    ensures read_never { result ≢ ReadFault }
    ensures usage_never { result ≢ Usage }
{
    run_text(alloc, course, &command, text, sink, journals)
}
