//! The reply to what is asked.
ghost use Rattle.std.specs.Prelude.{◌≡◌, ◌≢◌, ◌↔◌, ◌≤◌, IsTrue, List, ℕ, Some, None as Nothing, IfOk, IsErrOf, OnErr};
ghost use Rattle.fab_base.specs.Faults.{Rose};
ghost use Rattle.fab_reply.specs.Answered.{IsDone};
ghost use Rattle.fab_reply.specs.Reply.{Answers, AreCut, Ends, IsCut, IsInput, JournalsAre};
ghost use Rattle.fab_reply.specs.Tasks.{task_of};
ghost use Rattle.fab_replay.specs.Courses.{IsCourse};
ghost use Rattle.fab_front.specs.Reading.{TakesAtMost};
ghost use Rattle.fab_answers.specs.Says.{MakesRuns};
ghost use Rattle.fab_command.specs.declared.command.Command.TheVariants.{Audit, Infer};
ghost use Rattle.fab_reply.specs.Replays.{CanMake};
ghost use Rattle.fab_front.specs.declared.reading.ReadError.TheVariants.{Fault, Memory as Wanting};
ghost use Rattle.fab_front.specs.declared.status.Status.TheVariants.{ReadFault, WriteFault};

use crate::answers::replayed;
use fab_answers::{Said, said_of};
use fab_audit::audited;
use fab_base::{NoMemory, Seq, Sink, SinkError, Source};
use fab_command::Command;
use fab_core::Core;
use fab_device::Journals;
use fab_front::{ReadError, Status, read_all, usage, write_all};
use fab_inferred::inferred;
use fab_replay::Course;
use std::alloc::Global;

/// Whether a command fills holes, and makes no run.
fn fills_holes(command: &Command) -> bool
    ensures { IsTrue result ↔ (command.now ≡ Infer) }
{
    matches!(command, Command::Infer)
}

/// Whether a command asks for the verdict on a report, and makes no run.
fn judges(command: &Command) -> bool
    ensures { IsTrue result ↔ (command.now ≡ Audit) }
{
    matches!(command, Command::Audit)
}

/// What a command replies to a text.
pub(crate) fn replied<C: Course<Core<M::Item>>, M: Journals>(
    alloc: Global,
    course: &C,
    command: &Command,
    text: &[u8],
    journals: &mut M,
) -> Result<(Status, Seq<u8>), NoMemory>
    requires made { CanMake C.makes (Some command.now) }
    requires course { IsCourse C.makes (C.may course.now) (C.comes course.now) }
    ensures replies { IfOk result (λ r. Answers (Some command.now) text.now r.0 r.1) }
    ensures journals { IfOk result (λ r. JournalsAre (Some command.now) text.now (M.seen journals.old) (M.seen journals.new) r.0 r.1) }
    ensures cut { OnErr result (IsCut command.now text.now (M.seen journals.old) (M.seen journals.new)) }
    ensures untouched { (MakesRuns (Some command.now) → ⊥) → journals.new ≡ journals.old }
    ensures later { (M.seen journals.old).faults ≤ (M.seen journals.new).faults }
    ensures told { (M.seen journals.new).may_fail ≡ (M.seen journals.old).may_fail }
{
    if judges(command) {
        return audited(alloc, text);
    }
    match said_of(alloc, command, text)? {
        Said::Reply { status, reply } => Ok((status, reply)),
        Said::Bundle(start) => {
            if fills_holes(command) {
                inferred(alloc, text, start)
            } else {
                replayed(alloc, course, text, &start, command, journals)
            }
        }
    }
}

/// The status and the text to write, after reading.
fn reply<C: Course<Core<M::Item>>, S: Source, M: Journals>(
    alloc: Global,
    course: &C,
    asked: Option<Command>,
    source: &mut S,
    journals: &mut M,
) -> Result<(Status, Seq<u8>), ReadError>
    requires made { CanMake C.makes asked }
    requires course { IsCourse C.makes (C.may course.now) (C.comes course.now) }
    ensures given { IfOk result (λ r. (text : List ℕ) × IsInput asked (S.left source.old) (S.left source.new) text × Answers asked text r.0 r.1
        × JournalsAre asked text (M.seen journals.old) (M.seen journals.new) r.0 r.1) }
    ensures untouched { (MakesRuns asked → ⊥) → journals.new ≡ journals.old }
    ensures unmade { IsErrOf result Fault → journals.new ≡ journals.old }
    ensures cut { IsErrOf result Wanting → AreCut asked (S.left source.old) (S.left source.new) (M.seen journals.old) (M.seen journals.new) }
    ensures faulty { (M.seen journals.old).faults ≤ (M.seen journals.new).faults }
    ensures told { (M.seen journals.new).may_fail ≡ (M.seen journals.old).may_fail }
    ensures unread { asked ≡ Nothing → source.new ≡ source.old }
    ensures taken { TakesAtMost 4194305 (S.left source.old) (S.left source.new) }
    ensures later { S.faults source.old ≤ S.faults source.new }
    ensures failed { IsErrOf result Fault → Rose (S.faults source.old) (S.faults source.new) }
    ensures unfailed { (IsErrOf result Fault → ⊥) → S.faults source.new ≡ S.faults source.old }
    ensures was_asked { IsErrOf result Fault → asked ≢ Nothing }
{
    match asked {
        None => Ok(usage(alloc)?),
        Some(command) => {
            let text = read_all(alloc, source)?;
            Ok(replied(alloc, course, &command, &text, journals)?)
        }
    }
}

/// Replies, and says how it ended.
fn run<C: Course<Core<M::Item>>, S: Source, K: Sink, M: Journals>(
    alloc: Global,
    course: &C,
    asked: Option<Command>,
    source: &mut S,
    sink: &mut K,
    journals: &mut M,
) -> Status
    requires made { CanMake C.makes asked }
    requires course { IsCourse C.makes (C.may course.now) (C.comes course.now) }
    ensures means { Ends asked result (S.left source.old) (S.left source.new) (K.written sink.old) (K.written sink.new) (M.seen journals.old) (M.seen journals.new) }
    ensures untouched { (MakesRuns asked → ⊥) → journals.new ≡ journals.old }
    ensures faulty { (M.seen journals.old).faults ≤ (M.seen journals.new).faults }
    ensures told { (M.seen journals.new).may_fail ≡ (M.seen journals.old).may_fail }
    ensures unread { asked ≡ Nothing → source.new ≡ source.old }
    ensures taken { TakesAtMost 4194305 (S.left source.old) (S.left source.new) }
    ensures read { result ≡ ReadFault → Rose (S.faults source.old) (S.faults source.new) }
    ensures was_asked { result ≡ ReadFault → asked ≢ Nothing }
    ensures unwritten { result ≡ ReadFault → sink.new ≡ sink.old }
    ensures write { result ≡ WriteFault → Rose (K.faults sink.old) (K.faults sink.new) }
    ensures source_faults { S.faults source.old ≤ S.faults source.new }
    ensures sink_faults { K.faults sink.old ≤ K.faults sink.new }
    ensures source_unfailed { result ≢ ReadFault → S.faults source.new ≡ S.faults source.old }
    ensures sink_unfailed { result ≢ WriteFault → K.faults sink.new ≡ K.faults sink.old }
{
    let (status, text) = match reply(alloc, course, asked, source, journals) {
        Ok(reply) => reply,
        Err(ReadError::Memory) => return Status::Memory,
        Err(ReadError::Fault) => return Status::ReadFault,
    };
    match write_all(sink, text.as_slice()) {
        Ok(()) => status,
        Err(SinkError::Failed) => Status::WriteFault,
        Err(SinkError::Memory) => Status::Memory,
    }
}

/// Does what is asked, and says how it ended: nothing is asked where the words of a command line are
/// none of the program's.
///
/// `check` asks whether the bundle that the source has keeps the rules of labels, `eval` for its
/// evaluation, `flows A B` whether its label A
/// flows to its label B, with the reasons, `fmt` for its canonical text, `replay` for the report of its
/// schedule's run, `run` for that, or the summary, of a run that its nodes make by themselves, `watch ROOT N` for that report
/// and what is read of a root beside the run, N times, and behind it, `view NODE ..` for what was
/// sent in the schedule's run into the set of these nodes and the hostile ones, by those outside it, `trust NODE ..`
/// for its trusted replay without that set, `infer` for the canonical text with the least labels for the bundle's
/// holes, and `audit` whether the report that stands behind the bundle, and the journals behind it, are those of a run of it.
/// A text has at most 4,194,304 bytes. Of what the source has left, what the sink holds and which journals were kept, the
/// clauses speak where these tell it.
pub fn answer<C: Course<Core<M::Item>>, S: Source, K: Sink, M: Journals>(
    alloc: Global,
    course: &C,
    asked: Option<Command>,
    source: &mut S,
    sink: &mut K,
    journals: &mut M,
) -> Status
    // What is asked of runs may be wanted of the course, and it makes such runs.
    requires made { CanMake C.makes asked }
    requires course { IsCourse C.makes (C.may course.now) (C.comes course.now) }

    // The clauses are the fields of `IsDone`, and of `IsAnswered` in it (`specs/Answered.antt`), of this command as what is asked for.
    ensures done { IsDone (task_of asked) result S.left S.faults source.old source.new K.written K.faults sink.old sink.new M.seen journals.old journals.new }
{
    run(alloc, course, asked, source, sink, journals)
}
