//! The program with the commands that make no run: `check`, `eval`, `flows` and `fmt`. It stands on few
//! crates, so its text is soon at hand where nothing is built. For words that ask for anything else it
//! says `usage`.
#![tactic(auto)]

ghost use Rattle.std.specs.Prelude.{IfOk, IfSome};
ghost use Rattle.fab_front.specs.Refused.{AsksBundle};

use fab_answers::{Said, said_of};
use fab_asked::asked_with;
use fab_base::{NoMemory, Seq, SinkError, Source, StdSink, StdSource};
use fab_command::{Command, Task};
use fab_front::{ReadError, Status, read_all, usage, write_all};
use std::alloc::{AllocError, Global};
use std::env;
use std::io::ErrorKind;
use std::process::ExitCode;

/// The command that the words ask for, if it makes no run.
fn command_of(alloc: Global, words: &[String]) -> Result<Option<Command>, NoMemory>
    ensures { IfOk result (λ asked. IfSome asked AsksBundle) }
{
    let words = words
        .iter()
        .map(|word| word.as_str())
        .collect::<Vec<&str>>(alloc)?;
    let Some((word, operands)) = words.split_first() else {
        return Ok(None);
    };
    match asked_with(alloc, word, operands)? {
        Some(
            Task::Reply(
                command @ (Command::Check
                | Command::Evaluate
                | Command::Flows { .. }
                | Command::Format),
            ),
        ) => Ok(Some(command)),
        _ => Ok(None),
    }
}

/// The reply to the words and the text that the source has.
fn reply<S: Source>(
    alloc: Global,
    words: &[String],
    source: &mut S,
) -> Result<(Status, Seq<u8>), ReadError> {
    let Some(command) = command_of(alloc, words)? else {
        return Ok(usage(alloc)?);
    };
    let text = read_all(alloc, source)?;
    match said_of(alloc, &command, &text)? {
        Said::Reply { status, reply } => Ok((status, reply)),
        Said::Bundle(_) => Ok(usage(alloc)?),
    }
}

fn main(rt: HostRuntime) -> ExitCode {
    let alloc = rt.alloc();
    let mut source = StdSource::new(rt.stdin());
    let mut sink = StdSink::new(rt.stdout());
    // Words that aren't text are a faulty command line, as none are; want of memory is told as such.
    let words = match env::args(&rt) {
        Err(problem) if problem.kind() == ErrorKind::OutOfMemory => Err(AllocError),
        Err(_) => Ok(Vec::new(alloc)),
        Ok(args) => args.skip(1).collect::<Vec<String>>(alloc),
    };
    let replied = match words {
        Ok(words) => reply(alloc, &words, &mut source),
        Err(AllocError) => Err(ReadError::Memory),
    };
    let status = match replied {
        Err(ReadError::Memory) => Status::Memory,
        Err(ReadError::Fault) => Status::ReadFault,
        Ok((status, text)) => match write_all(&mut sink, text.as_slice()) {
            Ok(()) => status,
            Err(SinkError::Failed) => Status::WriteFault,
            Err(SinkError::Memory) => Status::Memory,
        },
    };
    ExitCode::from(status.number())
}
