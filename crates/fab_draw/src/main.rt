//! The program that draws: standard input and output, the words of the command line, and the ending's number.
#![tactic(auto)]

use fab_base::{NoMemory, StdSink, StdSource};
use fab_drawing::{Ending, Status, draw};
use std::alloc::{AllocError, Global};
use std::env;
use std::io::ErrorKind;
use std::process::ExitCode;

/// A word that asks for nothing, in the place of words that aren't text.
fn faulty(alloc: Global) -> Result<Vec<String>, NoMemory> {
    let mut words = Vec::new(alloc);
    words.push(format!(in alloc; "?")?)?;
    Ok(words)
}

fn main(rt: HostRuntime) -> ExitCode {
    let alloc = rt.alloc();
    let mut source = StdSource::new(rt.stdin());
    let mut sink = StdSink::new(rt.stdout());
    // Words that aren't text are a faulty command line; want of memory is told as such.
    let words = match env::args(&rt) {
        Err(problem) if problem.kind() == ErrorKind::OutOfMemory => Err(AllocError),
        Err(_) => faulty(alloc),
        Ok(args) => args.skip(1).collect::<Vec<String>>(alloc),
    };
    let ending = match words {
        Ok(words) => draw(alloc, &words, &mut source, &mut sink),
        Err(AllocError) => Ending::Plain(Status::Memory),
    };
    ExitCode::from(ending.number())
}
