//! The program: standard input and output, the words of the command line, and the status's number.
#![tactic(auto)]

use fab_base::{StdSink, StdSource};
use fab_device::FileJournals;
use fab_gates::OpenGate;
use fab_top::{Status, fab};
use std::env;
use std::io::ErrorKind;
use std::process::ExitCode;

fn main(rt: HostRuntime) -> ExitCode {
    let alloc = rt.alloc();
    let mut source = StdSource::new(rt.stdin());
    let mut sink = StdSink::new(rt.stdout());
    let mut journals = FileJournals::new(&rt, alloc);
    // Words that aren't text are a faulty command line, as none are; want of memory is told as such.
    let status = match env::args(&rt) {
        Err(problem) if problem.kind() == ErrorKind::OutOfMemory => Status::Memory,
        Err(_) => fab(
            &rt,
            alloc,
            &[],
            &mut source,
            &mut sink,
            &mut journals,
            &OpenGate,
        ),
        Ok(args) => match args.skip(1).collect::<Vec<String>>(alloc) {
            Err(_) => Status::Memory,
            Ok(words) => fab(
                &rt,
                alloc,
                &words,
                &mut source,
                &mut sink,
                &mut journals,
                &OpenGate,
            ),
        },
    };
    ExitCode::from(status.number())
}
