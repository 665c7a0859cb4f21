//! Transcripts: a line for each call, and behind it, set in by two blanks, a line for each thing that the
//! worker does at it.

use crate::trial::Trial;
use fab_base::{NoMemory, Tid};
use fab_net::{Note, Step};
use std::alloc::Global;
use std::test::Fail;

/// What a step does: that an object was cached, the record, and what is sent to whom.
fn put_step(alloc: Global, out: &mut String, step: &Step) -> Result<(), NoMemory> {
    for note in step.notes.as_slice() {
        if let Note::Need { cached: true, .. } = note {
            out.push_str("  cached\n")?;
        }
    }
    if let Some(record) = &step.entry {
        let digits = hex::encode(alloc, record.as_slice())?;
        writeln!(out, "  record {digits}")?;
    }
    for send in step.sends.as_slice() {
        let node = send.0;
        let digits = hex::encode(alloc, send.1.as_slice())?;
        writeln!(out, "  to {node} {digits}")?;
    }
    Ok(())
}

/// The attempt that began.
fn put_tid(out: &mut String, tid: Option<Tid>) -> Result<(), NoMemory> {
    match tid {
        Some(tid) => {
            let (boot, number) = (tid.boot, tid.number);
            writeln!(out, "  {boot}.{number}")
        }
        None => out.push_str("  none\n"),
    }
}

/// These bytes reach the worker: the sender, and behind a blank the bytes in hexadecimal digits.
fn hears(alloc: Global, trial: &mut Trial, rest: &str) -> Result<Step, Fail> {
    let Some((sender, digits)) = rest.split_once(' ') else {
        return Err(Fail::new("no bytes"));
    };
    let bytes = hex::decode(alloc, digits)?;
    Ok(trial.hear(sender.parse::<u16>()?, bytes.as_slice())?)
}

/// What the worker does at a call, if it does anything.
fn done(alloc: Global, trial: &mut Trial, line: &str) -> Result<Option<Step>, Fail> {
    if line == "resume" {
        return Ok(trial.resume()?);
    }
    if line == "recover" {
        return Ok(Some(trial.recover()?));
    }
    if let Some(rest) = line.strip_prefix("hear ") {
        return Ok(Some(hears(alloc, trial, rest)?));
    }
    if let Some(rest) = line.strip_prefix("silent ") {
        return Ok(trial.silent(rest.parse::<u16>()?)?);
    }
    Err(Fail::new("no such call"))
}

/// A call that makes a step, which is told.
fn plays_step(alloc: Global, trial: &mut Trial, line: &str, out: &mut String) -> Result<(), Fail> {
    match done(alloc, trial, line)? {
        Some(step) => {
            trial.keep(&step)?;
            Ok(put_step(alloc, out, &step)?)
        }
        None => Ok(out.push_str("  none\n")?),
    }
}

/// A call, and what comes of it.
fn plays(alloc: Global, trial: &mut Trial, line: &str, out: &mut String) -> Result<(), Fail> {
    writeln!(out, "{line}")?;
    if line == "begin" {
        let tid = trial.begin();
        return Ok(put_tid(out, tid)?);
    }
    if line == "next" {
        let request = trial.request();
        return Ok(writeln!(out, "  {request:?}")?);
    }
    if let Some(request) = line.strip_prefix("outcome ") {
        let outcome = trial.outcome(request.parse::<u32>()?);
        return Ok(writeln!(out, "  {outcome:?}")?);
    }
    if let Some(bytes) = line.strip_prefix("tear ") {
        return Ok(trial.tear(bytes.parse::<usize>()?)?);
    }
    plays_step(alloc, trial, line, out)
}

/// What comes of the calls of a transcript, as a transcript, at the worker of number 0 of a bundle. The
/// first line is the bundle's run part.
pub(crate) fn played(alloc: Global, program: &str, script: &str) -> Result<String, Fail> {
    let Some((run, calls)) = script.split_once('\n') else {
        return Err(Fail::new("no calls"));
    };
    let text = format!(in alloc; "{program}{run}")?;
    let mut trial = Trial::make(alloc, text.as_bytes(), 0)?;
    let mut out = format!(in alloc; "{run}\n")?;
    for line in calls.lines() {
        if !line.starts_with("  ") {
            plays(alloc, &mut trial, line, &mut out)?;
        }
    }
    Ok(out)
}
