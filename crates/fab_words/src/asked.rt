//! What the words of a command line ask for, by `clap`.
ghost use Rattle.std.specs.Prelude.{◌≡◌, IfOk, string_bytes};
ghost use Rattle.std.specs.List.{list_any};
ghost use Rattle.clap.specs.Words.{app_of, found_of, rows_of};
ghost use Rattle.fab_asked.specs.Numbers.{IsSized};
ghost use Rattle.fab_asked.specs.Words.{asked_by, begins_with_dash};
ghost use Rattle.fab_words.specs.Line.{asked_in, command_line};

use clap::error::ErrorKind;
use clap::{Arg, ArgAction, ArgMatches};
use fab_asked::asked_with;
use fab_base::NoMemory;
use fab_command::Task;
use std::alloc::{AllocError, Global};

/// Whether the word begins with `-`.
fn has_dash(word: &str) -> bool
    ensures { result ≡ begins_with_dash word.now }
{
    match word.as_bytes() {
        [first, ..] => *first == b'-',
        [] => false,
    }
}

/// Whether a word begins with `-`.
fn have_dash(words: &[String]) -> bool
    ensures { result ≡ list_any (λ word. begins_with_dash (string_bytes word)) words.now }
{
    words.iter().any(|word| has_dash(word.as_str()))
}

/// What the matches ask for.
fn asked_of(alloc: Global, matches: &ArgMatches) -> Result<Option<Task>, NoMemory>
    ensures { IfOk result (λ t. t ≡ asked_in (rows_of (found_of matches.now))) }
{
    match matches.get_str("command") {
        None => Ok(None),
        Some(word) => {
            let operands = matches.get_strs("operands").unwrap_or(&[]);
            asked_with(alloc, word, operands)
        }
    }
}

/// A command line: a command's word, and its operands.
fn command_line<'a>(alloc: Global) -> Result<clap::Command<'a>, NoMemory>
    ensures { IfOk result (λ line. app_of line ≡ command_line) }
{
    let command = Arg::new(alloc, "command")
        .required(true)
        .action(ArgAction::Set);
    let operands = Arg::new(alloc, "operands").action(ArgAction::Append);
    clap::Command::new(alloc, "fab")
        .no_binary_name(true)
        .disable_help_flag(true)
        .arg(command)?
        .arg(operands)
}

/// What the words ask for, or none.
///
/// A word that begins with `-` asks for nothing. Of other words `clap` takes the first for the
/// command's and those behind it for its operands: two names of the language for `flows`, up to 32
/// for `view` and `trust`, one and a number of reads for `watch`, a number and a size for `gen` and `drill`, and none
/// for the others.
pub fn asked_task(alloc: Global, words: &[String]) -> Result<Option<Task>, NoMemory>
    ensures asked { IfOk result (λ t. t ≡ asked_by words.now) }
    ensures sized { IfOk result IsSized }
{
    if have_dash(words) {
        return Ok(None);
    }
    match command_line(alloc)?.try_get_matches_from(words) {
        Ok(matches) => asked_of(alloc, &matches),
        Err(error) => match error.kind() {
            ErrorKind::OutOfMemory => Err(AllocError),
            _ => Ok(None),
        },
    }
}
