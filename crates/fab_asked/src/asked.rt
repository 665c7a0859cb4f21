//! What a word asks for, with its operands.
ghost use Rattle.std.specs.Prelude.{◌≡◌, ◌∷◌, IfOk, Some, None, if◌then◌else◌, map};
ghost use Rattle.std.specs.List.{list_all};
ghost use Rattle.fab_asked.specs.Names.{is_name_word};
ghost use Rattle.fab_asked.specs.Words.{asked, command_among, command_asked, command_of, command_with, nodes_of, reads_of, trust_of, view_of, watch_of};

use crate::names::is_name;
use crate::numbers::{numbers_of, size_of};
use fab_base::{NoMemory, Seq, Text};
use fab_command::{Command, Task, Telling};
use std::alloc::Global;

/// How many nodes `view` and `trust` may name.
const MOST_NODES: usize = 32;

/// The command of one word.
fn named(word: &str) -> Option<Command>
    ensures { result ≡ command_of word.now }
{
    if word == "check" {
        Some(Command::Check)
    } else if word == "eval" {
        Some(Command::Evaluate)
    } else if word == "fmt" {
        Some(Command::Format)
    } else if word == "replay" {
        Some(Command::Replay)
    } else if word == "run" {
        Some(Command::Run(Telling::Report))
    } else if word == "infer" {
        Some(Command::Infer)
    } else if word == "audit" {
        Some(Command::Audit)
    } else {
        None
    }
}

/// The command of a word and two operands.
fn named_with(alloc: Global, word: &str, from: &str, to: &str) -> Result<Option<Command>, NoMemory>
    ensures { IfOk result (λ c. c ≡ command_with word.now from.now to.now) }
{
    if word == "flows" && is_name(alloc, from)? && is_name(alloc, to)? {
        let from = Text::make(alloc, from)?;
        let to = Text::make(alloc, to)?;
        return Ok(Some(Command::Flows { from, to }));
    }
    Ok(None)
}

/// The command of a word that takes no list of nodes, and its operands.
fn named_among(alloc: Global, word: &str, operands: &[&str]) -> Result<Option<Command>, NoMemory>
    ensures { IfOk result (λ c. c ≡ command_among word.now (map (λ v. v.now) operands.now)) }
{
    match operands {
        [] => Ok(named(word)),
        [_] => Ok(None),
        [from, to] => named_with(alloc, word, from, to),
        [_, _, _, ..] => Ok(None),
    }
}

/// The words, if each is a name of the language.
fn names_in(alloc: Global, words: &[&str]) -> Result<Option<Seq<Text>>, NoMemory>
    ensures { IfOk result (λ names. names ≡ (if list_all is_name_word (map (λ v. v.now) words.now) then Some (map (λ v. v.now) words.now) else None)) }
{
    let mut names = Seq::new(alloc);
    for word in words {
        if !is_name(alloc, word)? {
            return Ok(None);
        }
        let name = Text::make(alloc, word)?;
        names.push(name)?;
    }
    Ok(Some(names))
}

/// These operands, if they are names of so few nodes as a set may have.
fn nodes_of(alloc: Global, operands: &[&str]) -> Result<Option<Seq<Text>>, NoMemory>
    ensures { IfOk result (λ nodes. nodes ≡ nodes_of (map (λ v. v.now) operands.now)) }
{
    if operands.len() > MOST_NODES {
        return Ok(None);
    }
    names_in(alloc, operands)
}

/// The command of these operands of `view`.
fn view_of(alloc: Global, operands: &[&str]) -> Result<Option<Command>, NoMemory>
    ensures { IfOk result (λ c. c ≡ view_of (map (λ v. v.now) operands.now)) }
{
    match nodes_of(alloc, operands)? {
        Some(nodes) => Ok(Some(Command::View { nodes })),
        None => Ok(None),
    }
}

/// The command of these operands of `trust`.
fn trust_of(alloc: Global, operands: &[&str]) -> Result<Option<Command>, NoMemory>
    ensures { IfOk result (λ c. c ≡ trust_of (map (λ v. v.now) operands.now)) }
{
    match nodes_of(alloc, operands)? {
        Some(nodes) => Ok(Some(Command::Trust { nodes })),
        None => Ok(None),
    }
}

/// The command of a root that is read so many times, if that is a number.
fn reads_of(alloc: Global, root: &str, times: Option<u32>) -> Result<Option<Command>, NoMemory>
    ensures { IfOk result (λ c. c ≡ reads_of root.now times) }
{
    let Some(times) = times else {
        return Ok(None);
    };
    if !is_name(alloc, root)? {
        return Ok(None);
    }
    let root = Text::make(alloc, root)?;
    Ok(Some(Command::Run(Telling::Reads { root, times })))
}

/// The command of these operands of `watch`.
fn watch_of(alloc: Global, operands: &[&str]) -> Result<Option<Command>, NoMemory>
    ensures { IfOk result (λ c. c ≡ watch_of (map (λ v. v.now) operands.now)) }
{
    match operands {
        [] => Ok(None),
        [_] => Ok(None),
        [root, times] => reads_of(alloc, root, size_of(times)),
        [_, _, _, ..] => Ok(None),
    }
}

/// The command of a word and its operands.
fn commanded(alloc: Global, word: &str, operands: &[&str]) -> Result<Option<Command>, NoMemory>
    ensures { IfOk result (λ c. c ≡ command_asked word.now (map (λ v. v.now) operands.now)) }
{
    if word == "view" {
        view_of(alloc, operands)
    } else if word == "trust" {
        trust_of(alloc, operands)
    } else if word == "watch" {
        watch_of(alloc, operands)
    } else {
        named_among(alloc, word, operands)
    }
}

/// What a word asks for, with its operands: two names of the language for `flows`, up to 32 for `view` and `trust`, one
/// and a number of reads for `watch`, a number and a size for `gen` and `drill`, and none for the other commands. Whatever else there is asks for nothing.
pub fn asked_with(alloc: Global, word: &str, operands: &[&str]) -> Result<Option<Task>, NoMemory>
    ensures { IfOk result (λ t. t ≡ asked (word.now ∷ map (λ v. v.now) operands.now)) }
{
    if word == "gen" {
        Ok(numbers_of(operands).map(|(number, size)| Task::Generate { number, size }))
    } else if word == "drill" {
        Ok(numbers_of(operands).map(|(number, size)| Task::Drill { number, size }))
    } else {
        Ok(commanded(alloc, word, operands)?.map(Task::Reply))
    }
}
