//! Journals behind a report, read.

ghost use Rattle.std.specs.Prelude.{◌≡◌, ◌==◌, ◌≤◌, ◌++◌, ◌∷◌, [], length};
ghost use Rattle.fab_wire.specs.Reading.{Gives};
ghost use Rattle.fab_reports.specs.Reading.{kind_at, shared};
ghost use Rattle.fab_evidence.specs.Texts.{behind as behind_in};
ghost use Rattle.fab_evidence.specs.Reading.{AnswersJournals, AreNamed, journal_at, name_before};

use crate::shown::ShownJournal;
use fab_base::Seq;
use fab_lines::node_name;
use fab_reports::{behind, bytes_until, shared_front};
use fab_tree::resolved::Resolved;
use fab_wire::Stop;
use std::alloc::Global;

/// How many bytes a name with a space behind it has in common with others at their fronts.
#[tactic(auto, using(crate::proofs::Fronts::shared_within_word, crate::proofs::Fronts::shared_past_word))]
fn shared_name(name: &[u8], bytes: &[u8]) -> usize
    ensures count { result ≡ shared (name.now ++ 32 ∷ []) bytes.now }
    ensures within { result ≤ length bytes.now }
{
    let shared = shared_front(name, bytes);
    if shared < name.len() {
        return shared;
    }
    shared + shared_front(b" ", &bytes[shared..])
}

/// Whether so many bytes in common are the whole name with its space.
fn is_whole(name: &[u8], shared: usize) -> bool
    requires { shared ≤ length (name.now ++ 32 ∷ []) }
    ensures { result ≡ (shared == length (name.now ++ 32 ∷ [])) }
{
    shared > name.len()
}

/// Which of these nodes is named at the front, and the bytes behind its name and a space.
fn node_of<'a>(program: &Resolved, nodes: &[u16], bytes: &'a [u8]) -> Result<(u16, &'a [u8]), Stop>
    ensures { Gives (λ x. (x.0, x.1.now)) result (kind_at (name_before program.now) nodes.now bytes.now) }
{
    let mut longest = 0;
    let mut rest = nodes;
    'nodes: while let Some((node, others)) = rest.split_first() {
        let name = node_name(program, *node).as_bytes();
        let shared = shared_name(name, bytes);
        if is_whole(name, shared) {
            return Ok((*node, &bytes[shared..]));
        }
        longest = longest.max(shared);
        rest = others;
    }
    Err(Stop::Bad {
        left: bytes.len() - longest,
    })
}

/// The nodes behind this one.
fn nodes_behind(node: u16, nodes: &[u16]) -> &[u16]
    ensures { result.now ≡ behind_in node nodes.now }
{
    let mut rest = nodes;
    'nodes: while let Some((first, others)) = rest.split_first() {
        rest = others;
        if *first == node {
            return rest;
        }
    }
    rest
}

/// The journal at the front, of one of these nodes.
#[tactic(auto, unfolding(crate::specs::Reading::journal_at))]
fn journal_of<'a>(
    alloc: Global,
    program: &Resolved,
    nodes: &[u16],
    bytes: &'a [u8],
) -> Result<(ShownJournal, &'a [u8]), Stop>
    ensures { Gives (λ x. (x.0, x.1.now)) result (journal_at program.now nodes.now bytes.now) }
{
    let rest = behind(b"journal ", bytes)?;
    let (node, rest) = node_of(program, nodes, rest)?;
    let (bytes, rest) = bytes_until(alloc, rest, b'\n')?;
    Ok((ShownJournal { node, bytes }, rest))
}

/// The journals that the bytes are, each of one of these nodes, in their order.
pub(crate) fn journals_of(
    alloc: Global,
    program: &Resolved,
    nodes: &[u16],
    bytes: &[u8],
) -> Result<Seq<ShownJournal>, Stop>
    requires { AreNamed program.now nodes.now }
    ensures { AnswersJournals program.now nodes.now bytes.now result }
{
    let mut journals = Seq::new(alloc);
    let mut left = nodes;
    let mut rest = bytes;
    'journals: while !rest.is_empty() {
        if left.is_empty() {
            return Err(Stop::Bad { left: rest.len() });
        }
        let (journal, after) = journal_of(alloc, program, left, rest)?;
        left = nodes_behind(journal.node, left);
        rest = after;
        journals.push(journal)?;
    }
    Ok(journals)
}
