//! Posts of hostile nodes, with their bytes.
ghost use Rattle.std.specs.Prelude.{◌↔◌, IsTrue, MatchResult};
ghost use Rattle.fab_tree.specs.Lists.{IsBytes};
ghost use Rattle.fab_tree.specs.Runs.{IsPost};
ghost use Rattle.fab_reading.specs.Reading.{Read, Stops, Starts, any};
ghost use Rattle.fab_bundle.specs.Pieces.{begins_post};

use fab_base::{Kind, Mark, Seq, Token};
use fab_reading::{Refusal, Rule, name, next, sign};
use fab_tree::PostLine;
use std::alloc::Global;

/// Bytes in quotation marks.
fn bytes(alloc: Global, tokens: &[Token], room: u8) -> Result<(Seq<u8>, &[Token]), Refusal>
    ensures { MatchResult result (λ x. Read IsBytes any room tokens.now x.0 x.1.now) (λ e. Stops IsBytes any room tokens.now e) }
{
    match next(tokens) {
        None => Err(Refusal::Syntax { left: 0 }),
        Some((token, rest)) => match &token.kind {
            Kind::Bytes(found) => {
                let bytes = Seq::from_slice(alloc, found.as_slice())?;
                Ok((bytes, rest))
            }
            _ => Err(Refusal::Syntax { left: tokens.len() }),
        },
    }
}

/// Whether a post comes next.
fn starts_post(tokens: &[Token]) -> bool
    ensures { IsTrue result ↔ Starts begins_post tokens.now }
{
    match next(tokens) {
        None => false,
        Some((token, _)) => matches!(token.kind, Kind::Fixed(Mark::Post)),
    }
}

/// `post`, the sender, the receiver and the bytes.
fn post(alloc: Global, tokens: &[Token], room: u8) -> Result<(PostLine, &[Token]), Refusal>
    ensures { MatchResult result (λ x. Read IsPost any room tokens.now x.0 x.1.now) (λ e. Stops IsPost any room tokens.now e) }
{
    let rest = sign(tokens, Mark::Post)?;
    let (sender, rest) = name(alloc, rest, room)?;
    let rest = sign(rest, Mark::Arrow)?;
    let (receiver, rest) = name(alloc, rest, room)?;
    let (bytes, rest) = bytes(alloc, rest, room)?;
    let rest = sign(rest, Mark::Semicolon)?;
    let post = PostLine {
        sender,
        receiver,
        bytes,
    };
    Ok((post, rest))
}

/// The rule of one post.
pub(crate) struct PostRule;

impl Rule for PostRule {
    ghost use Rattle.std.specs.Prelude.{refl};
    ghost use Rattle.fab_tree.specs.Runs.{IsPost};
    ghost use Rattle.fab_reading.specs.Reading.{any};
    ghost use Rattle.fab_bundle.specs.Pieces.{begins_post};
    ghost use Rattle.fab_bundle.specs.Firsts.{post_begins};

    type Tree = PostLine;

    ghost reads = { IsPost };

    ghost first = { begins_post };

    ghost may = { any };

    fn starts(tokens: &[Token]) -> bool {
        starts_post(tokens)
    }

    fn read(alloc: Global, tokens: &[Token], room: u8) -> Result<(PostLine, &[Token]), Refusal> {
        post(alloc, tokens, room)
    }

    ghost begins = { post_begins };

    ghost meets = { λ kind first. refl };
}
