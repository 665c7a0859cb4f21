//! Sessions and their requests.
ghost use Rattle.std.specs.Prelude.{◌↔◌, IsTrue, MatchResult};
ghost use Rattle.fab_tree.specs.Runs.{IsRequest, IsSession};
ghost use Rattle.fab_reading.specs.Reading.{Read, Stops, Starts, any, begins_session};

use crate::literals::GivenItem;
use fab_base::{Kind, Mark, Token};
use fab_reading::{Refusal, Rule, name, next, open, repeated, separated, sign, starts_name};
use fab_tree::{RequestText, Session};
use std::alloc::Global;

/// A method, and literals in brackets.
fn request(alloc: Global, tokens: &[Token], room: u8) -> Result<(RequestText, &[Token]), Refusal>
    ensures { MatchResult result (λ x. Read IsRequest any room tokens.now x.0 x.1.now) (λ e. Stops IsRequest any room tokens.now e) }
{
    let (method, rest) = name(alloc, tokens, room)?;
    let (rest, inner) = open(rest, Mark::LeftParen, room)?;
    let (arguments, rest) = separated::<GivenItem>(alloc, rest, inner)?;
    let rest = sign(rest, Mark::RightParen)?;
    let rest = sign(rest, Mark::Semicolon)?;
    Ok((RequestText { method, arguments }, rest))
}

/// The rule of one request.
struct RequestRule;

impl Rule for RequestRule {
    ghost use Rattle.std.specs.Prelude.{refl};
    ghost use Rattle.fab_tree.specs.Runs.{IsRequest};
    ghost use Rattle.fab_reading.specs.Reading.{any, begins_name};
    ghost use Rattle.fab_bundle.specs.Firsts.{request_begins};

    type Tree = RequestText;

    ghost reads = { IsRequest };

    ghost first = { begins_name };

    ghost may = { any };

    fn starts(tokens: &[Token]) -> bool {
        starts_name(tokens)
    }

    fn read(alloc: Global, tokens: &[Token], room: u8) -> Result<(RequestText, &[Token]), Refusal> {
        request(alloc, tokens, room)
    }

    ghost begins = { request_begins };

    ghost meets = { λ kind first. refl };
}

/// Whether a session comes next.
fn starts_session(tokens: &[Token]) -> bool
    ensures { IsTrue result ↔ Starts begins_session tokens.now }
{
    match next(tokens) {
        None => false,
        Some((token, _)) => matches!(token.kind, Kind::Fixed(Mark::Session)),
    }
}

/// `session`, a worker, and requests in braces.
fn session(alloc: Global, tokens: &[Token], room: u8) -> Result<(Session, &[Token]), Refusal>
    ensures { MatchResult result (λ x. Read IsSession any room tokens.now x.0 x.1.now) (λ e. Stops IsSession any room tokens.now e) }
{
    let rest = sign(tokens, Mark::Session)?;
    let (worker, rest) = name(alloc, rest, room)?;
    let (rest, inner) = open(rest, Mark::LeftBrace, room)?;
    let (requests, rest) = repeated::<RequestRule>(alloc, rest, inner)?;
    let rest = sign(rest, Mark::RightBrace)?;
    Ok((Session { worker, requests }, rest))
}

/// The rule of one session.
pub(crate) struct SessionRule;

impl Rule for SessionRule {
    ghost use Rattle.std.specs.Prelude.{refl};
    ghost use Rattle.fab_tree.specs.Runs.{IsSession};
    ghost use Rattle.fab_reading.specs.Reading.{any, begins_session};
    ghost use Rattle.fab_bundle.specs.Firsts.{session_begins};

    type Tree = Session;

    ghost reads = { IsSession };

    ghost first = { begins_session };

    ghost may = { any };

    fn starts(tokens: &[Token]) -> bool {
        starts_session(tokens)
    }

    fn read(alloc: Global, tokens: &[Token], room: u8) -> Result<(Session, &[Token]), Refusal> {
        session(alloc, tokens, room)
    }

    ghost begins = { session_begins };

    ghost meets = { λ kind first. refl };
}
