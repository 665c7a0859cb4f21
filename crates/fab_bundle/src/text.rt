//! A whole bundle.
ghost use Rattle.std.specs.Prelude.{◌≡◌, ◌<◌, ◌^◌, length, List, None, MatchResult, IfOk, IfErr, OnOk};
ghost use Rattle.fab_tree.specs.Syntax.{IsStart, IsText};
ghost use Rattle.fab_tree.specs.Depth.{KeepsDepth};
ghost use Rattle.fab_tree.specs.Limits.{first_passed};
ghost use Rattle.fab_tree.specs.declared.start.Start.{Start as StartTree};
ghost use Rattle.fab_reading.specs.Reading.{Read, Stops, any};
ghost use Rattle.fab_bundle.specs.Texts.{RefusedAt, CannotTake, OnDepthLimit};

use crate::crashes::{CrashRule, cache};
use crate::error::BundleError;
use crate::limits::first_passed;
use crate::posts::PostRule;
use crate::roots::RootRule;
use crate::schedule::schedule;
use crate::sessions::SessionRule;
use fab_base::{Mark, Token};
use fab_parser::read_program;
use fab_reading::{Refusal, open, repeated, sign};
use fab_tree::Start;
use std::alloc::Global;

/// How many brackets may be open at once.
const DEPTH: u8 = 64;

/// A program, and a run with its roots, sessions, posts, crashes, cache and schedule.
fn start(alloc: Global, tokens: &[Token], room: u8) -> Result<(Start, &[Token]), Refusal>
    ensures { MatchResult result (λ x. Read IsStart any room tokens.now x.0 x.1.now) (λ e. Stops IsStart any room tokens.now e) }
{
    let (program, rest) = read_program(alloc, tokens, room)?;
    let rest = sign(rest, Mark::Run)?;
    let (rest, inner) = open(rest, Mark::LeftBrace, room)?;
    let (roots, rest) = repeated::<RootRule>(alloc, rest, inner)?;
    let (sessions, rest) = repeated::<SessionRule>(alloc, rest, inner)?;
    let (posts, rest) = repeated::<PostRule>(alloc, rest, inner)?;
    let (crashes, rest) = repeated::<CrashRule>(alloc, rest, inner)?;
    let (kept, rest) = cache(rest, inner)?;
    let (events, rest) = schedule(alloc, rest, inner)?;
    let rest = sign(rest, Mark::RightBrace)?;
    let start = Start {
        program,
        roots,
        sessions,
        posts,
        crashes,
        cache: kept,
        schedule: events,
    };
    Ok((start, rest))
}

/// The bundle that these tokens stand for, if it passes no limit.
pub fn bundle(alloc: Global, tokens: &[Token]) -> Result<Start, BundleError>
    requires { length tokens.now < 2 ^ 32 }
    // What is read is the bundle of the text.
    ensures found { IfOk result (λ s. IsText tokens.now s) }
    // It passes no limit.
    ensures within { IfOk result (λ s. first_passed s ≡ None) }
    // What stands for a bundle is read as that one, unless memory or brackets run out or it passes a limit.
    ensures only { (s : StartTree) → IsText tokens.now s → MatchResult result (λ found. found ≡ s) (CannotTake s) }
    // A token is refused exactly where those before it begin a text, and with it they begin none; a limit where the text's one bundle passes it first.
    ensures refused { IfErr result (λ e. RefusedAt tokens.now e) }
    // No more than 64 brackets are open at once, and more where the limit is refused.
    ensures depth { OnOk result (KeepsDepth tokens.now) }
    ensures deep { IfErr result (λ e. OnDepthLimit e (KeepsDepth tokens.now → ⊥)) }
{
    match start(alloc, tokens, DEPTH) {
        Ok((found, [])) => match first_passed(&found) {
            None => Ok(found),
            Some(what) => Err(BundleError::Limit { what }),
        },
        Ok((_, rest)) => Err(BundleError::Syntax {
            token: (tokens.len() - rest.len()) as u32,
        }),
        Err(Refusal::Memory) => Err(BundleError::Memory),
        Err(Refusal::Syntax { left }) => Err(BundleError::Syntax {
            token: (tokens.len() - left) as u32,
        }),
        Err(Refusal::Deep { left }) => Err(BundleError::DepthLimit {
            token: (tokens.len() - left) as u32,
        }),
    }
}
