//! Crashes and the cache.
ghost use Rattle.std.specs.Prelude.{◌↔◌, IsTrue, MatchResult};
ghost use Rattle.fab_base.specs.declared.token.Mark.TheVariants.{Keep};
ghost use Rattle.fab_tree.specs.Lists.{IsNumeral, Perhaps};
ghost use Rattle.fab_tree.specs.Runs.{IsCrash, IsCache};
ghost use Rattle.fab_reading.specs.Reading.{Read, Stops, Starts, any};
ghost use Rattle.fab_bundle.specs.Pieces.{begins_crash, after_number, after_crashes};

use fab_base::{Kind, Mark, Token};
use fab_reading::{Refusal, Rule, behind, name, next, numeral, sign};
use fab_tree::CrashLine;
use std::alloc::Global;

/// A number.
pub(crate) fn number(tokens: &[Token], room: u8) -> Result<(u32, &[Token]), Refusal>
    ensures { MatchResult result (λ x. Read IsNumeral any room tokens.now x.0 x.1.now) (λ e. Stops IsNumeral any room tokens.now e) }
{
    match numeral(tokens) {
        Some((number, rest)) => Ok((number, rest)),
        None => Err(Refusal::Syntax { left: tokens.len() }),
    }
}

/// How many bytes of the record are kept, if the text says so.
fn keep(tokens: &[Token], room: u8) -> Result<(Option<u32>, &[Token]), Refusal>
    ensures { MatchResult result (λ x. Read (Perhaps Keep IsNumeral) after_number room tokens.now x.0 x.1.now) (λ e. Stops (Perhaps Keep IsNumeral) after_number room tokens.now e) }
{
    match behind(tokens, Mark::Keep) {
        None => Ok((None, tokens)),
        Some(rest) => {
            let (kept, rest) = number(rest, room)?;
            Ok((Some(kept), rest))
        }
    }
}

/// Whether a crash comes next.
fn starts_crash(tokens: &[Token]) -> bool
    ensures { IsTrue result ↔ Starts begins_crash tokens.now }
{
    match next(tokens) {
        None => false,
        Some((token, _)) => matches!(token.kind, Kind::Fixed(Mark::Crash)),
    }
}

/// `crash`, a node, after how many events, and how many bytes are kept.
fn crash(alloc: Global, tokens: &[Token], room: u8) -> Result<(CrashLine, &[Token]), Refusal>
    ensures { MatchResult result (λ x. Read IsCrash any room tokens.now x.0 x.1.now) (λ e. Stops IsCrash any room tokens.now e) }
{
    let rest = sign(tokens, Mark::Crash)?;
    let (node, rest) = name(alloc, rest, room)?;
    let rest = sign(rest, Mark::After)?;
    let (count, rest) = number(rest, room)?;
    let (kept, rest) = keep(rest, room)?;
    let rest = sign(rest, Mark::Semicolon)?;
    let crash = CrashLine {
        node,
        after: count,
        keep: kept,
    };
    Ok((crash, rest))
}

/// The rule of one crash.
pub(crate) struct CrashRule;

impl Rule for CrashRule {
    ghost use Rattle.std.specs.Prelude.{refl};
    ghost use Rattle.fab_tree.specs.Runs.{IsCrash};
    ghost use Rattle.fab_reading.specs.Reading.{any};
    ghost use Rattle.fab_bundle.specs.Pieces.{begins_crash};
    ghost use Rattle.fab_bundle.specs.Firsts.{crash_begins};

    type Tree = CrashLine;

    ghost reads = { IsCrash };

    ghost first = { begins_crash };

    ghost may = { any };

    fn starts(tokens: &[Token]) -> bool {
        starts_crash(tokens)
    }

    fn read(alloc: Global, tokens: &[Token], room: u8) -> Result<(CrashLine, &[Token]), Refusal> {
        crash(alloc, tokens, room)
    }

    ghost begins = { crash_begins };

    ghost meets = { λ kind first. refl };
}

/// How many objects a cache keeps, 0 where the text doesn't say.
pub(crate) fn cache(tokens: &[Token], room: u8) -> Result<(u32, &[Token]), Refusal>
    ensures { MatchResult result (λ x. Read IsCache after_crashes room tokens.now x.0 x.1.now) (λ e. Stops IsCache after_crashes room tokens.now e) }
{
    match behind(tokens, Mark::Cache) {
        None => Ok((0, tokens)),
        Some(rest) => {
            let (kept, rest) = number(rest, room)?;
            let rest = sign(rest, Mark::Semicolon)?;
            Ok((kept, rest))
        }
    }
}
