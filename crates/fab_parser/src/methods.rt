//! Methods and their parameters.
ghost use Rattle.std.specs.Prelude.{◌≡◌, ◌↔◌, IsTrue, MatchResult};
ghost use Rattle.fab_base.specs.declared.token.Mark.TheVariants.{Returns as ReturnsMark};
ghost use Rattle.fab_tree.specs.Lists.{Perhaps};
ghost use Rattle.fab_tree.specs.Programs.{IsParameter, IsReturns, IsFails, IsAuthority, IsResult, IsMethod};
ghost use Rattle.fab_reading.specs.Reading.{Read, Stops, Starts, any, begins_method};
ghost use Rattle.fab_parser.specs.Pieces.{after_parameters, after_head, after_authority, after_body};

use crate::classes::{sort, starts_sort};
use crate::statements::{statements, value};
use fab_base::{Kind, Mark, Seq, Token};
use fab_reading::{Item, Refusal, Rule, behind, name, next, open, place, separated, sign};
use fab_tree::{Method, Name, Parameter, Return, Returns};
use std::alloc::Global;

/// A type, a name and its label.
fn parameter(alloc: Global, tokens: &[Token], room: u8) -> Result<(Parameter, &[Token]), Refusal>
    ensures { MatchResult result (λ x. Read IsParameter any room tokens.now x.0 x.1.now) (λ e. Stops IsParameter any room tokens.now e) }
{
    let (sort, rest) = sort(alloc, tokens, room)?;
    let (local, rest) = name(alloc, rest, room)?;
    let rest = sign(rest, Mark::Colon)?;
    let (label, rest) = name(alloc, rest, room)?;
    let parameter = Parameter {
        sort,
        name: local,
        label,
    };
    Ok((parameter, rest))
}

/// A parameter in a list with commas.
struct ParameterItem;

impl Item for ParameterItem {
    ghost use Rattle.std.specs.Prelude.{refl};
    ghost use Rattle.fab_base.specs.declared.token.Mark.TheVariants.{Comma};
    ghost use Rattle.fab_tree.specs.Programs.{IsParameter};
    ghost use Rattle.fab_reading.specs.Reading.{any, begins_sort, is_comma};
    ghost use Rattle.fab_parser.specs.Firsts.{parameter_begins};

    type Tree = Parameter;

    ghost reads = { IsParameter };

    ghost first = { begins_sort };

    ghost may = { any };

    ghost between = { Comma };

    ghost parts = { is_comma };

    fn mark() -> Mark {
        Mark::Comma
    }

    fn starts(tokens: &[Token]) -> bool {
        starts_sort(tokens)
    }

    fn read(alloc: Global, tokens: &[Token], room: u8) -> Result<(Parameter, &[Token]), Refusal> {
        parameter(alloc, tokens, room)
    }

    ghost begins = { parameter_begins };

    ghost level = { λ room. refl };

    ghost is_part = { refl };

    ghost follows = { refl };
}

/// The type and the label of a result.
fn typed(alloc: Global, tokens: &[Token], room: u8) -> Result<(Returns, &[Token]), Refusal>
    ensures { MatchResult result (λ x. Read IsReturns any room tokens.now x.0 x.1.now) (λ e. Stops IsReturns any room tokens.now e) }
{
    let (sort, rest) = sort(alloc, tokens, room)?;
    let rest = sign(rest, Mark::Colon)?;
    let (label, rest) = name(alloc, rest, room)?;
    Ok((Returns { sort, label }, rest))
}

/// What a method returns, if it says so.
fn returns(
    alloc: Global,
    tokens: &[Token],
    room: u8,
) -> Result<(Option<Returns>, &[Token]), Refusal>
    ensures { MatchResult result (λ x. Read (Perhaps ReturnsMark IsReturns) after_parameters room tokens.now x.0 x.1.now) (λ e. Stops (Perhaps ReturnsMark IsReturns) after_parameters room tokens.now e) }
{
    match behind(tokens, Mark::Returns) {
        None => Ok((None, tokens)),
        Some(rest) => {
            let (returns, rest) = typed(alloc, rest, room)?;
            Ok((Some(returns), rest))
        }
    }
}

/// Whether the head of a method has `fails` next.
fn fails(tokens: &[Token], room: u8) -> Result<(bool, &[Token]), Refusal>
    ensures { MatchResult result (λ x. Read IsFails after_head room tokens.now x.0 x.1.now) (λ e. Stops IsFails after_head room tokens.now e) }
{
    match behind(tokens, Mark::Fails) {
        Some(rest) => Ok((true, rest)),
        None => Ok((false, tokens)),
    }
}

/// The principals whose power a method uses.
fn authority(alloc: Global, tokens: &[Token], room: u8) -> Result<(Seq<Name>, &[Token]), Refusal>
    ensures { MatchResult result (λ x. Read IsAuthority after_authority room tokens.now x.0 x.1.now) (λ e. Stops IsAuthority after_authority room tokens.now e) }
{
    let mut found = Seq::new(alloc);
    let inside = match behind(tokens, Mark::Authority) {
        None => return Ok((found, tokens)),
        Some(inside) => inside,
    };
    let (item, after) = name(alloc, inside, room)?;
    found.push(item)?;
    let mut rest = after;
    'list: while let Some(after) = behind(rest, Mark::Comma) {
        let (item, after) = name(alloc, after, room)?;
        found.push(item)?;
        rest = after;
    }
    Ok((found, rest))
}

/// What a method returns at its end, if it does.
fn returned(
    alloc: Global,
    tokens: &[Token],
    room: u8,
) -> Result<(Option<Return>, &[Token]), Refusal>
    ensures { MatchResult result (λ x. Read IsResult after_body room tokens.now x.0 x.1.now) (λ e. Stops IsResult after_body room tokens.now e) }
{
    match behind(tokens, Mark::Return) {
        None => Ok((None, tokens)),
        Some(rest) => {
            let at = place(tokens);
            let (value, rest) = value(alloc, rest, room)?;
            Ok((Some(Return { value, at }), rest))
        }
    }
}

/// Whether a method comes next.
fn starts_method(tokens: &[Token]) -> bool
    ensures { IsTrue result ↔ Starts begins_method tokens.now }
{
    match next(tokens) {
        None => false,
        Some((token, _)) => matches!(token.kind, Kind::Fixed(Mark::Method)),
    }
}

/// A whole method.
fn method(alloc: Global, tokens: &[Token], room: u8) -> Result<(Method, &[Token]), Refusal>
    ensures { MatchResult result (λ x. Read IsMethod any room tokens.now x.0 x.1.now) (λ e. Stops IsMethod any room tokens.now e) }
{
    let rest = sign(tokens, Mark::Method)?;
    let (method, rest) = name(alloc, rest, room)?;
    let (rest, inner) = open(rest, Mark::LeftParen, room)?;
    let (parameters, rest) = separated::<ParameterItem>(alloc, rest, inner)?;
    let rest = sign(rest, Mark::RightParen)?;
    let (returns, rest) = returns(alloc, rest, room)?;
    let rest = sign(rest, Mark::Begin)?;
    let (begin, rest) = name(alloc, rest, room)?;
    let (fails, rest) = fails(rest, room)?;
    let (authority, rest) = authority(alloc, rest, room)?;
    let (rest, inner) = open(rest, Mark::LeftBrace, room)?;
    let (body, rest) = statements(alloc, rest, inner)?;
    let (returned, rest) = returned(alloc, rest, inner)?;
    let rest = sign(rest, Mark::RightBrace)?;
    let method = Method {
        name: method,
        parameters,
        returns,
        begin,
        fails,
        authority,
        body,
        result: returned,
    };
    Ok((method, rest))
}

/// The rule of one method.
pub struct MethodRule;

impl Rule for MethodRule {
    ghost use Rattle.std.specs.Prelude.{refl};
    ghost use Rattle.fab_tree.specs.Programs.{IsMethod};
    ghost use Rattle.fab_reading.specs.Reading.{any, begins_method};
    ghost use Rattle.fab_parser.specs.Firsts.{method_begins};

    type Tree = Method;

    ghost reads = { IsMethod };

    ghost first = { begins_method };

    ghost may = { any };

    fn starts(tokens: &[Token]) -> bool {
        starts_method(tokens)
    }

    fn read(alloc: Global, tokens: &[Token], room: u8) -> Result<(Method, &[Token]), Refusal> {
        method(alloc, tokens, room)
    }

    ghost begins = { method_begins };

    ghost meets = { λ kind first. refl };
}
