//! A whole program.
ghost use Rattle.std.specs.Prelude.{◌≡◌, ◌≤◌, ◌<◌, ◌^◌, ℕ, length, drop, MatchResult, IfOk, IfErr};
ghost use Rattle.fab_tree.specs.Programs.{IsProgram};
ghost use Rattle.fab_tree.specs.Depth.{KeepsDepth};
ghost use Rattle.fab_tree.specs.declared.program.Program.{Program as ProgramTree};
ghost use Rattle.fab_reading.specs.Reading.{Read, Stops};
ghost use Rattle.fab_parser.specs.Pieces.{after_program};
ghost use Rattle.fab_parser.specs.Texts.{IsPart, Ends, GoesNoFurther, NoneYet, RefusedAt, IsLimit, TooDeep, between};

use crate::classes::ClassRule;
use crate::delegations::DelegationRule;
use crate::error::ParseError;
use crate::labels::LabelRule;
use crate::methods::MethodRule;
use crate::nodes::NodeRule;
use fab_base::Token;
use fab_reading::{Refusal, repeated};
use fab_tree::Program;
use std::alloc::Global;

/// How many brackets may be open at once.
const DEPTH: u8 = 64;

/// The five lists, one after the other.
fn declarations(alloc: Global, tokens: &[Token], room: u8) -> Result<(Program, &[Token]), Refusal>
    ensures read { MatchResult result (λ x. Read IsProgram after_program room tokens.now x.0 x.1.now) (λ e. Stops IsProgram after_program room tokens.now e) }
    // No token is refused where those before it are a whole program.
    ensures none_yet { IfErr result (λ e. NoneYet tokens.now e) }
{
    let (nodes, rest) = repeated::<NodeRule>(alloc, tokens, room)?;
    let (delegations, rest) = repeated::<DelegationRule>(alloc, rest, room)?;
    let (labels, rest) = repeated::<LabelRule>(alloc, rest, room)?;
    let (classes, rest) = repeated::<ClassRule>(alloc, rest, room)?;
    let (methods, rest) = repeated::<MethodRule>(alloc, rest, room)?;
    let program = Program {
        nodes,
        delegations,
        labels,
        classes,
        methods,
    };
    Ok((program, rest))
}

/// Nodes, delegations, labels, classes and methods. Nothing that begins one of these may follow.
pub fn read_program(
    alloc: Global,
    tokens: &[Token],
    room: u8,
) -> Result<(Program, &[Token]), Refusal>
    ensures { MatchResult result (λ x. Read IsProgram after_program room tokens.now x.0 x.1.now) (λ e. Stops IsProgram after_program room tokens.now e) }
{
    declarations(alloc, tokens, room)
}

/// The tokens from one on.
fn behind(tokens: &[Token], from_token: u32) -> &[Token]
    requires { from_token ≤ length tokens.now }
    ensures { result.now ≡ drop from_token tokens.now }
{
    &tokens[from_token as usize..]
}

/// The program whose tokens begin with the one of this number, and the number of the first token
/// behind it. What can't belong to the program any more is left to the caller, whatever it is: of a
/// label with a node behind it the label alone is answered, and the node isn't refused.
pub fn program(
    alloc: Global,
    tokens: &[Token],
    from_token: u32,
) -> Result<(Program, u32), ParseError>
    requires few { length tokens.now < 2 ^ 32 }
    requires within { from_token ≤ length tokens.now }
    // What is read stands there.
    ensures found { IfOk result (λ x. IsPart tokens.now from_token x.0 x.1) }
    // It is read as far as it goes: with the token behind it, the tokens begin no program.
    ensures farthest { IfOk result (λ x. GoesNoFurther (between tokens.now from_token x.1) (drop x.1 tokens.now)) }
    // What stands there, with no further part of a program behind it, is read as that one, unless memory or brackets run out.
    ensures only { (p : ProgramTree) (next : ℕ) → IsPart tokens.now from_token p next → Ends tokens.now next → MatchResult result (λ x. (x.0 ≡ p) × (x.1 ≡ next)) IsLimit }
    // A token is refused exactly where those before it begin a program and are none, and with it they begin none.
    ensures refused { IfErr result (λ e. RefusedAt tokens.now from_token e) }
    // No more than 64 brackets are open at once, and more where the limit is refused.
    ensures depth { IfOk result (λ x. KeepsDepth (between tokens.now from_token x.1)) }
    ensures deep { IfErr result (λ e. TooDeep tokens.now from_token e) }
{
    match declarations(alloc, behind(tokens, from_token), DEPTH) {
        Ok((found, rest)) => Ok((found, (tokens.len() - rest.len()) as u32)),
        Err(Refusal::Memory) => Err(ParseError::Memory),
        Err(Refusal::Syntax { left }) => Err(ParseError::Syntax {
            token: (tokens.len() - left) as u32,
        }),
        Err(Refusal::Deep { left }) => Err(ParseError::DepthLimit {
            token: (tokens.len() - left) as u32,
        }),
    }
}
