//! Labels and their policies.
ghost use Rattle.std.specs.Prelude.{◌≡◌, ◌↔◌, IsTrue, MatchResult};
ghost use Rattle.fab_tree.specs.Declarations.{IsAspect, IsPolicy, IsLabel};
ghost use Rattle.fab_reading.specs.Reading.{Read, Stops, Starts, any, begins_label, behind_names};

use fab_base::{Kind, Mark, Token};
use fab_reading::{Item, Refusal, Rule, behind, name, next, open, separated, sign, starts_name};
use fab_tree::{Aspect, LabelText, Name, PolicyText};
use std::alloc::Global;

/// A name in a list with commas.
struct NameItem;

impl Item for NameItem {
    ghost use Rattle.std.specs.Prelude.{refl};
    ghost use Rattle.fab_base.specs.declared.token.Mark.TheVariants.{Comma};
    ghost use Rattle.fab_tree.specs.Lists.{IsName};
    ghost use Rattle.fab_reading.specs.Reading.{any, begins_name, is_comma};
    ghost use Rattle.fab_reading.specs.Firsts.{name_begins};

    type Tree = Name;

    ghost reads = { IsName };

    ghost first = { begins_name };

    ghost may = { any };

    ghost between = { Comma };

    ghost parts = { is_comma };

    fn mark() -> Mark {
        Mark::Comma
    }

    fn starts(tokens: &[Token]) -> bool {
        starts_name(tokens)
    }

    fn read(alloc: Global, tokens: &[Token], room: u8) -> Result<(Name, &[Token]), Refusal> {
        name(alloc, tokens, room)
    }

    ghost begins = { name_begins };

    ghost level = { λ room. refl };

    ghost is_part = { refl };

    ghost follows = { refl };
}

/// Whether a policy is of readers or of writers.
fn aspect(tokens: &[Token], room: u8) -> Result<(Aspect, &[Token]), Refusal>
    ensures { MatchResult result (λ x. Read IsAspect any room tokens.now x.0 x.1.now) (λ e. Stops IsAspect any room tokens.now e) }
{
    match behind(tokens, Mark::Arrow) {
        Some(rest) => Ok((Aspect::Confidentiality, rest)),
        None => {
            let rest = sign(tokens, Mark::BackArrow)?;
            Ok((Aspect::Integrity, rest))
        }
    }
}

/// An owner, an arrow and names.
fn policy(alloc: Global, tokens: &[Token], room: u8) -> Result<(PolicyText, &[Token]), Refusal>
    ensures { MatchResult result (λ x. Read IsPolicy behind_names room tokens.now x.0 x.1.now) (λ e. Stops IsPolicy behind_names room tokens.now e) }
{
    let (owner, rest) = name(alloc, tokens, room)?;
    let (aspect, rest) = aspect(rest, room)?;
    let (others, rest) = separated::<NameItem>(alloc, rest, room)?;
    let policy = PolicyText {
        owner,
        aspect,
        others,
    };
    Ok((policy, rest))
}

/// A policy in a list with semicolons.
struct PolicyItem;

impl Item for PolicyItem {
    ghost use Rattle.std.specs.Prelude.{refl};
    ghost use Rattle.fab_base.specs.declared.token.Mark.TheVariants.{Semicolon};
    ghost use Rattle.fab_tree.specs.Declarations.{IsPolicy};
    ghost use Rattle.fab_reading.specs.Reading.{begins_name, behind_names, is_semicolon};
    ghost use Rattle.fab_parser.specs.Firsts.{policy_begins};

    type Tree = PolicyText;

    ghost reads = { IsPolicy };

    ghost first = { begins_name };

    ghost may = { behind_names };

    ghost between = { Semicolon };

    ghost parts = { is_semicolon };

    fn mark() -> Mark {
        Mark::Semicolon
    }

    fn starts(tokens: &[Token]) -> bool {
        starts_name(tokens)
    }

    fn read(alloc: Global, tokens: &[Token], room: u8) -> Result<(PolicyText, &[Token]), Refusal> {
        policy(alloc, tokens, room)
    }

    ghost begins = { policy_begins };

    ghost level = { λ room. refl };

    ghost is_part = { refl };

    ghost follows = { refl };
}

/// Whether a label comes next.
fn starts_label(tokens: &[Token]) -> bool
    ensures { IsTrue result ↔ Starts begins_label tokens.now }
{
    match next(tokens) {
        None => false,
        Some((token, _)) => matches!(token.kind, Kind::Fixed(Mark::Label)),
    }
}

/// `label`, a name, and policies in braces.
fn label(alloc: Global, tokens: &[Token], room: u8) -> Result<(LabelText, &[Token]), Refusal>
    ensures { MatchResult result (λ x. Read IsLabel any room tokens.now x.0 x.1.now) (λ e. Stops IsLabel any room tokens.now e) }
{
    let rest = sign(tokens, Mark::Label)?;
    let (name, rest) = name(alloc, rest, room)?;
    let rest = sign(rest, Mark::Equal)?;
    let (rest, inner) = open(rest, Mark::LeftBrace, room)?;
    let (policies, rest) = separated::<PolicyItem>(alloc, rest, inner)?;
    let rest = sign(rest, Mark::RightBrace)?;
    let rest = sign(rest, Mark::Semicolon)?;
    Ok((LabelText { name, policies }, rest))
}

/// The rule of one label.
pub struct LabelRule;

impl Rule for LabelRule {
    ghost use Rattle.std.specs.Prelude.{refl};
    ghost use Rattle.fab_tree.specs.Declarations.{IsLabel};
    ghost use Rattle.fab_reading.specs.Reading.{any, begins_label};
    ghost use Rattle.fab_parser.specs.Firsts.{label_begins};

    type Tree = LabelText;

    ghost reads = { IsLabel };

    ghost first = { begins_label };

    ghost may = { any };

    fn starts(tokens: &[Token]) -> bool {
        starts_label(tokens)
    }

    fn read(alloc: Global, tokens: &[Token], room: u8) -> Result<(LabelText, &[Token]), Refusal> {
        label(alloc, tokens, room)
    }

    ghost begins = { label_begins };

    ghost meets = { λ kind first. refl };
}
