//! Classes and their fields.
ghost use Rattle.std.specs.Prelude.{◌≡◌, ◌↔◌, IsTrue, MatchResult};
ghost use Rattle.fab_tree.specs.Declarations.{IsSort, IsField, IsClass};
ghost use Rattle.fab_reading.specs.Reading.{Read, Stops, Starts, any, begins_sort, begins_class};

use fab_base::{Kind, Mark, Token, Width};
use fab_reading::{Refusal, Rule, behind, name, next, open, repeated, sign};
use fab_tree::{Class, Field, Sort};
use std::alloc::Global;

/// A type.
pub fn sort(alloc: Global, tokens: &[Token], room: u8) -> Result<(Sort, &[Token]), Refusal>
    ensures { MatchResult result (λ x. Read IsSort any room tokens.now x.0 x.1.now) (λ e. Stops IsSort any room tokens.now e) }
{
    match behind(tokens, Mark::Int) {
        Some(rest) => Ok((Sort::Number(Width::Int), rest)),
        None => {
            let (class, rest) = name(alloc, tokens, room)?;
            Ok((Sort::Class(class), rest))
        }
    }
}

/// Whether a type comes next.
pub fn starts_sort(tokens: &[Token]) -> bool
    ensures { IsTrue result ↔ Starts begins_sort tokens.now }
{
    match next(tokens) {
        None => false,
        Some((token, _)) => matches!(token.kind, Kind::Name(_) | Kind::Fixed(Mark::Int)),
    }
}

/// A type, a name and a semicolon.
fn field(alloc: Global, tokens: &[Token], room: u8) -> Result<(Field, &[Token]), Refusal>
    ensures { MatchResult result (λ x. Read IsField any room tokens.now x.0 x.1.now) (λ e. Stops IsField any room tokens.now e) }
{
    let (sort, rest) = sort(alloc, tokens, room)?;
    let (name, rest) = name(alloc, rest, room)?;
    let rest = sign(rest, Mark::Semicolon)?;
    Ok((Field { sort, name }, rest))
}

/// The rule of one field.
struct FieldRule;

impl Rule for FieldRule {
    ghost use Rattle.std.specs.Prelude.{refl};
    ghost use Rattle.fab_tree.specs.Declarations.{IsField};
    ghost use Rattle.fab_reading.specs.Reading.{any, begins_sort};
    ghost use Rattle.fab_parser.specs.Firsts.{field_begins};

    type Tree = Field;

    ghost reads = { IsField };

    ghost first = { begins_sort };

    ghost may = { any };

    fn starts(tokens: &[Token]) -> bool {
        starts_sort(tokens)
    }

    fn read(alloc: Global, tokens: &[Token], room: u8) -> Result<(Field, &[Token]), Refusal> {
        field(alloc, tokens, room)
    }

    ghost begins = { field_begins };

    ghost meets = { λ kind first. refl };
}

/// Whether a class comes next.
fn starts_class(tokens: &[Token]) -> bool
    ensures { IsTrue result ↔ Starts begins_class tokens.now }
{
    match next(tokens) {
        None => false,
        Some((token, _)) => matches!(token.kind, Kind::Fixed(Mark::Class)),
    }
}

/// `class`, a name, its two labels, and fields in braces.
fn class(alloc: Global, tokens: &[Token], room: u8) -> Result<(Class, &[Token]), Refusal>
    ensures { MatchResult result (λ x. Read IsClass any room tokens.now x.0 x.1.now) (λ e. Stops IsClass any room tokens.now e) }
{
    let rest = sign(tokens, Mark::Class)?;
    let (class, rest) = name(alloc, rest, room)?;
    let rest = sign(rest, Mark::Label)?;
    let (label, rest) = name(alloc, rest, room)?;
    let rest = sign(rest, Mark::Access)?;
    let (access, rest) = name(alloc, rest, room)?;
    let (rest, inner) = open(rest, Mark::LeftBrace, room)?;
    let (fields, rest) = repeated::<FieldRule>(alloc, rest, inner)?;
    let rest = sign(rest, Mark::RightBrace)?;
    let class = Class {
        name: class,
        label,
        access,
        fields,
    };
    Ok((class, rest))
}

/// The rule of one class.
pub struct ClassRule;

impl Rule for ClassRule {
    ghost use Rattle.std.specs.Prelude.{refl};
    ghost use Rattle.fab_tree.specs.Declarations.{IsClass};
    ghost use Rattle.fab_reading.specs.Reading.{any, begins_class};
    ghost use Rattle.fab_parser.specs.Firsts.{class_begins};

    type Tree = Class;

    ghost reads = { IsClass };

    ghost first = { begins_class };

    ghost may = { any };

    fn starts(tokens: &[Token]) -> bool {
        starts_class(tokens)
    }

    fn read(alloc: Global, tokens: &[Token], room: u8) -> Result<(Class, &[Token]), Refusal> {
        class(alloc, tokens, room)
    }

    ghost begins = { class_begins };

    ghost meets = { λ kind first. refl };
}
