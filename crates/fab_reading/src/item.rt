//! Lists of items with a mark between them.
ghost use Rattle.std.specs.Prelude.{◌≡◌, ◌↔◌, IsTrue, MatchResult};
ghost use Rattle.fab_tree.specs.Lists.{Separated};
ghost use Rattle.fab_reading.specs.Reading.{Read, Stops, behind_items};

use crate::reading::behind;
use crate::refusal::Refusal;
use fab_base::{Mark, Seq, Token};
use std::alloc::Global;

/// A rule of the grammar whose trees stand in lists with a mark between them.
pub trait Item {
    ghost use Rattle.std.specs.Prelude.{List, Bool, Some, IsTrue, ℕ, ◌≡◌, ◌↔◌, MatchResult};
    ghost use Rattle.fab_tree.specs.Depth.{room_by};
    ghost use Rattle.fab_base.specs.declared.token.Mark.{Mark as AnyMark};
    ghost use Rattle.fab_base.specs.declared.token.Token.{Token};
    ghost use Rattle.fab_base.specs.declared.token.Kind.{Kind};
    ghost use Rattle.fab_base.specs.declared.token.Kind.TheVariants.{Fixed};
    ghost use Rattle.fab_reading.specs.Reading.{Read, Stops, Starts};

    /// What is read.
    type Tree: Drop;

    /// Which tokens stand for a tree.
    ghost reads: { List Token → Self.Tree → List Token → Type 0 };

    /// What its first token is.
    ghost first: { Kind → Bool };

    /// What may follow it.
    ghost may: { Kind → Bool };

    /// What stands between two of them.
    ghost between: { AnyMark };

    /// Whether a token is that mark.
    ghost parts: { Kind → Bool };

    fn mark() -> Mark
        ensures { result ≡ between };

    fn starts(tokens: &[Token]) -> bool
        ensures { IsTrue result ↔ Starts first tokens.now };

    fn read(alloc: Global, tokens: &[Token], room: u8) -> Result<(Self::Tree, &[Token]), Refusal>
        ensures { MatchResult result (λ x. Read reads may room tokens.now x.0 x.1.now) (λ e. Stops reads may room tokens.now e) };

    ghost begins: { (a : List Token) (t : Self.Tree) (b : List Token) → reads a t b → Starts first a };

    // the mark is no bracket, and may follow an item
    ghost level: { (room : ℕ) → room_by (Fixed between) room ≡ Some room };

    ghost is_part: { IsTrue (parts (Fixed between)) };

    ghost follows: { IsTrue (may (Fixed between)) };
}

/// Any number of items with the mark between them.
pub fn separated<R: Item>(
    alloc: Global,
    tokens: &[Token],
    room: u8,
) -> Result<(Seq<R::Tree>, &[Token]), Refusal>
    ensures { MatchResult result (λ x. Read (Separated R.between R.reads) (behind_items R.first R.parts R.may) room tokens.now x.0 x.1.now) (λ e. Stops (Separated R.between R.reads) (behind_items R.first R.parts R.may) room tokens.now e) }
{
    if !R::starts(tokens) {
        return Ok((Seq::new(alloc), tokens));
    }
    // Most lists have one item, and there are as many as calls in a text.
    let (item, after) = R::read(alloc, tokens, room)?;
    let mut found = Seq::of_one(alloc, item)?;
    let mut rest = after;
    'list: while let Some(after) = behind(rest, R::mark()) {
        let (item, after) = R::read(alloc, after, room)?;
        found.push(item)?;
        rest = after;
    }
    Ok((found, rest))
}
