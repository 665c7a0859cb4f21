//! Lists of what one rule of the grammar reads.
ghost use Rattle.std.specs.Prelude.{◌≡◌, ◌↔◌, IsTrue, MatchResult};
ghost use Rattle.fab_tree.specs.Lists.{Repeated};
ghost use Rattle.fab_reading.specs.Reading.{Read, Stops, behind_list};

use crate::refusal::Refusal;
use fab_base::{Seq, Token};
use std::alloc::Global;

/// A rule of the grammar that the first token tells apart from what may stand in its place.
pub trait Rule {
    ghost use Rattle.std.specs.Prelude.{List, Bool, IsTrue, ◌↔◌, MatchResult};
    ghost use Rattle.fab_base.specs.declared.token.Token.{Token};
    ghost use Rattle.fab_base.specs.declared.token.Kind.{Kind};
    ghost use Rattle.fab_reading.specs.Reading.{Read, Stops, Starts, Follows};

    /// What is read.
    type Tree: Drop;

    /// Which tokens stand for a tree.
    ghost reads: { List Token → Self.Tree → List Token → Type 0 };

    /// What its first token is.
    ghost first: { Kind → Bool };

    /// What may follow it.
    ghost may: { Kind → Bool };

    fn starts(tokens: &[Token]) -> bool
        ensures { IsTrue result ↔ Starts first tokens.now };

    fn read(alloc: Global, tokens: &[Token], room: u8) -> Result<(Self::Tree, &[Token]), Refusal>
        ensures { MatchResult result (λ x. Read reads may room tokens.now x.0 x.1.now) (λ e. Stops reads may room tokens.now e) };

    ghost begins: { (a : List Token) (t : Self.Tree) (b : List Token) → reads a t b → Starts first a };

    // one may follow another
    ghost meets: { (k : Kind) → IsTrue (first k) → IsTrue (may k) };
}

/// As many as come.
pub fn repeated<R: Rule>(
    alloc: Global,
    tokens: &[Token],
    room: u8,
) -> Result<(Seq<R::Tree>, &[Token]), Refusal>
    ensures { MatchResult result (λ x. Read (Repeated R.reads) (behind_list R.first R.may) room tokens.now x.0 x.1.now) (λ e. Stops (Repeated R.reads) (behind_list R.first R.may) room tokens.now e) }
{
    let mut found = Seq::new(alloc);
    let mut rest = tokens;
    'list: while R::starts(rest) {
        let (item, after) = R::read(alloc, rest, room)?;
        found.push(item)?;
        rest = after;
    }
    Ok((found, rest))
}
