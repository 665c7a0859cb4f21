//! Laws of the tokens of a text.
ghost use Rattle.std.specs.Prelude.{◌≡◌, ℕ, List};
ghost use Rattle.fab_base.specs.Tokens.{Lexes};
ghost use Rattle.fab_base.specs.declared.token.Token.{Token};
ghost use Rattle.fab_lexer.specs.Cuts.{IsUncut};
ghost use Rattle.fab_lexer.specs.Signs.{AreBegunWith, AreLongestTaken};

/// Of the signs with which bytes begin, the longest is taken.
pub fn longest_signs_are_taken()
    ensures longest { AreLongestTaken }
    ensures begun { AreBegunWith }
{}

/// A text has one list of tokens at most.
pub fn tokens_are_one_list()
    ensures { (at : ℕ) (bytes : List ℕ) (ts us : List Token) → Lexes at bytes ts → Lexes at bytes us → ts ≡ us }
{}

/// A text without tokens is refused at one place alone.
pub fn refusals_have_one_place()
    ensures { (text : List ℕ) (a b : ℕ) → IsUncut text a → IsUncut text b → a ≡ b }
{}
