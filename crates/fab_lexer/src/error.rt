//! Why a text isn't cut into tokens.

ghost use Rattle.std.specs.Prelude.{◌≡◌};
ghost use Rattle.fab_lexer.specs.declared.error.LexError.TheVariants.{Memory};

use std::alloc::AllocError;
use thiserror::Error;

/// Why a text isn't cut into tokens: want of memory, or a byte that fits nowhere.
#[derive(Clone, Copy, Debug, PartialEq, Eq, Error)]
pub enum LexError {
    #[error("out of memory")]
    Memory,
    /// `at` is the place of the first byte that doesn't fit, or the text's length where the text
    /// ends inside of quotation marks.
    #[error("no token: wrong at byte {at}")]
    Bad { at: u32 },
}

impl From<AllocError> for LexError {
    ghost from_gives = { λ _ e. e ≡ Memory };

    fn from(_e: AllocError) -> LexError {
        LexError::Memory
    }
}
