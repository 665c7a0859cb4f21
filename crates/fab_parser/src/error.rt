//! Why tokens are refused.

use thiserror::Error;

/// Why tokens are no program. `token` is the number of a token, counted from 0: the first with
/// which those from the start of the program on begin none, or one that opens a 65th bracket.
#[derive(Clone, Copy, Debug, PartialEq, Eq, Drop, Error)]
pub enum ParseError {
    #[error("out of memory")]
    Memory,
    #[error("no program: wrong at token {token}")]
    Syntax { token: u32 },
    #[error("more than 64 brackets are open at token {token}")]
    DepthLimit { token: u32 },
}
