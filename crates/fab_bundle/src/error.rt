//! Why tokens are refused.

use fab_base::What;
use thiserror::Error;

/// Why tokens are no bundle that is taken. `token` counts the tokens before the place from 0: the
/// first token with which those before it begin no bundle, or one that opens a 65th bracket. `what`
/// is what there is too much of, the first in the order of the limits.
#[derive(Clone, Copy, Debug, PartialEq, Eq, Drop, Error)]
pub enum BundleError {
    #[error("out of memory")]
    Memory,
    #[error("no bundle: wrong at token {token}")]
    Syntax { token: u32 },
    #[error("a bracket too many at token {token}")]
    DepthLimit { token: u32 },
    #[error("too many of {what:?}")]
    Limit { what: What },
}
