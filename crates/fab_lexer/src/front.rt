//! What stands at the front of a text.

use fab_base::Piece;

/// What stands at the front: a piece, or none, and then so many bytes fit before the first that
/// doesn't.
#[derive(Debug, Drop)]
pub(crate) enum Front {
    Stands(Piece),
    Unfit(usize),
}
