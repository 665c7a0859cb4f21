//! The room of lists.
ghost use Rattle.std.specs.Prelude.{◌≡◌, ◌++◌, ◌∷◌, [], IfOk};

use fab_base::{NoMemory, Seq};

/// The list, without the room that it doesn't use. A list that grows has up to twice the room that it
/// needs, and a tree keeps most of its lists as they are.
pub fn fitted<T>(list: Seq<T>) -> Seq<T>
    ensures { result ≡ list }
{
    let mut items = list.into_vec();
    items.shrink_to_fit();
    Seq::from_vec(items)
}

/// The list with one more item at its end. The first has room for itself alone, since most lists of a tree have one item.
pub fn added<T: Drop>(list: Seq<T>, item: T) -> Result<Seq<T>, NoMemory>
    ensures { IfOk result (λ s. s ≡ list ++ item ∷ []) }
{
    let mut items = list.into_vec();
    if items.is_empty() {
        items.reserve_exact(1)?;
    }
    items.push(item)?;
    Ok(Seq::from_vec(items))
}
