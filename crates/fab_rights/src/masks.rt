//! Sets of nodes as masks: bit n of a `u64` stands for node n.

ghost use Rattle.std.specs.Prelude.{◌≡◌, ◌↔◌, IsTrue, IsBitSet};
ghost use Rattle.fab_rights.specs.Computed.{has_bit};

/// Whether the bit of this number is set. A mask has no bits from 64 on.
pub fn is_in(mask: u64, number: u16) -> bool
    ensures exact { IsTrue result ↔ IsBitSet mask number }
    ensures computed { result ≡ has_bit mask number }
{
    number < 64 && mask >> number & 1 == 1
}
