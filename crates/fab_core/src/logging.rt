//! What the log says of an event of a node by itself.

ghost use Rattle.std.specs.Prelude.{◌≡◌, true, false};
ghost use Rattle.fab_net.specs.Events.{uncut};

use fab_base::Seq;
use fab_net::{Inner, Logged, Note, uncut};

/// What the log says of it where it was done whole.
pub(crate) fn whole_in(inner: Inner, bytes: Seq<u8>, notes: Seq<Note>) -> Logged
    ensures { result ≡ record { event = uncut inner; bytes = bytes; notes = notes; whole = true; marked = false } }
{
    Logged {
        event: uncut(inner),
        bytes,
        notes,
        whole: true,
        marked: false,
    }
}
