//! Laws of the spelling of messages. The functions do nothing: their contracts are the laws.

ghost use Rattle.std.specs.Prelude.{◌≡◌, ◌↔◌, ◌<◌, ◌≤◌, ◌++◌, ℕ, List, [], Some, length};
ghost use Rattle.fab_base.specs.declared.object.Tid.{Tid};
ghost use Rattle.fab_base.specs.declared.message.Items.{Items};
ghost use Rattle.fab_base.specs.declared.message.Message.{Message};
ghost use Rattle.fab_base.specs.declared.message.Message.TheVariants.{Prepare};
ghost use Rattle.fab_base.specs.FieldSpelling.{AreHonest, sent_version};
ghost use Rattle.fab_base.specs.MessageSpelling.{IsMessage, IsReadAs, KeepsCounts, Spells, byte_limit, message_bytes, spelled};
ghost use Rattle.fab_wire.specs.Reading.{read_message};

/// Two messages with one spelling are one.
pub fn one_message_a_spelling()
    ensures { (bytes : List ℕ) (m n : Message) → Spells bytes m → Spells bytes n → m ≡ n }
{}

/// No spelling is a proper front of another.
pub fn no_spelling_begins_another()
    ensures { (bytes more : List ℕ) (m n : Message)
        → Spells bytes m → Spells (bytes ++ more) n → more ≡ [] }
{}

/// A spelling of at most 131,072 bytes is read as its message, and as no other.
pub fn spelling_is_read_as_its_message()
    ensures read { (version : ℕ) (m : Message)
        → IsMessage version m → length (message_bytes version m) ≤ byte_limit → IsReadAs (message_bytes version m) m }
    ensures alone { (version : ℕ) (m n : Message)
        → IsMessage version m → IsReadAs (message_bytes version m) n → n ≡ m }
{}

/// A message that has a spelling can be encoded.
pub fn spelled_messages_can_be_encoded()
    ensures { (version : ℕ) (m : Message) → IsMessage version m → KeepsCounts m }
{}

/// Bytes are read as a message exactly where they are at most 131,072 and its spelling, and its
/// numbers and counts are in range.
pub fn what_is_read_is_spelled()
    ensures { (bytes : List ℕ) (m : Message)
        → (read_message bytes ≡ Some m) ↔ ((length bytes ≤ byte_limit) × IsMessage sent_version m × (bytes ≡ spelled m)) }
{}

/// What an honest worker asks a store to prepare is far within the limit on bytes.
pub fn honest_prepares_are_short()
    ensures { (tid : Tid) (items : Items) → AreHonest items → length (spelled (Prepare tid items)) < 107000 }
{}
