ghost use Rattle.std.specs.Prelude.{◌≡◌, ◌+◌, ◌≤◌, ℕ, Bool, IsTrue, List, [], length, take, IsOk, IfOk, OnOk, OnErr, IsErr, IsErrOf};
ghost use Rattle.fab_base.specs.Faults.{HasCause};
ghost use Rattle.fab_device.specs.Devices.{AppendAdds, IsFrontFrom, JournalCause, KeepsSure, StaysStopped};
ghost use Rattle.fab_device.specs.Kept.{CannotFail, Makers, one_more, with_entry, with_name};
ghost use Rattle.fab_device.specs.declared.traits.JournalError.TheVariants.{Memory};

use fab_base::{Failed, NoMemory, Seq};
use std::alloc::{AllocError, AllocFailed};

/// Why a call of a journal did nothing or not all: the journal failed, or memory ran out.
#[derive(Clone, Copy, Debug, PartialEq, Eq)]
pub enum JournalError {
    Failed,
    Memory,
}

impl From<AllocError> for JournalError {
    ghost from_gives = { λ _ e. e ≡ Memory };

    fn from(_: AllocError) -> Self {
        JournalError::Memory
    }
}

impl<T: Drop> From<AllocFailed<T>> for JournalError {
    ghost from_gives = { λ _ e. e ≡ Memory };

    fn from(_: AllocFailed<T>) -> Self {
        JournalError::Memory
    }
}

/// Bytes that are appended. A crash leaves a front of them that has all synced ones. It is fail-stop: behind its
/// first failure no call works, and what it holds stays, since of a disk that failed once nothing may be concluded
/// from a later call that works.
pub trait Journal {
    /// All that was appended and not cut off.
    ghost content: { Self → List ℕ };

    /// How many of its bytes, from the front, are synced.
    ghost synced: { Self → ℕ };

    /// An append of at most so many bytes doesn't want memory.
    ghost room: { Self → ℕ };

    /// How often it has failed. The count stays at its last value, 2^64 - 1.
    ghost faults: { Self → ℕ };

    /// Whether it never fails.
    ghost sure: { Self → Bool };

    /// Adds the bytes at the end; after a failure, perhaps some front of them.
    fn append(&mut self, bytes: &[u8]) -> Result<(), JournalError>
        ensures bytes { AppendAdds (content self.old) (content self.new) result bytes.now }
        ensures synced { synced self.new ≡ synced self.old }
        ensures room { room self.old ≤ room self.new + length bytes.now }
        ensures fits { length bytes.now ≤ room self.old → IsErrOf result JournalError.Memory → ⊥ }
        ensures memory { IsErrOf result JournalError.Memory → room self.old ≤ room self.new }
        ensures cause { JournalCause (faults self.old) (faults self.new) result }
        ensures stopped { StaysStopped (faults self.old) (content self.old) (content self.new) result }
        ensures sure { KeepsSure (sure self.old) (sure self.new) (IsErrOf result JournalError.Failed) };

    /// Makes room, and changes nothing else.
    fn reserve(&mut self, more: u64) -> Result<(), NoMemory>
        ensures made { OnOk result (more ≤ room self.new) }
        ensures fits { more ≤ room self.old → IsOk result }
        ensures room { room self.old ≤ room self.new }
        ensures content { content self.new ≡ content self.old }
        ensures synced { synced self.new ≡ synced self.old }
        ensures faults { faults self.new ≡ faults self.old }
        ensures sure { sure self.new ≡ sure self.old };

    /// After it all bytes are synced.
    fn sync(&mut self) -> Result<(), Failed>
        ensures done { OnOk result (synced self.new ≡ length (content self.old)) }
        ensures synced { OnErr result (synced self.new ≡ synced self.old) }
        ensures content { content self.new ≡ content self.old }
        ensures room { room self.old ≤ room self.new }
        ensures cause { HasCause (faults self.old) (faults self.new) result }
        ensures success { OnOk result (faults self.new ≡ faults self.old) }
        ensures stopped { StaysStopped (faults self.old) (content self.old) (content self.new) result }
        ensures sure { KeepsSure (sure self.old) (sure self.new) (IsErr result) };

    /// The whole content.
    fn read(&mut self) -> Result<Seq<u8>, JournalError>
        ensures bytes { IfOk result (λ bytes. bytes ≡ content self.old) }
        ensures content { content self.new ≡ content self.old }
        ensures synced { synced self.new ≡ synced self.old }
        ensures room { room self.old ≤ room self.new }
        ensures cause { JournalCause (faults self.old) (faults self.new) result }
        ensures stopped { StaysStopped (faults self.old) (content self.old) (content self.new) result }
        ensures sure { KeepsSure (sure self.old) (sure self.new) (IsErrOf result JournalError.Failed) };

    /// Cuts off all but the first bytes, which are then synced. After a failure there may be more.
    fn restart(&mut self, keep: u64) -> Result<(), Failed>
        requires synced { synced self.old ≤ keep }
        requires length { keep ≤ length (content self.old) }
        ensures kept { OnOk result (content self.new ≡ take keep (content self.old)) }
        ensures done { OnOk result (synced self.new ≡ keep) }
        ensures front { OnErr result (IsFrontFrom keep (content self.old) (content self.new)) }
        ensures synced { OnErr result (synced self.new ≡ synced self.old) }
        ensures room { room self.old ≤ room self.new }
        ensures cause { HasCause (faults self.old) (faults self.new) result }
        ensures success { OnOk result (faults self.new ≡ faults self.old) }
        ensures stopped { StaysStopped (faults self.old) (content self.old) (content self.new) result }
        ensures sure { KeepsSure (sure self.old) (sure self.new) (IsErr result) };

    /// No more bytes are synced than there are.
    ghost within: { (journal : Self) → synced journal ≤ length (content journal) };

    /// One that never fails hasn't failed.
    ghost unfailed: { (journal : Self) → IsTrue (sure journal) → faults journal ≡ 0 };
}

/// Who makes the nodes' journals, and takes them back.
pub trait Journals {
    type Item: Journal + Send + Drop;

    /// What contracts see of it.
    ghost seen: { Self → Makers };

    /// An empty journal for a node.
    fn make(&mut self, node: &str) -> Result<Self::Item, JournalError>
        ensures content { IfOk result (λ journal. Self.Item.content journal ≡ []) }
        ensures synced { IfOk result (λ journal. Self.Item.synced journal ≡ 0) }
        ensures unfailed { IfOk result (λ journal. Self.Item.faults journal ≡ 0) }
        ensures sure { CannotFail (seen self.old).may_fail node.now
            → IfOk result (λ journal. IsTrue (Self.Item.sure journal)) }
        ensures never { CannotFail (seen self.old).may_fail node.now → IsErrOf result JournalError.Failed → ⊥ }
        ensures cause { JournalCause (seen self.old).faults (seen self.new).faults result }
        ensures told { (seen self.new).may_fail ≡ (seen self.old).may_fail }
        ensures made { OnOk result ((seen self.new).made ≡ with_name (seen self.old).made node.now) }
        ensures unmade { OnErr result ((seen self.new).made ≡ (seen self.old).made) }
        ensures kept { (seen self.new).kept ≡ (seen self.old).kept }
        ensures lost { (seen self.new).lost ≡ (seen self.old).lost };

    /// Takes a node's journal back. One that it wants memory to keep is lost, and counted.
    fn keep(&mut self, node: &str, journal: Self::Item) -> Result<(), NoMemory>
        ensures kept { OnOk result ((seen self.new).kept ≡ with_entry (seen self.old).kept
            (record { node = node.now; content = Self.Item.content journal; synced = Self.Item.synced journal; faults = Self.Item.faults journal })) }
        ensures err { OnErr result ((seen self.new).kept ≡ (seen self.old).kept) }
        ensures lost { OnErr result ((seen self.new).lost ≡ one_more (seen self.old).lost) }
        ensures same { OnOk result ((seen self.new).lost ≡ (seen self.old).lost) }
        ensures faults { (seen self.new).faults ≡ (seen self.old).faults }
        ensures told { (seen self.new).may_fail ≡ (seen self.old).may_fail }
        ensures made { (seen self.new).made ≡ (seen self.old).made };
}
