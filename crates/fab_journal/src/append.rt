//! Appending bytes that are to survive a crash.

ghost use Rattle.std.specs.Prelude.{◌≡◌, ◌+◌, ◌≤◌, ◌++◌, length, OnOk, OnErr, IsErrOf};
ghost use Rattle.fab_device.specs.Devices.{AppendAdds, JournalCause, KeepsSure};

use fab_device::{Journal, JournalError};

/// Appends the bytes and syncs. After a failure a front of them may be there, perhaps all of them,
/// and none of them counts as synced.
pub fn append_synced<J: Journal>(journal: &mut J, bytes: &[u8]) -> Result<(), JournalError>
    ensures bytes { AppendAdds (J.content journal.old) (J.content journal.new) result bytes.now }
    ensures synced { OnOk result (J.synced journal.new ≡ length (J.content journal.new)) }
    ensures unsynced { OnErr result (J.synced journal.new ≡ J.synced journal.old) }
    ensures fits { length bytes.now ≤ J.room journal.old → IsErrOf result JournalError.Memory → ⊥ }
    ensures memory { IsErrOf result JournalError.Memory → J.room journal.old ≤ J.room journal.new }
    ensures room { J.room journal.old ≤ J.room journal.new + length bytes.now }
    ensures cause { JournalCause (J.faults journal.old) (J.faults journal.new) result }
    ensures sure { KeepsSure (J.sure journal.old) (J.sure journal.new) (IsErrOf result JournalError.Failed) }
{
    journal.append(bytes)?;
    match journal.sync() {
        Ok(()) => Ok(()),
        Err(_) => Err(JournalError::Failed),
    }
}
