//! A journal in memory, with a list of the calls that fail.
ghost use Rattle.std.specs.Prelude.{◌≡◌, ◌+◌, ◌≤◌, ◌++◌, ◌∷◌, [], Some, IsTrue, length, take, map, IsOk, IfOk, OnOk, OnErr, IsErr, IsErrOf};
ghost use Rattle.fab_base.specs.Faults.{opening_calls, HasCause};
ghost use Rattle.fab_device.specs.Devices.{AppendAdds, IsFrontFrom, JournalCause, KeepsSure, StaysStopped, CountsCall, synced_of, never_fails};
ghost use Rattle.std.specs.Option.{option_copied};
ghost use Rattle.fab_device.specs.Kept.{CannotFail, mem_entry, all_under, last_under, one_more};

use crate::shelf::{last_of, numbers_under, put_under};
use crate::stopping::StoppingCalls;
use crate::sure::SureJournal;
use crate::traits::{Journal, JournalError, Journals};
use fab_base::{Failed, NoMemory, Seq, Text};
use std::alloc::Global;
use std::marker::Model;

/// Bytes in memory; some calls of `append`, `sync`, `read` and `restart` fail and do nothing, and so do all behind
/// the first of these that came.
#[derive(Debug, Drop)]
pub struct MemJournal {
    journal: SureJournal,
    calls: StoppingCalls,
}

impl Model for MemJournal {
    ghost use Rattle.fab_device.specs.Devices.{HeldWithCalls};

    ghost Value = { HeldWithCalls };

    ghost view = { λ j. record { held = j.journal; calls = j.calls } };
}

impl MemJournal {
    /// An empty journal; the first call with one of these numbers fails, and all behind it. `reserve` isn't counted.
    pub fn with_fails(alloc: Global, fails: Seq<u32>) -> Result<MemJournal, NoMemory>
        ensures content { IfOk result (λ j. j.held.content ≡ []) }
        ensures synced { IfOk result (λ j. j.held.synced ≡ 0) }
        ensures calls { IfOk result (λ j. j.calls ≡ opening_calls fails) }
    {
        Ok(MemJournal {
            journal: SureJournal::new(alloc)?,
            calls: StoppingCalls::new(fails),
        })
    }

    /// How many calls were counted; it stays at 4,294,967,295 once it is there.
    pub fn calls(&self) -> u32
        ensures { result ≡ self.now.calls.made }
    {
        self.calls.made()
    }

    /// What it holds.
    pub fn bytes(&self) -> &[u8]
        ensures { result.now ≡ self.now.held.content }
    {
        self.journal.bytes()
    }
}

impl Journal for MemJournal {
    ghost use Rattle.std.proofs.Common.{arith, rules};

    ghost content = { λ j. j.held.content };

    ghost synced = { λ j. synced_of j.held };

    ghost room = { λ j. j.held.room };

    ghost faults = { λ j. j.calls.faults };

    ghost sure = { λ j. never_fails j.calls };

    ghost within = { λ j. Prim.omega arith };

    ghost unfailed = { λ j sure. Prim.search rules };

    fn append(&mut self, bytes: &[u8]) -> Result<(), JournalError>
        ensures bytes { AppendAdds self.old.held.content self.new.held.content result bytes.now }
        ensures synced { synced_of self.new.held ≡ synced_of self.old.held }
        ensures room { self.old.held.room ≤ self.new.held.room + length bytes.now }
        ensures fits { length bytes.now ≤ self.old.held.room → IsErrOf result JournalError.Memory → ⊥ }
        ensures memory { IsErrOf result JournalError.Memory → self.old.held.room ≤ self.new.held.room }
        ensures cause { JournalCause self.old.calls.faults self.new.calls.faults result }
        ensures stopped { StaysStopped self.old.calls.faults self.old.held.content self.new.held.content result }
        ensures sure { KeepsSure (never_fails self.old.calls) (never_fails self.new.calls) (IsErrOf result JournalError.Failed) }
        ensures counted { CountsCall self.old self.new (IsErrOf result JournalError.Failed) }
    {
        if self.calls.count() {
            return Err(JournalError::Failed);
        }
        self.journal.append(bytes)
    }

    fn reserve(&mut self, more: u64) -> Result<(), NoMemory>
        ensures made { OnOk result (more ≤ self.new.held.room) }
        ensures fits { more ≤ self.old.held.room → IsOk result }
        ensures room { self.old.held.room ≤ self.new.held.room }
        ensures content { self.new.held.content ≡ self.old.held.content }
        ensures synced { synced_of self.new.held ≡ synced_of self.old.held }
        ensures faults { self.new.calls.faults ≡ self.old.calls.faults }
        ensures sure { never_fails self.new.calls ≡ never_fails self.old.calls }

        // It isn't counted.
        ensures calls { self.new.calls ≡ self.old.calls }
    {
        self.journal.reserve(more)
    }

    fn sync(&mut self) -> Result<(), Failed>
        ensures done { OnOk result (synced_of self.new.held ≡ length self.old.held.content) }
        ensures synced { OnErr result (synced_of self.new.held ≡ synced_of self.old.held) }
        ensures content { self.new.held.content ≡ self.old.held.content }
        ensures room { self.old.held.room ≤ self.new.held.room }
        ensures cause { HasCause self.old.calls.faults self.new.calls.faults result }
        ensures success { OnOk result (self.new.calls.faults ≡ self.old.calls.faults) }
        ensures stopped { StaysStopped self.old.calls.faults self.old.held.content self.new.held.content result }
        ensures sure { KeepsSure (never_fails self.old.calls) (never_fails self.new.calls) (IsErr result) }
        ensures counted { CountsCall self.old self.new (IsErr result) }
    {
        if self.calls.count() {
            return Err(Failed);
        }
        self.journal.sync()
    }

    fn read(&mut self) -> Result<Seq<u8>, JournalError>
        ensures bytes { IfOk result (λ bytes. bytes ≡ self.old.held.content) }
        ensures content { self.new.held.content ≡ self.old.held.content }
        ensures synced { synced_of self.new.held ≡ synced_of self.old.held }
        ensures room { self.old.held.room ≤ self.new.held.room }
        ensures cause { JournalCause self.old.calls.faults self.new.calls.faults result }
        ensures stopped { StaysStopped self.old.calls.faults self.old.held.content self.new.held.content result }
        ensures sure { KeepsSure (never_fails self.old.calls) (never_fails self.new.calls) (IsErrOf result JournalError.Failed) }
        ensures counted { CountsCall self.old self.new (IsErrOf result JournalError.Failed) }
    {
        if self.calls.count() {
            return Err(JournalError::Failed);
        }
        self.journal.read()
    }

    fn restart(&mut self, keep: u64) -> Result<(), Failed>
        requires synced { synced_of self.old.held ≤ keep }
        requires length { keep ≤ length self.old.held.content }
        ensures kept { OnOk result (self.new.held.content ≡ take keep self.old.held.content) }
        ensures done { OnOk result (synced_of self.new.held ≡ keep) }
        ensures front { OnErr result (IsFrontFrom keep self.old.held.content self.new.held.content) }
        ensures synced { OnErr result (synced_of self.new.held ≡ synced_of self.old.held) }
        ensures room { self.old.held.room ≤ self.new.held.room }
        ensures cause { HasCause self.old.calls.faults self.new.calls.faults result }
        ensures success { OnOk result (self.new.calls.faults ≡ self.old.calls.faults) }
        ensures stopped { StaysStopped self.old.calls.faults self.old.held.content self.new.held.content result }
        ensures sure { KeepsSure (never_fails self.old.calls) (never_fails self.new.calls) (IsErr result) }
        ensures counted { CountsCall self.old self.new (IsErr result) }
    {
        if self.calls.count() {
            return Err(Failed);
        }
        self.journal.restart(keep)
    }
}

/// Makes journals in memory, of which some calls fail, and keeps what it is given.
#[derive(Debug, Drop)]
pub struct MemJournals {
    alloc: Global,
    fails: Seq<(Text, u32)>,
    made: Vec<Text>,
    kept: Vec<(Text, MemJournal)>,
    lost: u64,
}

impl Model for MemJournals {
    ghost use Rattle.fab_device.specs.Kept.{MemKeeper};

    ghost Value = { MemKeeper };

    ghost view = { λ s. record { fails = s.fails; made = s.made.items; kept = s.kept.items; lost = s.lost } };
}

impl MemJournals {
    /// None is made yet; of each node's journal the first call that is listed with its name fails, and all behind it.
    pub fn with_fails(alloc: Global, fails: Seq<(Text, u32)>) -> Result<MemJournals, NoMemory>
        ensures { IfOk result (λ s. s ≡ record { fails = fails; made = []; kept = []; lost = 0 }) }
    {
        Ok(MemJournals {
            alloc,
            fails,
            made: Vec::new(alloc),
            kept: Vec::new(alloc),
            lost: 0,
        })
    }

    /// How many it lost for want of memory.
    pub fn lost(&self) -> u64
        ensures { result ≡ self.now.lost }
    {
        self.lost
    }

    /// The last journal that was kept under this name.
    pub fn kept(&self, node: &str) -> Option<&MemJournal>
        ensures { option_copied result ≡ last_under node.now self.now.kept }
    {
        last_of(self.kept.as_slice(), node)
    }
}

impl Journals for MemJournals {
    ghost use Rattle.std.specs.Prelude.{Some, map};

    type Item = MemJournal;

    ghost seen = { λ s. record { may_fail = Some (map (λ pair. pair.0) s.fails); made = Some s.made; kept = Some (map mem_entry s.kept); faults = 0; lost = s.lost } };

    fn make(&mut self, node: &str) -> Result<MemJournal, JournalError>
        ensures content { IfOk result (λ journal. journal.held.content ≡ []) }
        ensures synced { IfOk result (λ journal. journal.held.synced ≡ 0) }
        ensures unfailed { IfOk result (λ journal. journal.calls.faults ≡ 0) }
        ensures sure { CannotFail (Some (map (λ pair. pair.0) self.old.fails)) node.now
            → IfOk result (λ journal. IsTrue (never_fails journal.calls)) }
        ensures never { IsErrOf result JournalError.Failed → ⊥ }
        ensures cause { JournalCause 0 0 result }
        ensures made { OnOk result (self.new.made ≡ self.old.made ++ node.now ∷ []) }
        ensures unmade { OnErr result (self.new.made ≡ self.old.made) }
        ensures kept { self.new.kept ≡ self.old.kept }
        ensures lost { self.new.lost ≡ self.old.lost }
        ensures fails { self.new.fails ≡ self.old.fails }

        // Of this node's journal the calls that are listed with its name fail.
        ensures calls { IfOk result (λ journal. journal.calls ≡ opening_calls (all_under node.now self.old.fails)) }
    {
        let fails = numbers_under(self.alloc, self.fails.as_slice(), node)?;
        let journal = MemJournal::with_fails(self.alloc, Seq::from_vec(fails))?;
        let name = Text::make(self.alloc, node)?;
        self.made.push(name)?;
        Ok(journal)
    }

    fn keep(&mut self, node: &str, journal: MemJournal) -> Result<(), NoMemory>
        ensures kept { OnOk result (self.new.kept ≡ self.old.kept ++ (node.now, journal) ∷ []) }
        ensures err { OnErr result (self.new.kept ≡ self.old.kept) }
        ensures lost { OnErr result (self.new.lost ≡ one_more self.old.lost) }
        ensures same { OnOk result (self.new.lost ≡ self.old.lost) }
        ensures made { self.new.made ≡ self.old.made }
        ensures fails { self.new.fails ≡ self.old.fails }
    {
        put_under(self.alloc, &mut self.kept, &mut self.lost, node, journal)
    }
}
