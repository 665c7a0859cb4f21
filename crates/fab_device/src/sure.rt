//! A journal in memory that never fails.
ghost use Rattle.std.specs.Prelude.{◌≡◌, ◌++◌, ◌∷◌, [], IfOk, OnOk, OnErr, IsErrOf};
ghost use Rattle.std.specs.Option.{option_copied};
ghost use Rattle.fab_device.specs.Kept.{last_under, one_more};

use crate::shelf::{last_of, put_under};
use crate::traits::{Journal, JournalError, Journals};
use fab_base::{Failed, NoMemory, Seq, Text};
use std::alloc::Global;
use std::marker::Model;

/// Bytes in memory. Contracts see them, how many are synced, and the room.
#[derive(Debug, Drop)]
pub struct SureJournal {
    bytes: Vec<u8>,
    synced: usize,
}

impl Model for SureJournal {
    ghost use Rattle.std.specs.Prelude.{◌-◌, ◌≤◌, length, vec_len, vec_capacity};
    ghost use Rattle.fab_device.specs.Devices.{Held};

    ghost Value = { Held };

    ghost view = { λ j. record { content = j.bytes.items; synced = j.synced; room = vec_capacity j.bytes - vec_len j.bytes } };

    ghost invariant = { λ j. j.synced ≤ vec_len j.bytes };
}

impl SureJournal {
    /// An empty journal.
    pub fn new(alloc: Global) -> Result<SureJournal, NoMemory>
        ensures content { IfOk result (λ j. j.content ≡ []) }
        ensures synced { IfOk result (λ j. j.synced ≡ 0) }
    {
        Ok(SureJournal {
            bytes: Vec::new(alloc),
            synced: 0,
        })
    }

    /// What it holds.
    pub fn bytes(&self) -> &[u8]
        ensures { result.now ≡ self.now.content }
    {
        self.bytes.as_slice()
    }

    /// How many of its bytes are synced.
    pub fn synced(&self) -> u64
        ensures { result ≡ self.now.synced }
    {
        self.synced as u64
    }
}

impl Journal for SureJournal {
    ghost use Rattle.std.specs.Prelude.{true, refl};
    ghost use Rattle.fab_device.specs.Devices.{synced_of};
    ghost use Rattle.std.proofs.Common.{arith};

    ghost content = { λ j. j.content };

    ghost synced = { synced_of };

    ghost room = { λ j. j.room };

    ghost faults = { λ _. 0 };

    ghost sure = { λ _. true };

    ghost within = { λ j. Prim.omega arith };

    ghost unfailed = { λ j _. refl };

    fn append(&mut self, bytes: &[u8]) -> Result<(), JournalError> {
        self.bytes.extend_from_slice(bytes)?;
        Ok(())
    }

    fn reserve(&mut self, more: u64) -> Result<(), NoMemory> {
        self.bytes.reserve(more as usize)
    }

    fn sync(&mut self) -> Result<(), Failed> {
        self.synced = self.bytes.len();
        Ok(())
    }

    fn read(&mut self) -> Result<Seq<u8>, JournalError> {
        let alloc = *self.bytes.allocator();
        Ok(Seq::from_slice(alloc, self.bytes.as_slice())?)
    }

    fn restart(&mut self, keep: u64) -> Result<(), Failed> {
        self.bytes.truncate(keep as usize);
        self.synced = keep as usize;
        Ok(())
    }
}

/// Makes journals in memory that never fail, and keeps what it is given.
#[derive(Debug, Drop)]
pub struct SureJournals {
    alloc: Global,
    made: Vec<Text>,
    kept: Vec<(Text, SureJournal)>,
    lost: u64,
}

impl Model for SureJournals {
    ghost use Rattle.fab_device.specs.Kept.{SureKeeper};

    ghost Value = { SureKeeper };

    ghost view = { λ s. record { made = s.made.items; kept = s.kept.items; lost = s.lost } };
}

impl SureJournals {
    /// None is made yet.
    pub fn new(alloc: Global) -> Result<SureJournals, NoMemory>
        ensures { IfOk result (λ s. s ≡ record { made = []; kept = []; lost = 0 }) }
    {
        Ok(SureJournals {
            alloc,
            made: Vec::new(alloc),
            kept: Vec::new(alloc),
            lost: 0,
        })
    }

    /// How many it lost for want of memory.
    pub fn lost(&self) -> u64
        ensures { result ≡ self.now.lost }
    {
        self.lost
    }

    /// The last journal that was kept under this name.
    pub fn kept(&self, node: &str) -> Option<&SureJournal>
        ensures { option_copied result ≡ last_under node.now self.now.kept }
    {
        last_of(self.kept.as_slice(), node)
    }
}

impl Journals for SureJournals {
    ghost use Rattle.std.specs.Prelude.{Some, [], map};
    ghost use Rattle.fab_device.specs.Kept.{sure_entry};

    type Item = SureJournal;

    ghost seen = { λ s. record { may_fail = Some []; made = Some s.made; kept = Some (map sure_entry s.kept); faults = 0; lost = s.lost } };

    fn make(&mut self, node: &str) -> Result<SureJournal, JournalError>
        ensures content { IfOk result (λ journal. journal.content ≡ []) }
        ensures synced { IfOk result (λ journal. journal.synced ≡ 0) }
        ensures never { IsErrOf result JournalError.Failed → ⊥ }
        ensures made { OnOk result (self.new.made ≡ self.old.made ++ node.now ∷ []) }
        ensures unmade { OnErr result (self.new.made ≡ self.old.made) }
        ensures kept { self.new.kept ≡ self.old.kept }
        ensures lost { self.new.lost ≡ self.old.lost }
    {
        let journal = SureJournal::new(self.alloc)?;
        let name = Text::make(self.alloc, node)?;
        self.made.push(name)?;
        Ok(journal)
    }

    fn keep(&mut self, node: &str, journal: SureJournal) -> Result<(), NoMemory>
        ensures kept { OnOk result (self.new.kept ≡ self.old.kept ++ (node.now, journal) ∷ []) }
        ensures err { OnErr result (self.new.kept ≡ self.old.kept) }
        ensures lost { OnErr result (self.new.lost ≡ one_more self.old.lost) }
        ensures same { OnOk result (self.new.lost ≡ self.old.lost) }
        ensures made { self.new.made ≡ self.old.made }
    {
        put_under(self.alloc, &mut self.kept, &mut self.lost, node, journal)
    }
}
