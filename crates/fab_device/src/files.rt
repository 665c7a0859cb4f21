//! Journals in files, the trusted edge: what a contract says of their content is said of a copy in
//! memory, and a file that turns out to hold other bytes counts as a failure. Behind its first failure a journal
//! doesn't touch its file.
ghost use Rattle.std.specs.Prelude.{◌≡◌, [], IfOk};

use crate::sure::SureJournal;
use crate::traits::{Journal, JournalError, Journals};
use fab_base::{Failed, NoMemory, Seq};
use std::alloc::Global;
use std::fs::{File, OpenFile};
use std::io::{Read, Seek, SeekFrom, Write};
use std::rt::Files;
use std::{fs, io};

#[cfg(test)]
mod tests;

/// A journal over an open file, with a copy of what was appended.
#[derive(Drop)]
pub struct FileJournal<F: Read + Write + Seek + OpenFile + Drop> {
    file: F,
    copy: SureJournal,
    faults: u64,
}

impl<F: Read + Write + Seek + OpenFile + Drop> FileJournal<F> {
    /// A journal over a file that was just made or emptied.
    fn over(alloc: Global, file: F) -> Result<Self, NoMemory>
        ensures content { IfOk result (λ j. j.copy.content ≡ []) }
        ensures synced { IfOk result (λ j. j.copy.synced ≡ 0) }
        ensures faults { IfOk result (λ j. j.faults ≡ 0) }
    {
        Ok(FileJournal {
            file,
            copy: SureJournal::new(alloc)?,
            faults: 0,
        })
    }
}

impl<F: Read + Write + Seek + OpenFile + Drop> Journal for FileJournal<F> {
    ghost use Rattle.std.specs.Prelude.{false};
    ghost use Rattle.std.proofs.Common.{arith};
    ghost use Rattle.fab_device.specs.Devices.{synced_of};

    ghost content = { λ j. j.copy.content };

    ghost synced = { λ j. synced_of j.copy };

    ghost room = { λ j. j.copy.room };

    ghost faults = { λ j. j.faults };

    ghost sure = { λ _. false };

    ghost within = { λ j. Prim.omega arith };

    ghost unfailed = { λ j sure. Prim.cc };

    fn append(&mut self, bytes: &[u8]) -> Result<(), JournalError> {
        if self.faults == 0 {
            self.copy.reserve(bytes.len() as u64)?;
            if write_from(&mut self.file, self.copy.bytes().len() as u64, bytes).is_ok() {
                return self.copy.append(bytes);
            }
        }
        self.faults = self.faults.saturating_add(1);
        Err(JournalError::Failed)
    }

    fn reserve(&mut self, more: u64) -> Result<(), NoMemory> {
        self.copy.reserve(more)
    }

    fn sync(&mut self) -> Result<(), Failed> {
        if self.faults == 0 && self.file.sync_all().is_ok() {
            return self.copy.sync();
        }
        self.faults = self.faults.saturating_add(1);
        Err(Failed)
    }

    fn read(&mut self) -> Result<Seq<u8>, JournalError> {
        if self.faults == 0 {
            let copy = self.copy.read()?;
            if let Ok(true) = file_holds(&mut self.file, copy.as_slice()) {
                return Ok(copy);
            }
        }
        self.faults = self.faults.saturating_add(1);
        Err(JournalError::Failed)
    }

    fn restart(&mut self, keep: u64) -> Result<(), Failed> {
        if self.faults == 0 && cut_to(&mut self.file, keep).is_ok() {
            return self.copy.restart(keep);
        }
        self.faults = self.faults.saturating_add(1);
        Err(Failed)
    }
}

/// Writes the bytes at a place of the file.
fn write_from<F: Write + Seek>(file: &mut F, at: u64, bytes: &[u8]) -> io::Result<()> {
    file.seek(SeekFrom::Start(at))?;
    file.write_all(bytes)
}

/// Cuts the file and has the system put it on the disk.
fn cut_to<F: OpenFile>(file: &mut F, len: u64) -> io::Result<()> {
    file.set_len(len)?;
    file.sync_all()
}

/// Whether the whole file is these bytes.
fn file_holds<F: Read + Seek>(file: &mut F, bytes: &[u8]) -> io::Result<bool> {
    file.seek(SeekFrom::Start(0))?;
    let mut rest = bytes;
    let mut piece = [0; 512];
    for _ in 0..u64::MAX {
        let count = file.read(&mut piece)?;
        if count == 0 {
            break;
        }
        if !rest.starts_with(&piece[..count]) {
            return Ok(false);
        }
        rest = &rest[count..];
    }
    Ok(rest.is_empty())
}

/// Makes journals over files `journals/NAME.journal`. It doesn't tell which may fail, which it made, nor what it
/// was given to keep, which it drops. Its `keep` takes no memory, so none is lost.
#[derive(Drop)]
pub struct FileJournals<'r, R: Files> {
    rt: &'r R,
    alloc: Global,
    faults: u64,
}

impl<'r, R: Files> FileJournals<'r, R>
where
    R::File: Send,
{
    /// None has failed yet.
    pub fn new(rt: &'r R, alloc: Global) -> Self
        ensures { (⟦<FileJournals<'r, R> as Journals>⟧.seen result).faults ≡ 0 }
    {
        FileJournals {
            rt,
            alloc,
            faults: 0,
        }
    }
}

impl<'r, R: Files> Journals for FileJournals<'r, R>
where
    R::File: Send,
{
    ghost use Rattle.std.specs.Prelude.{None};

    type Item = FileJournal<R::File>;

    ghost seen = { λ s. record { may_fail = None; made = None; kept = None; faults = s.faults; lost = 0 } };

    /// Makes the folder where it isn't there, and makes the file or empties it.
    fn make(&mut self, node: &str) -> Result<FileJournal<R::File>, JournalError> {
        let path = format!(in self.alloc; "journals/{node}.journal")?;
        match emptied(self.rt, path.as_str()) {
            Ok(file) => Ok(FileJournal::over(self.alloc, file)?),
            Err(_) => {
                self.faults = self.faults.saturating_add(1);
                Err(JournalError::Failed)
            }
        }
    }

    fn keep(&mut self, _node: &str, journal: FileJournal<R::File>) -> Result<(), NoMemory> {
        drop(journal);
        Ok(())
    }
}

/// The file, empty and open to be read and written.
fn emptied<R: Files>(rt: &R, path: &str) -> io::Result<R::File> {
    fs::create_dir_all(rt, "journals")?;
    File::options()
        .read(true)
        .write(true)
        .create(true)
        .truncate(true)
        .open(rt, path)
}
