//! A journal over a fake file: what it asks of the file, and what it makes of one that fails.
ghost use Rattle.std.specs.Prelude.{◌≡◌, [], IfOk};

use super::*;
use std::cell::Cell;
use std::fs::Metadata;
use std::io::Cursor;
use std::test::Fail;

/// A file in memory that counts how often it was synced. A write takes at most four bytes, and the
/// one with this number fails.
#[derive(Drop)]
struct FakeFile {
    bytes: Cursor<Vec<u8>>,
    cut: Cell<u64>,
    syncs: Cell<u32>,
    writes: u32,
    fails: u32,
}

impl FakeFile {
    /// Takes away what `set_len` cut off.
    fn apply_cut(&mut self) {
        self.bytes.get_mut().truncate(self.cut.get() as usize);
        self.cut.set(u64::MAX);
    }
}

impl Read for FakeFile {
    fn read(&mut self, buf: &mut [u8]) -> io::Result<usize> {
        self.apply_cut();
        self.bytes.read(buf)
    }
}

impl Write for FakeFile {
    fn write(&mut self, piece: &[u8]) -> io::Result<usize> {
        self.apply_cut();
        self.writes = self.writes.saturating_add(1);
        if self.writes == self.fails {
            return Err(io::Error::from(io::ErrorKind::StorageFull));
        }
        let count = piece.len().min(4);
        self.bytes.write(&piece[..count])
    }

    fn flush(&mut self) -> io::Result<()> {
        Ok(())
    }
}

impl Seek for FakeFile {
    fn seek(&mut self, to: SeekFrom) -> io::Result<u64> {
        self.bytes.seek(to)
    }
}

impl OpenFile for FakeFile {
    fn metadata(&self) -> io::Result<Metadata> {
        Err(io::Error::from(io::ErrorKind::Unsupported))
    }

    fn set_len(&self, size: u64) -> io::Result<()> {
        self.cut.set(size);
        Ok(())
    }

    fn sync_all(&self) -> io::Result<()> {
        self.syncs.set(self.syncs.get().saturating_add(1));
        Ok(())
    }

    fn sync_data(&self) -> io::Result<()> {
        Ok(())
    }
}

/// A journal over an empty file of which this write fails; none with 0.
fn over_fake(alloc: Global, fails: u32) -> Result<FileJournal<FakeFile>, NoMemory>
    ensures content { IfOk result (λ j. j.copy.content ≡ []) }
    ensures synced { IfOk result (λ j. j.copy.synced ≡ 0) }
{
    let file = FakeFile {
        bytes: Cursor::new(Vec::new(alloc)),
        cut: Cell::new(u64::MAX),
        syncs: Cell::new(0),
        writes: 0,
        fails,
    };
    FileJournal::over(alloc, file)
}

/// Each sync and each restart puts the file on the disk, and nothing else does.
#[test]
fn syncs_of_a_file(rt: HostRuntime) -> Result<(), Fail> {
    let mut journal = over_fake(rt.alloc(), 0)?;
    journal.append(&[1, 2, 3])?;
    assert_eq!(rt; journal.file.syncs.get(), 0);
    journal.sync()?;
    assert_eq!(rt; journal.file.syncs.get(), 1);
    journal.append(&[4])?;
    journal.restart(3)?;
    assert_eq!(rt; journal.file.syncs.get(), 2);
    assert_eq!(rt; journal.read()?.as_slice(), [1, 2, 3].as_slice());
    assert_eq!(rt; journal.file.syncs.get(), 2);
    Ok(())
}

/// The first write of the second append takes four bytes, and the next one fails. Behind that no call works,
/// though the file would take more, and none touches it.
#[test]
fn an_append_that_fails_halfway(rt: HostRuntime) -> Result<(), Fail> {
    let mut journal = over_fake(rt.alloc(), 3)?;
    journal.append(&[1, 2])?;
    assert_eq!(rt;
        journal.append(&[3, 4, 5, 6, 7, 8]),
        Err(JournalError::Failed)
    );
    assert_eq!(rt; journal.file.bytes.get_ref().len(), 6);
    assert_eq!(rt; journal.append(&[9]), Err(JournalError::Failed));
    assert!(rt; journal.sync().is_err());
    assert!(rt; matches!(journal.read(), Err(JournalError::Failed)));
    assert_eq!(rt; journal.file.writes, 3);
    assert_eq!(rt; journal.file.syncs.get(), 0);
    let whole = [1, 2, 3, 4, 5, 6];
    assert_eq!(rt; journal.file.bytes.get_ref().as_slice(), whole.as_slice());
    Ok(())
}

/// A file is compared in pieces of 512 bytes, each of them.
#[test]
fn a_change_in_a_later_piece(rt: HostRuntime) -> Result<(), Fail> {
    let mut journal = over_fake(rt.alloc(), 0)?;
    journal.append(&[7; 1100])?;
    assert_eq!(rt; journal.read()?.len(), 1100);
    journal.file.bytes.set_position(1050);
    journal.file.bytes.write(&[8])?;
    assert!(rt; matches!(journal.read(), Err(JournalError::Failed)));
    Ok(())
}
