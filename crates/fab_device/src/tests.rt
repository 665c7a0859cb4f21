use super::*;
use std::fs;
use std::test::Fail;

#[test]
fn a_journal_over_a_file(rt: HostRuntime) -> Result<(), Fail> {
    let mut journal = FileJournals::new(&rt, rt.alloc()).make("a_file")?;
    journal.append(&[1, 2, 3])?;
    journal.sync()?;
    journal.append(&[4, 5])?;
    journal.restart(4)?;
    assert_eq!(rt; journal.read()?.as_slice(), [1, 2, 3, 4].as_slice());
    let path = "journals/a_file.journal";
    assert_eq!(rt; fs::read(&rt, path)?.as_slice(), [1, 2, 3, 4].as_slice());
    Ok(())
}

/// Made longer from outside, the file no longer holds what was appended. To make it again empties it.
#[test]
fn a_file_with_other_bytes(rt: HostRuntime) -> Result<(), Fail> {
    let mut journals = FileJournals::new(&rt, rt.alloc());
    let mut journal = journals.make("other_bytes")?;
    journal.append(&[1])?;
    fs::write(&rt, "journals/other_bytes.journal", [1, 2].as_slice())?;
    assert!(rt; matches!(journal.read(), Err(JournalError::Failed)));
    // Behind that no call works, and the file stays as it is.
    assert!(rt; matches!(journal.append(&[3]), Err(JournalError::Failed)));
    assert!(rt; journal.sync().is_err());
    let path = "journals/other_bytes.journal";
    assert_eq!(rt; fs::read(&rt, path)?.as_slice(), [1, 2].as_slice());
    assert!(rt; journals.make("other_bytes")?.read()?.is_empty());
    Ok(())
}
