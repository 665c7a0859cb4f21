//! A writer and its readers, by example.
use crate::{SnapReader, SnapWriter, WriteSet, last_read, snap_writer};
use fab_base::{NoMemory, Object, Oid, Seq, Value};
use fab_versions::Table;
use std::alloc::{AllocError, Global};
use std::sync::Wait;
use std::test::Fail;
use std::thread;

fn account(number: u32) -> Oid {
    Oid {
        store: 1,
        class: 0,
        worker: 65535,
        boot: 0,
        number,
        site: 65535,
        index: 0,
    }
}

fn holding(alloc: Global, amount: i32) -> Result<Object, NoMemory> {
    Ok(Object {
        class: 0,
        fields: Seq::from_slice(alloc, [Value::Int(amount)].as_slice())?,
    })
}

/// Account 0 has 1000, and account 1 nothing.
fn start(alloc: Global) -> Result<Table, NoMemory> {
    let mut rows = Table::new(alloc);
    rows.put(account(0), 1, holding(alloc, 1000)?)?;
    rows.put(account(1), 1, holding(alloc, 0)?)?;
    Ok(rows)
}

/// What these accounts have behind a commit.
fn commit(alloc: Global, amounts: &[(u32, i32)]) -> Result<WriteSet, NoMemory> {
    let mut leaves = Seq::new(alloc);
    for (number, amount) in amounts {
        leaves.push((account(*number), 2, holding(alloc, *amount)?))?;
    }
    Ok(WriteSet { leaves })
}

fn add<R: Wait>(
    rt: &R,
    alloc: Global,
    writer: &mut SnapWriter,
    amounts: &[(u32, i32)],
) -> Result<(), NoMemory> {
    if writer.is_broken() {
        return Err(AllocError);
    }
    let commit = commit(alloc, amounts)?;
    writer.add(rt, &commit)
}

/// The amount that an account holds, -1 where it isn't there.
fn amount_of(found: &Option<Object>) -> i32 {
    match found {
        Some(object) => match object.fields.as_slice().first() {
            Some(Value::Int(amount)) => *amount,
            _ => -2,
        },
        None => -1,
    }
}

fn read(reader: &mut SnapReader, number: u32) -> Result<(u32, i32), NoMemory> {
    let (count, found) = reader.read(account(number))?;
    Ok((count, amount_of(&found)))
}

fn read_last(writer: &mut SnapWriter, number: u32) -> Result<(u32, i32), NoMemory> {
    let (count, found) = last_read(writer, account(number))?;
    Ok((count, amount_of(&found)))
}

fn reads_between_adds<R: Wait>(
    rt: &R,
    alloc: Global,
    writer: &mut SnapWriter,
) -> Result<Vec<(u32, i32)>, AllocError> {
    let mut seen = Vec::new(alloc);
    let mut reader = writer.reader()?;
    seen.push(read(&mut reader, 0)?)?;
    add(rt, alloc, writer, [(1, 5), (0, 995)].as_slice())?;
    seen.push(read(&mut reader, 0)?)?;
    seen.push(read(&mut reader, 1)?)?;
    seen.push(read(&mut reader, 2)?)?;
    add(rt, alloc, writer, [(2, 0)].as_slice())?;
    add(rt, alloc, writer, [(2, 20), (0, 975)].as_slice())?;
    seen.push(read(&mut reader, 2)?)?;
    seen.push(read(&mut reader, 1)?)?;
    seen.push(read_last(writer, 0)?)?;
    Ok(seen)
}

#[test]
fn reads_follow_adds(rt: HostRuntime) -> Result<(), Fail> {
    let start = start(rt.alloc())?;
    let mut writer = snap_writer(&rt, rt.alloc(), start, 2)?;
    let seen = reads_between_adds(&rt, rt.alloc(), &mut writer);
    let count = writer.count();
    let listed = writer.commits().len();
    let ours = writer.object(account(0)).is_some();
    let theirs = writer.object(account(3)).is_some();
    writer.close(&rt);
    let wanted = [
        (0, 1000),
        (1, 995),
        (1, 5),
        (1, -1),
        (3, 20),
        (3, 5),
        (3, 975),
    ];
    assert_eq!(rt; seen?.as_slice(), wanted.as_slice());
    assert_eq!(rt; (count, listed), (3, 3));
    assert!(rt; ours && !theirs);
    Ok(())
}

/// Pays 1 from account 0 to account 1, so many times.
fn pays<R: Wait>(rt: &R, alloc: Global, writer: &mut SnapWriter, times: i32) -> bool {
    let mut fine = true;
    for paid in 0..times {
        let (ours, theirs) = (999i32.wrapping_sub(paid), paid.wrapping_add(1));
        fine = fine && add(rt, alloc, writer, [(0, ours), (1, theirs)].as_slice()).is_ok();
    }
    fine
}

/// Counts the reads that didn't agree with their number of commits, or whose number fell.
fn wrong_reads(reader: &mut SnapReader, times: u32) -> u32 {
    let (mut last, mut wrong) = (0, 0u32);
    for turn in 0..times {
        let number = turn % 2;
        match read(reader, number) {
            Ok((count, amount)) => {
                let wanted = if number == 0 {
                    1000u32.wrapping_sub(count)
                } else {
                    count
                };
                let agrees = i64::from(amount) == i64::from(wanted) && count >= last;
                wrong = wrong.wrapping_add(!agrees as u32);
                last = count;
            }
            Err(_) => wrong = wrong.wrapping_add(1),
        }
    }
    wrong
}

#[test]
fn a_thread_reads_beside_the_writer(rt: HostRuntime) -> Result<(), Fail> {
    let alloc = rt.alloc();
    let start = start(alloc)?;
    let mut writer = snap_writer(&rt, alloc, start, 1)?;
    let beside = match writer.reader() {
        Ok(mut reader) => Some(thread::join(
            &rt,
            || pays(&rt, alloc, &mut writer, 1000),
            || wrong_reads(&mut reader, 2000),
        )),
        Err(_) => None,
    };
    let last = read_last(&mut writer, 1);
    writer.close(&rt);
    assert_eq!(rt; beside, Some((true, 0)));
    assert_eq!(rt; last?, (1000, 1000));
    Ok(())
}

/// Pays 1 twice and makes an account of it, so that the rows grow, up to the first commit that finds no memory,
/// and counts what was added.
fn adds<R: Wait>(rt: &R, alloc: Global, writer: &mut SnapWriter) -> (u32, bool) {
    let mut added = 0u32;
    for paid in 1..3i32 {
        if writer.is_broken() {
            return (added, true);
        }
        let Ok(commit) = commit(
            alloc,
            [(0, 1000i32.wrapping_sub(paid)), (1, paid), (2, paid)].as_slice(),
        ) else {
            return (added, false);
        };
        match writer.add(rt, &commit) {
            Ok(()) => added = added.wrapping_add(1),
            Err(_) => return (added, true),
        }
    }
    (added, false)
}

/// A refused add leaves list, count and what is read, and breaks the writer. By `rt try --test --fail-alloc N` the
/// Nth allocation is refused (which are those of the adds: docs/PROVING.md, "Wrong bodies"); without, none is.
#[test]
fn refused_adds_leave_all(rt: HostRuntime) -> Result<(), Fail> {
    let alloc = rt.alloc();
    let start = start(alloc)?;
    let mut writer = snap_writer(&rt, alloc, start, 2)?;
    let made = writer.reader();
    let Ok(mut reader) = made else {
        writer.close(&rt);
        return Ok(());
    };
    let (added, refused) = adds(&rt, alloc, &mut writer);
    let seen = read(&mut reader, 1);
    let ours = read_last(&mut writer, 0);
    let (count, listed, broken) = (writer.count(), writer.commits().len(), writer.is_broken());
    writer.close(&rt);
    let paid = i32::try_from(added).unwrap_or(-1);
    assert_eq!(rt; (count, listed), (added, added as usize));
    assert_eq!(rt; broken, refused);
    assert!(rt; seen.is_err() || seen == Ok((added, paid)));
    assert!(rt; ours.is_err() || ours == Ok((added, 1000i32.wrapping_sub(paid))));
    Ok(())
}
