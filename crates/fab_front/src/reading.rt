//! All of a source.
ghost use Rattle.std.specs.Prelude.{◌≡◌, ◌⊎◌, ◌≤◌, ◌<◌, ◌-◌, IfOk, OnOk, OnErr, IsErrOf, length, take};
ghost use Rattle.std.specs.Io.KnownBytes.{Consumes, IsAtEnd, Keeps};
ghost use Rattle.fab_base.specs.Faults.{Rose, HasCause};
ghost use Rattle.fab_front.specs.declared.reading.ReadError.TheVariants.{Memory, Fault};
ghost use Rattle.fab_front.specs.Reading.{TakesAtMost, ReadsText};

use fab_base::{Failed, Source};
use std::alloc::{AllocError, AllocFailed, Global};

/// How many bytes are asked for at once.
const PIECE: usize = 65_536;

/// One byte more than a text may have.
const LIMIT: usize = 4_194_305;

/// Why a source isn't read: memory ran out, or it failed.
#[derive(Clone, Copy, Debug, PartialEq, Eq)]
pub enum ReadError {
    Memory,
    Fault,
}

impl From<AllocError> for ReadError {
    ghost from_gives = { λ _ e. e ≡ Memory };

    fn from(_: AllocError) -> Self {
        ReadError::Memory
    }
}

impl<T: Drop> From<AllocFailed<T>> for ReadError {
    ghost from_gives = { λ _ e. e ≡ Memory };

    fn from(_: AllocFailed<T>) -> Self {
        ReadError::Memory
    }
}

impl From<Failed> for ReadError {
    ghost from_gives = { λ _ e. e ≡ Fault };

    fn from(_: Failed) -> Self {
        ReadError::Fault
    }
}

/// Reads to the end, or until 4,194,305 bytes were taken.
pub fn read_all<S: Source>(alloc: Global, source: &mut S) -> Result<Vec<u8>, ReadError>
    ensures text { IfOk result (λ v. ReadsText (S.left source.old) (S.left source.new) v.items) }
    ensures taken { TakesAtMost 4194305 (S.left source.old) (S.left source.new) }
    ensures later { S.faults source.old ≤ S.faults source.new }
    ensures failed { IsErrOf result Fault → Rose (S.faults source.old) (S.faults source.new) }
    ensures unfailed { (IsErrOf result Fault → ⊥) → S.faults source.new ≡ S.faults source.old }
{
    let mut buf = room(alloc, PIECE)?;
    read_by(alloc, source, &mut buf)
}

fn room(alloc: Global, len: usize) -> Result<Vec<u8>, AllocError>
    ensures { IfOk result (λ v. length v.items ≡ len) }
{
    vec![in alloc; 0; len]
}

// By pieces of the buffer's length.
fn read_by<S: Source>(alloc: Global, source: &mut S, buf: &mut [u8]) -> Result<Vec<u8>, ReadError>
    requires { 0 < length buf.old }
    ensures text { IfOk result (λ v. ReadsText (S.left source.old) (S.left source.new) v.items) }
    ensures taken { TakesAtMost 4194305 (S.left source.old) (S.left source.new) }
    ensures later { S.faults source.old ≤ S.faults source.new }
    ensures failed { IsErrOf result Fault → Rose (S.faults source.old) (S.faults source.new) }
    ensures unfailed { (IsErrOf result Fault → ⊥) → S.faults source.new ≡ S.faults source.old }
{
    let mut bytes = Vec::new(alloc);
    'pieces: while bytes.len() < LIMIT {
        let count = read_piece(source, buf, LIMIT - bytes.len())?;
        if count == 0 {
            return Ok(bytes);
        }
        bytes.extend_from_slice(&buf[..count])?;
    }
    Ok(bytes)
}

// A read of at most so many bytes.
fn read_piece<S: Source>(source: &mut S, buf: &mut [u8], most: usize) -> Result<usize, Failed>
    requires room { 0 < length buf.old }
    requires most { 0 < most }
    ensures bound { IfOk result (λ n. n ≤ length buf.new) }
    ensures most { IfOk result (λ n. n ≤ most) }
    ensures bytes { IfOk result (λ n. Consumes (S.left source.old) (S.left source.new) (take n buf.new)) }
    ensures end { IfOk result (λ n. n ≡ 0 → IsAtEnd (S.left source.new)) }
    ensures kept { OnErr result (Keeps (S.left source.old) (S.left source.new)) }
    ensures cause { HasCause (S.faults source.old) (S.faults source.new) result }
    ensures success { OnOk result (S.faults source.new ≡ S.faults source.old) }
{
    let room = buf.len().min(most);
    source.read(&mut buf[..room])
}
