//! A source and a sink in memory that never fail.
ghost use Rattle.std.specs.Prelude.{◌≡◌, ℕ, List, [], take, IfOk, length, min};
ghost use Rattle.fab_base.specs.Faults.{Rose};

use crate::outside::traits::{Failed, Sink, SinkError, Source};
use crate::seq::{NoMemory, Seq};
use std::alloc::Global;
use std::marker::Model;

/// Bytes in memory. Contracts see what is left of them.
#[derive(Debug, Drop)]
pub struct SureSource {
    bytes: Seq<u8>,
    at: usize,
}

impl Model for SureSource {
    ghost use Rattle.std.specs.Prelude.{List, ℕ, ◌≤◌, drop, length};

    ghost Value = { List ℕ };

    ghost view = { λ s. drop s.at s.bytes };

    ghost invariant = { λ s. s.at ≤ length s.bytes };
}

impl SureSource {
    pub fn new(bytes: Seq<u8>) -> SureSource
        ensures { result ≡ bytes }
    {
        SureSource { bytes, at: 0 }
    }
}

impl Source for SureSource {
    ghost use Rattle.std.specs.Prelude.{Some};

    ghost left = { λ s. Some s };

    ghost faults = { λ _. 0 };

    fn read(&mut self, buf: &mut [u8]) -> Result<usize, Failed> {
        let count = copy_front(&self.bytes.as_slice()[self.at..], buf);
        self.at += count;
        Ok(count)
    }
}

/// Copies as much of the front as there is room for, and answers how much.
fn copy_front(from: &[u8], to: &mut [u8]) -> usize
    ensures count { result ≡ min (length from.now) (length to.old) }
    ensures copied { take result to.new ≡ take result from.now }
    ensures same { length to.new ≡ length to.old }
{
    let count = from.len().min(to.len());
    to[..count].copy_from_slice(&from[..count]);
    count
}

/// A sink in memory. Contracts see what was written.
#[derive(Debug, Drop)]
pub struct SureSink {
    bytes: Seq<u8>,
}

impl Model for SureSink {
    ghost use Rattle.std.specs.Prelude.{List, ℕ};

    ghost Value = { List ℕ };

    ghost view = { λ s. s.bytes };
}

impl SureSink {
    pub fn new(alloc: Global) -> Result<SureSink, NoMemory>
        ensures { IfOk result (λ s. s ≡ []) }
    {
        Ok(SureSink {
            bytes: Seq::new(alloc),
        })
    }

    /// What was written.
    pub fn bytes(&self) -> &[u8]
        ensures { result.now ≡ self.now }
    {
        self.bytes.as_slice()
    }
}

impl Sink for SureSink {
    ghost use Rattle.std.specs.Prelude.{Some};

    ghost written = { λ s. Some s };

    ghost faults = { λ _. 0 };

    fn write(&mut self, piece: &[u8]) -> Result<usize, SinkError> {
        self.bytes.extend(piece)?;
        Ok(piece.len())
    }
}

/// The count of a source or a sink that never fails doesn't rise.
pub fn sure_objects_never_fail()
    ensures source { (before now : List ℕ) → Rose (⟦<SureSource as Source>⟧.faults before) (⟦<SureSource as Source>⟧.faults now) → ⊥ }
    ensures sink { (before now : List ℕ) → Rose (⟦<SureSink as Sink>⟧.faults before) (⟦<SureSink as Sink>⟧.faults now) → ⊥ }
{}
