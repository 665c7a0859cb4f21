//! A source and a sink in memory, with a list of the calls that fail.
ghost use Rattle.std.specs.Prelude.{◌≡◌, ◌↔◌, [], IfOk, OnOk, IsTrue, IsErr, IsErrOf, Contains};
ghost use Rattle.std.specs.Io.{ReadsAtMost, WritesAtMost};
ghost use Rattle.std.specs.Io.KnownBytes.{ReadConsumes};
ghost use Rattle.fab_base.specs.Faults.{HasCause, next_call, opening_calls, after_call, CountsFault};
ghost use Rattle.fab_base.specs.Sinks.{SinkTakes, SinkCause};

use crate::outside::sure::SureSource;
use crate::outside::traits::{Failed, Sink, SinkError, Source};
use crate::seq::{NoMemory, Seq};
use std::alloc::Global;
use std::marker::Model;

/// Which calls of an object fail, counted from 1, and how many were made and failed.
#[derive(Debug, Drop)]
pub struct FailingCalls {
    made: u32,
    fails: Seq<u32>,
    faults: u64,
}

impl Model for FailingCalls {
    ghost use Rattle.fab_base.specs.Faults.{Calls};

    ghost Value = { Calls };

    ghost view = { λ c. record { made = c.made; fails = c.fails; faults = c.faults } };
}

impl FailingCalls {
    pub fn new(fails: Seq<u32>) -> FailingCalls
        ensures { result ≡ opening_calls fails }
    {
        FailingCalls {
            made: 0,
            fails,
            faults: 0,
        }
    }

    /// Counts a call, and answers whether it fails.
    pub fn count(&mut self) -> bool
        ensures listed { IsTrue result ↔ Contains self.old.fails (next_call self.old) }
        ensures counted { self.new ≡ after_call result self.old }
        ensures cause { CountsFault result self.old.faults self.new.faults }
    {
        self.made = self.made.saturating_add(1);
        let fails = self.fails.as_slice().contains(&self.made);
        if fails {
            self.faults = self.faults.saturating_add(1);
        }
        fails
    }

    /// How many calls were made; it stays at 4,294,967,295 once it is there.
    pub fn made(&self) -> u32
        ensures { result ≡ self.now.made }
    {
        self.made
    }
}

/// Bytes in memory, of which some calls of `read` fail.
#[derive(Debug, Drop)]
pub struct MemSource {
    bytes: SureSource,
    calls: FailingCalls,
}

impl Model for MemSource {
    ghost use Rattle.fab_base.specs.Faults.{Medium};

    ghost Value = { Medium };

    ghost view = { λ s. record { content = s.bytes; calls = s.calls } };
}

impl MemSource {
    /// A source of these bytes; the calls of `read` with these numbers fail.
    pub fn with_fails(
        _alloc: Global,
        bytes: Seq<u8>,
        fails: Seq<u32>,
    ) -> Result<MemSource, NoMemory>
        ensures { IfOk result (λ s. s ≡ record { content = bytes; calls = opening_calls fails }) }
    {
        Ok(MemSource {
            bytes: SureSource::new(bytes),
            calls: FailingCalls::new(fails),
        })
    }
}

impl Source for MemSource {
    ghost use Rattle.std.specs.Prelude.{Some};

    ghost left = { λ s. Some s.content };

    ghost faults = { λ s. s.calls.faults };

    fn read(&mut self, buf: &mut [u8]) -> Result<usize, Failed>
        ensures bound { ReadsAtMost result buf.new }
        ensures bytes { ReadConsumes (Some self.old.content) (Some self.new.content) result buf.new }
        ensures cause { HasCause self.old.calls.faults self.new.calls.faults result }
        ensures success { OnOk result (self.new.calls.faults ≡ self.old.calls.faults) }

        // It fails exactly where it is listed.
        ensures listed { IsErr result ↔ Contains self.old.calls.fails (next_call self.old.calls) }
        ensures counted { self.new.calls.made ≡ next_call self.old.calls }
        ensures list { self.new.calls.fails ≡ self.old.calls.fails }
    {
        if self.calls.count() {
            return Err(Failed);
        }
        self.bytes.read(buf)
    }
}

/// A sink in memory, of which some calls of `write` fail and take nothing.
#[derive(Debug, Drop)]
pub struct MemSink {
    bytes: Seq<u8>,
    calls: FailingCalls,
}

impl Model for MemSink {
    ghost use Rattle.fab_base.specs.Faults.{Medium};

    ghost Value = { Medium };

    ghost view = { λ s. record { content = s.bytes; calls = s.calls } };
}

impl MemSink {
    /// An empty sink; the calls of `write` with these numbers fail.
    pub fn with_fails(alloc: Global, fails: Seq<u32>) -> Result<MemSink, NoMemory>
        ensures { IfOk result (λ s. s ≡ record { content = []; calls = opening_calls fails }) }
    {
        Ok(MemSink {
            bytes: Seq::new(alloc),
            calls: FailingCalls::new(fails),
        })
    }

    /// What was written.
    pub fn bytes(&self) -> &[u8]
        ensures { result.now ≡ self.now.content }
    {
        self.bytes.as_slice()
    }
}

impl Sink for MemSink {
    ghost use Rattle.std.specs.Prelude.{Some};

    ghost written = { λ s. Some s.content };

    ghost faults = { λ s. s.calls.faults };

    fn write(&mut self, piece: &[u8]) -> Result<usize, SinkError>
        ensures bound { WritesAtMost result piece.now }
        ensures bytes { SinkTakes (Some self.old.content) (Some self.new.content) result piece.now }
        ensures cause { SinkCause self.old.calls.faults self.new.calls.faults result piece.now }

        // It fails exactly where it is listed.
        ensures listed { IsErrOf result SinkError.Failed ↔ Contains self.old.calls.fails (next_call self.old.calls) }
        ensures nothing { IsErrOf result SinkError.Failed → self.new.content ≡ self.old.content }
        ensures counted { self.new.calls.made ≡ next_call self.old.calls }
        ensures list { self.new.calls.fails ≡ self.old.calls.fails }
        ensures unfailed { (IsErrOf result SinkError.Failed → ⊥) → self.new.calls.faults ≡ self.old.calls.faults }
    {
        if self.calls.count() {
            return Err(SinkError::Failed);
        }
        self.bytes.extend(piece)?;
        Ok(piece.len())
    }
}
