ghost use Rattle.std.specs.Prelude.{◌≡◌, ◌↔◌, ◌<◌, ◌+◌, ◌-◌, ◌^◌, [], Some, IfOk, OnErr, IsErr, Contains, length, min, drop};
ghost use Rattle.std.specs.Io.{ReadsAtMost, WritesAtMost};
ghost use Rattle.std.specs.Io.KnownBytes.{ReadConsumes, WriteAppends};
ghost use Rattle.lt_io.specs.Cause.{HasCause, Rose};
ghost use Rattle.lt_io.specs.Memory.{next_count};

use crate::{Sink, SinkFault, Source, SourceFault};
use lt_rec::{NoMemory, Octets};
use std::alloc::Global;
use std::marker::Model;

/// Bytes in memory, read in order. Contracts see the bytes to come, the failing calls and the counts.
#[derive(Debug, Drop)]
pub struct MemSource {
    bytes: Octets,
    at: usize,
    fails: Vec<u64>,
    calls: u64,
    faults: u64,
}

impl Model for MemSource {
    ghost use Rattle.std.specs.Prelude.{◌≤◌, length, drop};
    ghost use Rattle.lt_io.specs.Memory.{Feed};

    ghost Value = { Feed };

    ghost view = { λ s. record { left = drop s.at s.bytes; fails = s.fails.items; calls = s.calls; faults = s.faults } };

    ghost invariant = { λ s. s.at ≤ length s.bytes };
}

impl MemSource {
    /// Gives these bytes in order; its calls with the places in `fails`, counted from 1, fail.
    pub fn new(alloc: Global, bytes: Octets, fails: &[u64]) -> Result<MemSource, NoMemory>
        ensures { IfOk result (λ source. source ≡ record { left = bytes; fails = fails.now; calls = 0; faults = 0 }) }
    {
        let fails = Vec::from_slice(alloc, fails)?;
        Ok(MemSource {
            bytes,
            at: 0,
            fails,
            calls: 0,
            faults: 0,
        })
    }
}

impl Source for MemSource {
    ghost left = { λ s. Some s.left };

    ghost faults = { λ s. s.faults };

    fn read(&mut self, buf: &mut [u8]) -> Result<usize, SourceFault>
        ensures within { ReadsAtMost result buf.new }
        ensures bytes { ReadConsumes (Some self.old.left) (Some self.new.left) result buf.new }
        ensures cause { HasCause self.old.faults self.new.faults result }
        ensures fails { IsErr result ↔ Contains self.old.fails (next_count self.old.calls) }
        ensures counted { self.new.calls ≡ next_count self.old.calls }
        ensures fails_stay { self.new.fails ≡ self.old.fails }
        ensures all_that_fits { IfOk result (λ n. n ≡ min (length buf.new) (length self.old.left)) }
    {
        self.calls = self.calls.saturating_add(1);
        if self.fails.as_slice().contains(&self.calls) {
            self.faults = self.faults.saturating_add(1);
            return Err(SourceFault);
        }
        let (_, left) = self.bytes.as_slice().split_at(self.at);
        let count = buf.len().min(left.len());
        let (given, _) = left.split_at(count);
        let (front, _) = buf.split_at_mut(count);
        front.copy_from_slice(given);
        self.at += count;
        Ok(count)
    }
}

/// Bytes written to memory. Contracts see what it holds, the failing calls and the counts.
#[derive(Debug, Drop)]
pub struct MemSink {
    held: Vec<u8>,
    fails: Vec<u64>,
    calls: u64,
    faults: u64,
}

impl Model for MemSink {
    ghost use Rattle.lt_io.specs.Memory.{Store};

    ghost Value = { Store };

    ghost view = { λ s. record { held = s.held.items; fails = s.fails.items; calls = s.calls; faults = s.faults } };
}

impl MemSink {
    /// Begins empty; its calls with the places in `fails`, counted from 1, fail. So does one that finds no memory.
    pub fn new(alloc: Global, fails: &[u64]) -> Result<MemSink, NoMemory>
        ensures { IfOk result (λ sink. sink ≡ record { held = []; fails = fails.now; calls = 0; faults = 0 }) }
    {
        let fails = Vec::from_slice(alloc, fails)?;
        Ok(MemSink {
            held: Vec::new(alloc),
            fails,
            calls: 0,
            faults: 0,
        })
    }

    /// What was written. Takes no memory.
    pub fn bytes(&self) -> &[u8]
        ensures { result.now ≡ self.now.held }
    {
        self.held.as_slice()
    }
}

impl Sink for MemSink {
    ghost held = { λ s. Some s.held };

    ghost faults = { λ s. s.faults };

    fn write(&mut self, bytes: &[u8]) -> Result<usize, SinkFault>
        ensures within { WritesAtMost result bytes.now }
        ensures bytes { WriteAppends (Some self.old.held) (Some self.new.held) result bytes.now }
        ensures cause { HasCause self.old.faults self.new.faults result }
        ensures took_none { IfOk result (λ n. n ≡ 0 → 0 < length bytes.now → Rose self.old.faults self.new.faults) }
        ensures fails { Contains self.old.fails (next_count self.old.calls) → IsErr result }
        ensures counted { self.new.calls ≡ next_count self.old.calls }
        ensures fails_stay { self.new.fails ≡ self.old.fails }
        ensures takes_all { IfOk result (λ n. n ≡ length bytes.now) }
    {
        self.calls = self.calls.saturating_add(1);
        let refused = self.fails.as_slice().contains(&self.calls);
        if refused || self.held.extend_from_slice(bytes).is_err() {
            self.faults = self.faults.saturating_add(1);
            return Err(SinkFault);
        }
        Ok(bytes.len())
    }
}
