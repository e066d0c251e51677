//! An output in memory, for tests and proofs. Contracts know the bytes that were written. A test
//! chooses which calls of `put` fail, by their numbers.
ghost use Rattle.std.specs.Prelude.{◌≡◌, ◌+◌, ◌-◌, ◌/◌, ◌^◌, ◌<◌, ◌≤◌, [], ◌++◌, length, take, Some, Contains, OnOk, IsErrOf};
ghost use Rattle.bm_io.specs.Counts.{count_after};
ghost use Rattle.bm_io.specs.MemSink.{put_failures, out_of_memory_puts};

use crate::writing::{Put, Sink};
use std::marker::Model;

/// An output in memory. The calls of `put` are numbered from 1, and those whose numbers are in a
/// list fail.
#[derive(Drop)]
pub struct MemSink {
    written: Vec<u8>,
    failing: Vec<u64>,
    calls: u64,
    faults: u64,
    wants: u64,
}

impl Model for MemSink {
    ghost use Rattle.std.specs.Prelude.{◌^◌, ◌<◌};
    ghost use Rattle.bm_io.specs.MemSink.{MemSinkView};

    ghost Value = { MemSinkView };

    ghost view = { λ s. record {
      written = s.written.items;
      failing = s.failing.items;
      calls = s.calls;
      faults = s.faults;
      wants = s.wants;
    } };

    ghost invariant = { λ s. (s.calls < 2 ^ 64) × (s.faults < 2 ^ 64) × (s.wants < 2 ^ 64) };
}

impl MemSink {
    /// Returns an empty output. `failing` has the numbers of the calls of `put` that will fail;
    /// the first call has number 1. Allocates nothing.
    pub fn new(failing: Vec<u64>) -> MemSink
        ensures written { result.written ≡ [] }
        ensures failing { result.failing ≡ failing.items }
        ensures calls { result.calls ≡ 0 }
        ensures faults { result.faults ≡ 0 }
        ensures wants { result.wants ≡ 0 }
    {
        MemSink {
            written: Vec::new(*failing.allocator()),
            failing,
            calls: 0,
            faults: 0,
            wants: 0,
        }
    }

    /// Returns all bytes written so far, in order.
    pub fn written_bytes(&self) -> &[u8]
        ensures { result.now ≡ self.now.written }
    {
        self.written.as_slice()
    }
}

impl Sink for MemSink {
    ghost written = { λ s. Some s.written };

    ghost faults = { λ s. s.faults };

    ghost wants = { λ s. s.wants };

    /// Appends all bytes of the chunk.
    ///
    /// # Errors
    ///
    /// - `Failed` if the number of this call is in `failing`. The first half of the chunk's bytes,
    ///   rounded down, was appended.
    /// - `Memory` if the output can't grow. Nothing was appended.
    fn put(&mut self, chunk: &[u8]) -> Result<(), Put>
        ensures whole { OnOk result (self.new.written ≡ self.old.written ++ chunk.now) }
        ensures half { IsErrOf result Put.Failed
            → self.new.written ≡ self.old.written ++ take (length chunk.now / 2) chunk.now }
        ensures none { IsErrOf result Put.Memory → self.new.written ≡ self.old.written }

        ensures passed { OnOk result (¬ Contains self.old.failing self.new.calls) }
        ensures failed { IsErrOf result Put.Failed → Contains self.old.failing self.new.calls }

        ensures failing { self.new.failing ≡ self.old.failing }
        ensures calls { self.new.calls ≡ count_after self.old.calls 1 }
        ensures faults { self.new.faults ≡ count_after self.old.faults (put_failures result) }
        ensures wants { self.new.wants ≡ count_after self.old.wants (out_of_memory_puts result) }
        ensures uncounted { OnOk result
            ((self.new.faults ≡ self.old.faults) × (self.new.wants ≡ self.old.wants)) }
        ensures faults_stay { self.old.faults ≤ self.new.faults }
        ensures wants_stay { self.old.wants ≤ self.new.wants }
    {
        self.calls = self.calls.saturating_add(1);
        let fails = self.failing.contains(&self.calls);
        let part = if fails {
            &chunk[..chunk.len() / 2]
        } else {
            chunk
        };
        if self.written.extend_from_slice(part).is_err() {
            self.wants = self.wants.saturating_add(1);
            return Err(Put::Memory);
        }
        if fails {
            self.faults = self.faults.saturating_add(1);
            return Err(Put::Failed);
        }
        Ok(())
    }
}
