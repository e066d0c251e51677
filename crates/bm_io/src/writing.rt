//! The trait of an output that the program writes to in chunks.
//!
//! Reports go to one such output, and the line that says why the program failed to another.
ghost use Rattle.std.specs.Prelude.{◌≡◌, ℕ, ◌^◌, ◌<◌, ◌≤◌, List, Option, OnOk, OnErr, IsErrOf, ◌⊎◌};
ghost use Rattle.std.specs.Io.KnownBytes.{Appends};
ghost use Rattle.bm_io.specs.Counts.{Rose};
ghost use Rattle.bm_io.specs.Known.{AppendsFront};

/// Why a call of [`Sink::put`] failed.
#[derive(Clone, Copy, Debug, PartialEq, Eq)]
pub enum Put {
    /// The output refused the chunk.
    Failed,
    /// The program itself is out of memory: an output in memory couldn't grow.
    Memory,
}

/// An output that takes bytes in chunks.
pub trait Sink {
    // The bytes written so far, or `None` if contracts don't know them.
    ghost written: { Self → Option (List ℕ) };

    // How many times the output refused bytes so far. Refusals that a retry overcame may be
    // counted too.
    ghost faults: { Self → ℕ };

    // The number of puts so far that failed with `Memory`.
    ghost wants: { Self → ℕ };

    /// Appends all bytes of the chunk to the output.
    ///
    /// # Errors
    ///
    /// - `Failed` if the output refused the chunk.
    /// - `Memory` if the output ran out of memory.
    ///
    /// After either error the first bytes of the chunk were appended: none, some or all.
    fn put(&mut self, chunk: &[u8]) -> Result<(), Put>
        ensures whole { OnOk result (Appends (written self.old) (written self.new) chunk.now) }
        ensures front { OnErr result
            (AppendsFront (written self.old) (written self.new) chunk.now) }

        // What each error implies.
        ensures failed { IsErrOf result Put.Failed → Rose (faults self.old) (faults self.new) }
        ensures wanting { IsErrOf result Put.Memory → Rose (wants self.old) (wants self.new) }

        // The counter `wants` rises only if this put returns `Memory`.
        ensures no_want { IsErrOf result Put.Memory ⊎ (wants self.new ≡ wants self.old) }

        // No counter falls or exceeds 2^64 - 1.
        ensures faults_stay { faults self.old ≤ faults self.new }
        ensures faults_fit { faults self.new < 2 ^ 64 }
        ensures wants_stay { wants self.old ≤ wants self.new }
        ensures wants_fit { wants self.new < 2 ^ 64 };
}
