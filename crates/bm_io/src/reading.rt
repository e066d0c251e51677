//! The trait of the files that the program reads. A call fetches one whole file by its name.
//!
//! The inputs of a boot are small (a zero page has 4,096 bytes), so a fetch returns all bytes of
//! the file at once.
ghost use Rattle.std.specs.Prelude.{◌≡◌, ℕ, ◌^◌, ◌<◌, ◌≤◌, List, length, Option, IfOk, IsErrOf};
ghost use Rattle.bm_io.specs.Counts.{Rose, RoseByMoreThan};
ghost use Rattle.bm_io.specs.Known.{IsKnownAs, IsKnownLonger};

use std::alloc::Global;

/// Why a file couldn't be fetched.
#[derive(Clone, Copy, Debug, PartialEq, Eq)]
pub enum Fetch {
    /// The file couldn't be opened or read, or doesn't exist.
    Failed,
    /// The file has more bytes than the limit.
    TooLong,
    /// The program itself ran out of memory.
    Memory,
}

/// Files that can be fetched by name.
pub trait Files {
    // For each name, the bytes of the file with that name, or `None` if there is no such file. The
    // whole member is `None` if contracts don't know what files contain.
    ghost holds: { Self → Option (List ℕ → Option (List ℕ)) };

    // For each name, how many fetches of the file with that name failed so far. An implementation
    // may use one counter for all names, and may count failures that a retry overcame.
    ghost faults: { Self → List ℕ → ℕ };

    // The number of bytes read so far, from all files together.
    ghost taken: { Self → ℕ };

    /// Returns all bytes of the file `name`, which may have at most `limit` bytes.
    ///
    /// # Errors
    ///
    /// - `Failed` if the file doesn't exist, or couldn't be opened or read.
    /// - `TooLong` if the file has more than `limit` bytes.
    /// - `Memory` if the program ran out of memory.
    fn fetch(&mut self, alloc: Global, name: &str, limit: u64) -> Result<Vec<u8>, Fetch>
        ensures bounded { IfOk result (λ bytes. length bytes.items ≤ limit) }
        ensures told { IfOk result (λ bytes. IsKnownAs (holds self.old) name.now bytes.items) }

        // What each error implies. `Memory` implies nothing, since memory may run out at any time.
        ensures failed { IsErrOf result Fetch.Failed
            → Rose (faults self.old name.now) (faults self.new name.now) }
        ensures too_long { IsErrOf result Fetch.TooLong
            → RoseByMoreThan limit (taken self.old) (taken self.new) }
        ensures longer { IsErrOf result Fetch.TooLong →
            IsKnownLonger (holds self.old) name.now limit }

        // The files don't change.
        ensures kept { holds self.new ≡ holds self.old }

        // No counter falls or exceeds 2^64 - 1.
        ensures faults_stay { (any : List ℕ) → faults self.old any ≤ faults self.new any }
        ensures faults_fit { (any : List ℕ) → faults self.new any < 2 ^ 64 }
        ensures taken_stays { taken self.old ≤ taken self.new }
        ensures taken_fits { taken self.new < 2 ^ 64 };
}
