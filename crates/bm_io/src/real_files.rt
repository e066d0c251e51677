//! Fetches whole files of the operating system.
//!
//! One read may return only a part of a file, so a fetch opens the file and reads until its end.
//! It is proved that a fetch makes exactly these calls, and that it returns `Failed` only if one
//! of them fails.
ghost use Rattle.std.specs.Prelude.{◌≡◌, ℕ, ◌^◌, ◌<◌, ◌≤◌, length, None, IfSome, IfOk, IsErrOf};
ghost use Rattle.bm_io.specs.Counts.{count_after, Rose, RoseByMoreThan};
ghost use Rattle.bm_io.specs.Known.{IsKnownAs};
ghost use Rattle.bm_io.specs.MemFiles.{fetch_failures};
ghost use Rattle.bm_io.specs.Calls.{IsReadBy, IsFetchedBy};

use crate::raw::{RawFiles, RawReader};
use crate::reading::{Fetch, Files};
use crate::system::SystemFiles;
use std::alloc::Global;
use std::marker::Model;
use std::rt;

/// The files of the operating system. Contracts don't know what they contain. `faults` counts the
/// failed fetches of all files together, and `taken` the bytes of all reads.
#[derive(Drop)]
pub struct RealFiles<D: RawFiles + Drop> {
    files: D,
    faults: u64,
    taken: u64,
}

impl<D: RawFiles + Drop> Model for RealFiles<D> {
    ghost use Rattle.std.specs.Prelude.{◌^◌, ◌<◌};
    ghost use Rattle.bm_io.specs.Counters.{RealFilesView};

    ghost Value = { RealFilesView D };

    ghost view = { λ s. record { files = s.files; faults = s.faults; taken = s.taken } };

    ghost invariant = { λ s. (s.faults < 2 ^ 64) × (s.taken < 2 ^ 64) };
}

impl<'a, R: rt::Files> RealFiles<SystemFiles<'a, R>> {
    /// Returns access to the operating system's files through `runtime`, and opens no file yet.
    /// The counters of failed fetches and of bytes read begin at 0.
    pub fn new(runtime: &'a R) -> RealFiles<SystemFiles<'a, R>>
        ensures faults { result.faults ≡ 0 }
        ensures taken { result.taken ≡ 0 }
    {
        RealFiles {
            files: SystemFiles { runtime },
            faults: 0,
            taken: 0,
        }
    }
}

impl<D: RawFiles + Drop> RealFiles<D> {
    /// Reads the open file to its end and returns its bytes, of which there may be at most
    /// `limit`.
    ///
    /// # Errors
    ///
    /// - `Failed` if a read failed. The counter of faults rises by 1.
    /// - `TooLong` if the file has more than `limit` bytes.
    /// - `Memory` if the program ran out of memory.
    fn read_whole<F: RawReader>(
        &mut self,
        file: &mut F,
        alloc: Global,
        limit: u64,
    ) -> Result<Vec<u8>, Fetch>
        ensures calls { (taken : ℕ) × IsReadBy F.reads file.old limit result taken file.new
            × (self.new.taken ≡ count_after self.old.taken taken) }
        ensures bounded { IfOk result (λ bytes. length bytes.items ≤ limit) }
        ensures whole { IfOk result (λ bytes. IfSome (F.remaining file.old) (λ all. bytes.items
            ≡ all)) }
        ensures faults { self.new.faults ≡ count_after self.old.faults (fetch_failures result) }
        ensures too_long { IsErrOf result Fetch.TooLong
            → RoseByMoreThan limit self.old.taken self.new.taken }
        ensures longer { IsErrOf result Fetch.TooLong
            → IfSome (F.remaining file.old) (λ all. limit < length all) }
        ensures files { self.new.files ≡ self.old.files }
        ensures taken_stays { self.old.taken ≤ self.new.taken }
    {
        let mut bytes = Vec::new(alloc);
        let mut buffer = [0u8; 4096];
        loop {
            let Some(count) = file.read(&mut buffer) else {
                self.faults = self.faults.saturating_add(1);
                return Err(Fetch::Failed);
            };
            self.taken = self.taken.saturating_add(count as u64);
            if count == 0 {
                return Ok(bytes);
            }
            if count as u64 > limit - bytes.len() as u64 {
                return Err(Fetch::TooLong);
            }
            if bytes.extend_from_slice(&buffer[..count]).is_err() {
                return Err(Fetch::Memory);
            }
        }
    }
}

impl<D: RawFiles + Drop> Files for RealFiles<D> {
    ghost holds = { λ s. None };

    ghost faults = { λ s name. s.faults };

    ghost taken = { λ s. s.taken };

    /// Opens the file `name` and returns all its bytes, of which there may be at most `limit`.
    ///
    /// # Errors
    ///
    /// - `Failed` if the file couldn't be opened or a read failed. The counter of faults rises by
    ///   1.
    /// - `TooLong` if the file has more than `limit` bytes.
    /// - `Memory` if the program ran out of memory.
    fn fetch(&mut self, alloc: Global, name: &str, limit: u64) -> Result<Vec<u8>, Fetch>
        ensures calls { (taken : ℕ)
            × IsFetchedBy D.opens D.File.reads self.old.files name.now limit result taken
            self.new.files
            × (self.new.taken ≡ count_after self.old.taken taken) }
        ensures bounded { IfOk result (λ bytes. length bytes.items ≤ limit) }
        ensures told { IfOk result (λ bytes. IsKnownAs None name.now bytes.items) }
        ensures faults { self.new.faults ≡ count_after self.old.faults (fetch_failures result) }
        ensures failed { IsErrOf result Fetch.Failed → Rose self.old.faults self.new.faults }
        ensures too_long { IsErrOf result Fetch.TooLong
            → RoseByMoreThan limit self.old.taken self.new.taken }
        ensures faults_stay { self.old.faults ≤ self.new.faults }
        ensures faults_fit { self.new.faults < 2 ^ 64 }
        ensures taken_stays { self.old.taken ≤ self.new.taken }
        ensures taken_fits { self.new.taken < 2 ^ 64 }
    {
        let Some(mut file) = self.files.open(name) else {
            self.faults = self.faults.saturating_add(1);
            return Err(Fetch::Failed);
        };
        self.read_whole(&mut file, alloc, limit)
    }
}
