//! Files in memory, for tests and proofs. Contracts know what each file contains. A test chooses
//! which calls of `fetch` fail, by their numbers.
ghost use Rattle.std.specs.Prelude.{◌≡◌, ◌-◌, ◌^◌, ◌<◌, ◌≤◌, ◌↔◌, length, Option, Some, IfOk, IsErrOf, find};
ghost use Rattle.std.specs.Option.{option_copied};
ghost use Rattle.bm_io.specs.Counts.{count_after};
ghost use Rattle.bm_io.specs.MemFiles.{file_views, file_bytes, HaveOwnNames, IsRefused, IsOverLimit, has_name, fetch_failures, bytes_taken};

use crate::reading::{Fetch, Files};
use std::alloc::Global;
use std::marker::Model;

/// A file in memory: its name and its bytes.
#[derive(Debug, Drop)]
pub struct MemFile {
    pub name: String,
    pub bytes: Vec<u8>,
}

/// Files in memory. The calls of `fetch` are numbered from 1, and those whose numbers are in a
/// list fail.
#[derive(Drop)]
pub struct MemFiles {
    files: Vec<MemFile>,
    failing: Vec<u64>,
    calls: u64,
    faults: u64,
    taken: u64,
}

impl Model for MemFiles {
    ghost use Rattle.std.specs.Prelude.{◌^◌, ◌<◌};
    ghost use Rattle.bm_io.specs.MemFiles.{MemFilesView, file_views};

    ghost Value = { MemFilesView };

    ghost view = { λ s. record {
      files = file_views s.files.items;
      failing = s.failing.items;
      calls = s.calls;
      faults = s.faults;
      taken = s.taken;
    } };

    ghost invariant = { λ s. (s.calls < 2 ^ 64) × (s.faults < 2 ^ 64) × (s.taken < 2 ^ 64) };
}

impl MemFiles {
    /// Returns the files as [`Files`], with no call counted yet. `failing` has the numbers of the
    /// calls of `fetch` that will fail; the first call has number 1. No two files may have the
    /// same name. Allocates nothing.
    pub fn new(files: Vec<MemFile>, failing: Vec<u64>) -> MemFiles
        requires { HaveOwnNames (file_views files.items) }
        ensures files { result.files ≡ file_views files.items }
        ensures failing { result.failing ≡ failing.items }
        ensures calls { result.calls ≡ 0 }
        ensures faults { result.faults ≡ 0 }
        ensures taken { result.taken ≡ 0 }
    {
        MemFiles {
            files,
            failing,
            calls: 0,
            faults: 0,
            taken: 0,
        }
    }
}

impl Files for MemFiles {
    ghost holds = { λ s. Some (file_bytes s.files) };

    ghost faults = { λ s name. s.faults };

    ghost taken = { λ s. s.taken };

    /// Returns a copy of the bytes of the file `name`, which may have at most `limit` bytes.
    ///
    /// # Errors
    ///
    /// - `Failed` exactly if the number of this call is in `failing`, or no file has the name.
    /// - Otherwise `TooLong` exactly if the file has more than `limit` bytes.
    /// - `Memory` if the copy can't be allocated.
    fn fetch(&mut self, alloc: Global, name: &str, limit: u64) -> Result<Vec<u8>, Fetch>
        ensures bounded { IfOk result (λ bytes. length bytes.items ≤ limit) }
        ensures told { IfOk result (λ bytes. file_bytes self.old.files name.now
            ≡ Some bytes.items) }
        ensures failed { IsErrOf result Fetch.Failed
            ↔ IsRefused self.old self.new.calls name.now }
        ensures too_long { IsErrOf result Fetch.TooLong
            ↔ (¬ IsRefused self.old self.new.calls name.now × IsOverLimit self.old name.now limit) }

        ensures files { self.new.files ≡ self.old.files }
        ensures failing { self.new.failing ≡ self.old.failing }
        ensures calls { self.new.calls ≡ count_after self.old.calls 1 }
        ensures faults { self.new.faults ≡ count_after self.old.faults (fetch_failures result) }
        ensures taken { self.new.taken
            ≡ count_after self.old.taken (bytes_taken result (file_bytes self.old.files name.now)) }
        ensures faults_stay { self.old.faults ≤ self.new.faults }
        ensures taken_stays { self.old.taken ≤ self.new.taken }
    {
        self.calls = self.calls.saturating_add(1);
        let held = bytes_named(&self.files, name);
        let Some(bytes) = held else {
            self.faults = self.faults.saturating_add(1);
            return Err(Fetch::Failed);
        };
        if self.failing.contains(&self.calls) {
            self.faults = self.faults.saturating_add(1);
            return Err(Fetch::Failed);
        }
        let length = bytes.len() as u64;
        if length > limit {
            self.taken = self.taken.saturating_add(length);
            return Err(Fetch::TooLong);
        }
        let mut copy = Vec::new(alloc);
        if copy.extend_from_slice(bytes).is_err() {
            return Err(Fetch::Memory);
        }
        self.taken = self.taken.saturating_add(length);
        Ok(copy)
    }
}

/// Returns the bytes of the first file with the name, or `None` if there is no such file.
fn bytes_named<'a>(files: &'a [MemFile], name: &str) -> Option<&'a [u8]>
    ensures { option_copied result ≡ file_bytes (file_views files.now) name.now }
{
    Some(file_named(files, name)?.bytes.as_slice())
}

/// Returns the first file with the name, or `None` if there is no such file.
fn file_named<'a>(files: &'a [MemFile], name: &str) -> Option<&'a MemFile>
    ensures { option_copied result ≡ find (has_name name.now) files.now }
{
    files.iter().find(|file| file.name.as_str() == name)
}
