//! The files that the caller of the library passes, as a [`Files`] from which the program fetches.

ghost use Rattle.std.specs.Prelude.{◌≡◌, ℕ, ◌+◌, ◌-◌, ◌^◌, ◌<◌, ◌≤◌, ◌↔◌, length, Option, Some, IfOk, IsErrOf, IsNone, find};
ghost use Rattle.std.specs.Option.{option_copied};
ghost use Rattle.bm_io.specs.MemFiles.{file_bytes};
ghost use Rattle.bootmem_c.specs.Lent.{lent_files};
ghost use Rattle.bootmem_c.specs.Fetches.{faults_at, is_lent_as, misses_of, IsLonger};

use crate::crossing::File;
use bm_io::{Fetch, Files};
use std::alloc::Global;
use std::marker::Model;

/// The files that the caller of the library passes (*lent* files). If two have the same name, only
/// the first can be fetched. `misses` counts the fetches for which no lent file had the name.
#[derive(Drop)]
pub struct LentFiles<'a> {
    files: &'a [File<'a>],
    misses: u32,
}

impl<'a> Model for LentFiles<'a> {
    ghost use Rattle.std.specs.Prelude.{◌^◌, ◌<◌};
    ghost use Rattle.bootmem_c.specs.Fetches.{LentFilesView};
    ghost use Rattle.bootmem_c.specs.Lent.{lent_files};

    ghost Value = { LentFilesView };

    ghost view = { λ s. record { files = lent_files s.files.now; misses = s.misses } };

    ghost invariant = { λ s. s.misses < 2 ^ 32 };
}

impl<'a> LentFiles<'a> {
    pub fn new(files: &'a [File<'a>]) -> LentFiles<'a>
        ensures files { result.files ≡ lent_files files.now }
        ensures misses { result.misses ≡ 0 }
    {
        LentFiles { files, misses: 0 }
    }
}

impl<'a> Files for LentFiles<'a> {
    ghost holds = { λ s. Some (file_bytes s.files) };

    // The counter of faults for a name. If no lent file has the name, the counter is the number of
    // all failed fetches, for any name. If a lent file has the name, its fetches never fail, and
    // the counter is always 2^64 - 2. It isn't 2^64 - 1, since a counter with that value counts as
    // risen.
    ghost faults = { λ s name. faults_at s name };

    // The counter of bytes read is always 2^64 - 1. A counter with this value counts as risen.
    ghost taken = { λ s. 2 ^ 64 - 1 };

    /// Returns a copy of the bytes of the file `name`, which may have at most `limit` bytes.
    ///
    /// # Errors
    ///
    /// - `Failed` only if the caller passes no file with this name.
    /// - `TooLong` exactly if there is such a file and it contains more than `limit` bytes.
    /// - `Memory` if this program is out of memory. Also if the caller passes no file with this
    ///   name and 2^32 - 1 fetches failed before.
    fn fetch(&mut self, alloc: Global, name: &str, limit: u64) -> Result<Vec<u8>, Fetch>
        ensures bounded { IfOk result (λ bytes. length bytes.items ≤ limit) }
        ensures told { IfOk result (λ bytes.
            file_bytes self.old.files name.now ≡ Some bytes.items) }
        ensures failed { IsErrOf result Fetch.Failed → IsNone (file_bytes self.old.files name.now) }
        ensures too_long { IsErrOf result Fetch.TooLong ↔ IsLonger self.old.files name.now limit }
        ensures files { self.new.files ≡ self.old.files }
        ensures misses { self.new.misses ≡ self.old.misses + misses_of result }
        ensures few { self.new.misses < 2 ^ 32 }
    {
        let Some(bytes) = bytes_of_named_file(self.files, name) else {
            let Some(misses) = self.misses.checked_add(1) else {
                return Err(Fetch::Memory);
            };
            self.misses = misses;
            return Err(Fetch::Failed);
        };
        if bytes.len() as u64 > limit {
            return Err(Fetch::TooLong);
        }
        let mut copy = Vec::new(alloc);
        if copy.extend_from_slice(bytes).is_err() {
            return Err(Fetch::Memory);
        }
        Ok(copy)
    }
}

/// Returns the bytes of the first file with this name, or `None` if no file has it.
fn bytes_of_named_file<'a>(files: &'a [File<'a>], name: &str) -> Option<&'a [u8]>
    ensures { option_copied result ≡ file_bytes (lent_files files.now) name.now }
{
    Some(file_named(files, name)?.bytes)
}

fn file_named<'a>(files: &'a [File<'a>], name: &str) -> Option<&'a File<'a>>
    ensures { option_copied result ≡ find (is_lent_as name.now) files.now }
{
    files.iter().find(|file| file.name == name.as_bytes())
}
