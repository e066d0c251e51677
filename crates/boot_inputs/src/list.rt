//! A list of input files as a type: a pair of a reader and the rest of the list, or `()` for the
//! empty list. What is true after several files were read is proved once, for any list.

ghost use Rattle.std.specs.Prelude.{◌≡◌, All, IsTrue, List, [], ◌∷◌};
ghost use Rattle.boot_model.specs.View.{inputs_view};
ghost use Rattle.boot_inputs.specs.Faults.{FaultsHaveErrorLines};
ghost use Rattle.boot_inputs.specs.File.{File};
ghost use Rattle.boot_inputs.specs.Reading.{AreRead, are_in_reading_order};

use crate::fault::NoInputs;
use crate::fetching::{Names, add_file};
use crate::reader::Reader;
use bm_io::Files;
use boot_model::Inputs;
use std::alloc::Global;

/// A list of readers of input files, as a type.
pub trait Readers {
    // The definitions of the files, in the order of the list.
    ghost list: { List File };

    /// Reads each file of the list that has a name, in order, and puts its value into the inputs.
    /// Fetches a file only after the one before it was read without a fault.
    ///
    /// # Errors
    ///
    /// - `Unread` or `Faulty`: the first file that can't be fetched, or that has a fault
    /// - out of memory, at any file
    fn add_files<F: Files, N: Names>(
        alloc: Global,
        files: &mut F,
        names: &N,
        inputs: &mut Inputs,
    ) -> Result<(), NoInputs>
        requires { IsTrue (are_in_reading_order list) }
        ensures { AreRead F.Files (N.named names.now) list files.old files.new
            (inputs_view inputs.old) (inputs_view inputs.new) result };

    /// Law: "out of memory" is never a fault of these files' contents.
    fn exhaustion_is_no_fault_of_any()
        ensures { All FaultsHaveErrorLines list };
}

impl Readers for () {
    ghost list = { [] };

    fn add_files<F: Files, N: Names>(
        _alloc: Global,
        _files: &mut F,
        _names: &N,
        _inputs: &mut Inputs,
    ) -> Result<(), NoInputs> {
        Ok(())
    }

    fn exhaustion_is_no_fault_of_any() {}
}

impl<R: Reader, L: Readers> Readers for (R, L) {
    ghost list = { R.file ∷ L.list };

    fn add_files<F: Files, N: Names>(
        alloc: Global,
        files: &mut F,
        names: &N,
        inputs: &mut Inputs,
    ) -> Result<(), NoInputs> {
        add_file::<R, F, N>(alloc, files, names, inputs)?;
        L::add_files::<F, N>(alloc, files, names, inputs)
    }

    fn exhaustion_is_no_fault_of_any() {
        R::exhaustion_is_no_fault();
        L::exhaustion_is_no_fault_of_any();
    }
}
