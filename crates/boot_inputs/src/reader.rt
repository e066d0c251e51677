//! An input file as one type: which file it is, how many bytes it may have, and how they are read
//! into the inputs.

ghost use Rattle.std.specs.Prelude.{◌≡◌, ◌≤◌, length, IsErrOf, IsOk, IsTrue};
ghost use Rattle.bm_base.specs.Answers.{Answers};
ghost use Rattle.bm_base.specs.ResultSteps.{map_error};
ghost use Rattle.boot_model.specs.View.{inputs_view};
ghost use Rattle.boot_inputs.specs.declared.fault.Misread.TheVariants as misreads;
ghost use Rattle.boot_inputs.specs.Faults.{FaultsHaveErrorLines};
ghost use Rattle.boot_inputs.specs.File.{File};

use crate::fault::Misread;
use crate::input::Input;
use boot_model::Inputs;
use std::alloc::Global;

/// An input file: which one it is, how many bytes it may have, and how they are read.
pub trait Reader {
    // The definition of the file: which input it is, its limit in bytes, what its bytes mean, and
    // which bytes need memory of this program to be read.
    ghost file: { File };

    /// Returns which input this reader reads.
    fn input() -> Input
        ensures { result ≡ file.input };

    /// Returns the greatest number of bytes that the file may have.
    fn limit() -> u64
        ensures { result ≡ file.limit };

    /// Reads `bytes`, the contents of the file, and puts their value into the inputs. There must be
    /// at most `limit` bytes.
    ///
    /// # Errors
    ///
    /// - the first fault of the bytes
    /// - out of memory, only if the bytes have no fault and their value must be allocated
    fn read(alloc: Global, bytes: &[u8], inputs: &mut Inputs) -> Result<(), Misread>
        requires within { length bytes.now ≤ file.limit }
        ensures says { Answers misreads.Memory (λ done. inputs_view inputs.new) result
            (map_error misreads.Fault (file.says bytes.now (inputs_view inputs.old))) }
        ensures memory { IsErrOf result misreads.Memory →
            IsTrue (file.takes bytes.now) × IsOk (file.says bytes.now (inputs_view inputs.old)) };

    /// Law: "out of memory" is never a fault of this file's contents. The error line that the
    /// definition gives for such a fault is therefore never printed.
    fn exhaustion_is_no_fault()
        ensures { FaultsHaveErrorLines file };
}
