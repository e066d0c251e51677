//! The E820 extension as an input. It continues the entries of the zero page, but the boot loader
//! passes it separately (`setup_data`). It is therefore a file of its own, with its own limit and
//! faults.

ghost use Rattle.std.specs.Prelude.{◌≡◌, ◌≢◌, ◌≤◌, ℕ, length, List, Some};
ghost use Rattle.std.specs.Option.{option_map};
ghost use Rattle.boot_inputs.specs.Diagnostic.{diagnostic_view};
ghost use Rattle.boot_inputs.specs.Extension.{extension_diagnostic, extension_file};
ghost use Rattle.e820_table.specs.Extension.{ext_fault};

use crate::fault::{Diagnostic, Fault, Misread};
use crate::input::Input;
use crate::reader::Reader;
use boot_model::Inputs;
use e820_table::{ExtFault, read_ext};
use std::alloc::Global;

/// Reads an E820 extension, and puts its entries into the inputs.
pub struct Extensions;

impl Reader for Extensions {
    ghost file = { extension_file };

    fn input() -> Input {
        Input::Extension
    }

    // A header of 16 bytes and at most 3,072 entries of 20 bytes. Together with the 128 entries of
    // a zero page they fill the kernel's table (`E820_MAX_ENTRIES`).
    fn limit() -> u64 {
        61_456
    }

    fn read(alloc: Global, bytes: &[u8], inputs: &mut Inputs) -> Result<(), Misread> {
        match read_ext(alloc, bytes) {
            Ok(entries) => {
                inputs.ext = entries;
                Ok(())
            }
            Err(ExtFault::Memory) => Err(Misread::Memory),
            Err(fault) => Err(Misread::Fault(Fault::Extension(fault))),
        }
    }

    fn exhaustion_is_no_fault() {
        exhaustion_is_no_ext_fault();
    }
}

/// Law: "out of memory" is never a fault of an E820 extension's contents.
pub fn exhaustion_is_no_ext_fault()
    ensures { (bytes : List ℕ) → ext_fault bytes ≢ Some ExtFault.Memory }
{}

/// Returns what the fault's error line says after `e820ext: `, such as `entry 0 too far`. Returns
/// `None` only for `Memory`, which isn't a fault of the file's contents.
pub(crate) fn extension_diagnostic(fault: ExtFault) -> Option<Diagnostic>
    ensures { option_map diagnostic_view result ≡ extension_diagnostic fault }
{
    match fault {
        ExtFault::EntryTooFar { index } => Some(Diagnostic::Far("entry", index)),
        ExtFault::ExtHeader => Some(Diagnostic::Whole("header")),
        ExtFault::ExtLength => Some(Diagnostic::Whole("length")),
        ExtFault::Memory => None,
    }
}
