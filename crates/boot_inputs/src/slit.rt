//! The ACPI table SLIT, which has the distances between proximity domains, as an input.

ghost use Rattle.std.specs.Prelude.{◌≡◌, ◌≤◌, ℕ, length, IsErrOf, List};
ghost use Rattle.std.specs.Option.{option_map};
ghost use Rattle.boot_inputs.specs.Diagnostic.{diagnostic_view};
ghost use Rattle.boot_inputs.specs.Slit.{slit_diagnostic, slit_file};
ghost use Rattle.slit_zonelists.specs.Table.{slit_of};

use crate::fault::{Diagnostic, Fault, Misread};
use crate::input::Input;
use crate::reader::Reader;
use boot_model::Inputs;
use slit_zonelists::{SlitFault, read_slit};
use std::alloc::Global;

/// Reads a SLIT, and puts its distances into the inputs.
pub struct Slits;

impl Reader for Slits {
    ghost file = { slit_file };

    fn input() -> Input {
        Input::Slit
    }

    fn limit() -> u64 {
        1_048_576
    }

    fn read(alloc: Global, bytes: &[u8], inputs: &mut Inputs) -> Result<(), Misread> {
        match read_slit(alloc, bytes) {
            Ok(slit) => {
                inputs.slit = Some(slit);
                Ok(())
            }
            Err(SlitFault::Memory) => Err(Misread::Memory),
            Err(fault) => Err(Misread::Fault(Fault::Slit(fault))),
        }
    }

    fn exhaustion_is_no_fault() {
        exhaustion_is_no_slit_fault();
    }
}

/// Law: "out of memory" is never a fault of a SLIT's contents.
pub fn exhaustion_is_no_slit_fault()
    ensures { (bytes : List ℕ) → ¬ IsErrOf (slit_of bytes) SlitFault.Memory }
{}

/// Returns what the fault's error line says after `slit: `, such as `checksum`. Returns `None` only
/// for `Memory`, which isn't a fault of the file's contents.
pub(crate) fn slit_diagnostic(fault: SlitFault) -> Option<Diagnostic>
    ensures { option_map diagnostic_view result ≡ slit_diagnostic fault }
{
    match fault {
        SlitFault::Short => Some(Diagnostic::Whole("short")),
        SlitFault::Signature => Some(Diagnostic::Whole("signature")),
        SlitFault::Length => Some(Diagnostic::Whole("length")),
        SlitFault::Checksum => Some(Diagnostic::Whole("checksum")),
        SlitFault::Localities => Some(Diagnostic::Whole("localities")),
        SlitFault::Memory => None,
    }
}
