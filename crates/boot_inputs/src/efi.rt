//! The EFI memory map as an input.

ghost use Rattle.std.specs.Prelude.{◌≡◌, ◌≤◌, ℕ, length, IsErrOf, List};
ghost use Rattle.std.specs.Option.{option_map};
ghost use Rattle.boot_inputs.specs.Diagnostic.{diagnostic_view};
ghost use Rattle.boot_inputs.specs.Efi.{efi_diagnostic, efi_file};
ghost use Rattle.efi_map.specs.Map.{efi_of};

use crate::fault::{Diagnostic, Fault, Misread};
use crate::input::Input;
use crate::reader::Reader;
use boot_model::{Inputs, mirrors_are_whole_frames};
use efi_map::{EfiFault, read_efi};
use std::alloc::Global;

/// Reads an EFI memory map, and puts its entries and its mirrored ranges into the inputs.
pub struct EfiMaps;

impl Reader for EfiMaps {
    ghost file = { efi_file };

    fn input() -> Input {
        Input::Efi
    }

    fn limit() -> u64 {
        1_048_576
    }

    fn read(alloc: Global, bytes: &[u8], inputs: &mut Inputs) -> Result<(), Misread> {
        mirrors_are_whole_frames();
        match read_efi(alloc, bytes) {
            Ok(map) => {
                inputs.efi = Some(map);
                Ok(())
            }
            Err(EfiFault::Memory) => Err(Misread::Memory),
            Err(fault) => Err(Misread::Fault(Fault::Efi(fault))),
        }
    }

    fn exhaustion_is_no_fault() {
        exhaustion_is_no_efi_fault();
    }
}

/// Law: "out of memory" is never a fault of an EFI memory map's contents.
pub fn exhaustion_is_no_efi_fault()
    ensures { (bytes : List ℕ) → ¬ IsErrOf (efi_of bytes) EfiFault.Memory }
{}

/// Returns what the fault's error line says after `efi: `, such as `descriptor 0 too far`. Returns
/// `None` only for `Memory`, which isn't a fault of the file's contents.
pub(crate) fn efi_diagnostic(fault: EfiFault) -> Option<Diagnostic>
    ensures { option_map diagnostic_view result ≡ efi_diagnostic fault }
{
    match fault {
        EfiFault::Header => Some(Diagnostic::Whole("header")),
        EfiFault::Length => Some(Diagnostic::Whole("length")),
        EfiFault::TooFar { index } => Some(Diagnostic::Far("descriptor", index)),
        EfiFault::Memory => None,
    }
}
