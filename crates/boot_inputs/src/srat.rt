//! The ACPI table SRAT, which has the proximity domains of processors and ranges of memory, as an
//! input. The boot distinguishes a table without ranges of memory (the report `nodes` prints `no
//! blocks`) from a missing table (`absent`).

ghost use Rattle.std.specs.Prelude.{◌≡◌, ◌≤◌, ℕ, length, IsErrOf, List};
ghost use Rattle.std.specs.Option.{option_map};
ghost use Rattle.boot_inputs.specs.Diagnostic.{diagnostic_view};
ghost use Rattle.boot_inputs.specs.Srat.{srat_diagnostic, srat_file};
ghost use Rattle.srat_reader.specs.Table.{srat_of};

use crate::fault::{Diagnostic, Fault, Misread};
use crate::input::Input;
use crate::reader::Reader;
use boot_model::Inputs;
use srat_reader::{SratFault, read_srat};
use std::alloc::Global;

/// Reads an SRAT, and puts its processors and ranges of memory into the inputs.
pub struct Srats;

impl Reader for Srats {
    ghost file = { srat_file };

    fn input() -> Input {
        Input::Srat
    }

    fn limit() -> u64 {
        1_048_576
    }

    fn read(alloc: Global, bytes: &[u8], inputs: &mut Inputs) -> Result<(), Misread> {
        match read_srat(alloc, bytes) {
            Ok(srat) => {
                inputs.srat = Some(srat);
                Ok(())
            }
            Err(SratFault::Memory) => Err(Misread::Memory),
            Err(fault) => Err(Misread::Fault(Fault::Srat(fault))),
        }
    }

    fn exhaustion_is_no_fault() {
        exhaustion_is_no_srat_fault();
    }
}

/// Law: "out of memory" is never a fault of an SRAT's contents.
pub fn exhaustion_is_no_srat_fault()
    ensures { (bytes : List ℕ) → ¬ IsErrOf (srat_of bytes) SratFault.Memory }
{}

/// Returns what the fault's error line says after `srat: `, such as `entry length at 48`. Returns
/// `None` only for `Memory`, which isn't a fault of the file's contents.
pub(crate) fn srat_diagnostic(fault: SratFault) -> Option<Diagnostic>
    ensures { option_map diagnostic_view result ≡ srat_diagnostic fault }
{
    match fault {
        SratFault::Short => Some(Diagnostic::Whole("short")),
        SratFault::Signature => Some(Diagnostic::Whole("signature")),
        SratFault::Length => Some(Diagnostic::Whole("length")),
        SratFault::Checksum => Some(Diagnostic::Whole("checksum")),
        SratFault::EntryLength { offset } => Some(Diagnostic::Offset("entry length", offset)),
        SratFault::BlockTooFar { offset } => Some(Diagnostic::Offset("block too far", offset)),
        SratFault::Memory => None,
    }
}
