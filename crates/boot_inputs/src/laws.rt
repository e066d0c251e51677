//! Laws about the meaning of the input files, for any bytes.

ghost use Rattle.std.specs.Prelude.{◌≡◌, All, None, Ok, Err};
ghost use Rattle.boot_inputs.specs.Faults.{HasErrorLine, FaultsHaveErrorLines};
ghost use Rattle.boot_inputs.specs.Inputs.{FileNames, input_files, inputs_of};
ghost use Rattle.program_end.specs.Program.{FileContents};
ghost use Rattle.boot_inputs.specs.WithClaims.{inputs_with_claims_of, without_claims};
ghost use Rattle.boot_inputs.specs.WithoutEfi.{HasMapWithoutEfi, IsBeforeFiles, LacksDescriptors, LacksEfiWord};
ghost use Rattle.boot_inputs.specs.declared.fault.Fault.{Fault as AnyFault};
ghost use Rattle.boot_inputs.specs.declared.input.Input.{Input as AnyInput};
ghost use Rattle.boot_inputs.specs.declared.input.Input.TheVariants as inputs;
ghost use Rattle.boot_model.specs.Boot.{InputsView};
ghost use Rattle.program_end.specs.declared.failure.Reason.TheVariants as reasons;

use crate::claims::exhaustion_is_no_claims_fault;
use crate::inputs::{BeforeClaims, ReadersFromPages, ReadersFromZeroPage};
use crate::list::Readers;

/// Law: "out of memory" is never a fault of an input file's contents. No file is ever refused for
/// this reason.
pub fn exhaustion_is_no_file_fault()
    ensures files { All FaultsHaveErrorLines input_files }
    ensures refused { (held : FileContents) (named : FileNames) (begun : InputsView)
        (input : AnyInput) (fault : AnyFault) →
        inputs_of held named begun ≡ Err (reasons.Faulty input fault) → HasErrorLine fault }
{
    ReadersFromZeroPage::exhaustion_is_no_fault_of_any();
}

/// Law: "out of memory" is never a fault of a file's contents for a program that also reads a file
/// of early claims.
pub fn exhaustion_is_no_fault_with_claims()
    ensures { (held : FileContents) (named : FileNames) (begun : InputsView)
        (input : AnyInput) (fault : AnyFault) →
        inputs_with_claims_of held named begun ≡ Err (reasons.Faulty input fault)
        → HasErrorLine fault }
{
    BeforeClaims::exhaustion_is_no_fault_of_any();
    exhaustion_is_no_claims_fault();
    ReadersFromPages::exhaustion_is_no_fault_of_any();
}

/// Law: without a name for the file of early claims, the inputs are those that `bootmem` reads, and
/// there are no early claims.
pub fn unnamed_claims_add_nothing()
    ensures { (held : FileContents) (named : FileNames) (begun : InputsView)
        → named inputs.Claims ≡ None
        → inputs_with_claims_of held named begun ≡ without_claims (inputs_of held named begun) }
{}

/// Law: the EFI memory map changes the boot's map only if a word of the command line has the name
/// `add_efi_memmap` and the file has descriptors. Otherwise the map is that of the same inputs
/// without the file (`do_add_efi_memmap`).
pub fn efi_map_needs_word_and_descriptors()
    ensures unasked { (held : FileContents) (named : FileNames) (begun given : InputsView)
        → IsBeforeFiles begun →
        inputs_of held named begun ≡ Ok given → LacksEfiWord held named
        → HasMapWithoutEfi held named begun given }
    ensures empty { (held : FileContents) (named : FileNames) (begun given : InputsView)
        → IsBeforeFiles begun →
        inputs_of held named begun ≡ Ok given → LacksDescriptors held named
        → HasMapWithoutEfi held named begun given }
{}
