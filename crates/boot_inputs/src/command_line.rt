//! The kernel's command line as an input. The boot gets the options that it sets, but not its text.

ghost use Rattle.std.specs.Prelude.{◌≡◌, ◌≤◌, ℕ, IsErrOf, List};
ghost use Rattle.std.specs.Option.{option_map};
ghost use Rattle.boot_inputs.specs.Diagnostic.{diagnostic_view};
ghost use Rattle.boot_inputs.specs.CommandLine.{command_line, command_line_diagnostic};
ghost use Rattle.boot_options.specs.Options.{options_of};

use crate::fault::{Diagnostic, Fault, Misread};
use crate::input::Input;
use crate::reader::Reader;
use boot_model::Inputs;
use boot_options::{OptionFault, read_options};
use std::alloc::Global;

/// Reads the kernel's command line, and puts its options into the inputs.
pub struct CommandLines;

impl Reader for CommandLines {
    ghost file = { command_line };

    fn input() -> Input {
        Input::CommandLine
    }

    fn limit() -> u64 {
        4096
    }

    fn read(alloc: Global, bytes: &[u8], inputs: &mut Inputs) -> Result<(), Misread> {
        match read_options(alloc, bytes) {
            Ok(options) => {
                inputs.options = options;
                Ok(())
            }
            Err(OptionFault::Memory) => Err(Misread::Memory),
            Err(fault) => Err(Misread::Fault(Fault::CommandLine(fault))),
        }
    }

    fn exhaustion_is_no_fault() {
        memory_is_no_command_line_fault();
    }
}

/// Law: "out of memory" is never a fault of a command line's contents.
pub fn memory_is_no_command_line_fault()
    ensures { (bytes : List ℕ) → ¬ IsErrOf (options_of bytes) OptionFault.Memory }
{}

/// Returns what the fault's error line says after `cmdline: `, such as `word 3: memmap`. Returns
/// `None` only for `Memory`, which isn't a fault of the file's contents.
pub(crate) fn command_line_diagnostic(fault: OptionFault) -> Option<Diagnostic>
    ensures { option_map diagnostic_view result ≡ command_line_diagnostic fault }
{
    match fault {
        OptionFault::TooLong => Some(Diagnostic::Whole("line too long")),
        OptionFault::OpenQuote => Some(Diagnostic::Whole("open quote")),
        OptionFault::BadMem { word } => Some(Diagnostic::Word(word, "mem")),
        OptionFault::BadMemmap { word } => Some(Diagnostic::Word(word, "memmap")),
        OptionFault::BadCrash { word } => Some(Diagnostic::Word(word, "crashkernel")),
        OptionFault::UserMapInvalid { word } => Some(Diagnostic::Word(word, "user map")),
        OptionFault::BadNuma { word } => Some(Diagnostic::Word(word, "numa")),
        OptionFault::Memory => None,
    }
}
