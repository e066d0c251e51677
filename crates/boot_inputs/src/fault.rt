//! What is wrong with the contents of an input file, in one type for all files. Each crate that
//! reads a file has its own type of faults; [`Fault`] holds any of them. Out of memory is never a
//! fault of a file's contents (`exhaustion_is_no_file_fault`); [`Misread`] reports it separately.

ghost use Rattle.std.specs.Prelude.{◌≡◌};
ghost use Rattle.std.specs.Option.{option_map};
ghost use Rattle.boot_inputs.specs.Diagnostic.{diagnostic_view};
ghost use Rattle.boot_inputs.specs.Faults.{diagnostic_of};

use crate::command_line::command_line_diagnostic;
use crate::efi::efi_diagnostic;
use crate::extension::extension_diagnostic;
use crate::input::Input;
use crate::pages::pages_diagnostic;
use crate::script::script_diagnostic;
use crate::slit::slit_diagnostic;
use crate::srat::srat_diagnostic;
use crate::zero_page::zero_page_diagnostic;
use boot_model::Cause;
use boot_options::OptionFault;
use e820_table::{ExtFault, ZeroFault};
use efi_map::EfiFault;
use page_alloc::PageFault;
use script_reader::ScriptFault;
use slit_zonelists::SlitFault;
use srat_reader::SratFault;

/// Why the program prints no report: its command line is refused, an input file can't be read or
/// has a fault, or the boot stops.
pub type InputsReason = program_end::Reason<Input, Fault, Cause>;

/// Why there are no inputs: an [`InputsReason`], or out of memory.
pub type NoInputs = program_end::NoResult<InputsReason>;

/// What is wrong with an input file, as its error line says it: `word 3: memmap` in `bootmem:
/// cmdline: word 3: memmap`.
#[derive(Clone, Copy, Debug, PartialEq, Eq)]
pub enum Diagnostic {
    /// What is wrong with the whole file.
    Whole(&'static str),
    /// An entry or a descriptor whose address plus size exceeds 2^64 - 1: the word `entry` or
    /// `descriptor`, and its index, from 0.
    Far(&'static str, u32),
    /// The number of a word of the command line, from 1, and the option that is malformed.
    Word(u32, &'static str),
    /// The number of a line, from 1, and what is wrong with it.
    Line(u32, &'static str),
    /// What is wrong, and at which offset in the file, in bytes.
    Offset(&'static str, u32),
}

/// What is wrong with the contents of an input file. Out of memory is reported separately, never as
/// a fault.
#[derive(Clone, Copy, Debug, PartialEq, Eq)]
pub enum Fault {
    /// The file has more bytes than its limit.
    TooLong,
    /// A fault of the zero page.
    ZeroPage(ZeroFault),
    /// A fault of the E820 extension.
    Extension(ExtFault),
    /// A fault of the kernel's command line.
    CommandLine(OptionFault),
    /// A fault of the SRAT.
    Srat(SratFault),
    /// A fault of the early script, or of the file of early claims.
    Script(ScriptFault),
    /// A fault of the page script.
    Pages(PageFault),
    /// A fault of the SLIT.
    Slit(SlitFault),
    /// A fault of the EFI memory map.
    Efi(EfiFault),
}

impl Fault {
    /// Returns what the fault's error line says is wrong: `word 3: memmap` in `bootmem: cmdline:
    /// word 3: memmap`. Returns `None` only for the variant `Memory` of a reader's fault, which no
    /// file has (`exhaustion_is_no_file_fault`).
    pub fn diagnostic(self) -> Option<Diagnostic>
        ensures { option_map diagnostic_view result ≡ diagnostic_of self }
    {
        match self {
            Fault::TooLong => Some(Diagnostic::Whole("too long")),
            Fault::ZeroPage(fault) => Some(zero_page_diagnostic(fault)),
            Fault::Extension(fault) => extension_diagnostic(fault),
            Fault::CommandLine(fault) => command_line_diagnostic(fault),
            Fault::Srat(fault) => srat_diagnostic(fault),
            Fault::Script(fault) => script_diagnostic(fault),
            Fault::Pages(fault) => pages_diagnostic(fault),
            Fault::Slit(fault) => slit_diagnostic(fault),
            Fault::Efi(fault) => efi_diagnostic(fault),
        }
    }
}

/// The reason why a reader returns no value for the bytes of a file.
#[derive(Clone, Copy, Debug, PartialEq, Eq)]
pub enum Misread {
    /// The first fault of the bytes.
    Fault(Fault),
    /// The program ran out of memory.
    Memory,
}
