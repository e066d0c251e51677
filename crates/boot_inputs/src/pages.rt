//! The page script as an input: requests to the page allocator, which run after the boot.

ghost use Rattle.std.specs.Prelude.{◌≡◌, ◌≤◌, ℕ, IsErrOf, List};
ghost use Rattle.std.specs.Option.{option_map};
ghost use Rattle.boot_inputs.specs.Diagnostic.{diagnostic_view};
ghost use Rattle.boot_inputs.specs.Pages.{pages_diagnostic, pages_file};
ghost use Rattle.page_alloc.specs.Reading.{page_lines_of};

use crate::fault::{Diagnostic, Fault, Misread};
use crate::input::Input;
use crate::reader::Reader;
use boot_model::Inputs;
use page_alloc::{PageFault, read_pages};
use std::alloc::Global;

/// Reads a page script, and puts its lines into the inputs.
pub struct PageScripts;

impl Reader for PageScripts {
    ghost file = { pages_file };

    fn input() -> Input {
        Input::Pages
    }

    fn limit() -> u64 {
        1_048_576
    }

    fn read(alloc: Global, bytes: &[u8], inputs: &mut Inputs) -> Result<(), Misread> {
        match read_pages(alloc, bytes) {
            Ok(lines) => {
                inputs.page_lines = lines;
                Ok(())
            }
            Err(PageFault::Memory) => Err(Misread::Memory),
            Err(fault) => Err(Misread::Fault(Fault::Pages(fault))),
        }
    }

    fn exhaustion_is_no_fault() {
        exhaustion_is_no_page_script_fault();
    }
}

/// Law: "out of memory" is never a fault of a page script's contents.
pub fn exhaustion_is_no_page_script_fault()
    ensures { (bytes : List ℕ) → ¬ IsErrOf (page_lines_of bytes) PageFault.Memory }
{}

/// Returns what the fault's error line says after `pages: `, such as `line 2: number`. Returns
/// `None` only for `Memory`, which isn't a fault of the file's contents.
pub(crate) fn pages_diagnostic(fault: PageFault) -> Option<Diagnostic>
    ensures { option_map diagnostic_view result ≡ pages_diagnostic fault }
{
    match fault {
        PageFault::BadLine { line } => Some(Diagnostic::Line(line, "form")),
        PageFault::BadNumber { line } => Some(Diagnostic::Line(line, "number")),
        PageFault::Memory => None,
    }
}
