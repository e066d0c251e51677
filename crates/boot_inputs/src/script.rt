//! The early script as an input. A boot requires that its script places the sections at most once.
//! The contract of `read_script` doesn't say this; a law of `early_script` does.

ghost use Rattle.std.specs.Prelude.{◌≡◌, ◌≤◌, ℕ, IsErrOf, List};
ghost use Rattle.std.specs.Option.{option_map};
ghost use Rattle.boot_inputs.specs.Diagnostic.{diagnostic_view};
ghost use Rattle.boot_inputs.specs.Script.{script_diagnostic, script_file};
ghost use Rattle.script_reader.specs.Script.{script_of};

use crate::fault::{Diagnostic, Fault, Misread};
use crate::input::Input;
use crate::reader::Reader;
use boot_model::Inputs;
use early_script::scripts_place_sections_once;
use script_reader::{ScriptFault, read_script};
use std::alloc::Global;

/// Reads an early script, and puts its lines into the inputs.
pub struct Scripts;

impl Reader for Scripts {
    ghost file = { script_file };

    fn input() -> Input {
        Input::Script
    }

    fn limit() -> u64 {
        1_048_576
    }

    fn read(alloc: Global, bytes: &[u8], inputs: &mut Inputs) -> Result<(), Misread> {
        scripts_place_sections_once();
        match read_script(alloc, bytes) {
            Ok(lines) => {
                inputs.lines = lines;
                Ok(())
            }
            Err(ScriptFault::Memory) => Err(Misread::Memory),
            Err(fault) => Err(Misread::Fault(Fault::Script(fault))),
        }
    }

    fn exhaustion_is_no_fault() {
        exhaustion_is_no_script_fault();
    }
}

/// Law: "out of memory" is never a fault of a script's contents.
pub fn exhaustion_is_no_script_fault()
    ensures { (bytes : List ℕ) → ¬ IsErrOf (script_of bytes) ScriptFault.Memory }
{}

/// Returns what the fault's error line says after `script: `, such as `line 2: alignment`. Returns
/// `None` only for `Memory`, which isn't a fault of the file's contents.
pub(crate) fn script_diagnostic(fault: ScriptFault) -> Option<Diagnostic>
    ensures { option_map diagnostic_view result ≡ script_diagnostic fault }
{
    match fault {
        ScriptFault::BadLine { line } => Some(Diagnostic::Line(line, "form")),
        ScriptFault::BadNumber { line } => Some(Diagnostic::Line(line, "number")),
        ScriptFault::BadAlign { line } => Some(Diagnostic::Line(line, "alignment")),
        ScriptFault::ZeroSize { line } => Some(Diagnostic::Line(line, "zero size")),
        ScriptFault::SecondSections { line } => Some(Diagnostic::Line(line, "second sections")),
        ScriptFault::TooFar { line } => Some(Diagnostic::Line(line, "too far")),
        ScriptFault::Memory => None,
    }
}
