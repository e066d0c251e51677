//! Reads a whole early script.

ghost use Rattle.std.specs.Prelude.{◌≡◌, ℕ, ◌<◌, ◌^◌, length, All, Err, IfOk, IsOkAnd};
ghost use Rattle.bm_base.specs.Answers.{Answers};
ghost use Rattle.script_reader.specs.Forms.{HasBounds};
ghost use Rattle.script_reader.specs.Script.{script_fault_at, script_of};

use crate::act::{Act, Line};
use crate::fault::{ScriptFault, ScriptLineFault};
use crate::forms::act_by_name;
use crate::lines::{LinesError, ScriptLine, read_lines};
use std::alloc::Global;

impl ScriptLine for Line {
    ghost use Rattle.script_reader.specs.Forms.{HasBounds};
    ghost use Rattle.script_reader.specs.Script.{script_lines};

    type Act = Act;

    ghost kind = { script_lines };

    ghost IsWithinLimits = { λ line. HasBounds line.act };

    ghost MayBeWrong = { λ _. Unit {0} };

    fn by_name(seen: bool, name: &[u8], rest: &[u8]) -> Result<Act, ScriptLineFault> {
        act_by_name(seen, name, rest)
    }

    fn is_once(act: &Act) -> bool {
        matches!(act, Act::Sections)
    }

    fn new(number: u32, act: Act) -> Line {
        Line { number, act }
    }
}

/// Reads a script, and returns the lines that have a command, in their order.
///
/// Lines end with a newline, which the last one may lack. The bytes 0x20, 0x09 and 0x0D separate
/// words. A line has no command if it has no words, or its first word begins with `#`. There must
/// be fewer than 2^32 bytes.
///
/// # Errors
///
/// - The fault of the first line that has one. If that line has several, the first in the order of
///   [`ScriptFault`].
/// - `Memory`: no line has a fault and some line has a command, but the program ran out of memory.
pub fn read_script(alloc: Global, bytes: &[u8]) -> Result<Vec<Line>, ScriptFault>
    requires { length bytes.now < 2 ^ 32 }
    ensures answers { Answers ScriptFault.Memory (λ lines. lines.items) result
        (script_of bytes.now) }
    ensures memory { result ≡ Err ScriptFault.Memory →
        IsOkAnd (script_of bytes.now) (λ lines. 0 < length lines) }
    ensures bounds { IfOk result (λ lines. All (λ line. HasBounds line.act) lines.items) }
{
    match read_lines::<Line>(alloc, bytes) {
        Ok(lines) => Ok(lines),
        Err(LinesError::Faulty(line, wrong)) => Err(script_fault_at(line, wrong)),
        Err(LinesError::Memory) => Err(ScriptFault::Memory),
    }
}

/// Returns the fault of a script whose line with this number has the fault `wrong`.
pub fn script_fault_at(line: u32, wrong: ScriptLineFault) -> ScriptFault
    ensures { result ≡ script_fault_at line wrong }
{
    match wrong {
        ScriptLineFault::Form => ScriptFault::BadLine { line },
        ScriptLineFault::Number => ScriptFault::BadNumber { line },
        ScriptLineFault::Align => ScriptFault::BadAlign { line },
        ScriptLineFault::ZeroSize => ScriptFault::ZeroSize { line },
        ScriptLineFault::SecondSections => ScriptFault::SecondSections { line },
        ScriptLineFault::TooFar => ScriptFault::TooFar { line },
    }
}
