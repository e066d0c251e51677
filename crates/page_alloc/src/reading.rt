//! Reads whole page scripts.

ghost use Rattle.std.specs.Prelude.{◌≡◌, ◌<◌, ◌^◌, length, Err, IfOk, IsOkAnd};
ghost use Rattle.bm_base.specs.Answers.{Answers};
ghost use Rattle.script_reader.specs.Numbers.{IsWordFault};
ghost use Rattle.page_alloc.specs.Pages.{HaveValidOrders};
ghost use Rattle.page_alloc.specs.Reading.{page_script_fault_at, page_lines_of};

use crate::act::{PageAct, PageLine};
use crate::forms::page_act_by_name;
use script_reader::{LinesError, ScriptLine, ScriptLineFault, read_lines};
use std::alloc::Global;

/// The reason why a page script is refused. `line` is the number of the lowest line that has a
/// fault, from 1 on. If that line has both faults, the first of this list is reported.
#[derive(Clone, Copy, Debug, PartialEq, Eq)]
pub enum PageFault {
    /// The words of the line don't have the form of a command, whatever its numbers are.
    BadLine { line: u32 },
    /// A word isn't entirely a number, or the number is above its limit: 2^32 - 1 for an ID, 10
    /// for an order, 1,023 for a node.
    BadNumber { line: u32 },
    /// The program ran out of memory. This is returned only if no line has a fault.
    Memory,
}

impl ScriptLine for PageLine {
    ghost use Rattle.script_reader.specs.Numbers.{IsWordFault};
    ghost use Rattle.page_alloc.specs.Pages.{HasValidOrder};
    ghost use Rattle.page_alloc.specs.Reading.{page_lines};

    type Act = PageAct;

    ghost kind = { page_lines };

    ghost IsWithinLimits = { λ line. HasValidOrder line.act };

    ghost MayBeWrong = { IsWordFault };

    fn by_name(_seen: bool, name: &[u8], rest: &[u8]) -> Result<PageAct, ScriptLineFault> {
        page_act_by_name(name, rest)
    }

    fn is_once(_act: &PageAct) -> bool {
        false
    }

    fn new(number: u32, act: PageAct) -> PageLine {
        PageLine { number, act }
    }
}

/// Reads a page script, and returns the lines that have a command, in their order.
///
/// Lines end with a newline, which the last one may lack. The bytes 0x20, 0x09 and 0x0D separate
/// words. A line has no command if it has no words, or its first word begins with `#`. The script
/// must have fewer than 2^32 bytes.
///
/// # Errors
///
/// - The fault of the lowest line that has one. If that line has both faults, the first in the
///   order of [`PageFault`].
/// - `Memory`: no line has a fault and some line has a command, but the program ran out of memory.
pub fn read_pages(alloc: Global, bytes: &[u8]) -> Result<Vec<PageLine>, PageFault>
    requires { length bytes.now < 2 ^ 32 }
    ensures answers { Answers PageFault.Memory (λ lines.
        lines.items) result (page_lines_of bytes.now) }
    ensures memory { result ≡ Err PageFault.Memory →
        IsOkAnd (page_lines_of bytes.now) (λ lines. 0 < length lines) }
    ensures orders { IfOk result (λ lines. HaveValidOrders lines.items) }
{
    match read_lines::<PageLine>(alloc, bytes) {
        Ok(lines) => Ok(lines),
        Err(LinesError::Faulty(line, wrong)) => Err(page_script_fault_at(line, wrong)),
        Err(LinesError::Memory) => Err(PageFault::Memory),
    }
}

/// Returns the fault of a script whose line number `line` has the fault `wrong`, which must be
/// `Form` or `Number`.
fn page_script_fault_at(line: u32, wrong: ScriptLineFault) -> PageFault
    requires { IsWordFault wrong }
    ensures { result ≡ page_script_fault_at line wrong }
{
    match wrong {
        ScriptLineFault::Form => PageFault::BadLine { line },
        ScriptLineFault::Number => PageFault::BadNumber { line },
        _ => unreachable!(),
    }
}
