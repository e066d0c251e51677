//! Reads a whole script of any kind: its lines one after another, up to the first that has a fault.
//!
//! Only the list of lines allocates. If memory runs out, the rest of the script is still read, so
//! that a fault in any line is found.

ghost use Rattle.std.specs.Prelude.{◌≡◌, ℕ, ◌<◌, ◌^◌, ◌++◌, length, All, option_to_list, Err, IfOk, IfErr, IsErr, IsSome, IfSome, IsOkAnd, ◌⊎◌};
ghost use Rattle.bm_base.specs.Answers.{Answers};
ghost use Rattle.bm_base.specs.ResultSteps.{map_error};
ghost use Rattle.text_words.specs.Words.{words_in};
ghost use Rattle.text_words.specs.declared.separators.Separators.TheVariants as separators;
ghost use Rattle.script_reader.specs.Lines.{ScriptKind, IsAllowedError, read_line, has_once_command, script_line_at as line_of, lines_of};

use crate::fault::ScriptLineFault;
use crate::words::is_comment;
use bm_base::Memory;
use std::alloc::Global;
use text_words::{Separators, next_part, next_word};

/// The type of the lines that have a command, for one kind of script. It defines which commands the
/// kind has, how they are written, and which of them may occur only once.
pub trait ScriptLine: Copy {
    ghost use Rattle.script_reader.specs.declared.fault.ScriptLineFault.{ScriptLineFault};

    type Act: Copy;

    // `kind` defines the forms of the lines. `IsWithinLimits` holds for each line that is read.
    // `MayBeWrong` holds for each fault that a line can have.
    ghost kind: { ScriptKind Self.Act Self };

    ghost IsWithinLimits: { Self → Type 0 };

    ghost MayBeWrong: { ScriptLineFault → Type 0 };

    /// Returns the command of a line. `name` is its first word, and `rest` the text after that
    /// word. `seen` is true if an earlier line has a command that may occur only once.
    ///
    /// # Errors
    ///
    /// - `Form`: there is no command of this name, or the words don't have its form.
    /// - Any other fault of the words.
    fn by_name(seen: bool, name: &[u8], rest: &[u8]) -> Result<Self::Act, ScriptLineFault>
        ensures value { result ≡ kind.forms seen name.now (words_in separators.Script rest.now) }
        ensures limits { IfOk result (λ act. (number : ℕ) → IsWithinLimits (kind.line number act)) }
        ensures wrong { IfErr result MayBeWrong };

    /// Tests whether the command may occur only once in a script.
    fn is_once(act: &Self::Act) -> bool
        ensures { result ≡ kind.is_once act.now };

    /// Returns the line with this number and this command.
    fn new(number: u32, act: Self::Act) -> Self
        ensures { result ≡ kind.line number act };
}

/// The reason why a script can't be read.
#[derive(Clone, Copy, Debug, PartialEq, Eq)]
pub enum LinesError {
    /// The number of the first line that has a fault, counted from 1, and what is wrong with that
    /// line.
    Faulty(u32, ScriptLineFault),
    /// The program ran out of memory. This is returned only if no line has a fault.
    Memory,
}

impl From<Memory> for LinesError {
    ghost use Rattle.std.specs.Prelude.{◌≡◌};
    ghost use Rattle.script_reader.specs.declared.lines.LinesError.TheVariants as unread;

    ghost from_gives = { λ _ fault. fault ≡ unread.Memory };

    fn from(_memory: Memory) -> LinesError {
        LinesError::Memory
    }
}

/// Reads a script, and returns the lines that have a command, in their order.
///
/// Lines end with a newline, which the last one may lack. The bytes 0x20, 0x09 and 0x0D separate
/// words. A line has no command if it has no words, or its first word begins with `#`. There must
/// be fewer than 2^32 bytes.
///
/// # Errors
///
/// - `Faulty`: some line has a fault. The error has the number of the first such line, and the
///   first fault of that line.
/// - `Memory`: no line has a fault and some line has a command, but the program ran out of memory.
pub fn read_lines<L: ScriptLine>(alloc: Global, bytes: &[u8]) -> Result<Vec<L>, LinesError>
    requires { length bytes.now < 2 ^ 32 }
    ensures answers { Answers LinesError.Memory (λ lines. lines.items) result
        (map_error (λ at. LinesError.Faulty at.0 at.1) (lines_of L.kind bytes.now)) }
    ensures memory { result ≡ Err LinesError.Memory →
        IsOkAnd (lines_of L.kind bytes.now) (λ lines. 0 < length lines) }
    ensures limits { IfOk result (λ lines. All L.IsWithinLimits lines.items) }
    ensures wrong { IfErr result (IsAllowedError L.MayBeWrong) }
{
    let mut lines = Ok(Vec::new(alloc));
    let mut seen = false;
    let mut number: u64 = 1;
    let mut rest = Some(bytes);
    while let Some(text) = rest {
        let (text, after) = next_part(text, Separators::Byte(b'\n'));
        let act = match read_line::<L>(seen, text) {
            Ok(act) => act,
            Err(wrong) => return Err(LinesError::Faulty(number as u32, wrong)),
        };
        seen = has_once_command::<L>(seen, &act);
        lines = append_line(lines, script_line_at::<L>(number, act));
        number += 1;
        rest = after;
    }
    Ok(lines?)
}

/// Returns the command of a line, or `None` if the line has no words or is a comment. `seen` is
/// true if an earlier line has a command that may occur only once.
///
/// # Errors
///
/// - The first fault of the line, in the order of [`ScriptLineFault`].
fn read_line<L: ScriptLine>(seen: bool, text: &[u8]) -> Result<Option<L::Act>, ScriptLineFault>
    ensures value { result ≡ read_line L.kind seen text.now }
    ensures limits { IfOk result (λ act. IfSome act
        (λ act. (number : ℕ) → L.IsWithinLimits (L.kind.line number act))) }
    ensures wrong { IfErr result L.MayBeWrong }
    ensures some { IfOk result (λ act. IfSome act (λ _. 0 < length text.now)) }
    ensures words { IfErr result (λ _. 0 < length text.now) }
{
    let Some((name, rest)) = next_word(text, Separators::Script) else {
        return Ok(None);
    };
    if is_comment(name) {
        return Ok(None);
    }
    Ok(Some(L::by_name(seen, name, rest)?))
}

/// Tests whether this line or an earlier one has the command that may occur only once. `act` is the
/// command of this line, and `seen` is true if an earlier line has it.
fn has_once_command<L: ScriptLine>(seen: bool, act: &Option<L::Act>) -> bool
    ensures { result ≡ has_once_command L.kind seen act.now }
{
    match act {
        Some(act) => seen || L::is_once(act),
        None => seen,
    }
}

/// Returns the line with this number and command, or `None` if it has no command.
fn script_line_at<L: ScriptLine>(number: u64, act: Option<L::Act>) -> Option<L>
    requires { IfSome act (λ _. number < 2 ^ 32) }
    ensures { result ≡ line_of L.kind number act }
{
    match act {
        Some(act) => Some(L::new(number as u32, act)),
        None => None,
    }
}

/// Appends a line, if there is one, to the lines read so far.
///
/// # Errors
///
/// - `Memory`: the program ran out of memory, either for this line or for an earlier one.
fn append_line<L: Copy>(lines: Result<Vec<L>, Memory>, line: Option<L>) -> Result<Vec<L>, Memory>
    ensures line { IfOk result (λ kept. IsOkAnd lines
        (λ before. kept.items ≡ before.items ++ option_to_list line)) }
    ensures memory { IsErr result → IsErr lines ⊎ IsSome line }
{
    let mut lines = lines?;
    if let Some(line) = line {
        lines.push(line)?;
    }
    Ok(lines)
}
