//! The file of early claims: a script without the command `sections`, which runs before memory gets
//! its nodes. The boot gets the lines of this file separately from its inputs (`Extra` of
//! `boot_model`). So the file has no [`Reader`](crate::Reader), since a reader puts its value into
//! the inputs.

ghost use Rattle.std.specs.Prelude.{◌≡◌, ◌<◌, ◌≤◌, ◌^◌, ℕ, length, map, Err, IfErr, IfOk, IfSome, IsErr, IsErrOf, IsNone, IsOk, IsOkAnd, List, Option};
ghost use Rattle.bm_base.specs.Answers.{Answers};
ghost use Rattle.boot_model.specs.Facts.{HaveBounds, HaveNoSections};
ghost use Rattle.early_script.specs.Effects.{CanBeRun};
ghost use Rattle.program_end.specs.Causes.{IsErrorOfInput, IsFileError};
ghost use Rattle.program_end.specs.Fetches.{Fetches};
ghost use Rattle.script_reader.specs.Forms.{HasBounds};
ghost use Rattle.text_words.specs.Words.{words_in};
ghost use Rattle.text_words.specs.declared.separators.Separators.TheVariants as separators;
ghost use Rattle.boot_inputs.specs.Claims.{claim_by_name, claims_limit, claims_of, claims_of_file, claims_or_fault};
ghost use Rattle.boot_inputs.specs.Input.{input_place};
ghost use Rattle.boot_inputs.specs.Inputs.{answer_or_faulty_file, value_of_named_file};
ghost use Rattle.boot_inputs.specs.declared.input.Input.{Input as AnyInput};

use crate::fault::{Fault, InputsReason, NoInputs};
use crate::fetching::{Names, fetch_bytes};
use crate::input::Input;
use bm_base::Memory;
use bm_io::Files;
use script_reader::{
    Act, Line, LinesError, ScriptFault, ScriptLine, ScriptLineFault, read_lines, script_fault_at,
};
use std::alloc::Global;

/// The largest number of bytes that the file may have: 1 MiB.
const CLAIMS_LIMIT: u64 = 1_048_576;

/// A line of early claims, which is a line of a script other than `sections`.
#[derive(Clone, Copy)]
struct ClaimLine {
    line: Line,
}

impl ScriptLine for ClaimLine {
    ghost use Rattle.early_script.specs.Effects.{CanBeRun};
    ghost use Rattle.script_reader.specs.Forms.{HasBounds};
    ghost use Rattle.boot_inputs.specs.ClaimLines.{claim_lines_by_reader};

    type Act = Act;

    ghost kind = { claim_lines_by_reader };

    ghost IsWithinLimits = { λ claim. HasBounds claim.line.act × CanBeRun claim.line.act };

    ghost MayBeWrong = { λ _. Unit {0} };

    fn by_name(_seen: bool, name: &[u8], rest: &[u8]) -> Result<Act, ScriptLineFault> {
        claim_by_name(name, rest)
    }

    fn is_once(_act: &Act) -> bool {
        false
    }

    fn new(number: u32, act: Act) -> ClaimLine {
        ClaimLine {
            line: Line { number, act },
        }
    }
}

/// Returns the command of a line. `name` is the first word of the line, and `rest` the text after
/// it.
///
/// # Errors
///
/// - `Form`: the line is `sections`, there is no command `name`, or `rest` doesn't have the form
///   that the command requires.
/// - `Number`, `Align`, `ZeroSize` or `TooFar`: a number of the line is refused, as in a script.
fn claim_by_name(name: &[u8], rest: &[u8]) -> Result<Act, ScriptLineFault>
    ensures value { result ≡ claim_by_name name.now (words_in separators.Script rest.now) }
    ensures bounds { IfOk result HasBounds }
    ensures run { IfOk result CanBeRun }
{
    if name == b"sections".as_slice() {
        return Err(ScriptLineFault::Form);
    }
    <Line as ScriptLine>::by_name(false, name, rest)
}

/// Reads `bytes`, the contents of a file of early claims, and returns the lines that have a
/// command, in their order. There must be fewer than 2^32 bytes.
///
/// # Errors
///
/// - the fault of the first line that has one; a line `sections` has the fault `BadLine`
/// - `Memory`: no line has a fault and some line has a command, but the program ran out of memory.
pub fn read_claims(alloc: Global, bytes: &[u8]) -> Result<Vec<Line>, ScriptFault>
    requires { length bytes.now < 2 ^ 32 }
    ensures answers { Answers ScriptFault.Memory (λ lines. lines.items) result
        (claims_of bytes.now) }
    ensures memory { result ≡ Err ScriptFault.Memory →
        IsOkAnd (claims_of bytes.now) (λ lines. 0 < length lines) }
    ensures bounds { IfOk result (λ lines. HaveBounds lines.items) }
    ensures no_sections { IfOk result (λ lines. HaveNoSections lines.items) }
{
    match read_lines::<ClaimLine>(alloc, bytes) {
        Ok(claims) => match lines_of_claims(alloc, &claims) {
            Ok(lines) => Ok(lines),
            Err(Memory) => Err(ScriptFault::Memory),
        },
        Err(LinesError::Faulty(line, wrong)) => Err(script_fault_at(line, wrong)),
        Err(LinesError::Memory) => Err(ScriptFault::Memory),
    }
}

/// Returns early claims as lines of a script.
///
/// # Errors
///
/// - `Memory`: there is a line, but the program ran out of memory.
fn lines_of_claims(alloc: Global, claims: &[ClaimLine]) -> Result<Vec<Line>, Memory>
    ensures lines { IfOk result (λ lines. lines.items ≡ map (λ claim. claim.line) claims.now) }
    ensures memory { IsErr result → 0 < length claims.now }
{
    let mut lines = Vec::new(alloc);
    for claim in claims {
        lines.push(claim.line)?;
    }
    Ok(lines)
}

/// Fetches and reads the file of early claims, and returns its lines. Fetches nothing and returns
/// no lines if the file has no name. `Unread` and `Faulty` name the input `Claims`.
///
/// # Errors
///
/// - `Unread`: the file couldn't be fetched
/// - `Faulty`: the file is longer than its limit, or a line has a fault
/// - out of memory
pub(crate) fn fetch_claims<F: Files, N: Names>(
    alloc: Global,
    files: &mut F,
    names: &N,
) -> Result<Vec<Line>, NoInputs>
    ensures fetches { IfSome (F.holds files.old) (λ held.
        Fetches input_place (λ lines. lines.items) result
        (claims_of_file held (N.named names.now))) }
    ensures cause { IfErr result
        (IsFileError (F.faults files.old) (F.faults files.new) (N.named names.now)) }
    ensures own { IfErr result (IsErrorOfInput Input.Claims) }
    ensures unnamed { IsNone (N.named names.now Input.Claims) → IsOk result }
    ensures unfetched { IsNone (N.named names.now Input.Claims) → files.new ≡ files.old }
    ensures kept { F.holds files.new ≡ F.holds files.old }
    ensures faults_stay { (any : List ℕ) → F.faults files.old any ≤ F.faults files.new any }
    ensures bounds { IfOk result (λ lines. HaveBounds lines.items) }
    ensures no_sections { IfOk result (λ lines. HaveNoSections lines.items) }
{
    match names.of(Input::Claims) {
        Some(name) => {
            let bytes = fetch_bytes(alloc, files, name, Input::Claims, CLAIMS_LIMIT)?;
            claims_or_reason(alloc, &bytes)
        }
        None => Ok(Vec::new(alloc)),
    }
}

/// Returns the lines of early claims in `bytes`, the contents of the file.
///
/// # Errors
///
/// - `Faulty` with the input `Claims`: a line has a fault
/// - out of memory
fn claims_or_reason(alloc: Global, bytes: &[u8]) -> Result<Vec<Line>, NoInputs>
    requires { length bytes.now ≤ claims_limit }
    ensures fetches { Fetches input_place (λ lines. lines.items) result
        (answer_or_faulty_file Input.Claims (claims_or_fault bytes.now)) }
    ensures cause { (before now : List ℕ → ℕ) (named : AnyInput → Option (List ℕ))
        → IfErr result (IsFileError before now named) }
    ensures own { IfErr result (IsErrorOfInput Input.Claims) }
    ensures bounds { IfOk result (λ lines. HaveBounds lines.items) }
    ensures no_sections { IfOk result (λ lines. HaveNoSections lines.items) }
{
    match read_claims(alloc, bytes) {
        Ok(lines) => Ok(lines),
        Err(ScriptFault::Memory) => Err(NoInputs::Memory),
        Err(fault) => Err(NoInputs::Reason(InputsReason::Faulty(
            Input::Claims,
            Fault::Script(fault),
        ))),
    }
}

/// Law: "out of memory" is never a fault of the contents of a file of early claims.
pub fn exhaustion_is_no_claims_fault()
    ensures { (bytes : List ℕ) → ¬ IsErrOf (claims_of bytes) ScriptFault.Memory }
{}
