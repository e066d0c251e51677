//! Reads one input file in three steps: looks up its name, fetches it, and reads its bytes.

ghost use Rattle.std.specs.Prelude.{◌≡◌, ℕ, ◌≤◌, List, length, Option, Some, IfErr, IfOk, IfSome, IsNone, IsOk};
ghost use Rattle.boot_model.specs.View.{inputs_view};
ghost use Rattle.program_end.specs.Causes.{IsErrorOfInput, IsFileError};
ghost use Rattle.program_end.specs.Fetches.{Fetches};
ghost use Rattle.boot_inputs.specs.Input.{input_place};
ghost use Rattle.boot_inputs.specs.declared.input.Input.{Input as AnyInput};
ghost use Rattle.boot_inputs.specs.Inputs.{answer_or_faulty_file, bytes_of_named_file, inputs_after_file, inputs_after_named_file};
ghost use Rattle.std.specs.Option.{option_copied};

use crate::fault::{Fault, InputsReason, Misread, NoInputs};
use crate::input::Input;
use crate::reader::Reader;
use bm_io::{Fetch, Files};
use boot_model::Inputs;
use std::alloc::Global;

/// The names of the input files, such as those given on the program's command line.
pub trait Names {
    // The name of the input's file, if there is one.
    ghost named: { Self → AnyInput → Option (List ℕ) };

    /// Returns the name of the input's file, if there is one.
    fn of(&self, input: Input) -> Option<&str>
        ensures { option_copied result ≡ named self.now input };
}

/// Fetches and reads one input file, and puts its value into the inputs. Changes nothing and
/// allocates nothing if the file has no name. `Unread` and `Faulty` name the input of the reader
/// `R`.
///
/// # Errors
///
/// - `Unread`: the file couldn't be fetched
/// - `Faulty`: the file is longer than its limit, or its bytes have a fault
/// - out of memory
pub fn add_file<R: Reader, F: Files, N: Names>(
    alloc: Global,
    files: &mut F,
    names: &N,
    inputs: &mut Inputs,
) -> Result<(), NoInputs>
    ensures fetches { IfSome (F.holds files.old) (λ held.
        Fetches input_place (λ done. inputs_view inputs.new) result
        (inputs_after_file held (N.named names.now) R.file (inputs_view inputs.old))) }
    ensures cause { IfErr result
        (IsFileError (F.faults files.old) (F.faults files.new) (N.named names.now)) }
    ensures own { IfErr result (IsErrorOfInput R.file.input) }
    ensures unnamed { IsNone (N.named names.now R.file.input) → IsOk result }
    ensures unfetched { IsNone (N.named names.now R.file.input) → files.new ≡ files.old }
    ensures kept { F.holds files.new ≡ F.holds files.old }
    ensures faults_stay { (any : List ℕ) → F.faults files.old any ≤ F.faults files.new any }
{
    match names.of(R::input()) {
        Some(name) => fetch::<R, F>(alloc, files, name, inputs),
        None => Ok(()),
    }
}

/// Fetches the file `name`, reads it, and puts its value into the inputs.
///
/// # Errors
///
/// - `Unread`: the file couldn't be fetched
/// - `Faulty`: the file is longer than its limit, or its bytes have a fault
/// - out of memory
fn fetch<R: Reader, F: Files>(
    alloc: Global,
    files: &mut F,
    name: &str,
    inputs: &mut Inputs,
) -> Result<(), NoInputs>
    ensures fetches { IfSome (F.holds files.old) (λ held.
        Fetches input_place (λ done. inputs_view inputs.new) result
        (inputs_after_named_file held R.file (inputs_view inputs.old) name.now)) }
    ensures cause { IfErr result
        (IsFileError (F.faults files.old) (F.faults files.new) (λ input. Some name.now)) }
    ensures own { IfErr result (IsErrorOfInput R.file.input) }
    ensures kept { F.holds files.new ≡ F.holds files.old }
    ensures faults_stay { (any : List ℕ) → F.faults files.old any ≤ F.faults files.new any }
{
    let bytes = fetch_bytes(alloc, files, name, R::input(), R::limit())?;
    read::<R>(alloc, &bytes, inputs)
}

/// Returns the bytes of the file `name`, of which there may be at most `limit`. `Unread` and
/// `Faulty` name `input`.
///
/// # Errors
///
/// - `Unread`: the file couldn't be fetched
/// - `Faulty`: the file is longer than its limit
/// - out of memory
pub(crate) fn fetch_bytes<F: Files>(
    alloc: Global,
    files: &mut F,
    name: &str,
    input: Input,
    limit: u64,
) -> Result<Vec<u8>, NoInputs>
    ensures fetches { IfSome (F.holds files.old) (λ held.
        Fetches input_place (λ bytes. bytes.items) result
        (bytes_of_named_file held input limit name.now)) }
    ensures within { IfOk result (λ bytes. length bytes.items ≤ limit) }
    ensures cause { IfErr result
        (IsFileError (F.faults files.old) (F.faults files.new) (λ input. Some name.now)) }
    ensures own { IfErr result (IsErrorOfInput input) }
    ensures kept { F.holds files.new ≡ F.holds files.old }
    ensures faults_stay { (any : List ℕ) → F.faults files.old any ≤ F.faults files.new any }
{
    match files.fetch(alloc, name, limit) {
        Ok(bytes) => Ok(bytes),
        Err(Fetch::Failed) => Err(NoInputs::Reason(InputsReason::Unread(input))),
        Err(Fetch::TooLong) => Err(NoInputs::Reason(InputsReason::Faulty(input, Fault::TooLong))),
        Err(Fetch::Memory) => Err(NoInputs::Memory),
    }
}

/// Reads `bytes`, the contents of a file, and puts their value into the inputs.
///
/// # Errors
///
/// - `Faulty`: the bytes have a fault
/// - out of memory
fn read<R: Reader>(alloc: Global, bytes: &[u8], inputs: &mut Inputs) -> Result<(), NoInputs>
    requires { length bytes.now ≤ R.file.limit }
    ensures fetches { Fetches input_place (λ done. inputs_view inputs.new) result
        (answer_or_faulty_file R.file.input (R.file.says bytes.now (inputs_view inputs.old))) }
    ensures cause { (before now : List ℕ → ℕ) (named : AnyInput → Option (List ℕ))
        → IfErr result (IsFileError before now named) }
    ensures own { IfErr result (IsErrorOfInput R.file.input) }
{
    match R::read(alloc, bytes, inputs) {
        Ok(()) => Ok(()),
        Err(Misread::Fault(fault)) => {
            Err(NoInputs::Reason(InputsReason::Faulty(R::input(), fault)))
        }
        Err(Misread::Memory) => Err(NoInputs::Memory),
    }
}
