//! The inputs of the boot: what the files named on the command line contain. With `--make`, a
//! generated e820 table replaces the entries of the zero page and of the extension.

ghost use Rattle.std.specs.Prelude.{◌≡◌, ◌<◌, IfErr, IfOk, IfSome, IsErr, IsSomeAnd, Some};
ghost use Rattle.boot_inputs.specs.WithClaims.{inputs_with_claims_view};
ghost use Rattle.boot_model.specs.Facts.{HaveBounds, HaveNoSections};
ghost use Rattle.boot_model.specs.View.{inputs_view};
ghost use Rattle.program_end.specs.Causes.{IsFileError};
ghost use Rattle.program_end.specs.Fetches.{Fetches};
ghost use Rattle.boot_inputs.specs.Input.{input_place};
ghost use Rattle.program_args.specs.Entries.{IsEntryCount};
ghost use Rattle.program_args.specs.Args.{named61};
ghost use Rattle.program_args.specs.View.{bootmem_args_view, program_args_view};
ghost use Rattle.program_run.specs.Outcome.{read_boot_inputs, read_boot_inputs61, with_made_table};

use bm_base::Memory;
use bm_io::Files;
use boot_inputs::{NoInputs, read_inputs, read_inputs_with_claims};
use boot_model::Inputs;
use e820_table::made;
use program_args::{BootmemArgs, NamesWithClaims};
use script_reader::Line;
use std::alloc::Global;

/// Reads the files that the command line of `bootmem` names, in the order of `boot_inputs::Input`,
/// and returns the inputs of the boot. With `--make N`, a generated e820 table of N entries
/// replaces the entries of the zero page and of the extension.
///
/// # Errors
///
/// - `Reason::Unread` if a file can't be read, and `Reason::Faulty` if one has a fault. The first
///   such file ends the call.
/// - `Memory` if this program is out of memory.
pub fn read_boot_inputs<F: Files>(
    alloc: Global,
    args: &BootmemArgs<'_>,
    files: &mut F,
) -> Result<Inputs, NoInputs>
    ensures fetches { IfSome (F.holds files.old) (λ held.
        Fetches input_place inputs_view result
        (read_boot_inputs held (bootmem_args_view args.now))) }
    ensures cause { IfErr result (IsFileError (F.faults files.old) (F.faults files.new)
        (bootmem_args_view args.now).named) }
{
    let Ok(begun) = args.command_line_inputs(alloc) else {
        return Err(NoInputs::Memory);
    };
    let inputs = read_inputs::<F, BootmemArgs<'_>>(alloc, files, args, begun)?;
    match with_made_table(alloc, inputs, args.made) {
        Ok(inputs) => Ok(inputs),
        Err(_) => Err(NoInputs::Memory),
    }
}

/// Reads the files that the command line of `bootmem61` names, in the order of
/// `boot_inputs::Input`. Returns the inputs of the boot, and the lines of early claims (none if no
/// file of early claims is named). With `--make N`, a generated e820 table of N entries replaces
/// the entries of the zero page and of the extension.
///
/// # Errors
///
/// - `Reason::Unread` if a file can't be read, and `Reason::Faulty` if one has a fault. The first
///   such file ends the call.
/// - `Memory` if this program is out of memory.
pub fn read_boot_inputs61<F: Files>(
    alloc: Global,
    names: &NamesWithClaims<'_, '_>,
    files: &mut F,
) -> Result<(Inputs, Vec<Line>), NoInputs>
    ensures fetches { IfSome (F.holds files.old) (λ held.
        Fetches input_place inputs_with_claims_view result
        (read_boot_inputs61 held (program_args_view names.now.args.now))) }
    ensures cause { IfErr result (IsFileError (F.faults files.old) (F.faults files.new)
        (named61 (program_args_view names.now.args.now))) }
    ensures bounds { IfOk result (λ read. HaveBounds read.1.items) }
    ensures no_sections { IfOk result (λ read. HaveNoSections read.1.items) }
{
    let Ok(begun) = names.args.command_line_inputs(alloc) else {
        return Err(NoInputs::Memory);
    };
    let (inputs, claims) = read_inputs_with_claims::<F, NamesWithClaims<'_, '_>>(
        alloc, files, names, begun,
    )?;
    match with_made_table(alloc, inputs, names.args.made) {
        Ok(inputs) => Ok((inputs, claims)),
        Err(_) => Err(NoInputs::Memory),
    }
}

/// Returns `inputs`, unchanged if `entries` is `None`. If `entries` is a number (2 to 3000), a
/// generated e820 table of so many entries replaces the entries of the zero page and of the
/// extension, and the initrd is dropped.
///
/// # Errors
///
/// - `Memory`: this program is out of memory; only for more than 128 entries.
fn with_made_table(alloc: Global, inputs: Inputs, entries: Option<u32>) -> Result<Inputs, Memory>
    requires few { IfSome entries IsEntryCount }
    ensures made { IfOk result (λ changed.
        inputs_view changed ≡ with_made_table entries (inputs_view inputs)) }
    ensures many { IsErr result → IsSomeAnd entries (λ n. 128 < n) }
{
    match entries {
        Some(count) => with_made_entries(alloc, inputs, count),
        None => Ok(inputs),
    }
}

/// Returns `inputs` with a generated e820 table of `count` entries (2 to 3000) instead of the
/// entries of the zero page and of the extension, and without an initrd.
///
/// # Errors
///
/// - `Memory`: this program is out of memory; only for more than 128 entries.
fn with_made_entries(alloc: Global, inputs: Inputs, count: u32) -> Result<Inputs, Memory>
    requires few { IsEntryCount count }
    ensures made { IfOk result (λ changed.
        inputs_view changed ≡ with_made_table (Some count) (inputs_view inputs)) }
    ensures many { IsErr result → 128 < count }
{
    let made = made(alloc, count)?;
    let mut inputs = inputs;
    inputs.zero = made.zero;
    inputs.ext = made.ext;
    Ok(inputs)
}
