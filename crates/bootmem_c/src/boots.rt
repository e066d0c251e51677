//! Boots with the words and files that the caller passes, without writing reports.

ghost use Rattle.std.specs.Prelude.{◌≡◌, true, Some, Err, IfOk, IfErr, IsNone};
ghost use Rattle.bm_io.specs.MemFiles.{file_bytes};
ghost use Rattle.boot_model.specs.View.{booted_view};
ghost use Rattle.boot_stages.specs.Boots.{IsStoredTable};
ghost use Rattle.memblock_model.specs.declared.owner.Which.TheVariants as which;
ghost use Rattle.program_end.specs.declared.failure.NoResult.TheVariants as errors;
ghost use Rattle.program_end.specs.declared.failure.Reason.TheVariants as reasons;
ghost use Rattle.program_run.specs.Outcome.{bootmem_outcome};
ghost use Rattle.program_args.specs.View.{bootmem_args_view};
ghost use Rattle.program_args.specs.Args.{read_args, bytes_of_words};
ghost use Rattle.bootmem_c.specs.Boots.{HasOutcomeReason, IsBoot, IsBootAs, IsBootBy};
ghost use Rattle.bootmem_c.specs.Call.{outcome_as, outcome_by};
ghost use Rattle.bootmem_c.specs.Lent.{lent_files};
ghost use Rattle.bootmem_c.specs.Profiles.{profile_of_number};

use crate::boots61::boot_with_strings61;
use crate::crossing::{Bytes, File};
use crate::lent_files::LentFiles;
use crate::profile::{BootProfile, profile_of_number};
use crate::words::{StringsError, strings_of_words};
use boot_model::Booted;
use boot_stages::boot;
use program_args::{ArgsError, BootmemArgs, read_args};
use program_run::{InputsReason, NoReport, read_boot_inputs, reason_by_stop};
use std::alloc::Global;

/// Boots by the profile of this number with these words and files, and returns the results of the
/// boot.
///
/// # Errors
///
/// - The reason of the outcome: there is no such profile, the words aren't UTF-8 or aren't
/// accepted,
///   no file that is passed has the name, a file has a fault, or the boot stops.
/// - `Memory` if this program is out of memory; never if there is no such profile.
pub fn boot_lent_files(
    alloc: Global,
    profile: u32,
    words: &[Bytes<'_>],
    files: &[File<'_>],
) -> Result<Booted, NoReport>
    ensures boots { IfOk result (λ booted.
        IsBootAs profile words.now files.now (booted_view booted)) }
    ensures memory { IfOk result (λ booted.
        IsStoredTable which.Memory booted.journal.items booted.store booted.heads.memory) }
    ensures fails { IfErr result (λ failure. HasOutcomeReason failure (outcome_as profile words.now
        files.now)) }
    ensures unknown { IsNone (profile_of_number profile)
        → result ≡ Err (errors.Reason reasons.Usage) }
{
    let Some(profile) = profile_of_number(profile) else {
        return Err(NoReport::Reason(InputsReason::Usage));
    };
    match strings_of_words(alloc, words) {
        Ok(texts) => boot_strings(alloc, profile, &texts, files),
        Err(StringsError::NotUtf8) => Err(NoReport::Reason(InputsReason::Usage)),
        Err(StringsError::Memory) => Err(NoReport::Memory),
    }
}

/// Boots by this profile with these words, which are UTF-8, and these files. Returns the results of
/// the boot. Errors are those of [`boot_lent_files`].
fn boot_strings(
    alloc: Global,
    profile: BootProfile,
    words: &[String],
    files: &[File<'_>],
) -> Result<Booted, NoReport>
    ensures boots { IfOk result (λ booted.
        IsBootBy (Some profile) true (bytes_of_words words.now) (file_bytes (lent_files files.now))
        (booted_view booted)) }
    ensures memory { IfOk result (λ booted.
        IsStoredTable which.Memory booted.journal.items booted.store booted.heads.memory) }
    ensures fails { IfErr result (λ failure.
        HasOutcomeReason failure (outcome_by (Some profile) true (bytes_of_words words.now)
        (file_bytes (lent_files files.now)))) }
{
    match profile {
        BootProfile::Own => boot_with_strings(alloc, words, files),
        BootProfile::Linux61 => boot_with_strings61(alloc, words, files),
    }
}

/// Boots as `bootmem` does with these words, which are UTF-8, and these files. Returns the results
/// of the boot. Errors are those of [`boot_lent_files`].
fn boot_with_strings(
    alloc: Global,
    words: &[String],
    files: &[File<'_>],
) -> Result<Booted, NoReport>
    ensures boots { IfOk result (λ booted.
        IsBoot (read_args (bytes_of_words words.now)) (file_bytes (lent_files files.now))
        (booted_view booted)) }
    ensures memory { IfOk result (λ booted.
        IsStoredTable which.Memory booted.journal.items booted.store booted.heads.memory) }
    ensures fails { IfErr result (λ failure.
        HasOutcomeReason failure (bootmem_outcome (read_args (bytes_of_words words.now))
        (file_bytes (lent_files files.now)))) }
{
    match read_args(alloc, words) {
        Ok(args) => boot_with_args(alloc, &args, files),
        Err(ArgsError::Usage) => Err(NoReport::Reason(InputsReason::Usage)),
        Err(ArgsError::Memory) => Err(NoReport::Memory),
    }
}

/// Boots as `bootmem` does with this accepted command line and these files, and returns the
/// results of the boot.
///
/// # Errors
///
/// - A reason: a named file isn't among the files that are passed, a file has a fault, or the boot
///   stops.
/// - `Memory` if this program is out of memory.
fn boot_with_args(
    alloc: Global,
    args: &BootmemArgs<'_>,
    files: &[File<'_>],
) -> Result<Booted, NoReport>
    ensures boots { IfOk result (λ booted.
        IsBoot (Some (bootmem_args_view args.now)) (file_bytes (lent_files files.now))
        (booted_view booted)) }
    ensures memory { IfOk result (λ booted.
        IsStoredTable which.Memory booted.journal.items booted.store booted.heads.memory) }
    ensures fails { IfErr result (λ failure.
        HasOutcomeReason failure (bootmem_outcome (Some (bootmem_args_view args.now))
        (file_bytes (lent_files files.now)))) }
{
    let inputs = read_boot_inputs(alloc, args, &mut LentFiles::new(files))?;
    match boot(alloc, inputs) {
        Ok(booted) => Ok(booted),
        Err(stop) => Err(reason_by_stop(stop)),
    }
}
