//! Boots as `bootmem61` does: by the rules of Linux 6.1, with early claims.

ghost use Rattle.std.specs.Prelude.{Some, IfOk, IfErr};
ghost use Rattle.bm_io.specs.MemFiles.{file_bytes};
ghost use Rattle.boot_model.specs.View.{booted_view};
ghost use Rattle.boot_stages.specs.Boots.{IsStoredTable};
ghost use Rattle.memblock_model.specs.declared.owner.Which.TheVariants as which;
ghost use Rattle.program_run.specs.Outcome.{bootmem61_outcome};
ghost use Rattle.program_args.specs.View.{program_args_view};
ghost use Rattle.program_args.specs.Args.{read_args61, bytes_of_words};
ghost use Rattle.bootmem_c.specs.Boots.{HasOutcomeReason, IsBoot61};
ghost use Rattle.bootmem_c.specs.Lent.{lent_files};

use crate::crossing::File;
use crate::lent_files::LentFiles;
use boot_model::{Booted, Extra, Profile};
use boot_stages::boot_with;
use program_args::{ArgsError, BootmemArgs, NamesWithClaims, read_args61};
use program_run::{InputsReason, NoReport, read_boot_inputs61, reason_by_stop};
use std::alloc::Global;

/// Boots as `bootmem61` does with these words, which are UTF-8, and these files. Returns the
/// results of the boot.
///
/// # Errors
///
/// Those of [`boot_lent_files`](crate::boots::boot_lent_files).
pub fn boot_with_strings61(
    alloc: Global,
    words: &[String],
    files: &[File<'_>],
) -> Result<Booted, NoReport>
    ensures boots { IfOk result (λ booted.
        IsBoot61 (read_args61 (bytes_of_words words.now)) (file_bytes (lent_files files.now))
        (booted_view booted)) }
    ensures memory { IfOk result (λ booted.
        IsStoredTable which.Memory booted.journal.items booted.store booted.heads.memory) }
    ensures fails { IfErr result (λ failure.
        HasOutcomeReason failure (bootmem61_outcome (read_args61 (bytes_of_words words.now))
        (file_bytes (lent_files files.now)))) }
{
    match read_args61(alloc, words) {
        Ok(args) => boot_with_args61(alloc, &args, files),
        Err(ArgsError::Usage) => Err(NoReport::Reason(InputsReason::Usage)),
        Err(ArgsError::Memory) => Err(NoReport::Memory),
    }
}

/// Boots with this accepted command line and these files by the rules of Linux 6.1, with the early
/// claims of the file that the command line names. Returns the results of the boot. Errors are
/// those of [`boot_with_strings61`].
fn boot_with_args61(
    alloc: Global,
    args: &BootmemArgs<'_>,
    files: &[File<'_>],
) -> Result<Booted, NoReport>
    ensures boots { IfOk result (λ booted.
        IsBoot61 (Some (program_args_view args.now)) (file_bytes (lent_files files.now))
        (booted_view booted)) }
    ensures memory { IfOk result (λ booted.
        IsStoredTable which.Memory booted.journal.items booted.store booted.heads.memory) }
    ensures fails { IfErr result (λ failure.
        HasOutcomeReason failure (bootmem61_outcome (Some (program_args_view args.now))
        (file_bytes (lent_files files.now)))) }
{
    let names = NamesWithClaims { args };
    let (inputs, claims) = read_boot_inputs61(alloc, &names, &mut LentFiles::new(files))?;
    let extra = Extra {
        profile: Profile::linux_6_1(),
        claims,
    };
    match boot_with(alloc, &extra, inputs) {
        Ok(booted) => Ok(booted),
        Err(stop) => Err(reason_by_stop(stop)),
    }
}
