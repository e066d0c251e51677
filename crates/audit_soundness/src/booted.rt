//! The law for the value that the function `boot` returned. The types of this value's fields bound
//! its addresses and numbers. A proof knows such a bound only after code has read the field, so
//! the functions here read each run.

ghost use Rattle.std.specs.Prelude.{◌≡◌, Some, Ok};
ghost use Rattle.std.specs.List.{All};
ghost use Rattle.audit_soundness.specs.Saved.{AreSaved};
ghost use Rattle.audit_soundness.specs.PrintableBoots.{IsPrintableBoot, RunEndsInSpace, IsBoundedOwnerRun};
ghost use Rattle.audit_roundtrip.specs.PrintedLines.{IsPrintableOwner};
ghost use Rattle.boot_audit.specs.Headline.{FilesConserveMemory};
ghost use Rattle.boot_audit.specs.Outcome.{audit_outcome};
ghost use Rattle.program_end.specs.Program.{FileContents};
ghost use Rattle.boot_audit.specs.Args.{AuditArgsView};
ghost use Rattle.boot_audit.specs.declared.judgement.Verdict.TheVariants as verdicts;
ghost use Rattle.boot_model.specs.Boot.{InputsView, whole_boot};
ghost use Rattle.boot_model.specs.View.{booted_view};

use boot_model::Booted;
use e820_model::Run;
use memblock_model::{Owner, OwnerRun};

/// Law: if the files of an audit contain the three reports of the boot `booted`, as `bootmem`
/// prints them, their lines show that memory was conserved, and the outcome of the audit is
/// `Sound`. The addresses and numbers of `booted` are in the ranges of its types
/// (`IsPrintableBoot`).
pub fn booted_reports_are_sound(booted: &Booted)
    ghost inputs: { InputsView }
    requires { whole_boot inputs ≡ Ok (booted_view booted.now) }
    ensures printable { IsPrintableBoot (booted_view booted.now) }
    ensures conserved { (held : FileContents) (args : AuditArgsView)
        → AreSaved held args (booted_view booted.now)
        → FilesConserveMemory (Some args) held }
    ensures sound { (held : FileContents) (args : AuditArgsView)
        → AreSaved held args (booted_view booted.now)
        → audit_outcome (Some args) held ≡ Ok verdicts.Sound }
{
    map_runs_end_in_space(&booted.map);
    owner_runs_are_bounded(booted.journal.owners());
}

/// Law: each run of a map ends below address 2^64.
fn map_runs_end_in_space(runs: &[Run])
    ensures { All RunEndsInSpace runs.now }
{
    for run in runs {
        run_ends_in_space(run);
    }
}

/// Law: a run of a map ends below address 2^64.
fn run_ends_in_space(run: &Run)
    ensures { RunEndsInSpace run.now }
{
    let _range = run.range;
}

/// Law: each run of bytes with one owner ends below address 2^64, and the owner's number, if it
/// has one, fits in 32 bits.
fn owner_runs_are_bounded(runs: &[OwnerRun])
    ensures { All IsBoundedOwnerRun runs.now }
{
    for run in runs {
        owner_run_is_bounded(run);
    }
}

/// Law: a run of bytes with one owner ends below address 2^64, and the owner's number, if it has
/// one, fits in 32 bits.
fn owner_run_is_bounded(run: &OwnerRun)
    ensures { IsBoundedOwnerRun run.now }
{
    owner_number_is_bounded(run.owner);
}

/// Law: the number of an owner, if it has one, fits in 32 bits.
fn owner_number_is_bounded(owner: Owner)
    ensures { IsPrintableOwner owner }
{
    match owner {
        Owner::NodeData(_number) => {}
        Owner::Root(_number) => {}
        Owner::Usage(_number) => {}
        Owner::Map(_number) => {}
        Owner::Script(_number) => {}
        _ => {}
    }
}
