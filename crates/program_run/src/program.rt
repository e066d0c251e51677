//! The whole program `bootmem` over any files and outputs. It is generic in them, so one contract
//! covers the files in memory that tests use and the files of the operating system (`bootmem_cli`).

ghost use Rattle.std.specs.Prelude.{◌≡◌, ◌≢◌, ℕ, List, Some, Ok, IfErr, IfSome, IsNone, IsOkAnd, ◌⊎◌, flat_map};
ghost use Rattle.std.specs.Io.KnownBytes.{Appends};
ghost use Rattle.bm_io.specs.Counts.{Rose};
ghost use Rattle.bm_io.specs.Known.{AppendsFront};
ghost use Rattle.boot_inputs.specs.declared.input.Input.{Input as AnyInput};
ghost use Rattle.boot_inputs.specs.Input.{input_place};
ghost use Rattle.boot_inputs.specs.Reason.{InputsReason as AnyReason};
ghost use Rattle.boot_model.specs.View.{inputs_view};
ghost use Rattle.debugfs_reports.specs.ReportList.{reports_in};
ghost use Rattle.program_end.specs.declared.failure.Failure.{Failure as AnyFailure};
ghost use Rattle.program_end.specs.Causes.{EndHasCause, ErrorHasCause, FailureHasCause, InputFaultsRose};
ghost use Rattle.program_end.specs.Ends.{FitsFailure, IsFaulty, IsStopped, PutsEndLine, MayEndWith, WritesOutcome, WritingHasCause};
ghost use Rattle.program_end.specs.Fetches.{Fetches};
ghost use Rattle.program_end.specs.Line.{PutsLine};
ghost use Rattle.program_end.specs.Status.{failure_status};
ghost use Rattle.program_args.specs.View.{bootmem_args_view};
ghost use Rattle.program_args.specs.Args.{BootmemArgsView, read_args, bytes_of_words};
ghost use Rattle.program_run.specs.Bootmem.{bootmem};
ghost use Rattle.program_run.specs.Headline.{AppendsReports};
ghost use Rattle.program_run.specs.Line.{bootmem_failure_line};
ghost use Rattle.program_run.specs.Outcome.{bootmem_outcome, reports_on_boot};
ghost use Rattle.program_run.specs.Stops.{reason_by_args_error, reason_by_stop};

use crate::inputs::read_boot_inputs;
use crate::lines::BootmemLines;
use bm_io::{Files, Sink, put_all};
use boot_inputs::{InputsReason, NoInputs};
use boot_model::{Inputs, Stop};
use boot_stages::boot;
use debugfs_reports::{render_all, reports_in};
use program_args::{ArgsError, BootmemArgs, read_args};
use program_end::{exit_status, put_end_line};
use std::alloc::Global;

/// Why there is no report: a reason (the command line is refused, a file can't be read or has a
/// fault, or the boot stops), or out of memory.
pub type NoReport = NoInputs;

/// Why the program didn't write its reports whole: there is no report, or the output failed.
pub type Failure = program_end::Failure<InputsReason>;

/// Returns why there is no report on a boot that stops: the cause of the stop, or out of memory.
pub fn reason_by_stop(stop: Stop) -> NoReport
    ensures { result ≡ reason_by_stop stop }
{
    match stop.cause() {
        Some(cause) => NoReport::Reason(InputsReason::Stopped(cause)),
        None => NoReport::Memory,
    }
}

/// Reads the files that the command line names, boots with them, and writes the reports to `out`.
/// `words` are the words after the program's name; [`program_args::read_args`] says which are
/// accepted. Returns the exit status:
///
/// - 0: the reports were written whole.
/// - 2: the command line is refused; no file was read.
/// - 3: a file that the command line names couldn't be read.
/// - 4: `out` refused the text.
/// - 5: a file has a fault.
/// - 6: the boot stops, for example because the map has no usable frame.
/// - 7: out of memory.
///
/// With status 0 nothing is written to `err`, and otherwise one line that says why the program
/// failed. If `err` refuses the line, the status stays the same. With status 2, 3, 5 or 6 nothing
/// is written to `out`. With status 4 or 7 the first part of the text may have been written to
/// `out`.
///
/// The ghost `holds` gives the contents of each file if the type of `files` knows them. The type of
/// files in memory does. For the files of the operating system `holds` is `None`, and the clauses
/// on `bootmem_outcome` say nothing; but the code is generic, so the same code runs in both cases.
pub fn run<F: Files, S: Sink, E: Sink>(
    alloc: Global,
    words: &[String],
    files: &mut F,
    out: &mut S,
    err: &mut E,
) -> u8
    // What exit status 2, 3 or 4 means, even if the files' contents are unknown. A refused command
    // line gives 2, or 7 if the program runs out of memory.
    ensures usage { result ≡ 2 → IsNone (read_args (bytes_of_words words.now)) }
    ensures refused { IsNone (read_args (bytes_of_words words.now)) → (result ≡ 2) ⊎ (result ≡ 7) }
    ensures unread { result ≡ 3 → (input : AnyInput)
        × InputFaultsRose bootmem (F.faults files.old) (F.faults files.new)
        (read_args (bytes_of_words words.now)) input }
    ensures unwritten { result ≡ 4 → Rose (S.faults out.old) (S.faults out.new) }

    // What stays as it was, even if the files' contents are unknown. If the command line is
    // refused, no file is fetched and `out` is unchanged. With status 2, 3, 5 or 6 `out` is
    // unchanged too. With status 7 it is unchanged unless memory ran out while it was written.
    ensures unfetched { IsNone (read_args (bytes_of_words words.now)) → files.new ≡ files.old }
    ensures unput { IsNone (read_args (bytes_of_words words.now)) → out.new ≡ out.old }
    ensures early { (result ≡ 2) ⊎ (result ≡ 3) ⊎ (result ≡ 5) ⊎ (result ≡ 6) → out.new ≡ out.old }
    ensures wanting { result ≡ 7 → (out.new ≡ out.old) ⊎ Rose (S.wants out.old) (S.wants out.new) }

    // The headline. With status 0 the text of the one boot that the bytes determine was written.
    // In this boot each usable frame is touched by a claim with a recorded owner, or is in exactly
    // one block; no other frame is in a block.
    ensures headline { result ≡ 0 → IfSome (F.holds files.old) (λ held.
        AppendsReports (read_args (bytes_of_words words.now)) held (S.written out.old)
        (S.written out.new)) }

    // If the files' contents are known, the exit status and the output agree with the outcome,
    // which the definitions give for the command line and these contents.
    ensures answers { IfSome (F.holds files.old) (λ held.
        MayEndWith bootmem (bootmem_outcome (read_args (bytes_of_words words.now)) held) result) }
    ensures written { result ≡ 0 → IfSome (F.holds files.old) (λ held.
        IsOkAnd (bootmem_outcome (read_args (bytes_of_words words.now)) held)
        (λ text. Appends (S.written out.old) (S.written out.new) text)) }
    ensures part { result ≡ 4 → IfSome (F.holds files.old) (λ held.
        IsOkAnd (bootmem_outcome (read_args (bytes_of_words words.now)) held)
        (λ text. AppendsFront (S.written out.old) (S.written out.new) text)) }
    ensures wanted { result ≡ 7 → IfSome (F.holds files.old) (λ held.
        (S.written out.new ≡ S.written out.old)
        ⊎ IsOkAnd (bootmem_outcome (read_args (bytes_of_words words.now)) held)
        (λ text. AppendsFront (S.written out.old) (S.written out.new) text)) }
    ensures faulty { result ≡ 5 → IfSome (F.holds files.old) (λ held.
        IsFaulty (bootmem_outcome (read_args (bytes_of_words words.now)) held)) }
    ensures stopped { result ≡ 6 → IfSome (F.holds files.old) (λ held.
        IsStopped (bootmem_outcome (read_args (bytes_of_words words.now)) held)) }

    // If the outcome is a text, the text is written, unless the program runs out of memory or a
    // counter of faults rose: that of `out`, or that of a file's name.
    ensures complete { IfSome (F.holds files.old) (λ held. (text : List ℕ)
        → bootmem_outcome (read_args (bytes_of_words words.now)) held ≡ Ok text
        → ¬ Rose (S.faults out.old) (S.faults out.new)
        → ((input : AnyInput)
        → ¬ InputFaultsRose bootmem (F.faults files.old) (F.faults files.new)
        (read_args (bytes_of_words words.now)) input)
        → (result ≡ 0) ⊎ (result ≡ 7)) }

    // What is written to `err`: nothing with status 0, else the line of a failure that has this
    // exit status. What must happen before this failure did happen (`FailureHasCause`), and the
    // failure fits the outcome.
    ensures silent { result ≡ 0 → err.new ≡ err.old }
    ensures line { result ≢ 0 → (failure : AnyFailure AnyReason) × (result ≡ failure_status failure)
        × PutsLine E.Sink err.old err.new
        (bootmem_failure_line (read_args (bytes_of_words words.now)) failure)
        × FailureHasCause bootmem (F.faults files.old) (F.faults files.new)
        (read_args (bytes_of_words words.now)) failure
        × IfSome (F.holds files.old) (λ held.
        FitsFailure bootmem failure (bootmem_outcome (read_args (bytes_of_words words.now)) held)) }
{
    let end = run_to_end(alloc, words, files, out, err);
    exit_status(end)
}

/// Runs the program: reads the command line and the input files, boots, and writes the reports to
/// `out`. Returns the exit status 0.
///
/// # Errors
///
/// The reason why the reports weren't written whole. The line that says why is then written to
/// `err`.
fn run_to_end<F: Files, S: Sink, E: Sink>(
    alloc: Global,
    words: &[String],
    files: &mut F,
    out: &mut S,
    err: &mut E,
) -> Result<u8, Failure>
    ensures writes { IfSome (F.holds files.old) (λ held.
        WritesOutcome bootmem (S.written out.old) (S.written out.new) result
        (bootmem_outcome (read_args (bytes_of_words words.now)) held)) }
    ensures cause { EndHasCause bootmem (F.faults files.old) (F.faults files.new)
        (read_args (bytes_of_words words.now)) result }
    ensures unfetched { IsNone (read_args (bytes_of_words words.now)) → files.new ≡ files.old }
    ensures unput { IsNone (read_args (bytes_of_words words.now)) → out.new ≡ out.old }
    ensures output { WritingHasCause S.Sink out.old out.new result }
    ensures end_line { PutsEndLine E.Sink
        (bootmem_failure_line (read_args (bytes_of_words words.now))) err.old err.new result }
{
    match read_args(alloc, words) {
        Ok(args) => {
            let end = write_reports(alloc, &args, files, out);
            put_end_line(err, &BootmemLines { args: Some(&args) }, end);
            end
        }
        Err(error) => {
            let end = Err(Failure::NoResult(reason_by_args_error(error)));
            put_end_line(err, &BootmemLines { args: None }, end);
            end
        }
    }
}

/// Returns why there is no report if reading the command line failed: it is refused (`Usage`), or
/// the program is out of memory.
pub(crate) fn reason_by_args_error(error: ArgsError) -> NoReport
    ensures { result ≡ reason_by_args_error error }
{
    match error {
        ArgsError::Usage => NoReport::Reason(InputsReason::Usage),
        ArgsError::Memory => NoReport::Memory,
    }
}

/// Reads the input files, boots, and writes the requested reports to `out`, once the texts of all
/// of them are made. Returns the exit status 0.
///
/// # Errors
///
/// - `NoResult`: there is no report, or the program ran out of memory; nothing was written.
/// - `Output`: `out` refused the text, or ran out of memory for it; the first part may be written.
fn write_reports<F: Files, S: Sink>(
    alloc: Global,
    args: &BootmemArgs<'_>,
    files: &mut F,
    out: &mut S,
) -> Result<u8, Failure>
    ensures writes { IfSome (F.holds files.old) (λ held.
        WritesOutcome bootmem (S.written out.old) (S.written out.new) result
        (bootmem_outcome (Some (bootmem_args_view args.now)) held)) }
    ensures cause { EndHasCause bootmem (F.faults files.old) (F.faults files.new)
        (Some (bootmem_args_view args.now)) result }
    ensures output { WritingHasCause S.Sink out.old out.new result }
{
    let texts = make_report_texts(alloc, args, files)?;
    put_all(out, &texts)?;
    Ok(0)
}

/// Reads the input files, boots, and returns the texts of the requested reports, in the order of
/// the list.
///
/// # Errors
///
/// The reason why there is no report, or out of memory.
fn make_report_texts<F: Files>(
    alloc: Global,
    args: &BootmemArgs<'_>,
    files: &mut F,
) -> Result<Vec<Vec<u8>>, NoReport>
    ensures fetches { IfSome (F.holds files.old) (λ held.
        Fetches input_place (λ bytes_of_words.
        flat_map (λ text. text.items) bytes_of_words.items) result
        (bootmem_outcome (Some (bootmem_args_view args.now)) held)) }
    ensures cause { IfErr result
        (ErrorHasCause bootmem (F.faults files.old) (F.faults files.new)
        (Some (bootmem_args_view args.now))) }
{
    let inputs = read_boot_inputs(alloc, args, files)?;
    reports_on_boot(alloc, inputs, args.list)
}

/// Boots with these inputs and returns the texts of the reports whose names are in `list`,
/// separated by commas.
///
/// # Errors
///
/// The cause for which the boot stops, or out of memory.
fn reports_on_boot(alloc: Global, inputs: Inputs, list: &str) -> Result<Vec<Vec<u8>>, NoReport>
    ensures fetches { Fetches input_place (λ bytes_of_words.
        flat_map (λ text. text.items) bytes_of_words.items) result
        (reports_on_boot (reports_in list.now) (inputs_view inputs)) }
    ensures cause { (before now : List ℕ → ℕ) (asked : BootmemArgsView)
        → IfErr result (ErrorHasCause bootmem before now (Some asked)) }
{
    let booted = match boot(alloc, inputs) {
        Ok(booted) => booted,
        Err(stop) => return Err(reason_by_stop(stop)),
    };
    let reports = reports_in(alloc, list.as_bytes())?;
    Ok(render_all(alloc, &reports, &booted)?)
}
