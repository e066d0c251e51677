//! The whole program `bootmem61` over any files and outputs. It differs from `bootmem`
//! ([`run`](crate::run)) in its boot, which follows the rules of Linux 6.1 and runs early claims.

ghost use Rattle.std.specs.Prelude.{◌≡◌, ◌≢◌, ℕ, List, Some, Ok, IfErr, IfSome, IsNone, IsOkAnd, ◌⊎◌, flat_map};
ghost use Rattle.std.specs.Io.KnownBytes.{Appends};
ghost use Rattle.bm_io.specs.Counts.{Rose};
ghost use Rattle.bm_io.specs.Known.{AppendsFront};
ghost use Rattle.boot_inputs.specs.declared.input.Input.{Input as AnyInput};
ghost use Rattle.boot_inputs.specs.Input.{input_place};
ghost use Rattle.boot_inputs.specs.Reason.{InputsReason as AnyReason};
ghost use Rattle.boot_model.specs.Facts.{HaveBounds, HaveNoSections};
ghost use Rattle.boot_model.specs.View.{inputs_view};
ghost use Rattle.program_end.specs.declared.failure.Failure.{Failure as AnyFailure};
ghost use Rattle.program_end.specs.Causes.{EndHasCause, ErrorHasCause, FailureHasCause, InputFaultsRose};
ghost use Rattle.program_end.specs.Ends.{FitsFailure, IsFaulty, IsStopped, PutsEndLine, MayEndWith, WritesOutcome, WritingHasCause};
ghost use Rattle.program_end.specs.Fetches.{Fetches};
ghost use Rattle.program_end.specs.Line.{PutsLine};
ghost use Rattle.program_end.specs.Status.{failure_status};
ghost use Rattle.program_args.specs.View.{program_args_view};
ghost use Rattle.program_args.specs.Args.{ProgramArgsView, read_args61, bytes_of_words};
ghost use Rattle.program_run.specs.Bootmem.{bootmem61};
ghost use Rattle.program_run.specs.Headline.{AppendsReports61};
ghost use Rattle.program_run.specs.Line.{bootmem61_failure_line};
ghost use Rattle.program_run.specs.Outcome.{bootmem61_outcome, reports_of_list61, reports_on_boot61};

use crate::inputs::read_boot_inputs61;
use crate::lines::Bootmem61Lines;
use crate::program::{Failure, NoReport, reason_by_args_error, reason_by_stop};
use bm_io::{Files, Sink, put_all};
use boot_model::{Extra, Inputs, Profile};
use boot_stages::boot_with;
use debugfs_reports::{REPORTS_WITH_CLAIMS, render_all, reports_named_in};
use program_args::{NamesWithClaims, read_args61};
use program_end::{exit_status, put_end_line};
use script_reader::Line;
use std::alloc::Global;

/// Reads the files that the command line names, boots with them, and writes the reports to `out`.
/// `words` are the words after the program's name. Returns the exit status:
///
/// - 0: the reports were written whole.
/// - 2: the command line is refused; no file was read.
/// - 3: a file that the command line names couldn't be read.
/// - 4: `out` refused the text.
/// - 5: a file has a fault.
/// - 6: the boot stops, for example because the map has no usable frame.
/// - 7: out of memory.
///
/// With status 0 nothing is written to `err`, and otherwise one line that says why the program
/// failed. If `err` refuses the line, the status stays the same. With status 2, 3, 5 or 6 nothing
/// is written to `out`. With status 4 or 7 the first part of the text may have been written to
/// `out`.
///
/// `run61` differs from [`run`](crate::run), the program `bootmem`, in these points:
///
/// - [`program_args::read_args61`] says which words are accepted. `--claims F` names a file of
///   early claims, which is read after the script. `--report claims` prints the outcome of each of
///   its lines.
/// - The boot follows the profile of Linux 6.1 ([`Profile::linux_6_1`]). The early claims run
///   before memory gets its nodes.
/// - An error line begins with `bootmem61: `.
pub fn run61<F: Files, S: Sink, E: Sink>(
    alloc: Global,
    words: &[String],
    files: &mut F,
    out: &mut S,
    err: &mut E,
) -> u8
    // What exit status 2, 3 or 4 means, even if the files' contents are unknown. A refused command
    // line gives 2, or 7 if the program runs out of memory.
    ensures usage { result ≡ 2 → IsNone (read_args61 (bytes_of_words words.now)) }
    ensures refused { IsNone (read_args61 (bytes_of_words words.now)) → (result ≡ 2) ⊎ (result
        ≡ 7) }
    ensures unread { result ≡ 3 → (input : AnyInput)
        × InputFaultsRose bootmem61 (F.faults files.old) (F.faults files.new)
        (read_args61 (bytes_of_words words.now)) input }
    ensures unwritten { result ≡ 4 → Rose (S.faults out.old) (S.faults out.new) }

    // What stays as it was, even if the files' contents are unknown. If the command line is
    // refused, no file is fetched and `out` is unchanged. With status 2, 3, 5 or 6 `out` is
    // unchanged too. With status 7 it is unchanged unless memory ran out while it was written.
    ensures unfetched { IsNone (read_args61 (bytes_of_words words.now)) → files.new ≡ files.old }
    ensures unput { IsNone (read_args61 (bytes_of_words words.now)) → out.new ≡ out.old }
    ensures early { (result ≡ 2) ⊎ (result ≡ 3) ⊎ (result ≡ 5) ⊎ (result ≡ 6) → out.new ≡ out.old }
    ensures wanting { result ≡ 7 → (out.new ≡ out.old) ⊎ Rose (S.wants out.old) (S.wants out.new) }

    // The headline. With status 0 the text of the one boot that the bytes determine was written.
    // In this boot each usable frame is touched by a claim with a recorded owner, or is in exactly
    // one block; no other frame is in a block.
    ensures headline { result ≡ 0 → IfSome (F.holds files.old) (λ held.
        AppendsReports61 (read_args61 (bytes_of_words words.now)) held (S.written out.old)
        (S.written out.new)) }

    // If the files' contents are known, the exit status and the output agree with the outcome,
    // which the definitions give for the command line and these contents.
    ensures answers { IfSome (F.holds files.old) (λ held.
        MayEndWith bootmem61 (bootmem61_outcome (read_args61 (bytes_of_words words.now)) held)
        result) }
    ensures written { result ≡ 0 → IfSome (F.holds files.old) (λ held.
        IsOkAnd (bootmem61_outcome (read_args61 (bytes_of_words words.now)) held)
        (λ text. Appends (S.written out.old) (S.written out.new) text)) }
    ensures part { result ≡ 4 → IfSome (F.holds files.old) (λ held.
        IsOkAnd (bootmem61_outcome (read_args61 (bytes_of_words words.now)) held)
        (λ text. AppendsFront (S.written out.old) (S.written out.new) text)) }
    ensures wanted { result ≡ 7 → IfSome (F.holds files.old) (λ held.
        (S.written out.new ≡ S.written out.old)
        ⊎ IsOkAnd (bootmem61_outcome (read_args61 (bytes_of_words words.now)) held)
        (λ text. AppendsFront (S.written out.old) (S.written out.new) text)) }
    ensures faulty { result ≡ 5 → IfSome (F.holds files.old) (λ held.
        IsFaulty (bootmem61_outcome (read_args61 (bytes_of_words words.now)) held)) }
    ensures stopped { result ≡ 6 → IfSome (F.holds files.old) (λ held.
        IsStopped (bootmem61_outcome (read_args61 (bytes_of_words words.now)) held)) }

    // If the outcome is a text, the text is written, unless the program runs out of memory or a
    // counter of faults rose: that of `out`, or that of a file's name.
    ensures complete { IfSome (F.holds files.old) (λ held. (text : List ℕ)
        → bootmem61_outcome (read_args61 (bytes_of_words words.now)) held ≡ Ok text
        → ¬ Rose (S.faults out.old) (S.faults out.new)
        → ((input : AnyInput)
        → ¬ InputFaultsRose bootmem61 (F.faults files.old) (F.faults files.new)
        (read_args61 (bytes_of_words words.now)) input)
        → (result ≡ 0) ⊎ (result ≡ 7)) }

    // What is written to `err`: nothing with status 0, else the line of a failure that has this
    // exit status. What must happen before this failure did happen (`FailureHasCause`), and the
    // failure fits the outcome.
    ensures silent { result ≡ 0 → err.new ≡ err.old }
    ensures line { result ≢ 0 → (failure : AnyFailure AnyReason) × (result ≡ failure_status failure)
        × PutsLine E.Sink err.old err.new
        (bootmem61_failure_line (read_args61 (bytes_of_words words.now)) failure)
        × FailureHasCause bootmem61 (F.faults files.old) (F.faults files.new)
        (read_args61 (bytes_of_words words.now)) failure
        × IfSome (F.holds files.old) (λ held.
        FitsFailure bootmem61 failure (bootmem61_outcome (read_args61 (bytes_of_words words.now))
        held)) }
{
    let end = run61_to_end(alloc, words, files, out, err);
    exit_status(end)
}

/// Runs the program: reads the command line and the input files, boots, and writes the reports to
/// `out`. Returns the exit status 0.
///
/// # Errors
///
/// The reason why the reports weren't written whole. The line that says why is then written to
/// `err`.
fn run61_to_end<F: Files, S: Sink, E: Sink>(
    alloc: Global,
    words: &[String],
    files: &mut F,
    out: &mut S,
    err: &mut E,
) -> Result<u8, Failure>
    ensures writes { IfSome (F.holds files.old) (λ held.
        WritesOutcome bootmem61 (S.written out.old) (S.written out.new) result
        (bootmem61_outcome (read_args61 (bytes_of_words words.now)) held)) }
    ensures cause { EndHasCause bootmem61 (F.faults files.old) (F.faults files.new)
        (read_args61 (bytes_of_words words.now)) result }
    ensures unfetched { IsNone (read_args61 (bytes_of_words words.now)) → files.new ≡ files.old }
    ensures unput { IsNone (read_args61 (bytes_of_words words.now)) → out.new ≡ out.old }
    ensures output { WritingHasCause S.Sink out.old out.new result }
    ensures end_line { PutsEndLine E.Sink
        (bootmem61_failure_line (read_args61 (bytes_of_words words.now))) err.old err.new result }
{
    match read_args61(alloc, words) {
        Ok(args) => {
            let names = NamesWithClaims { args: &args };
            let end = write_reports61(alloc, &names, files, out);
            put_end_line(err, &Bootmem61Lines { args: Some(&names) }, end);
            end
        }
        Err(error) => {
            let end = Err(Failure::NoResult(reason_by_args_error(error)));
            put_end_line(err, &Bootmem61Lines { args: None }, end);
            end
        }
    }
}

/// Reads the input files, boots, and writes the requested reports to `out`, once the texts of all
/// of them are made. Returns the exit status 0.
///
/// # Errors
///
/// - `NoResult`: there is no report, or the program ran out of memory; nothing was written.
/// - `Output`: `out` refused the text, or ran out of memory for it; the first part may be written.
fn write_reports61<F: Files, S: Sink>(
    alloc: Global,
    names: &NamesWithClaims<'_, '_>,
    files: &mut F,
    out: &mut S,
) -> Result<u8, Failure>
    ensures writes { IfSome (F.holds files.old) (λ held.
        WritesOutcome bootmem61 (S.written out.old) (S.written out.new) result
        (bootmem61_outcome (Some (program_args_view names.now.args.now)) held)) }
    ensures cause { EndHasCause bootmem61 (F.faults files.old) (F.faults files.new)
        (Some (program_args_view names.now.args.now)) result }
    ensures output { WritingHasCause S.Sink out.old out.new result }
{
    let texts = make_report_texts61(alloc, names, files)?;
    put_all(out, &texts)?;
    Ok(0)
}

/// Reads the input files, boots, and returns the texts of the requested reports, in the order of
/// the list.
///
/// # Errors
///
/// The reason why there is no report, or out of memory.
fn make_report_texts61<F: Files>(
    alloc: Global,
    names: &NamesWithClaims<'_, '_>,
    files: &mut F,
) -> Result<Vec<Vec<u8>>, NoReport>
    ensures fetches { IfSome (F.holds files.old) (λ held.
        Fetches input_place (λ texts.
        flat_map (λ text. text.items) texts.items) result
        (bootmem61_outcome (Some (program_args_view names.now.args.now)) held)) }
    ensures cause { IfErr result
        (ErrorHasCause bootmem61 (F.faults files.old) (F.faults files.new)
        (Some (program_args_view names.now.args.now))) }
{
    let (inputs, claims) = read_boot_inputs61(alloc, names, files)?;
    reports_on_boot61(alloc, inputs, claims, names.args.list)
}

/// Boots with these inputs and early claims by the rules of Linux 6.1. Returns the texts of the
/// reports whose names are in `list`, separated by commas.
///
/// # Errors
///
/// The cause for which the boot stops, or out of memory.
fn reports_on_boot61(
    alloc: Global,
    inputs: Inputs,
    claims: Vec<Line>,
    list: &str,
) -> Result<Vec<Vec<u8>>, NoReport>
    requires bounds { HaveBounds claims.items }
    requires no_sections { HaveNoSections claims.items }
    ensures fetches { Fetches input_place (λ texts.
        flat_map (λ text. text.items) texts.items) result
        (reports_on_boot61 (reports_of_list61 list.now)
        (record { inputs = inputs_view inputs; claims = claims.items })) }
    ensures cause { (before now : List ℕ → ℕ) (asked : ProgramArgsView)
        → IfErr result (ErrorHasCause bootmem61 before now (Some asked)) }
{
    let extra = Extra {
        profile: Profile::linux_6_1(),
        claims,
    };
    let booted = match boot_with(alloc, &extra, inputs) {
        Ok(booted) => booted,
        Err(stop) => return Err(reason_by_stop(stop)),
    };
    let reports = reports_named_in(alloc, &REPORTS_WITH_CLAIMS, list.as_bytes())?;
    Ok(render_all(alloc, &reports, &booted)?)
}
