//! The audit as a program over any files and outputs.

ghost use Rattle.std.specs.Prelude.{◌≡◌, ◌≢◌, ◌↔◌, Ok, Err, IfErr, IfOk, IfSome, IsNone, IsOkAnd, ◌⊎◌, map, string_bytes};
ghost use Rattle.std.specs.Option.{option_map};
ghost use Rattle.std.specs.Io.KnownBytes.{Appends};
ghost use Rattle.bm_io.specs.Counts.{Rose};
ghost use Rattle.bm_io.specs.Known.{AppendsFront};
ghost use Rattle.program_end.specs.declared.failure.Failure.{Failure as AnyFailure};
ghost use Rattle.program_end.specs.declared.failure.Failure.TheVariants as failures;
ghost use Rattle.program_end.specs.declared.failure.NoResult.TheVariants as errors;
ghost use Rattle.program_end.specs.declared.failure.Reason.TheVariants as reasons;
ghost use Rattle.program_end.specs.Causes.{EndHasCause, ErrorHasCause, FailureHasCause, InputFaultsRose};
ghost use Rattle.program_end.specs.Ends.{FitsFailure, IsFaulty, MayEndWith, WritesOutcome, WritingHasCause};
ghost use Rattle.program_end.specs.Fetches.{Fetches};
ghost use Rattle.program_end.specs.Line.{PutsLine};
ghost use Rattle.program_end.specs.Status.{failure_status};
ghost use Rattle.boot_audit.specs.declared.failure.SavedReport.{SavedReport as AnyReport};
ghost use Rattle.boot_audit.specs.declared.judgement.Verdict.{Verdict as AnyVerdict};
ghost use Rattle.boot_audit.specs.Audit.{IsUnsound, bootaudit, report_position};
ghost use Rattle.boot_audit.specs.Headline.{FilesConserveMemory};
ghost use Rattle.boot_audit.specs.Line.{audit_failure_line, verdict_text};
ghost use Rattle.boot_audit.specs.Outcome.{audit_outcome};
ghost use Rattle.boot_audit.specs.Reason.{AuditReason as AnyReason};
ghost use Rattle.boot_audit.specs.Status.{verdict_status};
ghost use Rattle.boot_audit.specs.Verdicts.{HasFrameInSpace};
ghost use Rattle.boot_audit.specs.View.{audit_args_view};
ghost use Rattle.boot_audit.specs.Args.{read_audit_args};

use crate::args::{AuditArgs, read_audit_args};
use crate::failure::{AuditReason, Failure, NoVerdict, verdict_status};
use crate::fetching::fetch_saved;
use crate::judgement::{Verdict, judge};
use crate::lines::AuditLines;
use crate::texts::verdict_text;
use bm_io::{Files, Sink};
use program_end::{exit_status, put_end_line};
use std::alloc::Global;

/// Reads the three saved reports that the command line `[--la57] MAP OWNERS BLOCKS` names, and
/// writes to `out` whether memory was conserved. `words` are the words after the program's name.
/// Returns the exit status:
///
/// - 0: the verdict is `Sound`; its text was written.
/// - 2: the command line isn't accepted; no file was read.
/// - 3: a file that the command line names couldn't be read.
/// - 4: `out` refused the text.
/// - 5: a file contains more than 512 MiB, or a line has a fault.
/// - 7: out of memory.
/// - 8: the verdict is that memory wasn't conserved; its text was written.
///
/// With status 0 and 8 nothing is written to `err`. With any other status one line is written to
/// `err` that says why the audit failed; if `err` refuses this line, the status stays the same.
/// The text of a verdict is written to `out` by one put. With status 2, 3 and 5 nothing is written
/// to `out`; with 4 and 7 `out` may have got the first bytes of the text.
///
/// The ghost member `holds` of `files` says what each file contains. If it is `None`, the contents
/// are unknown, and the clauses that cite `audit_outcome` say nothing.
pub fn audit<F: Files, S: Sink, E: Sink>(
    alloc: Global,
    words: &[String],
    files: &mut F,
    out: &mut S,
    err: &mut E,
) -> u8
    // What each status implies, even if the files' contents are unknown. Status 2 comes exactly if
    // the command line is refused. After status 3 the counter of faults of some named file rose,
    // and after status 4 that of `out`.
    ensures usage { (result ≡ 2) ↔ IsNone (read_audit_args (map string_bytes words.now)) }
    ensures unread { result ≡ 3 → (report : AnyReport)
        × InputFaultsRose bootaudit (F.faults files.old) (F.faults files.new)
        (read_audit_args (map string_bytes words.now)) report }
    ensures unwritten { result ≡ 4 → Rose (S.faults out.old) (S.faults out.new) }

    // What stays unchanged, even if the files' contents are unknown. If the command line is
    // refused, the files stay. With status 2, 3 or 5 `out` stays. With status 7 `out` stays unless
    // its counter `wants` rose.
    ensures unfetched { IsNone (read_audit_args (map string_bytes words.now))
        → files.new ≡ files.old }
    ensures early { (result ≡ 2) ⊎ (result ≡ 3) ⊎ (result ≡ 5) → out.new ≡ out.old }
    ensures wanting { result ≡ 7 → (out.new ≡ out.old) ⊎ Rose (S.wants out.old) (S.wants out.new) }

    // The headline, if the files' contents are known. With status 0 the command line is accepted,
    // the three reports are well-formed, and their lines show that memory was conserved.
    // Conversely, if all this holds and neither a counter of faults of a file nor that of `out`
    // rose, the status is 0, or 7 if out of memory.
    ensures headline { result ≡ 0 → IfSome (F.holds files.old)
        (FilesConserveMemory (read_audit_args (map string_bytes words.now))) }
    ensures conserved { IfSome (F.holds files.old) (λ held.
        FilesConserveMemory (read_audit_args (map string_bytes words.now)) held
        → ¬ Rose (S.faults out.old) (S.faults out.new)
        → ((report : AnyReport)
        → ¬ InputFaultsRose bootaudit (F.faults files.old) (F.faults files.new)
        (read_audit_args (map string_bytes words.now)) report)
        → (result ≡ 0) ⊎ (result ≡ 7)) }

    // If the files' contents are known, the status and the output are those of the outcome.
    ensures answers { IfSome (F.holds files.old) (λ held.
        MayEndWith bootaudit
        (audit_outcome (read_audit_args (map string_bytes words.now)) held) result) }
    ensures sound { result ≡ 0 → IfSome (F.holds files.old) (λ held.
        audit_outcome (read_audit_args (map string_bytes words.now)) held ≡ Ok Verdict.Sound) }
    ensures unsound { result ≡ 8 → IfSome (F.holds files.old) (λ held.
        IsUnsound (audit_outcome (read_audit_args (map string_bytes words.now)) held)) }
    ensures faulty { result ≡ 5 → IfSome (F.holds files.old) (λ held.
        IsFaulty (audit_outcome (read_audit_args (map string_bytes words.now)) held)) }
    ensures written { (result ≡ 0) ⊎ (result ≡ 8) → IfSome (F.holds files.old) (λ held.
        IsOkAnd (audit_outcome (read_audit_args (map string_bytes words.now)) held)
        (λ verdict. Appends (S.written out.old) (S.written out.new) (verdict_text verdict))) }
    ensures part { result ≡ 4 → IfSome (F.holds files.old) (λ held.
        IsOkAnd (audit_outcome (read_audit_args (map string_bytes words.now)) held)
        (λ verdict. AppendsFront (S.written out.old) (S.written out.new) (verdict_text verdict))) }
    ensures wanted { result ≡ 7 → IfSome (F.holds files.old) (λ held.
        (S.written out.new ≡ S.written out.old)
        ⊎ IsOkAnd (audit_outcome (read_audit_args (map string_bytes words.now)) held)
        (λ verdict. AppendsFront (S.written out.old) (S.written out.new) (verdict_text verdict))) }

    // If the outcome is a verdict, and neither a counter of faults of a file nor that of `out`
    // rose, the status is that of the verdict, or 7 if out of memory.
    ensures complete { IfSome (F.holds files.old) (λ held. (verdict : AnyVerdict)
        → audit_outcome (read_audit_args (map string_bytes words.now)) held ≡ Ok verdict
        → ¬ Rose (S.faults out.old) (S.faults out.new)
        → ((report : AnyReport)
        → ¬ InputFaultsRose bootaudit (F.faults files.old) (F.faults files.new)
        (read_audit_args (map string_bytes words.now)) report)
        → (result ≡ verdict_status verdict) ⊎ (result ≡ 7)) }

    // With status 0 or 8 `err` stays. With any other status the line of some failure with this
    // status was written to `err`. What must happen before such a failure did happen
    // (`FailureHasCause`), and the outcome allows the failure (`FitsFailure`).
    ensures silent { (result ≡ 0) ⊎ (result ≡ 8) → err.new ≡ err.old }
    ensures line { result ≢ 0 → result ≢ 8 → (failure : AnyFailure AnyReason)
        × (result ≡ failure_status failure)
        × PutsLine E.Sink err.old err.new
        (audit_failure_line (read_audit_args (map string_bytes words.now)) failure)
        × FailureHasCause bootaudit (F.faults files.old) (F.faults files.new)
        (read_audit_args (map string_bytes words.now)) failure
        × IfSome (F.holds files.old) (λ held.
        FitsFailure bootaudit failure
        (audit_outcome (read_audit_args (map string_bytes words.now)) held)) }
{
    let names = read_audit_args(words);
    let end = write_verdict(alloc, &names, files, out);
    put_end_line(err, &AuditLines { names: &names }, end);
    exit_status(end)
}

/// Finds the verdict, makes its whole text in memory, and writes the text to `out` by one put.
/// Returns the exit status of the verdict, 0 or 8.
///
/// # Errors
///
/// - `NoResult`: there is no verdict, or memory ran out before the text was made. Nothing was
///   written.
/// - `Output`: `out` refused the text or ran out of memory. The first bytes of the text may have
///   been written.
fn write_verdict<F: Files, S: Sink>(
    alloc: Global,
    names: &Option<AuditArgs<'_>>,
    files: &mut F,
    out: &mut S,
) -> Result<u8, Failure>
    ensures writes { IfSome (F.holds files.old) (λ held.
        WritesOutcome bootaudit (S.written out.old) (S.written out.new) result
        (audit_outcome (option_map audit_args_view names.now) held)) }
    ensures cause { EndHasCause bootaudit (F.faults files.old) (F.faults files.new)
        (option_map audit_args_view names.now) result }
    ensures usage { IsNone (option_map audit_args_view names.now)
        → result ≡ Err (failures.NoResult (errors.Reason reasons.Usage)) }
    ensures unfetched { IsNone (option_map audit_args_view names.now) → files.new ≡ files.old }
    ensures output { WritingHasCause S.Sink out.old out.new result }
{
    let verdict = find_verdict(alloc, names, files)?;
    let text = verdict_text(alloc, verdict)?;
    out.put(&text)?;
    Ok(verdict_status(verdict))
}

/// Fetches the three files that the command line names, and returns the verdict on their reports.
/// `names` is `None` if the command line was refused.
///
/// # Errors
///
/// - `AuditReason::Usage` if the command line was refused. No file was fetched.
/// - `AuditReason::Unread` if a file can't be read.
/// - `AuditReason::Faulty` if a file contains more than 512 MiB, or a line has a fault.
/// - `Memory` if this program is out of memory.
fn find_verdict<F: Files>(
    alloc: Global,
    names: &Option<AuditArgs<'_>>,
    files: &mut F,
) -> Result<Verdict, NoVerdict>
    ensures fetches { IfSome (F.holds files.old) (λ held.
        Fetches report_position (λ verdict. verdict) result
        (audit_outcome (option_map audit_args_view names.now) held)) }
    ensures cause { IfErr result (ErrorHasCause bootaudit (F.faults files.old) (F.faults files.new)
        (option_map audit_args_view names.now)) }
    ensures usage { IsNone (option_map audit_args_view names.now)
        → result ≡ Err (errors.Reason reasons.Usage) }
    ensures near { IfOk result HasFrameInSpace }
    ensures unfetched { IsNone (option_map audit_args_view names.now) → files.new ≡ files.old }
{
    let Some(names) = names else {
        return Err(NoVerdict::Reason(AuditReason::Usage));
    };
    let saved = fetch_saved(alloc, files, names)?;
    Ok(judge(&saved, names.width)?)
}
