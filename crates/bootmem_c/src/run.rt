//! The program as one call, over words and files that the caller passes: `bootmem`, or the program
//! of another profile.

ghost use Rattle.std.specs.Prelude.{◌≡◌, ◌≢◌, ◌⊎◌, ℕ, IsNone, IsOkAnd, List, [], false, true, Some, ◌*◌, ◌+◌};
ghost use Rattle.bm_io.specs.MemFiles.{file_bytes};
ghost use Rattle.program_args.specs.Args.{bytes_of_words};
ghost use Rattle.program_run.specs.Headline.{AppendsReports};
ghost use Rattle.bootmem_c.specs.Lent.{lent_files, lent_words};
ghost use Rattle.bootmem_c.specs.Call.{HasReportsAs, HasReportsBy, read_lent_args, call_line, call_line_as, call_line_by, out_of_memory_line, out_of_memory_line_as, outcome_as, outcome_by, outcome_of, outcome_status};
ghost use Rattle.bootmem_c.specs.Copies.{CopiesText};
ghost use Rattle.bootmem_c.specs.Profiles.{profile_of_number};

use crate::crossing::{Bytes, File, Text, copy_text};
use crate::lent_files::LentFiles;
use crate::profile::{BootProfile, OWN, profile_of_number};
use crate::text_sink::TextSink;
use crate::words::{StringsError, strings_of_words};
use program_run::{run, run61};
use std::alloc::Global;

/// Runs `bootmem`. `words` are the words of its command line after the program's name, and `files`
/// the files that they may name. Returns the exit status: 0, 2, 3, 5 or 6 as the words and files
/// determine, or 7 if out of memory, even if only the error line needed the memory. With status 0
/// copies the reports to `out`. With any other status copies to `err` the one line that says why
/// the program failed; for a word that isn't UTF-8 this line is empty.
#[unsafe(no_mangle)]
pub extern "C" fn bootmem_run(
    alloc: Global,
    words: &[Bytes<'_>],
    files: &[File<'_>],
    out: &mut Text<'_>,
    err: &mut Text<'_>,
) -> u8
    // The status is that of the outcome, which the words and files determine, or 7 if out of
    // memory.
    ensures status { (result ≡ outcome_status (outcome_of words.now files.now)) ⊎ (result ≡ 7) }

    // With status 0 `out` has the text of the outcome, and the four facts of the headline hold for
    // the boot that it describes. With any other status `out` has the empty text.
    ensures written { result ≡ 0
        → IsOkAnd (outcome_of words.now files.now) (λ text. CopiesText text out.old out.new) }
    ensures headline { result ≡ 0 → (text : List ℕ) × CopiesText text out.old out.new
        × AppendsReports (read_lent_args (lent_words words.now)) (file_bytes (lent_files files.now))
        (Some []) (Some text) }
    ensures unwritten { result ≢ 0 → CopiesText [] out.old out.new }

    // With status 0 `err` has the empty text. With 7 it has the line that says that memory ran
    // out. With any other status it has the whole error line of the outcome, which is empty if a
    // word isn't UTF-8.
    ensures silent { result ≡ 0 → CopiesText [] err.old err.new }
    ensures line { result ≢ 0 → result ≢ 7
        → CopiesText (call_line words.now files.now) err.old err.new }
    ensures memory { result ≡ 7 → CopiesText out_of_memory_line err.old err.new }
{
    bootmem_run_as(alloc, OWN, words, files, out, err)
}

/// Runs the program whose boot has the profile of this number: `bootmem` for 0, `bootmem61` for 1.
/// `words` are the words after the program's name, and `files` the files that they may name. Copies
/// the reports to `out`, and the line that says why the program failed to `err`. Returns the exit
/// status: that of the outcome (0, 2, 3, 5 or 6), or 7 if out of memory, even if only the error line
/// needed the memory. With any other number the status is 2, and both texts are empty.
#[unsafe(no_mangle)]
pub extern "C" fn bootmem_run_as(
    alloc: Global,
    profile: u32,
    words: &[Bytes<'_>],
    files: &[File<'_>],
    out: &mut Text<'_>,
    err: &mut Text<'_>,
) -> u8
    // The status is that of the one outcome that profile, words and files determine, or 7 for out
    // of memory. It is 2 if there is no such profile.
    ensures status { (result ≡ outcome_status (outcome_as profile words.now files.now)) ⊎ (result
        ≡ 7) }
    ensures unknown { IsNone (profile_of_number profile) → result ≡ 2 }

    // With status 0 `out` has the text of the outcome, and the four facts of the headline hold for
    // the boot that it describes. With any other status `out` has the empty text.
    ensures written { result ≡ 0 → IsOkAnd (outcome_as profile words.now files.now)
        (λ text. CopiesText text out.old out.new) }
    ensures headline { result ≡ 0 → (text : List ℕ) × CopiesText text out.old out.new
        × HasReportsAs profile words.now files.now text }
    ensures unwritten { result ≢ 0 → CopiesText [] out.old out.new }

    // With status 0 `err` has the empty text. With 7 it has the line of out of memory, and with
    // any other status the whole line of the outcome, which is empty if there is no such profile.
    ensures silent { result ≡ 0 → CopiesText [] err.old err.new }
    ensures line { result ≢ 0 → result ≢ 7
        → CopiesText (call_line_as profile words.now files.now) err.old err.new }
    ensures memory { result ≡ 7 → CopiesText (out_of_memory_line_as profile) err.old err.new }
{
    let mut report = TextSink::new(alloc);
    let mut line = TextSink::new(alloc);
    let ran = run_lent_files(alloc, profile, words, files, &mut report, &mut line);
    let status = status_after_line(ran, &line);
    copy_text(report_text_for_status(status, &report), out);
    copy_text(error_text_for_status(profile, status, &line), err);
    status
}

/// Runs the program whose boot has the profile of this number over these words and files. `report`
/// and `line` must be empty. Returns the exit status; 2 if there is no such profile. If memory runs
/// out for the error line, `line.is_short` returns true afterwards.
fn run_lent_files(
    alloc: Global,
    profile: u32,
    words: &[Bytes<'_>],
    files: &[File<'_>],
    report: &mut TextSink,
    line: &mut TextSink,
) -> u8
    requires empty { report.old.text ≡ [] }
    requires no_line { line.old.text ≡ [] }
    requires not_short { line.old.is_short ≡ false }
    ensures status { (result ≡ outcome_status (outcome_as profile words.now files.now)) ⊎ (result
        ≡ 7) }
    ensures unknown { IsNone (profile_of_number profile) → result ≡ 2 }
    ensures quiet { IsNone (profile_of_number profile) → line.new ≡ line.old }
    ensures written { result ≡ 0
        → IsOkAnd (outcome_as profile words.now files.now) (λ text. report.new.text ≡ text) }
    ensures headline { result ≡ 0 → HasReportsAs profile words.now files.now report.new.text }
    ensures line { result ≢ 0 → result ≢ 7 → line.new.is_short ≡ false
        → line.new.text ≡ call_line_as profile words.now files.now }
{
    let Some(profile) = profile_of_number(profile) else {
        return 2;
    };
    match strings_of_words(alloc, words) {
        Ok(texts) => run_strings(alloc, profile, &texts, files, report, line),
        Err(StringsError::NotUtf8) => 2,
        Err(StringsError::Memory) => 7,
    }
}

/// Runs the program whose boot has this profile over these words, which are UTF-8, and these files.
/// `report` and `line` must be empty. Returns the exit status. If memory runs out for the error
/// line, `line.is_short` returns true afterwards.
fn run_strings(
    alloc: Global,
    profile: BootProfile,
    words: &[String],
    files: &[File<'_>],
    report: &mut TextSink,
    line: &mut TextSink,
) -> u8
    requires empty { report.old.text ≡ [] }
    requires no_line { line.old.text ≡ [] }
    requires not_short { line.old.is_short ≡ false }
    ensures status { (result ≡ outcome_status (outcome_by (Some profile) true
        (bytes_of_words words.now) (file_bytes (lent_files files.now)))) ⊎ (result ≡ 7) }
    ensures written { result ≡ 0 → IsOkAnd (outcome_by (Some profile) true
        (bytes_of_words words.now) (file_bytes (lent_files files.now)))
        (λ text. report.new.text ≡ text) }
    ensures headline { result ≡ 0 → HasReportsBy (Some profile) true (bytes_of_words words.now)
        (file_bytes (lent_files files.now)) report.new.text }
    ensures line { result ≢ 0 → result ≢ 7 → line.new.is_short ≡ false
        → line.new.text ≡ call_line_by (Some profile) true (bytes_of_words words.now)
        (file_bytes (lent_files files.now)) }
{
    let mut lent = LentFiles::new(files);
    match profile {
        BootProfile::Own => run(alloc, words, &mut lent, report, line),
        BootProfile::Linux61 => run61(alloc, words, &mut lent, report, line),
    }
}

/// Returns the exit status of the whole call. If memory ran out while the error line was written,
/// this is 7, else the status `ran` that the run returned.
fn status_after_line(ran: u8, line: &TextSink) -> u8
    ensures whole { line.now.is_short ≡ false → result ≡ ran }
    ensures short { line.now.is_short ≡ true → result ≡ 7 }
{
    if line.is_short() { 7 } else { ran }
}

/// Returns the text for `out`: the reports if the status is 0, else the empty text.
fn report_text_for_status(status: u8, report: &TextSink) -> &[u8]
    ensures written { status ≡ 0 → result.now ≡ report.now.text }
    ensures unwritten { status ≢ 0 → result.now ≡ [] }
{
    if status == 0 {
        return report.text();
    }
    &[]
}

/// Returns the text for `err`: the empty text with status 0, the out-of-memory line of the profile
/// of this number with 7, and else the error line that the run wrote.
fn error_text_for_status(profile: u32, status: u8, line: &TextSink) -> &[u8]
    ensures silent { status ≡ 0 → result.now ≡ [] }
    ensures memory { status ≡ 7 → result.now ≡ out_of_memory_line_as profile }
    ensures line { status ≢ 0 → status ≢ 7 → result.now ≡ line.now.text }
{
    match status {
        0 => &[],
        7 => out_of_memory_text(profile),
        _ => line.text(),
    }
}

/// Returns the line for out of memory: that of `bootmem61` for the profile of Linux 6.1, else that of
/// `bootmem`.
fn out_of_memory_text(profile: u32) -> &'static [u8]
    ensures { result.now ≡ out_of_memory_line_as profile }
{
    match profile_of_number(profile) {
        Some(BootProfile::Linux61) => b"bootmem61: out of memory\n",
        Some(BootProfile::Own) | None => b"bootmem: out of memory\n",
    }
}

/// Returns the library's version, 0.1.0, as major * 1000000 + minor * 1000 + patch.
#[unsafe(no_mangle)]
pub extern "C" fn bootmem_version() -> u32
    ensures { result ≡ 0 * 1000000 + 1 * 1000 + 0 }
{
    1_000
}
