//! Fetches and reads the three reports, one after another.

ghost use Rattle.std.specs.Prelude.{◌≡◌, ◌<◌, ◌≤◌, ◌^◌, ℕ, List, length, map, IfErr, IfOk, IfSome, IsErrOf};
ghost use Rattle.audit_lines.specs.Blocks.{bytes_of_block};
ghost use Rattle.audit_lines.specs.Lines.{AscendApart};
ghost use Rattle.bm_io.specs.Counts.{Rose};
ghost use Rattle.program_end.specs.declared.failure.NoResult.TheVariants as errors;
ghost use Rattle.program_end.specs.declared.failure.Reason.TheVariants as reasons;
ghost use Rattle.program_end.specs.Causes.{IsErrorOfInput, IsFileError};
ghost use Rattle.program_end.specs.Fetches.{Fetches};
ghost use Rattle.boot_audit.specs.Audit.{bootaudit, report_position};
ghost use Rattle.boot_audit.specs.Outcome.{lines_in_file, saved_in_files};
ghost use Rattle.boot_audit.specs.View.{saved_view, audit_args_view};

use crate::args::AuditArgs;
use crate::failure::{AuditReason, NoVerdict, ReportFault, SavedReport};
use crate::judgement::Saved;
use audit_lines::{BlockLine, MapLine, ReadError, ReportLine, read_report};
use bm_base::Range;
use bm_io::{Fetch, Files};
use std::alloc::Global;

/// The greatest number of bytes of a saved report: 512 MiB.
const MOST_REPORT_BYTES: u64 = 536_870_912;

/// Fetches the three files that the command line names, in the order `map`, `owners`, `blocks`,
/// and returns their lines. In each report the ranges of the lines ascend and are disjoint. There
/// are fewer than 2^32 blocks.
///
/// # Errors
///
/// The first file with an error ends the call.
///
/// - `AuditReason::Unread` if the file can't be read.
/// - `AuditReason::Faulty` if the file contains more than 512 MiB, or a line has a fault.
/// - `Memory` if this program is out of memory.
pub fn fetch_saved<F: Files>(
    alloc: Global,
    files: &mut F,
    names: &AuditArgs<'_>,
) -> Result<Saved, NoVerdict>
    ensures fetches { IfSome (F.holds files.old) (λ held.
        Fetches report_position saved_view result
        (saved_in_files held (audit_args_view names.now))) }
    ensures cause { IfErr result (IsFileError (F.faults files.old) (F.faults files.new)
        (bootaudit.named (audit_args_view names.now))) }
    ensures map_order { IfOk result (λ saved. AscendApart (map (λ l. l.range) saved.map.items)) }
    ensures owner_order { IfOk result (λ saved. AscendApart (map (λ r. r) saved.owners.items)) }
    ensures block_order { IfOk result (λ saved.
        AscendApart (map bytes_of_block saved.blocks.items)) }
    ensures few { IfOk result (λ saved. length saved.blocks.items < 2 ^ 32) }
{
    let runs: Vec<MapLine> = fetch_lines(alloc, files, names.map, SavedReport::Map)?;
    let owners: Vec<Range> = fetch_lines(alloc, files, names.owners, SavedReport::Owners)?;
    let blocks: Vec<BlockLine> = fetch_lines(alloc, files, names.blocks, SavedReport::Blocks)?;
    Ok(Saved {
        map: runs,
        owners,
        blocks,
    })
}

/// Fetches the file `name` and reads it as the report `report`. Returns its lines.
///
/// # Errors
///
/// - `AuditReason::Unread` if the file can't be read.
/// - `AuditReason::Faulty` if the file contains more than 512 MiB, or a line has a fault.
/// - `Memory` if this program is out of memory.
fn fetch_lines<F: Files, L: ReportLine>(
    alloc: Global,
    files: &mut F,
    name: &str,
    report: SavedReport,
) -> Result<Vec<L>, NoVerdict>
    ensures fetches { IfSome (F.holds files.old) (λ held.
        Fetches report_position (λ lines. lines.items) result
        (lines_in_file L.form L.extent report (held name.now))) }
    ensures own { IfErr result (IsErrorOfInput report) }
    ensures failed { IsErrOf result (errors.Reason (reasons.Unread report))
        → Rose (F.faults files.old name.now) (F.faults files.new name.now) }
    ensures kept { F.holds files.new ≡ F.holds files.old }
    ensures faults_stay { (any : List ℕ) → F.faults files.old any ≤ F.faults files.new any }
    ensures order { IfOk result (λ lines. AscendApart (map L.extent lines.items)) }
    ensures few { IfOk result (λ lines. length lines.items < 2 ^ 32) }
{
    let bytes = match files.fetch(alloc, name, MOST_REPORT_BYTES) {
        Ok(bytes) => bytes,
        Err(Fetch::Failed) => return Err(NoVerdict::Reason(AuditReason::Unread(report))),
        Err(Fetch::TooLong) => return Err(NoVerdict::Reason(AuditReason::Faulty(
            report,
            ReportFault::TooLong,
        ))),
        Err(Fetch::Memory) => return Err(NoVerdict::Memory),
    };
    match read_report(alloc, &bytes) {
        Ok(lines) => Ok(lines),
        Err(ReadError::Fault(fault)) => Err(NoVerdict::Reason(AuditReason::Faulty(
            report,
            ReportFault::Line(fault),
        ))),
        Err(ReadError::Memory) => Err(NoVerdict::Memory),
    }
}
