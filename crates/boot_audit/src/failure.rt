//! The saved reports, their faults, and the ways in which the audit ends without a verdict.

ghost use Rattle.std.specs.Prelude.{◌≡◌};
ghost use Rattle.boot_audit.specs.Line.{report_word};
ghost use Rattle.boot_audit.specs.Status.{verdict_status};

use crate::judgement::Verdict;
use audit_lines::LineFault;

/// One of the three saved reports, in the order in which the audit reads them.
#[derive(Clone, Copy, Debug, PartialEq, Eq)]
pub enum SavedReport {
    /// The report `map`: the memory map after the boot edited it, as ranges with a type.
    Map,
    /// The report `owners`: the ranges of memory that the boot reserved, each with its owner.
    Owners,
    /// The report `blocks`: the free blocks of the page allocator.
    Blocks,
}

/// What is wrong with the file of a saved report.
#[derive(Clone, Copy, Debug, PartialEq, Eq)]
pub enum ReportFault {
    /// The file contains more than 536,870,912 bytes.
    TooLong,
    /// A line is malformed or out of order. This is the fault of the first such line.
    Line(LineFault),
}

/// The type of causes for [`program_end::Reason`]. It has no value: the audit of well-formed
/// reports always gives a verdict.
#[derive(Clone, Copy)]
pub enum NoCause {}

/// Why there is no verdict: the command line isn't accepted, or a file can't be read or has a
/// fault.
pub type AuditReason = program_end::Reason<SavedReport, ReportFault, NoCause>;

/// Why a call returns no verdict: an [`AuditReason`], or out of memory.
pub type NoVerdict = program_end::NoResult<AuditReason>;

/// Why the audit didn't write the whole text of a verdict: there is none, or the output failed.
pub type Failure = program_end::Failure<AuditReason>;

impl SavedReport {
    /// Returns the report's name: `map`, `owners` or `blocks`. Error lines use it.
    pub fn report_word(self) -> &'static str
        ensures { result.now ≡ report_word self }
    {
        match self {
            SavedReport::Map => "map",
            SavedReport::Owners => "owners",
            SavedReport::Blocks => "blocks",
        }
    }
}

/// Returns the exit status of `bootaudit` for a verdict: 0 for `Sound`, 8 for any other.
pub fn verdict_status(verdict: Verdict) -> u8
    ensures { result ≡ verdict_status verdict }
{
    match verdict {
        Verdict::Sound => 0,
        _ => 8,
    }
}
