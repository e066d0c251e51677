//! Writes the error lines of the audit.

ghost use Rattle.std.specs.Prelude.{◌≡◌, []};
ghost use Rattle.std.specs.Option.{option_map};
ghost use Rattle.program_end.specs.Line.{PutsLine};
ghost use Rattle.boot_audit.specs.Line.{named_fault_line, line_fault_line, report_file_text, numbered_line, bootaudit_name, report_fault_line};
ghost use Rattle.boot_audit.specs.View.{audit_args_view};

use crate::args::AuditArgs;
use crate::failure::{ReportFault, SavedReport};
use audit_lines::LineFault;
use bm_io::Sink;
use itoa::Buffer;
use program_end::{Lines, put_line};

/// The error lines of `bootaudit`. `names` is the accepted command line, whose file names the
/// lines cite, or `None` if the command line was refused.
#[derive(Clone, Copy)]
pub struct AuditLines<'a, 'w> {
    pub names: &'a Option<AuditArgs<'w>>,
}

impl<'a, 'w, C: Copy> Lines<SavedReport, ReportFault, C> for AuditLines<'a, 'w> {
    ghost program_name = { bootaudit_name };

    ghost file_name = { λ lines report.
        report_file_text (option_map audit_args_view lines.names.now) report };

    ghost fault_line = { report_fault_line };

    ghost cause_line = { λ _. [] };

    fn program() -> &'static str {
        "bootaudit"
    }

    fn file(&self, report: SavedReport) -> &str {
        match self.names {
            Some(names) => names.report_file_name(report),
            None => "",
        }
    }

    fn put_fault_line<E: Sink>(err: &mut E, report: SavedReport, fault: ReportFault) {
        put_named_fault_line(err, report.report_word(), fault)
    }

    fn put_cause_line<E: Sink>(_err: &mut E, _cause: C) {}
}

/// Writes to `err` the line for a fault of the report with the name `word`: `bootaudit: WORD: too
/// long`, or the line for the first line of the report that has a fault.
fn put_named_fault_line<'a, E: Sink>(err: &mut E, word: &'a str, fault: ReportFault)
    ensures { PutsLine E.Sink err.old err.new (named_fault_line word.now fault) }
{
    match fault {
        ReportFault::TooLong => put_line(err, &["bootaudit: ", word, ": too long\n"]),
        ReportFault::Line(fault) => put_line_fault_line(err, word, fault),
    }
}

fn put_line_fault_line<E: Sink>(err: &mut E, word: &str, fault: LineFault)
    ensures { PutsLine E.Sink err.old err.new (line_fault_line word.now fault) }
{
    match fault {
        LineFault::Form { line } => put_numbered_line(err, word, line, "form"),
        LineFault::Order { line } => put_numbered_line(err, word, line, "order"),
    }
}

/// Writes to `err` the line `bootaudit: WORD: line LINE: WHAT`: line number `line` of the report
/// `word`, from 1, has the fault `what`.
fn put_numbered_line<'a, E: Sink>(err: &mut E, word: &'a str, line: u64, what: &'a str)
    ensures { PutsLine E.Sink err.old err.new (numbered_line word.now line what.now) }
{
    let mut buffer = Buffer::new();
    let line = buffer.format(line);
    put_line(
        err,
        &["bootaudit: ", word, ": line ", line, ": ", what, "\n"],
    )
}
