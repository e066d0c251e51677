//! Reads a report: lines of one form, whose ranges of addresses ascend and don't overlap.

ghost use Rattle.std.specs.Prelude.{◌≡◌, ◌+◌, ◌<◌, ◌≤◌, ◌^◌, ℕ, List, Option, length, map, IfOk, IsErrOf, [], ◌∷◌, IfSome, IfNone};
ghost use Rattle.audit_lines.specs.Lines.{AscendApart};
ghost use Rattle.audit_lines.specs.Reports.{report_line_at, report_of, split_lines};
ghost use Rattle.bm_base.specs.Answers.{Answers};
ghost use Rattle.bm_base.specs.Range.{RangeView, end_of};
ghost use Rattle.bm_base.specs.ResultSteps.{map_error};

use std::alloc::Global;

/// What is wrong with a line of a report. `line` is the number of the line, from 1.
#[derive(Clone, Copy, Debug, PartialEq, Eq)]
pub enum LineFault {
    /// The text of the line doesn't have the form of this report's lines, or doesn't end with a
    /// newline.
    Form { line: u64 },
    /// The range of the line begins below the end of the range of the line before it.
    Order { line: u64 },
}

/// Why a report is refused.
#[derive(Clone, Copy, Debug, PartialEq, Eq)]
pub enum ReadError {
    /// What is wrong with the first line that has a fault.
    Fault(LineFault),
    /// The program ran out of memory.
    Memory,
}

impl From<LineFault> for ReadError {
    ghost use Rattle.std.specs.Prelude.{◌≡◌};
    ghost use Rattle.audit_lines.specs.declared.report.ReadError.TheVariants as errors;

    ghost from_gives = { λ fault error. error ≡ errors.Fault fault };

    fn from(fault: LineFault) -> ReadError {
        ReadError::Fault(fault)
    }
}

/// A line of the report `map`, `owners` or `blocks`, as a type that [`read_report`] can read.
pub trait ReportLine: Copy + Drop {
    // `form index text`: the line that the text spells as line number `index` of the report,
    // counted from 0; `None` if it spells none
    ghost form: { ℕ → List ℕ → Option Self };

    // the range of addresses that the line states
    ghost extent: { Self → RangeView };

    /// Returns the line that the text spells, or `None` if the text isn't a line of this report.
    /// The text has no newline. `index` is the number of the line in the report, counted from 0.
    fn read(index: u64, text: &[u8]) -> Option<Self>
        ensures { result ≡ form index text.now };

    /// Returns the first address of the range that the line states.
    fn base(&self) -> u64
        ensures { result ≡ (extent self.now).base };

    /// Returns the address after the last one of the range that the line states.
    fn end(&self) -> u64
        ensures { result ≡ end_of (extent self.now) };
}

/// Reads the bytes of a report, and returns its lines. Their ranges ascend and are disjoint. There
/// are at most as many lines as bytes.
///
/// # Errors
///
/// - `Fault`: the fault of the first line that has one.
/// - `Memory`: the program ran out of memory. This never happens for an empty report.
pub fn read_report<L: ReportLine>(alloc: Global, bytes: &[u8]) -> Result<Vec<L>, ReadError>
    ensures answers { Answers ReadError.Memory (λ lines. lines.items) result
        (map_error ReadError.Fault (report_of L.form L.extent bytes.now)) }
    ensures memory { IsErrOf result ReadError.Memory → 0 < length bytes.now }
    ensures order { IfOk result (λ lines. AscendApart (map L.extent lines.items)) }
    ensures few { IfOk result (λ lines. length lines.items ≤ length bytes.now) }
{
    let mut lines = Vec::new(alloc);
    let mut rest = bytes;
    let mut index = 0;
    let mut at = 0;
    while let Some((text, others)) = cut_line(rest) {
        let line: L = report_line_at(index, at, text)?;
        at = line.end();
        if lines.push(line).is_err() {
            return Err(ReadError::Memory);
        }
        index += 1;
        rest = others;
    }
    if rest.is_empty() {
        return Ok(lines);
    }
    Err(ReadError::Fault(LineFault::Form { line: index + 1 }))
}

/// Returns the line that the text spells as line number `index` of the report, counted from 0. The
/// line's range must begin at or above address `at`, where the range of the line before it ends.
///
/// # Errors
///
/// - `Form`: the text doesn't have the form of this report's lines.
/// - `Order`: the range of the line begins below `at`.
fn report_line_at<L: ReportLine>(index: u64, at: u64, text: &[u8]) -> Result<L, LineFault>
    requires { index + 1 < 2 ^ 64 }
    ensures { result ≡ report_line_at L.form L.extent index at text.now }
{
    let Some(line) = L::read(index, text) else {
        return Err(LineFault::Form { line: index + 1 });
    };
    if line.base() < at {
        return Err(LineFault::Order { line: index + 1 });
    }
    Ok(line)
}

/// Returns the first line of the text, without its newline, and the text after that newline.
/// Returns `None` if the text has no newline.
pub fn cut_line(text: &[u8]) -> Option<(&[u8], &[u8])>
    ensures line { IfSome result (λ found. split_lines text.now
        ≡ (found.0.now ∷ (split_lines found.1.now).0, (split_lines found.1.now).1)) }
    ensures shorter { IfSome result (λ found. length found.1.now < length text.now) }
    ensures none { IfNone result (split_lines text.now ≡ ([], text.now)) }
{
    for (index, byte) in text.iter().enumerate() {
        if *byte == b'\n' {
            return Some((text.split_at(index).0, text.split_at(index + 1).1));
        }
    }
    None
}
