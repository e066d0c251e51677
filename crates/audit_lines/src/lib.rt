//! Reads three saved reports of a boot, `map`, `owners` and `blocks`, in the form in which
//! `bootmem` prints them.
//!
//! The ranges of addresses that the lines of a report state ascend and don't overlap.
//! [`read_report`] reads any of the three reports. It reads the form of the type that its caller
//! asks for: [`MapLine`] for `map`, [`Range`] for `owners`, [`BlockLine`] for `blocks`.
//! `report_of` (`specs/Reports.antt`) defines the result: the lines, or the fault of the first
//! line that has one.
//!
//! The reader accepts only the exact form. A number has no leading zeros, an address has sixteen
//! lower-case digits, a line of `owners` begins with its number in the report, and a line of `map`
//! has the name that belongs to its type number. Each text therefore has at most one meaning.
//!
//! The crates above can rely on this: the ranges of the lines ascend and are disjoint, and a
//! report has at most as many lines as bytes. In contracts, a name means the definition in
//! `specs/`.
//!
//! [`Range`]: bm_base::Range
#![tactic(auto)]

mod fields;
mod forms;
mod lines;
mod names;
mod report;

pub use lines::{BlockLine, MapLine};
pub use report::{LineFault, ReadError, ReportLine, read_report};
