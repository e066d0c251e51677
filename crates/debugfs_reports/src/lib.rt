//! Renders the reports of a boot: their names, their texts, and lists of them.
//!
//! A report is a text of lines, in the style of the files in `/sys/kernel/debug`. [`Report`] lists
//! the reports, [`report_named`] finds one by its name, and [`render`] returns its text (`render`
//! of `specs/Report.antt`). The reports `memory` and `reserved` show the records that are in the
//! bytes of memblock's two tables. Every other report is made from the result of the boot,
//! [`Booted`]. If those records are the ones that result from the boot's journal, the text of a
//! report is `report_text` of `specs/Report.antt`.
//!
//! The caller must ensure two things. The bytes of each table, at the address in its head, are an
//! ascending list of records (`specs/TableHeads.antt`), whose flags and nodes may have any value.
//! The runs of the map ascend. Neighbouring records or runs may touch and have the same value. The
//! lines come from `report_memory` and `report_stages`, so here a report is a name and one call.
//! Only the summary is counted here ([`summary_of`], `specs/Summary.antt`).
//!
//! A list of reports is a text of names with commas between them; a name may occur twice.
//! [`are_reports`] tests whether each name is that of a report. It allocates nothing, so a list can
//! be refused before any other work. [`reports_in`] returns the reports, and [`render_all`] all
//! their texts (`specs/ReportList.antt`). If there are two or more, each text begins with a line
//! that has its name.
//!
//! These two accept the reports of `bootmem` ([`REPORTS`]). A program with early claims has one
//! report more, the outcomes of the claims ([`REPORTS_WITH_CLAIMS`]). [`are_names_of`] and
//! [`reports_named_in`] do the same for any list of known reports.
//!
//! The layer above can rely on this: a call returns exactly these texts or `Memory`, and all texts
//! are complete before the first is written. In contracts, a name means the definition in `specs/`.
#![tactic(auto)]

mod list;
mod report;
mod summary;

pub use boot_model::Booted;
pub use list::{are_names_of, are_reports, render_all, reports_in, reports_named_in};
pub use report::{REPORTS, REPORTS_WITH_CLAIMS, Report, first_report_named, render, report_named};
pub use summary::summary_of;
