//! The reports, their names and their texts. All three are in one file: a name is accepted before
//! the boot and the text is made after it, so each accepted name must have a text.

ghost use Rattle.std.specs.Prelude.{◌≡◌, ◌++◌, IfOk, OnOk};
ghost use Rattle.std.specs.Str.{bytes_eq};
ghost use Rattle.boot_model.specs.View.{booted_view};
ghost use Rattle.debugfs_reports.specs.Report.{first_report_named, report_name, report_named, report_text, render};
ghost use Rattle.debugfs_reports.specs.TableHeads.{HeadsHaveRecords, records_at_heads};
ghost use Rattle.address_runs.specs.Ascend.{Ascend};

use crate::summary::summary_of;
use bm_base::Memory;
use boot_model::Booted;
use report_memory::{put_journal, put_map, put_options, put_owners, put_records, put_tables};
use report_stages::{
    put_blocks, put_buddyinfo, put_crash, put_nodes, put_pages, put_script, put_sections,
    put_summary, put_zonelists, put_zones,
};
use std::alloc::Global;

/// A report of a boot.
#[derive(Clone, Copy, Debug, PartialEq, Eq)]
pub enum Report {
    /// The map: each run, with the number and the name of its type.
    Map,
    /// The options that the kernel's command line sets for the memory set-up.
    Options,
    /// Whether the SRAT is used, and the node of each range of memory.
    Nodes,
    /// The records of `memblock.memory`.
    Memory,
    /// The records of `memblock.reserved`.
    Reserved,
    /// The owner of each range of bytes.
    Owners,
    /// Each recorded change of memblock, oldest first.
    Journal,
    /// Where the crash area is reserved, or why it isn't.
    Crash,
    /// The addresses of the section roots, and of the page structures and usage data of each
    /// section.
    Sections,
    /// The frames of each node and zone, and how many of them are free.
    Zones,
    /// The outcome of each line of the early script, except for the command `sections`.
    Script,
    /// The address of each of memblock's two tables, and how full it is.
    Tables,
    /// The number of free blocks of each order, by node and zone.
    Buddyinfo,
    /// Each free block: its node, zone, order and address.
    Blocks,
    /// The outcome of each line of the page script.
    Pages,
    /// The number of free blocks of each order after the page script, by node and zone.
    Pagesinfo,
    /// For each node, the order in which an allocation for it tries the zones.
    Zonelists,
    /// The totals at the end of the boot.
    Summary,
    /// The outcome of each line of the early claims. `bootmem` doesn't have this report.
    Claims,
}

impl Report {
    /// Returns the name of the report, by which a user requests it, as in `--report buddyinfo`.
    pub fn name(self) -> &'static str
        ensures { result.now ≡ report_name self }
    {
        match self {
            Report::Map => "map",
            Report::Options => "options",
            Report::Nodes => "nodes",
            Report::Memory => "memory",
            Report::Reserved => "reserved",
            Report::Owners => "owners",
            Report::Journal => "journal",
            Report::Crash => "crash",
            Report::Sections => "sections",
            Report::Zones => "zones",
            Report::Script => "script",
            Report::Tables => "tables",
            Report::Buddyinfo => "buddyinfo",
            Report::Blocks => "blocks",
            Report::Pages => "pages",
            Report::Pagesinfo => "pagesinfo",
            Report::Zonelists => "zonelists",
            Report::Summary => "summary",
            Report::Claims => "claims",
        }
    }
}

/// All reports of `bootmem`.
pub const REPORTS: [Report; 18] = [
    Report::Map,
    Report::Options,
    Report::Nodes,
    Report::Memory,
    Report::Reserved,
    Report::Owners,
    Report::Journal,
    Report::Crash,
    Report::Sections,
    Report::Zones,
    Report::Script,
    Report::Tables,
    Report::Buddyinfo,
    Report::Blocks,
    Report::Pages,
    Report::Pagesinfo,
    Report::Zonelists,
    Report::Summary,
];

/// The reports of a program with early claims: those of `bootmem`, and the outcomes of the early
/// claims.
pub const REPORTS_WITH_CLAIMS: [Report; 19] = [
    Report::Map,
    Report::Options,
    Report::Nodes,
    Report::Memory,
    Report::Reserved,
    Report::Owners,
    Report::Journal,
    Report::Crash,
    Report::Sections,
    Report::Zones,
    Report::Script,
    Report::Tables,
    Report::Buddyinfo,
    Report::Blocks,
    Report::Pages,
    Report::Pagesinfo,
    Report::Zonelists,
    Report::Summary,
    Report::Claims,
];

/// Tests whether `name` is the name of `report`.
fn report_has_name(report: Report, name: &[u8]) -> bool
    ensures { result ≡ bytes_eq name.now (report_name report) }
{
    name == report.name().as_bytes()
}

/// Returns the report of `bootmem` with the name, or `None` if there is none. Allocates nothing.
pub fn report_named(name: &[u8]) -> Option<Report>
    ensures { result ≡ report_named name.now }
{
    first_report_named(&REPORTS, name)
}

/// Returns the first of these reports that has the name, or `None` if none has it. Allocates
/// nothing.
pub fn first_report_named(reports: &[Report], name: &[u8]) -> Option<Report>
    ensures { result ≡ first_report_named reports.now name.now }
{
    let mut rest = reports;
    while let [report, others @ ..] = rest {
        if report_has_name(*report, name) {
            return Some(*report);
        }
        rest = others;
    }
    None
}

/// Returns the text of `report` for the boot with the results `booted`. The reports `memory` and
/// `reserved` show the records in the bytes of memblock's two tables, even if the boot's journal
/// gives other records. Allocates memory for the whole text.
///
/// # Errors
///
/// - `Memory`: the program ran out of memory.
pub fn render(alloc: Global, report: Report, booted: &Booted) -> Result<Vec<u8>, Memory>
    requires tables { HeadsHaveRecords booted.now }
    requires map { Ascend booted.now.map.items }
    ensures { IfOk result (λ text. text.items
        ≡ render report (booted_view booted.now) (records_at_heads booted.now)) }
{
    let mut text = Vec::new(alloc);
    put_report(&mut text, report, booted)?;
    Ok(text)
}

/// Appends the text of `report` for the boot with the results `booted`. The reports `memory` and
/// `reserved` show the records in the bytes of memblock's two tables.
///
/// # Errors
///
/// - `Memory`: the program ran out of memory; the text is incomplete.
pub fn put_report(text: &mut Vec<u8>, report: Report, booted: &Booted) -> Result<(), Memory>
    requires tables { HeadsHaveRecords booted.now }
    requires map { Ascend booted.now.map.items }
    ensures { OnOk result (text.new.items
        ≡ text.old.items ++ render report (booted_view booted.now) (records_at_heads booted.now)) }
{
    match report {
        Report::Map => put_map(text, &booted.map),
        Report::Options => put_options(text, &booted.options),
        Report::Nodes => put_nodes(text, &booted.nodes, &booted.journal),
        Report::Memory => put_records(text, &booted.store, &booted.heads.memory),
        Report::Reserved => put_records(text, &booted.store, &booted.heads.reserved),
        Report::Owners => put_owners(text, &booted.journal),
        Report::Journal => put_journal(text, &booted.journal),
        Report::Crash => put_crash(text, &booted.crash),
        Report::Sections => put_sections(text, &booted.roots, &booted.placed),
        Report::Zones => put_zones(text, &booted.spans, &booted.buddy),
        Report::Script => put_script(text, &booted.answers),
        Report::Tables => put_tables(text, &booted.heads),
        Report::Buddyinfo => put_buddyinfo(text, &booted.spans, &booted.buddy),
        Report::Blocks => put_blocks(text, &booted.buddy),
        Report::Pages => put_pages(text, &booted.page_answers),
        Report::Pagesinfo => put_buddyinfo(text, &booted.spans, booted.after.buddy()),
        Report::Zonelists => put_zonelists(text, &booted.lists),
        Report::Summary => put_booted_summary(text, booted),
        Report::Claims => put_script(text, &booted.claim_answers),
    }
}

/// Appends the text of the report `summary`. Besides the text it allocates the list of rows of free
/// blocks.
///
/// # Errors
///
/// - `Memory`: the program ran out of memory; the text is incomplete.
fn put_booted_summary(text: &mut Vec<u8>, booted: &Booted) -> Result<(), Memory>
    requires { Ascend booted.now.map.items }
    ensures { OnOk result
        (text.new.items ≡ text.old.items ++ report_text Report.Summary (booted_view booted.now)) }
{
    put_summary(text, &summary_of(booted)?)
}
