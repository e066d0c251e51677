//! Lists of reports, such as `map,zones`: tests the names in a list, finds the reports, and makes
//! the texts of all of them.

ghost use Rattle.std.specs.Prelude.{◌≡◌, IfOk, length, map, nat_lt};
ghost use Rattle.std.specs.List.{flat_map};
ghost use Rattle.bm_base.specs.PutsText.{PutsText};
ghost use Rattle.boot_model.specs.View.{booted_view};
ghost use Rattle.debugfs_reports.specs.ReportList.{are_names_of, are_reports, reports_in, reports_named_in, render_list, render_part, report_title};
ghost use Rattle.debugfs_reports.specs.TableHeads.{HeadsHaveRecords, records_at_heads};
ghost use Rattle.address_runs.specs.Ascend.{Ascend};

use crate::report::{REPORTS, Report, first_report_named, put_report};
use bm_base::{Memory, put_text};
use boot_model::Booted;
use std::alloc::Global;
use text_words::{Separators, next_part};

/// Tests whether each name in the list, such as `map,zones`, is the name of a report of `bootmem`.
/// The result is false for the empty list, which is one empty name.
pub fn are_reports(list: &[u8]) -> bool
    ensures { result ≡ are_reports list.now }
{
    are_names_of(&REPORTS, list)
}

/// Tests whether each name in the list, such as `map,zones`, is the name of one of the `known`
/// reports. The result is false for the empty list, which is one empty name.
pub fn are_names_of(known: &[Report], list: &[u8]) -> bool
    ensures { result ≡ are_names_of known.now list.now }
{
    let mut rest = Some(list);
    while let Some(text) = rest {
        let (name, after) = next_part(text, Separators::Byte(b','));
        if first_report_named(known, name).is_none() {
            return false;
        }
        rest = after;
    }
    true
}

/// Returns the reports of `bootmem` whose names are in `list`, in the order of the list. Skips all
/// other names.
///
/// # Errors
///
/// - `Memory`: the program ran out of memory.
pub fn reports_in(alloc: Global, list: &[u8]) -> Result<Vec<Report>, Memory>
    ensures { IfOk result (λ reports. reports.items ≡ reports_in list.now) }
{
    reports_named_in(alloc, &REPORTS, list)
}

/// Returns those of the `known` reports whose names are in `list`, in the order of the list. Skips
/// all other names.
///
/// # Errors
///
/// - `Memory`: the program ran out of memory.
pub fn reports_named_in(alloc: Global, known: &[Report], list: &[u8]) -> Result<Vec<Report>, Memory>
    ensures { IfOk result (λ reports. reports.items ≡ reports_named_in known.now list.now) }
{
    let mut reports = Vec::new(alloc);
    let mut rest = Some(list);
    while let Some(text) = rest {
        let (name, after) = next_part(text, Separators::Byte(b','));
        if let Some(report) = first_report_named(known, name) {
            reports.push(report)?;
        }
        rest = after;
    }
    Ok(reports)
}

/// Returns the text of each report in a list, in the order of the list. If the list has two or
/// more, each text begins with the title line `== NAME`. Joined together, the texts are
/// what the program prints for the list.
///
/// # Errors
///
/// - `Memory`: the program ran out of memory.
pub fn render_all(
    alloc: Global,
    reports: &[Report],
    booted: &Booted,
) -> Result<Vec<Vec<u8>>, Memory>
    requires tables { HeadsHaveRecords booted.now }
    requires map { Ascend booted.now.map.items }
    ensures each { IfOk result (λ texts. map (λ text. text.items) texts.items
        ≡ map (render_part (nat_lt 1 (length reports.now)) (booted_view booted.now)
        (records_at_heads booted.now)) reports.now) }
    ensures whole { IfOk result (λ texts. flat_map (λ text. text.items) texts.items
        ≡ render_list reports.now (booted_view booted.now) (records_at_heads booted.now)) }
{
    let several = reports.len() > 1;
    let mut texts = Vec::new(alloc);
    for report in reports {
        texts.push(render_part(alloc, *report, several, booted)?)?;
    }
    Ok(texts)
}

/// Returns what one report contributes to the text of a list of reports: its title line `== NAME`
/// if the list has several reports, and then its text.
fn render_part(
    alloc: Global,
    report: Report,
    several: bool,
    booted: &Booted,
) -> Result<Vec<u8>, Memory>
    requires tables { HeadsHaveRecords booted.now }
    requires map { Ascend booted.now.map.items }
    ensures { IfOk result (λ text. text.items
        ≡ render_part several (booted_view booted.now) (records_at_heads booted.now) report) }
{
    let mut text = Vec::new(alloc);
    put_report_title(&mut text, several, report)?;
    put_report(&mut text, report, booted)?;
    Ok(text)
}

/// Appends the title line `== NAME` of a report, if the list has several reports.
fn put_report_title(text: &mut Vec<u8>, several: bool, report: Report) -> Result<(), Memory>
    ensures { PutsText text.old text.new result (report_title several report) }
{
    if !several {
        return Ok(());
    }
    put_text(text, b"== ")?;
    put_text(text, report.name().as_bytes())?;
    put_text(text, b"\n")
}
