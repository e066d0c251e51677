//! The names of reports that a program accepts: those of `bootmem`, and a list `further` of names
//! that only this program accepts. `bootmem61` has the report `claims`, which `bootmem` doesn't
//! have.

ghost use Rattle.std.specs.Prelude.{◌≡◌, map};
ghost use Rattle.program_args.specs.ReportNames.{are_report_names, is_among, is_report_name};

use debugfs_reports::report_named;
use text_words::{Separators, next_part};

/// The names of the reports that `bootmem61` has and `bootmem` doesn't.
pub const REPORTS_OF_BOOTMEM61: [&str; 1] = ["claims"];

/// Tests whether each name in the list, such as `map,zones`, is one of `further` or the name of a
/// report of `bootmem`. The empty list is one empty name.
pub fn are_report_names(list: &[u8], further: &[&str]) -> bool
    ensures { result ≡ are_report_names (map (λ other. other.now) further.now) list.now }
{
    let mut rest = Some(list);
    while let Some(text) = rest {
        let (name, after) = next_part(text, Separators::Byte(b','));
        if !is_report_name(name, further) {
            return false;
        }
        rest = after;
    }
    true
}

/// Tests whether `name` is one of `further` or the name of a report of `bootmem`.
fn is_report_name(name: &[u8], further: &[&str]) -> bool
    ensures { result ≡ is_report_name (map (λ other. other.now) further.now) name.now }
{
    is_among(further, name) || report_named(name).is_some()
}

/// Tests whether `name` is one of `names`.
fn is_among(names: &[&str], name: &[u8]) -> bool
    ensures { result ≡ is_among (map (λ other. other.now) names.now) name.now }
{
    let mut rest = names;
    while let [other, others @ ..] = rest {
        if other.as_bytes() == name {
            return true;
        }
        rest = others;
    }
    false
}
