//! Writes the report `map`: a line for each run of the map. The names of e820 types are here and
//! not next to their numbers (`e820_model`), since only a report needs them.

ghost use Rattle.std.specs.Prelude.{◌≡◌};
ghost use Rattle.bm_base.specs.PutsText.{PutsText};
ghost use Rattle.report_memory.specs.MapText.{e820_type_name, map_line, map_text};

use crate::lines::put_indexed_lines;
use crate::ranges::put_range;
use bm_base::{Memory, put_dec, put_text};
use e820_model::{
    E820_TYPE_ACPI, E820_TYPE_NVS, E820_TYPE_PMEM, E820_TYPE_PRAM, E820_TYPE_RAM,
    E820_TYPE_RESERVED, E820_TYPE_RESERVED_KERN, E820_TYPE_SOFT_RESERVED, E820_TYPE_UNUSABLE, Run,
};

/// Returns the name of an e820 type (`enum e820_type`), such as `usable` for 1, or `other` for an
/// unknown type.
fn e820_type_name(kind: u32) -> &'static str
    ensures { result.now ≡ e820_type_name kind }
{
    match kind {
        E820_TYPE_RAM => "usable",
        E820_TYPE_RESERVED => "reserved",
        E820_TYPE_ACPI => "ACPI data",
        E820_TYPE_NVS => "ACPI NVS",
        E820_TYPE_UNUSABLE => "unusable",
        E820_TYPE_PMEM => "persistent",
        E820_TYPE_PRAM => "persistent legacy",
        E820_TYPE_RESERVED_KERN => "usable kernel",
        E820_TYPE_SOFT_RESERVED => "soft reserved",
        _ => "other",
    }
}

/// Appends the report `map`: a line for each run, in the order of `runs`.
///
/// # Errors
///
/// - `Memory`: the program ran out of memory; the text is incomplete.
pub fn put_map(text: &mut Vec<u8>, runs: &[Run]) -> Result<(), Memory>
    ensures { PutsText text.old text.new result (map_text runs.now) }
{
    put_indexed_lines(text, runs, put_map_line)
}

/// Appends the line of a run of the map: its range, and the number and name of its type. `index`
/// isn't printed.
fn put_map_line(text: &mut Vec<u8>, index: u64, run: &Run) -> Result<(), Memory>
    ensures { PutsText text.old text.new result (map_line index run.now) }
{
    put_range(text, &run.range)?;
    put_text(text, b" ")?;
    put_dec(text, u64::from(run.kind), 0)?;
    put_text(text, b" ")?;
    put_text(text, e820_type_name(run.kind).as_bytes())?;
    put_text(text, b"\n")
}
