//! Writes the report `sections`: the addresses of the table of roots, of each root, and of the data
//! of each section with memory. `sparse_sections` places the roots, and `section_maps` the data.

ghost use Rattle.bm_base.specs.PutsText.{PutsText};
ghost use Rattle.report_stages.specs.SectionsText.{root_line, roots_text, section_line, sections_text};

use crate::words::{put_word_dec, put_word_hex};
use bm_base::{Memory, put_text};
use report_memory::put_indexed_lines;
use section_maps::Placed;
use sparse_sections::{RootPlace, Roots};

/// Appends the report `sections`: a line for the table of roots, one for each root, and one for
/// each section with memory.
///
/// # Errors
///
/// - `Memory`: the program ran out of memory; the text is incomplete.
pub fn put_sections(text: &mut Vec<u8>, roots: &Roots, placed: &[Placed]) -> Result<(), Memory>
    ensures { PutsText text.old text.new result
        (sections_text
        (record { table = roots.now.table; roots = roots.now.roots.items }) placed.now) }
{
    put_roots(text, roots)?;
    put_indexed_lines(text, placed, put_section_line)?;
    Ok(())
}

/// Appends a line with the address of the table of roots, and one for each root.
fn put_roots(text: &mut Vec<u8>, roots: &Roots) -> Result<(), Memory>
    ensures { PutsText text.old text.new result
        (roots_text (record { table = roots.now.table; roots = roots.now.roots.items })) }
{
    put_word_hex(text, b"roots ", roots.table)?;
    put_text(text, b"\n")?;
    put_indexed_lines(text, &roots.roots, put_root_line)?;
    Ok(())
}

/// Appends the line of a section root: its number and its address. `index` isn't printed.
fn put_root_line(text: &mut Vec<u8>, index: u64, root: &RootPlace) -> Result<(), Memory>
    ensures { PutsText text.old text.new result (root_line index root.now) }
{
    put_word_dec(text, b"root ", u64::from(root.number))?;
    put_word_hex(text, b" ", root.place)?;
    put_text(text, b"\n")
}

/// Appends the line of a section: its number, its node, and the addresses of its page structures
/// (`map`) and of its usage data. `index` isn't printed.
fn put_section_line(text: &mut Vec<u8>, index: u64, placed: &Placed) -> Result<(), Memory>
    ensures { PutsText text.old text.new result (section_line index placed.now) }
{
    put_word_dec(text, b"section ", u64::from(placed.section))?;
    put_word_dec(text, b" node ", u64::from(placed.node))?;
    put_word_hex(text, b" map ", placed.map)?;
    put_word_hex(text, b" usage ", placed.usage)?;
    put_text(text, b"\n")
}
