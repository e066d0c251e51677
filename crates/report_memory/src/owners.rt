//! Writes the report `owners`, who owns which bytes, and the names of owners and of memblock's
//! tables.

ghost use Rattle.std.specs.Prelude.{◌≡◌, ◌++◌, decimal};
ghost use Rattle.bm_base.specs.PutsText.{PutsText};
ghost use Rattle.memblock_model.specs.Items.{owner_runs_of};
ghost use Rattle.report_memory.specs.OwnersText.{owner_line, owner_text, owners_text, memblock_table_name};

use crate::lines::put_indexed_lines;
use crate::ranges::{put_index, put_range};
use bm_base::{Memory, put_dec, put_text};
use boot_journal::{Journal, Owner, OwnerRun, Which};

/// Appends the report `owners`: a line for each run of bytes with one owner. The line has an index
/// from 0, the range and the owner. The owners are those after the last item of the journal.
///
/// # Errors
///
/// - `Memory`: the program ran out of memory; the text is incomplete.
pub fn put_owners(text: &mut Vec<u8>, journal: &Journal) -> Result<(), Memory>
    ensures { PutsText text.old text.new result (owners_text (owner_runs_of journal.now.items)) }
{
    put_indexed_lines(text, journal.owners(), put_owner_line)
}

/// Appends the line of a run of bytes with one owner: `index`, the range and the owner.
fn put_owner_line(text: &mut Vec<u8>, index: u64, run: &OwnerRun) -> Result<(), Memory>
    ensures { PutsText text.old text.new result (owner_line index run.now) }
{
    put_index(text, index)?;
    put_range(text, &run.range)?;
    put_text(text, b" ")?;
    put_owner(text, run.owner)?;
    put_text(text, b"\n")
}

/// Appends the name of an owner, and its number if it has one, as in `kernel` or `node-data 0`.
///
/// # Errors
///
/// - `Memory`: the program ran out of memory; the text is incomplete.
pub fn put_owner(text: &mut Vec<u8>, owner: Owner) -> Result<(), Memory>
    ensures { PutsText text.old text.new result (owner_text owner) }
{
    match owner {
        Owner::Kernel => put_text(text, b"kernel"),
        Owner::Low64K => put_text(text, b"low-64k"),
        Owner::Initrd => put_text(text, b"initrd"),
        Owner::Low1M => put_text(text, b"low-1m"),
        Owner::Soft => put_text(text, b"soft-reserved"),
        Owner::Table(which) => {
            put_text(text, b"table-")?;
            put_text(text, memblock_table_name(which).as_bytes())
        }
        Owner::NodeData(node) => put_numbered_owner(text, b"node-data ", node),
        Owner::Crash => put_text(text, b"crash"),
        Owner::CrashLow => put_text(text, b"crash-low"),
        Owner::Roots => put_text(text, b"roots"),
        Owner::Root(root) => put_numbered_owner(text, b"root ", root),
        Owner::Usage(section) => put_numbered_owner(text, b"usage ", section),
        Owner::Map(section) => put_numbered_owner(text, b"map ", section),
        Owner::Script(id) => put_numbered_owner(text, b"script ", id),
    }
}

/// Appends `word`, which names a kind of owner, and the owner's number: that of its node, section
/// root or section, or its ID in a script.
fn put_numbered_owner(text: &mut Vec<u8>, word: &[u8], number: u32) -> Result<(), Memory>
    ensures { PutsText text.old text.new result (word.now ++ decimal number) }
{
    put_text(text, word)?;
    put_dec(text, u64::from(number), 0)
}

/// Returns the name of one of memblock's two tables: `memory` or `reserved`.
pub fn memblock_table_name(which: Which) -> &'static str
    ensures { result.now ≡ memblock_table_name which }
{
    match which {
        Which::Memory => "memory",
        Which::Reserved => "reserved",
    }
}
