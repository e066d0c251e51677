//! Writes the report `nodes`: why the SRAT is or isn't used, and which memory is on which node. The
//! ranges of a node are those of the journal's `Node` items, since the result of the stage doesn't
//! have them. Such an item has the same text as in the report `journal` (`put_item`).

ghost use Rattle.bm_base.specs.PutsText.{PutsText};
ghost use Rattle.numa_nodes.specs.Assignment.{nodes_view};
ghost use Rattle.report_stages.specs.NodesText.{domain_line, node_line, nodes_text, uncovered_line, srat_use_line, srat_use_text};

use crate::words::put_word_dec;
use bm_base::{Memory, put_text};
use boot_journal::{Item, Journal};
use numa_nodes::{Nodes, Why};
use report_memory::{put_indexed_lines, put_item};

/// Appends the report `nodes`: why the SRAT is or isn't used, the proximity domain of each node,
/// the number of frames of memory that lie in no range of the SRAT, and a line for each journal
/// item that gives a range its node.
///
/// # Errors
///
/// - `Memory`: the program ran out of memory; the text is incomplete.
pub fn put_nodes(text: &mut Vec<u8>, nodes: &Nodes, journal: &Journal) -> Result<(), Memory>
    ensures { PutsText text.old text.new result
        (nodes_text (nodes_view nodes.now) journal.now.items) }
{
    put_srat_use_line(text, &nodes.why)?;
    put_indexed_lines(text, &nodes.domains, put_domain_line)?;
    put_uncovered_line(text, nodes.uncovered)?;
    put_indexed_lines(text, journal.items(), put_node_line)?;
    Ok(())
}

/// Appends the line that says whether the SRAT is used, and the reason if it isn't.
fn put_srat_use_line(text: &mut Vec<u8>, why: &Why) -> Result<(), Memory>
    ensures { PutsText text.old text.new result (srat_use_line why.now) }
{
    put_text(text, b"numa ")?;
    put_srat_use(text, why)?;
    put_text(text, b"\n")
}

/// Appends `used` if the SRAT is used, and otherwise why it isn't. A block is a range of memory in
/// the SRAT. `overlap` is followed by the indices of two enabled blocks, and `not covered` by the
/// number of frames of memory that lie in no block.
fn put_srat_use(text: &mut Vec<u8>, why: &Why) -> Result<(), Memory>
    ensures { PutsText text.old text.new result (srat_use_text why.now) }
{
    match why {
        Why::Used => put_text(text, b"used"),
        Why::Off => put_text(text, b"off"),
        Why::Absent => put_text(text, b"absent"),
        Why::NoBlocks => put_text(text, b"no blocks"),
        Why::TooManyDomains => put_text(text, b"too many domains"),
        Why::TooManyBlocks => put_text(text, b"too many blocks"),
        Why::Overlap { i, j } => {
            put_word_dec(text, b"overlap ", u64::from(*i))?;
            put_word_dec(text, b" ", u64::from(*j))
        }
        Why::NotCovered { frames } => put_word_dec(text, b"not covered ", *frames),
    }
}

/// Appends the line of a node: its proximity domain in the SRAT, and its number, which is `index`.
fn put_domain_line(text: &mut Vec<u8>, index: u64, domain: &u32) -> Result<(), Memory>
    ensures { PutsText text.old text.new result (domain_line index domain.now) }
{
    put_word_dec(text, b"domain ", u64::from(*domain))?;
    put_word_dec(text, b" node ", index)?;
    put_text(text, b"\n")
}

/// Appends the line with the number of frames of memory that lie in no block (range of memory) of
/// the SRAT.
fn put_uncovered_line(text: &mut Vec<u8>, frames: u64) -> Result<(), Memory>
    ensures { PutsText text.old text.new result (uncovered_line frames) }
{
    put_word_dec(text, b"uncovered ", frames)?;
    put_text(text, b"\n")
}

/// Appends a line for a journal item if the item gives a range its node; else nothing.
fn put_node_line(text: &mut Vec<u8>, index: u64, item: &Item) -> Result<(), Memory>
    ensures { PutsText text.old text.new result (node_line index item.now) }
{
    match item {
        Item::Node { .. } => {
            put_item(text, item)?;
            put_text(text, b"\n")
        }
        _ => Ok(()),
    }
}
