//! Writes the report `blocks`: the address and the order of each free block.
//!
//! There may be millions of blocks, nearly all of the largest order and next to each other. So the
//! room for the whole text is allocated once. A row is a sequence of consecutive blocks of the same
//! order, node and zone. The lines of long rows are written in batches ([`put_row_in_batches`]).
//! The other lines, and those at the ends of long rows, are written one by one.

ghost use Rattle.std.specs.Prelude.{◌≡◌, ◌+◌, ◌*◌, ◌^◌, ◌<◌, ◌≤◌, ◌++◌, OnOk, length};
ghost use Rattle.bm_base.specs.PutsText.{PutsText};
ghost use Rattle.buddy_blocks.specs.declared.run.TheConstants.{MAX_FRAMES};
ghost use Rattle.buddy_blocks.specs.Rows.{blocks_of_row, blocks_of_rows};
ghost use Rattle.buddy_handover.specs.BuddyView.{node_of_free_frame};
ghost use Rattle.report_memory.specs.Lines.{indexed_lines};
ghost use Rattle.report_stages.specs.BlocksText.{AreAlignedBlocks, block_line, blocks_text, row_text};

use crate::batches::{BATCH_BLOCKS, BATCH_FRAMES, put_row_in_batches};
use crate::words::{put_word_dec, put_word_hex};
use crate::zones::zone_name;
use bm_base::{FRAME_SIZE, Memory, put_text};
use buddy_handover::{Block, BlockRow, Buddy, MAX_ORDER};

/// The largest number of bytes in a line: `node 4294967295 zone Normal order 10
/// 0x0123456789abcdef` and a newline.
const LONGEST_LINE: usize = 56;

/// Appends the report `blocks`: a line for each free block, in ascending order of addresses.
/// Allocates the room for the whole text at once.
///
/// # Errors
///
/// - `Memory`: the program ran out of memory; the text is incomplete.
pub fn put_blocks(text: &mut Vec<u8>, buddy: &Buddy) -> Result<(), Memory>
    ensures { OnOk result
        (text.new.items ≡ text.old.items ++ blocks_text (node_of_free_frame buddy.now)) }
{
    let rows = buddy.block_rows()?;
    text.reserve(count_blocks(&rows) as usize * LONGEST_LINE)?;
    put_rows(text, &rows)
}

/// Returns the number of blocks in all rows.
fn count_blocks(rows: &[BlockRow]) -> u64
    requires { length (blocks_of_rows rows.now) < 2 ^ 64 }
    ensures { result ≡ length (blocks_of_rows rows.now) }
{
    let mut count = 0;
    for row in rows {
        count += row.count;
    }
    count
}

/// Appends a line for each block of all rows, in order.
fn put_rows(text: &mut Vec<u8>, rows: &[BlockRow]) -> Result<(), Memory>
    requires { AreAlignedBlocks (blocks_of_rows rows.now) }
    ensures { OnOk result (text.new.items
        ≡ text.old.items ++ indexed_lines block_line 0 (blocks_of_rows rows.now)) }
{
    for row in rows {
        put_row(text, row)?;
    }
    Ok(())
}

/// Appends a line for each block of a row. A row is a sequence of consecutive blocks of the same
/// order, node and zone.
fn put_row(text: &mut Vec<u8>, row: &BlockRow) -> Result<(), Memory>
    requires { AreAlignedBlocks (blocks_of_row row.now) }
    ensures { OnOk result (text.new.items ≡ text.old.items ++ row_text row.now) }
{
    if row.order == MAX_ORDER && row.count >= 2 * BATCH_BLOCKS {
        return put_max_order_row(text, row);
    }
    put_each_block(text, row)
}

/// Appends a line for each block of a row of the largest order, which must have at least 2,048
/// blocks. The lines from the first multiple of 4 GiB to the last are written in batches of 1,024
/// lines, and those before and after one by one.
fn put_max_order_row(text: &mut Vec<u8>, row: &BlockRow) -> Result<(), Memory>
    requires great { row.now.order ≡ MAX_ORDER }
    requires many { 2 * 1024 ≤ row.now.count }
    requires placed { AreAlignedBlocks (blocks_of_row row.now) }
    ensures { OnOk result (text.new.items ≡ text.old.items ++ row_text row.now) }
{
    let before = (BATCH_FRAMES - row.first % BATCH_FRAMES) % BATCH_FRAMES >> MAX_ORDER;
    let after = (row.count - before) % BATCH_BLOCKS;
    put_each_block(text, &part_of_row(row, 0, before))?;
    put_row_in_batches(text, &part_of_row(row, before, row.count - before - after))?;
    put_each_block(text, &part_of_row(row, row.count - after, after))
}

/// Returns a part of the row: leaves out the first `skipped` blocks, and takes the next `count`.
/// The order of the row must be `MAX_ORDER`.
fn part_of_row(row: &BlockRow, skipped: u64, count: u64) -> BlockRow
    requires { row.now.first + skipped * 1024 ≤ MAX_FRAMES }
    ensures { result ≡ record row.now { first = row.now.first + skipped * 1024; count = count } }
{
    BlockRow {
        first: row.first + (skipped << MAX_ORDER),
        count,
        ..*row
    }
}

/// Appends a line for each block of a row, one after another.
pub(crate) fn put_each_block(text: &mut Vec<u8>, row: &BlockRow) -> Result<(), Memory>
    requires { AreAlignedBlocks (blocks_of_row row.now) }
    ensures { PutsText text.old text.new result (row_text row.now) }
{
    let mut first = row.first;
    let mut left = row.count;
    while left > 0 {
        put_block_line(
            text,
            &Block {
                order: row.order,
                first,
                node: row.node,
                zone: row.zone,
            },
        )?;
        first += 1 << row.order;
        left -= 1;
    }
    Ok(())
}

/// Appends the line of a block: its node, zone and order, and the address of its first byte. Its
/// first frame must be below `MAX_FRAMES`.
fn put_block_line(text: &mut Vec<u8>, block: &Block) -> Result<(), Memory>
    requires { block.now.first < MAX_FRAMES }
    ensures { PutsText text.old text.new result (block_line 0 block.now) }
{
    put_word_dec(text, b"node ", u64::from(block.node))?;
    put_text(text, b" zone ")?;
    put_text(text, zone_name(block.zone).as_bytes())?;
    put_word_dec(text, b" order ", u64::from(block.order))?;
    put_word_hex(text, b" ", FRAME_SIZE * block.first)?;
    put_text(text, b"\n")
}
