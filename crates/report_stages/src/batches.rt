//! Writes the lines of long rows of blocks, in batches.
//!
//! A row is a sequence of consecutive blocks of the same order, node and zone. A row of blocks of
//! the largest order may have millions of lines, which differ only in the address. A batch is the
//! lines of the 1,024 blocks in 4 GiB; from one batch to the next only eight digits of each line
//! change. The lines of the first 4 GiB are written one by one. For each following 4 GiB these
//! lines are copied, with the eight digits replaced.

ghost use Rattle.std.specs.Prelude.{◌≡◌, ℕ, List, ◌*◌, ◌%◌, ◌^◌, ◌<◌, ◌≤◌, ◌++◌, IfOk, OnOk, false, length};
ghost use Rattle.std.specs.Fmt.{digit_glyph};
ghost use Rattle.report_stages.specs.BlocksText.{row_text};
ghost use Rattle.report_stages.specs.Batches.{FillBatches, batch_text, first_batch, eight_digits};

use crate::blocks::put_each_block;
use bm_base::{Memory, put_text};
use buddy_handover::{BlockRow, MAX_ORDER};
use std::alloc::Global;

/// The number of blocks of the largest order in 4 GiB.
pub(crate) const BATCH_BLOCKS: u64 = 1024;

/// The number of 4-KiB frames in 4 GiB.
pub(crate) const BATCH_FRAMES: u64 = BATCH_BLOCKS << MAX_ORDER;

/// Appends a line for each block of the row, 1,024 lines at a time. The row's blocks must have the
/// order `MAX_ORDER`. The row must begin at a multiple of 4 GiB and cover a positive multiple of 4
/// GiB. Besides the text, allocates about 48 KB for one batch of lines.
///
/// # Errors
///
/// - `Memory`: the program ran out of memory; the text is incomplete.
pub(crate) fn put_row_in_batches(text: &mut Vec<u8>, row: &BlockRow) -> Result<(), Memory>
    requires fill { FillBatches row.now }
    requires some { 0 < row.now.count }
    ensures { OnOk result (text.new.items ≡ text.old.items ++ row_text row.now) }
{
    let mut lines = first_batch(*text.allocator(), row)?;
    let mut first = row.first;
    let mut left = row.count;
    while left > 0 {
        put_text(text, &lines)?;
        first += BATCH_FRAMES;
        left -= BATCH_BLOCKS;
        overwrite_batch_addresses(&mut lines, first / BATCH_FRAMES);
    }
    Ok(())
}

/// Returns the lines of the first 1,024 blocks (4 GiB) of a row. The row must consist of blocks of
/// the order `MAX_ORDER` and have at least one, and must begin and end at multiples of 4 GiB.
///
/// # Errors
///
/// - `Memory`: the program ran out of memory.
fn first_batch(alloc: Global, row: &BlockRow) -> Result<Vec<u8>, Memory>
    requires fill { FillBatches row.now }
    requires some { 0 < row.now.count }
    ensures { IfOk result (λ lines. lines.items ≡ first_batch row.now) }
{
    let mut lines = Vec::new(alloc);
    let first = BlockRow {
        count: BATCH_BLOCKS,
        ..*row
    };
    put_each_block(&mut lines, &first)?;
    Ok(lines)
}

/// Overwrites the addresses in the lines of a batch, the lines of the 1,024 blocks in 4 GiB.
/// Afterwards the lines are those of the blocks from address `number * 2^32` on.
fn overwrite_batch_addresses(batch: &mut Vec<u8>, number: u64)
    requires small { number < 2 ^ 32 }
    requires whole { length batch.old.items % 1024 ≡ 0 }
    requires long { 17 * 1024 ≤ length batch.old.items }
    ensures { (front old : List ℕ) → length old ≡ 8 → batch.old.items ≡ batch_text front old
        → batch.new.items ≡ batch_text front (eight_digits number) }
{
    replace_batch_digits(batch, &eight_digits(number));
}

/// Overwrites the first eight of the sixteen digits of the address in each line of a batch, which
/// has 1,024 lines of the same length.
fn replace_batch_digits(batch: &mut [u8], digits: &[u8; 8])
    requires whole { length batch.old % 1024 ≡ 0 }
    requires long { 17 * 1024 ≤ length batch.old }
    ensures { (front old : List ℕ) → length old ≡ 8 → batch.old ≡ batch_text front old
        → batch.new ≡ batch_text front digits.now }
{
    let line = batch.len() / 1024;
    for i in 0..1024 {
        let end = (i + 1) * line - 9;
        batch[end - 8..end].copy_from_slice(digits);
    }
}

/// Returns `number`, which must be below 2^32, as eight lower-case hexadecimal digits.
fn eight_digits(number: u64) -> [u8; 8]
    requires { number < 2 ^ 32 }
    ensures { result ≡ eight_digits number }
{
    let mut digits = [b'0'; 8];
    let mut left = number;
    for i in 0..8 {
        digits[7 - i] = hex_digit(left % 16);
        left /= 16;
    }
    digits
}

/// Returns the lower-case hexadecimal digit of a number below 16, as an ASCII byte.
fn hex_digit(digit: u64) -> u8
    requires { digit < 16 }
    ensures { result ≡ digit_glyph false digit }
{
    let digit = digit as u8;
    if digit < 10 {
        b'0' + digit
    } else {
        b'a' - 10 + digit
    }
}
