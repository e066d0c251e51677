//! Writes ranges and indices. Their format is the same in every report, also in those of other
//! crates. A range is stored as base and size, and written as its first and its last byte.

ghost use Rattle.std.specs.Prelude.{◌++◌};
ghost use Rattle.bm_base.specs.PutsText.{PutsText};
ghost use Rattle.report_memory.specs.Lines.{index_text, range_text};

use bm_base::{Memory, Range, put_dec, put_hex, put_text};

/// Appends the addresses of the first and the last byte of a range, as in
/// `0x0000000000001000..0x0000000000001fff`. For an empty range the second address is one below the
/// first, or 0 if the first is 0.
///
/// # Errors
///
/// - `Memory`: the program ran out of memory; the text is incomplete.
pub fn put_range(text: &mut Vec<u8>, range: &Range) -> Result<(), Memory>
    ensures { PutsText text.old text.new result (range_text range.now) }
{
    put_hex(text, range.base)?;
    put_text(text, b"..")?;
    put_hex(text, range.end().saturating_sub(1))
}

/// Appends `word`, and then the addresses of the first and the last byte of the range.
///
/// # Errors
///
/// - `Memory`: the program ran out of memory; the text is incomplete.
pub fn put_word_range(text: &mut Vec<u8>, word: &[u8], range: &Range) -> Result<(), Memory>
    ensures { PutsText text.old text.new result (word.now ++ range_text range.now) }
{
    put_text(text, word)?;
    put_range(text, range)
}

/// Appends the index at the start of a line: right-aligned in four columns, and followed by `: `.
///
/// # Errors
///
/// - `Memory`: the program ran out of memory; the text is incomplete.
pub fn put_index(text: &mut Vec<u8>, index: u64) -> Result<(), Memory>
    ensures { PutsText text.old text.new result (index_text index) }
{
    put_dec(text, index, 4)?;
    put_text(text, b": ")
}
