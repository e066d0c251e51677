//! Appends a word followed by a number or an address. Most lines of this crate consist of a few
//! such pairs, so a line is written by one call for each.

ghost use Rattle.std.specs.Prelude.{◌++◌, decimal};
ghost use Rattle.bm_base.specs.PutsText.{PutsText};
ghost use Rattle.bm_base.specs.Text.{hex_text};

use bm_base::{Memory, put_dec, put_hex, put_text};

/// Appends the word and, directly after it, the number in decimal.
///
/// # Errors
///
/// - `Memory`: the program ran out of memory; the text is incomplete.
pub fn put_word_dec(text: &mut Vec<u8>, word: &[u8], number: u64) -> Result<(), Memory>
    ensures { PutsText text.old text.new result (word.now ++ decimal number) }
{
    put_text(text, word)?;
    put_dec(text, number, 0)
}

/// Appends the word and, directly after it, the address as `0x` and sixteen digits.
///
/// # Errors
///
/// - `Memory`: the program ran out of memory; the text is incomplete.
pub fn put_word_hex(text: &mut Vec<u8>, word: &[u8], address: u64) -> Result<(), Memory>
    ensures { PutsText text.old text.new result (word.now ++ hex_text address) }
{
    put_text(text, word)?;
    put_hex(text, address)
}
