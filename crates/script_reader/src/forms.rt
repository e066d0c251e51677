//! Reads the words of one line. The first word selects the form. Each form tests for faults in the
//! order in which they are reported.

ghost use Rattle.std.specs.Prelude.{◌≡◌, ℕ, ◌<◌, ◌≤◌, ◌^◌, Option, Some, Ok, Err, MatchResult, IfOk};
ghost use Rattle.std.specs.Option.{option_map};
ghost use Rattle.text_words.specs.Words.{words_in};
ghost use Rattle.text_words.specs.declared.separators.Separators.TheVariants as separators;
ghost use Rattle.script_reader.specs.Forms.{alloc_words, optional_exact, alloc_line, reserve_line, free_line, trim_line, fill_line, peek_line, sections_line, act_by_name, HasBounds};

use crate::act::Act;
use crate::fault::ScriptLineFault;
use crate::words::{
    check_not_zero, check_power_of_two, expect_no_words, first_word, number_in_word, number_within,
    one_word, optional_number, range_or_fault, three_words, two_words, word_after_key,
};
use memblock_model::Request;
use std::marker::Model;
use text_words::{Separators, next_word};

/// Returns the command of a line. `name` is its first word, and `rest` the text after that word.
/// `seen` is true if an earlier line is `sections`.
///
/// # Errors
///
/// - `Form`: there is no command of this name, or the words don't have its form.
/// - `Number`, `Align`, `ZeroSize`, `SecondSections` or `TooFar`: the first of these faults that
///   the words have.
pub fn act_by_name(seen: bool, name: &[u8], rest: &[u8]) -> Result<Act, ScriptLineFault>
    ensures value { result ≡ act_by_name seen name.now (words_in separators.Script rest.now) }
    ensures bounds { IfOk result HasBounds }
{
    if name == b"alloc".as_slice() {
        return alloc_line(rest);
    }
    if name == b"reserve".as_slice() {
        return reserve_line(rest);
    }
    if name == b"free".as_slice() {
        return free_line(rest);
    }
    if name == b"trim".as_slice() {
        return trim_line(rest);
    }
    if name == b"fill".as_slice() {
        return fill_line(rest);
    }
    if name == b"peek".as_slice() {
        return peek_line(rest);
    }
    if name == b"sections".as_slice() {
        return sections_line(seen, rest);
    }
    Err(ScriptLineFault::Form)
}

/// The words after `alloc`. An optional word is `None` if the line lacks it.
#[derive(Clone, Copy)]
struct AllocWords<'a> {
    id: &'a [u8],
    size: &'a [u8],
    align: &'a [u8],
    min: Option<&'a [u8]>,
    max: Option<&'a [u8]>,
    node: Option<&'a [u8]>,
    exact: bool,
}

/// Splits the text after `alloc` into the words `ID SIZE ALIGN [min A] [max A] [node N [exact]]`.
/// Doesn't check that they are numbers.
///
/// # Errors
///
/// - `Form`: the words don't have this form.
fn alloc_words(text: &[u8]) -> Result<AllocWords<'_>, ScriptLineFault>
    ensures { MatchResult result
        (λ said. alloc_words (words_in separators.Script text.now) ≡ Ok (record {
          id = said.id.now;
          size = said.size.now;
          align = said.align.now;
          min = option_map (λ word. word.now) said.min;
          max = option_map (λ word. word.now) said.max;
          node = option_map (λ word. word.now) said.node;
          exact = said.exact;
        }))
        (λ wrong. alloc_words (words_in separators.Script text.now) ≡ Err wrong) }
{
    let (id, rest) = first_word(text)?;
    let (size, rest) = first_word(rest)?;
    let (align, rest) = first_word(rest)?;
    let (min, rest) = word_after_key(b"min", rest);
    let (max, rest) = word_after_key(b"max", rest);
    let (node, rest) = word_after_key(b"node", rest);
    let (exact, rest) = optional_exact(node, rest);
    expect_no_words(rest)?;
    Ok(AllocWords {
        id,
        size,
        align,
        min,
        max,
        node,
        exact,
    })
}

/// If the line names a node and the next word is `exact`, returns true and the text after that
/// word. Otherwise returns false and the text unchanged. `node` is the word with the node's number.
fn optional_exact<'a>(node: Option<&'a [u8]>, text: &'a [u8]) -> (bool, &'a [u8])
    ensures { optional_exact (option_map (λ word. word.now) node.entry)
        (words_in separators.Script text.now)
        ≡ (result.0, words_in separators.Script result.1.now) }
{
    if node.is_none() {
        return (false, text);
    }
    match next_word(text, Separators::Script) {
        Some((word, rest)) if word == b"exact".as_slice() => (true, rest),
        _ => (false, text),
    }
}

/// Reads the words after `alloc`: an ID, and the request for a range. Sizes, alignments and
/// addresses are in bytes. Without `min` the lowest address is 0.
///
/// # Errors
///
/// - The first fault of the words: `Form`, `Number`, `Align` or `ZeroSize`.
fn alloc_line(text: &[u8]) -> Result<Act, ScriptLineFault>
    ensures value { result ≡ alloc_line (words_in separators.Script text.now) }
    ensures bounds { IfOk result HasBounds }
{
    let said = alloc_words(text)?;
    let id = number_within(GREATEST_ID, said.id)? as u32;
    let size = number_in_word(said.size)?;
    let align = number_in_word(said.align)?;
    let min = optional_number(u64::MAX, said.min)?;
    let max = optional_number(u64::MAX, said.max)?;
    let node = optional_number(GREATEST_NODE, said.node)?;
    let align = check_power_of_two(align)?;
    let size = check_not_zero(size)?;
    let request = Request {
        size,
        align,
        min: min.unwrap_or(0),
        max,
        node: node.map(|node| node as u32),
        exact: said.exact,
    };
    Ok(Act::Alloc { id, request })
}

/// The greatest ID that a line of a script may name.
pub const GREATEST_ID: u64 = 0xFFFF_FFFF;

/// The greatest number of a node that a line may name.
pub const GREATEST_NODE: u64 = 1023;

/// The greatest value of a byte.
const GREATEST_BYTE: u64 = 255;

/// The greatest length of a `peek`, in bytes.
const GREATEST_LEN: u64 = 64;

/// Reads the words after `reserve`: an ID, and the base and the size of the range in bytes.
///
/// # Errors
///
/// - The first fault of the words: `Form`, `Number`, `ZeroSize` or `TooFar`.
fn reserve_line(text: &[u8]) -> Result<Act, ScriptLineFault>
    ensures value { result ≡ reserve_line (words_in separators.Script text.now) }
    ensures bounds { IfOk result HasBounds }
{
    let (id, base, size) = three_words(text)?;
    let id = number_within(GREATEST_ID, id)? as u32;
    let base = number_in_word(base)?;
    let size = check_not_zero(number_in_word(size)?)?;
    let range = range_or_fault(base, size)?;
    Ok(Act::Reserve { id, range })
}

/// Reads the word after `free`: an ID.
///
/// # Errors
///
/// - The first fault of the words: `Form` or `Number`.
fn free_line(text: &[u8]) -> Result<Act, ScriptLineFault>
    ensures value { result ≡ free_line (words_in separators.Script text.now) }
    ensures bounds { IfOk result HasBounds }
{
    let id = number_within(GREATEST_ID, one_word(text)?)? as u32;
    Ok(Act::Free { id })
}

/// Reads the words after `trim`: an ID, and the number of bytes to keep, at least 1.
///
/// # Errors
///
/// - The first fault of the words: `Form`, `Number` or `ZeroSize`.
fn trim_line(text: &[u8]) -> Result<Act, ScriptLineFault>
    ensures value { result ≡ trim_line (words_in separators.Script text.now) }
    ensures bounds { IfOk result HasBounds }
{
    let (id, keep) = two_words(text)?;
    let id = number_within(GREATEST_ID, id)? as u32;
    let keep = check_not_zero(number_in_word(keep)?)?;
    Ok(Act::Trim { id, keep })
}

/// Reads the words after `fill`: an ID, and the value of the bytes, from 0 to 255.
///
/// # Errors
///
/// - The first fault of the words: `Form` or `Number`.
fn fill_line(text: &[u8]) -> Result<Act, ScriptLineFault>
    ensures value { result ≡ fill_line (words_in separators.Script text.now) }
    ensures bounds { IfOk result HasBounds }
{
    let (id, byte) = two_words(text)?;
    let id = number_within(GREATEST_ID, id)? as u32;
    let byte = number_within(GREATEST_BYTE, byte)? as u8;
    Ok(Act::Fill { id, byte })
}

/// Reads the words after `peek`: an address, and a length of 1 to 64 bytes.
///
/// # Errors
///
/// - The first fault of the words: `Form`, `Number`, `ZeroSize` or `TooFar`.
fn peek_line(text: &[u8]) -> Result<Act, ScriptLineFault>
    ensures value { result ≡ peek_line (words_in separators.Script text.now) }
    ensures bounds { IfOk result HasBounds }
{
    let (at, len) = two_words(text)?;
    let at = number_in_word(at)?;
    let len = check_not_zero(number_within(GREATEST_LEN, len)?)?;
    let range = range_or_fault(at, len)?;
    Ok(Act::Peek {
        at: range.base,
        len: len as u32,
    })
}

/// Checks that no word follows `sections`. `seen` is true if an earlier line is `sections`.
///
/// # Errors
///
/// - `Form`: a word follows.
/// - `SecondSections`: no word follows, and `seen` is true.
fn sections_line(seen: bool, text: &[u8]) -> Result<Act, ScriptLineFault>
    ensures value { result ≡ sections_line seen (words_in separators.Script text.now) }
    ensures bounds { IfOk result HasBounds }
{
    expect_no_words(text)?;
    if seen {
        return Err(ScriptLineFault::SecondSections);
    }
    Ok(Act::Sections)
}
