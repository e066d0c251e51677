//! Reads the fields of a line: numbers, addresses and ranges. Each reader takes the field at the
//! start of a text, and returns it with the text after it.

ghost use Rattle.std.specs.Prelude.{◌≡◌, ◌≤◌, length, take, drop, IsTrue};
ghost use Rattle.std.specs.List.{list_all};
ghost use Rattle.std.specs.Option.{option_map};
ghost use Rattle.audit_lines.specs.Fields.{address_in, rest_after, is_address, is_lower_hex, number_in, range_at_start};
ghost use Rattle.bm_base.specs.Size.{begins_with_zero};

use bm_base::{Range, read_number};

/// If the text begins with `front`, returns the text after it, else `None`.
pub fn rest_after<'t>(text: &'t [u8], front: &[u8]) -> Option<&'t [u8]>
    ensures { option_map (λ rest. rest.now) result ≡ rest_after front.now text.now }
{
    text.strip_prefix(front)
}

/// Returns the decimal number at the start of the text, and the text after it. Returns `None`
/// unless the text begins with a number without leading zeros that is at most `most`.
#[tactic(auto, unfolding(crate::specs::Fields::number_in))]
pub fn number_in(text: &[u8], most: u32) -> Option<(u32, &[u8])>
    ensures { option_map (λ found. (found.0, found.1.now)) result ≡ number_in most text.now }
{
    if begins_with_zero(text) {
        return Some((0, text.split_at(1).1));
    }
    let Ok((value, taken)) = read_number(text) else {
        return None;
    };
    if value > u64::from(most) {
        return None;
    }
    Some((value as u32, text.split_at(taken).1))
}

/// Tests whether the text begins with the digit 0.
fn begins_with_zero(text: &[u8]) -> bool
    ensures value { result ≡ begins_with_zero text.now }
    ensures some { IsTrue result → 1 ≤ length text.now }
{
    match text.first() {
        Some(byte) => *byte == b'0',
        None => false,
    }
}

/// Returns the address at the start of the text, and the text after it. An address is `0x` and
/// sixteen lower-case hexadecimal digits. Returns `None` if the text doesn't begin with one.
#[tactic(auto, unfolding(crate::specs::Fields::address_in))]
pub fn address_in(text: &[u8]) -> Option<(u64, &[u8])>
    ensures { option_map (λ found. (found.0, found.1.now)) result ≡ address_in text.now }
{
    let (front, rest) = split_at_count(text, 18);
    if !is_address(front) {
        return None;
    }
    let Ok((value, _)) = read_number(front) else {
        return None;
    };
    Some((value, rest))
}

/// Splits the text after `count` bytes. If it has fewer bytes, the first part is the whole text
/// and the second is empty.
fn split_at_count(text: &[u8], count: usize) -> (&[u8], &[u8])
    ensures front { result.0.now ≡ take count text.now }
    ensures back { result.1.now ≡ drop count text.now }
{
    if text.len() < count {
        return (text, &[]);
    }
    text.split_at(count)
}

/// Tests whether the text is `0x` and sixteen lower-case hexadecimal digits.
fn is_address(text: &[u8]) -> bool
    ensures { result ≡ is_address text.now }
{
    match rest_after(text, b"0x") {
        Some(digits) => digits.len() == 16 && are_lower_hex(digits),
        None => false,
    }
}

/// Tests whether all bytes are lower-case hexadecimal digits.
fn are_lower_hex(bytes: &[u8]) -> bool
    ensures { result ≡ list_all is_lower_hex bytes.now }
{
    bytes.iter().all(|byte| is_lower_hex(*byte))
}

/// Tests whether the byte is a lower-case hexadecimal digit.
fn is_lower_hex(byte: u8) -> bool
    ensures { result ≡ is_lower_hex byte }
{
    byte.is_ascii_digit() || (b'a'..=b'f').contains(&byte)
}

/// Returns the range at the start of the text, and the text after it. A range is written as
/// `A..B`, where `A` and `B` are the addresses of its first and its last byte. Returns `None` if
/// the text doesn't begin with such a range, `B` is below `A`, or `B` is 2^64 - 1.
#[tactic(auto, unfolding(crate::specs::Fields::range_at_start))]
pub fn range_at_start(text: &[u8]) -> Option<(Range, &[u8])>
    ensures { option_map (λ found. (found.0, found.1.now)) result ≡ range_at_start text.now }
{
    let (first, rest) = address_in(text)?;
    let rest = rest_after(rest, b"..")?;
    let (last, rest) = address_in(rest)?;
    let range = Range::between(first, last.checked_add(1)?)?;
    Some((range, rest))
}
