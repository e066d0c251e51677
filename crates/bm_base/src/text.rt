//! Appends text and numbers to a buffer, in the forms of the kernel's log.
//!
//! Each function fails only if the buffer has too little room and can't grow. The buffer is then
//! unchanged.

ghost use Rattle.std.specs.Prelude.{◌≡◌, ◌<◌, ◌≤◌, OnErr, false};
ghost use Rattle.std.specs.Fmt.{digit_glyph};
ghost use Rattle.bm_base.specs.PutsText.{PutsText};
ghost use Rattle.bm_base.specs.Text.{hex_text, padded_decimal};

use crate::memory::Memory;

/// Appends the bytes of `text` to `out`.
///
/// # Errors
///
/// `Memory` if `out` has too little room and can't grow. `out` is then unchanged.
pub fn put_text(out: &mut Vec<u8>, text: &[u8]) -> Result<(), Memory>
    ensures puts { PutsText out.old out.new result text.now }
    ensures err { OnErr result (out.new.items ≡ out.old.items) }
{
    out.extend_from_slice(text)?;
    Ok(())
}

/// Appends `value` to `out` as `0x` and 16 lower-case hexadecimal digits, as the kernel's log
/// prints an address (`%#018llx`).
///
/// # Errors
///
/// `Memory` if `out` has too little room and can't grow. `out` is then unchanged.
pub fn put_hex(out: &mut Vec<u8>, value: u64) -> Result<(), Memory>
    ensures puts { PutsText out.old out.new result (hex_text value) }
    ensures err { OnErr result (out.new.items ≡ out.old.items) }
{
    let mut text = *b"0x0000000000000000";
    let mut left = value;
    for i in 0..16 {
        text[17 - i] = hex_digit(left % 16);
        left /= 16;
    }
    put_text(out, &text)
}

/// Appends `value` to `out` in decimal, padded on the left with spaces to `width` characters
/// (`%*llu`). A number with more digits isn't cut. `width` must be at most 20, the number of digits
/// of 2^64 - 1.
///
/// # Errors
///
/// `Memory` if `out` has too little room and can't grow. `out` is then unchanged.
pub fn put_dec(out: &mut Vec<u8>, value: u64, width: u32) -> Result<(), Memory>
    requires { width ≤ 20 }
    ensures puts { PutsText out.old out.new result (padded_decimal width value) }
    ensures err { OnErr result (out.new.items ≡ out.old.items) }
{
    let mut text = [b' '; 20];
    let start = itoa::write_digits(value, &mut text, 20);
    let from = start.min(20 - width as usize);
    put_text(out, &text[from..])
}

/// Returns the ASCII character of the hexadecimal digit with the value `digit`, in lower case.
/// `digit` must be below 16.
fn hex_digit(digit: u64) -> u8
    requires { digit < 16 }
    ensures { result ≡ digit_glyph false digit }
{
    let digit = digit as u8;
    if digit < 10 {
        b'0' + digit
    } else {
        b'a' - 10 + digit
    }
}
