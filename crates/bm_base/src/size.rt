//! Reads numbers and sizes from the start of a text, as `memparse` (lib/cmdline.c) and
//! `simple_strtoull` (lib/vsprintf.c) do, without wrapping.

ghost use Rattle.std.specs.Prelude.{◌≡◌, ◌↔◌, ℕ, false, List, ◌∷◌, ◌++◌, Ok, ◌+◌, ◌*◌, ◌^◌, ◌<◌, ◌≤◌, length, drop, IfSome, IfNone, IfOk, IsTrue, SomeIff};
ghost use Rattle.std.specs.Char.{is_digit};
ghost use Rattle.std.specs.Fmt.{decimal};
ghost use Rattle.bm_base.specs.Size.{front_digits, front_digits_value, is_hexadecimal, begins_with_digit, radix_of, suffix_of, number_of, size_of, IsSize, IsNumber};
ghost use Rattle.bm_base.specs.Spelling.{SpellsNumber, SpellsSize};

/// The reason why no number or size can be read from the start of a text.
#[derive(Clone, Copy, Debug, PartialEq, Eq)]
pub enum NumFault {
    /// The text is empty, or its first byte isn't a decimal digit.
    NoDigits,
    /// The number, multiplied by the factor of its suffix, exceeds 2^64 - 1.
    TooLarge,
}

/// Reads the size at the start of `text`, as `memparse` does. Returns its value in bytes, and the
/// number of bytes of `text` that spell it.
///
/// `0x` or `0X` before a hexadecimal digit begins a hexadecimal number, any other leading `0` an
/// octal one. Other numbers are decimal. The number ends before the first byte that isn't a digit
/// of its base. One suffix may follow, in upper or lower case: K, M, G, T, P or E multiplies the
/// number by 2^10, 2^20 and so on up to 2^60.
///
/// # Errors
///
/// `NoDigits` if the first byte isn't a decimal digit.
///
/// `TooLarge` if the size exceeds 2^64 - 1.
pub fn read_size(text: &[u8]) -> Result<(u64, usize), NumFault>
    ensures value { result ≡ size_of text.now }
    ensures bound { IfOk result (λ found. found.1 ≤ length text.now) }
{
    let (number, end) = read_number(text)?;
    let (factor, taken) = read_suffix(text, end);
    let value = number.checked_mul(factor).ok_or(NumFault::TooLarge)?;
    Ok((value, end + taken))
}

/// Reads the number at the start of `text`, as `simple_strtoull` does. Returns its value, and the
/// number of bytes of `text` that spell it.
///
/// `0x` or `0X` before a hexadecimal digit begins a hexadecimal number, any other leading `0` an
/// octal one. Other numbers are decimal. The number ends before the first byte that isn't a digit
/// of its base: of `4K` only the `4` is read.
///
/// # Errors
///
/// `NoDigits` if the first byte isn't a decimal digit.
///
/// `TooLarge` if the number exceeds 2^64 - 1.
pub fn read_number(text: &[u8]) -> Result<(u64, usize), NumFault>
    ensures value { result ≡ number_of text.now }
    ensures bound { IfOk result (λ found. found.1 ≤ length text.now) }
{
    if !begins_with_a_digit(text) {
        return Err(NumFault::NoDigits);
    }
    let prefix = if is_hex(text) { 2 } else { 0 };
    let radix = radix_at(text);
    let digits = text.split_at(prefix).1;
    let (value, count) = read_digits(digits, radix).ok_or(NumFault::TooLarge)?;
    Ok((value, prefix + count))
}

/// Law: a byte that is neither a digit nor a letter ends a size or number. This byte and those
/// after it don't change what is read. The decimal digits of a `u64` are read as that `u64`.
pub fn spelled_sizes_are_read()
    ensures size { (text rest : List ℕ) (mark : ℕ) → is_digit mark 36 ≡ false →
        size_of (text ++ (mark ∷ rest)) ≡ size_of text }
    ensures number { (text rest : List ℕ) (mark : ℕ) → is_digit mark 36 ≡ false →
        number_of (text ++ (mark ∷ rest)) ≡ number_of text }
    ensures decimal { (n : ℕ) → n < 2 ^ 64 → IsSize (decimal n) n }
{}

/// Law: a whole text is read as the size or number n exactly if it is a spelling of n by the
/// grammar of `specs/Spelling.antt`. If a size or number is read from the start of a longer text,
/// its bytes alone are read as the same value.
pub fn sizes_are_spelled()
    ensures size { (text : List ℕ) (n : ℕ) → IsSize text n ↔ SpellsSize text n }
    ensures number { (text : List ℕ) (n : ℕ) → IsNumber text n ↔ SpellsNumber text n }
    ensures front_size { (text : List ℕ) (n end : ℕ) → size_of text ≡ Ok (n, end) →
        (front : List ℕ) × IsSize front n × (text ≡ front ++ drop end text)
        × (length front ≡ end) }
    ensures front_number { (text : List ℕ) (n end : ℕ) → number_of text ≡ Ok (n, end) →
        (front : List ℕ) × IsNumber front n × (text ≡ front ++ drop end text)
        × (length front ≡ end) }
{}

/// Returns whether the text begins with a decimal digit.
fn begins_with_a_digit(text: &[u8]) -> bool
    ensures { result ≡ begins_with_digit text.now }
{
    match text {
        [first, ..] => char::from(*first).is_digit(10),
        [] => false,
    }
}

/// Returns whether the text begins with `0x` or `0X` and a hexadecimal digit.
fn is_hex(text: &[u8]) -> bool
    ensures value { result ≡ is_hexadecimal text.now }
    ensures long { IsTrue result → 2 ≤ length text.now }
{
    match text {
        [b'0', b'x' | b'X', digit, ..] => char::from(*digit).is_digit(16),
        _ => false,
    }
}

/// Returns the base of the number at the start of the text: 16 if it begins with `0x` or `0X` and a
/// hexadecimal digit, else 8 if it begins with `0`, else 10.
fn radix_at(text: &[u8]) -> u32
    ensures value { result ≡ radix_of text.now }
    ensures lower_bound { 2 ≤ result }
    ensures upper_bound { result ≤ 36 }
{
    if is_hex(text) {
        return 16;
    }
    match text {
        [b'0', ..] => 8,
        _ => 10,
    }
}

/// Reads the digits of base `radix` (2 to 36) at the start of the text. Returns their value and how
/// many there are, both 0 if there are none. Returns `None` if the value exceeds 2^64 - 1.
fn read_digits(text: &[u8], radix: u32) -> Option<(u64, usize)>
    requires lower_bound { 2 ≤ radix }
    requires upper_bound { radix ≤ 36 }
    ensures found { IfSome result (λ found.
        (found.0 ≡ front_digits_value radix text.now) × (found.1
        ≡ length (front_digits radix text.now))) }
    ensures bound { IfSome result (λ found. found.1 ≤ length text.now) }
    ensures none { IfNone result (2 ^ 64 ≤ front_digits_value radix text.now) }
{
    let mut value: u64 = 0;
    for (count, byte) in text.iter().enumerate() {
        let Some(digit) = char::from(*byte).to_digit(radix) else {
            return Some((value, count));
        };
        value = with_digit(value, u64::from(radix), u64::from(digit))?;
    }
    Some((value, text.len()))
}

/// Returns `value * radix + digit`, which is `value` with one more digit on the right, or `None` if
/// the result exceeds 2^64 - 1.
fn with_digit(value: u64, radix: u64, digit: u64) -> Option<u64>
    ensures { SomeIff result (value * radix + digit < 2 ^ 64) (value * radix + digit) }
{
    value.checked_mul(radix)?.checked_add(digit)
}

/// Reads the suffix of a size (K, M, G, T, P or E, in upper or lower case) at index `end` of the
/// text. Returns its factor, from 2^10 to 2^60, and its length of 1 byte. Returns 1 and 0 if no
/// suffix is there.
fn read_suffix(text: &[u8], end: usize) -> (u64, usize)
    requires { end ≤ length text.now }
    ensures value { result ≡ suffix_of (drop end text.now) }
    ensures bound { end + result.1 ≤ length text.now }
{
    match text.get(end) {
        Some(b'K' | b'k') => (1 << 10, 1),
        Some(b'M' | b'm') => (1 << 20, 1),
        Some(b'G' | b'g') => (1 << 30, 1),
        Some(b'T' | b't') => (1 << 40, 1),
        Some(b'P' | b'p') => (1 << 50, 1),
        Some(b'E' | b'e') => (1 << 60, 1),
        _ => (1, 0),
    }
}
