//! Reads the words of a line and the numbers among them, one small step each.
//!
//! Nothing here allocates: a word is a slice of the line, and each step returns the rest of the
//! line. A step that fails returns what is wrong with the line. The steps are called in
//! `crate::forms`, and their order there decides which fault is reported.

ghost use Rattle.std.specs.Prelude.{◌≡◌, ℕ, ◌<◌, ◌≤◌, ◌^◌, [], ◌∷◌, Option, Ok, Err, MatchResult, IfOk, IfErr, IsTrue};
ghost use Rattle.std.specs.Int.{is_power_of_two};
ghost use Rattle.std.specs.Option.{option_map};
ghost use Rattle.text_words.specs.Words.{words_in};
ghost use Rattle.text_words.specs.declared.separators.Separators.TheVariants as separators;
ghost use Rattle.script_reader.specs.Numbers.{IsWordFault, expect_no_words, first_word, one_word, two_words, three_words, word_after_key, number_in_word, number_within, optional_number, check_power_of_two, check_not_zero, range_or_fault};
ghost use Rattle.script_reader.specs.Lines.{is_comment};

use crate::fault::ScriptLineFault;
use bm_base::{Range, read_size};
use text_words::{Separators, next_word};

/// Tests whether a line with this first word is a comment: the word begins with `#`.
pub fn is_comment(word: &[u8]) -> bool
    ensures { result ≡ is_comment word.now }
{
    word.first() == Some(&b'#')
}

/// Checks that the text has no words.
///
/// # Errors
///
/// - `Form`: there is another word.
pub fn expect_no_words(text: &[u8]) -> Result<(), ScriptLineFault>
    ensures value { result ≡ expect_no_words (words_in separators.Script text.now) }
    ensures of_words { IfErr result IsWordFault }
{
    match next_word(text, Separators::Script) {
        Some(_) => Err(ScriptLineFault::Form),
        None => Ok(()),
    }
}

/// Returns the first word of the text, and the text after it.
///
/// # Errors
///
/// - `Form`: there is no word.
pub fn first_word(text: &[u8]) -> Result<(&[u8], &[u8]), ScriptLineFault>
    ensures value { MatchResult result
        (λ found. first_word (words_in separators.Script text.now)
        ≡ Ok (found.0.now, words_in separators.Script found.1.now))
        (λ wrong. first_word (words_in separators.Script text.now) ≡ Err wrong) }
    ensures of_words { IfErr result IsWordFault }
{
    next_word(text, Separators::Script).ok_or(ScriptLineFault::Form)
}

/// Returns the only word of the text.
///
/// # Errors
///
/// - `Form`: there is no word, or more than one.
pub fn one_word(text: &[u8]) -> Result<&[u8], ScriptLineFault>
    ensures value { MatchResult result
        (λ word. one_word (words_in separators.Script text.now) ≡ Ok word.now)
        (λ wrong. one_word (words_in separators.Script text.now) ≡ Err wrong) }
    ensures of_words { IfErr result IsWordFault }
{
    let (word, rest) = first_word(text)?;
    expect_no_words(rest)?;
    Ok(word)
}

/// Returns the two words of the text.
///
/// # Errors
///
/// - `Form`: there aren't exactly two words.
pub fn two_words(text: &[u8]) -> Result<(&[u8], &[u8]), ScriptLineFault>
    ensures { MatchResult result
        (λ words. two_words (words_in separators.Script text.now) ≡ Ok (words.0.now, words.1.now))
        (λ wrong. two_words (words_in separators.Script text.now) ≡ Err wrong) }
{
    let (first, rest) = first_word(text)?;
    let second = one_word(rest)?;
    Ok((first, second))
}

/// Returns the three words of the text.
///
/// # Errors
///
/// - `Form`: there aren't exactly three words.
pub fn three_words(text: &[u8]) -> Result<(&[u8], &[u8], &[u8]), ScriptLineFault>
    ensures { MatchResult result
        (λ words. three_words (words_in separators.Script text.now)
        ≡ Ok (words.0.now, words.1.now, words.2.now))
        (λ wrong. three_words (words_in separators.Script text.now) ≡ Err wrong) }
{
    let (first, rest) = first_word(text)?;
    let (second, third) = two_words(rest)?;
    Ok((first, second, third))
}

/// If the text starts with `key WORD`, returns WORD and the rest of the text. Otherwise returns
/// `None` and the text unchanged.
pub fn word_after_key<'a>(key: &[u8], text: &'a [u8]) -> (Option<&'a [u8]>, &'a [u8])
    ensures { word_after_key key.now (words_in separators.Script text.now)
        ≡ (option_map (λ word. word.now) result.0, words_in separators.Script result.1.now) }
{
    let Some((word, rest)) = next_word(text, Separators::Script) else {
        return (None, text);
    };
    if word != key {
        return (None, text);
    }
    match next_word(rest, Separators::Script) {
        Some((value, rest)) => (Some(value), rest),
        None => (None, text),
    }
}

/// Returns the number that the whole word spells: decimal, hexadecimal after `0x` or octal after
/// `0`, with an optional suffix such as K for 2^10 (`memparse`).
///
/// # Errors
///
/// - `Number`: the word isn't entirely a number, or the number is above 2^64 - 1.
pub fn number_in_word(word: &[u8]) -> Result<u64, ScriptLineFault>
    ensures value { result ≡ number_in_word word.now }
    ensures of_words { IfErr result IsWordFault }
{
    match read_size(word) {
        Ok((value, taken)) if taken == word.len() => Ok(value),
        _ => Err(ScriptLineFault::Number),
    }
}

/// Returns the number that the whole word spells, which is at most `most`.
///
/// # Errors
///
/// - `Number`: the word isn't entirely a number, or the number is above `most`.
pub fn number_within(most: u64, word: &[u8]) -> Result<u64, ScriptLineFault>
    ensures value { result ≡ number_within most word.now }
    ensures bound { IfOk result (λ n. n ≤ most) }
    ensures of_words { IfErr result IsWordFault }
{
    let value = number_in_word(word)?;
    if value > most {
        return Err(ScriptLineFault::Number);
    }
    Ok(value)
}

/// Returns the number that the word spells, which is at most `most`, or `None` if there is no word.
///
/// # Errors
///
/// - `Number`: the word isn't entirely a number, or the number is above `most`.
pub fn optional_number(most: u64, word: Option<&[u8]>) -> Result<Option<u64>, ScriptLineFault>
    ensures value { result ≡ optional_number most (option_map (λ word. word.now) word.entry) }
    ensures bound { IfOk result (λ found. (n : ℕ) → found ≡ Some n → n ≤ most) }
{
    match word {
        None => Ok(None),
        Some(word) => Ok(Some(number_within(most, word)?)),
    }
}

/// Returns the alignment unchanged if it is a power of two.
///
/// # Errors
///
/// - `Align`: it isn't a power of two.
pub fn check_power_of_two(value: u64) -> Result<u64, ScriptLineFault>
    ensures value { result ≡ check_power_of_two value }
    ensures power { IfOk result (λ n. IsTrue (is_power_of_two n)) }
{
    if !value.is_power_of_two() {
        return Err(ScriptLineFault::Align);
    }
    Ok(value)
}

/// Returns the size unchanged if it is at least 1.
///
/// # Errors
///
/// - `ZeroSize`: it is 0.
pub fn check_not_zero(value: u64) -> Result<u64, ScriptLineFault>
    ensures value { result ≡ check_not_zero value }
    ensures some { IfOk result (λ n. 0 < n) }
{
    if value == 0 {
        return Err(ScriptLineFault::ZeroSize);
    }
    Ok(value)
}

/// Returns the range of `size` bytes from address `base` on, if it ends at 2^64 - 1 or below.
///
/// # Errors
///
/// - `TooFar`: `base + size` exceeds 2^64 - 1.
pub fn range_or_fault(base: u64, size: u64) -> Result<Range, ScriptLineFault>
    ensures { result ≡ range_or_fault base size }
{
    Range::new(base, size).ok_or(ScriptLineFault::TooFar)
}
