//! The words of the command line that the caller passes, as strings.

ghost use Rattle.std.specs.Prelude.{◌≡◌, map, string_bytes, IsUtf8, IfOk, IsErrOf};
ghost use Rattle.std.specs.List.{All};
ghost use Rattle.bootmem_c.specs.Lent.{lent_words};

use crate::crossing::Bytes;
use std::alloc::{AllocError, AllocFailed, Global};

/// Why the words couldn't be returned as strings.
#[derive(Clone, Copy, Debug, PartialEq, Eq)]
pub enum StringsError {
    /// One of the words isn't UTF-8.
    NotUtf8,
    /// This program is out of memory.
    Memory,
}

impl From<AllocError> for StringsError {
    ghost use Rattle.std.specs.Prelude.{◌≡◌};
    ghost use Rattle.bootmem_c.specs.declared.words.StringsError.TheVariants as errors;

    ghost from_gives = { λ _ error. error ≡ errors.Memory };

    fn from(_error: AllocError) -> StringsError {
        StringsError::Memory
    }
}

impl<T: Drop> From<AllocFailed<T>> for StringsError {
    ghost use Rattle.std.specs.Prelude.{◌≡◌};
    ghost use Rattle.bootmem_c.specs.declared.words.StringsError.TheVariants as errors;

    ghost from_gives = { λ _ error. error ≡ errors.Memory };

    fn from(_error: AllocFailed<T>) -> StringsError {
        StringsError::Memory
    }
}

/// Returns the words as strings, in the same order.
///
/// # Errors
///
/// - [`StringsError::NotUtf8`] only if a word isn't UTF-8.
/// - [`StringsError::Memory`] if this program is out of memory.
pub fn strings_of_words(alloc: Global, words: &[Bytes<'_>]) -> Result<Vec<String>, StringsError>
    ensures texts { IfOk result (λ texts. map string_bytes texts.items ≡ lent_words words.now) }
    ensures utf8 { IfOk result (λ texts. All IsUtf8 (lent_words words.now)) }
    ensures other { IsErrOf result StringsError.NotUtf8 → ¬ All IsUtf8 (lent_words words.now) }
{
    let mut texts = Vec::new(alloc);
    for word in words {
        texts.push(string_of_word(alloc, word.bytes)?)?;
    }
    Ok(texts)
}

/// Returns the word as a string.
///
/// # Errors
///
/// - [`StringsError::NotUtf8`] only if the word isn't UTF-8.
/// - [`StringsError::Memory`] if this program is out of memory.
fn string_of_word(alloc: Global, word: &[u8]) -> Result<String, StringsError>
    ensures text { IfOk result (λ text. string_bytes text ≡ word.now) }
    ensures utf8 { IfOk result (λ text. IsUtf8 word.now) }
    ensures other { IsErrOf result StringsError.NotUtf8 → ¬ IsUtf8 word.now }
{
    let Ok(text) = str::from_utf8(word) else {
        return Err(StringsError::NotUtf8);
    };
    Ok(String::from_str(alloc, text)?)
}
