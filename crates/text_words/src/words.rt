//! Words, the parts of a text that aren't empty, and the quotation marks around a word or a
//! value.
//!
//! The kernel finds words and removes their quotation marks in one pass, and writes into the line
//! (`next_arg` of lib/cmdline.c). Here the text isn't changed, and a word is a slice of it.

ghost use Rattle.std.specs.Prelude.{◌≡◌, ◌↔◌, ℕ, ◌<◌, ◌≤◌, true, false, List, [], ◌∷◌, ◌++◌, length, IfSome, IfNone};
ghost use Rattle.text_words.specs.declared.separators.Separators.{Separators as SomeSeparators};
ghost use Rattle.text_words.specs.Parts.{separates};
ghost use Rattle.text_words.specs.Words.{words_in, unquote, without_last, IsWord};
ghost use Rattle.text_words.specs.Spelling.{HasWords, QuotesClose, Unquotes};

use crate::{Separators, next_part};

/// Returns the first word of the text and the text after the separator that ends it, or `None` if
/// there is no word. A word is a part that isn't empty. The second text is empty if no separator
/// follows the word.
pub fn next_word(text: &[u8], separators: Separators) -> Option<(&[u8], &[u8])>
    ensures some { IfSome result (λ found.
        words_in separators text.now ≡ found.0.now ∷ words_in separators found.1.now) }
    ensures none { IfNone result (words_in separators text.now ≡ []) }
    ensures shorter { IfSome result (λ found. length found.1.now < length text.now) }
    ensures within { IfSome result (λ found. length found.0.now ≤ length text.now) }
{
    let mut rest = Some(text);
    while let Some(text) = rest {
        let (part, after) = next_part(text, separators);
        if !part.is_empty() {
            return Some((part, after.unwrap_or(&[])));
        }
        rest = after;
    }
    None
}

/// Returns the text without the `"` at its start and, if there is one, the `"` at its end. A text
/// that doesn't begin with `"` is returned unchanged.
pub fn unquote(text: &[u8]) -> &[u8]
    ensures { result.now ≡ unquote text.now }
{
    match text.split_first() {
        Some((b'"', inner)) => without_last(inner, b'"'),
        _ => text,
    }
}

/// Returns the text without its last byte if that is `mark`, else the whole text.
pub fn without_last(text: &[u8], mark: u8) -> &[u8]
    ensures { result.now ≡ without_last mark text.now }
{
    match text.split_last() {
        Some((last, front)) if *last == mark => front,
        _ => text,
    }
}

/// Law: splitting a text that was made of words with separators between them gives those words.
/// Separators before a word are skipped. A word ends before the next separator outside quotations.
pub fn spelled_words_are_read()
    ensures gap { (s : SomeSeparators) (b : ℕ) (rest : List ℕ)
        → separates s b ≡ true → words_in s (b ∷ rest) ≡ words_in s rest }
    ensures word { (s : SomeSeparators) (word : List ℕ) (b : ℕ) (rest : List ℕ)
        → IsWord s word → separates s b ≡ true
        → words_in s (word ++ (b ∷ rest)) ≡ word ∷ words_in s rest }
    ensures last { (s : SomeSeparators) (word : List ℕ)
        → IsWord s word → words_in s word ≡ word ∷ [] }
{}

/// Law: if all quotations of a text close, its words are exactly those that the grammar finds in it
/// (`HasWords`). Unquoting a text gives the text that the grammar gives (`Unquotes`).
pub fn words_are_spelled()
    ensures words { (s : SomeSeparators) (text : List ℕ) (words : List (List ℕ)) →
        QuotesClose s false text → words_in s text ≡ words ↔ HasWords s text words }
    ensures unquoted { (text inner : List ℕ) → unquote text ≡ inner ↔ Unquotes text inner }
{}
