//! Splits a text at its separators, or at the first occurrence of a byte.
//!
//! A text has at least one part, and a part may be empty, as between two commas.

ghost use Rattle.std.specs.Prelude.{◌≡◌, ℕ, ◌<◌, ◌≤◌, true, false, List, [], ◌∷◌, ◌++◌, length, IfSome};
ghost use Rattle.std.specs.Option.{option_map};
ghost use Rattle.text_words.specs.declared.separators.Separators.{Separators as SomeSeparators};
ghost use Rattle.text_words.specs.Parts.{separates, parts_in, parts_of_rest, text_before, split_once};
ghost use Rattle.text_words.specs.Words.{IsClosed};

use crate::Separators;

/// Returns the first part of the text, and the text after the separator that ends it. The second
/// value is `None` if no separator follows; the part is then the last one.
pub fn next_part(text: &[u8], separators: Separators) -> (&[u8], Option<&[u8]>)
    ensures parts { parts_in separators text.now
        ≡ result.0.now ∷ parts_of_rest separators (option_map (λ rest. rest.now) result.1) }
    ensures shorter { IfSome result.1 (λ rest. length rest.now < length text.now) }
    ensures no_longer { length result.0.now ≤ length text.now }
{
    let mut quoted = false;
    for (index, byte) in text.iter().enumerate() {
        if separators.separates(*byte) && !quoted {
            return (text.split_at(index).0, Some(text.split_at(index + 1).1));
        }
        if separators.quotes(*byte) {
            quoted = !quoted;
        }
    }
    (text, None)
}

/// Returns the text before the first byte `mark`, or the whole text if it doesn't contain `mark`.
pub fn text_before(text: &[u8], mark: u8) -> &[u8]
    ensures { result.now ≡ text_before mark text.now }
{
    for (index, byte) in text.iter().enumerate() {
        if *byte == mark {
            return text.split_at(index).0;
        }
    }
    text
}

/// Returns the texts before and after the first byte `mark`, or `None` if the text doesn't contain
/// `mark`.
pub fn split_once(text: &[u8], mark: u8) -> Option<(&[u8], &[u8])>
    ensures { option_map (λ found. (found.0.now, found.1.now)) result ≡ split_once mark text.now }
{
    for (index, byte) in text.iter().enumerate() {
        if *byte == mark {
            return Some((text.split_at(index).0, text.split_at(index + 1).1));
        }
    }
    None
}

/// Law: splitting a text that was made of parts with separators between them gives those parts, if
/// each part's quotations close and it has no separator outside them.
pub fn spelled_parts_are_read()
    ensures first { (s : SomeSeparators) (part : List ℕ) (b : ℕ) (rest : List ℕ)
        → IsClosed s false part → separates s b ≡ true
        → parts_in s (part ++ (b ∷ rest)) ≡ part ∷ parts_in s rest }
    ensures last { (s : SomeSeparators) (part : List ℕ)
        → IsClosed s false part → parts_in s part ≡ part ∷ [] }
{}
