//! Splits texts into parts, words and lines, without copying them.
//!
//! The kernel's command line, the lines of a script and comma-separated lists are all split the
//! same way: at each separator outside quotations. [`Separators`] says which bytes separate, and
//! whether `"` protects them. [`next_part`] returns the first part and the rest; [`next_word`]
//! returns the first part that isn't empty (`next_arg` of lib/cmdline.c). All results are slices
//! of the text.
//!
//! [`text_before`] and [`split_once`] look for the first occurrence of a byte, such as the `=` of
//! an option. [`unquote`] removes the quotation marks around a word or a value.
//!
//! The definitions are functions on lists of bytes (`specs/Parts.antt`, `specs/Words.antt`). Laws
//! tie them to the grammar (`specs/Spelling.antt`): words that are spelled are read
//! ([`spelled_words_are_read`], [`spelled_parts_are_read`]), and words that are read are spelled
//! ([`words_are_spelled`]). A law is an empty function whose contract is a proven fact. In
//! contracts, a name means the definition in `specs/`, even if a function has the same name.
#![tactic(auto)]

mod parts;
mod separators;
mod words;

pub use parts::{next_part, spelled_parts_are_read, split_once, text_before};
pub use separators::Separators;
pub use words::{next_word, spelled_words_are_read, unquote, without_last, words_are_spelled};
