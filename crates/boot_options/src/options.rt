//! Reads the options of a whole line. The limits of the line are tested first. Then its words are
//! read, and the map options after the last `exactmap` (the user map) are checked. This is the
//! entry point of the crate.

ghost use Rattle.std.specs.Prelude.{◌≡◌, ◌↔◌, ℕ, List, ◌<◌, ◌≤◌, length, MatchResult, Ok, Err, IfOk, IfErr, IfSome, Option, IsOkAnd, IsErr, OnErr, ◌⊎◌};
ghost use Rattle.bm_base.specs.Answers.{Answers};
ghost use Rattle.boot_options.specs.declared.options.TheConstants.{LONGEST_LINE};
ghost use Rattle.std.specs.Option.{option_map};
ghost use Rattle.boot_options.specs.Crash.{CrashOptionView, IsPlain, CrashPlainView, crash_option_view, crash_plain_view};
ghost use Rattle.boot_options.specs.Kept.{KeepsLast};
ghost use Rattle.boot_options.specs.Options.{WordMeaning, options_view, command_line_of, name_value_of, option_words, options_of, word_meaning, word_meanings_from, HaveRanges, IsNumbered, OptionsNeedMemory};
ghost use Rattle.boot_options.specs.Spelling.{IsBadCrash, IsBadMem, IsBadMemmap, IsBadNuma, IsFirstWordFault, SpellsLine, SpellsMeaning};
ghost use Rattle.boot_options.specs.declared.fault.OptionFault.TheVariants as faults;
ghost use Rattle.e820_model.specs.Claims.{HaveTypes};
ghost use Rattle.boot_options.specs.Reading.{ReadingState, IsReadTo, KeepsCrash, LacksRanges, at_line_end};

use crate::crash::{CrashOption, CrashPlain, PlainRead};
use crate::fault::OptionFault;
use crate::reading::{CrashRead, Reading, read_option_words};
use bm_base::Memory;
use e820_model::Edit;
use std::alloc::Global;
use text_words::{text_before, without_last};

/// The options that a command line sets for the memory set-up.
#[derive(Debug, Drop)]
pub struct Options {
    /// The edits of the map from `mem=` and `memmap=`, in the order of the line.
    pub edits: Vec<Edit>,
    /// What the `crashkernel=` options request: the last value of each of their three forms.
    pub crash: CrashOption,
    /// True if the line has `numa=off`: the SRAT isn't used.
    pub numa_off: bool,
    /// True if the line has `add_efi_memmap`: the entries of the EFI map are added to the map.
    pub add_efi: bool,
}

/// Reads the options for the memory set-up from the bytes of a file with a command line.
///
/// The line ends before the first zero byte, and one newline at its end is dropped. The word `--`
/// ends the options.
///
/// # Errors
///
/// The first of these that applies:
///
/// - `TooLong`: the line has more than 2,047 bytes (`COMMAND_LINE_SIZE` less the zero byte).
/// - `OpenQuote`: the line has an odd number of quotation marks.
/// - `BadMem`, `BadMemmap`, `BadCrash`, `BadNuma`: the first malformed word is one of that name.
/// - `UserMapInvalid`: fewer than two map options after the last `exactmap` add a range.
/// - `Memory`: the program ran out of memory for an edit or a range.
pub fn read_options(alloc: Global, bytes: &[u8]) -> Result<Options, OptionFault>
    ensures answers { Answers OptionFault.Memory options_view result (options_of bytes.now) }
    ensures memory { result ≡ Err OptionFault.Memory →
        IsOkAnd (options_of bytes.now) OptionsNeedMemory }
    ensures types { IfOk result (λ options. HaveTypes options.edits.items) }
    ensures ranges { IfOk result (λ options. HaveRanges options.edits.items) }
    ensures crash { IfOk result (λ options.
        IfSome options.crash.plain (λ plain. IsPlain (crash_plain_view plain))) }
    ensures words { IfErr result IsNumbered }
{
    let line = command_line_of(bytes)?;
    let reading = read_option_words(alloc, line)?;
    finish(reading)
}

/// Law: a line has the fault [`OptionFault::BadMemmap`] with a word's number exactly if that word
/// is the first malformed one, and its name is `memmap`. The faults of `mem`, `crashkernel` and
/// `numa` follow the same rule. A word with one of these names is malformed if it has no `=`, or if
/// its value, without quotation marks, has none of the forms that its name allows.
pub fn malformed_words_are_faults()
    ensures mem { (bytes : List ℕ) (word : ℕ) →
        options_of bytes ≡ Err (faults.BadMem word) ↔ IsFirstWordFault bytes word IsBadMem }
    ensures memmap { (bytes : List ℕ) (word : ℕ) →
        options_of bytes ≡ Err (faults.BadMemmap word) ↔ IsFirstWordFault bytes word IsBadMemmap }
    ensures crash { (bytes : List ℕ) (word : ℕ) →
        options_of bytes ≡ Err (faults.BadCrash word) ↔ IsFirstWordFault bytes word IsBadCrash }
    ensures numa { (bytes : List ℕ) (word : ℕ) →
        options_of bytes ≡ Err (faults.BadNuma word) ↔ IsFirstWordFault bytes word IsBadNuma }
{}

/// Law: a word has exactly the meaning that the grammar gives to its name and its value, without
/// quotation marks. A line has the meanings of its words up to `--`.
pub fn words_say_what_they_spell()
    ensures word { (number : ℕ) (word : List ℕ) (said : WordMeaning) →
        word_meaning number (name_value_of word) ≡ Ok said ↔ SpellsMeaning word said }
    ensures line { (bytes line : List ℕ) (said : List (ℕ × WordMeaning))
        → command_line_of bytes ≡ Ok line →
        word_meanings_from 1 (option_words line) ≡ Ok said ↔ SpellsLine line said }
{}

/// The largest number of bytes of a line (`COMMAND_LINE_SIZE`, less the zero byte that ends it).
const LONGEST_LINE: usize = 2047;

/// Returns the line in the file: the bytes before the first zero byte, without a newline at the
/// end.
///
/// # Errors
///
/// - `TooLong`: the line has more than 2,047 bytes.
/// - `OpenQuote`: the line has an odd number of quotation marks.
fn command_line_of(bytes: &[u8]) -> Result<&[u8], OptionFault>
    ensures line { MatchResult result (λ line. command_line_of bytes.now ≡ Ok line.now)
        (λ fault. command_line_of bytes.now ≡ Err fault) }
    ensures short { IfOk result (λ line. length line.now ≤ LONGEST_LINE) }
{
    let line = without_last(text_before(bytes, 0), b'\n');
    if line.len() > LONGEST_LINE {
        return Err(OptionFault::TooLong);
    }
    if line.iter().filter(|byte| **byte == b'"').count() % 2 != 0 {
        return Err(OptionFault::OpenQuote);
    }
    Ok(line)
}

/// Returns the options of the line from the state of the reader after the last word. Allocates
/// nothing.
///
/// # Errors
///
/// - `UserMapInvalid`: fewer than two map options after the last `exactmap` add a range.
/// - `Memory`: the program ran out of memory for an edit or a range while it read the words.
///   `UserMapInvalid` comes before it.
fn finish(reading: Reading) -> Result<Options, OptionFault>
    ensures answers { (st : ReadingState) → IsReadTo reading st →
        Answers OptionFault.Memory options_view result (at_line_end st) }
    ensures memory { result ≡ Err OptionFault.Memory
        → IsErr reading.edits ⊎ LacksRanges reading.crash.plain }
    ensures complete { result ≡ Err OptionFault.Memory → (st : ReadingState) → IsReadTo reading st →
        IsOkAnd (at_line_end st) OptionsNeedMemory }
{
    if let Some(map) = reading.user_map {
        if map.wanting > 0 {
            return Err(OptionFault::UserMapInvalid { word: map.word });
        }
    }
    Ok(Options {
        edits: reading.edits?,
        crash: finish_crash(reading.crash)?,
        numa_off: reading.numa_off,
        add_efi: reading.add_efi,
    })
}

/// Returns the `crashkernel=` options after all words of the command line have been read.
///
/// # Errors
///
/// - `Memory`: the program ran out of memory for the ranges of the last `crashkernel=` without
///   `,high` or `,low`.
fn finish_crash(crash: CrashRead) -> Result<CrashOption, Memory>
    ensures value { (said : CrashOptionView) → KeepsCrash crash said →
        IfOk result (λ option. said ≡ crash_option_view option) }
    ensures lacking { OnErr result (LacksRanges crash.plain) }
{
    Ok(CrashOption {
        plain: finish_plain(crash.plain)?,
        high: crash.high,
        low: crash.low,
    })
}

/// Returns the plain form of the last `crashkernel=` that has one, or `None` if there is none.
///
/// # Errors
///
/// - `Memory`: the program ran out of memory for the ranges of this form.
fn finish_plain(plain: Option<PlainRead>) -> Result<Option<CrashPlain>, Memory>
    ensures value { (said : Option CrashPlainView) → KeepsLast plain said →
        IfOk result (λ plain. said ≡ option_map crash_plain_view plain) }
    ensures lacking { OnErr result (LacksRanges plain) }
{
    let Some(plain) = plain else {
        return Ok(None);
    };
    Ok(Some(CrashPlain {
        ranges: plain.ranges?,
        base: plain.base,
    }))
}
