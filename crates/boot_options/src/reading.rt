//! Reads the words of a line, one after another.
//!
//! Each word has a meaning by itself, which depends on its name. A [`Reading`] has the result of
//! all words read before. The edits are kept in the order of the line. The user map is what follows
//! the last `exactmap`. Of it, only what the check at the end of the line needs is kept: the number
//! of the word with that `exactmap`, and how many map options that add a range are still missing.
//!
//! Only this file and the values of `crashkernel=` allocate. If memory runs out, the rest of the
//! line is still read, so that a fault anywhere in it is found. Functions here record that memory
//! ran out, and never return `Memory`.

ghost use Rattle.std.specs.Prelude.{◌≡◌, ℕ, ◌≤◌, ◌+◌, length, Result, Ok, Err, List, [], ◌++◌};
ghost use Rattle.std.specs.Option.{option_map};
ghost use Rattle.boot_options.specs.declared.fault.OptionFault.TheVariants as faults;
ghost use Rattle.boot_options.specs.declared.options.TheConstants.{LONGEST_LINE};
ghost use Rattle.boot_options.specs.Options.{name_value_of, word_meaning, word_meanings_from, option_words, meaning_or_fault, crash_of, memmap_of};
ghost use Rattle.boot_options.specs.Reading.{ReadingState, start_state, user_map_less_one, after_map_option, after_meaning, after_meanings, IsReadTo, ReadsAs};
ghost use Rattle.std.specs.List.{cons_option};
ghost use Rattle.boot_options.specs.Kept.{KeepsItems};

use crate::crash::{CrashForm, PlainRead, read_crash_form};
use crate::fault::OptionFault;
use crate::map_option::{MapOption, read_map_option, read_mem};
use bm_base::Memory;
use e820_model::Edit;
use std::alloc::Global;
use text_words::{Separators, next_part, next_word, split_once, unquote};

/// The result of the words that have been read so far: what they say of the map, of `crashkernel=`,
/// of `numa=off` and of `add_efi_memmap`, and the last `exactmap`.
#[derive(Drop)]
pub struct Reading {
    /// The edits of all words read before, or `Memory` if the program ran out of memory for one of
    /// them.
    pub edits: Result<Vec<Edit>, Memory>,
    pub crash: CrashRead,
    pub numa_off: bool,
    pub add_efi: bool,
    pub user_map: Option<UserMap>,
}

/// The last value of each form of `crashkernel=` that has been read: plain, `S,high` and `S,low`.
#[derive(Drop)]
pub struct CrashRead {
    pub plain: Option<PlainRead>,
    pub high: Option<u64>,
    pub low: Option<u64>,
}

/// The last `exactmap` that has been read. `word` is the number of its word. At least two map
/// options that add a range must follow it; `wanting` is how many of these are still missing.
#[derive(Clone, Copy, Debug, PartialEq, Eq)]
pub struct UserMap {
    pub word: u32,
    pub wanting: u32,
}

/// Reads the words of the line up to the word `--`. The line must have at most 2,047 bytes.
///
/// # Errors
///
/// - `BadMem`, `BadMemmap`, `BadCrash` or `BadNuma`: the fault of the first malformed word.
pub fn read_option_words(alloc: Global, line: &[u8]) -> Result<Reading, OptionFault>
    requires { length line.now ≤ LONGEST_LINE }
    ensures { ReadsAs (λ reading. reading) result
        (after_meanings start_state (word_meanings_from 1 (option_words line.now))) }
{
    let mut reading = Reading {
        edits: Ok(Vec::new(alloc)),
        crash: CrashRead {
            plain: None,
            high: None,
            low: None,
        },
        numa_off: false,
        add_efi: false,
        user_map: None,
    };
    let mut rest = line;
    let mut number: u32 = 1;
    while let Some((word, after)) = next_word(rest, Separators::CommandLine) {
        let word = unquote(word);
        if word == b"--".as_slice() {
            return Ok(reading);
        }
        if let Err(fault) = read_word(alloc, word, number, &mut reading) {
            return Err(fault);
        }
        rest = after;
        number += 1;
    }
    Ok(reading)
}

/// Reads one word, whose number in the line is `number`, and adds what it says to `reading`. A word
/// with none of the options' names changes nothing.
///
/// # Errors
///
/// - `BadMem`, `BadMemmap`, `BadCrash` or `BadNuma`, by the word's name, if the word is malformed.
fn read_word(
    alloc: Global,
    word: &[u8],
    number: u32,
    reading: &mut Reading,
) -> Result<(), OptionFault>
    ensures { (st : ReadingState) → IsReadTo reading.old st →
        ReadsAs (λ _. reading.new) result
        (after_meaning number st (word_meaning number (name_value_of word.now))) }
{
    let (name, value) = name_value_of(word);
    if name == b"mem".as_slice() {
        let Some(option) = value.and_then(read_mem) else {
            return Err(OptionFault::BadMem { word: number });
        };
        add_map_option(&option, number, reading);
    } else if name == b"memmap".as_slice() {
        let Some(value) = value else {
            return Err(OptionFault::BadMemmap { word: number });
        };
        return read_memmap(value, number, reading);
    } else if name == b"crashkernel".as_slice() {
        let Some(value) = value else {
            return Err(OptionFault::BadCrash { word: number });
        };
        return read_crash(alloc, value, number, reading);
    } else if name == b"numa".as_slice() {
        let Some(b"off") = value else {
            return Err(OptionFault::BadNuma { word: number });
        };
        reading.numa_off = true;
    } else if name == b"add_efi_memmap".as_slice() {
        reading.add_efi = true;
    }
    Ok(())
}

/// Returns the name of a word, the text before its first `=`, and the value after it without
/// quotation marks. Without a `=` the whole word is the name, and the value is `None`.
fn name_value_of(word: &[u8]) -> (&[u8], Option<&[u8]>)
    ensures { (result.0.now, option_map (λ value. value.now) result.1) ≡ name_value_of word.now }
{
    match split_once(word, b'=') {
        Some((name, value)) => (name, Some(unquote(value))),
        None => (word, None),
    }
}

/// Reads the value of `memmap=`, map options with commas between them, and adds their effect to
/// `reading`. `number` is the number of the word.
///
/// # Errors
///
/// - `BadMemmap`: one of the map options is malformed.
fn read_memmap(value: &[u8], number: u32, reading: &mut Reading) -> Result<(), OptionFault>
    ensures { (st : ReadingState) → IsReadTo reading.old st →
        ReadsAs (λ _. reading.new) result
        (after_meaning number st
        (meaning_or_fault (faults.BadMemmap number) (memmap_of value.now))) }
{
    let mut rest = Some(value);
    while let Some(text) = rest {
        let (text, after) = next_part(text, Separators::Byte(b','));
        let Some(option) = read_map_option(text) else {
            return Err(OptionFault::BadMemmap { word: number });
        };
        add_map_option(&option, number, reading);
        rest = after;
    }
    Ok(())
}

/// Reads the value of `crashkernel=` into `reading`. It replaces an earlier value of the same form.
/// `number` is the number of the word.
///
/// # Errors
///
/// - `BadCrash`: the value is malformed.
fn read_crash(
    alloc: Global,
    value: &[u8],
    number: u32,
    reading: &mut Reading,
) -> Result<(), OptionFault>
    ensures { (st : ReadingState) → IsReadTo reading.old st →
        ReadsAs (λ _. reading.new) result
        (after_meaning number st (meaning_or_fault (faults.BadCrash number) (crash_of value.now))) }
{
    match read_crash_form(alloc, value) {
        Some(CrashForm::Plain(plain)) => reading.crash.plain = Some(plain),
        Some(CrashForm::High(size)) => reading.crash.high = Some(size),
        Some(CrashForm::Low(size)) => reading.crash.low = Some(size),
        None => return Err(OptionFault::BadCrash { word: number }),
    }
    Ok(())
}

/// Adds a map option to `reading`: appends its edit, and updates the last `exactmap` and the number
/// of options that are missing after it. `number` is the number of the option's word.
fn add_map_option(option: &MapOption, number: u32, reading: &mut Reading)
    ensures { (st : ReadingState) → IsReadTo reading.old st →
        IsReadTo reading.new (after_map_option number st option.now) }
{
    match option {
        MapOption::ExactMap => {
            append_item(&Some(Edit::Clear), &mut reading.edits);
            reading.user_map = Some(UserMap {
                word: number,
                wanting: 2,
            });
        }
        MapOption::Adding(edit) => {
            append_item(edit, &mut reading.edits);
            reading.user_map = user_map_less_one(&reading.user_map);
        }
        MapOption::Other(edit) => append_item(edit, &mut reading.edits),
    }
}

/// Returns the last `exactmap` after one more map option that adds a range: `wanting`, the number
/// of missing ones, is one less, but never below 0.
fn user_map_less_one(map: &Option<UserMap>) -> Option<UserMap>
    ensures { result ≡ option_map user_map_less_one map.now }
{
    map.map(|map| UserMap {
        word: map.word,
        wanting: map.wanting.saturating_sub(1),
    })
}

/// Appends the item, if there is one, to the list. If the program runs out of memory, the list
/// becomes `Err(Memory)` and stays so in later calls.
pub fn append_item<T: Copy>(item: &Option<T>, items: &mut Result<Vec<T>, Memory>)
    ensures { (before : List T) → KeepsItems items.old before →
        KeepsItems items.new (before ++ cons_option item.now []) }
{
    if let (Some(item), Ok(kept)) = (item, &mut *items) {
        if kept.push(*item).is_err() {
            *items = Err(Memory);
        }
    }
}
