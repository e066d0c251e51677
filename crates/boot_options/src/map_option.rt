//! Reads map options: the value of `mem=`, and the texts between the commas of `memmap=`.
//!
//! Each function reads one map option, as `parse_memopt` and `parse_memmap_one` of
//! arch/x86/kernel/e820.c do: a size, a mark that says what the range is for, and an address. If
//! the option changes types, they follow the address. Nothing here allocates. The functions return
//! `None` for a malformed text, and the caller reports the fault with the number of the word.

ghost use Rattle.std.specs.Prelude.{◌≡◌, ◌↔◌, ℕ, List, Some};
ghost use Rattle.std.specs.Option.{option_map};
ghost use Rattle.text_words.specs.declared.separators.Separators.TheVariants.{Byte as any_byte};
ghost use Rattle.text_words.specs.Parts.{parts_in};
ghost use Rattle.boot_options.specs.declared.map_option.MapOption.{MapOption as AnyOption};
ghost use Rattle.boot_options.specs.Crash.{comma};
ghost use Rattle.boot_options.specs.MapOptions.{front_size, front_number, whole_size, unless_empty, ram_above, adding_option, kind_after_mark, retype_option, percent_map_option, map_option_by_mark, map_option_of, mem_of};
ghost use Rattle.boot_options.specs.Options.{map_options_of};
ghost use Rattle.boot_options.specs.Spelling.{SpellsMapOption, SpellsMapOptions, SpellsMem};

use bm_base::{Range, read_number, read_size};
use e820_model::{E820_TYPE_ACPI, E820_TYPE_PRAM, E820_TYPE_RAM, E820_TYPE_RESERVED, Edit};

/// A map option: the value of `mem=`, or one of the texts between the commas of `memmap=`. Its edit
/// is the change that it makes to the map.
#[derive(Clone, Copy, Debug, PartialEq, Eq)]
pub enum MapOption {
    /// The map options that follow replace the firmware's map (`memmap=exactmap`).
    ExactMap,
    /// Adds a range of some type. The edit is `None` if the range is empty.
    Adding(Option<Edit>),
    /// Removes or changes types. The edit is `None` if nothing changes: the range is empty, or the
    /// option is `mem=nopentium`.
    Other(Option<Edit>),
}

/// Reads the value of `mem=` (`parse_memopt`). A size makes RAM end at that address; `nopentium`
/// changes nothing. Returns `None` if the value is neither, or if the size is 0.
pub fn read_mem(text: &[u8]) -> Option<MapOption>
    ensures { result ≡ mem_of text.now }
{
    if text == b"nopentium".as_slice() {
        return Some(MapOption::Other(None));
    }
    let size = read_whole_size(text)?;
    if size == 0 {
        return None;
    }
    Some(MapOption::Other(ram_above(size)))
}

/// Reads a text between the commas of `memmap=` (`parse_memmap_one`): `exactmap`, a size S, or one
/// of `S@A`, `S#A`, `S$A`, `S!A` and `S%A-f+t`. Returns `None` if it is malformed.
pub fn read_map_option(text: &[u8]) -> Option<MapOption>
    ensures { result ≡ map_option_of text.now }
{
    if text == b"exactmap".as_slice() {
        return Some(MapOption::ExactMap);
    }
    let (size, rest) = read_front_size(text)?;
    map_option_by_mark(size, rest)
}

/// Returns the map option that consists of the size `size` and `text`, the text after the size. The
/// text begins with `@`, `#`, `$`, `!` or `%`; if it is empty, the option makes RAM end at `size`.
/// Returns `None` if the text is malformed.
fn map_option_by_mark(size: u64, text: &[u8]) -> Option<MapOption>
    ensures { result ≡ map_option_by_mark size text.now }
{
    let [mark, place @ ..] = text else {
        return Some(MapOption::Other(ram_above(size)));
    };
    match mark {
        b'@' => adding_option(E820_TYPE_RAM, size, place),
        b'#' => adding_option(E820_TYPE_ACPI, size, place),
        b'$' => adding_option(E820_TYPE_RESERVED, size, place),
        b'!' => adding_option(E820_TYPE_PRAM, size, place),
        b'%' => percent_map_option(size, place),
        _ => None,
    }
}

/// Returns the map option that adds `size` bytes of type `kind` from the address on that the text
/// `place` spells. Returns `None` if the address is malformed, or if the address plus `size`
/// exceeds 2^64 - 1.
fn adding_option(kind: u32, size: u64, place: &[u8]) -> Option<MapOption>
    ensures { result ≡ adding_option kind size place.now }
{
    let base = read_whole_size(place)?;
    let range = Range::new(base, size)?;
    Some(MapOption::Adding(unless_empty(range, Edit::Add { range, kind })))
}

/// Reads `A-f+t`, the text after `S%` in a map option: an address, and optional types to change
/// from (`-f`) and to (`+t`). Returns `None` if it is malformed, or if the address plus `size`
/// exceeds 2^64 - 1.
fn percent_map_option(size: u64, place: &[u8]) -> Option<MapOption>
    ensures { result ≡ percent_map_option size place.now }
{
    let (base, rest) = read_front_size(place)?;
    let range = Range::new(base, size)?;
    let (from, rest) = kind_after_mark(b'-', rest)?;
    let (to, rest) = kind_after_mark(b'+', rest)?;
    if !rest.is_empty() {
        return None;
    }
    retype_option(range, from, to)
}

/// Returns the map option `S%A-f+t` for its range and types; `from` or `to` is 0 if the text
/// doesn't give it. With both types it changes `from` to `to`, with only `from` it removes that
/// type, with only `to` it adds that type, and with neither it removes all types. Returns `None` if
/// both are given and equal.
fn retype_option(range: Range, from: u32, to: u32) -> Option<MapOption>
    ensures { result ≡ retype_option range from to }
{
    match (from, to) {
        (0, 0) => Some(MapOption::Other(unless_empty(range, Edit::RemoveAll { range }))),
        (0, kind) => Some(MapOption::Adding(unless_empty(range, Edit::Add { range, kind }))),
        (kind, 0) => Some(MapOption::Other(unless_empty(range, Edit::Remove { range, kind }))),
        (from, to) if from == to => None,
        (from, to) => Some(MapOption::Other(unless_empty(range, Edit::Change { range, from, to }))),
    }
}

/// If the text begins with `mark` (`-` or `+`), returns the number of a type after it, and the rest
/// of the text. Otherwise returns type 0 and the whole text. Returns `None` if the number is
/// malformed or exceeds 2^32 - 1.
fn kind_after_mark(mark: u8, text: &[u8]) -> Option<(u32, &[u8])>
    ensures { option_map (λ front. (front.0, front.1.now)) result ≡ kind_after_mark mark text.now }
{
    match text {
        [first, number @ ..] if *first == mark => {
            let (kind, rest) = read_front_number(number)?;
            Some((u32::try_from(kind).ok()?, rest))
        }
        _ => Some((0, text)),
    }
}

/// Returns the edit that removes RAM from address `size` up to 2^64 - 2, the highest address that a
/// range can have. Returns `None` if `size` is above that address.
fn ram_above(size: u64) -> Option<Edit>
    ensures { result ≡ ram_above size }
{
    let range = Range {
        base: size,
        size: u64::MAX - size,
    };
    unless_empty(
        range,
        Edit::Remove {
            range,
            kind: E820_TYPE_RAM,
        },
    )
}

/// Returns the edit, or `None` if its range is empty.
fn unless_empty(range: Range, edit: Edit) -> Option<Edit>
    ensures { result ≡ unless_empty range edit }
{
    if range.size > 0 { Some(edit) } else { None }
}

/// Returns the size in bytes that the whole text spells (`memparse`), or `None` if the text isn't a
/// size.
pub fn read_whole_size(text: &[u8]) -> Option<u64>
    ensures { result ≡ whole_size text.now }
{
    let (size, rest) = read_front_size(text)?;
    if rest.is_empty() { Some(size) } else { None }
}

/// Returns the size in bytes at the start of the text (`memparse`), and the rest of the text.
/// Returns `None` if the text doesn't start with a size, or if the size exceeds 2^64 - 1.
fn read_front_size(text: &[u8]) -> Option<(u64, &[u8])>
    ensures { option_map (λ front. (front.0, front.1.now)) result ≡ front_size text.now }
{
    let (size, taken) = read_size(text).ok()?;
    Some((size, text.split_at(taken).1))
}

/// Returns the number at the start of the text, and the rest of the text. A suffix such as `K`
/// isn't read. Returns `None` if the text doesn't start with a number, or if the number exceeds
/// 2^64 - 1.
fn read_front_number(text: &[u8]) -> Option<(u64, &[u8])>
    ensures { option_map (λ front. (front.0, front.1.now)) result ≡ front_number text.now }
{
    let (number, taken) = read_number(text).ok()?;
    Some((number, text.split_at(taken).1))
}

/// Law: the reader accepts exactly what the grammar spells, and with the same meaning: one map
/// option of `memmap=`, the whole value of `memmap=`, and the value of `mem=`.
pub fn map_options_are_spelled()
    ensures one { (text : List ℕ) (option : AnyOption) →
        map_option_of text ≡ Some option ↔ SpellsMapOption text option }
    ensures value { (value : List ℕ) (options : List AnyOption) →
        map_options_of (parts_in (any_byte comma) value) ≡ Some options
        ↔ SpellsMapOptions value options }
    ensures mem { (value : List ℕ) (option : AnyOption) →
        mem_of value ≡ Some option ↔ SpellsMem value option }
{}
