//! Reads the value of `crashkernel=`: how much memory is set aside for a crash kernel, and where.
//!
//! There are three forms (kernel/crash_core.c). The plain form may have several ranges of total
//! memory, each with a size of its own. `S,high` requests an area that may lie above 4 GiB, and
//! `S,low` a part below 4 GiB. Each function here reads one value, or a part of one, and returns
//! `None` if it is malformed. Only the ranges of the plain form allocate. If memory runs out, the
//! value is still read to its end, so a malformed value is never reported as out of memory.

ghost use Rattle.std.specs.Prelude.{◌≡◌, ◌↔◌, ℕ, List, ◌∷◌, [], Some};
ghost use Rattle.std.specs.Option.{option_map};
ghost use Rattle.text_words.specs.declared.separators.Separators.TheVariants.{Byte as any_byte};
ghost use Rattle.text_words.specs.Parts.{parts_in};
ghost use Rattle.boot_options.specs.Crash.{CrashFormView, comma, crash_range_of, crash_ranges_of, end_of_range, crash_form_of, text_and_base, ranges_form, simple_form, suffix_form};
ghost use Rattle.boot_options.specs.Kept.{KeepsItems, KeepsForm, KeepsRanges};
ghost use Rattle.boot_options.specs.Spelling.{SpellsForm};

use crate::map_option::read_whole_size;
use crate::reading::append_item;
use bm_base::Memory;
use std::alloc::Global;
use text_words::{Separators, next_part, split_once};

/// A range of total memory, and how much is set aside if total memory lies in it. All numbers are
/// in bytes.
#[derive(Clone, Copy, Debug, PartialEq, Eq)]
pub struct CrashRange {
    /// The least total memory in the range, in bytes.
    pub start: u64,
    /// The least total memory above the range, in bytes, which is greater than `start`. `None` if
    /// the range has no end.
    pub end: Option<u64>,
    /// The size in bytes that is set aside; 0 means nothing.
    pub size: u64,
}

/// The plain form of `crashkernel=`: `S`, `S@B`, or sizes by ranges of total memory such as
/// `512M-2G:64M,2G-:128M@16M`.
#[derive(Debug, Drop)]
pub struct CrashPlain {
    /// The ranges of total memory with their sizes, in the order of the value; at least one.
    pub ranges: Vec<CrashRange>,
    /// The first address of the area, in bytes; 0 if the kernel chooses it.
    pub base: u64,
}

/// What the `crashkernel=` options of a line request: the last value of each of the three forms.
#[derive(Debug, Drop)]
pub struct CrashOption {
    /// The last value that is neither `S,high` nor `S,low`.
    pub plain: Option<CrashPlain>,
    /// The size in bytes of the last `S,high`.
    pub high: Option<u64>,
    /// The size in bytes of the last `S,low`.
    pub low: Option<u64>,
}

/// The plain form of a value of `crashkernel=` (neither `S,high` nor `S,low`) after it has been
/// read. The program may have run out of memory for its ranges.
#[derive(Drop)]
pub struct PlainRead {
    /// The ranges, or `Memory` if the program ran out of memory for one of them.
    pub ranges: Result<Vec<CrashRange>, Memory>,
    pub base: u64,
}

/// One value of `crashkernel=`, by its form: plain, `S,high` or `S,low`. `High` and `Low` have the
/// size in bytes.
#[derive(Drop)]
pub enum CrashForm {
    Plain(PlainRead),
    High(u64),
    Low(u64),
}

/// Reads a value of `crashkernel=` (`parse_crashkernel`). Returns `None` if it is malformed. If the
/// program runs out of memory for the ranges of a plain form, [`PlainRead::ranges`] says so.
#[tactic(auto, unfolding(crate::specs::Crash::crash_form_of))]
pub fn read_crash_form(alloc: Global, value: &[u8]) -> Option<CrashForm>
    ensures { KeepsForm result (crash_form_of value.now) }
{
    if split_once(value, b':').is_some() {
        return read_ranges_form(alloc, value);
    }
    match split_once(value, b',') {
        Some((size, name)) => read_suffix_form(size, name),
        None => read_simple_form(alloc, value),
    }
}

/// Reads a plain form of `crashkernel=` with ranges of total memory, such as
/// `512M-2G:64M,2G-:128M`, and an optional `@B` at the end. Returns `None` if it is malformed.
fn read_ranges_form(alloc: Global, value: &[u8]) -> Option<CrashForm>
    ensures { KeepsForm result (ranges_form value.now) }
{
    let (ranges, base) = text_and_base(value)?;
    let ranges = read_ranges(alloc, ranges)?;
    Some(CrashForm::Plain(PlainRead { ranges, base }))
}

/// Reads a plain form of `crashkernel=` without ranges of total memory, `S` or `S@B`. Returns it as
/// one range from 0 without an end, or `None` if it is malformed.
fn read_simple_form(alloc: Global, value: &[u8]) -> Option<CrashForm>
    ensures { KeepsForm result (simple_form value.now) }
{
    let (size, base) = text_and_base(value)?;
    let size = read_whole_size(size)?;
    let range = CrashRange {
        start: 0,
        end: None,
        size,
    };
    Some(CrashForm::Plain(PlainRead {
        ranges: one_range(alloc, range),
        base,
    }))
}

/// Returns a list of one member, the range.
///
/// # Errors
///
/// - `Memory`: the program ran out of memory.
fn one_range(alloc: Global, range: CrashRange) -> Result<Vec<CrashRange>, Memory>
    ensures { KeepsItems result (range ∷ []) }
{
    let mut ranges = Vec::new(alloc);
    ranges.push(range)?;
    Ok(ranges)
}

/// Reads a value of `crashkernel=` that has a comma: `size` is the text before the comma, and
/// `name` the text after it, which must be `high` or `low`. Returns `None` if either is malformed.
fn read_suffix_form(size: &[u8], name: &[u8]) -> Option<CrashForm>
    ensures { KeepsForm result (suffix_form (size.now, name.now)) }
{
    let size = read_whole_size(size)?;
    if name == b"high".as_slice() {
        return Some(CrashForm::High(size));
    }
    if name == b"low".as_slice() {
        return Some(CrashForm::Low(size));
    }
    None
}

/// Splits a plain form of `crashkernel=` at its first `@`. Returns the text before the `@` and the
/// base, the size that the text after it spells. Without an `@`, returns the whole text and base 0.
/// Returns `None` if the base is malformed.
fn text_and_base(text: &[u8]) -> Option<(&[u8], u64)>
    ensures { option_map (λ place. (place.0.now, place.1)) result ≡ text_and_base text.now }
{
    match split_once(text, b'@') {
        Some((front, base)) => Some((front, read_whole_size(base)?)),
        None => Some((text, 0)),
    }
}

/// Reads ranges of total memory with commas between them. Returns `None` if one is malformed,
/// `Some(Ok(..))` with all ranges in order, or `Some(Err(Memory))` if the program ran out of memory
/// for them.
fn read_ranges(alloc: Global, text: &[u8]) -> Option<Result<Vec<CrashRange>, Memory>>
    ensures { KeepsRanges result (crash_ranges_of (parts_in (any_byte comma) text.now)) }
{
    let mut ranges = Ok(Vec::new(alloc));
    let mut rest = Some(text);
    while let Some(text) = rest {
        let (text, after) = next_part(text, Separators::Byte(b','));
        let Some(range) = read_range(text) else {
            return None;
        };
        append_item(&Some(range), &mut ranges);
        rest = after;
    }
    Some(ranges)
}

/// Reads one range of total memory and its size: `start-end:S` or `start-:S`. Returns `None` if it
/// is malformed, or if `end` isn't above `start`.
fn read_range(text: &[u8]) -> Option<CrashRange>
    ensures { result ≡ crash_range_of text.now }
{
    let (bounds, size) = split_once(text, b':')?;
    let (start, end) = split_once(bounds, b'-')?;
    let start = read_whole_size(start)?;
    let end = read_end(end)?;
    let size = read_whole_size(size)?;
    if end.is_some_and(|end| end <= start) {
        return None;
    }
    Some(CrashRange { start, end, size })
}

/// Reads the end of a range of total memory. Returns `Some(None)` if the text is empty, which
/// means that the range has no end, and `None` if the text is malformed.
fn read_end(text: &[u8]) -> Option<Option<u64>>
    ensures { result ≡ end_of_range text.now }
{
    if text.is_empty() {
        return Some(None);
    }
    Some(Some(read_whole_size(text)?))
}

/// Law: a value of `crashkernel=` is read as a form exactly if the grammar spells it as that form
/// (`SpellsForm`).
pub fn crash_forms_are_spelled()
    ensures { (value : List ℕ) (form : CrashFormView)
        → crash_form_of value ≡ Some form ↔ SpellsForm value form }
{}
