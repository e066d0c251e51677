//! Writes the report `options`: the options that the kernel's command line sets for the memory
//! set-up, as they were read. Their effects are in other reports: those of the map, the nodes and
//! the crash area.

ghost use Rattle.std.specs.Prelude.{◌++◌, codes};
ghost use Rattle.std.specs.Option.{option_map};
ghost use Rattle.bm_base.specs.PutsText.{PutsText};
ghost use Rattle.bm_base.specs.Text.{hex_text};
ghost use Rattle.boot_options.specs.Crash.{crash_option_view, crash_plain_view};
ghost use Rattle.boot_options.specs.Options.{options_view};
ghost use Rattle.report_memory.specs.OptionsText.{crash_lines, crash_range_text, edit_line, edit_text, efi_line, crash_end_text, kind_text, numa_line, options_text, plain_lines, crash_size_line};

use crate::lines::put_indexed_lines;
use crate::ranges::{put_range, put_word_range};
use bm_base::{Memory, put_dec, put_hex, put_text};
use boot_options::{CrashOption, CrashPlain, CrashRange, Edit, Options};

/// Appends the report `options`: a line for each edit of the map (`mem=`, `memmap=`) in the order
/// of the command line, and then the lines of the requested crash area. Lines for `numa=off` and
/// `add_efi_memmap` follow, if the command line has them.
///
/// # Errors
///
/// - `Memory`: the program ran out of memory; the text is incomplete.
pub fn put_options(text: &mut Vec<u8>, options: &Options) -> Result<(), Memory>
    ensures { PutsText text.old text.new result (options_text (options_view options.now)) }
{
    put_indexed_lines(text, &options.edits, put_edit_line)?;
    put_crash_lines(text, &options.crash)?;
    put_numa_line(text, options.numa_off)?;
    put_efi_line(text, options.add_efi)
}

/// Appends the line of an edit of the map. `index` is unused; [`put_indexed_lines`] passes it to
/// each function that appends a line.
fn put_edit_line(text: &mut Vec<u8>, index: u64, edit: &Edit) -> Result<(), Memory>
    ensures { PutsText text.old text.new result (edit_line index edit.now) }
{
    put_edit(text, edit)?;
    put_text(text, b"\n")
}

/// Appends the text of an edit of the map, as in `add 1 0x0000000000100000..0x00000000001fffff`:
/// what the edit does, the types that it names, and its range.
fn put_edit(text: &mut Vec<u8>, edit: &Edit) -> Result<(), Memory>
    ensures { PutsText text.old text.new result (edit_text edit.now) }
{
    match edit {
        Edit::Add { range, kind } => {
            put_text(text, b"add ")?;
            put_kind(text, *kind)?;
            put_range(text, range)
        }
        Edit::Remove { range, kind } => {
            put_text(text, b"remove ")?;
            put_kind(text, *kind)?;
            put_range(text, range)
        }
        Edit::RemoveAll { range } => put_word_range(text, b"remove-all ", range),
        Edit::Change { range, from, to } => {
            put_text(text, b"change ")?;
            put_kind(text, *from)?;
            put_kind(text, *to)?;
            put_range(text, range)
        }
        Edit::Clear => put_text(text, b"clear"),
    }
}

/// Appends the number of an address range's type (`enum e820_type`), and a space.
fn put_kind(text: &mut Vec<u8>, kind: u32) -> Result<(), Memory>
    ensures { PutsText text.old text.new result (kind_text kind) }
{
    put_dec(text, u64::from(kind), 0)?;
    put_text(text, b" ")
}

/// Appends the lines of the requested crash area: one for each range of
/// `crashkernel=RANGE:SIZE,..`, and one for each other form of the option that the command line
/// has.
fn put_crash_lines(text: &mut Vec<u8>, crash: &CrashOption) -> Result<(), Memory>
    ensures { PutsText text.old text.new result (crash_lines (crash_option_view crash.now)) }
{
    put_plain_lines(text, &crash.plain)?;
    put_crash_size_line(text, b"crash high ", crash.high)?;
    put_crash_size_line(text, b"crash low ", crash.low)
}

/// Appends a line for each range of `crashkernel=RANGE:SIZE,..[@BASE]`, if the command line has
/// that form.
fn put_plain_lines(text: &mut Vec<u8>, plain: &Option<CrashPlain>) -> Result<(), Memory>
    ensures { PutsText text.old text.new result
        (plain_lines (option_map crash_plain_view plain.now)) }
{
    match plain {
        Some(plain) => {
            let base = plain.base;
            put_indexed_lines(
                text,
                &plain.ranges,
                |text: &mut Vec<u8>, _index: u64, range: &CrashRange| {
                    put_crash_range(text, b"crash range ", range, base)
                },
            )
        }
        None => Ok(()),
    }
}

/// Appends the line for one range of `crashkernel=RANGE:SIZE,..[@BASE]`: `word`, the range and its
/// size, then `base`, the address of the crash area. All numbers are in bytes.
fn put_crash_range(
    text: &mut Vec<u8>,
    word: &[u8],
    range: &CrashRange,
    base: u64,
) -> Result<(), Memory>
    ensures { PutsText text.old text.new result (word.now
        ++ crash_range_text range.now ++ codes " base " ++ hex_text base ++ codes "\n") }
{
    put_text(text, word)?;
    put_crash_bounds(text, range)?;
    put_text(text, b" base ")?;
    put_hex(text, base)?;
    put_text(text, b"\n")
}

/// Appends the bounds of a range of total memory, and the size of the crash area for a machine with
/// so much memory. All numbers are in bytes.
#[tactic(auto, unfolding(crate::specs::OptionsText::crash_range_text))]
fn put_crash_bounds(text: &mut Vec<u8>, range: &CrashRange) -> Result<(), Memory>
    ensures { PutsText text.old text.new result (crash_range_text range.now) }
{
    put_hex(text, range.start)?;
    put_text(text, b" ")?;
    put_crash_end(text, range.end)?;
    put_text(text, b" ")?;
    put_hex(text, range.size)
}

/// Appends the end of a range of total memory, or `-` if it has none.
fn put_crash_end(text: &mut Vec<u8>, end: Option<u64>) -> Result<(), Memory>
    ensures { PutsText text.old text.new result (crash_end_text end) }
{
    match end {
        Some(end) => put_hex(text, end),
        None => put_text(text, b"-"),
    }
}

/// Appends a line with `word` and the size in bytes, if there is a size.
fn put_crash_size_line(text: &mut Vec<u8>, word: &[u8], size: Option<u64>) -> Result<(), Memory>
    ensures { PutsText text.old text.new result (crash_size_line word.now size) }
{
    let Some(size) = size else {
        return Ok(());
    };
    put_text(text, word)?;
    put_hex(text, size)?;
    put_text(text, b"\n")
}

/// Appends the line for `numa=off`, if the command line has that option.
fn put_numa_line(text: &mut Vec<u8>, numa_off: bool) -> Result<(), Memory>
    ensures { PutsText text.old text.new result (numa_line numa_off) }
{
    if !numa_off {
        return Ok(());
    }
    put_text(text, b"numa off\n")
}

/// Appends the line for `add_efi_memmap`, if the command line has that option.
fn put_efi_line(text: &mut Vec<u8>, add_efi: bool) -> Result<(), Memory>
    ensures { PutsText text.old text.new result (efi_line add_efi) }
{
    if !add_efi {
        return Ok(());
    }
    put_text(text, b"efi add\n")
}
