//! Writes the report `journal`: a line for each journal item, which is one recorded change of
//! memblock. [`put_item`] writes an item without its number, since the report `nodes` prints some
//! of the items without numbers.

ghost use Rattle.std.specs.Prelude.{◌+◌, ◌^◌, ◌<◌};
ghost use Rattle.bm_base.specs.PutsText.{PutsText};
ghost use Rattle.report_memory.specs.JournalText.{item_line, item_text, journal_text};

use crate::lines::put_indexed_lines;
use crate::owners::{memblock_table_name, put_owner};
use crate::ranges::{put_range, put_word_range};
use bm_base::{Memory, Range, put_dec, put_hex, put_text};
use boot_journal::{Item, Journal, Owner, Which};

/// Appends the report `journal`: a line for each item, oldest first, numbered from 1.
///
/// # Errors
///
/// - `Memory`: the program ran out of memory; the text is incomplete.
pub fn put_journal(text: &mut Vec<u8>, journal: &Journal) -> Result<(), Memory>
    ensures { PutsText text.old text.new result (journal_text journal.now.items) }
{
    put_indexed_lines(text, journal.items(), put_item_line)
}

/// Appends the line of a journal item, as in `12: trim`: its number, which is `index` + 1, and its
/// text.
fn put_item_line(text: &mut Vec<u8>, index: u64, item: &Item) -> Result<(), Memory>
    requires { index + 1 < 2 ^ 64 }
    ensures { PutsText text.old text.new result (item_line index item.now) }
{
    put_dec(text, index + 1, 0)?;
    put_text(text, b": ")?;
    put_item(text, item)?;
    put_text(text, b"\n")
}

/// Appends the text of a journal item, without a number: a word for the memblock call, and the
/// values of the call, as in `free 0x0000000000001000..0x0000000000001fff`.
///
/// # Errors
///
/// - `Memory`: the program ran out of memory; the text is incomplete.
pub fn put_item(text: &mut Vec<u8>, item: &Item) -> Result<(), Memory>
    ensures { PutsText text.old text.new result (item_text item.now) }
{
    match item {
        Item::Mem { range } => put_word_range(text, b"mem ", range),
        Item::Trim => put_text(text, b"trim"),
        Item::Node { range, node } => {
            put_text(text, b"node ")?;
            put_dec(text, u64::from(*node), 0)?;
            put_text(text, b" ")?;
            put_range(text, range)
        }
        Item::Mirror { range } => put_word_range(text, b"mirror ", range),
        Item::Claim { range, owner } => put_claim(text, range, *owner),
        Item::Free { range } => put_word_range(text, b"free ", range),
        Item::Limit { at } => {
            put_text(text, b"limit ")?;
            put_hex(text, *at)
        }
        Item::Upward { on } => put_upward(text, *on),
        Item::Grown { which, place, room } => put_growth(text, *which, *place, *room),
    }
}

/// Appends the text of an item that claims a range: `claim`, the owner and the range.
fn put_claim(text: &mut Vec<u8>, range: &Range, owner: Owner) -> Result<(), Memory>
    ensures { PutsText text.old text.new result (item_text (Item.Claim range.now owner)) }
{
    put_text(text, b"claim ")?;
    put_owner(text, owner)?;
    put_text(text, b" ")?;
    put_range(text, range)
}

/// Appends `upward on` if searches go from the lowest address up from this item on, or `upward off`
/// if they go from the highest down.
fn put_upward(text: &mut Vec<u8>, on: bool) -> Result<(), Memory>
    ensures { PutsText text.old text.new result (item_text (Item.Upward on)) }
{
    put_text(text, b"upward ")?;
    if on {
        put_text(text, b"on")
    } else {
        put_text(text, b"off")
    }
}

/// Appends the text of an item that grows a table of memblock: which table, its new address, and
/// the number of records that it has room for there.
fn put_growth(text: &mut Vec<u8>, which: Which, place: u64, room: u64) -> Result<(), Memory>
    ensures { PutsText text.old text.new result (item_text (Item.Grown which place room)) }
{
    put_text(text, b"grown ")?;
    put_text(text, memblock_table_name(which).as_bytes())?;
    put_text(text, b" ")?;
    put_hex(text, place)?;
    put_text(text, b" room ")?;
    put_dec(text, room, 0)
}
