//! Makes tables of any number of entries. Their sizes come from a fixed sequence of pseudo-random
//! numbers, so the same number of entries always gives the same table. A real machine has a few
//! dozen entries; these tables show how the memory set-up copes with thousands.

ghost use Rattle.std.specs.Prelude.{◌≡◌, ℕ, ◌+◌, ◌*◌, ◌^◌, ◌<◌, ◌≤◌, [], ◌∷◌, ◌++◌, length, take, drop, None, IfOk, IsErr, OnOk};
ghost use Rattle.e820_model.specs.Claims.{EntriesFit};
ghost use Rattle.e820_table.specs.Made.{generated_entries, generated_entry, next_generator_state};

use crate::made_input::Made;
use crate::zero_page::{ZERO_PAGE_ENTRIES, ZeroPage};
use arrayvec::ArrayVec;
use bm_base::{FRAME_SIZE, Memory};
use e820_model::{E820_TYPE_RAM, E820_TYPE_RESERVED, Entry};
use std::alloc::Global;

/// The first entry of every generated table: RAM below 640 KiB.
const LOW_RAM: Entry = Entry {
    addr: 0,
    size: 0xA0000,
    kind: E820_TYPE_RAM,
};

/// The second entry of every generated table: 128 MiB of RAM from 1 MiB on.
const HIGH_RAM: Entry = Entry {
    addr: 0x100000,
    size: 0x8000000,
    kind: E820_TYPE_RAM,
};

/// Generates a table of `n` entries for tests; `n` is from 2 to 3,000. The first 128 entries are in
/// the zero page, the others in the extension. There is no initrd. The same `n` always gives the
/// same table.
///
/// # Errors
///
/// - `Memory`: the program ran out of memory. Only the extension allocates, so `n` is above 128.
pub fn made(alloc: Global, n: u32) -> Result<Made, Memory>
    requires some { 2 ≤ n }
    requires few { n ≤ 3000 }
    ensures page { IfOk result (λ made. made.zero.entries.items ≡ take 128 (generated_entries n)) }
    ensures extension { IfOk result (λ made. made.ext.items ≡ drop 128 (generated_entries n)) }
    ensures initrd { IfOk result (λ made. made.zero.initrd ≡ None) }
    ensures page_space { IfOk result (λ made. EntriesFit made.zero.entries.items) }
    ensures extension_space { IfOk result (λ made. EntriesFit made.ext.items) }
    ensures some { IsErr result → 128 < n }
{
    let mut page = ArrayVec::new();
    page.push(LOW_RAM);
    page.push(HIGH_RAM);
    let mut ext = Vec::new(alloc);
    let mut base = HIGH_RAM.addr + HIGH_RAM.size;
    let mut number = n;
    for index in 2..n {
        number = next_generator_state(number);
        let entry = generated_entry(index, base, number);
        put_entry(entry, &mut page, &mut ext)?;
        base += entry.size;
    }
    Ok(Made {
        zero: ZeroPage {
            entries: page,
            initrd: None,
        },
        ext,
    })
}

/// Appends `entry` to the zero page if that has fewer than 128 entries, else to the extension.
///
/// # Errors
///
/// - `Memory`: the zero page is full, and the program ran out of memory for the extension.
fn put_entry(
    entry: Entry,
    page: &mut ArrayVec<Entry, ZERO_PAGE_ENTRIES>,
    ext: &mut Vec<Entry>,
) -> Result<(), Memory>
    ensures full { OnOk result (128 ≤ length page.old.items →
        (page.new.items ≡ page.old.items) × (ext.new.items ≡ ext.old.items ++ entry ∷ [])) }
    ensures room { OnOk result (length page.old.items < 128 →
        (page.new.items ≡ page.old.items ++ entry ∷ []) × (ext.new.items ≡ ext.old.items)) }
    ensures one { OnOk result (length page.new.items ≤ length page.old.items + 1) }
    ensures some { IsErr result → 128 ≤ length page.old.items }
{
    if page.len() < ZERO_PAGE_ENTRIES {
        page.push(entry);
    } else {
        ext.push(entry)?;
    }
    Ok(())
}

/// Returns the entry with the index `index` (2 or above) of a generated table. It begins at address
/// `base`. The pseudo-random `number` determines its size, from 1 to 16 frames. Entries with an
/// even index are reserved, those with an odd one are RAM.
fn generated_entry(index: u32, base: u64, number: u32) -> Entry
    ensures { result ≡ generated_entry index base number }
{
    Entry {
        addr: base,
        size: FRAME_SIZE * (1 + u64::from(number) / 65536 % 16),
        kind: if index % 2 == 0 {
            E820_TYPE_RESERVED
        } else {
            E820_TYPE_RAM
        },
    }
}

/// Returns the pseudo-random number after `number`, by the linear congruential generator of the
/// example of `rand` in ISO C.
fn next_generator_state(number: u32) -> u32
    ensures { result ≡ next_generator_state number }
{
    ((1_103_515_245 * u64::from(number) + 12_345) % (1 << 31)) as u32
}
