//! Reads the zero page, the boot loader's page of parameters: its table of entries, and the range
//! of the initrd. The page has room for 128 entries, which an array holds, so reading it allocates
//! nothing.

ghost use Rattle.std.specs.Prelude.{◌≡◌, ℕ, ◌+◌, ◌*◌, ◌≤◌, length, IfOk, IfErr, IfSome, OnOk};
ghost use Rattle.e820_model.specs.Claims.{EntriesFit};
ghost use Rattle.e820_table.specs.Entries.{first_entries};
ghost use Rattle.e820_table.specs.Initrd.{initrd_of, IsInitrd};
ghost use Rattle.e820_table.specs.ZeroPage.{zero_page_entries, zero_fault};

use crate::entries::{first_far_entry, nth_entry};
use crate::initrd::read_initrd;
use arrayvec::ArrayVec;
use bm_base::Range;
use e820_model::Entry;

/// The largest number of entries in a zero page (`E820_MAX_ENTRIES_ZEROPAGE`).
pub const ZERO_PAGE_ENTRIES: usize = 128;

/// The number of bytes of a zero page.
const ZERO_PAGE_BYTES: usize = 4096;

/// The offset in the zero page of the number of its entries, a byte (`e820_entries`).
const COUNT_OFFSET: usize = 0x1E8;

/// The offset in the zero page of the first entry (`e820_table`).
const TABLE_OFFSET: usize = 0x2D0;

/// The information about memory that a zero page contains.
#[derive(Drop)]
pub struct ZeroPage {
    /// The firmware's entries, in the order of the table.
    pub entries: ArrayVec<Entry, ZERO_PAGE_ENTRIES>,
    /// The range of the initrd, if there is one: from its first byte to the end of the frame that
    /// has its last byte.
    pub initrd: Option<Range>,
}

/// The reason why bytes are not a zero page. If several reasons apply, the reader reports the one
/// that is listed first here.
#[derive(Clone, Copy, Debug, PartialEq, Eq)]
pub enum ZeroFault {
    /// There are fewer or more than 4,096 bytes.
    WrongLength,
    /// The table has fewer than 2 entries.
    TooFew,
    /// The table has more than 128 entries.
    TooMany,
    /// The address plus size of the entry with this index exceeds 2^64 - 1. Of several such
    /// entries it is the one with the least index, counted from 0.
    EntryTooFar { index: u32 },
    /// There is an initrd, and its address plus size exceeds 2^64 - 4,096.
    InitrdTooFar,
}

/// Reads a zero page (`struct boot_params`) without allocating memory.
///
/// The number of entries is at offset 0x1E8, and the entries begin at offset 0x2D0. The address and
/// the size of the initrd count only if the loader's type, the byte at offset 0x210, isn't 0.
///
/// # Errors
///
/// The first of these that applies:
///
/// - `WrongLength`: there aren't exactly 4,096 bytes.
/// - `TooFew`, `TooMany`: there are fewer than 2 entries, or more than 128.
/// - `EntryTooFar`: the address plus size of an entry exceeds 2^64 - 1.
/// - `InitrdTooFar`: there is an initrd, and its address plus size exceeds 2^64 - 4,096.
pub fn read_zero_page(bytes: &[u8]) -> Result<ZeroPage, ZeroFault>
    ensures fault { IfErr result (λ fault. zero_fault bytes.now ≡ Some fault) }
    ensures well_formed { OnOk result (zero_fault bytes.now ≡ None) }
    ensures value { IfOk result (λ page. page.entries.items ≡ zero_page_entries bytes.now) }
    ensures initrd { IfOk result (λ page. page.initrd ≡ initrd_of bytes.now) }
    ensures space { IfOk result (λ page. EntriesFit page.entries.items) }
    ensures frames { IfOk result (λ page. IfSome page.initrd IsInitrd) }
{
    if bytes.len() != ZERO_PAGE_BYTES {
        return Err(ZeroFault::WrongLength);
    }
    let count = u32::from(bytes[COUNT_OFFSET]);
    if count < 2 {
        return Err(ZeroFault::TooFew);
    }
    if count as usize > ZERO_PAGE_ENTRIES {
        return Err(ZeroFault::TooMany);
    }
    if let Some(index) = first_far_entry(bytes, TABLE_OFFSET, count) {
        return Err(ZeroFault::EntryTooFar { index });
    }
    let initrd = read_initrd(bytes)?;
    Ok(ZeroPage {
        entries: read_zero_page_entries(bytes, count),
        initrd,
    })
}

/// Returns the first `count` entries of the page, in their order. `count` must be at most 128.
fn read_zero_page_entries(bytes: &[u8], count: u32) -> ArrayVec<Entry, ZERO_PAGE_ENTRIES>
    requires room { count ≤ 128 }
    requires whole { 0x2D0 + 20 * count ≤ length bytes.now }
    ensures { result.items ≡ first_entries 0x2D0 count bytes.now }
{
    let mut entries = ArrayVec::new();
    for index in 0..count {
        entries.push(nth_entry(bytes, TABLE_OFFSET, index as usize));
    }
    entries
}
