//! Reads single entries. The zero page and the extension use the same 20 bytes for an entry, so
//! both readers use this file.

ghost use Rattle.std.specs.Prelude.{◌≡◌, ℕ, ◌+◌, ◌*◌, ◌≤◌, length};
ghost use Rattle.e820_table.specs.Entries.{entry_at, nth_entry, first_far_entry};

use byteorder::{ByteOrder, LittleEndian};
use e820_model::Entry;

/// The size of an entry of the E820 table, in bytes (`struct boot_e820_entry`).
pub const ENTRY_BYTES: usize = 20;

/// Returns the entry whose 20 bytes begin at `offset`. The numbers are little-endian.
#[tactic(auto, unfolding(crate::specs::Entries::entry_at))]
fn entry_at(bytes: &[u8], offset: usize) -> Entry
    requires { offset + 20 ≤ length bytes.now }
    ensures { result ≡ entry_at offset bytes.now }
{
    Entry {
        addr: LittleEndian::read_u64(&bytes[offset..]),
        size: LittleEndian::read_u64(&bytes[offset + 8..]),
        kind: LittleEndian::read_u32(&bytes[offset + 16..]),
    }
}

/// Returns the entry with the index `index`, counted from 0, of the table that begins at byte
/// `start`. Each entry has 20 bytes.
pub fn nth_entry(bytes: &[u8], start: usize, index: usize) -> Entry
    requires { start + 20 * index + 20 ≤ length bytes.now }
    ensures { result ≡ nth_entry start index bytes.now }
{
    entry_at(bytes, start + ENTRY_BYTES * index)
}

/// Returns the least index of an entry whose address plus size exceeds 2^64 - 1, among the first
/// `count` entries of the table that begins at byte `start`. Returns `None` if there is no such
/// entry.
pub fn first_far_entry(bytes: &[u8], start: usize, count: u32) -> Option<u32>
    requires { start + 20 * count ≤ length bytes.now }
    ensures { result ≡ first_far_entry start count bytes.now }
{
    for index in 0..count {
        let entry = nth_entry(bytes, start, index as usize);
        if entry.addr.checked_add(entry.size).is_none() {
            return Some(index);
        }
    }
    None
}
