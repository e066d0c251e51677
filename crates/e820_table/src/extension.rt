//! Reads the E820 extension: the entries that don't fit into the zero page (`SETUP_E820_EXT`).
//! Only the length of the file limits their number, so reading them allocates memory.

ghost use Rattle.std.specs.Prelude.{◌≡◌, ◌≢◌, ℕ, ◌+◌, ◌*◌, ◌<◌, ◌≤◌, length, IfOk, IfErr, IfSome, IsErr, OnOk, SomeIff, IsTrue};
ghost use Rattle.e820_model.specs.Claims.{EntriesFit};
ghost use Rattle.e820_table.specs.Entries.{first_entries};
ghost use Rattle.e820_table.specs.Extension.{ext_count, ext_entries_of, ext_fault, has_ext_header, has_ext_length};

use crate::entries::{first_far_entry, nth_entry};
use bm_base::Memory;
use byteorder::{ByteOrder, LittleEndian};
use e820_model::Entry;
use std::alloc::Global;

/// The number of bytes of an extension before its first entry (`struct setup_data`).
const HEADER_BYTES: usize = 16;

/// The number in the header that makes a `struct setup_data` an E820 extension (`SETUP_E820_EXT`).
const EXTENSION_TYPE: u32 = 1;

/// The reason why bytes are not an E820 extension. If several reasons apply, the reader reports
/// `ExtHeader` before `ExtLength`, and `ExtLength` before `EntryTooFar`.
#[derive(Clone, Copy, Debug, PartialEq, Eq)]
pub enum ExtFault {
    /// The address plus size of the entry with this index exceeds 2^64 - 1. Of several such
    /// entries it is the one with the least index, counted from 0.
    EntryTooFar { index: u32 },
    /// There are fewer than 16 bytes, or the type isn't 1 (`SETUP_E820_EXT`).
    ExtHeader,
    /// The length in the header isn't the number of bytes after the header, or isn't a multiple of
    /// 20.
    ExtLength,
    /// The program ran out of memory. This is returned only if the bytes have no other fault and
    /// at least one entry.
    Memory,
}

impl From<Memory> for ExtFault {
    ghost use Rattle.e820_table.specs.declared.extension.ExtFault.TheVariants as faults;

    ghost from_gives = { λ _ fault. fault ≡ faults.Memory };

    fn from(_error: Memory) -> ExtFault {
        ExtFault::Memory
    }
}

/// Reads an E820 extension: a `struct setup_data` whose data are entries.
///
/// The address of the next node, at offset 0, is ignored. The type is at offset 8, the length of
/// the data at 12, and the entries begin at 16. An extension without entries is accepted.
///
/// # Errors
///
/// The first of these that applies:
///
/// - `ExtHeader`: there are fewer than 16 bytes, or the type isn't 1.
/// - `ExtLength`: the length in the header isn't the number of bytes after it, or isn't a multiple
///   of 20.
/// - `EntryTooFar`: the address plus size of an entry exceeds 2^64 - 1.
/// - `Memory`: the program ran out of memory. There is at least one entry.
pub fn read_ext(alloc: Global, bytes: &[u8]) -> Result<Vec<Entry>, ExtFault>
    ensures fault { IfErr result (λ fault. fault ≢ ExtFault.Memory
        → ext_fault bytes.now ≡ Some fault) }
    ensures well_formed { OnOk result (ext_fault bytes.now ≡ None) }
    ensures memory { IfErr result (λ fault. fault ≡ ExtFault.Memory → ext_fault bytes.now ≡ None) }
    ensures some { IfErr result (λ fault. fault ≡ ExtFault.Memory
        → 0 < length (ext_entries_of bytes.now)) }
    ensures value { IfOk result (λ entries. entries.items ≡ ext_entries_of bytes.now) }
    ensures space { IfOk result (λ entries. EntriesFit entries.items) }
{
    if !has_ext_header(bytes) {
        return Err(ExtFault::ExtHeader);
    }
    let count = stated_entries(bytes).ok_or(ExtFault::ExtLength)?;
    if let Some(index) = first_far_entry(bytes, HEADER_BYTES, count) {
        return Err(ExtFault::EntryTooFar { index });
    }
    Ok(read_ext_entries(alloc, bytes, count)?)
}

/// Tests whether there are at least 16 bytes, and the type at offset 8 is 1 (`SETUP_E820_EXT`).
fn has_ext_header(bytes: &[u8]) -> bool
    ensures { result ≡ has_ext_header bytes.now }
{
    bytes.len() >= HEADER_BYTES && LittleEndian::read_u32(&bytes[8..]) == EXTENSION_TYPE
}

/// Returns the number of entries after the header. Returns `None` if the length in the header isn't
/// the number of bytes after it, or isn't a multiple of 20. The header must have 16 bytes and the
/// type of an extension.
fn stated_entries(bytes: &[u8]) -> Option<u32>
    requires { IsTrue (has_ext_header bytes.now) }
    ensures count { SomeIff result (IsTrue (has_ext_length bytes.now)) (ext_count bytes.now) }
    ensures whole { IfSome result (λ count. 16 + 20 * count ≤ length bytes.now) }
{
    let data = bytes.len() - HEADER_BYTES;
    let stated = LittleEndian::read_u32(&bytes[12..]);
    if stated as usize != data || stated % 20 != 0 {
        return None;
    }
    Some(stated / 20)
}

/// Returns the first `count` entries of the extension, in their order. The bytes must have that
/// many.
///
/// # Errors
///
/// - `Memory`: the program ran out of memory; `count` is above 0.
fn read_ext_entries(alloc: Global, bytes: &[u8], count: u32) -> Result<Vec<Entry>, Memory>
    requires { 16 + 20 * count ≤ length bytes.now }
    ensures entries { IfOk result (λ entries. entries.items ≡ first_entries 16 count bytes.now) }
    ensures some { IsErr result → 0 < count }
{
    let mut entries = Vec::new(alloc);
    for index in 0..count {
        entries.push(nth_entry(bytes, HEADER_BYTES, index as usize))?;
    }
    Ok(entries)
}
