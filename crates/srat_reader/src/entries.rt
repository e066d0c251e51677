//! Reads one entry: whether it is whole, its length, and its content. The search for faults and
//! the reading of the lists share this code.
ghost use Rattle.std.specs.Prelude.{◌≡◌, ℕ, ◌+◌, ◌<◌, ◌≤◌, length, IsTrue};
ghost use Rattle.srat_reader.specs.Entries.{entry_length_at, fits_entry_type, is_whole_entry, is_block_too_far, has_enabled_flag, local_apic_domain, memory_domain, srat_entry_at};

use byteorder::{ByteOrder, LittleEndian};

/// The type of an entry for a processor's local APIC (`ACPI_SRAT_TYPE_CPU_AFFINITY`).
const LOCAL_APIC: u8 = 0;

/// The type of an entry for a range of memory (`ACPI_SRAT_TYPE_MEMORY_AFFINITY`).
const MEMORY: u8 = 1;

/// The type of an entry for a processor's local x2APIC (`ACPI_SRAT_TYPE_X2APIC_CPU_AFFINITY`).
const LOCAL_X2APIC: u8 = 2;

/// The offset of the table's revision, in bytes.
const REVISION_OFFSET: usize = 8;

/// The bit that is set in the flags of an enabled entry (`ACPI_SRAT_CPU_ENABLED`,
/// `ACPI_SRAT_MEM_ENABLED`).
const ENABLED: u32 = 1;

/// What one entry of the SRAT says.
#[derive(Clone, Copy, Debug, PartialEq, Eq)]
pub enum SratEntry {
    /// The entry has no effect: its type isn't 0, 1 or 2, or it isn't enabled.
    Nothing,
    /// A processor, and the proximity domain that it belongs to.
    Processor { domain: u32 },
    /// The `size` bytes of memory from address `base` on, and the proximity domain that they belong
    /// to. The sum of `base` and `size` may exceed 2^64 - 1.
    Block { domain: u32, base: u64, size: u64 },
}

/// Tests whether `said`, the content of an entry, is a range of memory whose base plus size
/// exceeds 2^64 - 1.
pub fn is_block_too_far(said: SratEntry) -> bool
    ensures { result ≡ is_block_too_far said }
{
    match said {
        SratEntry::Block { base, size, .. } => base.checked_add(size).is_none(),
        _ => false,
    }
}

/// Tests whether a whole entry begins at offset `at` of the table. Its first two bytes, the type
/// and the length, must lie in the table. The length must be at least 2, and the entry must not
/// pass the end of the table. An entry of type 0, 1 or 2 must have 16, 40 or 24 bytes.
#[tactic(auto, unfolding(crate::specs::Entries::is_whole_entry))]
pub fn is_whole_entry(bytes: &[u8], at: usize) -> bool
    requires { at < length bytes.now }
    ensures { result ≡ is_whole_entry at bytes.now }
{
    let left = bytes.len() - at;
    if left < 2 {
        return false;
    }
    let length = entry_length_at(bytes, at);
    length >= 2 && length <= left && fits_entry_type(bytes[at], length)
}

/// Returns the length in bytes that the entry at offset `at` states in its second byte.
pub fn entry_length_at(bytes: &[u8], at: usize) -> usize
    requires { at + 1 < length bytes.now }
    ensures { result ≡ entry_length_at at bytes.now }
{
    usize::from(bytes[at + 1])
}

/// Tests whether `length` is the length of entries of this type: 16, 40 or 24 bytes for types 0, 1
/// and 2. Other types may have any length.
fn fits_entry_type(kind: u8, length: usize) -> bool
    ensures { result ≡ fits_entry_type kind length }
{
    match kind {
        LOCAL_APIC => length == 16,
        MEMORY => length == 40,
        LOCAL_X2APIC => length == 24,
        _ => true,
    }
}

/// Returns what the entry at offset `at` says. The entry must be whole (`is_whole_entry`).
#[tactic(auto, unfolding(crate::specs::Entries::is_whole_entry, crate::specs::Entries::srat_entry_at))]
pub fn srat_entry_at(bytes: &[u8], at: usize) -> SratEntry
    requires header { 48 ≤ length bytes.now }
    requires whole { IsTrue (is_whole_entry at bytes.now) }
    ensures { result ≡ srat_entry_at at bytes.now }
{
    match bytes[at] {
        LOCAL_APIC if has_enabled_flag(bytes, at + 4) => SratEntry::Processor {
            domain: local_apic_domain(bytes, at),
        },
        MEMORY if has_enabled_flag(bytes, at + 28) => SratEntry::Block {
            domain: memory_domain(bytes, at),
            base: LittleEndian::read_u64(&bytes[at + 8..]),
            size: LittleEndian::read_u64(&bytes[at + 16..]),
        },
        LOCAL_X2APIC if has_enabled_flag(bytes, at + 12) => SratEntry::Processor {
            domain: LittleEndian::read_u32(&bytes[at + 4..]),
        },
        _ => SratEntry::Nothing,
    }
}

/// Tests whether the enabled bit, bit 0, is set in the flags (u32) at this offset.
fn has_enabled_flag(bytes: &[u8], offset: usize) -> bool
    requires { offset + 4 ≤ length bytes.now }
    ensures { result ≡ has_enabled_flag offset bytes.now }
{
    LittleEndian::read_u32(&bytes[offset..]) & ENABLED != 0
}

/// Returns the proximity domain of the local APIC entry at offset `at`. It has 8 bits if the
/// table's revision is below 2, else 32.
#[tactic(auto, unfolding(crate::specs::Entries::local_apic_domain))]
fn local_apic_domain(bytes: &[u8], at: usize) -> u32
    requires header { 48 ≤ length bytes.now }
    requires whole { at + 16 ≤ length bytes.now }
    ensures { result ≡ local_apic_domain at bytes.now }
{
    if bytes[REVISION_OFFSET] < 2 {
        return u32::from(bytes[at + 2]);
    }
    LittleEndian::read_u32(&[bytes[at + 2], bytes[at + 9], bytes[at + 10], bytes[at + 11]])
}

/// Returns the proximity domain of the memory entry at offset `at`. It has 8 bits if the table's
/// revision is below 2, else 32.
#[tactic(auto, unfolding(crate::specs::Entries::memory_domain))]
fn memory_domain(bytes: &[u8], at: usize) -> u32
    requires header { 48 ≤ length bytes.now }
    requires whole { at + 40 ≤ length bytes.now }
    ensures { result ≡ memory_domain at bytes.now }
{
    if bytes[REVISION_OFFSET] < 2 {
        return u32::from(bytes[at + 2]);
    }
    LittleEndian::read_u32(&bytes[at + 2..])
}
