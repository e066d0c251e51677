//! Reads the whole table: its header, the entries one after another, the first fault, and the two
//! lists.
ghost use Rattle.std.specs.Prelude.{◌≡◌, ◌≢◌, ℕ, None, Some, ◌^◌, ◌<◌, ◌≤◌, ◌%◌, ◌++◌, ◌⊎◌, length, sum, IfOk, IfErr, IfNone, IsErr, IsSome, OnOk, false};
ghost use Rattle.std.specs.Option.{option_to_list};
ghost use Rattle.srat_reader.specs.Entries.{is_block_too_far};
ghost use Rattle.bm_base.specs.Answers.{Answers};
ghost use Rattle.srat_reader.specs.Table.{srat_view, srat_of, srat_header_fault, entry_offsets, first_srat_fault, srat_fault, processor_of, srat_block_of, processors_of, srat_blocks_of};

use crate::entries::{SratEntry, entry_length_at, is_block_too_far, is_whole_entry, srat_entry_at};
use bm_base::{Memory, Range};
use byteorder::{ByteOrder, LittleEndian};
use std::alloc::Global;

/// The number of bytes of the SRAT before its first entry.
const HEADER_BYTES: usize = 48;

/// The offset of the SRAT's length (u32) in its header.
const LENGTH_OFFSET: usize = 4;

/// A range of memory and its proximity domain.
#[derive(Clone, Copy, Debug, PartialEq, Eq)]
pub struct SratBlock {
    /// The proximity domain, as the firmware numbers it.
    pub domain: u32,
    /// The addresses of the range, which may be empty.
    pub range: Range,
}

/// What the enabled entries of an SRAT say. Each list is in the order of the table.
#[derive(Debug, Drop)]
pub struct Srat {
    /// The proximity domain of each processor.
    pub cpus: Vec<u32>,
    /// The ranges of memory with their proximity domains.
    pub blocks: Vec<SratBlock>,
}

/// The reason why bytes are not an SRAT. The first four faults are tested in this order, then the
/// entries by ascending offset. The reader reports the first fault that it finds.
#[derive(Clone, Copy, Debug, PartialEq, Eq)]
pub enum SratFault {
    /// There are fewer than 48 bytes.
    Short,
    /// The first four bytes aren't `SRAT`.
    Signature,
    /// The stated length isn't the number of bytes.
    Length,
    /// The sum of the bytes isn't 0 modulo 256.
    Checksum,
    /// There is no whole entry at this offset. Only one byte is left there; or the entry's length
    /// is below 2 or passes the end of the table; or the entry is of type 0, 1 or 2, and its length
    /// isn't 16, 40 or 24 bytes, in this order.
    EntryLength { offset: u32 },
    /// The entry at this offset is an enabled range of memory whose base plus size exceeds
    /// 2^64 - 1.
    BlockTooFar { offset: u32 },
    /// The program ran out of memory. This is returned only if the bytes have no other fault and
    /// an enabled entry of a processor or of memory.
    Memory,
}

impl From<Memory> for SratFault {
    ghost use Rattle.srat_reader.specs.declared.table.SratFault.TheVariants as faults;

    ghost from_gives = { λ _ fault. fault ≡ faults.Memory };

    fn from(_error: Memory) -> SratFault {
        SratFault::Memory
    }
}

/// Reads an SRAT of any revision: the proximity domains of the processors and the ranges of memory
/// in its enabled entries. Ranges of size 0 are included.
///
/// # Errors
///
/// The first of these that applies:
///
/// - `Short`: there are fewer than 48 bytes.
/// - `Signature`: the first four bytes aren't `SRAT`.
/// - `Length`: the stated length isn't the number of bytes.
/// - `Checksum`: the sum of the bytes isn't 0 modulo 256.
/// - `EntryLength`, `BlockTooFar`: the first entry with a fault isn't whole, or is an enabled range
///   of memory whose base plus size exceeds 2^64 - 1.
/// - `Memory`: the program ran out of memory.
pub fn read_srat(alloc: Global, bytes: &[u8]) -> Result<Srat, SratFault>
    ensures answers { Answers SratFault.Memory srat_view result (srat_of bytes.now) }
    ensures memory { IfErr result (λ fault. fault ≡ SratFault.Memory
        → srat_fault bytes.now ≡ None) }
    ensures some { IfErr result (λ fault. fault ≡ SratFault.Memory →
        (0 < length (processors_of bytes.now)) ⊎ (0 < length (srat_blocks_of bytes.now))) }
    ensures few_processors { IfOk result (λ srat. length srat.cpus.items < 2 ^ 32) }
    ensures few_blocks { IfOk result (λ srat. length srat.blocks.items < 2 ^ 32) }
{
    if let Some(fault) = srat_header_fault(bytes) {
        return Err(fault);
    }
    if let Some(fault) = find_entry_fault(bytes) {
        return Err(fault);
    }
    Ok(read_srat_entries(alloc, bytes)?)
}

/// Returns the first fault of the header, or `None` if there is none. The tests are, in this order:
/// at least 48 bytes, the signature, the stated length, the checksum.
fn srat_header_fault(bytes: &[u8]) -> Option<SratFault>
    ensures value { result ≡ srat_header_fault bytes.now }
    ensures few { IfNone result (length bytes.now < 2 ^ 32) }
{
    if bytes.len() < HEADER_BYTES {
        return Some(SratFault::Short);
    }
    if !bytes.starts_with(b"SRAT") {
        return Some(SratFault::Signature);
    }
    if LittleEndian::read_u32(&bytes[LENGTH_OFFSET..]) as usize != bytes.len() {
        return Some(SratFault::Length);
    }
    if checksum(bytes) != 0 {
        return Some(SratFault::Checksum);
    }
    None
}

/// Returns the sum of the bytes modulo 256.
fn checksum(bytes: &[u8]) -> u8
    ensures { result ≡ sum bytes.now % 256 }
{
    let mut total: u8 = 0;
    for byte in bytes {
        total = total.wrapping_add(*byte);
    }
    total
}

/// Returns the fault of the first entry that has one, or `None` if no entry has a fault. There must
/// be fewer than 2^32 bytes; the SRAT's length, a u32, ensures that.
fn find_entry_fault(bytes: &[u8]) -> Option<SratFault>
    requires { length bytes.now < 2 ^ 32 }
    ensures { result ≡ first_srat_fault bytes.now (entry_offsets bytes.now) }
{
    let mut at = HEADER_BYTES;
    while at < bytes.len() {
        let offset = at as u32;
        if !is_whole_entry(bytes, at) {
            return Some(SratFault::EntryLength { offset });
        }
        if is_block_too_far(srat_entry_at(bytes, at)) {
            return Some(SratFault::BlockTooFar { offset });
        }
        at += entry_length_at(bytes, at);
    }
    None
}

/// Returns what the enabled entries say. No entry may have a fault.
///
/// # Errors
///
/// - `Memory`: the program ran out of memory; the table has an enabled entry of a processor or of
///   memory.
fn read_srat_entries(alloc: Global, bytes: &[u8]) -> Result<Srat, Memory>
    requires { first_srat_fault bytes.now (entry_offsets bytes.now) ≡ None }
    ensures processors { IfOk result (λ srat. srat.cpus.items ≡ processors_of bytes.now) }
    ensures blocks { IfOk result (λ srat. srat.blocks.items ≡ srat_blocks_of bytes.now) }
    ensures some { IsErr result → (0 < length (processors_of bytes.now))
        ⊎ (0 < length (srat_blocks_of bytes.now)) }
{
    let mut srat = Srat {
        cpus: Vec::new(alloc),
        blocks: Vec::new(alloc),
    };
    let mut at = HEADER_BYTES;
    while at < bytes.len() {
        append_srat_entry(&mut srat, srat_entry_at(bytes, at))?;
        at += entry_length_at(bytes, at);
    }
    Ok(srat)
}

/// Appends what an entry says (`said`) to its list: a processor to `cpus`, a range of memory to
/// `blocks`, an entry without effect to neither. A range's base plus size must be at most 2^64 - 1.
///
/// # Errors
///
/// - `Memory`: the program ran out of memory; the entry is a processor or a range of memory.
fn append_srat_entry(srat: &mut Srat, said: SratEntry) -> Result<(), Memory>
    requires { is_block_too_far said ≡ false }
    ensures processors { OnOk result (srat.new.cpus.items
        ≡ srat.old.cpus.items ++ option_to_list (processor_of said)) }
    ensures blocks { OnOk result (srat.new.blocks.items
        ≡ srat.old.blocks.items ++ option_to_list (srat_block_of said)) }
    ensures some { IsErr result → IsSome (processor_of said) ⊎ IsSome (srat_block_of said) }
{
    match said {
        SratEntry::Nothing => {}
        SratEntry::Processor { domain } => srat.cpus.push(domain)?,
        SratEntry::Block { domain, base, size } => {
            let range = Range { base, size };
            srat.blocks.push(SratBlock { domain, range })?;
        }
    }
    Ok(())
}
