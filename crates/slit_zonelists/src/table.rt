//! The bytes of a SLIT: its header, its first fault, and its cells.

ghost use Rattle.std.specs.Prelude.{◌≡◌, ◌-◌, ◌*◌, ◌%◌, ◌^◌, ◌<◌, ◌≤◌, None, drop, length, IfOk, IfErr, IfNone, IsErr};
ghost use Rattle.std.specs.List.{sum};
ghost use Rattle.bm_base.specs.Answers.{Answers};
ghost use Rattle.slit_zonelists.specs.SlitView.{slit_view, IsSquare};
ghost use Rattle.slit_zonelists.specs.Table.{locality_count, is_square_of, first_slit_fault, slit_of};

use bm_base::Memory;
use byteorder::{ByteOrder, LittleEndian};
use std::alloc::Global;

/// The number of bytes before the first cell.
const HEADER_BYTES: usize = 44;

/// The offset of the table's length, in bytes.
const LENGTH_OFFSET: usize = 4;

/// The offset of the number of localities, in bytes.
const LOCALITIES_OFFSET: usize = 36;

/// The distances between domains that the firmware gives. 10 is the distance of a domain to
/// itself, and 255 means that a domain can't be reached.
#[derive(Debug, Drop)]
pub struct Slit {
    /// The number of domains.
    pub count: u32,
    /// `count` rows of `count` cells: the distances from domain 0 to each, then those from domain
    /// 1, and so on.
    pub cells: Vec<u8>,
}

/// The reasons why bytes aren't a SLIT, in the order in which they are checked.
#[derive(Clone, Copy, Debug, PartialEq, Eq)]
pub enum SlitFault {
    /// There are fewer than 44 bytes.
    Short,
    /// The first four bytes aren't `SLIT`.
    Signature,
    /// The stated length isn't the number of bytes.
    Length,
    /// The bytes don't sum to 0 modulo 256.
    Checksum,
    /// The square of the stated number of localities isn't the number of bytes from offset 44 on.
    Localities,
    /// This program is out of memory. It is returned only if the bytes have none of the other
    /// faults.
    Memory,
}

impl From<Memory> for SlitFault {
    ghost use Rattle.std.specs.Prelude.{◌≡◌};
    ghost use Rattle.slit_zonelists.specs.declared.table.SlitFault.TheVariants as faults;

    ghost from_gives = { λ _ fault. fault ≡ faults.Memory };

    fn from(_memory: Memory) -> SlitFault {
        SlitFault::Memory
    }
}

/// Reads a SLIT. Accepts any distances: whether they are used is decided elsewhere ([`SlitUse`]).
///
/// # Errors
///
/// The first fault of the bytes, or `Memory` if the program is out of memory. `Memory` is returned
/// only if the bytes have no fault and state at least one locality.
pub fn read_slit(alloc: Global, bytes: &[u8]) -> Result<Slit, SlitFault>
    ensures answers { Answers SlitFault.Memory slit_view result (slit_of bytes.now) }
    ensures memory { IfErr result (λ fault. fault ≡ SlitFault.Memory
        → first_slit_fault bytes.now ≡ None) }
    ensures some { IfErr result (λ fault. fault ≡ SlitFault.Memory → 0 < locality_count bytes.now) }
    ensures square { IfOk result (λ slit. IsSquare (slit_view slit)) }
{
    if let Some(fault) = first_slit_fault(bytes) {
        return Err(fault);
    }
    Ok(read_cells(alloc, bytes)?)
}

/// Returns the matrix of a SLIT whose bytes have no fault.
///
/// # Errors
///
/// Out of memory, only if there is at least one locality.
fn read_cells(alloc: Global, bytes: &[u8]) -> Result<Slit, Memory>
    requires header { 44 ≤ length bytes.now }
    requires few { length bytes.now < 2 ^ 32 }
    requires square { locality_count bytes.now * locality_count bytes.now ≡ length bytes.now - 44 }
    ensures cells { IfOk result (λ slit.
        slit_view slit ≡ record { count = locality_count bytes.now; cells = drop 44 bytes.now }) }
    ensures square { IfOk result (λ slit. IsSquare (slit_view slit)) }
    ensures some { IsErr result → 0 < locality_count bytes.now }
{
    let count = locality_count(bytes);
    let cells = copy_bytes(alloc, &bytes[HEADER_BYTES..])?;
    Ok(Slit {
        count: count as u32,
        cells,
    })
}

/// Returns a copy of the bytes.
///
/// # Errors
///
/// Out of memory, only if there are bytes.
fn copy_bytes(alloc: Global, bytes: &[u8]) -> Result<Vec<u8>, Memory>
    ensures same { IfOk result (λ copy. copy.items ≡ bytes.now) }
    ensures memory { IsErr result → 0 < length bytes.now }
{
    if bytes.is_empty() {
        return Ok(Vec::new(alloc));
    }
    Ok(Vec::from_slice(alloc, bytes)?)
}

/// Returns the number of localities that the header states.
fn locality_count(bytes: &[u8]) -> u64
    requires { 44 ≤ length bytes.now }
    ensures { result ≡ locality_count bytes.now }
{
    LittleEndian::read_u64(&bytes[LOCALITIES_OFFSET..])
}

/// Returns the first fault of the bytes, in the order of [`SlitFault`], or `None` if they are a
/// SLIT. Allocates nothing.
fn first_slit_fault(bytes: &[u8]) -> Option<SlitFault>
    ensures value { result ≡ first_slit_fault bytes.now }
    ensures header { IfNone result (44 ≤ length bytes.now) }
    ensures few { IfNone result (length bytes.now < 2 ^ 32) }
    ensures square { IfNone result (locality_count bytes.now * locality_count bytes.now
        ≡ length bytes.now - 44) }
{
    if bytes.len() < HEADER_BYTES {
        return Some(SlitFault::Short);
    }
    if !bytes.starts_with(b"SLIT") {
        return Some(SlitFault::Signature);
    }
    if LittleEndian::read_u32(&bytes[LENGTH_OFFSET..]) as usize != bytes.len() {
        return Some(SlitFault::Length);
    }
    if checksum(bytes) != 0 {
        return Some(SlitFault::Checksum);
    }
    if !is_square_of(locality_count(bytes), (bytes.len() - HEADER_BYTES) as u64) {
        return Some(SlitFault::Localities);
    }
    None
}

/// Tests whether `cells` is the number of cells in `count` rows of `count` cells.
fn is_square_of(count: u64, cells: u64) -> bool
    ensures { result ≡ is_square_of count cells }
{
    count.checked_mul(count) == Some(cells)
}

/// Returns the sum of the bytes modulo 256.
fn checksum(bytes: &[u8]) -> u8
    ensures { result ≡ sum bytes.now % 256 }
{
    let mut total: u8 = 0;
    for byte in bytes {
        total = total.wrapping_add(*byte);
    }
    total
}
