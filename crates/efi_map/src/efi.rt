//! Reads the file of a saved map: its header, its length, and the descriptors.

ghost use Rattle.std.specs.Prelude.{◌≡◌, ◌≢◌, ℕ, ◌+◌, ◌*◌, ◌<◌, ◌≤◌, ◌^◌, length, map, IfOk, IfSome, IsErr, IsErrOf, IsOk, IsTrue, SomeIff, None};
ghost use Rattle.bm_base.specs.Answers.{Answers};
ghost use Rattle.e820_model.specs.Claims.{EntriesFit};
ghost use Rattle.efi_map.specs.Descriptors.{entry_of_descriptor};
ghost use Rattle.efi_map.specs.Map.{descriptor_count, descriptors_from, descriptors_of, efi_of, far_descriptor_from, has_efi_header, has_efi_length, mirrors_of_descriptors, nth_descriptor, descriptor_size};

use crate::descriptor::{Descriptor, descriptor_at};
use bm_base::{Memory, Range};
use byteorder::{ByteOrder, LittleEndian};
use e820_model::Entry;
use std::alloc::Global;

/// The number of bytes of the file before the first descriptor.
const HEADER_BYTES: usize = 8;

/// The number of bytes that are read of a descriptor. A descriptor may be longer.
const LEAST_STRIDE: usize = 40;

/// The only version of descriptors that can be read.
const VERSION: u32 = 1;

/// The reason why bytes are not an EFI memory map. If several reasons apply, the reader reports the
/// one that is listed first here.
#[derive(Clone, Copy, Debug, PartialEq, Eq)]
pub enum EfiFault {
    /// There are fewer than 8 bytes; or the stated size of a descriptor is below 40 or isn't a
    /// multiple of 8; or the version isn't 1.
    Header,
    /// The bytes after the header aren't a whole number of descriptors.
    Length,
    /// The address plus the size of the descriptor with this index exceeds 2^64 - 1. Of several
    /// such descriptors it is the one with the least index, counted from 0.
    TooFar { index: u32 },
    /// The program ran out of memory. This is returned only if the bytes have no other fault and
    /// at least one descriptor.
    Memory,
}

impl From<Memory> for EfiFault {
    ghost use Rattle.efi_map.specs.declared.efi.EfiFault.TheVariants as faults;

    ghost from_gives = { λ _ fault. fault ≡ faults.Memory };

    fn from(_error: Memory) -> EfiFault {
        EfiFault::Memory
    }
}

/// What the kernel makes of the firmware's map. Each list is in the order of the descriptors.
#[derive(Debug, Drop)]
pub struct EfiMap {
    /// One entry for each descriptor. Its address plus size is below 2^64.
    pub entries: Vec<Entry>,
    /// The whole frames of each descriptor whose memory the machine mirrors. None of these ranges
    /// is empty.
    pub mirrors: Vec<Range>,
}

/// Reads a saved EFI memory map. The size of a descriptor in bytes (u32) is at offset 0, the
/// version of descriptors (u32) at 4, and the descriptors begin at 8. There must be fewer than
/// 2^32 bytes.
///
/// # Errors
///
/// The first of these that applies:
///
/// - `Header`: there are fewer than 8 bytes, or the size of a descriptor is below 40 or isn't a
///   multiple of 8, or the version isn't 1.
/// - `Length`: the bytes after the header aren't a whole number of descriptors.
/// - `TooFar`: the address plus the size of a descriptor exceeds 2^64 - 1.
/// - `Memory`: the program ran out of memory. There is at least one descriptor.
pub fn read_efi(alloc: Global, bytes: &[u8]) -> Result<EfiMap, EfiFault>
    requires { length bytes.now < 2 ^ 32 }
    ensures answers { Answers EfiFault.Memory (λ efi.
        record { entries = efi.entries.items; mirrors = efi.mirrors.items }) result
        (efi_of bytes.now) }
    ensures memory { IsErrOf result EfiFault.Memory → IsOk (efi_of bytes.now) }
    ensures some { IsErrOf result EfiFault.Memory → 0 < length (descriptors_of bytes.now) }
    ensures space { IfOk result (λ efi. EntriesFit efi.entries.items) }
{
    if !has_efi_header(bytes) {
        return Err(EfiFault::Header);
    }
    let stride = LittleEndian::read_u32(bytes);
    let count = count_descriptors(bytes, stride).ok_or(EfiFault::Length)?;
    if let Some(index) = find_far_descriptor(bytes, stride, count) {
        return Err(EfiFault::TooFar { index });
    }
    Ok(read_descriptors(alloc, bytes, stride, count)?)
}

/// Tests whether there are at least 8 bytes, the size of a descriptor is at least 40 and a multiple
/// of 8, and the version is 1.
fn has_efi_header(bytes: &[u8]) -> bool
    ensures { result ≡ has_efi_header bytes.now }
{
    if bytes.len() < HEADER_BYTES {
        return false;
    }
    let stride = LittleEndian::read_u32(bytes);
    stride as usize >= LEAST_STRIDE
        && stride % 8 == 0
        && LittleEndian::read_u32(&bytes[4..]) == VERSION
}

/// Returns the number of descriptors of `stride` bytes after the header, or `None` if the bytes
/// after the header aren't a whole number of them.
fn count_descriptors(bytes: &[u8], stride: u32) -> Option<u32>
    requires header { 8 ≤ length bytes.now }
    requires few { length bytes.now < 2 ^ 32 }
    requires stride { stride ≡ descriptor_size bytes.now }
    requires some { 0 < stride }
    ensures count { SomeIff result (IsTrue (has_efi_length bytes.now))
        (descriptor_count bytes.now) }
    ensures whole { IfSome result (λ count. 8 + stride * count ≤ length bytes.now) }
{
    let data = (bytes.len() - HEADER_BYTES) as u32;
    if data % stride != 0 {
        return None;
    }
    Some(data / stride)
}

/// Returns the descriptor with this index, counted from 0. `stride` is the size of a descriptor in
/// bytes.
fn nth_descriptor(bytes: &[u8], stride: u32, index: u32) -> Descriptor
    requires stride { 40 ≤ stride }
    requires whole { 8 + stride * index + stride ≤ length bytes.now }
    ensures { result ≡ nth_descriptor stride index bytes.now }
{
    descriptor_at(bytes, HEADER_BYTES + stride as usize * index as usize)
}

/// Returns the least index of a descriptor whose address plus size exceeds 2^64 - 1, among the
/// first `count` descriptors of `stride` bytes each. Returns `None` if there is no such descriptor.
fn find_far_descriptor(bytes: &[u8], stride: u32, count: u32) -> Option<u32>
    requires stride { 40 ≤ stride }
    requires whole { 8 + stride * count ≤ length bytes.now }
    ensures { result ≡ far_descriptor_from 0 (descriptors_from stride 0 count bytes.now) }
{
    for index in 0..count {
        if nth_descriptor(bytes, stride, index).range().is_none() {
            return Some(index);
        }
    }
    None
}

/// Returns the entries and the mirrored ranges of the first `count` descriptors, which have
/// `stride` bytes each. The address plus size of each descriptor must be below 2^64.
///
/// # Errors
///
/// - `Memory`: the program ran out of memory; `count` is above 0.
fn read_descriptors(alloc: Global, bytes: &[u8], stride: u32, count: u32) -> Result<EfiMap, Memory>
    requires stride { 40 ≤ stride }
    requires whole { 8 + stride * count ≤ length bytes.now }
    requires near { far_descriptor_from 0 (descriptors_from stride 0 count bytes.now) ≡ None }
    ensures entries { IfOk result (λ efi.
        efi.entries.items ≡ map entry_of_descriptor (descriptors_from stride 0 count bytes.now)) }
    ensures mirrors { IfOk result (λ efi.
        efi.mirrors.items ≡ mirrors_of_descriptors (descriptors_from stride 0 count bytes.now)) }
    ensures some { IsErr result → 0 < count }
{
    let mut entries = Vec::new(alloc);
    let mut mirrors = Vec::new(alloc);
    for index in 0..count {
        let descriptor = nth_descriptor(bytes, stride, index);
        entries.push(descriptor.entry())?;
        if let Some(range) = descriptor.mirror_of_descriptor() {
            mirrors.push(range)?;
        }
    }
    Ok(EfiMap { entries, mirrors })
}
