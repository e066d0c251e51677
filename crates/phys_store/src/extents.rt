//! Reads and writes the extents of a store, without allocating. Each call finds the extent that has
//! the first address. Extents don't touch, so that extent has the whole of a prepared range, and no
//! call continues in another extent.
ghost use Rattle.std.specs.Prelude.{◌≡◌, MatchOption, Some, None, get_or, ℕ, ◌+◌, ◌-◌, ◌^◌, ◌<◌, ◌≤◌, ◌↔◌, true, ◌||◌, nat_le, min, max, map, length, slice_index, position, IsTrue};
ghost use Rattle.phys_store.specs.Bytes.{end_of_extent, is_in_extent, byte_of, ArePrepared, WritesBytes, bytes_at};
ghost use Rattle.phys_store.specs.Extents.{extent_view, nth_extent, AreSortedAndApart};

use bm_base::Range;

/// A run of consecutive prepared addresses, as long as possible, with the byte at each of them. An
/// address is prepared if `Store::prepare` has allocated memory for its byte. The addresses right
/// before and right after the extent aren't prepared. There may be spare room before the first
/// byte, so that an extent that grows downward is seldom moved.
#[derive(Debug, Drop)]
pub struct Extent {
    /// The address of the first byte.
    pub base: u64,
    /// The number of bytes of spare room at the start of `bytes`, before the first byte of the
    /// extent.
    pub front: usize,
    /// The bytes of the extent, after the spare room.
    pub bytes: Vec<u8>,
}

/// Returns the number of bytes in the extent, without the spare room.
pub fn size_of_extent(extent: &Extent) -> u64
    ensures { result ≡ length (extent_view extent.now).bytes }
{
    extent.bytes.len().saturating_sub(extent.front) as u64
}

/// Returns the address after the last byte of the extent.
pub fn end_of_extent(extent: &Extent) -> u64
    requires { end_of_extent (extent_view extent.now) < 2 ^ 64 }
    ensures { result ≡ end_of_extent (extent_view extent.now) }
{
    extent.base + size_of_extent(extent)
}

/// Tests whether the address is inside the extent.
fn is_in_extent(extent: &Extent, address: u64) -> bool
    ensures { result ≡ is_in_extent (extent_view extent.now) address }
{
    extent.base <= address && address - extent.base < size_of_extent(extent)
}

/// Returns the index of the first extent that ends at or above `address` (the end is the address
/// after the last byte), or the number of extents if there is none. The search is binary.
pub fn first_extent_ending_at_or_above(extents: &[Extent], address: u64) -> usize
    requires { AreSortedAndApart 0 (map extent_view extents.now) }
    ensures most { result ≤ length extents.now }
    ensures below { (i : ℕ) → i < result
        → end_of_extent (nth_extent (map extent_view extents.now) i) < address }
    ensures reaches { result < length extents.now
        → address ≤ end_of_extent (nth_extent (map extent_view extents.now) result) }
{
    let mut low = 0;
    let mut high = extents.len();
    while low < high {
        let middle = low + (high - low) / 2;
        if end_of_extent(&extents[middle]) < address {
            low = middle + 1;
        } else {
            high = middle;
        }
    }
    low
}

/// The greatest number of extents that are searched one by one; up to about this number that is
/// faster than a binary search.
const MAX_LINEAR_SEARCH: usize = 16;

/// Returns the index of the extent that has this address, or `None` if no extent has it.
fn index_of_extent(extents: &[Extent], address: u64) -> Option<usize>
    requires { AreSortedAndApart 0 (map extent_view extents.now) }
    ensures { result ≡ position (λ e. is_in_extent (extent_view e) address) extents.now }
{
    if extents.len() > MAX_LINEAR_SEARCH {
        return index_by_binary_search(extents, address);
    }
    index_by_linear_search(extents, address)
}

/// Returns the index of the extent that has this address, or `None` if no extent has it. Searches
/// the extents one by one.
fn index_by_linear_search(extents: &[Extent], address: u64) -> Option<usize>
    ensures { result ≡ position (λ e. is_in_extent (extent_view e) address) extents.now }
{
    extents.iter().position(|e| is_in_extent(e, address))
}

/// Returns the index of the extent that has this address, or `None` if no extent has it. The search
/// is binary. Only the first extent that ends at or above the address can have it. If that extent
/// ends exactly at the address, the next one begins above it, because extents don't touch.
// A function of its own, so that the linear search is small enough to be inlined.
#[inline(never)]
fn index_by_binary_search(extents: &[Extent], address: u64) -> Option<usize>
    requires { AreSortedAndApart 0 (map extent_view extents.now) }
    ensures { result ≡ position (λ e. is_in_extent (extent_view e) address) extents.now }
{
    let i = first_extent_ending_at_or_above(extents, address);
    if i < extents.len() && is_in_extent(&extents[i], address) {
        Some(i)
    } else {
        None
    }
}

/// Returns the extent that has this address, or `None` if no extent has it.
fn extent_at(extents: &[Extent], address: u64) -> Option<&Extent>
    requires { AreSortedAndApart 0 (map extent_view extents.now) }
    ensures { MatchOption result (position (λ e. is_in_extent (extent_view e) address) extents.now
        ≡ None) (λ e. (i : ℕ) ×
        (position (λ d. is_in_extent (extent_view d) address) extents.now ≡ Some i)
        × (e.now ≡ get_or extents.now i e.now)) }
{
    if extents.len() > MAX_LINEAR_SEARCH {
        return extent_by_binary_search(extents, address);
    }
    let i = index_by_linear_search(extents, address)?;
    Some(&extents[i])
}

/// Returns the extent that has this address, or `None` if no extent has it. The search is binary.
#[inline(never)]
fn extent_by_binary_search(extents: &[Extent], address: u64) -> Option<&Extent>
    requires { AreSortedAndApart 0 (map extent_view extents.now) }
    ensures { MatchOption result (position (λ e. is_in_extent (extent_view e) address) extents.now
        ≡ None) (λ e. (i : ℕ) ×
        (position (λ d. is_in_extent (extent_view d) address) extents.now ≡ Some i)
        × (e.now ≡ get_or extents.now i e.now)) }
{
    let i = index_by_binary_search(extents, address)?;
    Some(&extents[i])
}

/// Tests whether each address of the range is prepared, which means that memory for its byte has
/// been allocated.
pub fn are_prepared(extents: &[Extent], range: Range) -> bool
    requires { AreSortedAndApart 0 (map extent_view extents.now) }
    ensures { IsTrue result ↔ ArePrepared (map extent_view extents.now) range.base range.size }
{
    if range.size == 0 {
        return true;
    }
    match extent_at(extents, range.base) {
        Some(extent) => range.end() - extent.base <= size_of_extent(extent),
        None => false,
    }
}

/// Returns the byte at this address, or 0 if the address isn't prepared.
pub fn byte_at(extents: &[Extent], address: u64) -> u8
    requires { AreSortedAndApart 0 (map extent_view extents.now) }
    ensures { result ≡ byte_of (map extent_view extents.now) address }
{
    match extent_at(extents, address) {
        Some(extent) => extent.bytes[extent.front + (address - extent.base) as usize],
        None => 0,
    }
}

/// Returns the `count` bytes from address `at` on, without copying them. They must be prepared.
pub fn slice(extents: &[Extent], at: u64, count: u64) -> &[u8]
    requires apart { AreSortedAndApart 0 (map extent_view extents.now) }
    requires prepared { ArePrepared (map extent_view extents.now) at count }
    ensures { result.now ≡ bytes_at (byte_of (map extent_view extents.now)) at count }
{
    match extent_at(extents, at) {
        Some(extent) => {
            let from = extent.front + (at - extent.base) as usize;
            &extent.bytes[from..from + count as usize]
        }
        None => &[],
    }
}

/// Writes `bytes` to the addresses from `at` on, which must be prepared.
pub fn write(extents: &mut [Extent], at: u64, bytes: &[u8])
    requires apart { AreSortedAndApart 0 (map extent_view extents.old) }
    requires prepared { ArePrepared (map extent_view extents.old) at (length bytes.now) }
    ensures apart { AreSortedAndApart 0 (map extent_view extents.new) }
    ensures wrote { WritesBytes (map extent_view extents.old) (map extent_view extents.new) at
        (length bytes.now) (slice_index bytes.now) }
{
    if let Some(i) = index_of_extent(extents, at) {
        let extent = &mut extents[i];
        let from = extent.front + (at - extent.base) as usize;
        extent.bytes[from..from + bytes.len()].copy_from_slice(bytes);
    }
}

/// Writes `byte` to each address of the range, which must be prepared.
pub fn fill(extents: &mut [Extent], range: Range, byte: u8)
    requires apart { AreSortedAndApart 0 (map extent_view extents.old) }
    requires prepared { ArePrepared (map extent_view extents.old) range.base range.size }
    ensures apart { AreSortedAndApart 0 (map extent_view extents.new) }
    ensures wrote { WritesBytes (map extent_view extents.old)
        (map extent_view extents.new) range.base range.size (λ _. byte) }
{
    if let Some(i) = index_of_extent(extents, range.base) {
        let extent = &mut extents[i];
        let from = extent.front + (range.base - extent.base) as usize;
        extent.bytes[from..from + range.size as usize].fill(byte);
    }
}

/// Copies the `count` bytes at address `from` to address `to`. The two ranges may overlap. All
/// addresses of both ranges, and those between them, must be prepared.
pub fn move_bytes(extents: &mut [Extent], from: u64, to: u64, count: u64)
    requires apart { AreSortedAndApart 0 (map extent_view extents.old) }
    requires prepared { ArePrepared (map extent_view extents.old) (min from to)
        (max from to - min from to + count) }
    ensures apart { AreSortedAndApart 0 (map extent_view extents.new) }
    ensures wrote { WritesBytes (map extent_view extents.old) (map extent_view extents.new) to count
        (λ k. byte_of (map extent_view extents.old) (from + k)) }
{
    if let Some(i) = index_of_extent(extents, from.min(to)) {
        let extent = &mut extents[i];
        let source = extent.front + (from - extent.base) as usize;
        let target = extent.front + (to - extent.base) as usize;
        extent
            .bytes
            .copy_within(source..source + count as usize, target);
    }
}

/// The number of bytes that are copied at a time between two extents.
const COPY_CHUNK_BYTES: usize = 256;

/// Copies the `count` bytes at address `from` to address `to`. The two ranges must not overlap,
/// and must be prepared.
#[tactic(auto, using(crate::proofs::ByteLists::byte_counts))]
pub fn copy_bytes(extents: &mut [Extent], from: u64, to: u64, count: u64)
    requires apart { AreSortedAndApart 0 (map extent_view extents.old) }
    requires read { ArePrepared (map extent_view extents.old) from count }
    requires written { ArePrepared (map extent_view extents.old) to count }
    requires disjoint { IsTrue (nat_le (from + count) to || nat_le (to + count) from) }
    ensures apart { AreSortedAndApart 0 (map extent_view extents.new) }
    ensures wrote { WritesBytes (map extent_view extents.old) (map extent_view extents.new) to count
        (λ k. byte_of (map extent_view extents.old) (from + k)) }
{
    let mut chunk = [0; COPY_CHUNK_BYTES];
    let mut done = 0;
    while done < count {
        let n = (count - done).min(COPY_CHUNK_BYTES as u64);
        let part = &mut chunk[..n as usize];
        part.copy_from_slice(slice(extents, from + done, n));
        write(extents, to + done, part);
        done += n;
    }
}

/// Copies the bytes from address `at` on to `into`. An address that isn't prepared reads as 0.
/// `at + into.len()` must be below 2^64.
#[tactic(auto, using(crate::proofs::ByteLists::byte_counts))]
pub fn read(extents: &[Extent], at: u64, into: &mut [u8])
    requires apart { AreSortedAndApart 0 (map extent_view extents.now) }
    requires small { at + length into.old < 2 ^ 64 }
    ensures { into.new ≡ bytes_at (byte_of (map extent_view extents.now)) at (length into.old) }
{
    let count = into.len() as u64;
    if are_prepared(
        extents,
        Range {
            base: at,
            size: count,
        },
    ) {
        into.copy_from_slice(slice(extents, at, count));
        return;
    }
    for k in 0..into.len() {
        into[k] = byte_at(extents, at + k as u64);
    }
}
