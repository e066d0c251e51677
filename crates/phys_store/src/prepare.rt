//! Prepares a range. The range and the extents that it overlaps or touches become one extent, so
//! extents never touch.
//!
//! The largest of these extents is kept and grows, and the others are copied into it. If there is
//! none, a new extent with the size of the range is inserted. All memory is allocated before any
//! byte or address changes. A failure may leave more spare room before an extent, and changes
//! nothing else.
ghost use Rattle.std.specs.Prelude.{◌≡◌, ℕ, ◌+◌, ◌-◌, ◌^◌, ◌<◌, ◌≤◌, ◌||◌, IsTrue, ◌++◌, ◌∷◌, [], take, drop, map, replicate, length, slice_range, OnOk, OnErr};
ghost use Rattle.bm_base.specs.Range.{end_of, covers};
ghost use Rattle.phys_store.specs.Bytes.{end_of_extent, byte_of, is_prepared_at, ArePrepared};
ghost use Rattle.phys_store.specs.Extents.{extent_view, nth_extent, AreSortedAndApart, AreTouchedExtents, extent_with_bytes_of, merge_extents};

use crate::extents::{
    Extent, are_prepared, end_of_extent, first_extent_ending_at_or_above, size_of_extent,
};
use bm_base::{Memory, Range};
use std::mem;

/// The extents that a range overlaps or touches: those with the indices from `first` to just before
/// `after`. Together with the range they make up the addresses from `low` to just below `high`.
struct TouchedExtents {
    first: usize,
    after: usize,
    low: u64,
    high: u64,
}

/// Returns the extents that the range overlaps or touches, and the addresses that they and the
/// range make up.
fn touched_extents(extents: &[Extent], range: Range) -> TouchedExtents
    requires { AreSortedAndApart 0 (map extent_view extents.now) }
    ensures joins { AreTouchedExtents
        (map extent_view extents.now) result.first result.after result.low result.high }
    ensures low { result.low ≤ range.base }
    ensures high { end_of range ≤ result.high }
    ensures small { result.high < 2 ^ 64 }
    ensures ready { (x : ℕ) → result.low ≤ x → x < result.high
        → IsTrue (covers range x || is_prepared_at (map extent_view extents.now) x) }
{
    let first = first_extent_ending_at_or_above(extents, range.base);
    let mut after = first;
    let mut low = range.base;
    let mut high = range.end();
    while after < extents.len() && extents[after].base <= high {
        let extent = &extents[after];
        low = low.min(extent.base);
        high = high.max(end_of_extent(extent));
        after += 1;
    }
    TouchedExtents {
        first,
        after,
        low,
        high,
    }
}

/// Inserts an extent of zeros, from address `low` to below `high`, at index `first`.
///
/// # Errors
///
/// - `Memory`: the program ran out of memory; the list is unchanged.
fn insert_extent(extents: &mut Vec<Extent>, first: usize, low: u64, high: u64) -> Result<(), Memory>
    requires order { low ≤ high }
    requires most { first ≤ length extents.old.items }
    ensures ok { OnOk result (map extent_view extents.new.items
        ≡ merge_extents (map extent_view extents.old.items) first first low high) }
    ensures err { OnErr result (extents.new.items ≡ extents.old.items) }
{
    let bytes = vec![in *extents.allocator(); 0; (high - low) as usize]?;
    let extent = Extent {
        base: low,
        front: 0,
        bytes,
    };
    extents.insert(first, extent)?;
    Ok(())
}

/// Returns the index of the extent with the most bytes, among those with the indices from `first`
/// to just before `after`. There must be at least one.
fn largest(extents: &[Extent], first: usize, after: usize) -> usize
    requires some { first < after }
    requires most { after ≤ length extents.now }
    ensures least { first ≤ result }
    ensures below { result < after }
{
    let mut best = first;
    for i in first + 1..after {
        if size_of_extent(&extents[best]) < size_of_extent(&extents[i]) {
            best = i;
        }
    }
    best
}

/// Appends `count` zeros to the bytes.
///
/// # Errors
///
/// - `Memory`: the program ran out of memory; the bytes are unchanged.
fn append_zeros(bytes: &mut Vec<u8>, count: usize) -> Result<(), Memory>
    ensures ok { OnOk result (bytes.new.items ≡ bytes.old.items ++ replicate count 0) }
    ensures err { OnErr result (bytes.new.items ≡ bytes.old.items) }
{
    let Some(all) = bytes.len().checked_add(count) else {
        return Err(Memory);
    };
    bytes.resize(all, 0)?;
    Ok(())
}

/// Appends to `bytes` a copy of its own bytes from index `from` on. The `Vec` is moved to a local
/// variable meanwhile. The compiler then knows that its bytes don't overlap the `Vec` itself, and
/// copies them in bulk.
///
/// # Errors
///
/// - `Memory`: the program ran out of memory; the bytes are unchanged.
fn append_from(bytes: &mut Vec<u8>, from: usize) -> Result<(), Memory>
    requires { from ≤ length bytes.old.items }
    ensures ok { OnOk result (bytes.new.items ≡ bytes.old.items
        ++ slice_range bytes.old.items from (length bytes.old.items)) }
    ensures err { OnErr result (bytes.new.items ≡ bytes.old.items) }
{
    let nothing = Vec::new(*bytes.allocator());
    let mut all = mem::replace(bytes, nothing);
    let done = all.extend_from_within(from..all.len());
    *bytes = all;
    done?;
    Ok(())
}

/// Moves the bytes from index `from` on up by `more`, copying each byte once. The bytes at the
/// indices that become free have no defined value.
///
/// # Errors
///
/// - `Memory`: the program ran out of memory; the bytes are unchanged.
fn move_up(bytes: &mut Vec<u8>, from: usize, more: usize) -> Result<(), Memory>
    requires { from ≤ length bytes.old.items }
    ensures moved { OnOk result (drop (from + more) bytes.new.items ≡ drop from bytes.old.items) }
    ensures len { OnOk result (length bytes.new.items ≡ length bytes.old.items + more) }
    ensures err { OnErr result (bytes.new.items ≡ bytes.old.items) }
{
    let end = bytes.len();
    if end - from < more {
        append_zeros(bytes, more)?;
        bytes.copy_within(from..end, from + more);
    } else {
        let cut = end - more;
        append_from(bytes, cut)?;
        bytes.copy_within(from..cut, from + more);
    }
    Ok(())
}

/// Makes spare room for at least `down` bytes before the first byte of the extent. If the room has
/// to grow, it grows by `down` bytes or by about seven eighths of the extent's size, whichever is
/// more. The bytes are therefore moved again only when there are nearly twice as many.
///
/// # Errors
///
/// - `Memory`: the program ran out of memory; the extent is unchanged.
fn make_room(extent: &mut Extent, down: usize) -> Result<(), Memory>
    requires { 0 < length (extent_view extent.old).bytes }
    ensures same { extent_view extent.new ≡ extent_view extent.old }
    ensures room { OnOk result (down ≤ extent.new.front) }
{
    if down <= extent.front {
        return Ok(());
    }
    let more = down.max((extent.bytes.len() - extent.front) / 8 * 7);
    move_up(&mut extent.bytes, extent.front, more)?;
    extent.front += more;
    Ok(())
}

/// Extends the extent to the addresses from `low` to just below `high`. Its bytes stay, and the new
/// ones are 0.
///
/// # Errors
///
/// - `Memory`: the program ran out of memory; the bytes and addresses of the extent are unchanged.
fn widen(extent: &mut Extent, low: u64, high: u64) -> Result<(), Memory>
    requires some { 0 < length (extent_view extent.old).bytes }
    requires low { low ≤ extent.old.base }
    requires high { end_of_extent (extent_view extent.old) ≤ high }
    requires small { high < 2 ^ 64 }
    ensures ok { OnOk result (extent_view extent.new
        ≡ extent_with_bytes_of (extent_view extent.old ∷ []) low high) }
    ensures err { OnErr result (extent_view extent.new ≡ extent_view extent.old) }
{
    let down = (extent.base - low) as usize;
    let up = (high - end_of_extent(extent)) as usize;
    make_room(extent, down)?;
    append_zeros(&mut extent.bytes, up)?;
    let first = extent.front;
    extent.base = low;
    extent.front -= down;
    extent.bytes[extent.front..first].fill(0);
    Ok(())
}

/// Returns the bytes of the extent, without the spare room.
fn bytes_of_extent(extent: &Extent) -> &[u8]
    ensures { result.now ≡ (extent_view extent.now).bytes }
{
    let front = extent.front.min(extent.bytes.len());
    &extent.bytes[front..]
}

/// Copies the bytes of the other extents into `extent`, which must contain all their addresses.
fn copy_into_extent(extent: &mut Extent, others: &[Extent])
    requires some { 0 < length (extent_view extent.old).bytes }
    requires low { (i : ℕ) → i < length others.now
        → extent.old.base ≤ (nth_extent (map extent_view others.now) i).base }
    requires high { (i : ℕ) → i < length others.now → end_of_extent
        (nth_extent (map extent_view others.now) i) ≤ end_of_extent (extent_view extent.old) }
    ensures { extent_view extent.new ≡
        extent_with_bytes_of (map extent_view others.now ++ extent_view extent.old ∷ [])
        extent.old.base
        (end_of_extent (extent_view extent.old)) }
{
    let mut i = others.len();
    while i > 0 {
        i -= 1;
        let other = &others[i];
        let bytes = bytes_of_extent(other);
        let from = extent.front + (other.base - extent.base) as usize;
        extent.bytes[from..from + bytes.len()].copy_from_slice(bytes);
    }
}

/// Replaces the extents with the indices from `first` to just before `after` by `extent`.
fn replace(extents: &mut Vec<Extent>, first: usize, after: usize, extent: Extent)
    requires some { first < after }
    requires most { after ≤ length extents.old.items }
    ensures { extents.new.items ≡ take first extents.old.items
        ++ extent ∷ drop after extents.old.items }
{
    extents[first] = extent;
    for _gone in first + 1..after {
        drop(extents.remove(first + 1));
    }
}

/// Joins the extents with the indices from `first` to just before `after` into one, from address
/// `low` to just below `high`. The largest of them is extended, and the others are copied into it.
/// Each byte that is copied therefore ends up in an extent of at least twice the size of its old
/// one.
///
/// # Errors
///
/// - `Memory`: the program ran out of memory; the bytes and addresses of all extents are
///   unchanged.
fn merge_touched_extents(
    extents: &mut Vec<Extent>,
    first: usize,
    after: usize,
    low: u64,
    high: u64,
) -> Result<(), Memory>
    requires apart { AreSortedAndApart 0 (map extent_view extents.old.items) }
    requires joins { AreTouchedExtents (map extent_view extents.old.items) first after low high }
    requires some { first < after }
    requires small { high < 2 ^ 64 }
    ensures ok { OnOk result (map extent_view extents.new.items
        ≡ merge_extents (map extent_view extents.old.items) first after low high) }
    ensures err { OnErr result (map extent_view extents.new.items
        ≡ map extent_view extents.old.items) }
{
    let kept = largest(extents, first, after);
    widen(&mut extents[kept], low, high)?;
    let nothing = Extent {
        base: low,
        front: 0,
        bytes: Vec::new(*extents.allocator()),
    };
    let mut whole = mem::replace(&mut extents[kept], nothing);
    copy_into_extent(&mut whole, &extents[first..after]);
    replace(extents, first, after, whole);
    Ok(())
}

/// Joins the touched extents into one, which has the addresses from `reach.low` to just below
/// `reach.high`. If no extent is touched, inserts an extent of zeros with these addresses.
///
/// # Errors
///
/// - `Memory`: the program ran out of memory; the bytes and addresses of all extents are unchanged.
fn merge_or_insert(extents: &mut Vec<Extent>, reach: TouchedExtents) -> Result<(), Memory>
    requires apart { AreSortedAndApart 0 (map extent_view extents.old.items) }
    requires joins { AreTouchedExtents
        (map extent_view extents.old.items) reach.first reach.after reach.low reach.high }
    requires order { reach.low ≤ reach.high }
    requires small { reach.high < 2 ^ 64 }
    ensures ok { OnOk result
        (map extent_view extents.new.items ≡ merge_extents
        (map extent_view extents.old.items) reach.first reach.after reach.low reach.high) }
    ensures err { OnErr result (map extent_view extents.new.items
        ≡ map extent_view extents.old.items) }
{
    let TouchedExtents {
        first,
        after,
        low,
        high,
    } = reach;
    if first == after {
        insert_extent(extents, first, low, high)
    } else {
        merge_touched_extents(extents, first, after, low, high)
    }
}

/// Prepares each address of the range: allocates memory for its byte, so that it can be written.
/// Prepared addresses stay prepared, and no byte changes.
///
/// # Errors
///
/// - `Memory`: the program ran out of memory; no byte has changed, and no address has become
///   prepared. This error is possible only if some address of the range wasn't prepared.
pub fn prepare(extents: &mut Vec<Extent>, range: Range) -> Result<(), Memory>
    requires { AreSortedAndApart 0 (map extent_view extents.old.items) }
    ensures apart { AreSortedAndApart 0 (map extent_view extents.new.items) }
    ensures bytes { (x : ℕ) → byte_of (map extent_view extents.new.items) x
        ≡ byte_of (map extent_view extents.old.items) x }
    ensures ready { OnOk result ((x : ℕ) →
        is_prepared_at (map extent_view extents.new.items) x
        ≡ (covers range x || is_prepared_at (map extent_view extents.old.items) x)) }
    ensures err { OnErr result (map extent_view extents.new.items
        ≡ map extent_view extents.old.items) }
    ensures memory { OnErr result
        (ArePrepared (map extent_view extents.old.items) range.base range.size → ⊥) }
{
    if are_prepared(extents, range) {
        return Ok(());
    }
    let reach = touched_extents(extents, range);
    merge_or_insert(extents, reach)?;
    Ok(())
}
