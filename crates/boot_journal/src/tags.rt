//! Computes the tag of one byte (whether it is memory, its node, and whether it is mirrored), by
//! following the byte through the items.
//!
//! No result is stored, since a tag is needed only now and then, and the memory table has the
//! records. The marks of a memory byte are its node and its mirror flag. Between two trims only the
//! marks of the byte itself are followed. A trim keeps a frame only if all its bytes have the same
//! marks (`memblock_trim_memory`). The marks change only at the ends of items' ranges, so only the
//! ends that are inside the frame are compared.

ghost use Rattle.std.specs.Prelude.{◌≡◌, ◌<◌, ℕ, IsTrue, IfSome, None, false, length, position};
ghost use Rattle.bm_base.specs.Range.{end_of};
ghost use Rattle.memblock_model.specs.Labels.{tag_for};
ghost use Rattle.memblock_model.specs.Items.{tag_of};
ghost use Rattle.boot_journal.specs.Bytes.{is_trim, marks_after, marks_after_items, marks_after_trim, EdgeAgrees, EdgeDiffers, ItemAgrees, ItemsAgree};

use bm_base::{FRAME_SIZE, Range};
use memblock_model::{Item, Marks, Tag};

/// Returns the marks of the byte at `x` (its node and its mirror flag) after the item, or `None` if
/// the byte isn't memory then. The item isn't a trim. `carried` has the marks before the item.
fn marks_after(carried: Option<Marks>, item: &Item, x: u64) -> Option<Marks>
    ensures { result ≡ marks_after x carried item.now }
{
    match item {
        Item::Mem { range } if range.contains(x) => carried.or(Some(Marks::new())),
        Item::Node { range, node } if range.contains(x) => {
            carried.map(|marks| marks.with_node(*node))
        }
        Item::Mirror { range } if range.contains(x) => carried.map(|marks| marks.with_mirror()),
        _ => carried,
    }
}

/// Returns the marks of the byte at `x` after these items, none of which is a trim, or `None` if
/// the byte isn't memory. `whole` has the byte's marks before the items.
fn marks_after_items(whole: &Option<Marks>, items: &[Item], x: u64) -> Option<Marks>
    ensures { result ≡ marks_after_items whole.now items.now x }
{
    items
        .iter()
        .fold(*whole, |carried, item| marks_after(carried, item, x))
}

fn first_trim(items: &[Item]) -> Option<usize>
    ensures first { result ≡ position is_trim items.now }
    ensures within { IfSome result (λ i. i < length items.now) }
{
    items.iter().position(|item| matches!(item, Item::Trim))
}

/// Tests whether, after the items, the byte at `edge` has the same marks as the byte at `first`,
/// which is the first byte of a frame. Before the items both had the marks `whole`. Returns true if
/// `edge` isn't inside that frame.
fn edge_agrees(whole: &Option<Marks>, items: &[Item], first: u64, edge: u64) -> bool
    ensures agrees { IsTrue result → EdgeAgrees whole.now items.now first edge }
    ensures differs { result ≡ false → EdgeDiffers whole.now items.now first edge }
{
    if edge <= first || edge - first >= FRAME_SIZE {
        return true;
    }
    marks_after_items(whole, items, edge) == marks_after_items(whole, items, first)
}

/// Tests whether, after the items, the byte at each end of this item's range has the same marks as
/// the first byte of the frame at `first`. Ends that aren't inside that frame don't count. Returns
/// true for an item that changes no marks.
fn item_agrees(whole: &Option<Marks>, items: &[Item], first: u64, item: &Item) -> bool
    ensures agrees { IsTrue result → ItemAgrees whole.now items.now first item.now }
    ensures differs { result ≡ false → (e : ℕ) × EdgeDiffers whole.now items.now first e }
{
    match item {
        Item::Mem { range } | Item::Node { range, .. } | Item::Mirror { range } => {
            range_agrees(whole, items, first, range)
        }
        _ => true,
    }
}

fn range_agrees(whole: &Option<Marks>, items: &[Item], first: u64, range: &Range) -> bool
    ensures agrees { IsTrue result →
        EdgeAgrees whole.now items.now first range.now.base
        × EdgeAgrees whole.now items.now first (end_of range.now) }
    ensures differs { result ≡ false → (e : ℕ) × EdgeDiffers whole.now items.now first e }
{
    edge_agrees(whole, items, first, range.base) && edge_agrees(whole, items, first, range.end())
}

/// Tests whether all bytes of the frame at `first` have the same marks after the items, none of
/// which is a trim. Before the items all of them must have had the marks `whole`. Looks only at
/// the ends of ranges inside the frame, since marks change nowhere else.
fn frame_agrees(whole: &Option<Marks>, items: &[Item], first: u64) -> bool
    ensures agrees { IsTrue result → ItemsAgree whole.now items.now first items.now }
    ensures differs { result ≡ false → (e : ℕ) × EdgeDiffers whole.now items.now first e }
{
    for item in items {
        if !item_agrees(whole, items, first, item) {
            return false;
        }
    }
    true
}

/// Returns the marks of the byte at `x` after these items, none of which is a trim, and then a
/// trim. Before the items all bytes of its frame must have had the marks `whole`. If the items give
/// bytes of the frame different marks, the trim removes the frame, and the result is `None`.
fn marks_after_trim(whole: &Option<Marks>, items: &[Item], x: u64) -> Option<Marks>
    ensures { result ≡ marks_after_trim whole.now items.now x }
{
    let first = x - x % FRAME_SIZE;
    if !frame_agrees(whole, items, first) {
        return None;
    }
    marks_after_items(whole, items, first)
}

/// Returns the tag of a byte with these marks: [`Tag::Absent`] if it has none.
fn tag_for(carried: Option<Marks>) -> Tag
    ensures { result ≡ tag_for carried }
{
    match carried {
        None => Tag::Absent,
        Some(marks) => marks.tag(),
    }
}

/// Returns the tag of the byte at address `x` after all items: whether it is memory, on which
/// node, and whether it is mirrored. After a trim all bytes of a frame have the same marks.
/// Between two trims it is therefore enough to follow the byte alone, and at a trim to compare its
/// frame.
pub fn tag_at(items: &[Item], x: u64) -> Tag
    ensures { result ≡ tag_of items.now x }
{
    let mut whole = None;
    let mut rest = items;
    while let Some(i) = first_trim(rest) {
        whole = marks_after_trim(&whole, &rest[..i], x);
        rest = &rest[i + 1..];
    }
    tag_for(marks_after_items(&whole, rest, x))
}
