//! Appends entries to lists of claims, and cuts ranges out of them (`e820__range_add`,
//! `e820__range_remove`, `e820__range_update`, `trim_bios_range`).
//!
//! The kernel walks its table and splits each entry that the range overlaps into up to three. Here
//! a claim is split in the same way, into a part below the range, one inside it and one above it.
//! A claim that doesn't overlap the range is copied unchanged. Cutting makes a new list, and
//! adding is a single push, so running out of memory leaves the table unchanged. The lists aren't
//! sorted, since the claims on an address don't depend on the order.

ghost use Rattle.std.specs.Prelude.{◌≡◌, ℕ, ◌+◌, ◌^◌, ◌<◌, Option, [], ◌∷◌, ◌++◌, OnOk, OnErr, IfOk, IsOk, IsTrue};
ghost use Rattle.e820_model.specs.Claims.{EntriesFit, HasTypes, union_of_claims, claims_of_entries, after_edit, after_bios_trim};
ghost use Rattle.e820_model.specs.declared.entry.Edit.TheVariants as edits;
ghost use Rattle.e820_model.specs.Map.{AreValidClaims, claims_of};
ghost use Rattle.e820_sanitise.specs.Cuts.{claim_between, claim_between_if_typed, claim_of_entry, cut_out, type_inside, parts_of_claim};

use bm_base::{FRAME_SIZE, Memory, Range};
use e820_model::{E820_TYPE_RAM, E820_TYPE_RESERVED, Edit, Entry, Run};
use std::alloc::Global;

/// Appends a claim of type `kind` on the addresses from `from` up to `until`, without `until`.
/// Appends nothing if `until` isn't above `from`.
///
/// # Errors
///
/// - `Memory`: the program ran out of memory; the list is unchanged.
fn push_between(claims: &mut Vec<Run>, from: u64, until: u64, kind: u32) -> Result<(), Memory>
    ensures added { OnOk result (claims.new.items
        ≡ claims.old.items ++ claim_between from until kind) }
    ensures claims { 0 < kind → AreValidClaims claims.old.items → AreValidClaims claims.new.items }
    ensures err { OnErr result (claims.new.items ≡ claims.old.items) }
{
    if let Some(range) = Range::between(from, until) {
        claims.push(Run { range, kind })?;
    }
    Ok(())
}

/// Appends a claim of type `kind` on the addresses from `from` up to `until`, without `until`.
/// Appends nothing if `until` isn't above `from`, or if `kind` is `None`.
///
/// # Errors
///
/// - `Memory`: the program ran out of memory.
fn push_between_if(
    claims: &mut Vec<Run>,
    from: u64,
    until: u64,
    kind: Option<u32>,
) -> Result<(), Memory>
    ensures { OnOk result
        (claims.new.items ≡ claims.old.items ++ claim_between_if_typed from until kind) }
{
    let Some(kind) = kind else {
        return Ok(());
    };
    push_between(claims, from, until, kind)
}

/// Appends the parts into which the range cuts a claim: the part below the range, the part inside
/// it with the type `inner`, and the part above it. If `inner` is `None`, the part inside is
/// dropped. Empty parts aren't appended.
///
/// # Errors
///
/// - `Memory`: the program ran out of memory. The list may have some of the parts.
fn push_parts(
    claims: &mut Vec<Run>,
    range: &Range,
    inner: Option<u32>,
    claim: &Run,
) -> Result<(), Memory>
    ensures { OnOk result
        (claims.new.items ≡ claims.old.items ++ parts_of_claim range.now inner claim.now) }
{
    if is_apart(range, claim) {
        claims.push(*claim)?;
        return Ok(());
    }
    let start = claim.range.base;
    let end = claim.range.end();
    push_between(claims, start, range.base.min(end), claim.kind)?;
    push_between_if(claims, range.base.max(start), range.end().min(end), inner)?;
    push_between(claims, range.end().max(start), end, claim.kind)
}

/// Tests whether the claim isn't empty and lies wholly below or wholly above the range. An edit of
/// the range leaves such a claim as it is.
fn is_apart(range: &Range, claim: &Run) -> bool
    ensures { IsTrue result → (inner : Option ℕ)
        → parts_of_claim range.now inner claim.now ≡ claim.now ∷ [] }
{
    let start = claim.range.base;
    let end = claim.range.end();
    start < end && (end <= range.base || range.end() <= start)
}

/// Returns the claims after an edit of the range. The edit changes claims of type `meant`, or
/// claims of all types if `meant` is `None`. Inside the range they get the type `instead`, or are
/// removed if `instead` is `None`. Outside the range no claim changes.
///
/// # Errors
///
/// - `Memory`: the program ran out of memory.
fn cut_each_claim(
    alloc: Global,
    claims: &[Run],
    range: &Range,
    meant: Option<u32>,
    instead: Option<u32>,
) -> Result<Vec<Run>, Memory>
    ensures { IfOk result (λ left. left.items ≡ cut_out range.now meant instead claims.now) }
{
    let mut left = Vec::with_capacity(alloc, claims.len())?;
    for claim in claims {
        let inner = type_inside(meant, instead, claim.kind);
        push_parts(&mut left, range, inner, claim)?;
    }
    Ok(left)
}

/// Returns the type that a claim of type `kind` has inside a range after an edit of the range, or
/// `None` if the edit removes it there. The edit changes claims of type `meant`, or of all types if
/// `meant` is `None`. They get the type `instead`, or are removed if `instead` is `None`.
fn type_inside(meant: Option<u32>, instead: Option<u32>, kind: u32) -> Option<u32>
    ensures { result ≡ type_inside meant instead kind }
{
    match meant {
        Some(meant) if kind != meant => Some(kind),
        _ => instead,
    }
}

/// Appends a claim with the range and the type of the entry, or nothing if the entry is empty or
/// has type 0. The entry's address plus size must be below 2^64.
///
/// # Errors
///
/// - `Memory`: the program ran out of memory.
fn push_entry(claims: &mut Vec<Run>, entry: &Entry) -> Result<(), Memory>
    requires { entry.now.addr + entry.now.size < 2 ^ 64 }
    ensures added { OnOk result (claims.new.items
        ≡ claims.old.items ++ claim_of_entry entry.now) }
    ensures claims { OnOk result (AreValidClaims claims.old.items → AreValidClaims
        claims.new.items) }
{
    if entry.kind == 0 {
        return Ok(());
    }
    push_between(claims, entry.addr, entry.addr + entry.size, entry.kind)
}

/// Returns the list of claims, followed by one claim for each entry that isn't empty and whose type
/// isn't 0. Each entry's address plus size must be below 2^64.
///
/// # Errors
///
/// - `Memory`: the program ran out of memory.
pub fn with_entries(alloc: Global, claims: &[Run], entries: &[Entry]) -> Result<Vec<Run>, Memory>
    requires claims { AreValidClaims claims.now }
    requires space { EntriesFit entries.now }
    ensures same { IfOk result (λ all. claims_of all.items
        ≡ union_of_claims (claims_of claims.now) (claims_of_entries entries.now)) }
    ensures claims { IfOk result (λ all. AreValidClaims all.items) }
{
    let mut all = Vec::from_slice(alloc, claims)?;
    for entry in entries {
        push_entry(&mut all, entry)?;
    }
    Ok(all)
}

/// Carries out an option's edit on the list of claims. The types in the edit must be above 0.
///
/// # Errors
///
/// - `Memory`: the program ran out of memory; the claims are unchanged. `Clear` never fails.
pub fn edit_claims(claims: &mut Vec<Run>, edit: &Edit) -> Result<(), Memory>
    requires claims { AreValidClaims claims.old.items }
    requires types { HasTypes edit.now }
    ensures same { OnOk result (claims_of claims.new.items
        ≡ after_edit edit.now (claims_of claims.old.items)) }
    ensures claims { AreValidClaims claims.new.items }
    ensures err { OnErr result (claims.new.items ≡ claims.old.items) }
    ensures clear { edit.now ≡ edits.Clear → IsOk result }
{
    match edit {
        Edit::Add { range, kind } => push_between(claims, range.base, range.end(), *kind),
        Edit::Remove { range, kind } => replace_with_cut(claims, range, Some(*kind), None),
        Edit::RemoveAll { range } => replace_with_cut(claims, range, None, None),
        Edit::Change { range, from, to } => replace_with_cut(claims, range, Some(*from), Some(*to)),
        Edit::Clear => {
            claims.clear();
            Ok(())
        }
    }
}

/// Edits the claims in place. Claims of type `meant`, or of all types if `meant` is `None`, get the
/// type `instead` inside the range, or are removed there if `instead` is `None`.
///
/// # Errors
///
/// - `Memory`: the program ran out of memory; the claims are unchanged.
fn replace_with_cut(
    claims: &mut Vec<Run>,
    range: &Range,
    meant: Option<u32>,
    instead: Option<u32>,
) -> Result<(), Memory>
    ensures ok { OnOk result (claims.new.items ≡ cut_out range.now meant instead claims.old.items) }
    ensures err { OnErr result (claims.new.items ≡ claims.old.items) }
{
    let alloc = *claims.allocator();
    *claims = cut_each_claim(alloc, claims, range, meant, instead)?;
    Ok(())
}

/// Returns the claims after trimming the areas of the BIOS (`trim_bios_range`). RAM in the first
/// page becomes reserved, and RAM from 640 KiB to 1 MiB is removed.
///
/// # Errors
///
/// - `Memory`: the program ran out of memory.
pub fn trim_bios_claims(alloc: Global, claims: &[Run]) -> Result<Vec<Run>, Memory>
    requires { AreValidClaims claims.now }
    ensures same { IfOk result (λ left.
        claims_of left.items ≡ after_bios_trim (claims_of claims.now)) }
    ensures claims { IfOk result (λ left. AreValidClaims left.items) }
{
    let first_page = Range {
        base: 0,
        size: FRAME_SIZE,
    };
    let bios_area = Range {
        base: 0xA0000,
        size: 0x60000,
    };
    let reserved = cut_each_claim(
        alloc,
        claims,
        &first_page,
        Some(E820_TYPE_RAM),
        Some(E820_TYPE_RESERVED),
    )?;
    cut_each_claim(alloc, &reserved, &bios_area, Some(E820_TYPE_RAM), None)
}
