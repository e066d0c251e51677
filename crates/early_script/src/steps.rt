//! Parts of running a line that need no live ID. They are outside of `Live`, so that their
//! contracts are only about memblock or numbers.

ghost use Rattle.std.specs.Prelude.{◌≡◌, ℕ, ◌+◌, ◌-◌, ◌^◌, ◌<◌, ◌≤◌, false, MatchOption};
ghost use Rattle.phys_store.specs.Bytes.{bytes_at};
ghost use Rattle.growth_model.specs.Tables.{HasFirstItem, OverlapsNoTable};
ghost use Rattle.growth_model.specs.Bytes.{Follows};
ghost use Rattle.early_script.specs.declared.outcome.Outcome.TheVariants as outcomes;
ghost use Rattle.early_script.specs.Overlaps.{is_over_table};
ghost use Rattle.early_script.specs.FromMemblock.{memblock_bytes, AnswersRefusal};

use crate::outcome::Outcome;
use arrayvec::ArrayVec;
use bm_base::{Memory, Range};
use memblock_grow::{Memblock, Refusal, no_items_no_change};

/// Converts the error of a memblock call to the outcome of the line.
///
/// # Errors
///
/// `Memory` if the error is out of memory, which is no outcome.
pub fn outcome_of_refusal(refusal: Refusal) -> Result<Outcome, Memory>
    ensures { AnswersRefusal result refusal }
{
    match refusal {
        Refusal::NoGap => Ok(Outcome::NoGap),
        Refusal::NoGapForTable { which, room } => Ok(Outcome::NoGapForTable { which, room }),
        Refusal::Memory => Err(Memory),
    }
}

/// Splits the range after its first `keep` bytes. Returns `None` if the second part would be
/// empty.
pub fn split_range(range: Range, keep: u64) -> Option<(Range, Range)>
    ensures { MatchOption result (range.size ≤ keep) (λ parts. (keep < range.size)
        × (parts.0 ≡ record { base = range.base; size = keep })
        × (parts.1 ≡ record { base = range.base + keep; size = range.size - keep })) }
{
    if range.size <= keep {
        return None;
    }
    let kept = Range {
        base: range.base,
        size: keep,
    };
    let rest = Range {
        base: range.base + keep,
        size: range.size - keep,
    };
    Some((kept, rest))
}

/// Tests whether the range has a byte in common with a table of memblock, in the table's present
/// place.
pub fn is_over_table(mb: &Memblock, range: Range) -> bool
    ensures value { result ≡ is_over_table mb.now.kernel mb.now.journal.items range }
    ensures away { result ≡ false → OverlapsNoTable mb.now.kernel range mb.now.journal.items }
{
    mb.touches_table(range)
}

/// Reads `len` bytes, at most 64, from address `at` on. Returns them as the outcome `Bytes`.
pub fn read_bytes_at(mb: &Memblock, at: u64, len: u32) -> Outcome
    requires begun { HasFirstItem mb.now.journal.items }
    requires few { len ≤ 64 }
    requires within { at + len < 2 ^ 64 }
    ensures told { result
        ≡ outcomes.Bytes (record { items = bytes_at (memblock_bytes mb.now) at len }) }
    ensures still { Follows mb.now.kernel mb.now.journal.items mb.now.journal.items
        (memblock_bytes mb.now) (memblock_bytes mb.now) }
{
    no_items_no_change(mb);
    let mut room = [0u8; 64];
    mb.peek(at, &mut room[..len as usize]);
    let mut told = ArrayVec::from(room);
    told.truncate(len as usize);
    Outcome::Bytes(told)
}
