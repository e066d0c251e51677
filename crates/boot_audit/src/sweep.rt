//! Finds the first byte that is in a block but not free, and the first frame that is lost, by one
//! sweep over the three lists.
//!
//! A byte is *free* if it is below the limit of addresses, in memory and without an owner. The
//! sweep goes up through the addresses, and drops the lines that it has passed. Up to the next
//! address at which a line begins or ends, all bytes are in the same state, and the first
//! remaining line of each list says in which. The sweep therefore needs no list of free memory,
//! and no step for each frame.

ghost use Rattle.std.specs.Prelude.{◌≡◌, ◌^◌, ◌<◌, ◌≤◌, ◌&&◌, Bool, true, not, nat_lt, ℕ, map, None, IsNone};
ghost use Rattle.audit_lines.specs.Blocks.{bytes_of_block};
ghost use Rattle.audit_lines.specs.Lines.{AscendApart};
ghost use Rattle.bm_base.specs.Range.{RangeView, end_of};
ghost use Rattle.boot_audit.specs.Frames.{is_aligned};
ghost use Rattle.boot_audit.specs.Sweep.{FirstEndsAbove, advance_lost_frame, first_whole_frame, is_in_relevant_line, byte_state_at, byte_state_of};
ghost use Rattle.boot_audit.specs.Verdicts.{first_line_passing, is_lost, is_in_block_but_not_free, least_frame};

use crate::judgement::Saved;
use audit_lines::{BlockLine, MapLine};
use bm_base::{FRAME_SIZE, Range};

/// The address at which the sweep ends. No block of a well-formed report ends above it.
const SWEEP_END: u64 = 1 << 52;

/// The state of a byte in the sweep. A byte is free if it is below the limit of addresses, in
/// memory and without an owner. It is sound if it is in a block exactly if it is free.
#[derive(Clone, Copy, Debug, PartialEq, Eq)]
pub enum ByteState {
    /// The byte is free and in a block, or not free and in no block.
    Sound,
    /// The byte is in a block, but not free.
    NotFree,
    /// The byte is free, but in no block.
    Lost,
}

/// The lowest frame with a fault that the sweep found, if there is one. At most one of the two
/// fields has a frame number.
#[derive(Clone, Copy)]
pub struct FrameFaults {
    /// The lowest frame that is in a block but not free.
    pub not_free: Option<u64>,
    /// The lowest frame that is free but in no block. Always `None` if `not_free` has a frame.
    pub lost: Option<u64>,
}

/// A line of a report, as the sweep sees it: a range of addresses, and whether the sweep considers
/// the line.
pub trait RangeLine: Copy {
    // the range of the line's addresses
    ghost extent: { Self → RangeView };

    // whether the sweep considers the line
    ghost counted: { Self → Bool };

    /// Returns the first address of the line's range.
    fn base(&self) -> u64
        ensures { result ≡ (extent self.now).base };

    /// Returns the address after the last one of the line's range.
    fn end(&self) -> u64
        ensures { result ≡ end_of (extent self.now) };

    /// Returns whether the sweep considers the line: a line of `map` only if its type is memory (1
    /// or 128), any other line always.
    fn is_relevant(&self) -> bool
        ensures { result ≡ counted self.now };
}

impl RangeLine for MapLine {
    ghost use Rattle.boot_audit.specs.Frames.{is_memory_type};

    ghost extent = { λ l. l.range };

    ghost counted = { λ l. is_memory_type l.kind };

    fn base(&self) -> u64 {
        self.range.base
    }

    fn end(&self) -> u64 {
        self.range.end()
    }

    fn is_relevant(&self) -> bool {
        self.kind == 1 || self.kind == 128
    }
}

impl RangeLine for Range {
    ghost use Rattle.std.specs.Prelude.{true};

    ghost extent = { λ r. r };

    ghost counted = { λ r. true };

    fn base(&self) -> u64 {
        self.base
    }

    fn end(&self) -> u64 {
        Range::end(self)
    }

    fn is_relevant(&self) -> bool {
        true
    }
}

impl RangeLine for BlockLine {
    ghost use Rattle.audit_lines.specs.Blocks.{bytes_of_block};
    ghost use Rattle.std.specs.Prelude.{true};

    ghost extent = { bytes_of_block };

    ghost counted = { λ b. true };

    fn base(&self) -> u64 {
        self.at
    }

    fn end(&self) -> u64 {
        BlockLine::end(self)
    }

    fn is_relevant(&self) -> bool {
        true
    }
}

/// The bytes from some address up to but not including address `until`. `inside` says whether all
/// of them or none of them are in a line that the sweep considers.
#[derive(Clone, Copy)]
struct Coverage {
    inside: bool,
    until: u64,
}

/// Returns whether the address `at` is in a line that the sweep considers, and the next address
/// above `at` at which this may change. The lines must ascend and be disjoint, and the first must
/// end above `at`, so only the first one matters. `at` must be below 2^52.
fn coverage_at<L: RangeLine>(lines: &[L], at: u64) -> Coverage
    requires order { AscendApart (map L.extent lines.now) }
    requires after { FirstEndsAbove at (map L.extent lines.now) }
    requires near { at < 2 ^ 52 }
    ensures forward { at < result.until }
    ensures says { (x : ℕ) → at ≤ x → x < result.until
        → is_in_relevant_line L.counted L.extent lines.now x ≡ result.inside }
{
    let Some((line, _)) = lines.split_first() else {
        return Coverage {
            inside: false,
            until: SWEEP_END,
        };
    };
    let base = line.base();
    if at < base {
        return Coverage {
            inside: false,
            until: base,
        };
    }
    Coverage {
        inside: line.is_relevant(),
        until: line.end(),
    }
}

/// Drops the first lines of the list as long as they end at or below address `at`, and returns the
/// others. The lines must ascend and be disjoint.
fn skip_lines_below<L: RangeLine>(lines: &[L], at: u64) -> &[L]
    requires { AscendApart (map L.extent lines.now) }
    ensures order { AscendApart (map L.extent result.now) }
    ensures after { FirstEndsAbove at (map L.extent result.now) }
    ensures says { (x : ℕ) → at ≤ x → is_in_relevant_line L.counted L.extent result.now x
        ≡ is_in_relevant_line L.counted L.extent lines.now x }
{
    let mut rest = lines;
    while let Some((line, others)) = rest.split_first() {
        if at < line.end() {
            return rest;
        }
        rest = others;
    }
    rest
}

/// The state of all bytes from some address up to but not including address `until`.
#[derive(Clone, Copy)]
struct StateRun {
    state: ByteState,
    until: u64,
}

/// Returns whether address `at` is below the limit, and the next address above `at` at which this
/// may change. `at` must be below 2^52.
fn coverage_below_limit(limit: u64, at: u64) -> Coverage
    requires { at < 2 ^ 52 }
    ensures forward { at < result.until }
    ensures near { result.until ≤ 2 ^ 52 }
    ensures says { (x : ℕ) → at ≤ x → x < result.until → nat_lt x limit ≡ result.inside }
{
    if at < limit {
        return Coverage {
            inside: true,
            until: limit.min(SWEEP_END),
        };
    }
    Coverage {
        inside: false,
        until: SWEEP_END,
    }
}

fn is_free_state(below: bool, in_memory: bool, owned: bool) -> bool
    ensures { result ≡ ((below && in_memory) && not owned) }
{
    below && in_memory && !owned
}

fn byte_state_of(free: bool, in_block: bool) -> ByteState
    ensures { result ≡ byte_state_of free in_block }
{
    if free == in_block {
        return ByteState::Sound;
    }
    if in_block {
        ByteState::NotFree
    } else {
        ByteState::Lost
    }
}

/// Returns the state of the bytes from address `at` on, and an address above `at` up to which they
/// all have this state. Bytes at or above the address `limit` aren't free. In each list the lines
/// must ascend and be disjoint, and the first must end above `at`. `at` must be below 2^52.
fn state_run_from(
    limit: u64,
    runs: &[MapLine],
    owners: &[Range],
    blocks: &[BlockLine],
    at: u64,
) -> StateRun
    requires map_order { AscendApart (map (λ l. l.range) runs.now) }
    requires map_after { FirstEndsAbove at (map (λ l. l.range) runs.now) }
    requires owner_order { AscendApart (map (λ r. r) owners.now) }
    requires owner_after { FirstEndsAbove at (map (λ r. r) owners.now) }
    requires block_order { AscendApart (map bytes_of_block blocks.now) }
    requires block_after { FirstEndsAbove at (map bytes_of_block blocks.now) }
    requires near { at < 2 ^ 52 }
    ensures forward { at < result.until }
    ensures near { result.until ≤ 2 ^ 52 }
    ensures state { (x : ℕ) → at ≤ x → x < result.until
        → byte_state_at limit runs.now owners.now blocks.now x ≡ result.state }
{
    let below = coverage_below_limit(limit, at);
    let memory = coverage_at(runs, at);
    let owned = coverage_at(owners, at);
    let held = coverage_at(blocks, at);
    let free = is_free_state(below.inside, memory.inside, owned.inside);
    StateRun {
        state: byte_state_of(free, held.inside),
        until: below
            .until
            .min(memory.until)
            .min(owned.until)
            .min(held.until),
    }
}

/// Returns the number of the lowest frame whose 4096 bytes are all at addresses from `from` up to
/// but not including `until`. Returns `None` if there is no such frame.
fn first_whole_frame(from: u64, until: u64) -> Option<u64>
    requires { from ≤ 2 ^ 52 }
    ensures { result ≡ first_whole_frame from until }
{
    let frame = (from + FRAME_SIZE - 1) / FRAME_SIZE;
    if until < frame * FRAME_SIZE + FRAME_SIZE {
        return None;
    }
    Some(frame)
}

/// Takes the next piece of bytes into account. `lost` is the lowest lost frame (free, but in no
/// block) found below the piece, and `from` the address at which the lost bytes that end where the
/// piece begins start. Returns these two values for the end of the piece. If the piece's bytes
/// aren't lost, the second value is `piece.until`.
fn advance_lost_frame(lost: Option<u64>, from: u64, piece: StateRun) -> (Option<u64>, u64)
    requires { from ≤ 2 ^ 52 }
    ensures { result ≡ advance_lost_frame lost from piece.until piece.state }
{
    if let ByteState::Lost = piece.state {
        let found = first_whole_frame(from, piece.until);
        return (if lost.is_some() { lost } else { found }, from);
    }
    (lost, piece.until)
}

/// Returns the lowest frame that is in a block but not free. If there is none, returns the lowest
/// frame that is free but in no block. A frame is free if all its bytes are below the address
/// `limit`, in memory and without an owner. In each report the lines must ascend and be disjoint,
/// and the address of each block must be a multiple of its size.
pub fn sweep(saved: &Saved, limit: u64) -> FrameFaults
    requires map_order { AscendApart (map (λ l. l.range) saved.now.map.items) }
    requires owner_order { AscendApart (map (λ r. r) saved.now.owners.items) }
    requires block_order { AscendApart (map bytes_of_block saved.now.blocks.items) }
    requires aligned { first_line_passing (λ b. not (is_aligned b)) 1 saved.now.blocks.items ≡
        None }
    ensures not_free { result.not_free
        ≡ least_frame (is_in_block_but_not_free limit saved.now.map.items saved.now.owners.items
        saved.now.blocks.items) }
    ensures lost { IsNone result.not_free
        → result.lost ≡ least_frame (is_lost limit saved.now.map.items
        saved.now.owners.items saved.now.blocks.items) }
{
    let mut runs = skip_lines_below(&saved.map, 0);
    let mut owners = skip_lines_below(&saved.owners, 0);
    let mut held = skip_lines_below(&saved.blocks, 0);
    let mut at = 0;
    let mut from = 0;
    let mut lost = None;
    while at < SWEEP_END {
        let piece = state_run_from(limit, runs, owners, held, at);
        if let ByteState::NotFree = piece.state {
            return FrameFaults {
                not_free: Some(at / FRAME_SIZE),
                lost: None,
            };
        }
        let next = advance_lost_frame(lost, from, piece);
        lost = next.0;
        from = next.1;
        at = piece.until;
        runs = skip_lines_below(runs, at);
        owners = skip_lines_below(owners, at);
        held = skip_lines_below(held, at);
    }
    FrameFaults {
        not_free: None,
        lost,
    }
}
