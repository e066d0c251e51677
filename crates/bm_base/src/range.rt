//! Ranges of physical addresses, frames, and rounding to multiples.

ghost use Rattle.std.specs.Prelude.{◌≡◌, ◌+◌, ◌-◌, ◌%◌, ◌^◌, ◌<◌, ◌↔◌, SomeIff, IsTrue};
ghost use Rattle.std.specs.Int.{next_multiple_of};
ghost use Rattle.bm_base.specs.Range.{covers, end_of, Meet};
ghost use Rattle.bm_base.specs.Frames.{frames_within};

use std::marker::Model;

/// The size of a frame in bytes (`PAGE_SIZE` of x86-64). Frame n begins at address n *
/// `FRAME_SIZE` (`PFN_PHYS`).
pub const FRAME_SIZE: u64 = 4096;

/// A range of `size` bytes that begins at address `base`. The sum of both is at most 2^64 - 1, so
/// the end is a `u64` too. A range of size 0 contains no address.
#[derive(Clone, Copy, Debug, PartialEq, Eq)]
pub struct Range {
    /// The first address, in bytes.
    pub base: u64,
    /// The number of bytes.
    pub size: u64,
}

impl Model for Range {
    ghost use Rattle.std.specs.Prelude.{◌+◌, ◌^◌, ◌<◌};
    ghost use Rattle.bm_base.specs.Range.{RangeView};

    ghost Value = { RangeView };

    ghost view = { λ r. record { base = r.base; size = r.size } };

    ghost invariant = { λ r. r.base + r.size < 2 ^ 64 };

    ghost inverse = { λ r. record { base = r.base; size = r.size } };
}

impl Range {
    /// Returns the range of `size` bytes that begins at `base`, or `None` if their sum exceeds
    /// 2^64 - 1.
    pub fn new(base: u64, size: u64) -> Option<Range>
        ensures { SomeIff result (base + size < 2 ^ 64) (record { base = base; size = size }) }
    {
        base.checked_add(size)?;
        Some(Range { base, size })
    }

    /// Returns the range of the addresses from `from` up to `until`, without `until`. Returns
    /// `None` unless `from` is below `until`.
    pub fn between(from: u64, until: u64) -> Option<Range>
        ensures { SomeIff result (from < until) (record { base = from; size = until - from }) }
    {
        if until <= from {
            return None;
        }
        Some(Range {
            base: from,
            size: until - from,
        })
    }

    /// Returns the address right after the last byte.
    pub fn end(&self) -> u64
        ensures value { result ≡ end_of self.now }
        ensures small { end_of self.now < 2 ^ 64 }
    {
        self.base + self.size
    }

    /// Returns whether the address lies in the range.
    pub fn contains(&self, address: u64) -> bool
        ensures { result ≡ covers self.now address }
    {
        self.base <= address && address < self.end()
    }

    /// Returns the range of all frames that lie completely in this range, or `None` if there are
    /// none. Its base is this range's base rounded up to a frame (`PFN_UP`), its end this range's
    /// end rounded down to one (`PFN_DOWN`).
    pub fn whole_frames(&self) -> Option<Range>
        ensures { result ≡ frames_within self.now }
    {
        let from = round_up(self.base, FRAME_SIZE)?;
        Range::between(from, round_down(self.end(), FRAME_SIZE))
    }

    /// Returns whether some address lies in both ranges.
    pub fn overlaps(&self, other: &Range) -> bool
        ensures { IsTrue result ↔ Meet self.now other.now }
    {
        let first = self.base.max(other.base);
        let end = self.end().min(other.end());
        first < end
    }
}

/// Returns the least multiple of `to` at or above `x`, or `None` if it exceeds 2^64 - 1. `to`
/// must be above 0. The kernel's `round_up` (include/linux/math.h) wraps instead and takes only
/// powers of two.
pub fn round_up(x: u64, to: u64) -> Option<u64>
    requires { 0 < to }
    ensures { SomeIff result (next_multiple_of x to < 2 ^ 64) (next_multiple_of x to) }
{
    x.checked_next_multiple_of(to)
}

/// Returns the greatest multiple of `to` at or below `x`. `to` must be above 0. The kernel's
/// `round_down` (include/linux/math.h) takes only powers of two.
pub fn round_down(x: u64, to: u64) -> u64
    requires { 0 < to }
    ensures { result ≡ x - x % to }
{
    x - x % to
}
