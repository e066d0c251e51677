//! The outcome of `crashkernel=`.

use bm_base::Range;

/// The outcome of reserving the crash area. The boot continues after each of these.
#[derive(Clone, Copy, Debug, PartialEq, Eq)]
pub enum Crash {
    /// Neither the plain nor the high form of `crashkernel=` requests any memory.
    Nothing,
    /// The area is claimed. Its low part is claimed too if the area lies at or above 4 GiB and
    /// the low part's size isn't 0.
    At { main: Range, low: Option<Range> },
    /// No free range fits the area (the kernel logs `No suitable area found`).
    NoArea,
    /// The requested base isn't a multiple of 1 MiB, or the range at that base isn't entirely free
    /// memory of one node (the kernel logs `memory is in use`). A range that would end past 2^64 -
    /// 1 counts as not free.
    InUse,
    /// No free range below 4 GiB fits the low part, and the area was freed again (the kernel logs
    /// `Cannot reserve ..MB crashkernel low memory`).
    LowFailed,
}
