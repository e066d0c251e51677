//! The rule by which the size of the crash area follows from total memory.

/// The rule by which the plain form of `crashkernel=` gets its size. By both rules
/// `crashkernel=SIZE` requests SIZE bytes. They differ for ranges of total memory
/// (`parse_crashkernel_mem`).
#[derive(Clone, Copy, Debug, PartialEq, Eq)]
pub enum CrashRule {
    /// `bootmem`'s own rule. Total memory is the number of bytes in memblock's memory table, not
    /// rounded. The first range that contains this number gives the size, however large the size
    /// is.
    ExactTotal,
    /// The rule of Linux 6.1. Total memory is the number of bytes that became memory, before
    /// memblock trims them to whole frames, rounded up to a multiple of 128 MiB. The ranges are
    /// checked in order, up to the first that contains total memory. If one of them has a size of
    /// total memory or more, or ends at or below its start, the whole plain form is refused.
    RoundedTotal,
}
