//! The outcomes of lines of the early script. If memblock refuses a request, that is an outcome,
//! and the next line follows. Out of memory isn't an outcome: it ends the boot.

use arrayvec::ArrayVec;
use memblock_model::Which;

/// The outcome of a line of the early script. The line succeeded if it is `At`, `Done` or `Bytes`.
/// After any other outcome nothing has changed, with one exception: before `NoGapForTable`, a table
/// may have grown, and that growth stays.
#[derive(Debug, Drop, PartialEq, Eq)]
pub enum Outcome {
    /// An `alloc` line claimed the range at this address for its ID.
    At(u64),
    /// The line was carried out, and has no value to return.
    Done,
    /// The bytes that were read, in the order of their addresses.
    Bytes(ArrayVec<u8, 64>),
    /// No free place fits the request.
    NoGap,
    /// A table of memblock had to grow and no place was found for it (`memblock_double_array`).
    /// `room` is the number of records that it has room for, which was too small.
    NoGapForTable { which: Which, room: u64 },
    /// The ID is live already.
    Taken,
    /// The ID isn't live.
    Unknown,
    /// Some byte of the ID's range has another owner, or none.
    NotWhole,
    /// The range of a `reserve` line overlaps a table of memblock.
    TableInUse,
    /// A `trim` line would keep at least as many bytes as the ID has.
    TooLargeKeep,
    /// The ID of a `fill` line has more than 65,536 bytes.
    TooLargeFill,
}

/// The outcome of one line, with the line's number.
#[derive(Debug, Drop, PartialEq, Eq)]
pub struct Answer {
    /// The number of the line in the script.
    pub line: u32,
    pub outcome: Outcome,
}
