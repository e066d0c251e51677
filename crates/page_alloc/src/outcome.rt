//! The outcomes of lines, and the frames that an ID holds.

/// The frames that an ID holds: `2^order` of them. The number of the first is a multiple of
/// `2^order`.
#[derive(Clone, Copy, Debug, PartialEq, Eq)]
pub struct Held {
    /// The number of the first frame.
    pub first: u64,
    /// The order, from 0 to 10.
    pub order: u32,
    /// The node of the frames.
    pub node: u32,
}

/// The outcome of a line of a page script.
#[derive(Clone, Copy, Debug, PartialEq, Eq)]
pub enum PageOutcome {
    /// The ID now holds the frames at this address, in bytes.
    At(u64),
    /// The frames that the ID held are free again.
    Done,
    /// No block on the node and in the zone is large enough. For a `near` line: no zone in the
    /// node's zone list has a block that is large enough.
    NoBlock,
    /// The ID already holds frames.
    Taken,
    /// The ID holds no frames.
    Unknown,
}

/// The outcome of the line with this number.
#[derive(Clone, Copy, Debug, PartialEq, Eq)]
pub struct PageAnswer {
    pub line: u32,
    pub outcome: PageOutcome,
}
