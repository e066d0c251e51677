//! The parameters of a search and of an allocation, and the modes of a search.

/// What a search looks for (`memblock_find_in_range_node`): a range of free memory. Addresses and
/// sizes are in bytes.
#[derive(Clone, Copy, Debug, PartialEq, Eq)]
pub struct Query {
    /// The found range begins at or above this address.
    pub lo: u64,
    /// The found range ends at or below this address.
    pub hi: u64,
    /// The size of the range in bytes, at least 1.
    pub size: u64,
    /// The alignment of the range's first address in bytes, a power of two.
    pub align: u64,
    /// The node that the range must be on, or `None` for any node.
    pub node: Option<u32>,
}

/// Which memory a search may return, and the direction of the search (`choose_memblock_flags`,
/// `memblock_bottom_up`).
#[derive(Clone, Copy, Debug, PartialEq, Eq)]
pub struct Mode {
    /// Whether the found range must be mirrored memory (`MEMBLOCK_MIRROR`).
    pub mirror: bool,
    /// Whether the search returns the lowest range that fits, instead of the highest.
    pub up: bool,
}

/// What an allocation asks for (`memblock_alloc_range_nid`). Addresses and sizes are in bytes.
#[derive(Clone, Copy, Debug, PartialEq, Eq)]
pub struct Request {
    /// The size of the range in bytes, at least 1.
    pub size: u64,
    /// The alignment of the range's first address in bytes, a power of two.
    pub align: u64,
    /// The preferred lowest address of the range, or 0. If nothing fits at or above it, lower
    /// addresses are tried too.
    pub min: u64,
    /// The range ends at or below this address, if there is one. It also ends at or below the
    /// limit of allocations (`memblock.current_limit`).
    pub max: Option<u64>,
    /// The preferred node, or `None` for any node.
    pub node: Option<u32>,
    /// Whether the range must be on the preferred node. If this is false and nothing fits on that
    /// node, any node is tried.
    pub exact: bool,
}
