//! What a line of the report `map` and a line of the report `blocks` state, as records.

ghost use Rattle.std.specs.Prelude.{◌≡◌};
ghost use Rattle.audit_lines.specs.Blocks.{bytes_of_block};
ghost use Rattle.bm_base.specs.Range.{end_of};

use bm_base::{FRAME_SIZE, Range, Zone};
use std::marker::Model;

/// A line of the report `map`: a range of addresses that all have one type in the finished memory
/// map.
#[derive(Clone, Copy, Debug, PartialEq, Eq)]
pub struct MapLine {
    /// The range of addresses.
    pub range: Range,
    /// The type of the memory (`enum e820_type`), above 0.
    pub kind: u32,
}

/// A line of the report `blocks`: a free block of the page allocator. The block ends at or below
/// address 2^52.
#[derive(Clone, Copy, Debug, PartialEq, Eq)]
pub struct BlockLine {
    /// The number of the node.
    pub node: u32,
    /// The zone to which the line assigns the block.
    pub zone: Zone,
    /// The order, from 0 to 10: the block has 2^`order` frames of 4096 bytes. The kernel's orders
    /// are below its `MAX_ORDER`, which is 11.
    pub order: u32,
    /// The address of the block's first byte. The reader accepts any address, even if it isn't a
    /// multiple of the block's size.
    pub at: u64,
}

impl Model for BlockLine {
    ghost use Rattle.audit_lines.specs.Blocks.{BlockLineView, IsBlockLine};

    ghost Value = { BlockLineView };

    ghost view = { λ b. record { node = b.node; zone = b.zone; order = b.order; at = b.at } };

    ghost invariant = { λ b.
        IsBlockLine (record { node = b.node; zone = b.zone; order = b.order; at = b.at }) };

    ghost inverse = { λ b. record { node = b.node; zone = b.zone; order = b.order; at = b.at } };
}

impl BlockLine {
    /// Returns the address after the last byte of the block.
    pub fn end(&self) -> u64
        ensures { result ≡ end_of (bytes_of_block self.now) }
    {
        self.at + (FRAME_SIZE << self.order)
    }
}
