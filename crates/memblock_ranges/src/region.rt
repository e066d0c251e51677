//! The record of a table and the head of a table, as plain numbers. [`region_at`] reads a record
//! with only the store and the head of a table. It decodes any 24 bytes, so a [`Region`] has no
//! invariant.
ghost use Rattle.std.specs.Prelude.{◌≡◌, ◌+◌, ◌*◌, ◌^◌, ◌<◌, ◌≤◌, length};
ghost use Rattle.phys_store.specs.Bytes.{byte_of, bytes_at};
ghost use Rattle.memblock_ranges.specs.Encoding.{decode_region};

use byteorder::{ByteOrder, LittleEndian};
use phys_store::Store;

/// The size of a record in bytes.
pub const RECORD_SIZE: u64 = 24;

/// One record of a table (`struct memblock_region`): a range of addresses, its flags and its node.
#[derive(Clone, Copy, Debug, PartialEq, Eq)]
pub struct Region {
    /// The first address, in bytes.
    pub base: u64,
    /// The number of bytes.
    pub size: u64,
    /// 2 for mirrored memory (`MEMBLOCK_MIRROR`), else 0 (`MEMBLOCK_NONE`).
    pub flags: u32,
    /// The node, or 1,024 for none (`MAX_NUMNODES`).
    pub node: u32,
}

/// The head of a table: its address, its room and its number of records (`struct memblock_type`).
#[derive(Clone, Copy, Debug, PartialEq, Eq)]
pub struct Head {
    /// The address of the table's first byte.
    pub place: u64,
    /// The number of records that the table has room for.
    pub room: u64,
    /// The number of records that the table has.
    pub count: u64,
}

/// The heads of both tables.
#[derive(Clone, Copy, Debug, PartialEq, Eq)]
pub struct Heads {
    pub memory: Head,
    pub reserved: Head,
}

/// Decodes a record from any 24 bytes, without a check.
#[tactic(auto, unfolding(crate::specs::Encoding::base_in, crate::specs::Encoding::size_in, crate::specs::Encoding::flags_in, crate::specs::Encoding::node_in))]
pub fn decode_region(bytes: &[u8]) -> Region
    requires { length bytes.now ≡ 24 }
    ensures { result ≡ decode_region bytes.now }
{
    Region {
        base: LittleEndian::read_u64(bytes),
        size: LittleEndian::read_u64(&bytes[8..]),
        flags: LittleEndian::read_u32(&bytes[16..]),
        node: LittleEndian::read_u32(&bytes[20..]),
    }
}

/// Decodes the record at index `i`, counted from 0, of the table that `head` describes. Bytes whose
/// address isn't prepared read as 0.
pub fn region_at(store: &Store, head: &Head, i: u64) -> Region
    requires { head.now.place + 24 * i + 24 < 2 ^ 64 }
    ensures { result ≡ decode_region (bytes_at (byte_of store.now) (head.now.place + 24 * i) 24) }
{
    let mut bytes = [0; RECORD_SIZE as usize];
    store.read(head.place + RECORD_SIZE * i, &mut bytes);
    decode_region(&bytes)
}
