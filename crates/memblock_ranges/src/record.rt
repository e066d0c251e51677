//! Records as edits see them (runs of addresses with one label), and their conversion from and to
//! bytes. No other file of this crate converts a label.
ghost use Rattle.std.specs.Prelude.{◌≡◌, ◌+◌, ◌^◌, ◌<◌, ◌≤◌, length};
ghost use Rattle.memblock_ranges.specs.Encoding.{encode_fields, node_of_field, label_of, flags_field, node_field, decode_record, encode_record, region_of, FitsRecord, IsRecord};

use crate::region::{RECORD_SIZE, Region, decode_region};
use address_runs::RunOf;
use bm_base::Range;
use byteorder::{ByteOrder, LittleEndian};
use memblock_model::Label;

/// The node field of a record without a node (`MAX_NUMNODES`).
pub const NO_NODE: u32 = 1024;

/// A record as an edit sees it: a run of addresses with one label.
pub type Record = RunOf<Label>;

/// Returns the node that a record's node field means, or `None` for 1,024.
pub fn node_of_field(field: u32) -> Option<u32>
    ensures { result ≡ node_of_field field }
{
    if field == NO_NODE { None } else { Some(field) }
}

/// Returns the label for these flags and this node field: mirrored if the flags are 2, and without
/// a node if the field is 1,024.
pub fn label_of(flags: u32, node: u32) -> Label
    requires { node ≤ 1024 }
    ensures { result ≡ label_of flags node }
{
    Label::from_parts(node_of_field(node), flags)
}

/// Returns the node field of the label: the node, or 1,024 if it has none.
pub fn node_field(label: Label) -> u32
    ensures value { result ≡ node_field label }
    ensures most { result ≤ 1024 }
    ensures back { label_of (flags_field label) result ≡ label }
{
    match label.node() {
        Some(node) => node,
        None => NO_NODE,
    }
}

/// Decodes a record from 24 bytes.
pub fn decode_record(bytes: &[u8]) -> Record
    requires long { length bytes.now ≡ 24 }
    requires record { IsRecord bytes.now }
    ensures { result ≡ decode_record bytes.now }
{
    let region = decode_region(bytes);
    RunOf {
        range: Range {
            base: region.base,
            size: region.size,
        },
        value: label_of(region.flags, region.node),
    }
}

/// Encodes the four fields of a record as 24 little-endian bytes.
#[tactic(auto, unfolding(crate::specs::Encoding::encode_fields))]
fn encode_fields(base: u64, size: u64, flags: u32, node: u32) -> [u8; 24]
    ensures { result ≡ encode_fields base size flags node }
{
    let mut bytes = [0; RECORD_SIZE as usize];
    LittleEndian::write_u64(&mut bytes, base);
    LittleEndian::write_u64(&mut bytes[8..], size);
    LittleEndian::write_u32(&mut bytes[16..], flags);
    LittleEndian::write_u32(&mut bytes[20..], node);
    bytes
}

/// Encodes the record `run` in 24 bytes, from which it can be decoded again.
pub fn encode_record(run: &Record) -> [u8; 24]
    ensures bytes { result ≡ encode_record run.now }
    ensures fits { FitsRecord run.now }
{
    encode_fields(
        run.range.base,
        run.range.size,
        run.value.flags(),
        node_field(run.value),
    )
}

/// Returns the four fields of the record `run` as plain numbers. The record can be computed from
/// them.
pub fn region_of(run: &Record) -> Region
    ensures region { result ≡ region_of run.now }
    ensures fits { FitsRecord run.now }
{
    Region {
        base: run.range.base,
        size: run.range.size,
        flags: run.value.flags(),
        node: node_field(run.value),
    }
}
