//! Returns the frames of one record. A reserved record may begin and end inside a frame, which
//! then counts as a whole. A record of memory consists of whole frames. One function can
//! therefore be used for both tables.

ghost use Rattle.std.specs.Prelude.{◌≡◌, ◌^◌, ◌<◌, get_or};
ghost use Rattle.address_runs.specs.Runs.{RunOf};
ghost use Rattle.memblock_model.specs.Labels.{LabelView};
ghost use Rattle.memblock_ranges.specs.Tables.{records_of_head};
ghost use Rattle.memblock_frames.specs.Frames.{frames_of_record};
ghost use Rattle.memblock_frames.specs.HeadRecords.{HasRecords};

use bm_base::{FRAME_SIZE, MAX_NODES};
use memblock_ranges::{Head, region_at};
use phys_store::Store;

/// The frames that overlap a record, and their node.
#[derive(Clone, Copy, Debug, PartialEq, Eq)]
pub struct RecordFrames {
    /// The frame of the record's first byte.
    pub first: u64,
    /// One more than the frame of the record's last byte.
    pub end: u64,
    /// The node, if the node field of the record is below [`MAX_NODES`].
    pub node: Option<u32>,
}

/// Returns the frames of the record with index `i`, counted from 0, in the table at this head.
pub fn frames_of_record(store: &Store, head: &Head, i: u64) -> RecordFrames
    requires table { HasRecords store.now head.now (2 ^ 64) }
    requires within { i < head.now.count }
    ensures { (r : RunOf LabelView)
        → result ≡ frames_of_record (get_or (records_of_head store.now head.now) i r) }
{
    let region = region_at(store, head, i);
    let last = region.base + (region.size - 1);
    RecordFrames {
        first: region.base / FRAME_SIZE,
        end: last / FRAME_SIZE + 1,
        node: if region.node < MAX_NODES {
            Some(region.node)
        } else {
            None
        },
    }
}
