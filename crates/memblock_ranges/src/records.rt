//! A reader for the records of a table. It finds the table's bytes in the store once; after that
//! reading a record looks only at its 24 bytes.
ghost use Rattle.std.specs.Prelude.{◌≡◌, ◌<◌, length, get_or};
ghost use Rattle.address_runs.specs.Runs.{RunOf};
ghost use Rattle.memblock_model.specs.Labels.{LabelView};
ghost use Rattle.memblock_ranges.specs.Encoding.{region_of, FitsRecord};
ghost use Rattle.memblock_ranges.specs.Tables.{AreRecords};

use crate::record::label_of;
use crate::region::{RECORD_SIZE, Region, decode_region};
use memblock_model::Label;
use std::marker::Model;

/// The records of a table, borrowed from the store. Contracts see them as a list of runs: ranges of
/// addresses with a label.
#[derive(Drop)]
pub struct Records<'a> {
    bytes: &'a [u8],
    count: u64,
}

impl<'a> Model for Records<'a> {
    ghost use Rattle.std.specs.Prelude.{List};
    ghost use Rattle.address_runs.specs.Runs.{RunOf};
    ghost use Rattle.memblock_model.specs.Labels.{LabelView};
    ghost use Rattle.memblock_ranges.specs.RecordBytes.{records_in_bytes, AreRecordBytes};

    ghost Value = { List (RunOf LabelView) };

    ghost view = { λ r. records_in_bytes r.bytes.now r.count };

    ghost invariant = { λ r. AreRecordBytes r.bytes.now r.count };
}

impl<'a> Records<'a> {
    ghost use Rattle.memblock_ranges.specs.RecordBytes.{records_in_bytes, AreRecordBytes};

    /// Returns a reader for the `count` records that are in `bytes`.
    pub(crate) fn of(bytes: &'a [u8], count: u64) -> Records<'a>
        requires { AreRecordBytes bytes.now count }
        ensures { result ≡ records_in_bytes bytes.entry.now count }
    {
        Records { bytes, count }
    }
}

impl Records<'_> {
    /// Returns the number of records.
    pub fn count(&self) -> u64
        ensures count { result ≡ length self.now }
        ensures records { AreRecords self.now }
    {
        self.count
    }

    /// Returns the record at index `i`, which is counted from 0 and must be below the count. Its
    /// end is below 2^64. Its node is at most 1,024, and 1,024 means that it has none.
    pub fn get(&self, i: u64) -> Region
        requires { i < length self.now }
        ensures region { (r : RunOf LabelView) → result ≡ region_of (get_or self.now i r) }
        ensures fits { (r : RunOf LabelView) → FitsRecord (get_or self.now i r) }
    {
        let bytes = self.bytes;
        let from = (RECORD_SIZE * i) as usize;
        decode_region(&bytes[from..from + RECORD_SIZE as usize])
    }

    /// Returns the label of the record at index `i`: its node and whether it is mirrored.
    pub fn label(&self, i: u64) -> Label
        requires { i < length self.now }
        ensures { (r : RunOf LabelView) → result ≡ (get_or self.now i r).value }
    {
        let region = self.get(i);
        label_of(region.flags, region.node)
    }
}
