//! The live IDs, and the lines that are run on them. Only the range of each ID is kept here. The
//! journal knows whether the ID still owns all of that range, since another line may have claimed
//! a part of it.

ghost use Rattle.std.specs.Prelude.{◌≡◌, ℕ, ◌+◌, ◌-◌, ◌^◌, ◌<◌, ◌≤◌, List, [], OnOk, OnErr, IfOk, IfErr, IsOk};
ghost use Rattle.bm_base.specs.Range.{RangeView};
ghost use Rattle.script_reader.specs.Forms.{HasBounds};
ghost use Rattle.growth_model.specs.Tables.{HasFirstItem, OverlapsNoTable};
ghost use Rattle.growth_model.specs.Bytes.{Fill, AreBytesFromHistory};
ghost use Rattle.memblock_grow.specs.Continues.{ContinuesMemblock};
ghost use Rattle.memblock_grow.specs.Invariant.{StayPrepared};

use crate::outcome::Outcome;
use crate::steps::{is_over_table, outcome_of_refusal, read_bytes_at, split_range};
use bm_base::{Memory, Range};
use memblock_grow::{Memblock, Request, no_items_no_change};
use memblock_model::Owner;
use script_reader::{Act, Line};
use std::alloc::Global;
use std::collections::BTreeMap;
use std::marker::Model;

/// The largest number of bytes that a `fill` writes.
const MAX_FILL_BYTES: u64 = 65_536;

/// The live IDs of the script, each with its range. An ID becomes live when a line gets memory for
/// it, and stays live until a line frees the ID. No range is empty.
#[derive(Debug, Drop)]
pub struct Live {
    ids: BTreeMap<u32, Range>,
}

impl Model for Live {
    ghost use Rattle.early_script.specs.LiveView.{LiveView, RangesHaveBytes};

    ghost Value = { LiveView };

    ghost view = { λ l. l.ids.entries };

    ghost invariant = { λ l. RangesHaveBytes l.ids.entries };
}

impl Live {
    ghost use Rattle.early_script.specs.LiveView.{is_live, with_range};
    ghost use Rattle.early_script.specs.Effects.{LineEffect, EndsAsLine, CanBeRun, OnlyAnswers, byte_after_line, fills_after_line, answer_only, on_range_of_id, act_effect, alloc_effect, reserve_effect, free_effect, trim_effect, fill_effect};
    ghost use Rattle.early_script.specs.FromMemblock.{state_of_memblock, memblock_bytes};

    /// Returns an empty map: no ID is live.
    pub fn new(alloc: Global) -> Live
        ensures { result ≡ [] }
    {
        Live {
            ids: BTreeMap::new(alloc),
        }
    }

    /// Runs one line and returns its outcome. The line must not be `sections`, which the boot runs
    /// itself. Its numbers must be within the bounds that `script_reader` guarantees. A line that
    /// writes nothing and only returns an outcome, such as `peek`, can't fail.
    ///
    /// # Errors
    ///
    /// `Memory` if this program is out of memory. A table of memblock may have grown by then and
    /// the line's range may be claimed or freed, but the live IDs are unchanged.
    pub fn run_line(&mut self, mb: &mut Memblock, line: &Line) -> Result<Outcome, Memory>
        requires begun { HasFirstItem mb.old.journal.items }
        requires run { CanBeRun line.now.act }
        requires bounds { HasBounds line.now.act }
        ensures acts { EndsAsLine result (state_of_memblock self.old mb.old)
            (state_of_memblock self.new mb.new)
            (act_effect (state_of_memblock self.old mb.old) (memblock_bytes mb.old) line.now.act) }
        ensures answered { OnlyAnswers (state_of_memblock self.old mb.old)
            (act_effect (state_of_memblock self.old mb.old) (memblock_bytes mb.old) line.now.act)
            → IsOk result }
        ensures bytes { (x : ℕ) → memblock_bytes mb.new x ≡ byte_after_line result
            (state_of_memblock self.old mb.old) (state_of_memblock self.new mb.new)
            (act_effect (state_of_memblock self.old mb.old) (memblock_bytes mb.old) line.now.act) x
            (memblock_bytes mb.old x) }
        ensures holds { (fills : List Fill)
            → AreBytesFromHistory mb.old.kernel mb.old.journal.items fills (memblock_bytes mb.old) →
            AreBytesFromHistory mb.new.kernel mb.new.journal.items
            (fills_after_line result (act_effect (state_of_memblock self.old mb.old)
            (memblock_bytes mb.old) line.now.act) fills) (memblock_bytes mb.new) }
        ensures still_ready { StayPrepared mb.old.tables.store mb.new.tables.store }
    {
        match line.act {
            Act::Alloc { id, request } => self.alloc(mb, id, &request),
            Act::Reserve { id, range } => self.reserve(mb, id, range),
            Act::Free { id } => self.free(mb, id),
            Act::Trim { id, keep } => self.trim(mb, id, keep),
            Act::Fill { id, byte } => self.fill(mb, id, byte),
            Act::Peek { at, len } => Ok(read_bytes_at(mb, at, len)),
            Act::Sections => unreachable!(),
        }
    }

    /// Runs an `alloc` line: claims the place that memblock finds for the request, and makes the ID
    /// live with that range. The outcome is `Taken` if the ID is live already.
    ///
    /// # Errors
    ///
    /// `Memory` if this program is out of memory. A table of memblock may have grown and the range
    /// may be claimed by then, but the live IDs are unchanged.
    fn alloc(&mut self, mb: &mut Memblock, id: u32, request: &Request) -> Result<Outcome, Memory>
        requires begun { HasFirstItem mb.old.journal.items }
        requires some { 1 ≤ request.now.size }
        requires aligned { (k : ℕ) × (request.now.align ≡ 2 ^ k) }
        ensures acts { EndsAsLine result (state_of_memblock self.old mb.old)
            (state_of_memblock self.new mb.new)
            (alloc_effect (state_of_memblock self.old mb.old) id request.now) }
        ensures goes_on { ContinuesMemblock mb.old mb.new }
    {
        no_items_no_change(mb);
        // The outcome for a live ID is `Taken`, even if no place fits.
        if self.is_live(id) {
            return Ok(Outcome::Taken);
        }
        match mb.alloc(request, Owner::Script(id)) {
            Ok(base) => {
                let range = Range {
                    base,
                    size: request.size,
                };
                self.set_range(id, range)?;
                Ok(Outcome::At(base))
            }
            Err(refusal) => outcome_of_refusal(refusal),
        }
    }

    /// Runs a `reserve` line: claims the range and makes the ID live with it. The outcome is
    /// `Taken` if the ID is live already, and `TableInUse` if the range overlaps a table of
    /// memblock.
    ///
    /// # Errors
    ///
    /// `Memory` if this program is out of memory. A table of memblock may have grown and the range
    /// may be claimed by then, but the live IDs are unchanged.
    fn reserve(&mut self, mb: &mut Memblock, id: u32, range: Range) -> Result<Outcome, Memory>
        requires begun { HasFirstItem mb.old.journal.items }
        requires some { 0 < range.size }
        ensures acts { EndsAsLine result (state_of_memblock self.old mb.old)
            (state_of_memblock self.new mb.new)
            (reserve_effect (state_of_memblock self.old mb.old) id range) }
        ensures goes_on { ContinuesMemblock mb.old mb.new }
    {
        no_items_no_change(mb);
        if self.is_live(id) {
            return Ok(Outcome::Taken);
        }
        if is_over_table(mb, range) {
            return Ok(Outcome::TableInUse);
        }
        match mb.claim(range, Owner::Script(id)) {
            Ok(()) => {
                self.set_range(id, range)?;
                Ok(Outcome::Done)
            }
            Err(refusal) => outcome_of_refusal(refusal),
        }
    }

    /// Runs a `free` line: frees the whole range of the ID, which is then no longer live.
    ///
    /// # Errors
    ///
    /// `Memory` if this program is out of memory. A table of memblock may have grown by then. The
    /// range isn't freed, and the ID stays live.
    fn free(&mut self, mb: &mut Memblock, id: u32) -> Result<Outcome, Memory>
        requires { HasFirstItem mb.old.journal.items }
        ensures acts { EndsAsLine result (state_of_memblock self.old mb.old)
            (state_of_memblock self.new mb.new)
            (free_effect (state_of_memblock self.old mb.old) id) }
        ensures goes_on { ContinuesMemblock mb.old mb.new }
    {
        no_items_no_change(mb);
        let range = match self.owned_range(mb, id) {
            Ok(range) => range,
            Err(outcome) => return Ok(outcome),
        };
        if let Err(refusal) = mb.free(range) {
            return outcome_of_refusal(refusal);
        }
        let _ = self.ids.remove(&id);
        Ok(Outcome::Done)
    }

    /// Runs a `trim` line: frees all bytes of the ID's range except the first `keep`, and shortens
    /// the ID's range to these.
    ///
    /// # Errors
    ///
    /// `Memory` if this program is out of memory. A table of memblock may have grown and the bytes
    /// may be free by then, but the live IDs are unchanged.
    fn trim(&mut self, mb: &mut Memblock, id: u32, keep: u64) -> Result<Outcome, Memory>
        requires begun { HasFirstItem mb.old.journal.items }
        requires some { 0 < keep }
        ensures acts { EndsAsLine result (state_of_memblock self.old mb.old)
            (state_of_memblock self.new mb.new)
            (trim_effect (state_of_memblock self.old mb.old) id keep) }
        ensures goes_on { ContinuesMemblock mb.old mb.new }
    {
        no_items_no_change(mb);
        let range = match self.owned_range(mb, id) {
            Ok(range) => range,
            Err(outcome) => return Ok(outcome),
        };
        let Some((kept, rest)) = split_range(range, keep) else {
            return Ok(Outcome::TooLargeKeep);
        };
        match mb.free(rest) {
            Ok(()) => {
                self.set_range(id, kept)?;
                Ok(Outcome::Done)
            }
            Err(refusal) => outcome_of_refusal(refusal),
        }
    }

    /// Runs a `fill` line: writes `byte` to each byte of the ID's range.
    ///
    /// # Errors
    ///
    /// `Memory` if this program is out of memory. Nothing has then changed.
    fn fill(&mut self, mb: &mut Memblock, id: u32, byte: u8) -> Result<Outcome, Memory>
        requires { HasFirstItem mb.old.journal.items }
        ensures acts { EndsAsLine result (state_of_memblock self.old mb.old)
            (state_of_memblock self.new mb.new)
            (fill_effect (state_of_memblock self.old mb.old) id byte) }
        ensures bytes { (x : ℕ) → memblock_bytes mb.new x ≡ byte_after_line result
            (state_of_memblock self.old mb.old) (state_of_memblock self.new mb.new)
            (fill_effect (state_of_memblock self.old mb.old) id byte) x (memblock_bytes mb.old x) }
        ensures holds { (fills : List Fill)
            → AreBytesFromHistory mb.old.kernel mb.old.journal.items fills (memblock_bytes mb.old) →
            AreBytesFromHistory mb.new.kernel mb.new.journal.items
            (fills_after_line result (fill_effect (state_of_memblock self.old mb.old) id byte)
            fills) (memblock_bytes mb.new) }
        ensures still_ready { StayPrepared mb.old.tables.store mb.new.tables.store }
    {
        no_items_no_change(mb);
        let range = match self.owned_range(mb, id) {
            Ok(range) => range,
            Err(outcome) => return Ok(outcome),
        };
        if range.size > MAX_FILL_BYTES {
            return Ok(Outcome::TooLargeFill);
        }
        mb.fill(range, byte)?;
        Ok(Outcome::Done)
    }

    /// Tests whether the ID is live.
    fn is_live(&self, id: u32) -> bool
        ensures { result ≡ is_live self.now id }
    {
        self.ids.contains_key(&id)
    }

    /// Sets the range of the ID, which becomes live if it isn't.
    ///
    /// # Errors
    ///
    /// `Memory` if this program is out of memory. The IDs are then unchanged.
    fn set_range(&mut self, id: u32, range: Range) -> Result<(), Memory>
        requires { 0 < range.size }
        ensures ok { OnOk result (self.new ≡ with_range self.old id range) }
        ensures err { OnErr result (self.new ≡ self.old) }
    {
        self.ids.insert(id, range)?;
        Ok(())
    }

    /// Returns the range of the ID, if it is live and still owns all of the range.
    ///
    /// # Errors
    ///
    /// The outcome of a line that uses the ID:
    ///
    /// - `Unknown` if the ID isn't live.
    /// - `NotWhole` if some byte of its range has another owner, or none.
    fn owned_range(&self, mb: &Memblock, id: u32) -> Result<Range, Outcome>
        requires { HasFirstItem mb.now.journal.items }
        ensures range { IfOk result (λ range. (act_effect : RangeView → LineEffect)
            → on_range_of_id (state_of_memblock self.now mb.now) id act_effect ≡ act_effect range) }
        ensures some { IfOk result (λ range. 0 < range.size) }
        ensures away { IfOk result (λ range.
            OverlapsNoTable mb.now.kernel range mb.now.journal.items) }
        ensures outcome { IfErr result (λ outcome. (act_effect : RangeView → LineEffect) →
            on_range_of_id (state_of_memblock self.now mb.now) id act_effect
            ≡ answer_only (state_of_memblock self.now mb.now) outcome) }
    {
        let Some(range) = self.ids.get(&id).copied() else {
            return Err(Outcome::Unknown);
        };
        if !mb.journal().owns(&range, Owner::Script(id)) {
            return Err(Outcome::NotWhole);
        }
        Ok(range)
    }
}
