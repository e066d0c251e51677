//! Reads one line of `map`, of `owners` and of `blocks`. The text of the line has no newline.

ghost use Rattle.std.specs.Prelude.{◌≡◌, ◌-◌, ◌^◌};
ghost use Rattle.std.specs.Option.{option_map};
ghost use Rattle.audit_lines.specs.Fields.{rest_after, is_at_end};
ghost use Rattle.audit_lines.specs.Forms.{block_in, block_if_bounded, map_type_name, map_line_in, owner_line_in, zone_in};
ghost use Rattle.bm_base.specs.Text.{padded_decimal};

use crate::fields::{address_in, number_in, range_at_start, rest_after};
use crate::lines::{BlockLine, MapLine};
use crate::names::is_owner;
use crate::report::ReportLine;
use bm_base::{FRAME_SIZE, Range, Zone};

impl ReportLine for MapLine {
    ghost use Rattle.audit_lines.specs.Forms.{map_line_in};

    ghost form = { map_line_in };

    ghost extent = { λ l. l.range };

    /// Returns the run that the line `FIRST..LAST TYPE NAME` states, such as
    /// `0x0000000000001000..0x000000000009fbff 1 usable`. Returns `None` if the text has another
    /// form.
    #[tactic(auto, unfolding(crate::specs::Forms::map_line_in))]
    fn read(_index: u64, text: &[u8]) -> Option<MapLine> {
        let Some((range, rest)) = range_at_start(text) else {
            return None;
        };
        let (kind, rest) = number_in(rest_after(rest, b" ")?, u32::MAX)?;
        if kind == 0 {
            return None;
        }
        let rest = rest_after(rest_after(rest, b" ")?, map_type_name(kind))?;
        is_at_end(rest)?;
        Some(MapLine { range, kind })
    }

    fn base(&self) -> u64 {
        self.range.base
    }

    fn end(&self) -> u64 {
        self.range.end()
    }
}

impl ReportLine for Range {
    ghost use Rattle.audit_lines.specs.Forms.{owner_line_in};

    ghost form = { owner_line_in };

    ghost extent = { λ r. r };

    /// Returns the range that the line `INDEX: FIRST..LAST OWNER` states. The owner's name is
    /// checked but not returned. Returns `None` if the text has another form.
    #[tactic(auto, unfolding(crate::specs::Forms::owner_line_in))]
    fn read(index: u64, text: &[u8]) -> Option<Range> {
        let rest = rest_after(rest_after_index(text, index)?, b": ")?;
        let Some((range, rest)) = range_at_start(rest) else {
            return None;
        };
        let name = rest_after(rest, b" ")?;
        if !is_owner(name) {
            return None;
        }
        Some(range)
    }

    fn base(&self) -> u64 {
        self.base
    }

    fn end(&self) -> u64 {
        Range::end(self)
    }
}

impl ReportLine for BlockLine {
    ghost use Rattle.audit_lines.specs.Blocks.{bytes_of_block};
    ghost use Rattle.audit_lines.specs.Forms.{block_in};

    ghost form = { block_in };

    ghost extent = { bytes_of_block };

    /// Returns the free block that the line `node N zone Z order O ADDRESS` states. Returns `None`
    /// if the text has another form, or if the block ends above 2^52.
    #[tactic(auto, unfolding(crate::specs::Forms::block_in))]
    fn read(_index: u64, text: &[u8]) -> Option<BlockLine> {
        let (node, rest) = number_in(rest_after(text, b"node ")?, u32::MAX)?;
        let (zone, rest) = zone_in(rest_after(rest, b" zone ")?)?;
        let (order, rest) = number_in(rest_after(rest, b" order ")?, 10)?;
        let (at, rest) = address_in(rest_after(rest, b" ")?)?;
        is_at_end(rest)?;
        block_if_bounded(node, zone, order, at)
    }

    fn base(&self) -> u64 {
        self.at
    }

    fn end(&self) -> u64 {
        BlockLine::end(self)
    }
}

/// Returns `Some(())` if the text is empty.
fn is_at_end(text: &[u8]) -> Option<()>
    ensures { result ≡ is_at_end text.now }
{
    if text.is_empty() { Some(()) } else { None }
}

/// If the text begins with the number `index`, right-aligned in four columns, returns the text
/// after it, else `None`.
fn rest_after_index(text: &[u8], index: u64) -> Option<&[u8]>
    ensures { option_map (λ rest. rest.now) result ≡ rest_after (padded_decimal 4 index) text.now }
{
    let mut digits = [b' '; 20];
    let start = itoa::write_digits(index, &mut digits, 20);
    let from = start.min(16);
    rest_after(text, &digits[from..])
}

/// Returns the name that the report `map` prints for a type of memory (`enum e820_type`).
#[tactic(auto, unfolding(crate::specs::Forms::map_type_name))]
fn map_type_name(kind: u32) -> &'static [u8]
    ensures { result.now ≡ map_type_name kind }
{
    match kind {
        1 => b"usable",
        2 => b"reserved",
        3 => b"ACPI data",
        4 => b"ACPI NVS",
        5 => b"unusable",
        7 => b"persistent",
        12 => b"persistent legacy",
        128 => b"usable kernel",
        0xEFFF_FFFF => b"soft reserved",
        _ => b"other",
    }
}

/// Returns the zone whose name is at the start of the text, and the text after the name. Returns
/// `None` if the text doesn't begin with `DMA`, `DMA32` or `Normal`.
#[tactic(auto, unfolding(crate::specs::Forms::zone_in))]
fn zone_in(text: &[u8]) -> Option<(Zone, &[u8])>
    ensures { option_map (λ found. (found.0, found.1.now)) result ≡ zone_in text.now }
{
    if let Some(rest) = rest_after(text, b"DMA32") {
        return Some((Zone::Dma32, rest));
    }
    if let Some(rest) = rest_after(text, b"DMA") {
        return Some((Zone::Dma, rest));
    }
    let rest = rest_after(text, b"Normal")?;
    Some((Zone::Normal, rest))
}

/// Returns the block of 2^`order` frames from address `at` on, or `None` if its order is above 10
/// or it ends above address 2^52.
fn block_if_bounded(node: u32, zone: Zone, order: u32, at: u64) -> Option<BlockLine>
    ensures { result
        ≡ block_if_bounded (record { node = node; zone = zone; order = order; at = at }) }
{
    if order > 10 {
        return None;
    }
    let size = FRAME_SIZE << order;
    if at > (1 << 52) - size {
        return None;
    }
    Some(BlockLine {
        node,
        zone,
        order,
        at,
    })
}
