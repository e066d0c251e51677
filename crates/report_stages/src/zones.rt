//! Writes the reports `zones` and `buddyinfo`. Their lines are of spans: the range of frames of one
//! node in one zone. `zones` prints each span and the number of free frames of its node and zone.
//! `buddyinfo` prints the number of free blocks of each order, for zones that have memory of the
//! node. Both count with `Buddy::count`, without a list of blocks.

ghost use Rattle.std.specs.Prelude.{◌≡◌, [], ◌∷◌, ◌++◌, codes, decimal};
ghost use Rattle.bm_base.specs.PutsText.{PutsText};
ghost use Rattle.bm_base.specs.Text.{padded_decimal};
ghost use Rattle.buddy_blocks.specs.BlockList.{blocks_of};
ghost use Rattle.buddy_handover.specs.BuddyView.{node_of_free_frame};
ghost use Rattle.report_stages.specs.ZonesText.{buddyinfo_line, buddyinfo_text, block_counts_text, frames_in_zone, padded_zone, zone_line, zones_text};
ghost use Rattle.bm_base.specs.Zones.{zone_name};

use crate::words::put_word_dec;
use bm_base::{Memory, Zone, put_dec, put_text};
use buddy_handover::{Buddy, MAX_ORDER};
use report_memory::put_indexed_lines;
use zone_spans::Span;

/// Appends the report `zones`: a line for each span, the range of frames of one node in one zone,
/// with the number of free frames of this node and zone.
///
/// # Errors
///
/// - `Memory`: the program ran out of memory; the text is incomplete.
pub fn put_zones(text: &mut Vec<u8>, spans: &[Span], buddy: &Buddy) -> Result<(), Memory>
    ensures { PutsText text.old text.new result (zones_text (node_of_free_frame buddy.now)
        spans.now) }
{
    put_indexed_lines(text, spans, |text: &mut Vec<u8>, index: u64, span: &Span| {
        put_zone_line(text, index, span, buddy)
    })
}

/// Appends the numbers of free blocks, in the format of `/proc/buddyinfo`: a line for each span
/// (node and zone) whose zone has memory of the node, with the number of free blocks of each order
/// from 0 to 10.
///
/// # Errors
///
/// - `Memory`: the program ran out of memory; the text is incomplete.
pub fn put_buddyinfo(text: &mut Vec<u8>, spans: &[Span], buddy: &Buddy) -> Result<(), Memory>
    ensures { PutsText text.old text.new result
        (buddyinfo_text (node_of_free_frame buddy.now) spans.now) }
{
    put_indexed_lines(text, spans, |text: &mut Vec<u8>, index: u64, span: &Span| {
        put_populated_line(text, index, span, buddy)
    })
}

/// Returns the name of a zone (`zone_names`), such as `DMA32`.
pub fn zone_name(zone: Zone) -> &'static str
    ensures { result.now ≡ zone_name zone }
{
    match zone {
        Zone::Dma => "DMA",
        Zone::Dma32 => "DMA32",
        Zone::Normal => "Normal",
    }
}

/// Appends the line of a span: its first frame, the frame after its last, the number of its frames
/// that are memory, and the number of free frames of its node and zone.
fn put_zone_line(text: &mut Vec<u8>, index: u64, span: &Span, buddy: &Buddy) -> Result<(), Memory>
    ensures { PutsText text.old text.new result
        (zone_line (blocks_of (node_of_free_frame buddy.now)) index span.now) }
{
    put_node_and_zone_word(text, span.node)?;
    put_text(text, zone_name(span.zone).as_bytes())?;
    put_word_dec(text, b" start ", span.start)?;
    put_word_dec(text, b" end ", span.end)?;
    put_word_dec(text, b" present ", span.present)?;
    put_word_dec(
        text,
        b" free ",
        free_frames_in_zone(buddy, span.node, span.zone),
    )?;
    put_text(text, b"\n")
}

/// Appends the line of `buddyinfo` for a span, or nothing if its zone has no memory of the node
/// (`walk_zones_in_node`).
#[tactic(auto, using(crate::proofs::ZoneLaws::line_of_populated))]
fn put_populated_line(
    text: &mut Vec<u8>,
    index: u64,
    span: &Span,
    buddy: &Buddy,
) -> Result<(), Memory>
    ensures { PutsText text.old text.new result
        (buddyinfo_text (node_of_free_frame buddy.now) (span.now ∷ [])) }
{
    if span.present == 0 {
        return Ok(());
    }
    put_buddyinfo_line(text, index, span, buddy)
}

/// Appends the line of a span: its node, its zone, and the number of free blocks of each order from
/// 0 to 10.
#[tactic(auto, unfolding(crate::specs::ZonesText::buddyinfo_line))]
fn put_buddyinfo_line(
    text: &mut Vec<u8>,
    index: u64,
    span: &Span,
    buddy: &Buddy,
) -> Result<(), Memory>
    ensures { PutsText text.old text.new result
        (buddyinfo_line (blocks_of (node_of_free_frame buddy.now)) index span.now) }
{
    put_node_and_zone_word(text, span.node)?;
    put_padded_zone(text, span.zone)?;
    put_text(text, b" ")?;
    put_block_counts(text, span, buddy)?;
    put_text(text, b"\n")
}

/// Appends `Node `, the number of the node, and `, zone `: the start of a line before the name of
/// the zone.
fn put_node_and_zone_word(text: &mut Vec<u8>, node: u32) -> Result<(), Memory>
    ensures { PutsText text.old text.new result (codes "Node " ++ decimal node ++ codes ", zone ") }
{
    put_word_dec(text, b"Node ", u64::from(node))?;
    put_text(text, b", zone ")
}

/// Appends the name of a zone, right-aligned in eight columns.
fn put_padded_zone(text: &mut Vec<u8>, zone: Zone) -> Result<(), Memory>
    ensures { PutsText text.old text.new result (padded_zone zone) }
{
    let name = zone_name(zone);
    let spaces = [b' '; 8];
    put_text(text, &spaces[name.len()..])?;
    put_text(text, name.as_bytes())
}

/// Appends the number of free blocks of each order from 0 to 10 in the node and zone of the span,
/// each in six columns and followed by a space.
#[tactic(auto, unfolding(crate::specs::ZonesText::block_counts_text))]
fn put_block_counts(text: &mut Vec<u8>, span: &Span, buddy: &Buddy) -> Result<(), Memory>
    ensures { PutsText text.old text.new result
        (block_counts_text (blocks_of (node_of_free_frame buddy.now)) span.now.node span.now.zone) }
{
    for order in 0..=MAX_ORDER {
        put_block_count(text, buddy.count(span.node, span.zone, order))?;
    }
    Ok(())
}

/// Appends a number of free blocks, right-aligned in six columns, and a space.
fn put_block_count(text: &mut Vec<u8>, count: u64) -> Result<(), Memory>
    ensures { PutsText text.old text.new result (padded_decimal 6 count ++ codes " ") }
{
    put_dec(text, count, 6)?;
    put_text(text, b" ")
}

/// Returns the number of frames in the free blocks of this node and zone. Allocates nothing.
fn free_frames_in_zone(buddy: &Buddy, node: u32, zone: Zone) -> u64
    ensures { result ≡ frames_in_zone node zone (blocks_of (node_of_free_frame buddy.now)) }
{
    let mut frames = 0;
    for order in 0..=MAX_ORDER {
        frames += buddy.count(node, zone, order) << order;
    }
    frames
}
