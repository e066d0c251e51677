//! Writes the report `zonelists`: whether the distances of the SLIT are used, and in which order an
//! allocation for a node tries the zones.

ghost use Rattle.std.specs.Prelude.{◌≡◌, ◌++◌, OnOk};
ghost use Rattle.std.specs.List.{flat_map};
ghost use Rattle.bm_base.specs.PutsText.{PutsText};
ghost use Rattle.report_memory.specs.Lines.{indexed_lines};
ghost use Rattle.report_stages.specs.ListsText.{list_zone_text, zonelist_line, slit_use_line, slit_use_text, zonelists_text};

use crate::words::put_word_dec;
use crate::zones::zone_name;
use bm_base::{Memory, put_text};
use report_memory::put_indexed_lines;
use slit_zonelists::{ListZone, Lists, SlitUse};

/// Appends the report `zonelists`: whether the SLIT is used, and a line for each node that has
/// memory. Besides the text it allocates the list of these nodes and, one node at a time, the
/// node's list of zones.
///
/// # Errors
///
/// - `Memory`: the program ran out of memory; the text is incomplete.
pub fn put_zonelists(text: &mut Vec<u8>, lists: &Lists) -> Result<(), Memory>
    ensures { OnOk result (text.new.items ≡ text.old.items ++ zonelists_text lists.now) }
{
    put_slit_use_line(text, lists.used())?;
    let nodes = lists.nodes_with_zones()?;
    put_zonelist_lines(text, &nodes, lists)
}

/// Appends a line for each of the `nodes`. Besides the text it allocates, one node at a time, the
/// node's list of zones.
fn put_zonelist_lines(text: &mut Vec<u8>, nodes: &[u32], lists: &Lists) -> Result<(), Memory>
    ensures { OnOk result
        (text.new.items ≡ text.old.items ++ indexed_lines (zonelist_line lists.now) 0 nodes.now) }
{
    put_indexed_lines(text, nodes, |text: &mut Vec<u8>, index: u64, node: &u32| {
        put_zonelist_line(text, index, node, lists)
    })
}

/// Appends the line that says whether the distances of the SLIT are used, as in `slit no srat`.
fn put_slit_use_line(text: &mut Vec<u8>, used: SlitUse) -> Result<(), Memory>
    ensures { PutsText text.old text.new result (slit_use_line used) }
{
    put_text(text, b"slit ")?;
    put_slit_use(text, used)?;
    put_text(text, b"\n")
}

/// Appends `used` if the distances of the SLIT are used, and otherwise why they aren't. `not valid`
/// is followed by the row and the column of the first bad distance, both from 0.
fn put_slit_use(text: &mut Vec<u8>, used: SlitUse) -> Result<(), Memory>
    ensures { PutsText text.old text.new result (slit_use_text used) }
{
    match used {
        SlitUse::Used => put_text(text, b"used"),
        SlitUse::Absent => put_text(text, b"absent"),
        SlitUse::NoSrat => put_text(text, b"no srat"),
        SlitUse::NotValid { row, column } => {
            put_word_dec(text, b"not valid ", u64::from(row))?;
            put_word_dec(text, b" ", u64::from(column))
        }
    }
}

/// Appends the line of a node, as in `Node 0: 0/Normal 0/DMA32 0/DMA`: the zones in the order in
/// which an allocation for the node tries them. Besides the text it allocates the list of these
/// zones.
fn put_zonelist_line(
    text: &mut Vec<u8>,
    index: u64,
    node: &u32,
    lists: &Lists,
) -> Result<(), Memory>
    ensures { OnOk result
        (text.new.items ≡ text.old.items ++ zonelist_line lists.now index node.now) }
{
    put_word_dec(text, b"Node ", u64::from(*node))?;
    put_text(text, b":")?;
    let zones = lists.of(*node)?;
    put_list_zones(text, &zones)?;
    put_text(text, b"\n")
}

/// Appends the zones of a zone list, in order, each as in ` 0/DMA32`.
fn put_list_zones(text: &mut Vec<u8>, zones: &[ListZone]) -> Result<(), Memory>
    ensures { PutsText text.old text.new result (flat_map list_zone_text zones.now) }
{
    for entry in zones {
        put_list_zone(text, entry)?;
    }
    Ok(())
}

/// Appends an entry of a zone list, as in ` 0/DMA32`: its node and its zone.
fn put_list_zone(text: &mut Vec<u8>, entry: &ListZone) -> Result<(), Memory>
    ensures { PutsText text.old text.new result (list_zone_text entry.now) }
{
    put_word_dec(text, b" ", u64::from(entry.node))?;
    put_text(text, b"/")?;
    put_text(text, zone_name(entry.zone).as_bytes())
}
