//! The law of this crate.

ghost use Rattle.std.specs.Prelude.{◌≡◌};
ghost use Rattle.buddy_blocks.specs.Frames.{Frames};
ghost use Rattle.buddy_blocks.specs.BlockList.{blocks_of};
ghost use Rattle.zone_spans.specs.Spans.{spans_of};
ghost use Rattle.report_memory.specs.Lines.{indexed_lines};
ghost use Rattle.report_stages.specs.ZonesText.{buddyinfo_line, buddyinfo_text};

/// Law: by the rule `Frames`, which is `bootmem`'s own, `buddyinfo` has a line for each span.
pub fn own_rule_gives_a_line_for_each_span()
    ensures { (free : Frames) (memory : Frames) → buddyinfo_text free (spans_of memory)
        ≡ indexed_lines (buddyinfo_line (blocks_of free)) 0 (spans_of memory) }
{}
