//! Laws: a printed report is read back as the list that it was printed from. In the other
//! direction, a text that is accepted as the report `map` or `blocks` is the text that is printed
//! for the lines that were read.

ghost use Rattle.std.specs.Prelude.{◌≡◌, ◌<◌, ◌^◌, ℕ, List, Ok, length, map};
ghost use Rattle.std.specs.List.{All};
ghost use Rattle.address_runs.specs.Runs.{RunOf, range_of_run};
ghost use Rattle.audit_lines.specs.Blocks.{BlockLineView, bytes_of_block};
ghost use Rattle.audit_lines.specs.Forms.{block_in, map_line_in, owner_line_in};
ghost use Rattle.audit_lines.specs.Lines.{AscendApart};
ghost use Rattle.audit_lines.specs.Reports.{report_of};
ghost use Rattle.audit_lines.specs.declared.lines.MapLine.{MapLine};
ghost use Rattle.audit_roundtrip.specs.PrintedLines.{BeginsAtFrame, IsPrintableBlock, IsPrintableOwnerRun, IsPrintableRun, block_of_line, run_of_line, line_of_block, line_of_run};
ghost use Rattle.buddy_blocks.specs.declared.block.Block.{Block};
ghost use Rattle.memblock_model.specs.declared.owner.Owner.{Owner};
ghost use Rattle.report_memory.specs.Lines.{indexed_lines};
ghost use Rattle.report_memory.specs.MapText.{map_text};
ghost use Rattle.report_memory.specs.OwnersText.{owners_text};
ghost use Rattle.report_stages.specs.BlocksText.{block_line};

/// Law: the text of the report `map` is read back as the runs that it was printed from, each with
/// its type. A run is a range of addresses of one type. The runs must be ascending and disjoint,
/// not empty, end below address 2^64, and have types from 1 to 2^32 - 1. There must be fewer than
/// 2^64 runs.
pub fn map_is_read_back()
    ensures { (runs : List (RunOf ℕ)) → length runs < 2 ^ 64 → All IsPrintableRun runs
        → AscendApart (map range_of_run runs)
        → report_of map_line_in (λ l. l.range) (map_text runs) ≡ Ok (map line_of_run runs) }
{}

/// Law: the text of the report `owners` is read back as the ranges that it was printed from,
/// without their owners. The ranges must be ascending and disjoint, not empty, and end below
/// address 2^64. The numbers of owners must be below 2^32. There must be fewer than 2^64 ranges.
pub fn owners_are_read_back()
    ensures { (runs : List (RunOf Owner)) → length runs < 2 ^ 64 → All IsPrintableOwnerRun runs
        → AscendApart (map range_of_run runs)
        → report_of owner_line_in (λ r. r) (owners_text runs) ≡ Ok (map range_of_run runs) }
{}

/// Law: the text of the report `blocks` is read back as the blocks that it was printed from. The
/// blocks must be ascending and disjoint, of orders up to 10, on nodes below 2^32, and end at or
/// below address 2^52. There must be fewer than 2^64 blocks.
pub fn blocks_are_read_back()
    ensures { (blocks : List Block) → length blocks < 2 ^ 64 → All IsPrintableBlock blocks
        → AscendApart (map bytes_of_block (map line_of_block blocks))
        → report_of block_in bytes_of_block (indexed_lines block_line 0 blocks)
        ≡ Ok (map line_of_block blocks) }
{}

/// Law: if bytes are accepted as the report `map`, they are exactly the text that is printed for
/// the runs that were read.
pub fn read_map_is_printed()
    ensures { (bytes : List ℕ) (lines : List MapLine)
        → report_of map_line_in (λ l. l.range) bytes ≡ Ok lines
        → bytes ≡ map_text (map run_of_line lines) }
{}

/// Law: if bytes are accepted as the report `blocks`, and the address of each block is a multiple
/// of 4096, they are exactly the text that is printed for the blocks that were read.
pub fn read_blocks_are_printed()
    ensures { (bytes : List ℕ) (blocks : List BlockLineView)
        → report_of block_in bytes_of_block bytes ≡ Ok blocks
        → All BeginsAtFrame blocks → bytes ≡ indexed_lines block_line 0 (map block_of_line blocks) }
{}
