//! Laws: the reports `map`, `owners` and `blocks` of a boot show that memory was conserved, both
//! as lists of lines and as printed texts that the audit reads back.

ghost use Rattle.std.specs.Prelude.{◌≡◌, ◌^◌, Some, Ok, map};
ghost use Rattle.address_runs.specs.Edits.{IsEmptyFrom};
ghost use Rattle.address_runs.specs.Runs.{range_of_run};
ghost use Rattle.audit_soundness.specs.Saved.{AreSaved};
ghost use Rattle.audit_soundness.specs.PrintableBoots.{IsPrintableBoot};
ghost use Rattle.audit_lines.specs.Blocks.{bytes_of_block};
ghost use Rattle.audit_lines.specs.Forms.{block_in, map_line_in, owner_line_in};
ghost use Rattle.audit_lines.specs.Reports.{report_of};
ghost use Rattle.audit_roundtrip.specs.PrintedLines.{line_of_block, line_of_run};
ghost use Rattle.boot_audit.specs.Conserved.{LinesConserveMemory};
ghost use Rattle.boot_audit.specs.Headline.{FilesConserveMemory};
ghost use Rattle.boot_audit.specs.Outcome.{audit_outcome};
ghost use Rattle.program_end.specs.Program.{FileContents};
ghost use Rattle.boot_audit.specs.Args.{AuditArgsView};
ghost use Rattle.boot_audit.specs.declared.judgement.Verdict.TheVariants as verdicts;
ghost use Rattle.boot_model.specs.Boot.{InputsView, BootedView, booted_address_limit, whole_boot};
ghost use Rattle.conservation.specs.Headline.{booted_blocks};
ghost use Rattle.debugfs_reports.specs.Report.{report_text};
ghost use Rattle.debugfs_reports.specs.declared.report.Report.TheVariants as reports;
ghost use Rattle.memblock_model.specs.Items.{owner_of, owner_runs_of};

/// Law: the lines of the reports `map`, `owners` and `blocks` of a successful boot show that
/// memory was conserved, provided that no address from 2^64 on has an owner. Each usable frame is
/// either touched (one of its bytes has an owner) or in exactly one block, and each frame of a
/// block is usable and untouched. The address of each block is a multiple of its size, its frames
/// are in its zone, and it couldn't merge with its buddy.
pub fn booted_lines_conserve_memory()
    ensures { (inputs : InputsView) (booted : BootedView) → whole_boot inputs ≡ Ok booted
        → IsEmptyFrom (2 ^ 64) (owner_of booted.items)
        → LinesConserveMemory (booted_address_limit booted) (map line_of_run booted.map)
        (map range_of_run (owner_runs_of booted.items))
        (map line_of_block (booted_blocks booted)) }
{}

/// Law: the audit reads the printed reports `map`, `owners` and `blocks` of a successful boot back
/// as the lines that they were printed from. The boot's addresses must be below 2^64, and its
/// numbers below 2^32 (`IsPrintableBoot`).
pub fn booted_reports_are_read_back()
    ensures map { (inputs : InputsView) (booted : BootedView) → whole_boot inputs ≡ Ok booted
        → IsPrintableBoot booted
        → report_of map_line_in (λ l. l.range) (report_text reports.Map booted)
        ≡ Ok (map line_of_run booted.map) }
    ensures owners { (inputs : InputsView) (booted : BootedView) → whole_boot inputs ≡ Ok booted
        → IsPrintableBoot booted
        → report_of owner_line_in (λ r. r) (report_text reports.Owners booted)
        ≡ Ok (map range_of_run (owner_runs_of booted.items)) }
    ensures blocks { (inputs : InputsView) (booted : BootedView) → whole_boot inputs ≡ Ok booted
        → IsPrintableBoot booted
        → report_of block_in bytes_of_block (report_text reports.Blocks booted)
        ≡ Ok (map line_of_block (booted_blocks booted)) }
{}

/// Law: if the files of an audit contain the three reports of a successful boot, their lines show
/// that memory was conserved, and the outcome of the audit is `Sound`. The boot's addresses must
/// be below 2^64, and its numbers below 2^32 (`IsPrintableBoot`).
pub fn saved_reports_are_sound()
    ensures conserved { (inputs : InputsView) (booted : BootedView) → whole_boot inputs ≡ Ok booted
        → IsPrintableBoot booted
        → (held : FileContents) (args : AuditArgsView) → AreSaved held args booted
        → FilesConserveMemory (Some args) held }
    ensures sound { (inputs : InputsView) (booted : BootedView) → whole_boot inputs ≡ Ok booted
        → IsPrintableBoot booted
        → (held : FileContents) (args : AuditArgsView) → AreSaved held args booted
        → audit_outcome (Some args) held ≡ Ok verdicts.Sound }
{}
