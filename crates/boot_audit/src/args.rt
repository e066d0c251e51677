//! The command line of `bootaudit`: `[--la57] MAP OWNERS BLOCKS`.

ghost use Rattle.std.specs.Prelude.{◌≡◌, map, string_bytes};
ghost use Rattle.std.specs.Option.{option_map};
ghost use Rattle.boot_audit.specs.Args.{read_audit_args, is_file_word, report_file_name, three_file_names};
ghost use Rattle.boot_audit.specs.View.{audit_args_view};

use crate::failure::SavedReport;
use bm_base::Width;

/// An accepted command line of `bootaudit`: the width of physical addresses and the names of three
/// files.
#[derive(Clone, Copy)]
pub struct AuditArgs<'w> {
    /// The width of physical addresses: 52 bits with `--la57`, else 46.
    pub width: Width,
    /// The name of the file with the report `map`.
    pub map: &'w str,
    /// The name of the file with the report `owners`.
    pub owners: &'w str,
    /// The name of the file with the report `blocks`.
    pub blocks: &'w str,
}

impl<'w> AuditArgs<'w> {
    /// Returns the name of the file with this report.
    pub fn report_file_name(&self, report: SavedReport) -> &'w str
        ensures { result.now ≡ report_file_name (audit_args_view self.now) report }
    {
        match report {
            SavedReport::Map => self.map,
            SavedReport::Owners => self.owners,
            SavedReport::Blocks => self.blocks,
        }
    }
}

/// Reads the words `[--la57] MAP OWNERS BLOCKS`, which follow the program's name. Returns the
/// width of addresses and the three file names, or `None` if the words have another form.
pub fn read_audit_args(words: &[String]) -> Option<AuditArgs<'_>>
    ensures { option_map audit_args_view result ≡ read_audit_args (map string_bytes words.now) }
{
    let Some((first, others)) = words.split_first() else {
        return None;
    };
    if first.as_str() == "--la57" {
        return three_file_names(Width::Bits52, others);
    }
    three_file_names(Width::Bits46, words)
}

fn three_file_names(width: Width, words: &[String]) -> Option<AuditArgs<'_>>
    ensures { option_map audit_args_view result
        ≡ three_file_names width (map string_bytes words.now) }
{
    let [map, owners, blocks] = words else {
        return None;
    };
    if !(is_file_word(map) && is_file_word(owners) && is_file_word(blocks)) {
        return None;
    }
    Some(AuditArgs {
        width,
        map: map.as_str(),
        owners: owners.as_str(),
        blocks: blocks.as_str(),
    })
}

/// Tests whether the word can be a file name: it doesn't begin with `-`. The empty word can.
fn is_file_word(word: &str) -> bool
    ensures { result ≡ is_file_word word.now }
{
    match word.as_bytes().first() {
        Some(byte) => *byte != b'-',
        None => true,
    }
}
