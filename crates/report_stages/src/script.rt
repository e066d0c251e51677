//! Writes the outcome of each line of the early script or of the file of early claims. A line that
//! is refused doesn't stop the boot, so its refusal is reported here, with the number of the line.

ghost use Rattle.std.specs.Prelude.{◌≤◌, length};
ghost use Rattle.bm_base.specs.PutsText.{PutsText};
ghost use Rattle.hex.specs.Hex.{encode_lower};
ghost use Rattle.report_stages.specs.ScriptText.{answer_line, outcome_text, script_text};

use crate::words::{put_word_dec, put_word_hex};
use bm_base::{Memory, put_dec, put_text};
use early_script::{Answer, Outcome};
use memblock_model::Which;
use report_memory::{memblock_table_name, put_indexed_lines};

/// The largest number of bytes of memory that one line of the script reads and reports.
const MOST_PEEKED_BYTES: usize = 64;

/// Appends the report `script` or `claims`: a line for each outcome of a line of the script, in
/// order. The command `sections` has no outcome.
///
/// # Errors
///
/// - `Memory`: the program ran out of memory; the text is incomplete.
pub fn put_script(text: &mut Vec<u8>, answers: &[Answer]) -> Result<(), Memory>
    ensures { PutsText text.old text.new result (script_text answers.now) }
{
    put_indexed_lines(text, answers, put_answer_line)
}

/// Appends the line of an outcome, as in `3: no gap`: the number of the line in the script, and the
/// outcome. `index` isn't printed.
fn put_answer_line(text: &mut Vec<u8>, index: u64, answer: &Answer) -> Result<(), Memory>
    ensures { PutsText text.old text.new result (answer_line index answer.now) }
{
    put_dec(text, u64::from(answer.line), 0)?;
    put_text(text, b": ")?;
    put_outcome(text, &answer.outcome)?;
    put_text(text, b"\n")
}

/// Appends the outcome of a line of the early script, as in `no gap`.
fn put_outcome(text: &mut Vec<u8>, outcome: &Outcome) -> Result<(), Memory>
    ensures { PutsText text.old text.new result (outcome_text outcome.now) }
{
    match outcome {
        Outcome::At(address) => put_word_hex(text, b"at ", *address),
        Outcome::Done => put_text(text, b"done"),
        Outcome::Bytes(told) => {
            put_text(text, b"bytes ")?;
            put_bytes(text, told.as_slice())
        }
        Outcome::NoGap => put_text(text, b"no gap"),
        Outcome::NoGapForTable { which, room } => put_refused_growth(text, *which, *room),
        Outcome::Taken => put_text(text, b"taken"),
        Outcome::Unknown => put_text(text, b"unknown"),
        Outcome::NotWhole => put_text(text, b"not whole"),
        Outcome::TableInUse => put_text(text, b"table in use"),
        Outcome::TooLargeKeep => put_text(text, b"keep too large"),
        Outcome::TooLargeFill => put_text(text, b"fill too large"),
    }
}

/// Appends which table of memblock had to grow and found no place, and the number of records that
/// it has room for, which was too small.
fn put_refused_growth(text: &mut Vec<u8>, which: Which, room: u64) -> Result<(), Memory>
    ensures { PutsText text.old text.new result (outcome_text (Outcome.NoGapForTable which room)) }
{
    put_text(text, b"no gap for table ")?;
    put_text(text, memblock_table_name(which).as_bytes())?;
    put_word_dec(text, b" room ", room)
}

/// Appends each of the bytes as two lower-case hexadecimal digits. There are at most
/// `MOST_PEEKED_BYTES` bytes.
fn put_bytes(text: &mut Vec<u8>, bytes: &[u8]) -> Result<(), Memory>
    requires { length bytes.now ≤ MOST_PEEKED_BYTES }
    ensures { PutsText text.old text.new result (encode_lower bytes.now) }
{
    let mut room = [0u8; 2 * MOST_PEEKED_BYTES];
    let digits = &mut room[..2 * bytes.len()];
    hex::encode_to_slice(bytes, digits).unwrap();
    put_text(text, digits)
}
