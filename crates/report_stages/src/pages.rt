//! Writes the report `pages`: the outcome of each line of the page script.

ghost use Rattle.bm_base.specs.PutsText.{PutsText};
ghost use Rattle.report_stages.specs.PagesText.{page_answer_line, page_outcome_text, pages_text};

use crate::words::put_word_hex;
use bm_base::{Memory, put_dec, put_text};
use page_alloc::{PageAnswer, PageOutcome};
use report_memory::put_indexed_lines;

/// Appends the report `pages`: a line for each line of the page script that has a command, in their
/// order.
///
/// # Errors
///
/// - `Memory`: the program ran out of memory; the text is incomplete.
pub fn put_pages(text: &mut Vec<u8>, answers: &[PageAnswer]) -> Result<(), Memory>
    ensures { PutsText text.old text.new result (pages_text answers.now) }
{
    put_indexed_lines(text, answers, put_page_answer_line)
}

/// Appends the line of an outcome, as in `3: no block`: the number of the line in the page script,
/// and the outcome. `index` isn't printed.
fn put_page_answer_line(text: &mut Vec<u8>, index: u64, answer: &PageAnswer) -> Result<(), Memory>
    ensures { PutsText text.old text.new result (page_answer_line index answer.now) }
{
    put_dec(text, u64::from(answer.line), 0)?;
    put_text(text, b": ")?;
    put_page_outcome(text, answer.outcome)?;
    put_text(text, b"\n")
}

/// Appends the outcome of a line of the page script, as in `no block`.
fn put_page_outcome(text: &mut Vec<u8>, outcome: PageOutcome) -> Result<(), Memory>
    ensures { PutsText text.old text.new result (page_outcome_text outcome) }
{
    match outcome {
        PageOutcome::At(address) => put_word_hex(text, b"at ", address),
        PageOutcome::Done => put_text(text, b"done"),
        PageOutcome::NoBlock => put_text(text, b"no block"),
        PageOutcome::Taken => put_text(text, b"taken"),
        PageOutcome::Unknown => put_text(text, b"unknown"),
    }
}
