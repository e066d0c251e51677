//! The texts of verdicts. Each text is made in memory, so that it can be written by one put.

ghost use Rattle.std.specs.Prelude.{◌≡◌, ◌<◌, ◌^◌, IfOk};
ghost use Rattle.boot_audit.specs.Line.{block_fault_text, frame_fault_text, verdict_text};
ghost use Rattle.boot_audit.specs.Verdicts.{HasFrameInSpace};

use crate::judgement::Verdict;
use bm_base::{FRAME_SIZE, Memory, put_dec, put_hex, put_text};
use std::alloc::Global;

/// Returns the text of the verdict, one line with its newline, such as `not sound: frame
/// 0x0000000000001000 lost`. A frame number in the verdict must be below 2^40. Fails only if out
/// of memory.
pub fn verdict_text(alloc: Global, verdict: Verdict) -> Result<Vec<u8>, Memory>
    requires { HasFrameInSpace verdict }
    ensures { IfOk result (λ text. text.items ≡ verdict_text verdict) }
{
    match verdict {
        Verdict::Sound => sound_text(alloc),
        Verdict::Misaligned { line } => block_fault_text(alloc, line, b" misaligned\n"),
        Verdict::WrongZone { line } => block_fault_text(alloc, line, b" in wrong zone\n"),
        Verdict::NotFree { frame } => frame_fault_text(alloc, frame, b" not free\n"),
        Verdict::Lost { frame } => frame_fault_text(alloc, frame, b" lost\n"),
        Verdict::NotMaximal { line } => block_fault_text(alloc, line, b" not maximal\n"),
    }
}

fn sound_text(alloc: Global) -> Result<Vec<u8>, Memory>
    ensures { IfOk result (λ text. text.items ≡ verdict_text Verdict.Sound) }
{
    let mut text = Vec::new(alloc);
    put_text(&mut text, b"sound\n")?;
    Ok(text)
}

/// Returns the text `not sound: block at line LINE` and then `what`, which says what is wrong and
/// ends with a newline. Lines of the report `blocks` are counted from 1. Fails only if out of
/// memory.
fn block_fault_text(alloc: Global, line: u32, what: &[u8]) -> Result<Vec<u8>, Memory>
    ensures { IfOk result (λ text. text.items ≡ block_fault_text line what.now) }
{
    let mut text = Vec::new(alloc);
    put_text(&mut text, b"not sound: block at line ")?;
    put_dec(&mut text, u64::from(line), 0)?;
    put_text(&mut text, what)?;
    Ok(text)
}

/// Returns the text `not sound: frame ADDRESS` and then `what`, which says what is wrong and ends
/// with a newline. ADDRESS is that of the first byte of frame number `frame`, which must be below
/// 2^40. Fails only if out of memory.
fn frame_fault_text(alloc: Global, frame: u64, what: &[u8]) -> Result<Vec<u8>, Memory>
    requires { frame < 2 ^ 40 }
    ensures { IfOk result (λ text. text.items ≡ frame_fault_text frame what.now) }
{
    let mut text = Vec::new(alloc);
    put_text(&mut text, b"not sound: frame ")?;
    put_hex(&mut text, FRAME_SIZE * frame)?;
    put_text(&mut text, what)?;
    Ok(text)
}
