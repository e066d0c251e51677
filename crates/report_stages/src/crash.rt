//! Writes the report `crash`: where the crash area is reserved, or why there is none. A boot
//! continues without the area, so only this report has the reason.

ghost use Rattle.bm_base.specs.PutsText.{PutsText};
ghost use Rattle.report_stages.specs.CrashText.{crash_text, crash_low_line};

use bm_base::{Memory, Range, put_text};
use crash_kernel::Crash;
use report_memory::put_word_range;

/// Appends the report `crash`: the range of the crash area, or why there is none. If the area has a
/// low part, a further range below 4 GiB, a second line has it.
///
/// # Errors
///
/// - `Memory`: the program ran out of memory; the text is incomplete.
pub fn put_crash(text: &mut Vec<u8>, crash: &Crash) -> Result<(), Memory>
    ensures { PutsText text.old text.new result (crash_text crash.now) }
{
    match crash {
        Crash::Nothing => put_text(text, b"crash none\n"),
        Crash::At { main, low } => {
            put_word_range(text, b"crash at ", main)?;
            put_text(text, b"\n")?;
            put_crash_low_line(text, low)
        }
        Crash::NoArea => put_text(text, b"crash no area\n"),
        Crash::InUse => put_text(text, b"crash in use\n"),
        Crash::LowFailed => put_text(text, b"crash low failed\n"),
    }
}

/// Appends the line of the crash area's low part, a further range below 4 GiB; nothing if there is
/// none.
fn put_crash_low_line(text: &mut Vec<u8>, low: &Option<Range>) -> Result<(), Memory>
    ensures { PutsText text.old text.new result (crash_low_line low.now) }
{
    match low {
        Some(low) => {
            put_word_range(text, b"crash low ", low)?;
            put_text(text, b"\n")
        }
        None => Ok(()),
    }
}
