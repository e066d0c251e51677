//! Runs the lines of a script in order. One of the lines may place the sections, but the crates
//! that do that aren't below this one. The script is therefore split at that line, and the boot
//! runs both parts.

ghost use Rattle.std.specs.Prelude.{◌≡◌, ℕ, ◌+◌, ◌<◌, ◌≤◌, List, [], ◌∷◌, ◌++◌, OnOk, OnErr, Result, Ok};
ghost use Rattle.std.specs.List.{All};
ghost use Rattle.script_reader.specs.Forms.{HasBounds};
ghost use Rattle.growth_model.specs.Tables.{HasFirstItem};
ghost use Rattle.growth_model.specs.Bytes.{Fill, AreBytesFromHistory};
ghost use Rattle.memblock_grow.specs.Invariant.{StayPrepared};
ghost use Rattle.early_script.specs.Effects.{CanBeRun, ScriptState, EndsAsLine, act_effect};
ghost use Rattle.early_script.specs.FromMemblock.{memblock_bytes};
ghost use Rattle.early_script.specs.Lines.{IsPrefixChain, MatchesScriptSoFar, ScriptRunsOut, PlacesSectionsOnce, script_so_far, script_after_lines, lines_before_sections, lines_after_sections};
ghost use Rattle.bm_base.specs.declared.memory.Memory.{Memory};
ghost use Rattle.memblock_model.specs.Items.{memory_of, limit_of};
ghost use Rattle.script_reader.specs.declared.act.Act.{Act};
ghost use Rattle.script_reader.specs.declared.act.Line.{Line};
ghost use Rattle.script_reader.specs.Script.{script_of};
ghost use Rattle.early_script.specs.declared.outcome.Outcome.{Outcome};

use crate::live::Live;
use crate::outcome::Answer;
use bm_base::{Memory, push_within_capacity};
use memblock_grow::Memblock;
use script_reader::{Act, Line};

/// Runs the lines in order and appends the outcome of each to `answers`. A refused line has an
/// outcome like any other, and the next line follows.
///
/// # Errors
///
/// `Memory` if this program is out of memory. If `answers` can't get room for all outcomes, no line
/// has been run and nothing has changed. Otherwise memory ran out during a line. All lines before
/// that one have then been run, and their outcomes are in `answers`.
pub fn run_script_lines(
    live: &mut Live,
    mb: &mut Memblock,
    lines: &[Line],
    answers: &mut Vec<Answer>,
) -> Result<(), Memory>
    requires begun { HasFirstItem mb.old.journal.items }
    requires run { All (λ l. CanBeRun l.act) lines.now }
    requires bounds { All (λ l. HasBounds l.act) lines.now }
    ensures ok { OnOk result ((fills : List Fill)
        → AreBytesFromHistory mb.old.kernel mb.old.journal.items fills (memblock_bytes mb.old) →
        MatchesScriptSoFar (script_after_lines (script_so_far live.old mb.old fills
        answers.old.items)
        lines.now) live.new mb.new answers.new.items) }
    ensures memory { OnErr result
        (ScriptRunsOut live.old mb.old answers.old lines.now live.new mb.new answers.new) }
    ensures journal { (fills : List Fill)
        → AreBytesFromHistory mb.old.kernel mb.old.journal.items fills (memblock_bytes mb.old) →
        IsPrefixChain mb.old.journal.items mb.new.journal.items
        (script_after_lines
        (script_so_far live.old mb.old fills answers.old.items) lines.now).state.items }
    ensures kernel { mb.new.kernel ≡ mb.old.kernel }
    ensures begun { HasFirstItem mb.new.journal.items }
    ensures still_ready { StayPrepared mb.old.tables.store mb.new.tables.store }
{
    answers.reserve(lines.len())?;
    for line in lines {
        let outcome = live.run_line(mb, line)?;
        let answer = Answer {
            line: line.number,
            outcome,
        };
        push_within_capacity(answers, answer); // `reserve` made room for it
    }
    Ok(())
}

/// Splits a script at its line `sections`, which places the memory sections. Returns the lines
/// before that line and the lines after it. Without such a line, returns all lines and an empty
/// list.
pub fn split_at_sections(lines: &[Line]) -> (&[Line], &[Line])
    requires once { PlacesSectionsOnce lines.now }
    requires bounds { All (λ l. HasBounds l.act) lines.now }
    ensures before { result.0.now ≡ lines_before_sections lines.now }
    ensures after { result.1.now ≡ lines_after_sections lines.now }
    ensures run { All (λ l. CanBeRun l.act) result.0.now × All (λ l. CanBeRun l.act) result.1.now }
    ensures bounds { All (λ l. HasBounds l.act) result.0.now
        × All (λ l. HasBounds l.act) result.1.now }
{
    for (i, line) in lines.iter().enumerate() {
        if matches!(line.act, Act::Sections) {
            return (&lines[..i], &lines[i + 1..]);
        }
    }
    (lines, &[])
}

/// Law: a line of the early script leaves memory, the nodes of memory and the limit of allocations
/// unchanged, whatever its outcome is. This is also true if this program runs out of memory during
/// the line.
pub fn lines_keep_memory()
    ensures memory { (result : Result Outcome Memory) (old new : ScriptState) (bytes : ℕ
        → ℕ) (a : Act) →
        EndsAsLine result old new (act_effect old bytes a)
        → memory_of new.items ≡ memory_of old.items }
    ensures limit { (result : Result Outcome Memory) (old new : ScriptState) (bytes : ℕ
        → ℕ) (a : Act) →
        EndsAsLine result old new (act_effect old bytes a)
        → limit_of new.items ≡ limit_of old.items }
{}

/// Law: a script that the reader accepts has at most one line `sections`. No line after it is
/// another one.
pub fn scripts_place_sections_once()
    ensures { (bytes : List ℕ) (lines : List Line) → script_of bytes ≡ Ok lines
        → PlacesSectionsOnce lines }
{}
