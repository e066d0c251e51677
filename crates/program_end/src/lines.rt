//! Writes the line that says why a program failed to the error output. The line is written in
//! chunks, so no memory is allocated for it. If the error output refuses a chunk, the chunks after
//! it aren't written; the exit status stays the same.

ghost use Rattle.std.specs.Prelude.{◌≡◌, ℕ, List, flat_map};
ghost use Rattle.program_end.specs.Ends.{PutsEndLine};
ghost use Rattle.program_end.specs.Line.{PutsLine, failure_line, reason_line, refusal_line, unread_line};

use crate::failure::{Failure, NoResult, Reason};
use bm_io::{Put, Sink, put_all};

/// The texts in which one program's error lines differ from another's: its name, the names of its
/// files, and the lines for faults `F` and causes `C`.
pub trait Lines<I, F, C> {
    // `program_name` is the program's name. `file_name` is the name of an input's file on the
    // command line, empty if the input has no file. `fault_line` is the line for a fault of an
    // input's file, and `cause_line` the line for a cause.
    ghost program_name: { List ℕ };

    ghost file_name: { Self → I → List ℕ };

    ghost fault_line: { I → F → List ℕ };

    ghost cause_line: { C → List ℕ };

    /// Returns the program's name, with which its error lines begin.
    fn program() -> &'static str
        ensures { result.now ≡ program_name };

    /// Returns the name of the input's file on the command line, or the empty text if the input
    /// has no file.
    fn file(&self, input: I) -> &str
        ensures { result.now ≡ file_name self.now input };

    /// Writes to `err` the error line for `fault` in the file of `input`.
    fn put_fault_line<E: Sink>(err: &mut E, input: I, fault: F)
        ensures { PutsLine E.Sink err.old err.new (fault_line input fault) };

    /// Writes to `err` the error line for `cause`: why files without a fault give no result.
    fn put_cause_line<E: Sink>(err: &mut E, cause: C)
        ensures { PutsLine E.Sink err.old err.new (cause_line cause) };
}

/// Writes to `err` the one line that says why a program failed. Writes nothing if the program
/// ended with a result.
pub fn put_end_line<E: Sink, I: Copy, F: Copy, C: Copy, L: Lines<I, F, C>>(
    err: &mut E,
    lines: &L,
    end: Result<u8, Failure<Reason<I, F, C>>>,
)
    ensures { PutsEndLine E.Sink (failure_line L.program_name
        (L.file_name lines.now) L.fault_line L.cause_line) err.old err.new end }
{
    if let Err(failure) = end {
        put_failure_line(err, lines, failure);
    }
}

/// Writes to `err` the one line that says why the program failed.
fn put_failure_line<E: Sink, I: Copy, F: Copy, C: Copy, L: Lines<I, F, C>>(
    err: &mut E,
    lines: &L,
    failure: Failure<Reason<I, F, C>>,
)
    ensures { PutsLine E.Sink err.old err.new
        (failure_line L.program_name (L.file_name lines.now) L.fault_line L.cause_line failure) }
{
    match failure {
        Failure::NoResult(NoResult::Reason(reason)) => put_reason_line(err, lines, reason),
        Failure::NoResult(NoResult::Memory) => put_line(err, &[L::program(), ": out of memory\n"]),
        Failure::Output(refusal) => put_refusal_line(err, L::program(), refusal),
    }
}

fn put_reason_line<E: Sink, I: Copy, F: Copy, C: Copy, L: Lines<I, F, C>>(
    err: &mut E,
    lines: &L,
    reason: Reason<I, F, C>,
)
    ensures { PutsLine E.Sink err.old err.new
        (reason_line L.program_name (L.file_name lines.now) L.fault_line L.cause_line reason) }
{
    match reason {
        Reason::Usage => put_line(err, &[L::program(), ": usage\n"]),
        Reason::Unread(input) => put_unread_line(err, L::program(), lines.file(input)),
        Reason::Faulty(input, fault) => L::put_fault_line(err, input, fault),
        Reason::Stopped(cause) => L::put_cause_line(err, cause),
    }
}

/// Writes to `err` the line `PROGRAM: cannot read FILE`.
fn put_unread_line<'a, E: Sink>(err: &mut E, program: &'a str, file: &'a str)
    ensures { PutsLine E.Sink err.old err.new (unread_line program.now file.now) }
{
    put_line(err, &[program, ": cannot read ", file, "\n"])
}

/// Writes to `err` why the text of the result wasn't written whole: `PROGRAM: cannot write` if the
/// output refused it, or `PROGRAM: out of memory`.
fn put_refusal_line<'a, E: Sink>(err: &mut E, program: &'a str, refusal: Put)
    ensures { PutsLine E.Sink err.old err.new (refusal_line program.now refusal) }
{
    match refusal {
        Put::Failed => put_line(err, &[program, ": cannot write\n"]),
        Put::Memory => put_line(err, &[program, ": out of memory\n"]),
    }
}

/// Writes the chunks of a line to `err` in order, and stops at the first chunk that `err` refuses.
pub fn put_line<E: Sink>(err: &mut E, chunks: &[&str])
    ensures { PutsLine E.Sink err.old err.new (flat_map (λ chunk. chunk.now) chunks.now) }
{
    let _put = put_all(err, chunks);
}
