//! The ways in which `bootmem` or `bootaudit` can fail, and the exit status of each.

ghost use Rattle.std.specs.Prelude.{◌≡◌};
ghost use Rattle.program_end.specs.Status.{reason_status, failure_status, exit_status, error_status};

use bm_base::Memory;
use bm_io::Put;

/// Why the command line and the files give no result. `I` names an input file, `F` is a fault of
/// such a file, and `C` is a cause: why files without a fault give no result. For `bootmem` a
/// cause is a stop of the boot; `bootaudit` has none.
#[derive(Clone, Copy, Debug, PartialEq, Eq)]
pub enum Reason<I, F, C> {
    /// Status 2: the command line isn't accepted.
    Usage,
    /// Status 3: this input's file couldn't be read. The files that are read before it have no
    /// fault.
    Unread(I),
    /// Status 5: this input's file has this fault. The files that are read before it have none.
    Faulty(I, F),
    /// Status 6: no file has a fault, but for this cause there is no result.
    Stopped(C),
}

/// Why a call returns no result: the program itself is out of memory, or another reason `R`.
#[derive(Clone, Copy, Debug, PartialEq, Eq)]
pub enum NoResult<R> {
    /// The command line and the files give no result, for this reason.
    Reason(R),
    /// Status 7: the program itself is out of memory.
    Memory,
}

/// Why a program didn't write its whole result.
#[derive(Clone, Copy, Debug, PartialEq, Eq)]
pub enum Failure<R> {
    /// There is no result to write, so nothing was written to the output.
    NoResult(NoResult<R>),
    /// The output refused the text (status 4), or ran out of memory (status 7). The first bytes of
    /// the text may have been written.
    Output(Put),
}

impl<I: Copy, F: Copy, C: Copy> Reason<I, F, C> {
    fn status(self) -> u8
        ensures { result ≡ reason_status self }
    {
        match self {
            Reason::Usage => 2,
            Reason::Unread(_) => 3,
            Reason::Faulty(..) => 5,
            Reason::Stopped(_) => 6,
        }
    }
}

impl<I: Copy, F: Copy, C: Copy> NoResult<Reason<I, F, C>> {
    /// Returns the exit status: 2, 3, 5 or 6 for a reason, and 7 for out of memory.
    pub fn status(self) -> u8
        ensures { result ≡ error_status self }
    {
        match self {
            NoResult::Reason(reason) => reason.status(),
            NoResult::Memory => 7,
        }
    }
}

impl<I: Copy, F: Copy, C: Copy> Failure<Reason<I, F, C>> {
    fn status(self) -> u8
        ensures { result ≡ failure_status self }
    {
        match self {
            Failure::NoResult(error) => error.status(),
            Failure::Output(Put::Failed) => 4,
            Failure::Output(Put::Memory) => 7,
        }
    }
}

/// Returns the exit status of a program that ended in this way: for `Ok` the status that it holds,
/// 0 or 8, and for a failure 2 to 7.
pub fn exit_status<I: Copy, F: Copy, C: Copy>(end: Result<u8, Failure<Reason<I, F, C>>>) -> u8
    ensures { result ≡ exit_status end }
{
    match end {
        Ok(status) => status,
        Err(failure) => failure.status(),
    }
}

impl<R> From<Memory> for NoResult<R> {
    ghost use Rattle.std.specs.Prelude.{◌≡◌};
    ghost use Rattle.program_end.specs.declared.failure.NoResult.TheVariants as errors;

    ghost from_gives = { λ _ error. error ≡ errors.Memory };

    fn from(_memory: Memory) -> NoResult<R> {
        NoResult::Memory
    }
}

impl<R> From<NoResult<R>> for Failure<R> {
    ghost use Rattle.std.specs.Prelude.{◌≡◌};
    ghost use Rattle.program_end.specs.declared.failure.Failure.TheVariants as failures;

    ghost from_gives = { λ error failure. failure ≡ failures.NoResult error };

    fn from(error: NoResult<R>) -> Failure<R> {
        Failure::NoResult(error)
    }
}

impl<R> From<Memory> for Failure<R> {
    ghost use Rattle.std.specs.Prelude.{◌≡◌};
    ghost use Rattle.program_end.specs.declared.failure.Failure.TheVariants as failures;
    ghost use Rattle.program_end.specs.declared.failure.NoResult.TheVariants as errors;

    ghost from_gives = { λ _ failure. failure ≡ failures.NoResult errors.Memory };

    fn from(_memory: Memory) -> Failure<R> {
        Failure::NoResult(NoResult::Memory)
    }
}

impl<R> From<Put> for Failure<R> {
    ghost use Rattle.std.specs.Prelude.{◌≡◌};
    ghost use Rattle.program_end.specs.declared.failure.Failure.TheVariants as failures;

    ghost from_gives = { λ put failure. failure ≡ failures.Output put };

    fn from(put: Put) -> Failure<R> {
        Failure::Output(put)
    }
}
