//! Two types of faults. [`ScriptLineFault`] says what is wrong with a line. [`ScriptFault`] also
//! has the line's number. The functions that read a line return a [`ScriptLineFault`], since only
//! the loop over the lines knows the number.

/// What is wrong with a line. If a line has several of these faults, the first in this list is
/// reported.
#[derive(Clone, Copy, Debug, PartialEq, Eq)]
pub enum ScriptLineFault {
    /// The words don't match the form of any command (such as `free ID`), even if any word may
    /// stand for a number.
    Form,
    /// The words match the form of a command, but a word in the place of a number isn't entirely a
    /// number, or the number is above its limit.
    Number,
    /// The alignment isn't a power of two.
    Align,
    /// A size, `KEEP` or `LEN` is 0.
    ZeroSize,
    /// The line is `sections`, and so is an earlier line.
    SecondSections,
    /// In `reserve ID BASE SIZE` or `peek ADDR LEN`, the sum of the last two numbers exceeds
    /// 2^64 - 1.
    TooFar,
}

/// The reason why a script is refused. `line` is the number of the first line that has a fault,
/// counted from 1. If that line has several faults, the first in this list is reported.
#[derive(Clone, Copy, Debug, PartialEq, Eq)]
pub enum ScriptFault {
    /// The words don't match the form of any command (such as `free ID`), even if any word may
    /// stand for a number.
    BadLine { line: u32 },
    /// The words match the form of a command, but a word in the place of a number isn't entirely a
    /// number, or the number is above its limit: 2^32 - 1 for an ID, 1,023 for a node, 255 for a
    /// byte, and 64 for the length of a `peek`.
    BadNumber { line: u32 },
    /// The alignment isn't a power of two.
    BadAlign { line: u32 },
    /// A size, `KEEP` or `LEN` is 0.
    ZeroSize { line: u32 },
    /// The line is `sections`, and so is an earlier line.
    SecondSections { line: u32 },
    /// In `reserve ID BASE SIZE` or `peek ADDR LEN`, the sum of the last two numbers exceeds
    /// 2^64 - 1.
    TooFar { line: u32 },
    /// The program ran out of memory. This is returned only if no line has a fault.
    Memory,
}
