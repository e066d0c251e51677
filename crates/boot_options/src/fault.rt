//! The reason why a command line is refused. It has a file of its own because both the reader of
//! the words and the check at the end of the line return it. For most of these faults the kernel
//! logs a warning, or nothing, and continues the boot.

use bm_base::Memory;

/// The reason why a command line is refused. `word` is the number of the word at fault, counted
/// from 1 in the line.
#[derive(Clone, Copy, Debug, PartialEq, Eq)]
pub enum OptionFault {
    /// The line has more than 2,047 bytes.
    TooLong,
    /// The line has an odd number of quotation marks (`"`).
    OpenQuote,
    /// The word is a malformed `mem=`.
    BadMem { word: u32 },
    /// The word is a malformed `memmap=`.
    BadMemmap { word: u32 },
    /// The word is a malformed `crashkernel=`.
    BadCrash { word: u32 },
    /// The line has no other fault, but fewer than two map options after its last `memmap=exactmap`
    /// add a range. Those that add one are `S@A`, `S#A`, `S$A`, `S!A` and `S%A+t`, even if S is 0.
    /// `word` is the number of the word of that `exactmap`.
    UserMapInvalid { word: u32 },
    /// The word is a malformed `numa=`.
    BadNuma { word: u32 },
    /// The program ran out of memory for an edit of the map or a range of `crashkernel=`. This is
    /// returned only for a line without any other fault.
    Memory,
}

impl From<Memory> for OptionFault {
    ghost use Rattle.std.specs.Prelude.{◌≡◌};
    ghost use Rattle.boot_options.specs.declared.fault.OptionFault.TheVariants.{Memory as memory};

    ghost from_gives = { λ _ e. e ≡ memory };

    fn from(_memory: Memory) -> OptionFault {
        OptionFault::Memory
    }
}
