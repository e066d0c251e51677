//! The commands of an early script. They are plain data: the reader returns them, and the crate
//! `early_script` runs them.

use bm_base::Range;
use memblock_model::Request;

/// A command of the script. An ID is a number by which the script names a range that it has
/// claimed.
#[derive(Clone, Copy, Debug, PartialEq, Eq)]
pub enum Act {
    /// `alloc`: finds the best free range for the request and claims it for the ID.
    Alloc { id: u32, request: Request },
    /// `reserve`: claims exactly this range, wherever it is, for the ID. The range has at least 1
    /// byte.
    Reserve { id: u32, range: Range },
    /// `free`: frees the ID's whole range.
    Free { id: u32 },
    /// `trim`: frees all but the first `keep` bytes of the ID's range. `keep` is at least 1.
    Trim { id: u32, keep: u64 },
    /// `fill`: writes the value to each byte of the ID's range.
    Fill { id: u32, byte: u8 },
    /// `peek`: prints the `len` bytes at address `at`. `len` is from 1 to 64, and `at + len` is at
    /// most 2^64 - 1.
    Peek { at: u64, len: u32 },
    /// `sections`: sets up the memory sections at this point (`sparse_init`). It occurs at most
    /// once.
    Sections,
}

/// A line of the script that has a command.
#[derive(Clone, Copy, Debug, PartialEq, Eq)]
pub struct Line {
    /// The number of the line in the script, from 1 on. Lines without a command are counted too.
    pub number: u32,
    pub act: Act,
}
