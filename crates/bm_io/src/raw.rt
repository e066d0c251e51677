//! Traits for a single call of the operating system.
//!
//! Contracts can't know what a real file holds or what a real stream does with bytes. They can say
//! which calls were made, in which order, with which results. For this each trait has a ghost
//! relation between the state before a call, the call's result and the state after it. A loop over
//! such calls is proved for every relation, so it can't give up early, retry or hide a failure.
//! `crate::system` implements the traits.
ghost use Rattle.std.specs.Prelude.{ℕ, ◌<◌, ◌≤◌, List, length, take, Option, IfSome};
ghost use Rattle.std.specs.Option.{option_map};
ghost use Rattle.bm_io.specs.Known.{TakesKnown, GivesKnown};

/// A stream that can be written to.
pub trait RawWriter {
    // The bytes that the stream holds, or `None` if unknown.
    ghost contents: { Self → Option (List ℕ) };

    // The relation of one write: the stream before it, the bytes offered, the number of bytes that
    // the stream took (`None` if the write failed), and the stream after it.
    ghost writes: { Self → List ℕ → Option ℕ → Self → Type 0 };

    /// Offers bytes to the stream. Returns how many of them, from the first one on, it took, or
    /// `None` if the write failed.
    fn write(&mut self, bytes: &[u8]) -> Option<usize>
        ensures bound { IfSome result (λ n. n ≤ length bytes.now) }
        ensures known { TakesKnown (contents self.old) (contents self.new) bytes.now result }
        ensures call { writes self.old bytes.now result self.new };
}

/// A file that can be read.
pub trait RawReader {
    // The bytes that remain to be read, or `None` if unknown.
    ghost remaining: { Self → Option (List ℕ) };

    // The relation of one read: the file before it, the bytes read (`None` if the read failed),
    // and the file after it.
    ghost reads: { Self → Option (List ℕ) → Self → Type 0 };

    /// Reads the next bytes of the file into the start of the buffer, which must not be empty.
    /// Returns the number of bytes read, which is 0 only at the end of the file, or `None` if the
    /// read failed.
    fn read(&mut self, buffer: &mut [u8]) -> Option<usize>
        requires { 0 < length buffer.old }
        ensures bound { IfSome result (λ n. n ≤ length buffer.new) }
        ensures known { GivesKnown (remaining self.old) (remaining self.new)
            (option_map (λ n. take n buffer.new) result) }
        ensures call { reads self.old (option_map (λ n. take n buffer.new) result) self.new };
}

/// Files that can be opened by name.
pub trait RawFiles {
    type File: RawReader + Drop;

    // The relation of one call of `open`: the files before it, the name, the opened file (`None`
    // if the call failed), and the files after it.
    ghost opens: { Self → List ℕ → Option Self.File → Self → Type 0 };

    /// Opens the file `name`. The first read begins at the file's first byte. Returns `None` if
    /// the file couldn't be opened.
    fn open(&mut self, name: &str) -> Option<Self::File>
        ensures call { opens self.old name.now result self.new };
}
