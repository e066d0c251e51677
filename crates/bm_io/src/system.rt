//! The three calls of the operating system (open, read and write), one line each.
//!
//! These lines are trusted without a proof: no contract can say that such a call reaches the file
//! or the stream that it is meant for.
ghost use Rattle.bm_io.specs.Known.{TakesKnown, GivesKnown};

use crate::raw::{RawFiles, RawReader, RawWriter};
use std::io::{Read, Write};
use std::{fs, rt};

/// A stream or an open file of the operating system (`inner`), to which a write or a read is one
/// system call.
#[derive(Drop)]
pub struct SystemStream<T: Drop> {
    pub inner: T,
}

impl<W: Write + Drop> RawWriter for SystemStream<W> {
    ghost contents = { λ s. W.contents s.inner };

    // All that contracts know of a write: the stream's contents grew by the bytes that it took.
    ghost writes = { λ before bytes taken after.
        TakesKnown (W.contents before.inner) (W.contents after.inner) bytes taken };

    fn write(&mut self, bytes: &[u8]) -> Option<usize> {
        self.inner.write(bytes).ok()
    }
}

impl<F: Read + Drop> RawReader for SystemStream<F> {
    ghost remaining = { λ s. F.remaining s.inner };

    // All that contracts know of a read: the bytes that it returned were the next ones of the
    // file.
    ghost reads = { λ before given after.
        GivesKnown (F.remaining before.inner) (F.remaining after.inner) given };

    fn read(&mut self, buffer: &mut [u8]) -> Option<usize> {
        self.inner.read(buffer).ok()
    }
}

/// The files of the operating system, which Rattle's runtime opens by name.
#[derive(Drop)]
pub struct SystemFiles<'a, R: rt::Files> {
    pub runtime: &'a R,
}

impl<'a, R: rt::Files> RawFiles for SystemFiles<'a, R> {
    type File = SystemStream<R::File>;

    // Contracts know nothing of the file that is opened for a name.
    ghost opens = { λ before name opened after. Unit {0} };

    fn open(&mut self, name: &str) -> Option<SystemStream<R::File>> {
        let inner = fs::open(self.runtime, name).ok()?;
        Some(SystemStream { inner })
    }
}
