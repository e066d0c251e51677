//! An output to a stream of the operating system.
//!
//! One write may take only some of the bytes, so a put repeats the write with the remaining bytes
//! until all are taken. It is proved for every stream that a put makes exactly these writes, and
//! fails only if one of them fails or takes no byte.
ghost use Rattle.std.specs.Prelude.{◌≡◌, ◌^◌, ◌<◌, ◌≤◌, OnOk, OnErr, IsErrOf};
ghost use Rattle.std.specs.Io.KnownBytes.{Appends};
ghost use Rattle.bm_io.specs.Counts.{count_after, Rose};
ghost use Rattle.bm_io.specs.MemSink.{put_failures};
ghost use Rattle.bm_io.specs.Known.{AppendsFront};
ghost use Rattle.bm_io.specs.Calls.{IsPutBy};

use crate::raw::RawWriter;
use crate::system::SystemStream;
use crate::writing::{Put, Sink};
use std::io::Write;
use std::marker::Model;

/// An output to a stream of the operating system, such as standard output. Contracts know the
/// written bytes only if they know the stream's contents. A put never returns `Memory`.
#[derive(Drop)]
pub struct StdSink<W: RawWriter + Drop> {
    stream: W,
    faults: u64,
}

impl<W: RawWriter + Drop> Model for StdSink<W> {
    ghost use Rattle.std.specs.Prelude.{◌^◌, ◌<◌};
    ghost use Rattle.bm_io.specs.Counters.{StdSinkView};

    ghost Value = { StdSinkView W };

    ghost view = { λ s. record { stream = s.stream; faults = s.faults } };

    ghost invariant = { λ s. s.faults < 2 ^ 64 };
}

impl<W: Write + Drop> StdSink<SystemStream<W>> {
    /// Returns an output that writes to the stream `writer`; writes nothing yet. The count of
    /// failed puts begins at 0.
    pub fn new(writer: W) -> StdSink<SystemStream<W>>
        ensures stream { result.stream.inner ≡ writer }
        ensures faults { result.faults ≡ 0 }
    {
        StdSink {
            stream: SystemStream { inner: writer },
            faults: 0,
        }
    }
}

impl<W: RawWriter + Drop> Sink for StdSink<W> {
    ghost written = { λ s. W.contents s.stream };

    ghost faults = { λ s. s.faults };

    ghost wants = { λ s. 0 };

    /// Writes all bytes of the chunk to the stream. If the stream takes only some of them, the
    /// rest is written next, until all are taken.
    ///
    /// # Errors
    ///
    /// - `Failed` if a write failed or took no byte. The counter of failed puts rises by 1.
    /// - Never `Memory`.
    fn put(&mut self, chunk: &[u8]) -> Result<(), Put>
        ensures calls { IsPutBy W.writes self.old.stream chunk.now result self.new.stream }
        ensures whole { OnOk result
            (Appends (W.contents self.old.stream) (W.contents self.new.stream) chunk.now) }
        ensures front { OnErr result
            (AppendsFront (W.contents self.old.stream) (W.contents self.new.stream) chunk.now) }
        ensures faults { self.new.faults ≡ count_after self.old.faults (put_failures result) }
        ensures failed { IsErrOf result Put.Failed → Rose self.old.faults self.new.faults }
        ensures never { ¬ IsErrOf result Put.Memory }
        ensures uncounted { OnOk result (self.new.faults ≡ self.old.faults) }
        ensures faults_stay { self.old.faults ≤ self.new.faults }
        ensures faults_fit { self.new.faults < 2 ^ 64 }
    {
        let mut rest = chunk;
        while !rest.is_empty() {
            match self.stream.write(rest) {
                Some(count) if count > 0 => rest = &rest[count..],
                _ => {
                    self.faults = self.faults.saturating_add(1);
                    return Err(Put::Failed);
                }
            }
        }
        Ok(())
    }
}
