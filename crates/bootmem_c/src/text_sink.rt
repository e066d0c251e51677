//! A text in memory to which the program can write.

ghost use Rattle.std.specs.Prelude.{◌≡◌, true, false, [], ◌++◌, Some, OnOk, OnErr, IsErrOf};
ghost use Rattle.bootmem_c.specs.Copies.{failed_writes_of};

use bm_io::{Put, Sink};
use std::alloc::Global;
use std::marker::Model;

/// A text in memory, to which each write appends. A write fails only if this program is out of
/// memory; it then appends nothing.
#[derive(Drop)]
pub struct TextSink {
    text: Vec<u8>,
    is_short: bool,
}

impl Model for TextSink {
    ghost use Rattle.bootmem_c.specs.Copies.{TextSinkView};

    ghost Value = { TextSinkView };

    ghost view = { λ s. record { text = s.text.items; is_short = s.is_short } };
}

impl TextSink {
    pub fn new(alloc: Global) -> TextSink
        ensures text { result.text ≡ [] }
        ensures is_short { result.is_short ≡ false }
    {
        TextSink {
            text: Vec::new(alloc),
            is_short: false,
        }
    }

    /// Returns the text that was written so far.
    pub fn text(&self) -> &[u8]
        ensures { result.now ≡ self.now.text }
    {
        self.text.as_slice()
    }

    /// Returns whether some write failed because memory ran out, so that part of the text is
    /// missing.
    pub fn is_short(&self) -> bool
        ensures { result ≡ self.now.is_short }
    {
        self.is_short
    }
}

impl Sink for TextSink {
    ghost written = { λ s. Some s.text };

    ghost faults = { λ s. 0 };

    // The counter of writes that failed because memory ran out: 0 until the first of them, and
    // 2^64 - 1 from then on.
    ghost wants = { λ s. failed_writes_of s };

    fn put(&mut self, chunk: &[u8]) -> Result<(), Put>
        ensures whole { OnOk result (self.new.text ≡ self.old.text ++ chunk.now) }
        ensures none { OnErr result (self.new.text ≡ self.old.text) }
        ensures stays { OnOk result (self.new.is_short ≡ self.old.is_short) }
        ensures short { OnErr result (self.new.is_short ≡ true) }
        ensures never { ¬ IsErrOf result Put.Failed }
    {
        if self.text.extend_from_slice(chunk).is_err() {
            self.is_short = true;
            return Err(Put::Memory);
        }
        Ok(())
    }
}
