//! Writes several chunks. The caller sees the contract of a single put of all their bytes.
//!
//! A line of a report is made of constant texts and of numbers, which are formatted in small
//! buffers. [`put_all`] writes these chunks one by one, so no memory is allocated for the line.
ghost use Rattle.std.specs.Prelude.{◌≡◌, []};
ghost use Rattle.std.specs.List.{flat_map};
ghost use Rattle.bm_io.specs.Puts.{Puts};

use crate::writing::{Put, Sink};
use std::convert::AsSlice;

/// Appends the chunks to the output in order, and stops at the first error. Empty chunks are
/// skipped. The contract is that of one [`Sink::put`] with the bytes of all chunks: after an error
/// the output has the first of these bytes (none, some or all).
///
/// # Errors
///
/// The error of the first put that fails: `Failed` or `Memory`.
pub fn put_all<S: Sink, P: AsSlice<u8>>(out: &mut S, chunks: &[P]) -> Result<(), Put>
    ensures puts { Puts S.Sink out.old out.new result (flat_map P.items chunks.now) }
    ensures untouched { flat_map P.items chunks.now ≡ [] → out.new ≡ out.old }
{
    for chunk in chunks {
        put_if_not_empty(out, chunk.as_slice())?;
    }
    Ok(())
}

/// Appends the chunk with one put, or does nothing if the chunk is empty.
///
/// # Errors
///
/// The error of the put: `Failed` or `Memory`.
fn put_if_not_empty<S: Sink>(out: &mut S, chunk: &[u8]) -> Result<(), Put>
    ensures puts { Puts S.Sink out.old out.new result chunk.now }
    ensures untouched { chunk.now ≡ [] → out.new ≡ out.old }
{
    if chunk.is_empty() {
        return Ok(());
    }
    out.put(chunk)
}
