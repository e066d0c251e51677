//! Tests for the names of the owners of reserved memory, as the report `owners` prints them.

ghost use Rattle.std.specs.Prelude.{◌≡◌};
ghost use Rattle.audit_lines.specs.Forms.{is_first_owner, is_exactly, is_later_owner, is_numbered, is_numbered_owner, is_owner};

use crate::fields::{number_in, rest_after};

/// Tests whether the text is an owner's name as the report `owners` prints it: `kernel`, `initrd`,
/// `crash`, `map 3` and so on. An owner says for what a range of memory was reserved.
#[tactic(auto, unfolding(crate::specs::Forms::is_owner))]
pub fn is_owner(text: &[u8]) -> bool
    ensures { result ≡ is_owner text.now }
{
    is_first_owner(text) || is_later_owner(text) || is_numbered_owner(text)
}

/// Tests whether the text is the name of an owner that claims memory at the start of the boot.
fn is_first_owner(text: &[u8]) -> bool
    ensures { result ≡ is_first_owner text.now }
{
    is_exactly(text, b"kernel")
        || is_exactly(text, b"low-64k")
        || is_exactly(text, b"initrd")
        || is_exactly(text, b"low-1m")
        || is_exactly(text, b"soft-reserved")
}

/// Tests whether the text is the name of an owner that claims memory later in the boot and has no
/// number: one of memblock's tables, a part of the crash area, or the table of section roots (the
/// kernel's `mem_section`).
fn is_later_owner(text: &[u8]) -> bool
    ensures { result ≡ is_later_owner text.now }
{
    is_exactly(text, b"table-memory")
        || is_exactly(text, b"table-reserved")
        || is_exactly(text, b"crash")
        || is_exactly(text, b"crash-low")
        || is_exactly(text, b"roots")
}

/// Tests whether the text is the name of an owner that has a number, followed by a number below
/// 2^32, such as `node-data 1`.
fn is_numbered_owner(text: &[u8]) -> bool
    ensures { result ≡ is_numbered_owner text.now }
{
    is_numbered(text, b"node-data ")
        || is_numbered(text, b"root ")
        || is_numbered(text, b"usage ")
        || is_numbered(text, b"map ")
        || is_numbered(text, b"script ")
}

/// Tests whether the text and `word` are the same bytes.
#[tactic(auto, unfolding(crate::specs::Forms::is_exactly))]
fn is_exactly(text: &[u8], word: &[u8]) -> bool
    ensures { result ≡ is_exactly word.now text.now }
{
    match rest_after(text, word) {
        Some(rest) => rest.is_empty(),
        None => false,
    }
}

/// Tests whether the text is `front` followed by a decimal number below 2^32, and nothing else.
#[tactic(auto, unfolding(crate::specs::Forms::is_numbered))]
fn is_numbered(text: &[u8], front: &[u8]) -> bool
    ensures { result ≡ is_numbered front.now text.now }
{
    let Some(digits) = rest_after(text, front) else {
        return false;
    };
    match number_in(digits, u32::MAX) {
        Some((_, rest)) => rest.is_empty(),
        None => false,
    }
}
