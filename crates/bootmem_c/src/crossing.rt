//! The types that `include/bootmem.h` declares for words, files and texts. In C a slice is a
//! pointer and a length.

ghost use Rattle.std.specs.Prelude.{◌≤◌, length};
ghost use Rattle.bootmem_c.specs.Copies.{BeginsWithText, CopiesText};

/// A word of the command line that the caller passes, as bytes.
#[repr(C)]
#[derive(Clone, Copy)]
pub struct Bytes<'a> {
    pub bytes: &'a [u8],
}

/// A file that the caller passes: its name and the bytes that it contains.
#[repr(C)]
#[derive(Clone, Copy)]
pub struct File<'a> {
    pub name: &'a [u8],
    pub bytes: &'a [u8],
}

/// A text for the caller. `room` is the caller's buffer. The call copies the text into it if it
/// fits, and sets `needed` to the length of the text in bytes, even if it doesn't.
#[repr(C)]
#[derive(Drop)]
pub struct Text<'a> {
    pub room: &'a mut [u8],
    pub needed: usize,
}

/// Copies the text to the beginning of `out.room` if it fits, and sets `out.needed` to its length
/// in bytes. The bytes of the buffer after the text are unchanged. If the text doesn't fit, the
/// whole buffer is unchanged.
pub fn copy_text(text: &[u8], out: &mut Text<'_>)
    ensures { CopiesText text.now out.old out.new }
{
    out.needed = text.len();
    if text.len() <= out.room.len() {
        copy_to_front(text, out.room);
    }
}

/// Copies the text to the beginning of the buffer `room`, which must be at least as long as the
/// text. The bytes after the text are unchanged.
fn copy_to_front(text: &[u8], room: &mut [u8])
    requires { length text.now ≤ length room.old }
    ensures { BeginsWithText text.now room.old room.new }
{
    room[..text.len()].copy_from_slice(text);
}
