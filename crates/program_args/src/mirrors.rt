//! Mirrored memory, from the value of `--mirror`: a list of ranges, each written `BASE,SIZE`, with
//! colons between them. Only whole frames are mirrored, so each range is cut to the whole frames
//! that lie in it. The list is checked before memory is allocated for its ranges, so a refused list
//! is never reported as out of memory.

ghost use Rattle.std.specs.Prelude.{◌≡◌, IfOk, IfSome, IsErrOf, IsSome};
ghost use Rattle.std.specs.List.{All};
ghost use Rattle.std.specs.Option.{option_copied};
ghost use Rattle.bm_base.specs.Answers.{Answers};
ghost use Rattle.program_args.specs.Answers.{or_refused};
ghost use Rattle.boot_model.specs.Mirrors.{IsMirror};
ghost use Rattle.program_args.specs.Mirrors.{are_mirror_pieces, piece_frames, mirrors_in_list, mirrors_of_value};
ghost use Rattle.program_args.specs.Range.{base_size_range};

use crate::reader::ArgsError;
use bm_base::{Memory, Range};
use boot_model::mirrors_are_whole_frames;
use boot_options::read_whole_size;
use std::alloc::Global;
use text_words::{Separators, next_part, split_once};

/// The greatest number of ranges in the list of `--mirror`.
const MOST_RANGES: usize = 64;

/// Returns the mirrored ranges in the order of the list `value`, each cut to whole frames. Ranges
/// without a whole frame are left out. Returns an empty list if `--mirror` isn't given (`value` is
/// `None`).
///
/// # Errors
///
/// - [`ArgsError::Usage`]: the list has more than 64 ranges, or a part of it between colons isn't a
///   range `BASE,SIZE`.
/// - [`ArgsError::Memory`]: this program is out of memory. This never comes instead of `Usage`.
pub fn mirrors_of_value(alloc: Global, value: Option<&str>) -> Result<Vec<Range>, ArgsError>
    ensures value { Answers ArgsError.Memory (λ ranges. ranges.items) result
        (or_refused (mirrors_of_value (option_copied value.entry))) }
    ensures facts { IfOk result (λ ranges. All IsMirror ranges.items) }
    ensures memory { IsErrOf result ArgsError.Memory
        → IsSome (mirrors_of_value (option_copied value.entry)) }
{
    let Some(list) = value else {
        return Ok(Vec::new(alloc));
    };
    if !are_mirror_pieces(list.as_bytes()) {
        return Err(ArgsError::Usage);
    }
    Ok(mirrors_in_list(alloc, list.as_bytes())?)
}

/// Tests whether the list has 1 to 64 ranges `BASE,SIZE`, separated by colons.
fn are_mirror_pieces(list: &[u8]) -> bool
    ensures { result ≡ are_mirror_pieces list.now }
{
    let mut pieces = 0;
    let mut rest = Some(list);
    while let Some(text) = rest {
        let (piece, after) = next_part(text, Separators::Byte(b':'));
        if pieces == MOST_RANGES || base_size_range(piece).is_none() {
            return false;
        }
        pieces += 1;
        rest = after;
    }
    true
}

/// Returns the ranges of the list, each cut to the whole frames in it, without the ranges that
/// contain no whole frame. Fails only if out of memory.
fn mirrors_in_list(alloc: Global, list: &[u8]) -> Result<Vec<Range>, Memory>
    ensures value { IfOk result (λ ranges. ranges.items ≡ mirrors_in_list list.now) }
    ensures facts { IfOk result (λ ranges. All IsMirror ranges.items) }
{
    let mut mirrors = Vec::new(alloc);
    let mut rest = Some(list);
    while let Some(text) = rest {
        let (piece, after) = next_part(text, Separators::Byte(b':'));
        if let Some(frames) = piece_frames(piece) {
            mirrors.push(frames)?;
        }
        rest = after;
    }
    Ok(mirrors)
}

/// Returns the range of the whole frames in the range `BASE,SIZE` that `piece` gives. Returns
/// `None` if `piece` isn't such a range, or the range contains no whole frame.
fn piece_frames(piece: &[u8]) -> Option<Range>
    ensures value { result ≡ piece_frames piece.now }
    ensures facts { IfSome result IsMirror }
{
    mirrors_are_whole_frames();
    base_size_range(piece)?.whole_frames()
}

/// Returns the range that the text `BASE,SIZE` gives. Both parts are numbers of bytes in the
/// notation of the kernel's command line (`memparse`), as in `16M,32M`. Returns `None` if the text
/// has another form, or if BASE plus SIZE exceeds 2^64 - 1.
pub fn base_size_range(text: &[u8]) -> Option<Range>
    ensures { result ≡ base_size_range text.now }
{
    let (base, size) = split_once(text, b',')?;
    Range::new(read_whole_size(base)?, read_whole_size(size)?)
}
