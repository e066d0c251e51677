//! Reads where the boot loader put the initrd, the image that the kernel unpacks.
//!
//! The zero page has the address and the size in two halves each, since the boot protocol at first
//! had only 32 bits for them. The kernel reserves all of the image's last frame
//! (`early_reserve_initrd`), so the range that is returned ends at the end of that frame.

ghost use Rattle.std.specs.Prelude.{◌≡◌, ℕ, ◌+◌, ◌-◌, ◌*◌, ◌^◌, ◌<◌, ◌≤◌, length, IfErr, IfOk, OnErr, OnOk, IfSome, None, Some, SomeIff, true, false};
ghost use Rattle.e820_table.specs.Initrd.{halves_at, initrd_of, is_initrd_too_far, reserved_initrd_range, to_frame_end, IsInitrd};
ghost use Rattle.e820_table.specs.ZeroPage.{initrd_fault};

use crate::zero_page::ZeroFault;
use bm_base::{FRAME_SIZE, Range, round_up};
use byteorder::{ByteOrder, LittleEndian};

/// The offset in the zero page of the boot loader's type, a byte (`type_of_loader`).
const LOADER_OFFSET: usize = 0x210;

/// The offset in the zero page of the lower 32 bits of the initrd's address (`ramdisk_image`).
const IMAGE_OFFSET: usize = 0x218;

/// The offset in the zero page of the upper 32 bits of the initrd's address (`ext_ramdisk_image`).
const UPPER_IMAGE_OFFSET: usize = 0x0C0;

/// The offset in the zero page of the lower 32 bits of the initrd's size (`ramdisk_size`).
const SIZE_OFFSET: usize = 0x21C;

/// The offset in the zero page of the upper 32 bits of the initrd's size (`ext_ramdisk_size`).
const UPPER_SIZE_OFFSET: usize = 0x0C4;

/// Returns the range that the kernel reserves for the initrd, or `None` if there is no initrd. The
/// range goes from the initrd's first byte to the end of the frame that has its last byte. `bytes`
/// must be a whole zero page, 4,096 bytes.
///
/// # Errors
///
/// - `InitrdTooFar`: the address plus the size of the initrd exceeds 2^64 - 4,096.
#[tactic(auto, unfolding(crate::specs::Initrd::initrd_of, crate::specs::Initrd::is_initrd_far))]
pub fn read_initrd(bytes: &[u8]) -> Result<Option<Range>, ZeroFault>
    requires { length bytes.now ≡ 4096 }
    ensures fault { IfErr result (λ fault. initrd_fault bytes.now ≡ Some fault) }
    ensures well_formed { OnOk result (initrd_fault bytes.now ≡ None) }
    ensures value { IfOk result (λ initrd. initrd ≡ initrd_of bytes.now) }
    ensures frames { IfOk result (λ initrd. IfSome initrd IsInitrd) }
{
    let base = read_halves(bytes, IMAGE_OFFSET, UPPER_IMAGE_OFFSET);
    let size = read_halves(bytes, SIZE_OFFSET, UPPER_SIZE_OFFSET);
    place_initrd(bytes[LOADER_OFFSET], base, size)
}

/// Returns the range from `base` to the end of the frame that has the last byte of the initrd,
/// which has `size` bytes. Returns `None` if there is no initrd: `loader` (the boot loader's type),
/// `base` or `size` is 0.
///
/// # Errors
///
/// - `InitrdTooFar`: there is an initrd, and `base + size` exceeds 2^64 - 4,096.
fn place_initrd(loader: u8, base: u64, size: u64) -> Result<Option<Range>, ZeroFault>
    ensures fault { IfErr result (λ fault. fault ≡ ZeroFault.InitrdTooFar) }
    ensures far { OnErr result (is_initrd_too_far loader (record { base = base; size = size })
        ≡ true) }
    ensures near { OnOk result (is_initrd_too_far loader (record { base = base; size = size })
        ≡ false) }
    ensures value { IfOk result (λ initrd.
        initrd ≡ reserved_initrd_range loader (record { base = base; size = size })) }
    ensures frames { IfOk result (λ initrd. IfSome initrd IsInitrd) }
{
    if loader == 0 || base == 0 || size == 0 {
        return Ok(None);
    }
    match to_frame_end(base, size) {
        Some(range) => Ok(Some(range)),
        None => Err(ZeroFault::InitrdTooFar),
    }
}

/// Returns the 64-bit number whose lower four bytes are at offset `lower` and whose upper four
/// bytes are at offset `upper`.
fn read_halves(bytes: &[u8], lower: usize, upper: usize) -> u64
    requires lower_in { lower + 4 ≤ length bytes.now }
    requires upper_in { upper + 4 ≤ length bytes.now }
    ensures { result ≡ halves_at lower upper bytes.now }
{
    let lower = LittleEndian::read_u32(&bytes[lower..]);
    let upper = LittleEndian::read_u32(&bytes[upper..]);
    u64::from(lower) + (u64::from(upper) << 32)
}

/// Returns the range from `base` to the end of the frame that has the last of the `size` bytes from
/// `base` on. Returns `None` if `base + size` exceeds 2^64 - 4,096. `size` must be above 0.
fn to_frame_end(base: u64, size: u64) -> Option<Range>
    requires { 0 < size }
    ensures range { SomeIff result (base + size ≤ 2 ^ 64 - FRAME_SIZE)
        (to_frame_end (record { base = base; size = size })) }
    ensures frames { IfSome result IsInitrd }
{
    let end = round_up(base.checked_add(size)?, FRAME_SIZE)?;
    Range::between(base, end)
}
