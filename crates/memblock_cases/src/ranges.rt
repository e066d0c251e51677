//! Short ways to write ranges, and the memory of machines.
ghost use Rattle.std.specs.Prelude.{◌≡◌, ◌+◌, ◌-◌, ◌^◌, ◌<◌, ◌≤◌};

use bm_base::Range;

/// A part of memory: its first address, the address past its last one, and its node, or 1,024
/// (`MAX_NUMNODES`) for no node.
pub type Part = (u64, u64, u32);

/// The kernel's image, 32 MiB from 16 MiB on.
pub const KERNEL: Range = Range {
    base: 0x100_0000,
    size: 0x200_0000,
};

/// The first MiB of addresses.
pub const FIRST_MIB: Range = Range {
    base: 0,
    size: 0x10_0000,
};

/// The memory of a virtual machine of 128 MiB, without what its firmware keeps.
pub const MACHINE: [Part; 2] = [(0x1000, 0x9F000, 0), (0x10_0000, 0x7FE_0000, 0)];

/// The memory of `MACHINE`, with node 1 at 65 MiB to 96 MiB and node 0 on both sides of it.
pub const IN_TURN: [Part; 4] = [
    (0x1000, 0x9F000, 0),
    (0x10_0000, 0x410_0000, 0),
    (0x410_0000, 0x600_0000, 1),
    (0x600_0000, 0x7FE_0000, 0),
];

/// Returns the range of `size` bytes from address `base` on.
pub fn bytes(base: u64, size: u64) -> Range
    requires { base + size < 2 ^ 64 }
    ensures { result ≡ record { base = base; size = size } }
{
    Range { base, size }
}

/// Returns the range of the addresses from `from` to below `until`.
pub fn between(from: u64, until: u64) -> Range
    requires { from ≤ until }
    ensures { result ≡ record { base = from; size = until - from } }
{
    Range {
        base: from,
        size: until - from,
    }
}
