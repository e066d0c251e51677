//! The number of bits of a physical address, which depends on the depth of the page tables.
ghost use Rattle.std.specs.Prelude.{◌≡◌};
ghost use Rattle.bm_base.specs.Width.{address_limit_of, root_table_size_of};

/// The width of physical addresses in bits (`MAX_PHYSMEM_BITS` of arch/x86/include/asm/sparsemem.h,
/// which depends on `pgtable_l5_enabled`).
#[derive(Clone, Copy, Debug, PartialEq, Eq)]
pub enum Width {
    /// Four levels of page tables: 46 bits, 64 TiB.
    Bits46,
    /// Five levels of page tables (`X86_FEATURE_LA57`): 52 bits, 4 PiB.
    Bits52,
}

impl Width {
    /// Returns the first address above all possible memory: 2^46 or 2^52.
    pub fn limit(self) -> u64
        ensures { result ≡ address_limit_of self }
    {
        match self {
            Width::Bits46 => 1 << 46,
            Width::Bits52 => 1 << 52,
        }
    }

    /// Returns the size in bytes of the kernel's table of section roots (`mem_section`): 16 KiB or
    /// 1 MiB. The table has 8 bytes for each of `NR_SECTION_ROOTS` roots, and a root covers 256
    /// sections of 128 MiB.
    pub fn root_table(self) -> u64
        ensures { result ≡ root_table_size_of self }
    {
        match self {
            Width::Bits46 => 16_384,
            Width::Bits52 => 1_048_576,
        }
    }
}
