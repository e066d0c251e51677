//! The owners of claimed memory, and the names of memblock's two tables.
//!
//! The kernel's reserved table doesn't record owners. This project records them, so that each
//! frame that isn't handed over to the buddy allocator has an owner.

/// The owner of claimed bytes: what the kernel reserved them for.
#[derive(Clone, Copy, Debug, PartialEq, Eq)]
pub enum Owner {
    /// The kernel's image (`early_reserve_memory`).
    Kernel,
    /// The first 64 KiB, which firmware may overwrite (`early_reserve_memory`).
    Low64K,
    /// The image of the initial file system (`early_reserve_initrd`).
    Initrd,
    /// The first MiB (`reserve_real_mode`).
    Low1M,
    /// Memory that firmware sets aside for a driver (`E820_TYPE_SOFT_RESERVED`).
    Soft,
    /// The memory of this memblock table after it has grown (`memblock_double_array`).
    Table(Which),
    /// The `pg_data_t` of the node with this number (`alloc_node_data`).
    NodeData(u32),
    /// The crash kernel's area (`reserve_crashkernel`).
    Crash,
    /// The crash kernel's area below 4 GiB (`reserve_crashkernel_low`).
    CrashLow,
    /// The `mem_section` array, which points to the section roots (`memory_present`).
    Roots,
    /// The section root with this number: one page of `struct mem_section`s (`sparse_index_alloc`).
    Root(u32),
    /// The usage data (`struct mem_section_usage`) of consecutive sections of one node. The number
    /// is that of the first section (`sparse_early_usemaps_alloc_pgdat_section`).
    Usage(u32),
    /// The page structures (`struct page`) of the section with this number. If consecutive sections
    /// of one node share a buffer, the number is that of the first (`sparse_buffer_init`).
    Map(u32),
    /// An allocation of the early script with this ID.
    Script(u32),
}

/// One of memblock's two tables.
#[derive(Clone, Copy, Debug, PartialEq, Eq)]
pub enum Which {
    /// All memory (`memblock.memory`).
    Memory,
    /// Claimed memory (`memblock.reserved`).
    Reserved,
}
