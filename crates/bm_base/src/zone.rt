//! Zones group frames by the devices that can address them.
ghost use Rattle.std.specs.Prelude.{◌≡◌};
ghost use Rattle.bm_base.specs.Zones.{zone_of};

/// The zone of a frame (`enum zone_type` of x86-64).
#[derive(Clone, Copy, Debug, PartialEq, Eq, PartialOrd, Ord)]
pub enum Zone {
    /// Below 16 MiB, for devices of the ISA bus (`ZONE_DMA`).
    Dma,
    /// From 16 MiB to 4 GiB, for devices with 32 address bits (`ZONE_DMA32`).
    Dma32,
    /// At or above 4 GiB (`ZONE_NORMAL`).
    Normal,
}

/// The number of the first frame above zone Dma (`MAX_DMA_PFN`), at 16 MiB.
pub const MAX_DMA_FRAME: u64 = 4096;

/// The number of the first frame above zone Dma32 (`MAX_DMA32_PFN`), at 4 GiB.
pub const MAX_DMA32_FRAME: u64 = 1_048_576;

/// The greatest number of memory nodes (`MAX_NUMNODES`). The number of each node is below it.
pub const MAX_NODES: u32 = 1024;

/// Returns the zone of the frame with the number `frame` (`zone_sizes_init`).
pub fn zone_of(frame: u64) -> Zone
    ensures { result ≡ zone_of frame }
{
    if frame < MAX_DMA_FRAME {
        return Zone::Dma;
    }
    if frame < MAX_DMA32_FRAME {
        return Zone::Dma32;
    }
    Zone::Normal
}
