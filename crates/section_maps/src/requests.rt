//! The requests for a group of sections and for one section. The request for the maps of a group
//! and the one for the map of a section differ only in the number of maps, and in whether another
//! node is allowed.

ghost use Rattle.std.specs.Prelude.{◌≡◌, ◌+◌, ◌*◌, ◌^◌, ◌≤◌};
ghost use Rattle.section_maps.specs.Maps.{usage_request, map_request};

use growth_model::Request;

/// The size in bytes of the usage data of a section (`mem_section_usage_size`).
pub const USAGE_SIZE: u64 = 40;

/// The size in bytes of the map of a section, and its alignment (`section_map_size`).
pub const MAP_SIZE: u64 = 0x20_0000;

/// The lowest address of a map, if there is room above it (`__pa(MAX_DMA_ADDRESS)`).
const MAP_MIN: u64 = 0x100_0000;

/// Returns the request for the usage data of `count` sections, 40 bytes each, on the node if there
/// is room.
pub fn usage_request(count: u64, node: u32) -> Request
    requires { count ≤ 2 ^ 32 }
    ensures { result ≡ usage_request count node }
{
    Request {
        size: USAGE_SIZE * count,
        align: 64,
        min: 0,
        max: None,
        node: Some(node),
        exact: false,
    }
}

/// Returns the request for the maps of `count` sections, 2 MiB each, at or above 16 MiB if there is
/// room. The place must be on the node if `exact` is set. Otherwise another node is allowed.
pub fn map_request(count: u64, node: u32, exact: bool) -> Request
    requires { count ≤ 2 ^ 32 }
    ensures { result ≡ map_request count node exact }
{
    Request {
        size: MAP_SIZE * count,
        align: MAP_SIZE,
        min: MAP_MIN,
        max: None,
        node: Some(node),
        exact,
    }
}
