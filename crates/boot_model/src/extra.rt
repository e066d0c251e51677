//! What a boot is given besides its inputs: a profile, and lines of early claims.

ghost use Rattle.std.specs.Prelude.{◌≡◌, []};
ghost use Rattle.boot_model.specs.Facts.{HaveBounds, HaveBounds-prop, HaveNoSections, HaveNoSections-prop};

use crash_kernel::CrashRule;
use script_reader::Line;
use std::alloc::Global;
use zone_spans::ZoneRule;

/// The rules of a boot in which `bootmem` and Linux 6.1 differ.
#[derive(Clone, Copy, Debug, PartialEq, Eq)]
pub struct Profile {
    /// How the size of the crash area follows from total memory.
    pub crash: CrashRule,
    /// Where a zone of a node starts and ends.
    pub zones: ZoneRule,
}

impl Profile {
    ghost use Rattle.std.specs.Prelude.{◌≡◌};
    ghost use Rattle.boot_model.specs.Profiles.{linux_profile, own_profile};

    /// Returns the profile of `bootmem`. For the crash area, total memory isn't rounded and doesn't
    /// bound the size. A zone of a node spans from the node's first memory frame in it to the last.
    pub fn own() -> Profile
        ensures { result ≡ own_profile }
    {
        Profile {
            crash: CrashRule::ExactTotal,
            zones: ZoneRule::Frames,
        }
    }

    /// Returns the profile of Linux 6.1. For the crash area, total memory is rounded up to 128 MiB
    /// and bounds the sizes (`parse_crashkernel_mem`). A zone of a node spans all frames inside its
    /// borders from the node's first memory frame, in any zone, to its last
    /// (`zone_spanned_pages_in_node`).
    pub fn linux_6_1() -> Profile
        ensures { result ≡ linux_profile }
    {
        Profile {
            crash: CrashRule::RoundedTotal,
            zones: ZoneRule::NodeHull,
        }
    }
}

/// What a boot is given besides its inputs: the rules in which `bootmem` and Linux 6.1 differ, and
/// the lines of early claims.
#[derive(Drop)]
pub struct Extra {
    /// The rules of the boot.
    pub profile: Profile,
    /// The lines of early claims: a script that runs before memory gets its nodes. The numbers in
    /// each line are within their bounds, and no line places the sections.
    pub claims: Vec<Line>,
    ghost bounds_fit: { HaveBounds claims.items } by { HaveBounds-prop claims.items },
    ghost no_sections: { HaveNoSections claims.items } by { HaveNoSections-prop claims.items },
}

impl Extra {
    ghost use Rattle.std.specs.Prelude.{◌≡◌, []};
    ghost use Rattle.boot_model.specs.View.{extra_view};

    /// Returns a profile without early claims.
    pub fn without_claims(alloc: Global, profile: Profile) -> Extra
        ensures { extra_view result ≡ record { profile = profile; claims = [] } }
    {
        Extra {
            profile,
            claims: Vec::new(alloc),
        }
    }
}
