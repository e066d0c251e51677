//! The profiles of a boot, by the numbers that `include/bootmem.h` gives them.

ghost use Rattle.std.specs.Prelude.{◌≡◌, Ok};
ghost use Rattle.boot_model.specs.Boot.{BootedView, ExtraView, InputsView, claims, whole_boot_with};
ghost use Rattle.bootmem_c.specs.Profiles.{profile_of_number};
ghost use Rattle.e820_model.specs.Map.{map_of};

/// Which program's boot a call makes.
#[derive(Clone, Copy, Debug, PartialEq, Eq)]
pub enum BootProfile {
    /// That of `bootmem`: its own rules, without early claims.
    Own,
    /// That of `bootmem61`: the rules of Linux 6.1, with early claims.
    Linux61,
}

/// The number of `bootmem`'s own profile (`BOOTMEM_OWN` in C).
pub const OWN: u32 = 0;

/// Returns the profile with this number, if there is one.
pub fn profile_of_number(number: u32) -> Option<BootProfile>
    ensures { result ≡ profile_of_number number }
{
    match number {
        0 => Some(BootProfile::Own),
        1 => Some(BootProfile::Linux61),
        _ => None,
    }
}

/// Law: the map of a boot depends on neither the profile nor the early claims. It is the map of the
/// entries and edits that the inputs give. So `bootmem_map` needs no profile.
pub fn map_is_the_same_by_each_profile()
    ensures { (extra : ExtraView) (inputs : InputsView) (booted : BootedView)
        → whole_boot_with extra inputs ≡ Ok booted → booted.map ≡ map_of (claims inputs) }
{}
