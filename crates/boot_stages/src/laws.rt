//! The law about the stages that accept the map. The contract of `boot` allows out of memory
//! instead of any stop. By this law, what the e820 table returns when it is asked for its map
//! already decides whether the boot stops because of the map.

ghost use Rattle.e820_model.specs.Map.{map_of};
ghost use Rattle.bm_base.specs.Answers.{Answers};
ghost use Rattle.e820_sanitise.specs.declared.table.MapFault.TheVariants as faults;
ghost use Rattle.e820_sanitise.specs.Room.{map_if_room};
ghost use Rattle.boot_model.specs.Boot.{InputsView, claims};
ghost use Rattle.boot_stages.specs.Boots.{DecidesMapStages, TableMapResult};

/// Law: what the e820 table returns when it is asked for its map decides how the first stages of
/// the boot end. If the table returns the map, the boot goes on with 1 to 2^32 usable frames, and
/// otherwise stops with `NoRam` or `TooMuchRam`. If the map has too many runs, the boot stops with
/// `MapFull` and their number. If the table runs out of memory, the law says nothing.
pub fn table_result_decides_map_stages()
    ensures { (inputs : InputsView) (answer : TableMapResult) →
        Answers faults.Memory (λ runs. runs.items) answer (map_if_room (map_of (claims inputs))) →
        DecidesMapStages inputs answer }
{}
