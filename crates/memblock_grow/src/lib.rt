//! memblock itself: two tables that grow in the memory that they describe, and the journal of what
//! happened to them (`struct memblock`).
//!
//! A claim or an added range may find its table full. The table then doubles its room
//! (`memblock_double_array`): it moves to new memory, which is found by the usual search and
//! claimed, and its old memory is freed. If the memory table moves, the claim and the free may make
//! the reserved table grow. `growth_model` defines what each call appends to the journal, as a
//! function of the journal's items so far. Each call here ends as that definition says
//! (`EndsAsChange`). Either it succeeds, or it is refused because no memory was found for a table,
//! or it stops before one of its steps because this program is out of memory.
//!
//! [`Memblock`] is the one value that the layers above use. They may rest on these facts:
//!
//! - Each call that changes memory keeps `ContinuesMemblock` (`specs/Continues.antt`). The kernel's
//!   image stays where it is, and each byte is what the items say. Each address that the store had
//!   prepared for writing is still prepared.
//! - After each call both tables are those of the items and are encoded in their bytes. They lie in
//!   claimed memory, apart from each other (`IsMemblock` in `specs/Invariant.antt`).
//! - A call prepares the frames that tables grew into, and no other address. Two calls are
//!   exceptions: `new` prepares both tables, and `fill` prepares its range. If this program runs
//!   out of memory, the memory that the memory table was to move to may stay prepared
//!   (`specs/Prepared.antt`).
//!
//! The functions below `Memblock` (`src/reserved.rt`, `src/memory.rt`, `src/request.rt`) take the
//! journal, the tables, and the limit and direction of searches (`AllocSettings`) as three values.
//! They can't take a `Memblock`, since in the middle of a growth the tables aren't those of the
//! items. [`What`], [`StageStop`] and [`Section`] are plain data that the stages above share.
//!
//! In contracts, a name means the definition in `specs/`. A law is an empty function whose contract
//! is a proven fact.
#![tactic(auto)]

mod memblock;
mod memory;
mod new_records;
mod places;
mod request;
mod reserved;
mod stop;
mod table_laws;

pub use growth_model::{Refusal, Request};
pub use memblock::{Memblock, no_items_no_change};
pub use stop::{Section, StageStop, What};
