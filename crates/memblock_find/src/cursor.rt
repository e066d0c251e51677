//! The position of a walk over unclaimed memory: the address that the walk has reached, and a
//! [`Look`] at each of memblock's two tables. A look has the label of the addresses next to that
//! address, and the address at which the label may change. A walk down looks at the addresses below
//! its address, a walk up at those from its address on. Each look reads one record, and is kept
//! until the walk has passed it.
ghost use Rattle.std.specs.Prelude.{◌≡◌};
ghost use Rattle.memblock_find.specs.Walk.{unclaimed_label};

use memblock_model::{Label, Which};
use memblock_ranges::{Records, Tables};

/// What one table says about the addresses next to the one that a walk has reached. In a walk down
/// they are those from `bound` to just below the walk's address; in a walk up, those from the
/// walk's address to just below `bound`.
#[derive(Clone, Copy)]
pub struct Look {
    /// The label of these addresses, or `None` if the table doesn't cover them.
    pub label: Option<Label>,
    /// The address at which the label may change.
    pub bound: u64,
    /// In a walk down, the number of the table's records that begin below `bound`. In a walk up,
    /// the number of those that end at or below `bound`.
    pub slot: u64,
}

/// Readers for the records of memblock's two tables.
#[derive(Drop)]
pub struct RecordReaders<'a> {
    pub memory: Records<'a>,
    pub reserved: Records<'a>,
}

/// Returns readers for the records of both tables.
// Inlined: a struct that isn't inlined is returned through memory, which costs time in a search
// whose first gap fits.
#[inline(always)]
pub fn record_readers(tables: &Tables) -> RecordReaders<'_>
    ensures memory { result.memory ≡ tables.now.memory.records }
    ensures reserved { result.reserved ≡ tables.now.reserved.records }
{
    RecordReaders {
        memory: tables.records(Which::Memory),
        reserved: tables.records(Which::Reserved),
    }
}

/// The position of a walk over unclaimed memory: the address that it has reached, and what each
/// table says about the addresses next to it.
#[derive(Clone, Copy)]
pub struct Cursor {
    /// The address that the walk has reached.
    pub at: u64,
    pub memory: Look,
    pub reserved: Look,
}

impl Cursor {
    /// Returns the label of the addresses next to the cursor if they are unclaimed memory, else
    /// `None`. They are unclaimed memory if the memory table covers them and the reserved table
    /// doesn't.
    pub fn unclaimed_label(&self) -> Option<Label>
        ensures { result ≡ unclaimed_label self.now }
    {
        match self.reserved.label {
            None => self.memory.label,
            Some(_) => None,
        }
    }
}
