//! A law about memblock's two tables: the store holds their records, encoded. Proofs use it to know
//! the tables' bytes after a change.
ghost use Rattle.memblock_ranges.specs.Tables.{IsInStore};

use memblock_model::Which;
use memblock_ranges::Tables;

/// Law: the bytes of both tables are the encoding of their records.
pub fn tables_are_in_store(tables: &Tables)
    ensures memory { IsInStore tables.now.memory tables.now.store }
    ensures reserved { IsInStore tables.now.reserved tables.now.store }
{
    tables.head(Which::Memory);
    tables.head(Which::Reserved);
}
