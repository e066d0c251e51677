//! The result of [`made`](crate::made): a table in the form of a zero page and its extension.

use crate::zero_page::ZeroPage;
use e820_model::Entry;

/// A table that [`made`](crate::made) has generated, in the form in which a boot loader would pass
/// it.
#[derive(Drop)]
pub struct Made {
    /// The first 128 entries, or all of them if there are fewer, and no initrd.
    pub zero: ZeroPage,
    /// The entries after those of the zero page.
    pub ext: Vec<Entry>,
}
