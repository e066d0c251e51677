//! Decides whether the distances of a SLIT are used, and if not, why.

ghost use Rattle.std.specs.Prelude.{◌≡◌, ◌<◌};
ghost use Rattle.std.specs.Option.{ForSome, option_map, option_copied};
ghost use Rattle.slit_zonelists.specs.SlitView.{slit_view, slit_cell, IsSquare};
ghost use Rattle.slit_zonelists.specs.Uses.{is_bad_cell, first_bad_column, first_bad_cell, slit_use};

use crate::table::Slit;

/// The distance of a domain to itself (`LOCAL_DISTANCE`).
pub const LOCAL_DISTANCE: u8 = 10;

/// Whether the distances of the firmware are used. If they aren't, the variant is the first reason
/// that holds, in the order of the variants after `Used`.
#[derive(Clone, Copy, Debug, PartialEq, Eq)]
pub enum SlitUse {
    /// The distances are used: none of the reasons below holds.
    Used,
    /// There is no SLIT.
    Absent,
    /// No node has a domain: there is no SRAT, or it isn't used.
    NoSrat,
    /// The cell in this row and column, both from 0 on, is the first bad one, by row and then by
    /// column. A cell from a domain to itself is bad if it isn't 10. Any other cell is bad if it
    /// is 10 or less (`slit_valid`).
    NotValid { row: u32, column: u32 },
}

/// Returns whether the SLIT is used, and if not, the first reason against it. `domains` has the
/// domain of each node; it is empty if no SRAT is used.
pub fn decide_slit_use(slit: Option<&Slit>, domains: &[u32]) -> SlitUse
    requires { ForSome slit (λ slit. IsSquare (slit_view slit.now)) }
    ensures { result ≡ slit_use (option_map slit_view (option_copied slit.entry)) domains.now }
{
    let Some(slit) = slit else {
        return SlitUse::Absent;
    };
    if domains.is_empty() {
        return SlitUse::NoSrat;
    }
    match first_bad_cell(slit) {
        Some((row, column)) => SlitUse::NotValid { row, column },
        None => SlitUse::Used,
    }
}

/// Returns the row and column of the first bad cell, by row and then by column, or `None` if no
/// cell is bad.
fn first_bad_cell(slit: &Slit) -> Option<(u32, u32)>
    requires { IsSquare (slit_view slit.now) }
    ensures { result ≡ first_bad_cell (slit_view slit.now) }
{
    for row in 0..slit.count {
        if let Some(column) = first_bad_column(slit, row) {
            return Some((row, column));
        }
    }
    None
}

/// Returns the first column in which the row has a bad cell, or `None` if no cell of the row is
/// bad.
fn first_bad_column(slit: &Slit, row: u32) -> Option<u32>
    requires square { IsSquare (slit_view slit.now) }
    requires row { row < slit.now.count }
    ensures { result ≡ first_bad_column (slit_view slit.now) row }
{
    for column in 0..slit.count {
        if is_bad_cell(slit, row, column) {
            return Some(column);
        }
    }
    None
}

/// Tests whether the cell is bad: from a domain to itself it isn't 10, or to another domain it is
/// 10 or less (`slit_valid`).
fn is_bad_cell(slit: &Slit, row: u32, column: u32) -> bool
    requires square { IsSquare (slit_view slit.now) }
    requires row { row < slit.now.count }
    requires column { column < slit.now.count }
    ensures { result ≡ is_bad_cell (slit_view slit.now) row column }
{
    let cell = slit_cell(slit, row, column);
    if row == column {
        cell != LOCAL_DISTANCE
    } else {
        cell <= LOCAL_DISTANCE
    }
}

/// Returns the distance from the domain of the row to that of the column.
pub fn slit_cell(slit: &Slit, row: u32, column: u32) -> u8
    requires square { IsSquare (slit_view slit.now) }
    requires row { row < slit.now.count }
    requires column { column < slit.now.count }
    ensures { result ≡ slit_cell (slit_view slit.now) row column }
{
    slit.cells[row as usize * slit.count as usize + column as usize]
}
