//! The laws of runs, called as another crate calls them.

use address_runs::{runs_are_unique, runs_of_gives_the_runs};

#[test]
fn laws_are_called() {
    runs_are_unique::<u32>();
    runs_of_gives_the_runs::<u32>();
}
