//! The law of edits, called as another crate calls it.

use run_edits::edits_add_few;

#[test]
fn law_is_called() {
    edits_add_few::<u32>();
}
