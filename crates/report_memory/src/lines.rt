//! Writes lines, one for each element of a list. The loop over a list is proved here, once for all
//! reports.

ghost use Rattle.std.specs.Prelude.{◌≡◌, ℕ, ◌<◌, ◌++◌, List, OnOk, length};
ghost use Rattle.bm_base.specs.PutsText.{PutsText};
ghost use Rattle.report_memory.specs.Lines.{indexed_lines};

use bm_base::Memory;

/// Appends one line for each element, in their order. `put` appends the line; it gets the element
/// and its index, from 0 on. The clause `lines` is for a `put` that also allocates other memory.
/// The clause `puts` is for a `put` that allocates only for the text.
///
/// # Errors
///
/// - `Memory`: the program ran out of memory; the text is incomplete.
pub fn put_indexed_lines<T, F: Fn(&mut Vec<u8>, u64, &T) -> Result<(), Memory>>(
    text: &mut Vec<u8>,
    items: &[T],
    put: F,
) -> Result<(), Memory>
    requires { (t : _) (i : _) (x : _) → i < length items.now → F.pre put t i x }
    ensures lines { (line : ℕ → T → List ℕ)
        → ((t : _) (i : _) (x : _) (answer : _) (u : _) → F.post put t i x answer u
        → OnOk answer (u.now.items ≡ t.now.items ++ line i x.now))
        → OnOk result (text.new.items ≡ text.old.items ++ indexed_lines line 0 items.now) }
    ensures puts { (line : ℕ → T → List ℕ)
        → ((t : _) (i : _) (x : _) (answer : _) (u : _) → F.post put t i x answer u
        → PutsText t.now u.now answer (line i x.now))
        → PutsText text.old text.new result (indexed_lines line 0 items.now) }
{
    for (index, item) in items.iter().enumerate() {
        put(text, index as u64, item)?;
    }
    Ok(())
}
