//! Laws: how many runs an edit can add, and that a range ends below 2^64.

ghost use Rattle.std.specs.Prelude.{◌≡◌, ℕ, ◌+◌, ◌^◌, ◌<◌, ◌≤◌, Bool, Option, length};
ghost use Rattle.bm_base.specs.Range.{RangeView, end_of};
ghost use Rattle.address_runs.specs.Runs.{DecidesEquality, runs_of};
ghost use Rattle.address_runs.specs.Edits.{cover_range, uncover_range, relabel_range, replace_in_range, gaps_in_range, IsEmptyFrom};

use bm_base::Range;

/// Law: an edit of a range adds few runs. Giving a value to the addresses that carry nothing adds
/// at most one run for each gap in the range (`nr_new` in `memblock_add_range`). Removing values
/// adds at most one run. Changing the values that are there, or giving all addresses one value,
/// adds at most two.
pub fn edits_add_few<T>()
    ensures cover { (same : T → T → Bool) (r : RangeView) (v w : T) (f : ℕ → Option T) →
        DecidesEquality same →
        end_of r ≤ 2 ^ 64 → IsEmptyFrom (2 ^ 64) f →
        length (runs_of same (cover_range r v f))
        ≤ length (runs_of same f) + length (runs_of same (gaps_in_range r w f)) }
    ensures uncover { (same : T → T → Bool) (r : RangeView) (f : ℕ → Option T) →
        DecidesEquality same →
        IsEmptyFrom (2 ^ 64) f → length (runs_of same (uncover_range r f))
        ≤ length (runs_of same f) + 1 }
    ensures relabel { (same : T → T → Bool) (r : RangeView) (change : T → T) (f : ℕ → Option T) →
        DecidesEquality same →
        IsEmptyFrom (2 ^ 64) f → length (runs_of same (relabel_range r change f))
        ≤ length (runs_of same f) + 2 }
    ensures replace { (same : T → T → Bool) (r : RangeView) (v : T) (f : ℕ → Option T) →
        DecidesEquality same →
        end_of r ≤ 2 ^ 64 → IsEmptyFrom (2 ^ 64) f →
        length (runs_of same (replace_in_range r v f)) ≤ length (runs_of same f) + 2 }
{}

/// Law: the end of a range, its base plus its size, is below 2^64.
pub fn range_end_fits(range: &Range)
    ensures { end_of range.now < 2 ^ 64 }
{
    range.end();
}
