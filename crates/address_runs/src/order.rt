//! Tests whether records already are a list of runs: ascending, disjoint, and no two of them
//! mergeable.
//!
//! Firmware usually passes its table in this order, and a sanitised table always has it.
//! `are_runs` looks at each record and the next one. `are_apart` is for two lists of runs, and
//! looks only at the last of one and the first of the other.

ghost use Rattle.std.specs.Prelude.{◌≡◌, ◌↔◌, ◌++◌, ℕ, ◌^◌, ◌≤◌, Bool, Option, None, List, map, IsTrue};
ghost use Rattle.address_runs.specs.Runs.{RunOf, AreRuns, IsBefore, IsRunsOf, DecidesEquality, runs_of};
ghost use Rattle.address_runs.specs.Overlay.{HaveAddresses};

use crate::stretch::ValuedRange;

/// Returns whether the record and `others`, a list of runs, make one longer list of runs: `others`
/// is empty, or its first run begins above the record's end, or it begins at that end and has
/// another value.
fn is_before<S: ValuedRange>(stretch: &S, others: &[S]) -> bool
    ensures { IsTrue result ↔ IsBefore (S.run stretch.now) (map S.run others.now) }
{
    let [next, ..] = others else {
        return true;
    };
    let end = stretch.range().end();
    let base = next.range().base;
    end < base || (end == base && !S::is_same(stretch.value(), next.value()))
}

/// Returns whether the records are a list of runs: they ascend without overlaps, and two that touch
/// have different values. No record may be empty.
pub fn are_runs<S: ValuedRange>(stretches: &[S]) -> bool
    requires { HaveAddresses (map S.run stretches.now) }
    ensures { IsTrue result ↔ AreRuns (map S.run stretches.now) }
{
    let mut rest = stretches;
    while let [first, others @ ..] = rest {
        if !is_before(first, others) {
            return false;
        }
        rest = others;
    }
    true
}

/// Returns whether the runs of `first`, followed by those of `second`, are one list of runs: all of
/// `second` lies above `first`, and the last run of `first` and the first run of `second` can't be
/// merged.
pub fn are_apart<S: ValuedRange>(first: &[S], second: &[S]) -> bool
    requires first { AreRuns (map S.run first.now) }
    requires second { AreRuns (map S.run second.now) }
    ensures { IsTrue result ↔ AreRuns (map S.run first.now ++ map S.run second.now) }
{
    let [.., last] = first else {
        return true;
    };
    is_before(last, second)
}

/// Law: a function over addresses has at most one list of runs.
pub fn runs_are_unique<T>()
    ensures { (f : ℕ → Option T) (rs ss : List (RunOf T)) → IsRunsOf f rs → IsRunsOf f ss →
        rs ≡ ss }
{}

/// Law: `runs_of` returns the list of runs of a function, if the function has no value at or above
/// 2^64.
pub fn runs_of_gives_the_runs<T>()
    ensures { (same : T → T → Bool) (f : ℕ → Option T) → DecidesEquality same →
        ((x : ℕ) → 2 ^ 64 ≤ x → f x ≡ None) → IsRunsOf f (runs_of same f) }
{}
