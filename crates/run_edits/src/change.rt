//! What an edit does to a single address.

ghost use Rattle.std.specs.Prelude.{◌≡◌, Option, Some, None, unwrap_or};

/// A change of what a single address carries. An edit applies one change to each address of a
/// range.
pub trait Change<V: Copy>: Copy {
    // what an address carries after the change, given what it carried before
    ghost makes: { Self → Option V → Option V };

    /// Returns what an address carries after the change, given what it carried before. `None` means
    /// that it carries nothing.
    fn apply(self, carried: Option<V>) -> Option<V>
        ensures { result ≡ makes self carried };
}

/// The change that gives the value to an address that carries nothing, and leaves others as they
/// are (`memblock_add_range`).
#[derive(Clone, Copy)]
pub struct Cover<V>(pub V);

impl<V: Copy> Change<V> for Cover<V> {
    ghost makes = { λ c carried. Some (unwrap_or carried c.0) };

    fn apply(self, carried: Option<V>) -> Option<V>
        ensures { result ≡ Some (unwrap_or carried self.0) }
    {
        Some(carried.unwrap_or(self.0))
    }
}

/// The change that removes what an address carries (`memblock_remove_range`).
#[derive(Clone, Copy)]
pub struct Uncover;

impl<V: Copy> Change<V> for Uncover {
    ghost makes = { λ c carried. None };

    fn apply(self, _carried: Option<V>) -> Option<V>
        ensures { result ≡ None }
    {
        None
    }
}

/// The change that gives the value to every address, whatever it carries.
#[derive(Clone, Copy)]
pub struct Replace<V>(pub V);

impl<V: Copy> Change<V> for Replace<V> {
    ghost makes = { λ c carried. Some c.0 };

    fn apply(self, _carried: Option<V>) -> Option<V>
        ensures { result ≡ Some self.0 }
    {
        Some(self.0)
    }
}
