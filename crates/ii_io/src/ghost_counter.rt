ghost use Rattle.std.specs.Prelude.{◌≡◌, ℕ, ◌+◌};
ghost use Rattle.std.specs.Borrow.{ftrue};

use std::marker::Model;

/// An unbounded natural number for contracts alone. It takes no bytes, and code can't read it.
#[derive(Drop)]
pub struct GhostCounter {
    pub ghost value: { ℕ },
}

impl Model for GhostCounter {
    ghost also_owns = { λ _. ftrue };
}

impl GhostCounter {
    /// Creates a counter with value 0.
    pub fn new() -> GhostCounter
        ensures { result.value ≡ 0 }
    {
        GhostCounter {}
    }

    /// Returns a counter with the next value.
    pub fn next(&self) -> GhostCounter
        ensures { result.value ≡ self.now.value + 1 }
    {
        GhostCounter {}
    }

    /// Returns a counter with the same value.
    pub fn same(&self) -> GhostCounter
        ensures { result.value ≡ self.now.value }
    {
        GhostCounter {}
    }
}
