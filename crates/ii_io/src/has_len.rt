ghost use Rattle.std.specs.Prelude.{◌≡◌, ◌==◌, ℕ, length};

use bytes::Bytes;

/// A value with a length.
pub trait HasLen {
    // The length.
    ghost length_of: { Self → ℕ };

    /// Returns the length.
    fn len(&self) -> usize
        ensures { result ≡ length_of self.now };

    /// Returns whether the length is 0.
    fn is_empty(&self) -> bool
        ensures { result ≡ (length_of self.now == 0) }
    {
        self.len() == 0
    }
}

impl HasLen for Bytes {
    ghost length_of = { λ bytes. length bytes };

    fn len(&self) -> usize {
        self.as_slice().len()
    }
}
