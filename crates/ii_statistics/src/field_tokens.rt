//! How many tokens documents have in each field.
ghost use Rattle.std.specs.Prelude.{◌≡◌, ℕ};

use ii_base::Field;

/// Knows how many tokens the living documents of an index have in the fields of a query's terms.
pub trait FieldTokens {
    // The number for each field.
    ghost by_field: { Self → ℕ → ℕ };

    /// Returns the number of tokens in a field.
    fn num_tokens(&self, field: Field) -> u64
        ensures { result ≡ by_field self.now field };
}
