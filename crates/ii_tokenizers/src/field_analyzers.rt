//! The analyzers of fields.
ghost use Rattle.std.specs.Prelude.{◌≡◌};

use ii_base::{Field, TextAnalyzer};

/// Analyzers of texts: for each field one of words, and one of prefixes and of the bounds of ranges, which does not
/// stem. The model of each is a function from a field and the bytes of a text to the tokens of the text.
pub trait FieldAnalyzers {
    ghost use Rattle.std.specs.Prelude.{ℕ, List};
    ghost use Rattle.ii_base.specs.Words.{Word};

    /// The type of the analyzers.
    type Analyzer: TextAnalyzer;

    ghost words: { Self → ℕ → List ℕ → List Word };

    ghost prefix_words: { Self → ℕ → List ℕ → List Word };

    /// Returns the analyzer of a field.
    fn analyzer(&self, field: Field) -> &Self::Analyzer
        ensures { Self.Analyzer.words result.now ≡ words self.now field };

    /// Returns the analyzer of the prefixes and of the bounds of ranges in a field.
    fn prefix_analyzer(&self, field: Field) -> &Self::Analyzer
        ensures { Self.Analyzer.words result.now ≡ prefix_words self.now field };
}

/// The same analyzer for all fields, also for their prefixes.
#[derive(Clone, Copy, Debug)]
pub struct OneAnalyzer<'a, A: TextAnalyzer>(pub &'a A);

impl<'a, A: TextAnalyzer> FieldAnalyzers for OneAnalyzer<'a, A> {
    type Analyzer = A;

    ghost words = { λ s field. A.words s.0.now };

    ghost prefix_words = { λ s field. A.words s.0.now };

    fn analyzer(&self, _field: Field) -> &A {
        self.0
    }

    fn prefix_analyzer(&self, _field: Field) -> &A {
        self.0
    }
}
