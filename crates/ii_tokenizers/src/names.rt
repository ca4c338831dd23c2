//! The names of analyzers, and the version of Unicode that they follow.
ghost use Rattle.std.specs.Prelude.{◌≡◌, Some};
ghost use Rattle.ii_tokenizers.specs.Tokenizers.{analyzer_name, analyzer_named, unicode_version, uses_unicode};

use crate::analyzer::Analyzer;
use unicode_segmentation::UNICODE_VERSION;

const _: () = prove!(UNICODE_VERSION.0 == 18 && UNICODE_VERSION.1 == 0 && UNICODE_VERSION.2 == 0);

/// Returns the version of Unicode that the words of `Default`, `English` and `Whitespace` follow.
pub fn unicode_version() -> &'static str
    ensures { result.now ≡ unicode_version }
{
    "18.0.0"
}

impl Analyzer {
    /// Returns its name, as in a schema.
    #[tactic(auto, unfolding(crate::specs::Tokenizers::analyzer_named))]
    pub fn name(self) -> &'static str
        ensures name { result.now ≡ analyzer_name self }
        ensures read { analyzer_named result.now ≡ Some self }
    {
        match self {
            Analyzer::Ascii => "ascii",
            Analyzer::Raw => "raw",
            Analyzer::Whitespace => "whitespace",
            Analyzer::Default => "default",
            Analyzer::English => "en",
        }
    }

    /// Returns the analyzer with this name, if there is one.
    #[tactic(auto, unfolding(crate::specs::Tokenizers::analyzer_named))]
    pub fn named(name: &str) -> Option<Analyzer>
        ensures { result ≡ analyzer_named name.now }
    {
        if name == "default" {
            return Some(Analyzer::Default);
        }
        if name == "raw" {
            return Some(Analyzer::Raw);
        }
        if name == "whitespace" {
            return Some(Analyzer::Whitespace);
        }
        if name == "ascii" {
            return Some(Analyzer::Ascii);
        }
        if name == "en" {
            return Some(Analyzer::English);
        }
        None
    }

    /// Returns whether its words depend on the version of Unicode.
    pub fn uses_unicode(self) -> bool
        ensures { result ≡ uses_unicode self }
    {
        match self {
            Analyzer::Default | Analyzer::English | Analyzer::Whitespace => true,
            Analyzer::Ascii | Analyzer::Raw => false,
        }
    }
}
