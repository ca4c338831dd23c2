use crate::tests::are_spelled;
use ii_base::Field;
use ii_tokenizers::{
    Analyzer, FieldAnalyzers, FieldTokenizer, FieldTokenizers, OneAnalyzer, StopWordFilter,
    unicode_version,
};
use std::test::Fail;

const LETTERS_39: &str = "abcdefghijklmnopqrstuvwxyzabcdefghijklm";

#[test]
fn texts_are_analyzed(rt: HostRuntime) -> Result<(), Fail> {
    let rows = [
        (
            Analyzer::Ascii,
            "The old man\u{2019}s \u{201c}sea\u{201d}",
            "The@0+1 0..3, old@1+1 4..7, man\u{2019}s@2+1 8..15, \u{201c}sea\u{201d}@3+1 16..25, ",
        ),
        (
            Analyzer::Default,
            "The old man\u{2019}s \u{201c}sea\u{201d}",
            "the@0+1 0..3, old@1+1 4..7, man@2+1 8..11, s@3+1 14..15, sea@4+1 19..22, ",
        ),
        (
            Analyzer::Default,
            "STRASSE Stra\u{df}e",
            "strasse@0+1 0..7, strasse@1+1 8..15, ",
        ),
        (
            Analyzer::Default,
            "e.g. 3.14 foo_bar",
            "e@0+1 0..1, g@1+1 2..3, 3@2+1 5..6, 14@3+1 7..9, foo_bar@4+1 10..17, ",
        ),
        (
            Analyzer::Default,
            "\u{8001}\u{4eba}",
            "\u{8001}@0+1 0..3, \u{4eba}@1+1 3..6, ",
        ),
        (
            Analyzer::Default,
            "Don't _ __init__ x1-2\r\nA;b\"c_:",
            "don@0+1 0..3, t@1+1 4..5, __init__@2+1 8..16, x1@3+1 17..19, 2@4+1 20..21, a@5+1 23..24, b@6+1 25..26, c_@7+1 27..29, ",
        ),
        (
            Analyzer::Default,
            "1,000.5 _'a a'_ a._b",
            "1@0+1 0..1, 000@1+1 2..5, 5@2+1 6..7, a@3+1 10..11, a@4+1 12..13, a@5+1 16..17, _b@6+1 18..20, ",
        ),
        (
            Analyzer::Default,
            "cafe\u{301} the",
            "cafe\u{301}@0+1 0..6, the@1+1 7..10, ",
        ),
        (Analyzer::Default, "\u{1f44d} --", ""),
        (Analyzer::Default, "", ""),
        (Analyzer::Default, "sea\u{301}", "sea\u{301}@0+1 0..5, "),
        (Analyzer::Raw, "ID-7 a", "ID-7 a@0+1 0..6, "),
        (Analyzer::Raw, "", ""),
        (
            Analyzer::Whitespace,
            " a  b-c ",
            "a@0+1 1..2, b-c@1+1 4..7, ",
        ),
        (Analyzer::Whitespace, "\u{a0}\t", ""),
        (
            Analyzer::English,
            "The old seas, SAILING",
            "the@0+1 0..3, old@1+1 4..7, sea@2+1 8..12, sail@3+1 14..21, ",
        ),
    ];
    for (analyzer, text, spelled) in rows {
        let found = are_spelled(rt.alloc(), &analyzer, text, spelled)?;
        assert!(rt; found == [true; 2]);
    }
    Ok(())
}

// A word of 39 bytes is kept; a longer one is left out, and its position stays free.
#[test]
fn long_words_leave_gaps(rt: HostRuntime) -> Result<(), Fail> {
    let mut kept = String::from_str(rt.alloc(), "a ")?;
    kept.push_str(LETTERS_39)?;
    let mut long = String::from_str(rt.alloc(), kept.as_str())?;
    kept.push_str(" b")?;
    long.push_str("n b")?;
    let mut all = String::from_str(rt.alloc(), "a@0+1 0..1, ")?;
    all.push_str(LETTERS_39)?;
    all.push_str("@1+1 2..41, b@2+1 42..43, ")?;
    let found = are_spelled(rt.alloc(), &Analyzer::Default, kept.as_str(), all.as_str())?;
    assert!(rt; found == [true; 2]);
    let few = "a@0+1 0..1, b@2+1 43..44, ";
    let found = are_spelled(rt.alloc(), &Analyzer::Default, long.as_str(), few)?;
    assert!(rt; found == [true; 2]);
    Ok(())
}

// Stop words are compared in folded case and before stemming, and their positions stay free. Only English words
// have them, and prefixes don't.
#[test]
fn stop_words_leave_gaps(rt: HostRuntime) -> Result<(), Fail> {
    let rows = [
        (
            Analyzer::English,
            "the old seas",
            "old@1+1 4..7, sea@2+1 8..12, ",
            "the@0+1 0..3, old@1+1 4..7, seas@2+1 8..12, ",
        ),
        (
            Analyzer::English,
            "Seas STRASSE sea",
            "sea@0+1 0..4, ",
            "seas@0+1 0..4, strasse@1+1 5..12, sea@2+1 13..16, ",
        ),
        (
            Analyzer::English,
            "THE the",
            "",
            "the@0+1 0..3, the@1+1 4..7, ",
        ),
        (
            Analyzer::English,
            "don't",
            "don@0+1 0..3, t@1+1 4..5, ",
            "don@0+1 0..3, t@1+1 4..5, ",
        ),
        (
            Analyzer::Default,
            "the Sea",
            "the@0+1 0..3, sea@1+1 4..7, ",
            "the@0+1 0..3, sea@1+1 4..7, ",
        ),
        (Analyzer::Raw, "the", "the@0+1 0..3, ", "the@0+1 0..3, "),
    ];
    for (analyzer, text, spelled, of_prefixes) in rows {
        let mut stop_words = StopWordFilter::new(rt.alloc());
        for word in ["The", "stra\u{df}e", "sea", "the", "don't"] {
            stop_words.insert(rt.alloc(), word)?;
        }
        assert!(rt; stop_words.contains("the"));
        assert!(rt; !stop_words.contains("The"));
        let tokenizer = FieldTokenizer {
            analyzer,
            stop_words,
        };
        let found = are_spelled(rt.alloc(), &tokenizer, text, spelled)?;
        assert!(rt; found == [true; 2]);
        let prefixes = tokenizer.for_prefixes(rt.alloc());
        let found = are_spelled(rt.alloc(), &prefixes, text, of_prefixes)?;
        assert!(rt; found == [true; 2]);
    }
    Ok(())
}

#[test]
fn analyzers_have_names(rt: HostRuntime) -> Result<(), Fail> {
    let rows = [
        (Analyzer::Default, "default", true),
        (Analyzer::Raw, "raw", false),
        (Analyzer::Whitespace, "whitespace", true),
        (Analyzer::Ascii, "ascii", false),
        (Analyzer::English, "en", true),
    ];
    for (analyzer, name, uses_unicode) in rows {
        assert!(rt; analyzer.name() == name);
        assert!(rt; Analyzer::named(name) == Some(analyzer));
        assert!(rt; analyzer.uses_unicode() == uses_unicode);
    }
    assert!(rt; Analyzer::named("Default").is_none());
    assert!(rt; Analyzer::English.for_prefixes() == Analyzer::Default);
    assert!(rt; Analyzer::Whitespace.for_prefixes() == Analyzer::Whitespace);
    assert!(rt; unicode_version() == "18.0.0");
    Ok(())
}

// A field that the schema doesn't have has the ASCII analyzer.
#[test]
fn fields_have_analyzers(rt: HostRuntime) -> Result<(), Fail> {
    let mut tokenizers = FieldTokenizers::new(rt.alloc());
    tokenizers.push(FieldTokenizer::new(rt.alloc(), Analyzer::Raw))?;
    tokenizers.push(FieldTokenizer::new(rt.alloc(), Analyzer::English))?;
    let rows = [
        (0, Analyzer::Raw),
        (1, Analyzer::English),
        (2, Analyzer::Ascii),
    ];
    for (id, analyzer) in rows {
        let field = Field::from_field_id(id);
        assert!(rt; tokenizers.analyzer(field).analyzer == analyzer);
        assert!(rt; tokenizers.prefix_analyzer(field).analyzer == analyzer.for_prefixes());
    }
    let raw = Analyzer::Raw;
    let one = OneAnalyzer(&raw);
    assert!(rt; *one.analyzer(Field::from_field_id(7)) == Analyzer::Raw);
    assert!(rt; *one.prefix_analyzer(Field::from_field_id(7)) == Analyzer::Raw);
    Ok(())
}
