// Snippets of texts for queries. What is expected was worked out by hand.
ghost use Rattle.std.specs.Prelude.{◌≡◌, length, IfOk};

use ii_ram::{
    Fault, Field, FieldEntry, IndexRecordOption, Query, Schema, TextAnalyzer, parse_query,
};
use ii_snippet::{MarkStyle, Snippet, snippet_tokens, wanted_words};
use ii_tokenizers::Analyzer;
use std::alloc::Global;
use std::test::Fail;

// A schema of one field, with positions and norms.
fn schema(alloc: Global) -> Result<Schema, Fault>
    ensures { IfOk result (λ schema. length schema ≡ 1) }
{
    let mut entries = Vec::new(alloc);
    let name = String::from_str(alloc, "body")?;
    entries.push(FieldEntry::text(name, IndexRecordOption::WithFreqsAndPositions, true))?;
    Ok(Schema::new(entries))
}

// The snippet of a text of the field, as it is written.
fn written(
    alloc: Global,
    query: &Query,
    text: &str,
    limit: u32,
    style: MarkStyle,
) -> Result<String, Fault> {
    let words = wanted_words(alloc, query)?;
    let mut stream = Analyzer::Default.token_list(alloc, text)?;
    let body = Field::from_field_id(0);
    let tokens = snippet_tokens(alloc, words.as_slice(), body, &mut stream)?;
    let snippet = Snippet::new(alloc, text, tokens.as_slice(), limit)?;
    snippet.to_text(alloc, style)
}

// Whether the snippet of a text for the text of a query is this one.
fn is_written(
    alloc: Global,
    query: &str,
    text: &str,
    limit: u32,
    style: MarkStyle,
    expected: &str,
) -> Result<bool, Fault> {
    let schema = schema(alloc)?;
    let body = [Field::from_field_id(0)];
    let Ok(query) = parse_query(alloc, &schema, &body, &Analyzer::Default, query) else {
        return Ok(false);
    };
    let found = written(alloc, &query, text, limit, style)?;
    Ok(found.as_str() == expected)
}

#[test]
fn the_best_part_is_shown(rt: HostRuntime) -> Result<(), Fail> {
    let rows = [
        (
            "sea OR old",
            "the sea and the old sea",
            3,
            "the <b>old</b> <b>sea</b>",
        ),
        (
            "sea OR old",
            "sea sea sea sea old the the",
            4,
            "<b>sea</b> <b>sea</b> <b>sea</b> <b>old</b>",
        ),
        ("sea", "a b c sea d e f sea", 3, "c <b>sea</b> d"),
        ("sea", "sea a b c", 2, "<b>sea</b> a"),
        ("bird", "the old sea", 2, "the old"),
        ("sea", "", 3, ""),
    ];
    for (query, text, limit, expected) in rows {
        let is = is_written(rt.alloc(), query, text, limit, MarkStyle::Html, expected)?;
        assert!(rt; is);
    }
    Ok(())
}

#[test]
fn wanted_words_are_marked(rt: HostRuntime) -> Result<(), Fail> {
    let rows = [
        (
            "se*",
            "The \u{201c}Sea\u{201d} & the search",
            "The \u{201c}<b>Sea</b>\u{201d} &amp; the <b>search</b>",
        ),
        ("sea NOT old", "old sea", "old <b>sea</b>"),
        ("\"old sea\"", "sea, old", "<b>sea</b>, <b>old</b>"),
        (
            "\"old se\"*",
            "old, sea and search",
            "<b>old</b>, <b>sea</b> and <b>search</b>",
        ),
        ("body:[n TO p]", "the old sea", "the <b>old</b> sea"),
        ("x", "a <i> 'x'", "a &lt;i&gt; &#x27;<b>x</b>"),
        ("e", "e\u{301} e", "e\u{301} <b>e</b>"),
        ("\u{5d0}", "\u{5d1} \u{5d0}", "\u{5d1} <b>\u{5d0}</b>"),
    ];
    for (query, text, expected) in rows {
        let is = is_written(rt.alloc(), query, text, 30, MarkStyle::Html, expected)?;
        assert!(rt; is);
    }
    Ok(())
}

#[test]
fn terminals_get_no_control_characters(rt: HostRuntime) -> Result<(), Fail> {
    let shown = "a\u{fffd}& \u{1b}[1msea\u{1b}[0m";
    let is = is_written(
        rt.alloc(),
        "sea",
        "a\u{7}& sea",
        9,
        MarkStyle::Terminal,
        shown,
    )?;
    assert!(rt; is);
    Ok(())
}
