// Query texts, the trees they parse to, and parse errors.
use crate::memory_index::{Kind, schema_of};
use ii_base::{AsciiTokenizer, Fault, Field};
use ii_ram::{ParseError, parse, parse_query};
use std::alloc::{AllocError, Global};
use std::test::Fail;

// Returns the tree of a text as text, or the error with its place.
fn read(alloc: Global, text: &str) -> Result<String, Fault> {
    match parse(alloc, text) {
        Ok(ast) => Ok(ast.spell(alloc)?),
        Err(ParseError::OutOfMemory) => Err(Fault::from(AllocError)),
        Err(error) => Ok(format!(in alloc; "{error}")?),
    }
}

static TREES: [(&str, &str); 25] = [
    ("a NOT b", "a AND -b"),
    ("new\\ york", "new\\ york"),
    ("\"old se\"* title:\"a\"*", "\"old se\"* OR title:\"a\"*"),
    ("se* AND (a title:*)", "se* AND (a OR title:[* TO *])"),
    (
        "year:[1 TO {]",
        "at byte 11: expected a bound: a word, a text in quotes, or * within brackets",
    ),
    ("year:{1 TO \"a ]\"]", "year:{\"1\" TO \"a ]\"]"),
    ("a year:>=-5 b", "a OR year:[\"-5\" TO *] OR b"),
    ("year:<\\*", "year:[* TO \"*\"}"),
    ("-year:>1 b", "b AND -year:{\"1\" TO *]"),
    (
        "year:[1 TO 2",
        "at byte 12: expected ] or } after the bounds of a range",
    ),
    (
        "year:[1 2]",
        "at byte 8: expected the word TO between two bounds, as in year:[1 TO 2]",
    ),
    (
        "[1 TO 2]",
        "at byte 0: a range needs the name of a field before it, as in year:[1 TO 2]; put the word in quotes to search for it as it is",
    ),
    (
        "a <=2",
        "at byte 2: a comparison needs the name of a field before it, as in year:>7; put the word in quotes to search for it as it is",
    ),
    ("year:[\"1 TO 2]", "at byte 14: expected a closing quote"),
    (
        "s*a",
        "at byte 1: wildcards (s*a, s?a) are not supported, but for a * that ends a word or comes after quotes; put the word in quotes to search for it as it is",
    ),
    (
        "",
        "at byte 0: the query is empty: write a word to search for",
    ),
    ("title:hello", "title:hello"),
    ("body:\"new york\"", "body:\"new york\""),
    ("a b AND c", "a OR (b AND c)"),
    ("a -b  c", "(a OR c) AND -b"),
    ("((a) AND -(b OR \"OR\"))", "a AND -(b OR \"OR\")"),
    (
        "-c",
        "at byte 2: something must be searched for that is not excluded: add a word without a minus",
    ),
    ("(a (b)", "at byte 6: expected a closing parenthesis"),
    (
        "a )",
        "at byte 2: expected the end of the query: this parenthesis closes none",
    ),
    (
        "a: b",
        "at byte 2: expected a word or a phrase after the colon",
    ),
];

#[test]
fn texts_are_trees(rt: HostRuntime) -> Result<(), Fail> {
    for row in &TREES {
        let (text, wanted) = *row;
        let read = read(rt.alloc(), text)?;
        assert_eq!(rt; read.as_str(), wanted);
    }
    Ok(())
}

static FIELDS: [Kind; 1] = [Kind::Text(false)];

// Returns why a text is no query over a text field.
fn refusal(alloc: Global, text: &str) -> Result<String, Fault> {
    let schema = schema_of(alloc, &FIELDS)?;
    let fields = [Field::from_field_id(0)];
    match parse_query(alloc, &schema, &fields, &AsciiTokenizer, text) {
        Ok(_) => Ok(String::from_str(alloc, "it is one")?),
        Err(error) => Ok(format!(in alloc; "{error}")?),
    }
}

#[test]
fn refused_texts_are_told(rt: HostRuntime) -> Result<(), Fail> {
    let rows = [
        ("field:red", "it is one"),
        ("color:red", "no field has this name"),
        ("field:.", "no word to search for"),
        ("field:. OR \"-\"", "no word to search for"),
        (". AND NOT field:red", "no word to search for"),
        (".*", "no word to search for"),
        (". AND field:red", "it is one"),
        ("field:IN [. \"-\"] red", "it is one"),
        ("field:[a TO b]", "it is one"),
        (
            "field:[a TO \"b c\"]",
            "a bound of a range must be one word",
        ),
        ("color:>1", "no field has this name"),
        (
            "a )",
            "at byte 2: expected the end of the query: this parenthesis closes none",
        ),
    ];
    for (text, wanted) in rows {
        let told = refusal(rt.alloc(), text)?;
        assert_eq!(rt; told.as_str(), wanted);
    }
    Ok(())
}
