ghost use Rattle.std.specs.Prelude.{◌≡◌, ◌∷◌, [], length};

use ii_base::{
    AsciiTokenizer, AsciiTokens, Fault, Field, FieldEntry, IndexRecordOption, Schema, Term,
    TextAnalyzer, Token, TokenList, TokenStream, TokenView, ValueType,
};
use std::alloc::{AllocError, Global};
use std::test::Fail;

const TYPES: [(ValueType, u8); 8] = [
    (ValueType::Str, b's'),
    (ValueType::I64, b'i'),
    (ValueType::U64, b'u'),
    (ValueType::Bool, b'o'),
    (ValueType::Date, b'd'),
    (ValueType::Bytes, b'b'),
    (ValueType::Json, b'j'),
    (ValueType::IpAddr, b'p'),
];

#[test]
fn types_have_codes(rt: HostRuntime) {
    for (value_type, code) in TYPES {
        let told = (value_type.to_code(), ValueType::from_code(code));
        assert!(rt; told == (code, Some(value_type)));
    }
    for code in [0, b'f', b'h', b'S'] {
        assert!(rt; ValueType::from_code(code) == None);
    }
}

fn four_fields(alloc: Global) -> Result<Schema, AllocError> {
    let (counts, all) = (
        IndexRecordOption::WithFreqs,
        IndexRecordOption::WithFreqsAndPositions,
    );
    let mut entries = Vec::new(alloc);
    let name = String::from_str(alloc, "text")?;
    entries.push(FieldEntry::text(name, all, true))?;
    let name = String::from_str(alloc, "number")?;
    entries.push(FieldEntry::value(name, ValueType::U64, true))?;
    let name = String::from_str(alloc, "json")?;
    entries.push(FieldEntry::json(name, counts, true))?;
    let name = String::from_str(alloc, "stored")?;
    entries.push(FieldEntry::unindexed(name, ValueType::Date))?;
    Ok(Schema::new(entries))
}

// Returns the type of a field, what is recorded, and whether it is indexed, has norms and expands dots.
fn told_of(entry: &FieldEntry) -> (ValueType, IndexRecordOption, [bool; 3]) {
    let (indexed, norms) = (entry.is_indexed(), entry.has_fieldnorms());
    let more = [indexed, norms, entry.expands_dots()];
    (entry.value_type(), entry.index_record_option(), more)
}

static FIELDS: [(&str, (ValueType, IndexRecordOption, [bool; 3])); 4] = [
    (
        "text",
        (
            ValueType::Str,
            IndexRecordOption::WithFreqsAndPositions,
            [true, true, false],
        ),
    ),
    (
        "number",
        (
            ValueType::U64,
            IndexRecordOption::Basic,
            [true, true, false],
        ),
    ),
    (
        "json",
        (
            ValueType::Json,
            IndexRecordOption::WithFreqs,
            [true, false, true],
        ),
    ),
    (
        "stored",
        (
            ValueType::Date,
            IndexRecordOption::Basic,
            [false, false, false],
        ),
    ),
];

#[test]
fn schemas_tell_their_fields(rt: HostRuntime) -> Result<(), Fail> {
    let schema = four_fields(rt.alloc())?.clone()?;
    let mut seen = 0usize;
    for (field, entry) in schema.fields() {
        let told = (entry.name(), told_of(entry));
        assert!(rt; (field.field_id() as usize, FIELDS.get(seen)) == (seen, Some(&told)));
        seen = seen.saturating_add(1);
    }
    assert!(rt; (seen, schema.num_fields()) == (4, 4));
    assert!(rt; schema.get_field_entry(Field::from_field_id(1)).name() == "number");
    Ok(())
}

#[test]
fn options_are_ordered(rt: HostRuntime) {
    let basic = IndexRecordOption::Basic;
    let counts = IndexRecordOption::WithFreqs;
    let all = IndexRecordOption::WithFreqsAndPositions;
    // what an option records, and the option lowered to each of the three
    let rows = [
        (basic, [false, false], [basic, basic, basic]),
        (counts, [true, false], [basic, counts, counts]),
        (all, [true, true], [basic, counts, all]),
    ];
    for (option, recorded, lowered) in rows {
        let told = [option.has_freq(), option.has_positions()];
        let low = [
            option.downgrade(basic),
            option.downgrade(counts),
            option.downgrade(all),
        ];
        assert!(rt; (told, low) == (recorded, lowered));
    }
}

// Appends a token.
fn push_token(spelled: &mut String, token: TokenView<'_>) -> Result<(), Fault> {
    spelled.push_str(token.text)?;
    write!(spelled, "@{}", token.position)?;
    write!(spelled, "+{}", token.position_length)?;
    write!(spelled, " {}..{}, ", token.offset_from, token.offset_to)?;
    Ok(())
}

// Lists the remaining tokens.
fn spell_stream<S: TokenStream>(alloc: Global, tokens: &mut S) -> Result<String, Fault> {
    let mut spelled = String::new(alloc);
    while tokens.advance() {
        push_token(&mut spelled, tokens.token())?;
    }
    Ok(spelled)
}

// Returns whether both the token list and the token stream of a text give these tokens.
pub(crate) fn are_spelled<T: TextAnalyzer>(
    alloc: Global,
    analyzer: &T,
    text: &str,
    spelled: &str,
) -> Result<[bool; 2], Fault> {
    let mut tokens = analyzer.token_list(alloc, text)?;
    let cut = spell_stream(alloc, &mut tokens)?;
    let mut tokens = analyzer.token_stream(alloc, text)?;
    let lent = spell_stream(alloc, &mut tokens)?;
    Ok([cut.as_str() == spelled, lent.as_str() == spelled])
}

#[test]
fn texts_are_cut(rt: HostRuntime) -> Result<(), Fail> {
    let rows = [
        ("", ""),
        (" .-", ""),
        ("a b", "a@0+1 0..1, b@1+1 2..3, "),
        (
            "Le caf\u{e9}, 3x",
            "Le@0+1 0..2, caf\u{e9}@1+1 3..8, 3x@2+1 10..12, ",
        ),
        (
            "\u{65e5}_\u{672c}",
            "\u{65e5}@0+1 0..3, \u{672c}@1+1 4..7, ",
        ),
    ];
    for (text, spelled) in rows {
        let found = are_spelled(rt.alloc(), &AsciiTokenizer, text, spelled)?;
        assert!(rt; found == [true; 2]);
    }
    Ok(())
}

// Makes one token of each text, by `token_list` alone.
struct RawTokenizer;

impl TextAnalyzer for RawTokenizer {
    ghost words = { λ tokenizer text. record { offset_from = 0; offset_to = length text; position = 0; text = text; position_length = 1 } ∷ [] };

    fn token_list(&self, alloc: Global, text: &str) -> Result<TokenList, Fault> {
        let mut tokens = Vec::new(alloc);
        tokens.push(Token {
            offset_from: 0,
            offset_to: text.len(),
            position: 0,
            text: String::from_str(alloc, text)?,
            position_length: 1,
        })?;
        Ok(TokenList::new(tokens))
    }
}

#[test]
fn an_analyzer_needs_only_a_list(rt: HostRuntime) -> Result<(), Fail> {
    let rows = [
        ("", "@0+1 0..0, "),
        ("Le caf\u{e9}, 3x", "Le caf\u{e9}, 3x@0+1 0..12, "),
    ];
    for (text, spelled) in rows {
        let found = are_spelled(rt.alloc(), &RawTokenizer, text, spelled)?;
        assert!(rt; found == [true; 2]);
    }
    Ok(())
}

#[test]
fn remaining_tokens_are_collected(rt: HostRuntime) -> Result<(), Fail> {
    let mut stream = AsciiTokens::new("x y z");
    let first = stream.advance();
    let mut tokens = TokenList::from_stream(rt.alloc(), &mut stream)?;
    let spelled = spell_stream(rt.alloc(), &mut tokens)?;
    assert!(rt; (first, spelled.as_str()) == (true, "y@1+1 2..3, z@2+1 4..5, "));
    Ok(())
}

// Returns whether the next token is `x` at byte 0 and the one after it is at byte 2, the position of that
// one, and whether two more follow.
fn gone_over<S: TokenStream>(tokens: &mut S) -> ([bool; 2], usize, [bool; 2]) {
    let is_x = match tokens.next() {
        Some(token) => token.text == "x" && token.offset_from == 0,
        None => false,
    };
    if !tokens.advance() {
        return ([is_x, false], 0, [false; 2]);
    }
    let (is_next, position) = (tokens.token().offset_from == 2, tokens.token().position);
    let third = tokens.next().is_some();
    ([is_x, is_next], position, [third, tokens.advance()])
}

#[test]
fn tokens_are_gone_over(rt: HostRuntime) -> Result<(), Fail> {
    let lent = gone_over(&mut AsciiTokenizer.token_stream(rt.alloc(), "x y")?);
    let cut = gone_over(&mut AsciiTokenizer.token_list(rt.alloc(), "x y")?);
    assert!(rt; [cut, lent] == [([true; 2], 1, [false; 2]); 2]);
    Ok(())
}

// Returns whether a term belongs to field 3 and has these bytes.
pub(crate) fn has_bytes(made: Result<Term, Fault>, row: &[u8]) -> Result<bool, Fault> {
    let term = made?;
    Ok((term.field() == Field::from_field_id(3)) & (term.serialized_value_bytes() == row))
}

#[test]
fn values_have_terms(rt: HostRuntime) {
    let (alloc, field) = (rt.alloc(), Field::from_field_id(3));
    let unsigned = Term::from_field_u64(alloc, field, 983);
    let signed = Term::from_field_i64(alloc, field, -4);
    let truth = Term::from_field_bool(alloc, field, true);
    let bytes = Term::from_field_bytes(alloc, field, b"ab");
    let found = [
        has_bytes(unsigned, b"\x00\x00\x00\x00\x00\x00\x03\xd7"),
        has_bytes(signed, b"\x7f\xff\xff\xff\xff\xff\xff\xfc"),
        has_bytes(truth, b"\x00\x00\x00\x00\x00\x00\x00\x01"),
        has_bytes(bytes, b"ab"),
    ];
    assert!(rt; found == [Ok(true); 4]);
}
