ghost use Rattle.std.specs.Prelude.{◌≡◌, ◌==◌, ◌<◌, ◌++◌, [], false, true, Err, None, Ok, length, position, slice_get, IfErr, IfOk, IfSome, OnOk};
ghost use Rattle.ii_io.specs.Faults.{OnlyMemory};
ghost use Rattle.ii_base.specs.Options.{has_positions};
ghost use Rattle.ii_base.specs.Values.{text_key};
ghost use Rattle.ii_base.specs.declared.schema.value_type.ValueType.TheVariants as types;
ghost use Rattle.ii_query_grammar.specs.Trees.{literal_of, set_of};
ghost use Rattle.ii_query_parser.specs.declared.query_parser_error.QueryParserError.TheVariants as errors;
ghost use Rattle.ii_query_parser.specs.QuerySteps.{Adds, AddsIn, AddsOrKeeps, AddsMaybe, AddsText, AddsUnlessLeft, AreAlone, CutsAtDot};
ghost use Rattle.ii_query_parser.specs.QueryTexts.{IsWhyRefused, delimited_terms, field_named, has_json_values, holds_texts, is_alone, literal_terms, may_be_prefix, named_terms, no_phrase, no_prefix, none_unless, prefix_terms, refused, repeats, set_terms, sloppy_terms, some_default, some_terms, starred_terms, terms_in_field, terms_of, text_terms, typed_terms, undelimited_terms, unless_repeated, without_texts, words_phrase};
ghost use Rattle.std.specs.List.{find, list_all};

use crate::literal_analyzers::{
    LiteralAnalyzers, PrefixAnalyzers, StarredAnalyzers, WordAnalyzers,
};
use crate::phrase_words::{PhraseWords, has_words, words_phrase};
use crate::query_parser_error::QueryParserError;
use crate::unknown_field::names_field;
use ii_base::{Fault, Field, IndexRecordOption, Schema, Term, TextAnalyzer, ValueType};
use ii_dates::date_term;
use ii_json::{bool_term, convert_to_fast_value_and_append_to_json_term, i64_term, u64_term};
use ii_query_grammar::{Delimiter, UserInputLiteral, UserInputSet};
use ii_term_text::{address_term, bytes_term};
use ii_tokenizers::FieldAnalyzers;
use std::alloc::Global;

/// Appends the terms, phrases or prefixes of a literal to an empty list. A document matches if it has any of
/// them.
pub(crate) fn push_literal<F: FieldAnalyzers>(
    alloc: Global,
    schema: &Schema,
    default_fields: &[Field],
    analyzers: &F,
    literal: &UserInputLiteral,
    terms: &mut Vec<PhraseWords>,
) -> Result<(), QueryParserError>
    requires empty { terms.old.items ≡ [] }
    ensures added { Adds (terms_of (record { texts = record { analyze = F.words analyzers.now; entries = schema.now }; prefixes = F.prefix_words analyzers.now; defaults = default_fields.now }) (literal_of literal.now)) schema.now terms.old.items terms.new.items result }
    ensures alone { OnOk result (AreAlone literal.now.delimiter terms.new.items) }
{
    match push_delimited(alloc, schema, default_fields, analyzers, literal, terms) {
        Ok(()) => check_delimiter(schema, literal.delimiter, terms),
        Err(error) => Err(error),
    }
}

// Appends the terms and phrases of the text of a literal, by the analyzers that it has.
fn push_delimited<F: FieldAnalyzers>(
    alloc: Global,
    schema: &Schema,
    default_fields: &[Field],
    analyzers: &F,
    literal: &UserInputLiteral,
    terms: &mut Vec<PhraseWords>,
) -> Result<(), QueryParserError>
    ensures { Adds (undelimited_terms (record { texts = record { analyze = F.words analyzers.now; entries = schema.now }; prefixes = F.prefix_words analyzers.now; defaults = default_fields.now }) (literal_of literal.now)) schema.now terms.old.items terms.new.items result }
{
    let words = WordAnalyzers(analyzers);
    match literal.delimiter {
        Delimiter::Star => {
            let prefixes = PrefixAnalyzers(analyzers);
            push_text(alloc, schema, default_fields, &prefixes, literal, terms)
        }
        Delimiter::Prefix => {
            let starred = StarredAnalyzers(analyzers);
            push_text(alloc, schema, default_fields, &starred, literal, terms)
        }
        Delimiter::None => push_text(alloc, schema, default_fields, &words, literal, terms),
        Delimiter::DoubleQuotes => {
            push_text(alloc, schema, default_fields, &words, literal, terms)
        }
        Delimiter::Slop(_) => push_text(alloc, schema, default_fields, &words, literal, terms),
    }
}

/// Appends the terms and phrases of the values of a set. A document matches if it has any of them.
pub(crate) fn push_set<F: FieldAnalyzers>(
    alloc: Global,
    schema: &Schema,
    analyzers: &F,
    set: &UserInputSet,
    terms: &mut Vec<PhraseWords>,
) -> Result<(), QueryParserError>
    ensures { Adds (set_terms (record { analyze = F.words analyzers.now; entries = schema.now }) (set_of set.now)) schema.now terms.old.items terms.new.items result }
{
    let name = set.field_name.as_str();
    let words = WordAnalyzers(analyzers);
    for value in &set.values {
        match push_named(alloc, schema, &words, name, value.as_str(), terms) {
            Ok(()) => {}
            Err(error) => return Err(error),
        }
    }
    if !names_field(schema, name) {
        return Err(QueryParserError::FieldDoesNotExist);
    }
    Ok(())
}

// Returns an error if terms are prefixes and one of them may be none, if they have a slop above 0 and a term occurs
// twice in one, or if their last words are prefixes and one of them is of a field without texts.
fn check_delimiter(
    schema: &Schema,
    delimiter: Delimiter,
    terms: &[PhraseWords],
) -> Result<(), QueryParserError>
    ensures taken { OnOk result (delimited_terms schema.now (Ok terms.now) delimiter ≡ Ok terms.now) }
    ensures alone { OnOk result (AreAlone delimiter terms.now) }
    ensures refused { IfErr result (λ e. delimited_terms schema.now (Ok terms.now) delimiter ≡ Err e) }
{
    match delimiter {
        Delimiter::Star => check_prefixes(schema, terms),
        Delimiter::None => Ok(()),
        Delimiter::DoubleQuotes => Ok(()),
        Delimiter::Slop(slop) => check_slop(slop, terms),
        Delimiter::Prefix => check_texts(schema, terms),
    }
}

// Returns an error if a phrase is of a field without texts.
fn check_texts(schema: &Schema, terms: &[PhraseWords]) -> Result<(), QueryParserError>
    ensures taken { OnOk result (without_texts schema.now terms.now ≡ None) }
    ensures refused { IfErr result (λ e. starred_terms terms.now (without_texts schema.now terms.now) ≡ Err e) }
{
    for words in terms {
        if !holds_texts(schema, words.field()) {
            return Err(QueryParserError::UnsupportedPrefix(words.field()));
        }
    }
    Ok(())
}

// Returns an error if the slop is above 0 and a term occurs twice in a phrase.
fn check_slop(slop: u32, terms: &[PhraseWords]) -> Result<(), QueryParserError>
    ensures taken { OnOk result (sloppy_terms slop terms.now ≡ Ok terms.now) }
    ensures refused { IfErr result (λ e. sloppy_terms slop terms.now ≡ Err e) }
{
    if slop == 0 {
        return Ok(());
    }
    check_repeated(terms)
}

// Returns an error if a term occurs twice in a phrase.
fn check_repeated(terms: &[PhraseWords]) -> Result<(), QueryParserError>
    ensures taken { OnOk result (find repeats terms.now ≡ None) }
    ensures refused { IfErr result (λ e. unless_repeated terms.now (find repeats terms.now) ≡ Err e) }
{
    for words in terms {
        if words.repeats() {
            return Err(QueryParserError::UnsupportedSlop(words.field()));
        }
    }
    Ok(())
}

// Returns an error if there is no term, or if one may be no prefix.
fn check_prefixes(schema: &Schema, terms: &[PhraseWords]) -> Result<(), QueryParserError>
    ensures taken { OnOk result (no_prefix schema.now terms.now ≡ None) }
    ensures alone { OnOk result (list_all is_alone terms.now ≡ true) }
    ensures some { OnOk result (some_terms terms.now ≡ Ok terms.now) }
    ensures refused { IfErr result (λ e. prefix_terms terms.now (no_prefix schema.now terms.now) ≡ Err e) }
{
    if terms.is_empty() {
        return Err(QueryParserError::NoWords);
    }
    for words in terms {
        if !may_be_prefix(schema, words) {
            return Err(QueryParserError::UnsupportedPrefix(words.field()));
        }
    }
    Ok(())
}

// Whether a term may be a prefix: no other follows it, and its field has texts.
fn may_be_prefix(schema: &Schema, words: &PhraseWords) -> bool
    ensures { result ≡ may_be_prefix schema.now words.now }
{
    if !words.is_alone() {
        return false;
    }
    holds_texts(schema, words.field())
}

// Whether a field of the schema has texts.
fn holds_texts(schema: &Schema, field: Field) -> bool
    ensures { result ≡ holds_texts (slice_get schema.now field) }
{
    if field.field_id() as usize >= schema.num_fields() {
        return false;
    }
    match schema.get_field_entry(field).value_type() {
        ValueType::Str | ValueType::Json => true,
        ValueType::U64
        | ValueType::I64
        | ValueType::Bool
        | ValueType::Date
        | ValueType::Bytes
        | ValueType::IpAddr => false,
    }
}

// Appends the terms and phrases of the text of a literal.
fn push_text<L: LiteralAnalyzers>(
    alloc: Global,
    schema: &Schema,
    default_fields: &[Field],
    analyzers: &L,
    literal: &UserInputLiteral,
    terms: &mut Vec<PhraseWords>,
) -> Result<(), QueryParserError>
    ensures { Adds (literal_terms (record { analyze = L.words analyzers.now; entries = schema.now }) default_fields.now (literal_of literal.now).field_name (literal_of literal.now).phrase) schema.now terms.old.items terms.new.items result }
{
    let phrase = literal.phrase.as_str();
    match &literal.field_name {
        None => push_defaults(alloc, schema, default_fields, analyzers, phrase, terms),
        Some(name) => push_named(alloc, schema, analyzers, name.as_str(), phrase, terms),
    }
}

// Adds the terms of a text in each default field. A field that keeps no positions is left out of a phrase of
// several words, unless there are no other terms.
fn push_defaults<L: LiteralAnalyzers>(
    alloc: Global,
    schema: &Schema,
    default_fields: &[Field],
    analyzers: &L,
    phrase: &str,
    terms: &mut Vec<PhraseWords>,
) -> Result<(), QueryParserError>
    ensures { Adds (some_default (record { analyze = L.words analyzers.now; entries = schema.now }) phrase.now default_fields.now) schema.now terms.old.items terms.new.items result }
{
    if default_fields.is_empty() {
        return Err(QueryParserError::NoDefaultFieldDeclared);
    }
    let before = terms.len();
    let mut left_out = None;
    for field in default_fields {
        match push_default(alloc, schema, analyzers, *field, phrase, terms) {
            Ok(left) => left_out = left_out.or(left),
            Err(error) => return Err(error),
        }
    }
    if terms.len() == before {
        return check_none(left_out);
    }
    Ok(())
}

// Returns an error if a default field is left out.
fn check_none(left_out: Option<Field>) -> Result<(), QueryParserError>
    ensures none { OnOk result (none_unless left_out ≡ Ok []) }
    ensures refused { IfErr result (λ e. none_unless left_out ≡ Err e) }
{
    match left_out {
        Some(field) => Err(QueryParserError::FieldDoesNotHavePositionsIndexed(field)),
        None => Ok(()),
    }
}

// Adds the terms of a text in a default field, unless it is left out. Returns the field if it is.
fn push_default<L: LiteralAnalyzers>(
    alloc: Global,
    schema: &Schema,
    analyzers: &L,
    field: Field,
    phrase: &str,
    terms: &mut Vec<PhraseWords>,
) -> Result<Option<Field>, QueryParserError>
    ensures { AddsUnlessLeft field (terms_in_field (record { analyze = L.words analyzers.now field; entries = schema.now }) field [] phrase.now) schema.now terms.old.items terms.new.items result }
{
    match analyzers.push_in_one(alloc, schema, field, "", phrase, terms) {
        Ok(()) => Ok(None),
        Err(QueryParserError::FieldDoesNotHavePositionsIndexed(_)) => Ok(Some(field)),
        Err(error) => Err(error),
    }
}

// Adds the terms of a text after a name: that of a field, or that of one of JSON values and a path after a
// dot.
fn push_named<L: LiteralAnalyzers>(
    alloc: Global,
    schema: &Schema,
    analyzers: &L,
    name: &str,
    phrase: &str,
    terms: &mut Vec<PhraseWords>,
) -> Result<(), QueryParserError>
    ensures { AddsOrKeeps (named_terms (record { analyze = L.words analyzers.now; entries = schema.now }) name.now phrase.now (field_named schema.now name.now)) schema.now terms.old.items terms.new.items result }
{
    if let Some(field) = field_named(schema, name) {
        return analyzers.push_in_one(alloc, schema, field, "", phrase, terms);
    }
    let Some((name, path)) = cut_at_dot(name) else {
        return Err(QueryParserError::FieldDoesNotExist);
    };
    let Some(field) = field_named(schema, name) else {
        return Err(QueryParserError::FieldDoesNotExist);
    };
    if !has_json(schema, field) {
        return Err(QueryParserError::FieldDoesNotExist);
    }
    analyzers.push_in_one(alloc, schema, field, path, phrase, terms)
}

/// Returns the first field with this name.
pub fn field_named(schema: &Schema, name: &str) -> Option<Field>
    ensures named { result ≡ field_named schema.now name.now }
    ensures inside { IfSome result (λ field. field < length schema.now) }
{
    for id in 0..schema.num_fields() as u32 {
        let field = Field::from_field_id(id);
        if schema.get_field_entry(field).name() == name {
            return Some(field);
        }
    }
    None
}

// Whether a field of the schema has JSON values.
pub(crate) fn has_json(schema: &Schema, field: Field) -> bool
    ensures { result ≡ has_json_values (slice_get schema.now field) }
{
    if field.field_id() as usize >= schema.num_fields() {
        return false;
    }
    schema.get_field_entry(field).value_type() == ValueType::Json
}

// The text before the first dot of a name and the text after it, if it has one.
pub(crate) fn cut_at_dot(name: &str) -> Option<(&str, &str)>
    ensures { CutsAtDot name.now result }
{
    let Some(place) = dot_in(name.as_bytes()) else {
        return None;
    };
    Some((name.split_at(place).0, name.split_at(place + 1).1))
}

fn dot_in(name: &[u8]) -> Option<usize>
    ensures { result ≡ position (λ b. b == 46) name.now }
{
    name.iter().position(|b| *b == b'.')
}

// Adds the terms of a text in a field, at a path if it has JSON values.
pub(crate) fn push_in_field<A: TextAnalyzer>(
    alloc: Global,
    schema: &Schema,
    analyzer: &A,
    field: Field,
    path: &str,
    phrase: &str,
    terms: &mut Vec<PhraseWords>,
) -> Result<(), QueryParserError>
    ensures { AddsOrKeeps (terms_in_field (record { analyze = A.words analyzer.now; entries = schema.now }) field path.now phrase.now) schema.now terms.old.items terms.new.items result }
{
    if field.field_id() as usize >= schema.num_fields() {
        return Err(QueryParserError::FieldDoesNotExist);
    }
    let entry = schema.get_field_entry(field);
    if !entry.is_indexed() {
        return Err(QueryParserError::FieldNotIndexed(field));
    }
    let place = Place {
        field,
        value_type: entry.value_type(),
        option: entry.index_record_option(),
        expand_dots: entry.expands_dots(),
    };
    place.push_terms(alloc, analyzer, path, phrase, terms)
}

// A field in which a text is looked up.
#[derive(Clone, Copy)]
pub(crate) struct Place {
    pub(crate) field: Field,
    pub(crate) value_type: ValueType,
    pub(crate) option: IndexRecordOption,
    pub(crate) expand_dots: bool,
}

impl Place {
    // Adds the terms of a text, by the type of the field's values.
    pub(crate) fn push_terms<A: TextAnalyzer>(
        self,
        alloc: Global,
        analyzer: &A,
        path: &str,
        phrase: &str,
        terms: &mut Vec<PhraseWords>,
    ) -> Result<(), QueryParserError>
        ensures { AddsIn (typed_terms (record { analyze = A.words analyzer.now; entries = [] }) self.field (has_positions self.option) self.expand_dots path.now phrase.now self.value_type) self.field (has_positions self.option) terms.old.items terms.new.items result }
    {
        match self.value_type {
            ValueType::Str => self.push_text(alloc, analyzer, phrase, terms),
            ValueType::U64 => push_read(
                alloc,
                u64_term(alloc, self.field, phrase),
                QueryParserError::ExpectedInt(self.field),
                terms,
            ),
            ValueType::I64 => push_read(
                alloc,
                i64_term(alloc, self.field, phrase),
                QueryParserError::ExpectedInt(self.field),
                terms,
            ),
            ValueType::Bool => push_read(
                alloc,
                bool_term(alloc, self.field, phrase),
                QueryParserError::ExpectedBool(self.field),
                terms,
            ),
            ValueType::Json => self.push_json(alloc, analyzer, path, phrase, terms),
            ValueType::Date => push_read(
                alloc,
                date_term(alloc, self.field, phrase),
                QueryParserError::ExpectedDate(self.field),
                terms,
            ),
            ValueType::Bytes => push_read(
                alloc,
                bytes_term(alloc, self.field, phrase),
                QueryParserError::ExpectedBytes(self.field),
                terms,
            ),
            ValueType::IpAddr => push_read(
                alloc,
                address_term(alloc, self.field, phrase),
                QueryParserError::ExpectedIpAddr(self.field),
                terms,
            ),
        }
    }

    // Adds the token of a text, or the phrase of several; nothing if it has none.
    fn push_text<A: TextAnalyzer>(
        self,
        alloc: Global,
        analyzer: &A,
        phrase: &str,
        terms: &mut Vec<PhraseWords>,
    ) -> Result<(), QueryParserError>
        ensures { AddsText (text_terms self.field (has_positions self.option) None (A.words analyzer.now phrase.now) (words_phrase (record { field = self.field; value = [] }) (A.words analyzer.now phrase.now))) terms.old.items terms.new.items result }
    {
        let prefix = Term::from_field_bytes(alloc, self.field, &[])?;
        let words = words_phrase(alloc, analyzer, &prefix, phrase)?;
        self.push_words(alloc, analyzer, phrase, None, words, terms)
    }

    // Adds the terms of a text at a path of JSON values: the value that it is taken for, and its tokens.
    fn push_json<A: TextAnalyzer>(
        self,
        alloc: Global,
        analyzer: &A,
        path: &str,
        phrase: &str,
        terms: &mut Vec<PhraseWords>,
    ) -> Result<(), QueryParserError>
        ensures { AddsIn (typed_terms (record { analyze = A.words analyzer.now; entries = [] }) self.field (has_positions self.option) self.expand_dots path.now phrase.now types.Json) self.field (has_positions self.option) terms.old.items terms.new.items result }
    {
        if path.as_bytes().contains(&0) {
            return Err(QueryParserError::UnsupportedPath(self.field));
        }
        let start = Term::from_field_json_path(alloc, self.field, path, self.expand_dots)?;
        let value = convert_to_fast_value_and_append_to_json_term(alloc, &start, phrase)?;
        let prefix = text_prefix(start)?;
        let words = words_phrase(alloc, analyzer, &prefix, phrase)?;
        self.push_words(alloc, analyzer, phrase, value, words, terms)
    }

    // Adds the terms that a text is looked up by: that of a value, and the phrase of the text's words. Nothing if
    // there is no value and no word.
    pub(crate) fn push_words<A: TextAnalyzer>(
        self,
        alloc: Global,
        analyzer: &A,
        phrase: &str,
        value: Option<Term>,
        words: Option<PhraseWords>,
        terms: &mut Vec<PhraseWords>,
    ) -> Result<(), QueryParserError>
        ensures { AddsText (text_terms self.field (has_positions self.option) value (A.words analyzer.now phrase.now) words) terms.old.items terms.new.items result }
    {
        let Some(words) = words else {
            return self.push_value(alloc, analyzer, phrase, value, terms);
        };
        if !self.option.has_positions() && !words.is_alone() {
            drop(value);
            return Err(QueryParserError::FieldDoesNotHavePositionsIndexed(self.field));
        }
        if let Some(value) = value {
            terms.push(PhraseWords::one(alloc, value))?;
        }
        Ok(terms.push(words)?)
    }

    // Adds the term of a value. If there is none, returns an error if the text has words, which are no phrase.
    fn push_value<A: TextAnalyzer>(
        self,
        alloc: Global,
        analyzer: &A,
        phrase: &str,
        value: Option<Term>,
        terms: &mut Vec<PhraseWords>,
    ) -> Result<(), QueryParserError>
        ensures { AddsText (text_terms self.field (has_positions self.option) value (A.words analyzer.now phrase.now) None) terms.old.items terms.new.items result }
    {
        match value {
            Some(value) => Ok(terms.push(PhraseWords::one(alloc, value))?),
            None => self.check_words(alloc, analyzer, phrase),
        }
    }

    // Returns an error if a text has words.
    fn check_words<A: TextAnalyzer>(
        self,
        alloc: Global,
        analyzer: &A,
        phrase: &str,
    ) -> Result<(), QueryParserError>
        ensures none { OnOk result (no_phrase self.field (A.words analyzer.now phrase.now) ≡ Ok []) }
        ensures refused { IfErr result (IsWhyRefused (refused (no_phrase self.field (A.words analyzer.now phrase.now)))) }
    {
        if has_words(alloc, analyzer, phrase)? {
            return Err(QueryParserError::UnsupportedPhrase(self.field));
        }
        Ok(())
    }
}

// The prefix of the words of texts at a path.
fn text_prefix(path: Term) -> Result<Term, Fault>
    ensures ok { IfOk result (λ prefix. prefix ≡ record { field = path.field; value = path.value ++ text_key [] }) }
    ensures only { OnlyMemory result }
{
    let mut prefix = path;
    prefix.append_type_and_str("")?;
    Ok(prefix)
}

// Adds a term, or returns this error if there is none.
fn push_term(
    alloc: Global,
    term: Option<Term>,
    error: QueryParserError,
    terms: &mut Vec<PhraseWords>,
) -> Result<(), QueryParserError>
    ensures { AddsMaybe term error terms.old.items terms.new.items result }
{
    match term {
        Some(term) => Ok(terms.push(PhraseWords::one(alloc, term))?),
        None => Err(error),
    }
}

// Adds a term that was read, or returns the error.
fn push_read(
    alloc: Global,
    term: Result<Option<Term>, Fault>,
    error: QueryParserError,
    terms: &mut Vec<PhraseWords>,
) -> Result<(), QueryParserError>
    ensures read { IfOk term (λ t. AddsMaybe t error terms.old.items terms.new.items result) }
    ensures refused { IfErr term (λ fault. result ≡ Err (errors.Fault fault)) }
{
    match term {
        Ok(term) => push_term(alloc, term, error, terms),
        Err(fault) => Err(QueryParserError::from(fault)),
    }
}
