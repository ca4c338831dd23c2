ghost use Rattle.std.specs.Prelude.{◌≡◌, ◌<◌, ◌&&◌, ℕ, List, IfOk, Ok, OnOk, false, map, not, true};
ghost use Rattle.std.specs.Option.{option_map};
ghost use Rattle.std.specs.List.{list_all, list_any};
ghost use Rattle.ii_io.specs.Faults.{OnlyMemory};
ghost use Rattle.ii_base.specs.Schema.{SchemaEntry};
ghost use Rattle.ii_definitions.specs.Tokens.{IndexToken};
ghost use Rattle.ii_query_grammar.specs.Trees.{Ast, all_of, any_of, ast_of, asts_from, in_set, leaf, literal_of, range_of, ranged, set_of, without};
ghost use Rattle.ii_query_parser.specs.Queries.{covers_docs, has_fields, has_tree, keeps_positions, matches, trees_of};
ghost use Rattle.ii_query_parser.specs.Ranges.{keys_of, ranges_of};
ghost use Rattle.ii_query_parser.specs.QuerySteps.{AreAlone, AreQueriesOf, HasPushed, HasTermsUnless, AreInside, IsInside, IsLeftBy, phrase_kept, phrase_within};
ghost use Rattle.ii_query_parser.specs.QueryTexts.{AnalyzedFields, IsQueryBy, IsQueryOf, IsQueryOfText, IsQueryOfTextBy, has_between, has_delimited, has_keys, has_term, has_values, has_words_within, are_some, is_alone, is_wordless};
ghost use Rattle.ii_query_parser.specs.StarredTexts.{has_starred, is_token_under};

use crate::literal::{push_literal, push_set};
use crate::phrase_prefix::PhrasePrefix;
use crate::phrase_words::PhraseWords;
use crate::query::{PhraseTerm, Query};
use crate::query_parser_error::QueryParserError;
use crate::range_text::{TermRanges, range_keys};
use crate::term_range::TermRange;
use ii_base::{Fault, Field, Schema, TERMINATED, TextAnalyzer};
use ii_query_grammar::{
    Delimiter, UserInputAst, UserInputLiteral, UserInputRange, UserInputSet, parse,
};
use ii_tokenizers::{FieldAnalyzers, OneAnalyzer};
use std::alloc::Global;

/// Parses a query text (`ii_query_grammar::parse`) over the fields of a schema, each of which has the same
/// analyzer. A word or a phrase without a field name is searched in all `default_fields`, which are fields of the
/// schema. Default fields without positions are skipped for a phrase of several words, unless no other default
/// field is left. `FieldEntry::index_record_option` says which fields keep positions. A text without tokens is left
/// out of the query. `query_of_by` documents the meaning of words and phrases.
///
/// # Errors
///
/// `SyntaxError` or `Unsupported` with the first byte at which the text is not a query; otherwise the error
/// of the first word, phrase or range that has one; otherwise `NoWords` if nothing is left of the query.
pub fn parse_query<A: TextAnalyzer>(
    alloc: Global,
    schema: &Schema,
    default_fields: &[Field],
    analyzer: &A,
    text: &str,
) -> Result<Query, QueryParserError>
    ensures { IsQueryOfText (record { texts = record { analyze = A.words analyzer.now; entries = schema.now }; defaults = default_fields.now }) text.now result }
{
    let analyzers = OneAnalyzer(analyzer);
    parse_query_by(alloc, schema, default_fields, &analyzers, text)
}

/// Parses a query text over the fields of a schema, each with its analyzer. Words and phrases mean what
/// `query_of_by` documents, and those without a field name what `parse_query` says; so are the errors.
pub fn parse_query_by<F: FieldAnalyzers>(
    alloc: Global,
    schema: &Schema,
    default_fields: &[Field],
    analyzers: &F,
    text: &str,
) -> Result<Query, QueryParserError>
    ensures { IsQueryOfTextBy (record { texts = record { analyze = F.words analyzers.now; entries = schema.now }; prefixes = F.prefix_words analyzers.now; defaults = default_fields.now }) text.now result }
{
    match parse(alloc, text) {
        Ok(ast) => query_of_by(alloc, schema, default_fields, analyzers, &ast),
        Err(error) => Err(QueryParserError::from(error)),
    }
}

/// Returns the query of a tree, as `query_of_by`, where all fields have the same analyzer.
pub fn query_of<A: TextAnalyzer>(
    alloc: Global,
    schema: &Schema,
    default_fields: &[Field],
    analyzer: &A,
    ast: &UserInputAst,
) -> Result<Query, QueryParserError>
    ensures { IsQueryOf (record { texts = record { analyze = A.words analyzer.now; entries = schema.now }; defaults = default_fields.now }) (ast_of ast.now) result }
{
    let analyzers = OneAnalyzer(analyzer);
    query_of_by(alloc, schema, default_fields, &analyzers, ast)
}

/// Returns the query of a tree. Its words, phrases and ranges mean this:
///
/// - A name is that of a field of the schema, or that of a JSON field, a dot and a path in its values. In
///   that case the field's name ends at the first dot. `FieldDoesNotExist` if it is neither.
/// - In a text field, a text is the token that the field's analyzer makes of it, or the phrase of several, each at
///   its position. `UnsupportedPhrase` if one occurs before the first or 2^32 positions or more after it.
///   `FieldDoesNotHavePositionsIndexed` if there are several and the field keeps no positions.
/// - In a field of numbers or booleans, a text is the value that Rust's `parse` gives; `ExpectedInt` or
///   `ExpectedBool` if there is none. In a field of dates it is the date that `date_of` of `ii_dates` reads;
///   `ExpectedDate` if there is none. In a field of bytes it is pairs of hexadecimal digits, in one of addresses an
///   IPv4 or IPv6 address, of which `address_of` of `ii_term_text` reads the number; `ExpectedBytes` or
///   `ExpectedIpAddr` if it is none.
/// - At a JSON path, a text matches as a token or phrase, as in a text field, or as a value: a signed number,
///   an unsigned one or a boolean.
/// - A phrase with a slop matches the documents that have it within the slop (`Query::Phrase`). `UnsupportedSlop` if the
///   slop is above 0 and a token occurs twice.
/// - A text without tokens, which at a JSON path is no value either, is left out of the query: `the AND "-"` is
///   `the`, and so is `the AND NOT "-"`. A set is left out if all its values are. `NoWords` if nothing is left, and
///   for a prefix without a token.
/// - A range matches the documents that have a value of the field, or at the JSON path, between its bounds:
///   numbers, dates and addresses in their order, `false` before `true`, tokens and bytes in the order of their bytes. No
///   document has one between bounds in the wrong order. A bound is a value as above; in a text field, a text of which the field's analyzer of
///   prefixes and bounds (`FieldAnalyzers::prefix_analyzer`) makes one token, otherwise `UnsupportedBound`. At a JSON
///   path, bounds that are all integers are between integers; other bounds are between the tokens of texts.
/// - A prefix, which ends with `*`, matches the documents that have a token which starts with the one token that this
///   analyzer makes of it; `UnsupportedPrefix` if it makes several, or if the field has no texts.
/// - A phrase with a `*` after it matches the documents that have the phrase of its words, where the last one may be any
///   token that starts with it (`Query::PhrasePrefix`). Its last word is the last token that the field's analyzer of
///   prefixes makes of the text; the words before it are the tokens of the field's analyzer at positions before that one.
///   A single word is a prefix: `"se"*` is `se*`. `UnsupportedPrefix` if the field has no texts.
/// - A set matches the documents that one of its values matches, each as a text in quotes after the set's name. It
///   matches none if it has no values.
/// - `*` matches all documents. Its query is `Query::All(TERMINATED)`, which no number of documents exceeds.
///
/// # Errors
///
/// The error of the first word, phrase or range that has one; otherwise `NoWords` if nothing is left, or
/// `OutOfMemory` in a `Fault`.
pub fn query_of_by<F: FieldAnalyzers>(
    alloc: Global,
    schema: &Schema,
    default_fields: &[Field],
    analyzers: &F,
    ast: &UserInputAst,
) -> Result<Query, QueryParserError>
    ensures { IsQueryBy (record { texts = record { analyze = F.words analyzers.now; entries = schema.now }; prefixes = F.prefix_words analyzers.now; defaults = default_fields.now }) (ast_of ast.now) result }
{
    match left_query(alloc, schema, default_fields, analyzers, ast) {
        Ok(Some(query)) => Ok(query),
        Ok(None) => Err(QueryParserError::NoWords),
        Err(error) => Err(error),
    }
}

// The query of what is left of a tree without the texts that have no word, if something is.
#[cycle(left_query)]
fn left_query<F: FieldAnalyzers>(
    alloc: Global,
    schema: &Schema,
    default_fields: &[Field],
    analyzers: &F,
    ast: &UserInputAst,
) -> Result<Option<Query>, QueryParserError>
    ensures { IsLeftBy (record { texts = record { analyze = F.words analyzers.now; entries = schema.now }; prefixes = F.prefix_words analyzers.now; defaults = default_fields.now }) (ast_of ast.now) result }
{
    match ast {
        UserInputAst::All => Ok(Some(Query::All(TERMINATED))),
        UserInputAst::Leaf(literal) => {
            literal_query(alloc, schema, default_fields, analyzers, literal)
        }
        UserInputAst::Range(range) => {
            range_query(alloc, schema, default_fields, analyzers, range)
        }
        UserInputAst::Set(set) => set_query(alloc, schema, default_fields, analyzers, set),
        UserInputAst::And(parts) => {
            let queries = queries_of(alloc, schema, default_fields, analyzers, parts);
            and_query(parts, queries)
        }
        UserInputAst::Or(parts) => {
            let queries = queries_of(alloc, schema, default_fields, analyzers, parts);
            or_query(parts, queries)
        }
        UserInputAst::AndNot(first, other) => {
            let first = left_query(alloc, schema, default_fields, analyzers, first);
            let other = left_query(alloc, schema, default_fields, analyzers, other);
            and_not_query(alloc, first, other)
        }
    }
}

// The queries of what is left of trees.
#[cycle(left_query)]
fn queries_of<F: FieldAnalyzers>(
    alloc: Global,
    schema: &Schema,
    default_fields: &[Field],
    analyzers: &F,
    parts: &Vec<UserInputAst>,
) -> Result<Vec<Query>, QueryParserError>
    ensures { AreQueriesOf (record { texts = record { analyze = F.words analyzers.now; entries = schema.now }; prefixes = F.prefix_words analyzers.now; defaults = default_fields.now }) (asts_from (map ast_of parts.now.items)) result }
{
    let mut queries = Vec::new(alloc);
    for part in parts {
        match left_query(alloc, schema, default_fields, analyzers, part) {
            Ok(Some(query)) => queries.push(query)?,
            Ok(None) => {}
            Err(error) => return Err(error),
        }
    }
    Ok(queries)
}

// The query that matches what all parts match, by the queries of those that are left.
fn and_query(
    parts: &Vec<UserInputAst>,
    queries: Result<Vec<Query>, QueryParserError>,
) -> Result<Option<Query>, QueryParserError>
    ensures { (q : AnalyzedFields) → AreQueriesOf q (asts_from (map ast_of parts.now.items)) queries → IsLeftBy q (all_of (asts_from (map ast_of parts.now.items))) result }
{
    match queries {
        Ok(queries) => Ok(and_left(parts, queries)),
        Err(error) => Err(error),
    }
}

fn and_left(parts: &Vec<UserInputAst>, queries: Vec<Query>) -> Option<Query>
    ensures { (q : AnalyzedFields) → AreQueriesOf q (asts_from (map ast_of parts.now.items)) (Ok queries) → IsLeftBy q (all_of (asts_from (map ast_of parts.now.items))) (Ok result) }
{
    if are_left_out(parts, &queries) {
        return None;
    }
    Some(Query::And(queries))
}

// The query that matches what one of the parts matches, by the queries of those that are left.
fn or_query(
    parts: &Vec<UserInputAst>,
    queries: Result<Vec<Query>, QueryParserError>,
) -> Result<Option<Query>, QueryParserError>
    ensures { (q : AnalyzedFields) → AreQueriesOf q (asts_from (map ast_of parts.now.items)) queries → IsLeftBy q (any_of (asts_from (map ast_of parts.now.items))) result }
{
    match queries {
        Ok(queries) => Ok(or_left(parts, queries)),
        Err(error) => Err(error),
    }
}

fn or_left(parts: &Vec<UserInputAst>, queries: Vec<Query>) -> Option<Query>
    ensures { (q : AnalyzedFields) → AreQueriesOf q (asts_from (map ast_of parts.now.items)) (Ok queries) → IsLeftBy q (any_of (asts_from (map ast_of parts.now.items))) (Ok result) }
{
    if are_left_out(parts, &queries) {
        return None;
    }
    Some(Query::Or(queries))
}

// Whether there are parts, and none is left.
fn are_left_out(parts: &Vec<UserInputAst>, queries: &Vec<Query>) -> bool
    ensures { result ≡ (are_some (asts_from (map ast_of parts.now.items)) && not (has_tree (trees_of queries.now.items))) }
{
    if parts.as_slice().is_empty() {
        return false;
    }
    queries.as_slice().is_empty()
}

// The query that matches what is left of the first part, and not what is left of the other one.
fn and_not_query(
    alloc: Global,
    first: Result<Option<Query>, QueryParserError>,
    other: Result<Option<Query>, QueryParserError>,
) -> Result<Option<Query>, QueryParserError>
    ensures { (q : AnalyzedFields) (s t : Ast) → IsLeftBy q s first → IsLeftBy q t other → IsLeftBy q (without s t) result }
{
    match (first, other) {
        (Ok(first), Ok(other)) => and_not_left(alloc, first, other),
        (Err(error), _) => Err(error),
        (Ok(_), Err(error)) => Err(error),
    }
}

fn and_not_left(
    alloc: Global,
    first: Option<Query>,
    other: Option<Query>,
) -> Result<Option<Query>, QueryParserError>
    ensures { (q : AnalyzedFields) (s t : Ast) → IsLeftBy q s (Ok first) → IsLeftBy q t (Ok other) → IsLeftBy q (without s t) result }
{
    let Some(first) = first else {
        drop(other);
        return Ok(None);
    };
    let Some(other) = other else {
        return Ok(Some(first));
    };
    Ok(Some(Query::and_not(alloc, first, other)?))
}

// The query of a word, a phrase or a prefix, unless it is left out.
fn literal_query<F: FieldAnalyzers>(
    alloc: Global,
    schema: &Schema,
    default_fields: &[Field],
    analyzers: &F,
    literal: &UserInputLiteral,
) -> Result<Option<Query>, QueryParserError>
    ensures { IsLeftBy (record { texts = record { analyze = F.words analyzers.now; entries = schema.now }; prefixes = F.prefix_words analyzers.now; defaults = default_fields.now }) (leaf (literal_of literal.now)) result }
{
    let mut terms = Vec::new(alloc);
    match push_literal(
        alloc,
        schema,
        default_fields,
        analyzers,
        literal,
        &mut terms,
    ) {
        Ok(()) => Ok(any_left(alloc, terms, literal.delimiter)?),
        Err(error) => Err(error),
    }
}

// The query of a set, unless it is left out.
fn set_query<F: FieldAnalyzers>(
    alloc: Global,
    schema: &Schema,
    default_fields: &[Field],
    analyzers: &F,
    set: &UserInputSet,
) -> Result<Option<Query>, QueryParserError>
    ensures { IsLeftBy (record { texts = record { analyze = F.words analyzers.now; entries = schema.now }; prefixes = F.prefix_words analyzers.now; defaults = default_fields.now }) (in_set (set_of set.now)) result }
{
    let mut terms = Vec::new(alloc);
    match push_set(alloc, schema, analyzers, set, &mut terms) {
        Ok(()) => Ok(set_left(alloc, set, terms)?),
        Err(error) => Err(error),
    }
}

// The query of a range.
fn range_query<F: FieldAnalyzers>(
    alloc: Global,
    schema: &Schema,
    default_fields: &[Field],
    analyzers: &F,
    range: &UserInputRange,
) -> Result<Option<Query>, QueryParserError>
    ensures { IsLeftBy (record { texts = record { analyze = F.words analyzers.now; entries = schema.now }; prefixes = F.prefix_words analyzers.now; defaults = default_fields.now }) (ranged (range_of range.now)) result }
{
    match range_keys(alloc, schema, analyzers, range) {
        Ok(ranges) => Ok(Some(ranges_query(alloc, ranges)?)),
        Err(error) => Err(error),
    }
}

// The query that matches what has a term in one of the ranges.
fn ranges_query(alloc: Global, ranges: TermRanges) -> Result<Query, Fault>
    ensures matches { IfOk result (λ query. (ts : List IndexToken) (doc : ℕ) → matches query ts doc ≡ has_keys ts doc (Ok (ranges_of ranges))) }
    ensures fields { (n : ℕ) → AreInside n ranges → IfOk result (λ query. has_fields n query ≡ true) }
    ensures positions { IfOk result (λ query. (entries : List SchemaEntry) → keeps_positions entries query ≡ true) }
    ensures covers { IfOk result (λ query. (n : ℕ) → covers_docs n query ≡ true) }
    ensures only { OnlyMemory result }
{
    let TermRanges { first, other } = ranges;
    let first = range_or_none(first);
    let Some(other) = other else {
        return Ok(first);
    };
    Query::or(alloc, first, Query::range(other))
}

// The query that matches what has a term in a range, if there is one.
fn range_or_none(range: Option<TermRange>) -> Query
    ensures matches { (ts : List IndexToken) (doc : ℕ) → matches result ts doc ≡ has_between ts doc (option_map keys_of range) }
    ensures fields { (n : ℕ) → IsInside n range → has_fields n result ≡ true }
    ensures positions { (entries : List SchemaEntry) → keeps_positions entries result ≡ true }
    ensures covers { (n : ℕ) → covers_docs n result ≡ true }
{
    match range {
        Some(range) => Query::range(range),
        None => Query::Empty,
    }
}

// The query of the terms and phrases of a set, unless it has values and none of them has a word.
fn set_left(
    alloc: Global,
    set: &UserInputSet,
    terms: Vec<PhraseWords>,
) -> Result<Option<Query>, Fault>
    ensures ok { IfOk result (HasTermsUnless (has_values (set_of set.now) && is_wordless (Ok terms.items)) Delimiter.None terms.items) }
    ensures only { OnlyMemory result }
{
    if set.values.is_empty() {
        return some_of(alloc, terms, Delimiter::None);
    }
    any_left(alloc, terms, Delimiter::None)
}

// The query of some terms, phrases or prefixes, if there is one.
fn any_left(
    alloc: Global,
    terms: Vec<PhraseWords>,
    delimiter: Delimiter,
) -> Result<Option<Query>, Fault>
    requires alone { AreAlone delimiter terms.items }
    ensures ok { IfOk result (HasTermsUnless (is_wordless (Ok terms.items)) delimiter terms.items) }
    ensures only { OnlyMemory result }
{
    if terms.is_empty() {
        return Ok(None);
    }
    some_of(alloc, terms, delimiter)
}

// The query of terms, phrases or prefixes that are not left out.
fn some_of(
    alloc: Global,
    terms: Vec<PhraseWords>,
    delimiter: Delimiter,
) -> Result<Option<Query>, Fault>
    requires alone { AreAlone delimiter terms.items }
    ensures ok { IfOk result (HasTermsUnless false delimiter terms.items) }
    ensures only { OnlyMemory result }
{
    Ok(Some(any_of(alloc, terms, delimiter)?))
}

// The query that matches what has one of some terms, phrases or prefixes: a list of them, or a single one itself.
fn any_of(alloc: Global, terms: Vec<PhraseWords>, delimiter: Delimiter) -> Result<Query, Fault>
    requires alone { AreAlone delimiter terms.items }
    ensures matches { IfOk result (λ query. (ts : List IndexToken) (doc : ℕ) → matches query ts doc ≡ has_term delimiter ts doc terms.items) }
    ensures fields { IfOk result (λ query. (n : ℕ) → has_fields n query ≡ list_all (phrase_within n) terms.items) }
    ensures positions { IfOk result (λ query. (entries : List SchemaEntry) → keeps_positions entries query ≡ list_all (phrase_kept entries) terms.items) }
    ensures covers { IfOk result (λ query. (n : ℕ) → covers_docs n query ≡ true) }
    ensures only { OnlyMemory result }
{
    let mut queries = Vec::new(alloc);
    for words in terms {
        match push_words(&mut queries, words, delimiter) {
            Ok(()) => {}
            Err(fault) => return Err(fault),
        }
    }
    Ok(single_or_any(queries))
}

// Adds the query of a term, a phrase or a prefix.
fn push_words(
    queries: &mut Vec<Query>,
    words: PhraseWords,
    delimiter: Delimiter,
) -> Result<(), Fault>
    requires alone { delimiter ≡ Delimiter.Star → is_alone words ≡ true }
    ensures pushed { OnOk result (HasPushed delimiter queries.old.items queries.new.items words) }
    ensures only { OnlyMemory result }
{
    Ok(queries.push(delimited_query(words, delimiter))?)
}

// The only query of a list, or the query that matches what one of them matches.
fn single_or_any(mut queries: Vec<Query>) -> Query
    ensures matches { (ts : List IndexToken) (doc : ℕ) → matches result ts doc ≡ list_any (λ q. matches q ts doc) queries.items }
    ensures fields { (n : ℕ) → has_fields n result ≡ list_all (has_fields n) queries.items }
    ensures positions { (entries : List SchemaEntry) → keeps_positions entries result ≡ list_all (keeps_positions entries) queries.items }
    ensures covers { (n : ℕ) → covers_docs n result ≡ list_all (covers_docs n) queries.items }
{
    if queries.len() != 1 {
        return Query::or_any(queries);
    }
    match queries.pop() {
        Some(query) => query,
        None => Query::Empty,
    }
}

// The query of a term, a phrase or a prefix.
#[tactic(auto, using(crate::proofs::SlopLemmas::words_within_zero))]
fn delimited_query(words: PhraseWords, delimiter: Delimiter) -> Query
    requires alone { delimiter ≡ Delimiter.Star → is_alone words ≡ true }
    ensures matches { (ts : List IndexToken) (doc : ℕ) → matches result ts doc ≡ has_delimited delimiter ts doc words }
    ensures fields { (n : ℕ) → has_fields n result ≡ phrase_within n words }
    ensures positions { (entries : List SchemaEntry) → keeps_positions entries result ≡ phrase_kept entries words }
    ensures covers { (n : ℕ) → covers_docs n result ≡ true }
{
    match delimiter {
        Delimiter::Star => prefix_query(words),
        Delimiter::None => words_query(words, 0),
        Delimiter::DoubleQuotes => words_query(words, 0),
        Delimiter::Slop(slop) => words_query(words, slop),
        Delimiter::Prefix => starred_query(words),
    }
}

// The query of a prefix.
#[tactic(auto, using(crate::proofs::WordsQueryLemmas::alone_within, crate::proofs::WordsQueryLemmas::alone_kept))]
fn prefix_query(words: PhraseWords) -> Query
    requires alone { is_alone words ≡ true }
    ensures matches { (ts : List IndexToken) (doc : ℕ) → matches result ts doc ≡ list_any (is_token_under words.first doc) ts }
    ensures fields { (n : ℕ) → has_fields n result ≡ phrase_within n words }
    ensures positions { (entries : List SchemaEntry) → keeps_positions entries result ≡ phrase_kept entries words }
    ensures covers { (n : ℕ) → covers_docs n result ≡ true }
{
    let (first, others) = words.into_terms();
    drop(others);
    Query::prefix(first)
}

// The query of a prefix, or of a phrase whose last term is one.
fn starred_query(words: PhraseWords) -> Query
    ensures matches { (ts : List IndexToken) (doc : ℕ) → matches result ts doc ≡ has_starred ts doc words.first words.others }
    ensures fields { (n : ℕ) → has_fields n result ≡ phrase_within n words }
    ensures positions { (entries : List SchemaEntry) → keeps_positions entries result ≡ phrase_kept entries words }
    ensures covers { (n : ℕ) → covers_docs n result ≡ true }
{
    let (first, mut others) = words.into_terms();
    let Some(last) = others.pop() else {
        return Query::prefix(first);
    };
    let PhraseTerm { distance, term } = last;
    Query::phrase_prefix(PhrasePrefix {
        first,
        others,
        distance,
        last: TermRange::with_prefix(term),
    })
}

// The query of a term, or of a phrase within a slop.
fn words_query(words: PhraseWords, slop: u32) -> Query
    ensures matches { (ts : List IndexToken) (doc : ℕ) → matches result ts doc ≡ has_words_within slop ts doc words.first words.others }
    ensures fields { (n : ℕ) → has_fields n result ≡ phrase_within n words }
    ensures positions { (entries : List SchemaEntry) → keeps_positions entries result ≡ phrase_kept entries words }
    ensures covers { (n : ℕ) → covers_docs n result ≡ true }
{
    let (first, others) = words.into_terms();
    if others.is_empty() {
        return Query::Term(first);
    }
    Query::Phrase(first, others, slop)
}
