// What query texts find.
ghost use Rattle.std.specs.Prelude.{◌≡◌, ◌<◌, ◌≤◌, ◌⊎◌, ℕ, List, length, map, true, IfErr, IfOk, Some};
ghost use Rattle.ii_base.specs.Schema.{SchemaEntry};
ghost use Rattle.ii_docset.specs.Cursor.{IsAscending};
ghost use Rattle.ii_docset.specs.Intersection.{has_doc};
ghost use Rattle.ii_definitions.specs.Tokens.{IndexToken};
ghost use Rattle.ii_reader.specs.OpenIndex.{IndexHolds};
ghost use Rattle.ii_query_grammar.specs.Parsed.{IsReadAs, parsed};
ghost use Rattle.ii_query_grammar.specs.Spelling.{has_spelling, nesting};
ghost use Rattle.ii_query_grammar.specs.Trees.{ast_of};
ghost use Rattle.ii_query_parser.specs.Queries.{any_of, each_of, has_fields, keeps_positions, matches, no_tree, tree, tree_of};
ghost use Rattle.ii_query_parser.specs.QueryTexts.{text_matches, text_matches_by, text_refusal, text_refusal_by};
ghost use Rattle.ii_tokenizers.specs.Tokenizers.{analyzed_in, prefix_tokenizer, tokenized};
ghost use Rattle.ii_promises.specs.Texts.{GivesOrTells};

use ii_query_grammar::laws::reads_what_is_spelled;
use ii_query_parser::parse_query_by;
use ii_ram::{
    DocId, Fault, Field, OpenIndex, ParseError, Query, QueryCursor, QueryParserError, Schema,
    SegmentPostings, TermOrPhrase, TextAnalyzer, UserInputAst, parse, search,
};
use ii_tokenizers::{FieldAnalyzers, FieldTokenizer, FieldTokenizers, OneAnalyzer};
use std::alloc::Global;

/// A query that is bounded by the number of documents matches each of them or not as it did.
pub fn bounded_queries_match_the_same(query: Query, num_docs: DocId) -> Query
    ensures { (tokens : List IndexToken) (doc : ℕ) → doc < num_docs → matches result tokens doc ≡ matches query tokens doc }
{
    let mut query = query;
    query.bound(num_docs);
    query
}

/// In an index that holds tokens of a schema, a text finds exactly the documents that it matches, in
/// ascending order. It fails only with `OutOfMemory`, or because of an error in the text.
pub fn texts_find_what_matches<A: TextAnalyzer>(
    alloc: Global,
    index: &OpenIndex,
    schema: &Schema,
    default_fields: &[Field],
    analyzer: &A,
    text: &str,
) -> Result<QueryCursor<TermOrPhrase<SegmentPostings>>, QueryParserError>
    requires many { length index.now.readers ≡ length schema.now }
    ensures ascending { IfOk result (λ cursor. IsAscending cursor.rest) }
    ensures found { (num_docs : ℕ) (tokens : List IndexToken) → IndexHolds schema.now num_docs index.now tokens
        → IfOk result (λ cursor. (doc : ℕ) → has_doc cursor.rest doc
        ≡ text_matches (record { texts = record { analyze = A.words analyzer.now; entries = schema.now }; defaults = default_fields.now }) text.now tokens doc) }
    ensures refused { (num_docs : ℕ) (tokens : List IndexToken) → IndexHolds schema.now num_docs index.now tokens
        → IfErr result (λ e. (e ≡ QueryParserError.Fault Fault.OutOfMemory)
        ⊎ (text_refusal (record { texts = record { analyze = A.words analyzer.now; entries = schema.now }; defaults = default_fields.now }) text.now ≡ Some e)) }
{
    let analyzers = OneAnalyzer(analyzer);
    texts_find_by_their_analyzers(alloc, index, schema, default_fields, &analyzers, text)
}

/// So it does where each field has an analyzer of its own: the text is compared with the tokens of a field as that
/// field's analyzer cuts it, a prefix or the bound of a range as its analyzer of these does.
#[tactic(auto, using(crate::proofs::SearchingLaws::found_ascend, crate::proofs::SearchingLaws::same_fields))]
pub fn texts_find_by_their_analyzers<F: FieldAnalyzers>(
    alloc: Global,
    index: &OpenIndex,
    schema: &Schema,
    default_fields: &[Field],
    analyzers: &F,
    text: &str,
) -> Result<QueryCursor<TermOrPhrase<SegmentPostings>>, QueryParserError>
    requires many { length index.now.readers ≡ length schema.now }
    ensures ascending { IfOk result (λ cursor. IsAscending cursor.rest) }
    ensures found { (num_docs : ℕ) (tokens : List IndexToken) → IndexHolds schema.now num_docs index.now tokens
        → IfOk result (λ cursor. (doc : ℕ) → has_doc cursor.rest doc
        ≡ text_matches_by (record { texts = record { analyze = F.words analyzers.now; entries = schema.now }; prefixes = F.prefix_words analyzers.now; defaults = default_fields.now }) text.now tokens doc) }
    ensures refused { (num_docs : ℕ) (tokens : List IndexToken) → IndexHolds schema.now num_docs index.now tokens
        → IfErr result (λ e. (e ≡ QueryParserError.Fault Fault.OutOfMemory)
        ⊎ (text_refusal_by (record { texts = record { analyze = F.words analyzers.now; entries = schema.now }; prefixes = F.prefix_words analyzers.now; defaults = default_fields.now }) text.now ≡ Some e)) }
{
    match parse_query_by(alloc, schema, default_fields, analyzers, text) {
        Ok(query) => searched(alloc, index, &query),
        Err(error) => Err(error),
    }
}

/// So it does by each of the tokenizers `ascii`, `raw`, `whitespace`, `default` and `en`, with any stop words, whose
/// words are `tokenized`.
pub fn texts_find_by_each_tokenizer(
    alloc: Global,
    index: &OpenIndex,
    schema: &Schema,
    default_fields: &[Field],
    tokenizer: &FieldTokenizer,
    text: &str,
) -> Result<QueryCursor<TermOrPhrase<SegmentPostings>>, QueryParserError>
    requires many { length index.now.readers ≡ length schema.now }
    ensures found { (num_docs : ℕ) (tokens : List IndexToken) → IndexHolds schema.now num_docs index.now tokens
        → IfOk result (λ cursor. (doc : ℕ) → has_doc cursor.rest doc
        ≡ text_matches (record { texts = record { analyze = tokenized tokenizer.now; entries = schema.now }; defaults = default_fields.now }) text.now tokens doc) }
{
    texts_find_what_matches(alloc, index, schema, default_fields, tokenizer, text)
}

/// So it does where a schema names a tokenizer for each field.
pub fn texts_find_by_their_tokenizers(
    alloc: Global,
    index: &OpenIndex,
    schema: &Schema,
    default_fields: &[Field],
    tokenizers: &FieldTokenizers,
    text: &str,
) -> Result<QueryCursor<TermOrPhrase<SegmentPostings>>, QueryParserError>
    requires many { length index.now.readers ≡ length schema.now }
    ensures found { (num_docs : ℕ) (tokens : List IndexToken) → IndexHolds schema.now num_docs index.now tokens
        → IfOk result (λ cursor. (doc : ℕ) → has_doc cursor.rest doc
        ≡ text_matches_by (record { texts = record { analyze = analyzed_in tokenizers.now; entries = schema.now }; prefixes = analyzed_in (map prefix_tokenizer tokenizers.now); defaults = default_fields.now }) text.now tokens doc) }
{
    texts_find_by_their_analyzers(alloc, index, schema, default_fields, tokenizers, text)
}

// Searches for a query.
fn searched(
    alloc: Global,
    index: &OpenIndex,
    query: &Query,
) -> Result<QueryCursor<TermOrPhrase<SegmentPostings>>, QueryParserError>
    requires { has_fields (length index.now.readers) query.now ≡ true }
    ensures ascending { IfOk result (λ cursor. IsAscending cursor.rest) }
    ensures gives { (schema : List SchemaEntry) (num_docs : ℕ) (tokens : List IndexToken) → IndexHolds schema num_docs index.now tokens
        → has_fields (length schema) query.now ≡ true → keeps_positions schema query.now ≡ true → GivesOrTells query.now tokens result }
{
    match search(alloc, index, query) {
        Ok(cursor) => Ok(cursor),
        Err(fault) => Err(QueryParserError::Fault(fault)),
    }
}

/// At most 128 parentheses of a text may be open.
pub fn texts_open_128_parentheses(alloc: Global, text: &str) -> Result<UserInputAst, ParseError>
    ensures { IsReadAs result (parsed 128 text.now) }
{
    parse(alloc, text)
}

/// A query that joins two by AND has them in their order, as `search --positions` prints their terms.
pub fn and_keeps_the_order(alloc: Global, first: Query, other: Query) -> Result<Query, Fault>
    ensures order { IfOk result (λ query. tree_of query ≡ each_of (tree (tree_of first) (tree (tree_of other) no_tree))) }
    ensures memory { IfErr result (λ fault. fault ≡ Fault.OutOfMemory) }
{
    Query::and(alloc, first, other)
}

/// So has one that joins them by OR.
pub fn or_keeps_the_order(alloc: Global, first: Query, other: Query) -> Result<Query, Fault>
    ensures order { IfOk result (λ query. tree_of query ≡ any_of (tree (tree_of first) (tree (tree_of other) no_tree))) }
    ensures memory { IfErr result (λ fault. fault ≡ Fault.OutOfMemory) }
{
    Query::or(alloc, first, other)
}

/// A tree that can be written, with at most 128 open parentheses, is parsed back from its text. This fails only
/// with `OutOfMemory`.
#[tactic(auto, using(crate::proofs::TextLaws::spelled_only_memory))]
pub fn spelled_trees_are_parsed_back(
    alloc: Global,
    written: &UserInputAst,
) -> Result<UserInputAst, ParseError>
    requires spelled { has_spelling (ast_of written.now) ≡ true }
    requires nested { nesting (ast_of written.now) ≤ 128 }
    ensures read { IfOk result (λ read. ast_of read ≡ ast_of written.now) }
    ensures only { IfErr result (λ e. e ≡ ParseError.OutOfMemory) }
{
    reads_what_is_spelled();
    let text = written.spell(alloc)?;
    parse(alloc, &text)
}
