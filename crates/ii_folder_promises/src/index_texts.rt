// What the text of a query finds in an index in a directory.
ghost use Rattle.std.specs.Prelude.{◌≡◌, ℕ, IfSome, List, filter, length, map, min, true};
ghost use Rattle.std.specs.List.{All, range_with_len};
ghost use Rattle.ii_definitions.specs.Tokens.{IndexToken};
ghost use Rattle.ii_index.specs.Segments.{HoldsIndexOf};
ghost use Rattle.ii_query_parser.specs.QueryTexts.{AnalyzedFields, text_matches_by};
ghost use Rattle.ii_tokenizers.specs.Tokenizers.{analyzed_in, prefix_tokenizer};

use crate::index_ranking::best_of;
use ii_index::{Directory, DocId, Field, Index, Score};
use std::alloc::Global;

/// Whatever the text of a query says, the best documents for it match this text by the tokens of the index alone, each
/// text of which is cut by the tokenizer of its field; and as many are returned as match, but at most `limit`. Nothing
/// is asked of the text.
pub fn the_best_documents_match_the_text<D: Directory + Drop>(
    alloc: Global,
    index: &Index<D>,
    default_fields: &[Field],
    text: &str,
    limit: usize,
) -> Option<Vec<(Score, DocId)>>
    requires known { D.is_known index.now.directory }
    ensures many { (n : ℕ) (ts : List IndexToken) → HoldsIndexOf index.now.schema.schema (D.seen index.now.directory) n ts
        → let q : AnalyzedFields = record { texts = record { analyze = analyzed_in index.now.schema.tokenizers; entries = index.now.schema.schema }; prefixes = analyzed_in (map prefix_tokenizer index.now.schema.tokenizers); defaults = default_fields.now } in
        IfSome result (λ best. length best.items ≡ min limit (length (filter (text_matches_by q text.now ts) (range_with_len 0 n)))) }
    ensures matching { (n : ℕ) (ts : List IndexToken) → HoldsIndexOf index.now.schema.schema (D.seen index.now.directory) n ts
        → let q : AnalyzedFields = record { texts = record { analyze = analyzed_in index.now.schema.tokenizers; entries = index.now.schema.schema }; prefixes = analyzed_in (map prefix_tokenizer index.now.schema.tokenizers); defaults = default_fields.now } in
        IfSome result (λ best. All (λ (b : ℕ × ℕ). text_matches_by q text.now ts b.1 ≡ true) best.items) }
{
    let Ok(query) = index.parse_query(alloc, default_fields, text) else {
        return None;
    };
    let Ok(reader) = index.reader(alloc) else {
        return None;
    };
    best_of(alloc, &reader, &query, limit)
}
