//! An index in memory: from index calls to files, and from files to cursors over the
//! postings of a term. Each item is exported here once; the crates below say how it is kept.
#![tactic(auto)]

pub mod bounds;
pub mod ram;

// fields, and the values that are indexed
pub use ii_base::{
    DateTime, Field, FieldEntry, IndexRecordOption, JsonValue, Schema, SchemaFields, Term,
    ValueType,
};
pub use ii_indexing::IndexCall;

// how texts become tokens
pub use ii_base::{
    AsciiTokenizer, AsciiTokens, TextAnalyzer, TextTokens, Token, TokenList, TokenStream, TokenView,
};

// how an index is written and opened
pub use crate::ram::{index_in_ram, open_in_ram};
pub use ii_base::{CountingWriter, HasLen};
pub use ii_indexing::{IndexWriters, Indexer, write_index};
pub use ii_reader::{
    DamagedTerm, InvertedIndexFieldSpace, InvertedIndexReader, OpenIndex, open_index,
    open_index_with_norms,
};

// cursors over documents and postings
pub use ii_base::AliveBitSet;
pub use ii_docset::{
    COLLECT_BLOCK_BUFFER_LEN, CursorAnswer, CursorCall, DocId, DocSet, Lent, Postings,
    SeekDangerResult, SeekOnce, TERMINATED, Walk, intersect, walk,
};
pub use ii_query::{
    AllDocs, Exclude, Intersection, PhraseMatch, PhrasePart, SloppyPhraseMatch, Union, count_starts,
};
pub use ii_reader::{BlockSegmentPostings, FreqReadingOption, LoadedPostings, SegmentPostings};

// how an index is searched
pub use ii_query_parser::{
    Delimiter, Expected, Feature, KeyBound, MAX_NESTING, MAX_SET_VALUES, ParseError, PhrasePrefix,
    PhraseTerm, Query, QueryParserError, TermRange, UserInputAst, UserInputBound, UserInputLiteral,
    UserInputRange, UserInputSet, can_name, parse, parse_query, query_of, spell_name,
    unknown_field_name,
};
pub use ii_search::{QueryCursor, TermOrPhrase, count, search, top_by_count};

// the norms of documents
pub use ii_fieldnorm::{FieldNormReader, FieldNormReaders, fieldnorm_to_id, id_to_fieldnorm};

// errors
pub use ii_base::{Fault, LayoutFault, LeafKind, LimitName, Part};
