//! Nequllpa, a search library. `Index` is an index of JSON documents in a folder or in memory. Below it, each by a
//! call: from index calls to files, and from files to cursors over the postings of a term. Each item is exported here
//! once, under tantivy's name; the crates below say how it is kept.
#![tactic(auto)]

// an index of JSON documents, in a folder or in memory
pub use ii_index::{
    Directory, DirectoryFault, Folder, Index, IndexError, IndexReader, IndexWriter, Locked,
    LockedFolder, MemoryDirectory, PreparedSearch, SCORE_ONE, Score, Searcher, Share, TopDocs,
    WritableDirectory, push_part, push_score, push_weight,
};

// fields, and the values that are indexed
pub use ii_ram::{
    DateTime, Field, FieldEntry, IndexCall, IndexRecordOption, JsonValue, Schema, SchemaFields,
    Term, ValueType,
};

// how texts become tokens
pub use ii_ram::{
    AsciiTokenizer, AsciiTokens, TextAnalyzer, TextTokens, Token, TokenList, TokenStream, TokenView,
};

// how index calls become files, and how these are opened
pub use ii_ram::{
    CountingWriter, DamagedTerm, HasLen, IndexWriters, Indexer, InvertedIndexFieldSpace,
    InvertedIndexReader, OpenIndex, index_in_ram, open_in_ram, open_index, open_index_with_norms,
    write_index,
};

// cursors over documents and postings
pub use ii_ram::{
    AliveBitSet, AllDocs, BlockSegmentPostings, COLLECT_BLOCK_BUFFER_LEN, CursorAnswer, CursorCall,
    DocId, DocSet, Exclude, FreqReadingOption, Intersection, Lent, LoadedPostings, PhraseMatch,
    PhrasePart, Postings, SeekDangerResult, SeekOnce, SegmentPostings, SloppyPhraseMatch,
    TERMINATED, Union, Walk, count_starts, intersect, walk,
};

// how an index is searched
pub use ii_ram::{
    Delimiter, Expected, Feature, KeyBound, MAX_NESTING, MAX_SET_VALUES, ParseError, PhrasePrefix,
    PhraseTerm, Query, QueryCursor, QueryParserError, TermOrPhrase, TermRange, UserInputAst,
    UserInputBound, UserInputLiteral, UserInputRange, UserInputSet, can_name, count, parse,
    parse_query, query_of, search, spell_name, top_by_count, unknown_field_name,
};

// the norms of documents
pub use ii_ram::{FieldNormReader, FieldNormReaders, fieldnorm_to_id, id_to_fieldnorm};

// errors
pub use ii_ram::{Fault, LayoutFault, LeafKind, LimitName, Part};
