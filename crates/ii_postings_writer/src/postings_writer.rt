ghost use Rattle.std.specs.Prelude.{◌≡◌, ◌≤◌, ◌<◌, ◌+◌, ◌++◌, ◌∷◌, ◌^◌, [], ℕ, List, Bool, length, max, map, nat_le, nat_lt, if◌then◌else◌, true, false, Err, Ok, Option, Some, None, IfErr, IfOk, OnErr, OnOk, IfSome, ◌⊎◌, IsTrue, slice_index_or};
ghost use Rattle.std.specs.List.{AllByRecursion};
ghost use Rattle.ii_io.specs.declared.faults.LimitName.TheVariants as limit;
ghost use Rattle.ii_base.specs.Words.{Word, seen_word};
ghost use Rattle.ii_base.specs.declared.doc_id.TheConstants.{TERMINATED};
ghost use Rattle.ii_fieldnorm.specs.Readers.{Norms};
ghost use Rattle.ii_termdict.specs.ReadBack.{AreAscending};
ghost use Rattle.ii_recorder.specs.IndexBodies.{AllGrow, IndexBodiesState, LacksField};
ghost use Rattle.ii_recorder.specs.IndexSerializer.{EndsInMemory, EndsWriting, IsInField, IsWriting};
ghost use Rattle.ii_recorder.specs.Recorded.{u32_max};
ghost use Rattle.ii_recorder.specs.Terms.{WrittenTerm};
ghost use Rattle.ii_definitions.specs.Fields.{option_of};
ghost use Rattle.ii_definitions.specs.Tokens.{IndexToken, end_after, kept_words, piece_tokens_from};
ghost use Rattle.ii_postings_writer.specs.IndexingContext.{AllEndBy, IsRecorded, EndsBy, new_recorder, opened_at, record_fault, recorded_at, recorder_or_new};
ghost use Rattle.ii_postings_writer.specs.IndexingTerm.{term_bytes, AreTermBytes};
ghost use Rattle.ii_postings_writer.specs.PostingsWriter.{HasTokens, IndexesWords, PostingsWriterState, RefusesWords, TextState, subscribe_fault, term_token, text_fault, text_piece, text_state, tokens_counted};
ghost use Rattle.ii_postings_writer.specs.Records.{Records};
ghost use Rattle.ii_postings_writer.specs.SortedTerms.{IsTold, IsWritable, state_of, written_term, norms_in};
ghost use Rattle.ii_postings_writer.specs.TermSteps.{IsBegunTerm};
ghost use Rattle.ii_postings_writer.specs.WordRefusals.{gap_fault, u64_max, words_fault};
ghost use Rattle.ii_postings_writer.specs.WriteFaults.{IsTermsFaultAfter, IsTermFaultAfter, ClosesOrStays, EndsParts, IsContextFault, IsPartFault, IsPartsFault};
ghost use Rattle.ii_json.specs.LeafVisit.{IsRefusedBy, first_fault};
ghost use Rattle.ii_io.specs.Faults.{OnlyMemory};
ghost use Rattle.ii_recorder.specs.AnyRecorder.{any_state};
ghost use Rattle.ii_postings_writer.specs.FieldParts.{AreShortNorms, FieldPart, HasFields, WroteContext, first_parts, parts_of, tokens_in};
ghost use Rattle.ii_definitions.specs.JsonKeys.{is_json};
ghost use Rattle.ii_io.specs.Composite.{Body};
ghost use Rattle.ii_postings_writer.specs.HeldBodies.{HaveTokens, WroteTokens};
ghost use Rattle.ii_postings_writer.specs.ResolvedTerms.{AreFieldTerms, HaveHeldTokens, HaveUnlessMemory, MayWriteTerms, json_fields, resolved_terms};

use crate::indexing_context::IndexingContext;
use crate::indexing_position::IndexingPosition;
use crate::indexing_term::IndexingTerm;
use crate::json_postings_writer::JsonPostingsWriter;
use crate::per_field_postings_writer::PerFieldPostingsWriter;
use crate::sorted_terms::{FieldTerms, TermOfField, behind_id};
use crate::term_key::{TermBytes, TermKey};
use ii_base::{
    DocId, Fault, Field, FieldEntry, IndexRecordOption, LimitName, Schema, TokenStream, TokenView,
    ValueType,
};
use ii_fieldnorm::FieldNormReaders;
use ii_json::JsonTermSerializer;
use ii_recorder::held_terms::{bounds_its_tokens, holds_its_tokens};
use ii_recorder::{AnyRecorder, BufferLender, FieldSerializer, InvertedIndexSerializer, Recorder};
use indexmap::IndexMap;
use std::alloc::Global;
use std::io::Write;
use std::marker::Model;

// The number of positions between two texts of a field.
const POSITION_GAP: u32 = 1;

/// The maximum length of a token in bytes. Longer tokens are skipped.
pub const MAX_TOKEN_LEN: usize = 65530;

/// Records the terms of documents in an indexing context, and counts the tokens.
///
/// Its model is what it keeps of a text's terms and of a value's, and the number of tokens.
pub trait PostingsWriter: Drop {
    ghost state: { Self → PostingsWriterState };

    /// Records a position of a value's term in a document. `doc` must not be less than the documents
    /// recorded in the context before.
    ///
    /// Returns `Limit(Tokens)` for more than `u64::MAX` tokens, then any fault of the term's
    /// recorder. Returns `OutOfMemory` if an allocation fails. After a fault the token isn't counted,
    /// and the terms of the context are unspecified.
    fn subscribe(
        &mut self,
        doc: DocId,
        pos: u32,
        term: &IndexingTerm,
        ctx: &mut IndexingContext,
    ) -> Result<(), Fault>
        requires low { doc < TERMINATED }
        requires ends { AllEndBy doc ctx.old.term_index }
        ensures recorded { OnOk result (IsRecorded (state self.old).value_option doc pos (term_bytes term.now) ctx.old.term_index ctx.new.term_index) }
        ensures ends { OnOk result (AllEndBy doc ctx.new.term_index) }
        ensures tokens { OnOk result ((kind : ℕ → List ℕ → IndexRecordOption) (ts : List IndexToken) (of_text : Bool)
            → kind term.now.field term.now.value ≡ (state self.old).value_option → Records kind ctx.old.term_index ts → Records kind ctx.new.term_index (ts ++ term_token doc pos of_text term.now ∷ [])) }
        ensures counted { OnOk result (state self.new ≡ tokens_counted 1 (state self.old)) }
        ensures uncounted { OnErr result (state self.new ≡ state self.old) }
        ensures paths { ctx.new.path_to_unordered_id ≡ ctx.old.path_to_unordered_id }
        ensures refused { IsRefusedBy (subscribe_fault (state self.old).value_option (state self.old).total_num_tokens doc pos (term_bytes term.now) ctx.old.term_index) result };

    /// Indexes the remaining tokens of a text. A token's term is the buffer's value followed by the
    /// token's bytes. `doc_id` must not be less than the documents recorded in the context before.
    ///
    /// Positions continue after the earlier texts in `indexing_position`, which then includes this
    /// text and a gap of 1 after it. Tokens of more than `MAX_TOKEN_LEN` bytes are skipped.
    ///
    /// # Errors
    ///
    /// Returns the first fault, token by token: `Limit(Position)` if the token starts or ends above
    /// `u32::MAX`; `Limit(Tokens)` for more than `u32::MAX` tokens of these texts, or more than
    /// `u64::MAX` of the writer; then any fault of the term's recorder. After the last token,
    /// `Limit(Position)` if the gap ends above `u32::MAX`. `OutOfMemory` if an allocation fails.
    /// After a fault the terms of the context are unspecified.
    fn index_text<S: TokenStream>(
        &mut self,
        doc_id: DocId,
        token_stream: &mut S,
        term_buffer: &mut IndexingTerm,
        ctx: &mut IndexingContext,
        indexing_position: &mut IndexingPosition,
    ) -> Result<(), Fault>
        requires low { doc_id < TERMINATED }
        requires ends { AllEndBy doc_id ctx.old.term_index }
        ensures tokens { OnOk result ((kind : ℕ → List ℕ → IndexRecordOption) (ts : List IndexToken)
            → let p = text_piece doc_id term_buffer.old (S.to_come token_stream.old) in HasTokens kind p ctx.old.term_index (state self.old) ts
            → HasTokens kind p ctx.new.term_index (state self.new) (ts ++ piece_tokens_from true indexing_position.old.end_position p)) }
        ensures ends { OnOk result (AllEndBy doc_id ctx.new.term_index) }
        ensures counted { OnOk result (state self.new ≡ tokens_counted (length (kept_words (S.to_come token_stream.old))) (state self.old)) }
        ensures num_tokens { OnOk result (indexing_position.new.num_tokens ≡ indexing_position.old.num_tokens + length (kept_words (S.to_come token_stream.old))) }
        ensures end_position { OnOk result (indexing_position.new.end_position ≡ end_after indexing_position.old.end_position (S.to_come token_stream.old)) }

        // What is unchanged, and the errors.
        ensures same_term { OnOk result (term_buffer.new ≡ term_buffer.old) }
        ensures ended { OnOk result (S.to_come token_stream.new ≡ []) }
        ensures paths { ctx.new.path_to_unordered_id ≡ ctx.old.path_to_unordered_id }
        ensures refused { (kind : ℕ → List ℕ → IndexRecordOption) (ts : List IndexToken)
            → let p = text_piece doc_id term_buffer.old (S.to_come token_stream.old) in HasTokens kind p ctx.old.term_index (state self.old) ts
            → IsRefusedBy (text_fault (state self.old).option p indexing_position.old ts) result };

    /// Writes terms of this writer's field, in the order of their keys. `serializer` must have started
    /// the field, with no term open. `keys` and `buffer_lender` are buffers.
    ///
    /// The keys must ascend, and be greater than those that were written before. Each term's documents
    /// must ascend, its term frequencies must not be 0, and the field's norms, if it has some, must
    /// cover the documents.
    ///
    /// # Errors
    ///
    /// - `Write` if a writer fails.
    /// - `Limit(Offset)` if a writer would count more than `u64::MAX` bytes, or the terms of the field
    ///   reach 2^56 bytes in total.
    /// - `Limit(TermBytes)` if the postings or the positions of a term exceed `u32::MAX` bytes.
    /// - `Limit(BlockFrequencySum)` if term frequencies in a block sum up above `u32::MAX`, for a term
    ///   with positions.
    /// - `OutOfMemory` if an allocation fails.
    ///
    /// A fault closes the serializer.
    fn serialize<W: Write>(
        &self,
        terms: &[TermOfField<'_>],
        keys: &mut JsonTermSerializer,
        buffer_lender: &mut BufferLender,
        serializer: &mut FieldSerializer<'_, W>,
    ) -> Result<(), Fault>
        requires open { serializer.old.index.now.closed ≡ false }
        requires field { IsInField serializer.old.index.now }
        requires between { serializer.old.index.now.field.term_open ≡ false }
        requires ascending { AreAscending (serializer.old.index.now.field.places.keys ++ map (λ t. (state_of t).key) terms.now) }
        requires writable { AllByRecursion (IsWritable serializer.old.index.now.field.term.norms) (map state_of terms.now) }
        ensures same_reference { serializer.new.index.ghost_name ≡ serializer.old.index.ghost_name }
        ensures writing { (initial : IndexBodiesState) (field tokens : ℕ) (norms : Option Norms) (ts : List WrittenTerm) → IsWriting initial serializer.old.index.now field tokens norms ts []
            → OnOk result (IsWriting initial serializer.new.index.now field tokens norms (ts ++ map (written_term norms (option_of serializer.old.index.now.entries field)) (map state_of terms.now)) []) }
        ensures told { OnOk result (AllByRecursion (IsTold serializer.old.index.now.field.term.mode) (map state_of terms.now)) }
        ensures between { OnOk result (serializer.new.index.now.field.term_open ≡ false) }

        // The state afterwards, and the errors.
        ensures ends { EndsWriting serializer.old.index.now serializer.new.index.now result }
        ensures grow { AllGrow serializer.old.index.now.bodies serializer.new.index.now.bodies }
        ensures fault { (initial : IndexBodiesState) (field tokens : ℕ) (norms : Option Norms) (ts : List WrittenTerm) → IsWriting initial serializer.old.index.now field tokens norms ts []
            → IfErr result (IsTermsFaultAfter initial (option_of serializer.old.index.now.entries field) tokens ts
            (map (written_term norms (option_of serializer.old.index.now.entries field)) (map state_of terms.now))) }
    {
        for place in 0..terms.len() {
            let term = terms[place];
            begin_term(term, keys, serializer)?;
            term.recorder.serialize(buffer_lender, serializer)?;
            serializer.close_term()?;
        }
        Ok(())
    }

    /// Returns the number of tokens.
    fn total_num_tokens(&self) -> u64
        ensures { result ≡ (state self.now).total_num_tokens };
}

/// A writer that keeps what one option says of each term.
#[derive(Drop)]
pub struct SpecializedPostingsWriter {
    option: IndexRecordOption,
    total_num_tokens: u64,
}

impl Model for SpecializedPostingsWriter {
    ghost use Rattle.ii_postings_writer.specs.PostingsWriter.{PostingsWriterState};

    ghost Value = { PostingsWriterState };

    ghost view = { λ w. record { option = w.option; value_option = w.option; total_num_tokens = w.total_num_tokens } };
}

impl SpecializedPostingsWriter {
    /// Creates a writer without tokens that keeps what `option` says of each term.
    pub fn new(option: IndexRecordOption) -> SpecializedPostingsWriter
        ensures { result ≡ record { option = option; value_option = option; total_num_tokens = 0 } }
    {
        SpecializedPostingsWriter {
            option,
            total_num_tokens: 0,
        }
    }

    // Records a position of a term under `option`.
    #[tactic(auto, using(crate::proofs::TermLemmas::long_term))]
    pub(crate) fn record(
        &mut self,
        option: IndexRecordOption,
        doc: DocId,
        pos: u32,
        term: &IndexingTerm,
        terms: &mut TermRecorders,
    ) -> Result<(), Fault>
        requires low { doc < TERMINATED }
        requires ends { AllEndBy doc terms.old }
        ensures recorded { OnOk result (IsRecorded option doc pos (term_bytes term.now) terms.old terms.new) }
        ensures ends { OnOk result (AllEndBy doc terms.new) }
        ensures counted { OnOk result (self.new ≡ tokens_counted 1 self.old) }
        ensures uncounted { OnErr result (self.new ≡ self.old) }
        ensures refused { IsRefusedBy (subscribe_fault option self.old.total_num_tokens doc pos (term_bytes term.now) terms.old) result }
    {
        let total_num_tokens = one_more_in_all(self.total_num_tokens)?;
        terms.record(option, term.serialized_term(), doc, pos)?;
        self.total_num_tokens = total_num_tokens;
        Ok(())
    }

    // Indexes a word, whose bytes follow the term's, unless it is too long.
    fn index_word(
        &mut self,
        doc: DocId,
        token: &TokenView<'_>,
        begin: u32,
        term: &mut IndexingTerm,
        terms: &mut TermRecorders,
        at: &mut IndexingPosition,
    ) -> Result<(), Fault>
        requires low { doc < TERMINATED }
        requires ends { AllEndBy doc terms.old }
        ensures indexed { OnOk result ((words : List Word) → IndexesWords (text_piece doc term.old words) begin (kept_words (seen_word token.now ∷ [])) (text_state terms.old self.old at.old) (text_state terms.new self.new at.new)) }
        ensures same_term { OnOk result (term.new ≡ term.old) }
        ensures refused { IfErr result (λ e. (words : List Word) → RefusesWords (text_piece doc term.old words) begin (kept_words (seen_word token.now ∷ [])) (text_state terms.old self.old at.old) e) }
    {
        // Shows the proof that the field fits in 32 bits.
        let _field = term.field().field_id();
        if token.text.len() > MAX_TOKEN_LEN {
            return Ok(());
        }
        let (position, end) = token_place(begin, token.position, token.position_length)?;
        let num_tokens = one_more(at.num_tokens)?;
        let total_num_tokens = one_more_in_all(self.total_num_tokens)?;
        let len = term.len_bytes();
        term.add_bytes(token.text.as_bytes())?;
        terms.record(self.option, term.serialized_term(), doc, position)?;
        term.truncate_value_bytes(len);
        self.total_num_tokens = total_num_tokens;
        at.num_tokens = num_tokens;
        at.end_position = at.end_position.max(end);
        Ok(())
    }
}

impl PostingsWriter for SpecializedPostingsWriter {
    ghost state = { λ w. w };

    fn subscribe(
        &mut self,
        doc: DocId,
        pos: u32,
        term: &IndexingTerm,
        ctx: &mut IndexingContext,
    ) -> Result<(), Fault> {
        // Shows the proof that the field fits in 32 bits.
        let _field = term.field().field_id();
        self.record(self.option, doc, pos, term, &mut ctx.term_index)
    }

    fn index_text<S: TokenStream>(
        &mut self,
        doc_id: DocId,
        token_stream: &mut S,
        term_buffer: &mut IndexingTerm,
        ctx: &mut IndexingContext,
        indexing_position: &mut IndexingPosition,
    ) -> Result<(), Fault> {
        let begin = indexing_position.end_position;
        while token_stream.advance() {
            let token = token_stream.token();
            self.index_word(
                doc_id,
                &token,
                begin,
                term_buffer,
                &mut ctx.term_index,
                indexing_position,
            )?;
        }
        indexing_position.end_position = next_text(indexing_position.end_position)?;
        Ok(())
    }

    fn total_num_tokens(&self) -> u64 {
        self.total_num_tokens
    }
}

// Starts a term of the field. If it has a path, its key is composed in a buffer.
fn begin_term<W: Write>(
    term: TermOfField<'_>,
    keys: &mut JsonTermSerializer,
    serializer: &mut FieldSerializer<'_, W>,
) -> Result<(), Fault>
    requires open { serializer.old.index.now.closed ≡ false }
    requires between { serializer.old.index.now.field.term_open ≡ false }
    requires ascending { AreAscending (serializer.old.index.now.field.places.keys ++ (state_of term).key ∷ []) }
    ensures same_reference { serializer.new.index.ghost_name ≡ serializer.old.index.ghost_name }
    ensures begun { OnOk result (IsBegunTerm serializer.old.index.now serializer.new.index.now (state_of term.entry)) }
    ensures ends { EndsInMemory serializer.old.index.now serializer.new.index.now result }
    ensures only { OnlyMemory result }
{
    if let Err(refused) = compose_key(term, keys) {
        serializer.shut();
        return Err(refused);
    }
    let key = key_of(term, keys);
    let doc_freq = term.recorder.term_doc_freq().unwrap_or(0);
    serializer.new_term(key, doc_freq, term.recorder.has_term_freq())
}

// Composes the key of a term in a buffer, if the term has a path.
fn compose_key(term: TermOfField<'_>, keys: &mut JsonTermSerializer) -> Result<(), Fault>
    ensures ok { OnOk result (IfSome term.entry.id (λ _. keys.new ≡ (state_of term.entry).key)) }
    ensures only { OnlyMemory result }
{
    let Some(id) = term.id else {
        return Ok(());
    };
    keys.clear();
    keys.append_key(
        term.paths.path(id),
        behind_id(term.id, term.term.as_slice()),
    )
}

// Returns the key of a term, which `keys` holds if the term has a path.
fn key_of<'a>(term: TermOfField<'a>, keys: &'a JsonTermSerializer) -> &'a [u8]
    requires { IfSome term.id (λ _. keys.now ≡ (state_of term).key) }
    ensures { result.now ≡ (state_of term.entry).key }
{
    match term.id {
        None => behind_id(None, term.term.as_slice()),
        Some(_) => keys.as_bytes(),
    }
}

// Returns the position of a token in the texts of a field, and its end.
fn token_place(begin: u32, position: usize, position_length: usize) -> Result<(u32, u32), Fault>
    ensures ok { IfOk result (λ place. (place.0 ≡ begin + position) × (place.1 ≡ begin + position + position_length)) }
    ensures refused { result ≡ (if nat_lt u32_max (begin + position + position_length) then Err (Fault.Limit limit.Position) else Ok (begin + position, begin + position + position_length)) }
{
    let limit = Fault::Limit(LimitName::Position);
    let Some(position) = u64::from(begin).checked_add(position as u64) else {
        return Err(limit);
    };
    let Some(end) = position.checked_add(position_length as u64) else {
        return Err(limit);
    };
    if end > u64::from(u32::MAX) {
        return Err(limit);
    }
    Ok((position as u32, end as u32))
}

// Counts one more token.
fn one_more(num_tokens: u32) -> Result<u32, Fault>
    ensures { result ≡ (if nat_le u32_max num_tokens then Err (Fault.Limit limit.Tokens) else Ok (num_tokens + 1)) }
{
    if num_tokens == u32::MAX {
        return Err(Fault::Limit(LimitName::Tokens));
    }
    Ok(num_tokens + 1)
}

// Counts one more token of a writer.
fn one_more_in_all(total_num_tokens: u64) -> Result<u64, Fault>
    ensures { result ≡ (if nat_le u64_max total_num_tokens then Err (Fault.Limit limit.Tokens) else Ok (total_num_tokens + 1)) }
{
    if total_num_tokens == u64::MAX {
        return Err(Fault::Limit(LimitName::Tokens));
    }
    Ok(total_num_tokens + 1)
}

// Returns the start of the next text, after one that ends at `end`.
fn next_text(end: u32) -> Result<u32, Fault>
    ensures { result ≡ (if nat_lt u32_max (end + 1) then Err (Fault.Limit limit.Position) else Ok (end + 1)) }
{
    if end > u32::MAX - POSITION_GAP {
        return Err(Fault::Limit(LimitName::Position));
    }
    Ok(end + POSITION_GAP)
}

/// The postings writer of any field.
#[derive(Drop)]
pub enum PostingsWriterKind {
    /// The writer of a field that holds no JSON values.
    Specialized(SpecializedPostingsWriter),
    /// The writer of a JSON field.
    Json(JsonPostingsWriter),
}

impl PostingsWriter for PostingsWriterKind {
    ghost use Rattle.ii_postings_writer.specs.PostingsWriterKind.{state_of_kind};

    ghost state = { state_of_kind };

    #[inline(always)]
    fn subscribe(
        &mut self,
        doc: DocId,
        pos: u32,
        term: &IndexingTerm,
        ctx: &mut IndexingContext,
    ) -> Result<(), Fault> {
        match self {
            PostingsWriterKind::Specialized(writer) => writer.subscribe(doc, pos, term, ctx),
            PostingsWriterKind::Json(writer) => writer.subscribe(doc, pos, term, ctx),
        }
    }

    #[inline(always)]
    fn index_text<S: TokenStream>(
        &mut self,
        doc_id: DocId,
        token_stream: &mut S,
        term_buffer: &mut IndexingTerm,
        ctx: &mut IndexingContext,
        indexing_position: &mut IndexingPosition,
    ) -> Result<(), Fault> {
        match self {
            PostingsWriterKind::Specialized(writer) => {
                writer.index_text(doc_id, token_stream, term_buffer, ctx, indexing_position)
            }
            PostingsWriterKind::Json(writer) => {
                writer.index_text(doc_id, token_stream, term_buffer, ctx, indexing_position)
            }
        }
    }

    #[inline(always)]
    fn total_num_tokens(&self) -> u64 {
        match self {
            PostingsWriterKind::Specialized(writer) => writer.total_num_tokens(),
            PostingsWriterKind::Json(writer) => writer.total_num_tokens(),
        }
    }
}

/// The recorder of each term that occurred, by the term's bytes.
#[derive(Drop)]
pub struct TermRecorders {
    pub(crate) recorders: IndexMap<TermKey, AnyRecorder>,
    alloc: Global,
}

impl Model for TermRecorders {
    ghost use Rattle.std.specs.Prelude.{All, map};
    ghost use Rattle.ii_postings_writer.specs.IndexingTerm.{AreTermBytes};
    ghost use Rattle.indexmap.specs.IndexMap.{keys};
    ghost use Rattle.ii_recorder.specs.AnyRecorder.{any_state};
    ghost use Rattle.ii_postings_writer.specs.IndexingContext.{TermIndex};

    ghost Value = { TermIndex };

    ghost view = { λ c. map (λ e. (e.0, any_state e.1)) c.recorders.entries };

    ghost invariant = { λ c. All AreTermBytes (keys c.recorders) };
}

impl TermRecorders {
    /// Creates an empty map.
    pub fn new(alloc: Global) -> TermRecorders
        ensures { result ≡ [] }
    {
        TermRecorders {
            recorders: IndexMap::new(alloc),
            alloc,
        }
    }

    // Records a position of a document under a term. A new term gets a recorder with `option`.
    pub(crate) fn record(
        &mut self,
        option: IndexRecordOption,
        term: &[u8],
        doc: DocId,
        position: u32,
    ) -> Result<(), Fault>
        requires term { AreTermBytes term.now }
        requires low { doc < TERMINATED }
        requires ends { AllEndBy doc self.old }
        ensures ok { OnOk result (IsRecorded option doc position term.now self.old self.new) }
        ensures refused { IsRefusedBy (record_fault doc position (recorder_or_new option self.old term.now)) result }
    {
        match self.recorders.get_mut(TermBytes { bytes: term }) {
            Some(recorder) => {
                if recorder.current_doc() == doc {
                    return recorder.record_position(position);
                }
                recorder.close_doc()?;
                recorder.new_doc(doc)?;
                recorder.record_position(position)
            }
            None => {
                let mut recorder = AnyRecorder::new(self.alloc, option);
                recorder.new_doc(doc)?;
                recorder.record_position(position)?;
                let key = TermKey::new(self.alloc, term)?;
                self.recorders.insert(key, recorder)?;
                Ok(())
            }
        }
    }
}

// Writes a field with the number of tokens of its writer and its terms, if it has any.
fn serialize_field<W: Write>(
    field: Field,
    writers: &PerFieldPostingsWriter,
    norms: &FieldNormReaders,
    terms: &FieldTerms<'_>,
    keys: &mut JsonTermSerializer,
    buffer_lender: &mut BufferLender,
    serializer: &mut InvertedIndexSerializer<W>,
) -> Result<(), Fault>
    requires known { field < length serializer.old.entries }
    requires writer { field < length writers.now }
    requires lacks { serializer.old.closed ≡ false → LacksField field serializer.old.bodies }
    requires norms { AreShortNorms norms.now }
    requires ascending { AreAscending (map (λ t. t.key) terms.now) }
    requires writable { AllByRecursion (IsWritable (norms_in norms.now field)) terms.now }
    ensures wrote { (initial : IndexBodiesState) (fs : List FieldPart) → HasFields serializer.old.entries initial serializer.old.bodies fs
        → OnOk result (HasFields serializer.old.entries initial serializer.new.bodies (fs ++ parts_of serializer.old.entries field (tokens_in writers.now field) (norms_in norms.now field) terms.now)) }

    // The state afterwards, and the errors.
    ensures ends { EndsParts terms.now serializer.old serializer.new result }
    ensures fault { IfErr result (λ e. (e ≡ Fault.SerializerClosed)
        ⊎ IsPartFault serializer.old.entries serializer.old.bodies (record { field = field; tokens = tokens_in writers.now field; norms = norms_in norms.now field; terms = terms.now }) e) }
    ensures some { OnErr result (0 < length terms.now) }
    ensures err { IfErr result (λ e. IsTrue serializer.new.closed ⊎ ((e ≡ Fault.OutOfMemory) × (serializer.new ≡ serializer.old))) }
{
    let terms = terms.as_slice();
    if terms.is_empty() {
        return Ok(());
    }
    let writer = writers.get_for_field(field);
    let fieldnorm_reader = norms.get_field(field)?;
    let total_num_tokens = writer.total_num_tokens();
    let mut serializer = serializer.new_field(field, total_num_tokens, fieldnorm_reader)?;
    writer.serialize(terms, keys, buffer_lender, &mut serializer)?;
    serializer.close()
}

// Returns for each field of a schema whether it holds JSON values.
fn json_fields(alloc: Global, schema: &Schema) -> Result<Vec<bool>, Fault>
    ensures ok { IfOk result (λ flags. flags.items ≡ json_fields schema.now) }
    ensures only { OnlyMemory result }
{
    let mut flags = Vec::with_capacity(alloc, schema.num_fields())?;
    for (_field, entry) in schema.fields() {
        flags.push(holds_json(entry))?;
    }
    Ok(flags)
}

// Returns whether a field holds JSON values.
fn holds_json(entry: &FieldEntry) -> bool
    ensures { result ≡ is_json entry.now.value_type }
{
    entry.value_type().to_code() == ValueType::Json.to_code()
}

// Returns the terms of each field of a context, by their keys.
fn field_terms<'a>(
    alloc: Global,
    ctx: &'a IndexingContext,
    schema: &Schema,
) -> Result<Vec<FieldTerms<'a>>, Fault>
    requires terms { (norms : List Body) × MayWriteTerms schema.now norms ctx.now.path_to_unordered_id ctx.now.term_index }
    ensures ok { IfOk result (λ terms. AreFieldTerms schema.now ctx.entry.now.path_to_unordered_id ctx.entry.now.term_index terms.items) }
    ensures only { OnlyMemory result }
{
    let flags = json_fields(alloc, schema)?;
    let ranks = ctx.path_to_unordered_id.unordered_id_to_ordered_id(alloc)?;
    let sorted = ctx.term_index.sorted(alloc, &flags, &ranks)?;
    sorted.by_field(
        alloc,
        &flags,
        &ctx.path_to_unordered_id,
        schema.num_fields(),
    )
}

/// Writes the terms of a context and the numbers of tokens, in ascending order of fields. Fields
/// without terms are skipped. If a field has norms, its full blocks get bounds.
///
/// The serializer and the writers must have this schema, and no field may have been written yet. Each
/// term must belong to a field of the schema, with documents that may be written. The norms of its
/// field must cover these documents.
///
/// # Errors
///
/// - `Write` if a writer fails.
/// - `Limit(Offset)` if a writer would count more than `u64::MAX` bytes, or the terms of a field reach
///   2^56 bytes in total.
/// - `Limit(TermBytes)` if the postings or the positions of a term exceed `u32::MAX` bytes.
/// - `Limit(BlockFrequencySum)` if term frequencies in a block sum up above `u32::MAX`, for a term
///   with positions.
/// - `OutOfMemory` if an allocation fails.
/// - `SerializerClosed` after an earlier fault, if there is a term.
///
/// A fault closes the serializer, except `OutOfMemory` between two fields, which leaves it as it was
/// there.
pub fn serialize_postings<W: Write>(
    alloc: Global,
    ctx: IndexingContext,
    schema: &Schema,
    per_field_postings_writers: &PerFieldPostingsWriter,
    fieldnorm_readers: &FieldNormReaders,
    serializer: &mut InvertedIndexSerializer<W>,
) -> Result<(), Fault>
    requires schema { schema.now ≡ serializer.old.entries }
    requires writers { length per_field_postings_writers.now ≡ length schema.now }
    requires fresh { HasFields serializer.old.entries serializer.old.bodies serializer.old.bodies [] }
    requires norms { AreShortNorms fieldnorm_readers.now }
    requires terms { MayWriteTerms schema.now fieldnorm_readers.now ctx.path_to_unordered_id ctx.term_index }
    ensures wrote { OnOk result (WroteContext serializer.old serializer.new per_field_postings_writers.now fieldnorm_readers.now (resolved_terms (json_fields schema.now) ctx.path_to_unordered_id ctx.term_index)) }
    ensures holds { (ts : List IndexToken) → HaveHeldTokens serializer.old.entries ctx.path_to_unordered_id ctx.term_index per_field_postings_writers.now ts → OnOk result (WroteTokens serializer.old serializer.new fieldnorm_readers.now ts) }
    ensures tokens { (ts : List IndexToken) → HaveHeldTokens serializer.old.entries ctx.path_to_unordered_id ctx.term_index per_field_postings_writers.now ts
        → HaveUnlessMemory (HaveTokens serializer.old.entries (resolved_terms (json_fields schema.now) ctx.path_to_unordered_id ctx.term_index) per_field_postings_writers.now ts) result }

    // The state afterwards, and the errors.
    ensures ends { EndsParts ctx.term_index serializer.old serializer.new result }
    ensures fault { IfErr result (λ e. (e ≡ Fault.OutOfMemory) ⊎ (e ≡ Fault.SerializerClosed) ⊎ IsContextFault serializer.old per_field_postings_writers.now fieldnorm_readers.now (resolved_terms (json_fields schema.now) ctx.path_to_unordered_id ctx.term_index) e) }
    ensures err { IfErr result (ClosesOrStays serializer.old serializer.new) }
{
    holds_its_tokens();
    bounds_its_tokens();
    let terms = field_terms(alloc, &ctx, schema)?;
    let mut keys = JsonTermSerializer::new(alloc);
    let mut buffer_lender = BufferLender::new(alloc);
    for place in 0..terms.len() {
        let field = Field::from_field_id(place as u32);
        let told = serialize_field(
            field,
            per_field_postings_writers,
            fieldnorm_readers,
            &terms[place],
            &mut keys,
            &mut buffer_lender,
            serializer,
        );
        let Ok(()) = told else {
            drop(keys);
            drop(buffer_lender);
            drop(terms);
            drop(ctx);
            return told;
        };
    }
    drop(keys);
    drop(buffer_lender);
    drop(terms);
    drop(ctx);
    Ok(())
}
