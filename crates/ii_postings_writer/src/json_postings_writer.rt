ghost use Rattle.std.specs.Prelude.{◌≡◌};
ghost use Rattle.ii_base.specs.declared.schema.index_record_option.IndexRecordOption.TheVariants.{Basic};

use crate::indexing_context::IndexingContext;
use crate::indexing_position::IndexingPosition;
use crate::indexing_term::IndexingTerm;
use crate::postings_writer::{PostingsWriter, SpecializedPostingsWriter};
use ii_base::{DocId, Fault, IndexRecordOption, TokenStream};
use std::marker::Model;

/// A writer of a JSON field, which keeps only the documents of a value's terms.
#[derive(Drop)]
pub struct JsonPostingsWriter {
    // Counts all terms, and records a value's under `Basic`.
    str_posting_writer: SpecializedPostingsWriter,
}

impl Model for JsonPostingsWriter {
    ghost use Rattle.ii_base.specs.declared.schema.index_record_option.IndexRecordOption.TheVariants.{Basic};
    ghost use Rattle.ii_postings_writer.specs.PostingsWriter.{PostingsWriterState};

    ghost Value = { PostingsWriterState };

    ghost view = { λ w. record w.str_posting_writer { value_option = Basic } };
}

impl JsonPostingsWriter {
    /// Creates a writer without tokens. It keeps what `option` says of a text's terms, and only the
    /// documents of a value's.
    pub fn new(option: IndexRecordOption) -> JsonPostingsWriter
        ensures { result ≡ record { option = option; value_option = Basic; total_num_tokens = 0 } }
    {
        JsonPostingsWriter {
            str_posting_writer: SpecializedPostingsWriter::new(option),
        }
    }
}

impl PostingsWriter for JsonPostingsWriter {
    ghost state = { λ w. w };

    #[inline(always)]
    fn subscribe(
        &mut self,
        doc: DocId,
        pos: u32,
        term: &IndexingTerm,
        ctx: &mut IndexingContext,
    ) -> Result<(), Fault> {
        // Shows the proof that the field fits in 32 bits.
        let _field = term.field().field_id();
        let option = IndexRecordOption::Basic;
        let terms = &mut ctx.term_index;
        self.str_posting_writer
            .record(option, doc, pos, term, terms)
    }

    #[inline(always)]
    fn index_text<S: TokenStream>(
        &mut self,
        doc_id: DocId,
        token_stream: &mut S,
        term_buffer: &mut IndexingTerm,
        ctx: &mut IndexingContext,
        indexing_position: &mut IndexingPosition,
    ) -> Result<(), Fault> {
        self.str_posting_writer
            .index_text(doc_id, token_stream, term_buffer, ctx, indexing_position)
    }

    #[inline(always)]
    fn total_num_tokens(&self) -> u64 {
        self.str_posting_writer.total_num_tokens()
    }
}
