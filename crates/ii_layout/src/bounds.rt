ghost use Rattle.std.specs.Prelude.{◌≡◌, map, length, slice_index, ◌<◌};
ghost use Rattle.std.specs.List.{AllByRecursion};
ghost use Rattle.ii_fieldnorm.specs.Readers.{CoversDoc, id_of_doc};
ghost use Rattle.ii_layout.specs.Bounds.{Covers, fieldnorm_bound, greatest, least, term_freq_bound};
ghost use Rattle.ii_layout.specs.SkipReader.{code_of_max_tf};

use super::serializer::Block;
use ii_base::DocId;
use ii_fieldnorm::FieldNormReader;
use std::marker::Model;

/// Computes the bounds of blocks from the norms of their field. A field without norms has no bounds.
#[derive(Drop)]
pub(crate) struct BlockBounds {
    fieldnorm_reader: Option<FieldNormReader>,
}

impl Model for BlockBounds {
    ghost use Rattle.std.specs.Prelude.{Option};
    ghost use Rattle.ii_fieldnorm.specs.Readers.{Norms};

    ghost Value = { Option Norms };

    ghost view = { λ b. b.fieldnorm_reader };
}

impl BlockBounds {
    /// Creates the bounds for a field with these norms, if it has any.
    pub(crate) fn new(fieldnorm_reader: Option<FieldNormReader>) -> BlockBounds
        ensures { result ≡ fieldnorm_reader }
    {
        BlockBounds { fieldnorm_reader }
    }

    /// Returns the least norm id of a block's documents, or 0 without norms.
    pub(crate) fn fieldnorm_id(&self, block: &Block) -> u8
        requires { AllByRecursion (Covers self.now) block.now.docs }
        ensures { result ≡ fieldnorm_bound self.now block.now.docs }
    {
        match &self.fieldnorm_reader {
            Some(norms) => least_id(norms, block.doc_ids()),
            None => 0,
        }
    }

    /// Returns the greatest term frequency in a block, or 0 without norms.
    pub(crate) fn term_freq(&self, block: &Block) -> u32
        ensures { code_of_max_tf result ≡ term_freq_bound self.now block.now.freqs }
    {
        match &self.fieldnorm_reader {
            Some(_) => greatest_of(block.term_freqs()),
            None => 0,
        }
    }
}

// Returns the least norm id of the documents.
fn least_id(norms: &FieldNormReader, doc_ids: &[DocId]) -> u8
    requires { AllByRecursion (CoversDoc norms.now) doc_ids.now }
    ensures { result ≡ least (map (id_of_doc norms.now) doc_ids.now) }
{
    let mut least = u8::MAX;
    for doc in doc_ids {
        least = least.min(norms.fieldnorm_id(*doc));
    }
    least
}

// Returns the greatest term frequency.
fn greatest_of(term_freqs: &[u32]) -> u32
    ensures { result ≡ greatest term_freqs.now }
{
    let mut greatest = 0;
    for term_freq in term_freqs {
        greatest = greatest.max(*term_freq);
    }
    greatest
}
