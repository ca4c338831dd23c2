ghost use Rattle.std.specs.Prelude.{◌≡◌, ◌++◌, ℕ, List, []};
ghost use Rattle.std.specs.Borrow.{ftrue};
ghost use Rattle.ii_check.specs.DecodedBlocks.{logged};

use ii_codes::BlockDecoder;
use ii_layout::SkipReader;
use std::marker::Model;

/// The numbers of the blocks that a decoder decoded, in the order of the decodes, for contracts alone. It takes
/// no bytes, and code can't read it.
#[derive(Drop)]
pub struct BlockLog {
    pub ghost blocks: { List ℕ },
}

impl Model for BlockLog {
    ghost also_owns = { λ _. ftrue };
}

impl BlockLog {
    // Creates an empty log.
    pub(crate) fn new() -> BlockLog
        ensures { result.blocks ≡ [] }
    {
        BlockLog {}
    }

    // Returns the log after a decode of the skip reader's block, given the decoder that holds it: the number of
    // the block is added, unless the block has no values.
    pub(crate) fn with_block(&self, skip: &SkipReader, decoder: &BlockDecoder) -> BlockLog
        ensures { result.blocks ≡ self.now.blocks ++ logged skip.now.block decoder.now.output_len }
    {
        BlockLog {}
    }

    // Returns the same log.
    pub(crate) fn same(&self) -> BlockLog
        ensures { result.blocks ≡ self.now.blocks }
    {
        BlockLog {}
    }
}

/// The blocks of a list that a cursor decoded. It takes no bytes, and code can't read it.
#[derive(Drop)]
pub struct DecodedBlocks {
    /// Blocks of documents.
    pub docs: BlockLog,
    /// Blocks of term frequencies.
    pub freqs: BlockLog,
}

impl DecodedBlocks {
    /// Creates the blocks of a cursor that decoded none.
    pub fn none() -> DecodedBlocks
        ensures { (result.docs.blocks ≡ []) × (result.freqs.blocks ≡ []) }
    {
        DecodedBlocks {
            docs: BlockLog::new(),
            freqs: BlockLog::new(),
        }
    }

    /// Returns the same blocks.
    pub fn same(&self) -> DecodedBlocks
        ensures { (result.docs.blocks ≡ self.now.docs.blocks) × (result.freqs.blocks ≡ self.now.freqs.blocks) }
    {
        DecodedBlocks {
            docs: self.docs.same(),
            freqs: self.freqs.same(),
        }
    }
}
