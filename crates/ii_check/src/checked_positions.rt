ghost use Rattle.std.specs.Prelude.{◌≡◌, ◌+◌, ℕ};
ghost use Rattle.std.specs.Borrow.{ftrue};
ghost use Rattle.ii_check.specs.CheckedPositions.{no_position_blocks};

use ii_codes::BlockDecoder;
use ii_layout::PositionReader;
use std::marker::Model;

/// A number of decoded blocks, for contracts alone. It takes no bytes, and code can't read it.
#[derive(Drop)]
pub struct DecodeCount {
    pub ghost value: { ℕ },
}

impl Model for DecodeCount {
    ghost also_owns = { λ _. ftrue };
}

impl DecodeCount {
    // Creates a count of 0.
    pub(crate) fn new() -> DecodeCount
        ensures { result.value ≡ 0 }
    {
        DecodeCount {}
    }

    // Returns the count with the blocks that a decoder decoded.
    pub(crate) fn with_decoder(&self, decoder: &BlockDecoder) -> DecodeCount
        ensures { result.value ≡ self.now.value + decoder.now.decodes }
    {
        DecodeCount {}
    }

    // Returns the count with the blocks that a reader decoded.
    pub(crate) fn with_reader(&self, reader: &PositionReader) -> DecodeCount
        ensures { result.value ≡ self.now.value + reader.now.decodes }
    {
        DecodeCount {}
    }

    // Returns the same count.
    pub(crate) fn same(&self) -> DecodeCount
        ensures { result.value ≡ self.now.value }
    {
        DecodeCount {}
    }
}

/// Counts the blocks that were decoded to validate the positions of a list. It takes no bytes, and code can't
/// read it.
#[derive(Drop)]
pub struct CheckedPositions {
    docs: DecodeCount,
    freqs: DecodeCount,
    positions: DecodeCount,
}

impl Model for CheckedPositions {
    ghost use Rattle.ii_check.specs.CheckedPositions.{PositionCounts};

    ghost Value = { PositionCounts };

    ghost view = { λ c. record { docs = c.docs.value; freqs = c.freqs.value; positions = c.positions.value } };
}

impl CheckedPositions {
    /// Creates the counts of a list whose positions weren't validated.
    pub fn none() -> CheckedPositions
        ensures { result ≡ no_position_blocks }
    {
        CheckedPositions {
            docs: DecodeCount::new(),
            freqs: DecodeCount::new(),
            positions: DecodeCount::new(),
        }
    }

    /// Returns the same counts.
    pub fn same(&self) -> CheckedPositions
        ensures { result ≡ self.now }
    {
        CheckedPositions {
            docs: self.docs.same(),
            freqs: self.freqs.same(),
            positions: self.positions.same(),
        }
    }

    // Adds what two decoders decoded, of documents and of term frequencies.
    pub(crate) fn add_lists(&mut self, doc_decoder: &BlockDecoder, freq_decoder: &BlockDecoder)
        ensures docs { self.new.docs ≡ self.old.docs + doc_decoder.now.decodes }
        ensures freqs { self.new.freqs ≡ self.old.freqs + freq_decoder.now.decodes }
        ensures positions { self.new.positions ≡ self.old.positions }
    {
        self.docs = self.docs.with_decoder(doc_decoder);
        self.freqs = self.freqs.with_decoder(freq_decoder);
    }

    // Adds what a decoder decoded of positions.
    pub(crate) fn add_positions(&mut self, decoder: &BlockDecoder)
        ensures lists { (self.new.docs ≡ self.old.docs) × (self.new.freqs ≡ self.old.freqs) }
        ensures positions { self.new.positions ≡ self.old.positions + decoder.now.decodes }
    {
        self.positions = self.positions.with_decoder(decoder);
    }

    // Adds what a reader of positions decoded.
    pub(crate) fn add_reader(&mut self, reader: &PositionReader)
        ensures lists { (self.new.docs ≡ self.old.docs) × (self.new.freqs ≡ self.old.freqs) }
        ensures positions { self.new.positions ≡ self.old.positions + reader.now.decodes }
    {
        self.positions = self.positions.with_reader(reader);
    }
}
