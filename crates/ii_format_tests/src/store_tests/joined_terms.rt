use ii_io::{CountingWriter, Fault};
use ii_termstore::{TermInfo, TermInfoStoreWriter};
use std::alloc::Global;
use std::io::Write;
use std::marker::Model;

// A writer of terms given by their lengths, so that their ranges are contiguous.
#[derive(Drop)]
pub struct JoinedTerms {
    store: TermInfoStoreWriter,
    postings_end: usize,
    positions_end: usize,
}

impl Model for JoinedTerms {
    ghost use Rattle.ii_termstore.specs.TermInfoStoreWriter.{TermInfoStoreWriterState};
    ghost use Rattle.ii_termstore.specs.ReadBack.{AreJoined, EndAt};

    ghost Value = { TermInfoStoreWriterState };

    ghost view = { λ t. t.store };

    ghost invariant = { λ t. AreJoined t.store.infos × EndAt t.store.infos t.postings_end t.positions_end };
}

impl JoinedTerms {
    pub fn new(alloc: Global) -> JoinedTerms {
        JoinedTerms {
            store: TermInfoStoreWriter::new(alloc),
            postings_end: 0,
            positions_end: 0,
        }
    }

    // Appends a term with these numbers of bytes of postings and positions.
    pub fn write(&mut self, doc_freq: u32, postings: u32, positions: u32) -> Result<(), Fault> {
        let info = TermInfo {
            doc_freq,
            postings_range: self.postings_end..self.postings_end.saturating_add(postings as usize),
            positions_range: self.positions_end..self
                .positions_end
                .saturating_add(positions as usize),
        };
        self.store.write_term_info(&info)?;
        self.postings_end = info.postings_range.end;
        self.positions_end = info.positions_range.end;
        Ok(())
    }

    pub fn serialize<W: Write>(&mut self, writer: &mut CountingWriter<W>) -> Result<(), Fault> {
        self.store.serialize(writer)
    }
}
