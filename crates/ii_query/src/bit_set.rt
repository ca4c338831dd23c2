ghost use Rattle.std.specs.Prelude.{◌≡◌, ◌≤◌, ◌<◌, ◌+◌, ◌*◌, ◌/◌, ◌||◌, ℕ, [], OnErr, OnOk, length, max, nat_eq};
ghost use Rattle.ii_io.specs.Faults.{OnlyMemory};
ghost use Rattle.ii_base.specs.declared.doc_id.TheConstants.{TERMINATED};
ghost use Rattle.ii_docset.specs.Intersection.{has_doc};
ghost use Rattle.ii_query.specs.BitSet.{IsFirstFrom, StandsIn, bits_end, docs_between, docs_of_set, is_in};

use ii_base::Fault;
use ii_docset::{DocId, DocSet, TERMINATED};
use std::alloc::Global;
use std::marker::Model;

// The number of documents of a word.
const WORD_LEN: u32 = 64;

// With so many words, each document has a bit.
const MAX_WORDS: usize = 33554432;

/// A set of documents, one bit for each document up to the greatest one that was added.
#[derive(Drop)]
pub struct BitSet {
    words: Vec<u64>,
}

impl Model for BitSet {
    ghost use Rattle.std.specs.Prelude.{List, ℕ};

    ghost Value = { List ℕ };

    ghost view = { λ s. s.words.items };
}

impl BitSet {
    /// Returns a set of no documents. Never allocates.
    pub fn new(alloc: Global) -> BitSet
        ensures { result ≡ [] }
    {
        BitSet {
            words: Vec::new(alloc),
        }
    }

    /// Adds a document, which must be less than `TERMINATED`. If this fails, the set has the same documents as
    /// before; it fails only with `OutOfMemory`.
    pub fn insert(&mut self, doc: DocId) -> Result<(), Fault>
        requires { doc < TERMINATED }
        ensures added { OnOk result ((d : ℕ) → is_in self.new d ≡ (nat_eq doc d || is_in self.old d)) }
        ensures size { OnOk result (length self.new ≡ max (length self.old) (doc / 64 + 1)) }
        ensures kept { OnErr result ((d : ℕ) → is_in self.new d ≡ is_in self.old d) }
        ensures only { OnlyMemory result }
    {
        grow(&mut self.words, doc / WORD_LEN)?;
        set_bit(&mut self.words, doc);
        Ok(())
    }

    /// Adds the remaining documents of a cursor. Fails only with `OutOfMemory`.
    pub fn insert_all<D: DocSet>(&mut self, docs: &mut D) -> Result<(), Fault>
        ensures added { OnOk result ((d : ℕ) → is_in self.new d ≡ (has_doc (D.rest docs.old) d || is_in self.old d)) }
        ensures only { OnlyMemory result }
    {
        let mut doc = docs.doc();
        while doc < TERMINATED {
            self.insert(doc)?;
            doc = docs.advance();
        }
        Ok(())
    }

    // Returns the number of documents that have a bit.
    fn num_bits(&self) -> u32
        ensures { result ≡ bits_end self.now }
    {
        let words = self.words.len();
        if words >= MAX_WORDS {
            return TERMINATED;
        }
        words as u32 * WORD_LEN
    }

    // Returns the first document of the set from one on, or one that is at least `end`.
    fn first_from(&self, from: DocId, end: DocId) -> DocId
        requires { end ≤ bits_end self.now }
        ensures { IsFirstFrom (is_in self.now) from end result }
    {
        first_bit(&self.words, from, end)
    }
}

// Appends words without documents until there is one at an index.
fn grow(words: &mut Vec<u64>, index: u32) -> Result<(), Fault>
    ensures size { OnOk result (length words.new.items ≡ max (length words.old.items) (index + 1)) }
    ensures kept { (d : ℕ) → is_in words.new.items d ≡ is_in words.old.items d }
    ensures only { OnlyMemory result }
{
    for size in words.len()..index as usize + 1 {
        words.push(0)?;
    }
    Ok(())
}

// Sets the bit of a document.
fn set_bit(words: &mut [u64], doc: DocId)
    requires { doc < 64 * length words.old }
    ensures size { length words.new ≡ length words.old }
    ensures added { (d : ℕ) → is_in words.new d ≡ (nat_eq doc d || is_in words.old d) }
{
    words[(doc / WORD_LEN) as usize] |= 1 << (doc % WORD_LEN);
}

// Returns the first document from one on whose bit is 1, or one that is at least `end`.
fn first_bit(words: &[u64], from: DocId, end: DocId) -> DocId
    requires bits { end ≤ bits_end words.now }
    ensures { IsFirstFrom (is_in words.now) from end result }
{
    let mut doc = from;
    while doc < end {
        let word = words[(doc / WORD_LEN) as usize];
        let rest = word >> (doc % WORD_LEN);
        if rest != 0 {
            return doc + rest.trailing_zeros();
        }
        doc = (doc / WORD_LEN + 1) * WORD_LEN;
    }
    doc
}

/// A cursor over the documents of a set.
#[derive(Drop)]
pub struct BitSetDocSet {
    docs: BitSet,
    next: DocId,
    end: DocId,
    ghost at: { StandsIn docs next end },
}

impl BitSetDocSet {
    /// Returns a cursor over the documents of a set.
    pub fn new(docs: BitSet) -> BitSetDocSet
        ensures rest { docs_between result.docs result.next result.end ≡ docs_of_set docs }
        ensures end { result.end ≡ bits_end docs }
    {
        let end = docs.num_bits();
        let next = docs.first_from(0, end);
        BitSetDocSet { docs, next, end }
    }
}

impl DocSet for BitSetDocSet {
    ghost use Rattle.std.specs.Prelude.{◌≡◌, ◌-◌};
    ghost use Rattle.ii_query.specs.BitSet.{docs_between};

    ghost rest = { λ s. docs_between s.docs s.next s.end };

    ghost hints = { λ s n. n ≡ s.end - s.next };

    ghost went_nowhere = { λ s. tt };

    ghost went_on = { λ a b c first second. tt };

    fn advance(&mut self) -> DocId {
        if self.next < self.end {
            self.next = self.docs.first_from(self.next + 1, self.end);
        }
        self.doc()
    }

    fn doc(&self) -> DocId {
        if self.next < self.end {
            self.next
        } else {
            TERMINATED
        }
    }

    fn size_hint(&self) -> u32 {
        self.end.saturating_sub(self.next)
    }

    fn seek(&mut self, target: DocId) -> DocId {
        if self.next < target {
            self.next = self.docs.first_from(target, self.end);
        }
        self.doc()
    }
}
