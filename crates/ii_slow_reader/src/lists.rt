use crate::bits::{entry, fixed};
use crate::positions::read_positions;
use crate::vints::{vint_32, vint_64};
use std::alloc::{AllocError, Global};

// Document ids are less than this.
const END: u64 = 2_147_483_647;

/// What a field records, or a reader requests.
#[derive(Clone, Copy, PartialEq, Eq)]
pub enum Mode {
    /// Documents only.
    Documents,
    /// Counts too.
    Counts,
    /// Counts and positions too.
    Positions,
}

/// The corrupt part.
#[derive(Clone, Copy, PartialEq, Eq)]
pub enum Damage {
    /// The skip list.
    Skip,
    /// The documents.
    Documents,
    /// The counts.
    Frequencies,
    /// The positions.
    Positions,
    /// The table of a composite file.
    Composite,
    /// The keys of a dictionary.
    Dictionary,
    /// The store of a dictionary.
    TermStore,
    /// The number of tokens of a field.
    TokenCount,
    /// The ranges of a term.
    Range,
}

/// The contents of a list: documents, and the counts and positions if they are read. Positions of all
/// documents follow one another.
#[derive(Drop)]
pub struct Listed {
    /// The documents.
    pub docs: Vec<u64>,
    /// Whether counts are read.
    pub has_counts: bool,
    /// A count for each document, if they are read.
    pub counts: Vec<u64>,
    /// The positions, if they are read.
    pub positions: Vec<u64>,
    // the entries of the skip list
    blocks: Vec<Block>,
    // the deltas of the positions
    deltas: Vec<u64>,
}

// A skip entry: the last document of the block, the widths, and whether deltas are strict. Also the sum of
// its counts and an upper bound of each, if known, and the block's offset after the skip list.
#[derive(Drop)]
struct Block {
    last: u64,
    doc_width: u64,
    count_width: u64,
    strict: bool,
    sum: Option<u64>,
    bound: Option<u64>,
    start: u64,
}

impl Mode {
    fn has_counts(self) -> bool {
        self != Mode::Documents
    }

    fn has_positions(self) -> bool {
        self == Mode::Positions
    }
}

/// Reads a list of `doc_freq` documents.
pub fn read_list(
    alloc: Global,
    doc_freq: u32,
    postings: &[u8],
    positions: Option<&[u8]>,
    recorded: Mode,
    requested: Mode,
) -> Result<Result<Listed, Damage>, AllocError> {
    let mut list = Listed {
        docs: Vec::new(alloc),
        has_counts: false,
        counts: Vec::new(alloc),
        positions: Vec::new(alloc),
        blocks: Vec::new(alloc),
        deltas: Vec::new(alloc),
    };
    let wanted = (recorded, requested);
    let damage = read_parts(u64::from(doc_freq), postings, positions, wanted, &mut list)?;
    match damage {
        Some(damage) => Ok(Err(damage)),
        None => Ok(Ok(list)),
    }
}

// Reads what is recorded and requested of a list. Returns the corrupt part, if there is one.
fn read_parts(
    doc_freq: u64,
    postings: &[u8],
    positions: Option<&[u8]>,
    wanted: (Mode, Mode),
    list: &mut Listed,
) -> Result<Option<Damage>, AllocError> {
    let (recorded, requested) = wanted;
    let (full, others) = (doc_freq / 128, doc_freq % 128);
    let Some((start, may_count)) = read_skip(postings, full, recorded, &mut list.blocks)? else {
        return Ok(Some(Damage::Skip));
    };
    let blocks = list.blocks.as_slice();
    let Some(end) = read_documents(postings, start, blocks, others, &mut list.docs)? else {
        return Ok(Some(Damage::Documents));
    };
    // a list without a skip list has counts if bytes remain after its documents
    let has_counts = may_count && (full > 0 || end < postings.len() as u64);
    if !has_counts || !requested.has_counts() {
        return Ok(None);
    }
    list.has_counts = true;
    if !read_counts(postings, start, blocks, &mut list.counts)?
        || !read_last_counts(postings, end, others, &mut list.counts)?
    {
        return Ok(Some(Damage::Frequencies));
    }
    let Some(bytes) = positions else {
        return Ok(None);
    };
    if !recorded.has_positions() || !requested.has_positions() {
        return Ok(None);
    }
    let counts = list.counts.as_slice();
    if !read_positions(bytes, counts, &mut list.deltas, &mut list.positions)? {
        return Ok(Some(Damage::Positions));
    }
    Ok(None)
}

// Reads the skip list of `full` blocks. Returns the offset after it and whether the list may have counts, or
// `None` if it is corrupt.
fn read_skip(
    postings: &[u8],
    full: u64,
    recorded: Mode,
    blocks: &mut Vec<Block>,
) -> Result<Option<(u64, bool)>, AllocError> {
    if full == 0 {
        return Ok(Some((0, recorded.has_counts())));
    }
    let Some((len, after)) = vint_64(postings, 0) else {
        return Ok(None);
    };
    if len > (postings.len() as u64).saturating_sub(after) {
        return Ok(None);
    }
    let has_counts = recorded.has_counts() && len >= full.saturating_mul(8);
    if !read_entries(postings, after, len, full, recorded, has_counts, blocks)? {
        return Ok(None);
    }
    Ok(Some((after.saturating_add(len), has_counts)))
}

// Reads the entries of a skip list. Returns false if they are corrupt.
fn read_entries(
    postings: &[u8],
    start: u64,
    len: u64,
    full: u64,
    recorded: Mode,
    has_counts: bool,
    blocks: &mut Vec<Block>,
) -> Result<bool, AllocError> {
    let size = if !has_counts {
        5
    } else if recorded.has_positions() {
        12
    } else {
        8
    };
    if len < full.saturating_mul(size) {
        return Ok(false);
    }
    let mut place = 0u64;
    for i in 0..full {
        let at = start.saturating_add(i.saturating_mul(size));
        let Some(block) = read_entry(postings, at, size, place) else {
            return Ok(false);
        };
        let bits = block.doc_width.saturating_add(block.count_width);
        place = place.saturating_add(bits.saturating_mul(16));
        if block.count_width > 32 {
            return Ok(false);
        }
        blocks.push(block)?;
    }
    Ok(true)
}

// Reads an entry of `size` bytes.
fn read_entry(postings: &[u8], at: u64, size: u64, place: u64) -> Option<Block> {
    let code = fixed(postings, at.saturating_add(4), 1)?;
    let count_width = if size > 5 {
        fixed(postings, at.saturating_add(5), 1)?
    } else {
        0
    };
    let sum = if size == 12 {
        Some(fixed(postings, at.saturating_add(6), 4)?)
    } else {
        None
    };
    Some(Block {
        last: fixed(postings, at, 4)?,
        doc_width: code % 32,
        count_width,
        strict: code / 64 % 2 == 1,
        sum,
        bound: bound_of(postings, at, size)?,
        start: place,
    })
}

// Returns the upper bound at the end of an entry, or `None` if there are no counts or the bound is unknown.
fn bound_of(postings: &[u8], at: u64, size: u64) -> Option<Option<u64>> {
    if size == 5 {
        return Some(None);
    }
    let bound = fixed(postings, at.saturating_add(size).saturating_sub(1), 1)?;
    Some(if bound == 0 || bound == 255 {
        None
    } else {
        Some(bound)
    })
}

// Reads all documents. Returns the offset after them, or `None` if they are missing or don't ascend.
fn read_documents(
    postings: &[u8],
    start: u64,
    blocks: &[Block],
    others: u64,
    docs: &mut Vec<u64>,
) -> Result<Option<u64>, AllocError> {
    let mut end = start;
    let mut before = 0u64;
    for block in blocks {
        let at = start.saturating_add(block.start);
        let mut doc = before;
        for k in 0..128 {
            let Some(delta) = entry(postings, at, block.doc_width, k) else {
                return Ok(None);
            };
            doc = doc.saturating_add(delta);
            if block.strict && !(k == 0 && before == 0) {
                doc = doc.saturating_add(1);
            }
            docs.push(doc)?;
        }
        if doc != block.last {
            return Ok(None);
        }
        before = doc;
        let bits = block.doc_width.saturating_add(block.count_width);
        end = at.saturating_add(bits.saturating_mul(16));
    }
    let mut doc = before;
    for _ in 0..others {
        let Some((delta, after)) = vint_32(postings, end) else {
            return Ok(None);
        };
        doc = doc.saturating_add(delta);
        docs.push(doc)?;
        end = after;
    }
    Ok(if ascend(docs.as_slice()) {
        Some(end)
    } else {
        None
    })
}

// Returns whether documents ascend strictly and are less than `END`.
fn ascend(docs: &[u64]) -> bool {
    let mut next = 0;
    for doc in docs {
        if *doc < next || *doc >= END {
            return false;
        }
        next = doc.saturating_add(1);
    }
    true
}

// Reads the counts of full blocks. Returns false if they are missing, exceed their bound, or have another
// sum.
fn read_counts(
    postings: &[u8],
    start: u64,
    blocks: &[Block],
    counts: &mut Vec<u64>,
) -> Result<bool, AllocError> {
    for block in blocks {
        let docs = block.doc_width.saturating_mul(16);
        let at = start.saturating_add(block.start).saturating_add(docs);
        let mut sum = 0u64;
        for k in 0..128 {
            let Some(found) = entry(postings, at, block.count_width, k) else {
                return Ok(false);
            };
            let count = found.saturating_add(u64::from(block.strict));
            if count > block.bound.unwrap_or(u64::from(u32::MAX)) {
                return Ok(false);
            }
            sum = sum.saturating_add(count);
            counts.push(count)?;
        }
        if block.sum.is_some_and(|told| told != sum) {
            return Ok(false);
        }
    }
    Ok(true)
}

// Reads the counts after the full blocks. Returns false if they are missing.
fn read_last_counts(
    postings: &[u8],
    start: u64,
    others: u64,
    counts: &mut Vec<u64>,
) -> Result<bool, AllocError> {
    let mut at = start;
    for _ in 0..others {
        let Some((count, after)) = vint_32(postings, at) else {
            return Ok(false);
        };
        counts.push(count)?;
        at = after;
    }
    Ok(true)
}
