ghost use Rattle.std.specs.Prelude.{◌≡◌, ◌≤◌, ◌+◌, [], false, length};
ghost use Rattle.ii_termstore.specs.TermInfos.{term_info_from};

use bytes::Bytes;
use ii_io::{CountingWriter, Fault};
use ii_termdict::{TermDictionary, TermDictionaryBuilder, TermInfo};
use std::alloc::Global;
use std::io::Write;

/// Builds and opens a dictionary of three keys, and looks up each by its ordinal. Then looks up a missing
/// key.
pub fn read_back(alloc: Global) -> Result<String, Fault> {
    let terms = built(alloc)?;
    let mut text = String::new(alloc);
    let mut key = Vec::new(alloc);
    for ord in 0..4 {
        if terms.ord_to_term(ord, &mut key)? {
            push_term(&mut text, terms.get(&key))?;
        }
    }
    push_term(&mut text, terms.get(b"c"))?;
    Ok(text)
}

// Builds the dictionary of three keys.
fn built(alloc: Global) -> Result<TermDictionary, Fault> {
    let writer = CountingWriter::wrap(Vec::new(alloc));
    let mut builder = TermDictionaryBuilder::create(alloc, writer);
    let inserted = insert_three(&mut builder);
    let (writer, finished) = builder.finish();
    inserted.and(finished)?;
    TermDictionary::open(Bytes::from_vec(writer.finish())?)
}

// Inserts the keys a, ab and b.
fn insert_three<W: Write>(builder: &mut TermDictionaryBuilder<W>) -> Result<(), Fault>
    requires fresh { (builder.old.keys ≡ []) × (builder.old.infos ≡ []) }
    ensures whole { builder.new.closed ≡ false → length builder.new.keys ≡ length builder.new.infos }
{
    builder.insert_key(b"a")?;
    builder.insert_value(&term(1, 0, 10))?;
    builder.insert_key(b"ab")?;
    builder.insert_value(&term(2, 10, 20))?;
    builder.insert_key(b"b")?;
    builder.insert_value(&term(3, 30, 30))
}

// Returns the info of a term without positions.
fn term(doc_freq: u32, start: u32, len: u32) -> TermInfo
    requires near { start ≤ 1000 }
    requires short { len ≤ 1000 }
    ensures { result ≡ term_info_from doc_freq start (start + len) 0 0 }
{
    let (start, len) = (start as usize, len as usize);
    TermInfo {
        doc_freq,
        postings_range: start..start + len,
        positions_range: 0..0,
    }
}

// Appends the info of a term.
fn push_term(text: &mut String, info: Option<TermInfo>) -> Result<(), Fault> {
    let Some(info) = info else {
        write!(text, " not there")?;
        return Ok(());
    };
    let (count, start, end) = (
        info.doc_freq,
        info.postings_range.start,
        info.postings_range.end,
    );
    write!(text, " {count} in {start}..{end}")?;
    Ok(())
}
