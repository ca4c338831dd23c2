ghost use Rattle.std.specs.Prelude.{◌≡◌, ◌++◌, ◌<◌, string_bytes, IfOk, OnOk, IsTrue};
ghost use Rattle.ii_base.specs.declared.doc_id.TheConstants.{TERMINATED};
ghost use Rattle.ii_docset.specs.Cursor.{doc_at};
ghost use Rattle.ii_base.specs.Entries.{are_documents, document};
ghost use Rattle.iiq.specs.Commands.{documents_of_words};
ghost use Rattle.iiq.specs.Words.{written_hex};
ghost use Rattle.ii_layout.specs.Written.{written_documents};
ghost use Rattle.iiq.specs.Output.{found_text, item_at, list_text, part_name, positions_text};

use ii_base::{CountingWriter, IndexRecordOption, Part};
use ii_docset::{DocSet, Postings, TERMINATED};
use ii_layout::PostingsSerializer;
use ii_reader::SegmentPostings;
use std::alloc::{AllocError, Global};

/// Returns the encoded postings of `docs`.
pub fn written(alloc: Global, docs: &[u32]) -> Result<Vec<u8>, AllocError>
    requires { IsTrue (are_documents docs.now) }
    ensures { IfOk result (λ bytes. bytes.items ≡ written_documents docs.now) }
{
    let mut output = CountingWriter::wrap(Vec::new(alloc));
    let mut serializer = PostingsSerializer::new(alloc, IndexRecordOption::Basic, None);
    serializer.new_term(docs.len() as u32, false);
    for doc in docs {
        if serializer.write_doc(*doc, 1).is_err() {
            return Err(AllocError);
        }
    }
    if serializer
        .close_term(docs.len() as u32, &mut output)
        .is_err()
    {
        return Err(AllocError);
    }
    Ok(output.finish())
}

/// Returns the lower case hexadecimal digits of `bytes`, or a dash if there are none.
pub fn hex_text(alloc: Global, bytes: &[u8]) -> Result<String, AllocError>
    ensures { IfOk result (λ text. string_bytes text ≡ written_hex bytes.now) }
{
    if bytes.is_empty() {
        return String::from_str(alloc, "-");
    }
    hex::encode(alloc, bytes)
}

/// Appends the remaining documents of a cursor to a text, separated by spaces, or a dash if there are
/// none. Term frequencies and positions are included if the option asks for them.
pub fn push_list(
    alloc: Global,
    text: &mut String,
    cursor: &mut SegmentPostings,
    option: IndexRecordOption,
) -> Result<(), AllocError>
    ensures { OnOk result (string_bytes text.new ≡ string_bytes text.old ++ list_text option cursor.old.rest) }
{
    let first = cursor.doc();
    if first == TERMINATED {
        return text.push('-');
    }
    let mut positions = Vec::new(alloc);
    push_item(text, cursor, option, &mut positions)?;
    let mut doc = cursor.advance();
    while doc != TERMINATED {
        text.push(' ')?;
        push_item(text, cursor, option, &mut positions)?;
        doc = cursor.advance();
    }
    Ok(())
}

/// Appends the remaining documents of a cursor to a text, separated by spaces, or `none`.
pub fn push_found<D: DocSet>(text: &mut String, cursor: &mut D) -> Result<(), AllocError>
    ensures { OnOk result (string_bytes text.new ≡ string_bytes text.old ++ found_text (D.rest cursor.old)) }
{
    let first = cursor.doc();
    if first == TERMINATED {
        return text.push_str("none");
    }
    write!(text, "{first}")?;
    let mut doc = cursor.advance();
    while doc != TERMINATED {
        write!(text, " {doc}")?;
        doc = cursor.advance();
    }
    Ok(())
}

// Appends the current document of a cursor to a text, with its term frequency and positions if the
// option asks for them. These positions are then left in `positions`.
fn push_item(
    text: &mut String,
    cursor: &mut SegmentPostings,
    option: IndexRecordOption,
    positions: &mut Vec<u32>,
) -> Result<(), AllocError>
    requires { doc_at cursor.old.rest < TERMINATED }
    ensures item { OnOk result (string_bytes text.new ≡ string_bytes text.old ++ item_at option cursor.old.rest) }
    ensures rest { cursor.new.rest ≡ cursor.old.rest }
{
    let doc = cursor.doc();
    if !option.has_freq() {
        return write!(text, "{doc}");
    }
    let count = cursor.term_freq();
    write!(text, "{doc}:{count}")?;
    if !option.has_positions() {
        return Ok(());
    }
    text.push(':')?;
    if cursor.positions(positions).is_err() {
        return Err(AllocError);
    }
    push_numbers(text, positions)
}

// Appends numbers to a text, separated by commas.
fn push_numbers(text: &mut String, numbers: &[u32]) -> Result<(), AllocError>
    ensures { OnOk result (string_bytes text.new ≡ string_bytes text.old ++ positions_text numbers.now) }
{
    let Some((first, others)) = numbers.split_first() else {
        return Ok(());
    };
    write!(text, "{first}")?;
    for number in others {
        write!(text, ",{number}")?;
    }
    Ok(())
}

/// Returns the name of a part of a term's bytes.
pub fn name_of(part: Part) -> &'static str
    ensures { result.now ≡ part_name part }
{
    match part {
        Part::Skip => "skip",
        Part::Documents => "documents",
        Part::Frequencies => "frequencies",
        Part::Positions => "positions",
        _ => "",
    }
}
