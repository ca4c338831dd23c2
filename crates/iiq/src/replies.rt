ghost use Rattle.std.specs.Prelude.{◌≡◌, ◌++◌, List, ℕ, IsTrue, IfOk, IfSome, string_bytes, option_map, map};
ghost use Rattle.std.specs.Option.{option_copied};
ghost use Rattle.std.specs.List.{join_with_byte};
ghost use Rattle.std.specs.Str.{IsUtf8};
ghost use Rattle.ii_base.specs.Entries.{are_documents, document};
ghost use Rattle.ii_layout.specs.Written.{written_documents};
ghost use Rattle.iiq.specs.Commands.{Command, ids_command, look_up_command, open_command, query_command, text_search, command_of};
ghost use Rattle.iiq.specs.Known.{Answers, AnswersAlone, IsCall, IsReply, IsSession, Knows, call_command, open_texts};
ghost use Rattle.iiq.specs.Output.{ids_texts, with_ends};
ghost use Rattle.iiq.specs.Session.{Session as SessionState};
ghost use Rattle.iiq.specs.Words.{AreTexts, parts_left};

use crate::commands::{
    CommandSet, Opening, documents, leaf_call, list_to_open, num_call, term_to_look_up, text_call,
    text_of,
};
use crate::output::{hex_text, name_of, push_list, written};
use crate::parts::{Parts, cut};
use crate::session::{Session, query_of_text};
use bytes::Bytes;
use ii_base::{IndexRecordOption, LayoutFault};
use ii_indexing::IndexCall;
use ii_layout::written::reads_documents_back;
use ii_reader::SegmentPostings;
use std::alloc::{AllocError, Global};

/// Returns the reply to a line: nothing for an empty line, and `error line` for a malformed line or
/// an index call that isn't kept.
pub fn reply(
    alloc: Global,
    commands: CommandSet,
    session: &mut Session,
    line: &[u8],
) -> Result<String, AllocError>
    requires { IsSession session.old }
    ensures { (s : SessionState) → Knows session.old s → IfOk result (λ text. IsReply commands s line.now session.new (string_bytes text)) }
{
    if line.is_empty() {
        return Ok(String::new(alloc));
    }
    let Ok(_) = std::str::from_utf8(line) else {
        return String::from_str(alloc, "error line\n");
    };
    match command_reply(alloc, commands, session, line)? {
        Some(text) => Ok(text),
        None => String::from_str(alloc, "error line\n"),
    }
}

fn command_reply(
    alloc: Global,
    commands: CommandSet,
    session: &mut Session,
    line: &[u8],
) -> Result<Option<String>, AllocError>
    requires session { IsSession session.old }
    requires text { IsUtf8 line.now }
    ensures { (s : SessionState) → Knows session.old s → IfOk result (λ reply. Answers s (command_of commands line.now) session.new (option_map string_bytes reply)) }
{
    let (word, rest) = cut(line, b' ');
    if word == b"text".as_slice() {
        let call = text_call(alloc, rest)?;
        return call_reply(alloc, session, call);
    }
    let mut words = Parts::left(rest, b' ');
    if word == b"num".as_slice() {
        let call = num_call(&mut words);
        return call_reply(alloc, session, call);
    }
    if word == b"leaf".as_slice() {
        let call = leaf_call(alloc, &mut words)?;
        return call_reply(alloc, session, call);
    }
    if word == b"?".as_slice() {
        return match commands {
            CommandSet::WithQueries => question_reply(alloc, session, rest),
            CommandSet::Strict => query_reply(alloc, session, &mut words),
        };
    }
    if word == b"ids".as_slice() {
        return ids_reply(alloc, &mut words);
    }
    if word == b"open".as_slice() {
        return open_reply(alloc, &mut words);
    }
    Ok(None)
}

// Keeps a call, without output.
fn call_reply(
    alloc: Global,
    session: &mut Session,
    call: Option<IndexCall>,
) -> Result<Option<String>, AllocError>
    requires session { IsSession session.old }
    requires call { IfSome call IsCall }
    ensures { (s : SessionState) → Knows session.old s → IfOk result (λ reply. Answers s (option_map call_command call) session.new (option_map string_bytes reply)) }
{
    let Some(call) = call else {
        return Ok(None);
    };
    if session.keep(call)? {
        Ok(Some(String::new(alloc)))
    } else {
        Ok(None)
    }
}

fn query_reply(
    alloc: Global,
    session: &mut Session,
    words: &mut Parts<'_>,
) -> Result<Option<String>, AllocError>
    requires session { IsSession session.old }
    requires words { AreTexts words.old }
    ensures { (s : SessionState) → Knows session.old s → IfOk result (λ reply. Answers s (look_up_command words.old) session.new (option_map string_bytes reply)) }
{
    let Some(query) = term_to_look_up(alloc, words)? else {
        return Ok(None);
    };
    let mut text = session.look_up(alloc, &query)?;
    text.push('\n')?;
    Ok(Some(text))
}

// Replies to what follows the question mark: the text of a query, or the words of a lookup.
fn question_reply(
    alloc: Global,
    session: &mut Session,
    rest: Option<&[u8]>,
) -> Result<Option<String>, AllocError>
    requires session { IsSession session.old }
    requires text { IfSome rest (λ text. IsUtf8 text.now) }
    ensures { (s : SessionState) → Knows session.old s → IfOk result (λ reply. Answers s (query_command (parts_left 32 (option_copied rest.entry))) session.new (option_map string_bytes reply)) }
{
    let Some(text) = rest else {
        return Ok(None);
    };
    let (word, behind) = cut(text, b' ');
    if word == b"query".as_slice() {
        return search_reply(alloc, session, behind);
    }
    let mut words = Parts::left(rest, b' ');
    query_reply(alloc, session, &mut words)
}

// Returns the documents that match a text.
fn search_reply(
    alloc: Global,
    session: &mut Session,
    text: Option<&[u8]>,
) -> Result<Option<String>, AllocError>
    requires session { IsSession session.old }
    requires text { IfSome text (λ t. IsUtf8 t.now) }
    ensures { (s : SessionState) → Knows session.old s → IfOk result (λ reply. Answers s (text_search (join_with_byte 32 (parts_left 32 (option_copied text.entry)))) session.new (option_map string_bytes reply)) }
{
    let text = text_of(alloc, text)?;
    let Some(query) = query_of_text(alloc, text.as_str())? else {
        return Ok(None);
    };
    let mut reply = session.search(alloc, query)?;
    reply.push('\n')?;
    Ok(Some(reply))
}

fn ids_reply(alloc: Global, words: &mut Parts<'_>) -> Result<Option<String>, AllocError>
    ensures { IfOk result (λ reply. AnswersAlone (ids_command words.old) (option_map string_bytes reply)) }
{
    let Some(docs) = documents(alloc, words)? else {
        return Ok(None);
    };
    Ok(Some(ids_text(alloc, &docs)?))
}

// Returns the bytes of a list of documents, and the list read back from them.
fn ids_text(alloc: Global, docs: &[u32]) -> Result<String, AllocError>
    requires { IsTrue (are_documents docs.now) }
    ensures { IfOk result (λ text. string_bytes text ≡ with_ends (ids_texts docs.now)) }
{
    let bytes = written(alloc, docs)?;
    let mut text = hex_text(alloc, &bytes)?;
    text.push('\n')?;
    let mut cursor = reopened(docs, Bytes::from_vec(bytes)?);
    push_list(alloc, &mut text, &mut cursor, IndexRecordOption::Basic)?;
    text.push('\n')?;
    Ok(text)
}

// Opens a cursor over the list that was written.
fn reopened(docs: &[u32], postings: Bytes) -> SegmentPostings
    requires ascending { IsTrue (are_documents docs.now) }
    requires written { postings ≡ written_documents docs.now }
    ensures { result.rest ≡ map document docs.now }
{
    reads_documents_back();
    let basic = IndexRecordOption::Basic;
    match SegmentPostings::open(docs.len() as u32, postings, None, basic, basic) {
        Ok(cursor) => cursor,
        Err(_) => unreachable!(),
    }
}

fn open_reply(alloc: Global, words: &mut Parts<'_>) -> Result<Option<String>, AllocError>
    ensures { IfOk result (λ reply. AnswersAlone (open_command words.old) (option_map string_bytes reply)) }
{
    let Some(opening) = list_to_open(alloc, words)? else {
        return Ok(None);
    };
    Ok(Some(open_text(alloc, opening)?))
}

// Returns the list that bytes give, or their damaged part.
fn open_text(alloc: Global, opening: Opening) -> Result<String, AllocError>
    ensures { IfOk result (λ text. string_bytes text ≡ with_ends (open_texts opening)) }
{
    let mut text = String::new(alloc);
    let option = opening.record_option.downgrade(opening.requested_option);
    let opened = SegmentPostings::open(
        opening.doc_freq,
        opening.postings,
        opening.positions,
        opening.record_option,
        opening.requested_option,
    );
    match opened {
        Ok(mut cursor) => push_list(alloc, &mut text, &mut cursor, option)?,
        Err(LayoutFault::Damaged(part)) => {
            text.push_str("damaged ")?;
            text.push_str(name_of(part))?;
        }
    }
    text.push('\n')?;
    Ok(text)
}
