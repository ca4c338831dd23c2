ghost use Rattle.std.specs.Prelude.{IsSome};

use ii_base::{Fault, Field, JsonPathWriter};
use ii_indexing::{IndexingTerm, Recorder, TfAndPositionRecorder};
use std::alloc::Global;

// A text so long that appending it needs an allocation.
const LONG: &str = "a text of sixty-four letters and more, so that no first room for it is enough";

/// Lets a path, a term and a recorder grow twice. If the second step fails, the value must be as after the
/// first.
pub fn read_back(alloc: Global) -> Result<String, Fault> {
    let mut text = String::new(alloc);
    push_path(alloc, &mut text)?;
    push_term(alloc, &mut text)?;
    push_recorder(alloc, &mut text)?;
    Ok(text)
}

// Appends the length of a value. Returns the error of a step if the value is unchanged, and reports a change
// otherwise.
fn push(
    text: &mut String,
    name: &str,
    step: Result<(), Fault>,
    stays: bool,
    len: usize,
) -> Result<(), Fault> {
    match step {
        Ok(()) => write!(text, " {name} {len}")?,
        Err(fault) if stays => return Err(fault),
        Err(_) => write!(text, " {name} changed")?,
    }
    Ok(())
}

fn push_path(alloc: Global, text: &mut String) -> Result<(), Fault> {
    let mut writer = JsonPathWriter::new(alloc);
    writer.push("a")?;
    let step = writer.push(LONG);
    push(
        text,
        "path",
        step,
        writer.as_str() == "a",
        writer.as_str().len(),
    )
}

fn push_term(alloc: Global, text: &mut String) -> Result<(), Fault> {
    let mut term = IndexingTerm::with_capacity(alloc, 2)?;
    term.set_field(Field::from_field_id(1));
    term.set_bytes(b"ab")?;
    let step = match term.append_bytes(LONG.as_bytes()) {
        Ok(_) => Ok(()),
        Err(fault) => Err(fault),
    };
    let stays = term.serialized_term() == b"\0\0\0\x01ab".as_slice();
    push(text, "indexed term", step, stays, term.len_bytes())
}

// Records two positions of five bytes each. A position that failed is recorded again.
fn push_recorder(alloc: Global, text: &mut String) -> Result<(), Fault> {
    let mut recorder = TfAndPositionRecorder::new(alloc);
    recorder.new_doc(3)?;
    recorder.record_position(1_073_741_824)?;
    match recorder.record_position(1_073_741_825) {
        Ok(()) => {
            let step = recorder.close_doc();
            push(
                text,
                "recorder",
                step,
                recorder.term_doc_freq() == Some(1),
                2,
            )
        }
        Err(fault) => {
            let stays = takes_again(&mut recorder, 1_073_741_825);
            push(text, "recorder", Err(fault), stays, 0)
        }
    }
}

// Returns whether a document accepts a position that failed before, and stays the current one.
fn takes_again(recorder: &mut TfAndPositionRecorder, position: u32) -> bool
    requires { IsSome recorder.old.pending }
{
    let again = recorder.record_position(position);
    again.is_ok() && recorder.current_doc() == 3
}
