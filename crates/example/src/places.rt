// Where a word occurs in the texts.
ghost use Rattle.std.specs.Prelude.{◌<◌, length};

use nequllpa::{DocSet, Field, OpenIndex, Postings, TERMINATED, Term};

// Prints each document of the word with its positions.
pub(crate) fn print(rt: &HostRuntime, index: &OpenIndex) -> anyhow::Result<()>
    requires { 0 < length index.now.readers }
{
    let term = Term::from_field_text(rt.alloc(), Field::from_field_id(0), "the")?;
    let reader = index.reader(term.field());
    let Some(mut cursor) = reader.read_postings(&term, reader.record_option())? else {
        return Ok(());
    };
    let mut positions = Vec::new(rt.alloc());
    for _ in 0..cursor.doc_freq() {
        if cursor.doc() >= TERMINATED {
            return Ok(());
        }
        cursor.positions(&mut positions)?;
        println!(rt; "{} at {:?}", cursor.doc(), positions)?;
        cursor.advance();
    }
    Ok(())
}
