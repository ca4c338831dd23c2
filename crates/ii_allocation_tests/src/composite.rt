ghost use Rattle.std.specs.Prelude.{◌≡◌, []};

use bytes::Bytes;
use ii_io::{CompositeFile, CompositeWrite, CountingWriter, Fault, Field};
use std::alloc::Global;
use std::io::Write;

/// Writes and opens a composite file of two bodies, and reads three fields.
pub fn read_back(alloc: Global) -> Result<String, Fault> {
    let file = written(alloc)?;
    let mut text = String::new(alloc);
    for id in [7, 1, 2] {
        write!(text, " {id} is")?;
        let Some(body) = file.open_read(Field::from_field_id(id))? else {
            text.push_str(" not there")?;
            continue;
        };
        for byte in body.as_slice() {
            write!(text, " {byte}")?;
        }
    }
    Ok(text)
}

// Writes the file of two bodies, opens it, and returns a copy.
fn written(alloc: Global) -> Result<CompositeFile, Fault> {
    let mut composite = CompositeWrite::wrap(alloc, CountingWriter::wrap(Vec::new(alloc)));
    let written = write_two(&mut composite);
    let (writer, closed) = composite.close();
    written.and(closed)?;
    Ok(CompositeFile::open(alloc, Bytes::from_vec(writer.finish())?)?.clone()?)
}

// Writes bodies of fields 7 and 1.
fn write_two<W: Write>(composite: &mut CompositeWrite<W>) -> Result<(), Fault>
    requires { composite.old.starts ≡ [] }
{
    composite
        .for_field(Field::from_field_id(7))?
        .write_all(&[5, 6])?;
    composite
        .for_field(Field::from_field_id(1))?
        .write_all(&[8])
}
