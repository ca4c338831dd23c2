//! What every layer of the index uses: faults, counting writers, and the encoding of numbers.
#![tactic(auto)]

pub mod composite_file;
pub mod counted_calls;
pub mod counting_writer;
pub mod failing_reader;
pub mod failing_writer;
pub mod faults;
pub mod field;
pub mod ghost_counter;
pub mod has_len;
pub mod serialize;
pub mod vint;
pub mod write_calls;

pub use composite_file::composite_read::CompositeFile;
pub use composite_file::composite_write::CompositeWrite;
pub use counted_calls::CountedCalls;
pub use counting_writer::CountingWriter;
pub use failing_reader::FailingReader;
pub use failing_writer::FailingWriter;
pub use faults::{Fault, LayoutFault, LeafKind, LimitName, Part};
pub use field::Field;
pub use ghost_counter::GhostCounter;
pub use has_len::HasLen;
pub use serialize::{BinarySerializable, FixedSize};
pub use write_calls::{AnyWriter, WriteCalls};
