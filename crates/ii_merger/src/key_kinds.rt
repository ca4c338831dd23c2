ghost use Rattle.std.specs.Prelude.{◌≡◌};
ghost use Rattle.ii_merger.specs.MergedField.{kind_under};

use ii_base::{FieldEntry, IndexRecordOption};
use ii_reader::is_key_of_text;

// Returns what a field keeps of the entries of a key: of those of a value only documents.
pub(crate) fn kind_under(entry: &FieldEntry, key: &[u8]) -> IndexRecordOption
    ensures { result ≡ kind_under entry.now key.now }
{
    if is_key_of_text(entry.value_type(), key) {
        entry.index_record_option()
    } else {
        IndexRecordOption::Basic
    }
}
