//! Says for which keys an index stores term frequencies.
ghost use Rattle.std.specs.Prelude.{◌≡◌};
ghost use Rattle.ii_damage.specs.Damages.{all_keep_counts, keeps_counts};

use ii_base::FieldEntry;
use ii_reader::{InvertedIndexReader, is_key_of_text};

// Returns whether term frequencies are stored for each key of a field.
pub(crate) fn all_keep_counts(entry: &FieldEntry, reader: &InvertedIndexReader) -> bool
    ensures { result ≡ all_keep_counts entry.now reader.now }
{
    let mut terms = reader.terms().stream();
    for _ord in 0..reader.terms().num_terms() {
        let Some((key, _)) = terms.next() else {
            return true;
        };
        if !keeps_counts(entry, key) {
            return false;
        }
    }
    true
}

// Returns whether term frequencies are stored for a key of a field.
fn keeps_counts(entry: &FieldEntry, key: &[u8]) -> bool
    ensures { result ≡ keeps_counts entry.now key.now }
{
    entry.index_record_option().has_freq() & is_key_of_text(entry.value_type(), key)
}
