ghost use Rattle.std.specs.Prelude.{◌≡◌, []};
ghost use Rattle.ii_base.specs.Values.{text_key, typed_key};
ghost use Rattle.ii_postings_writer.specs.ResolvedTerms.{held_value};

use ii_base::ValueType;

// Returns the prefix of a text's keys at a path, as terms hold it: the path's id and the letter of
// texts.
#[tactic(auto, unfolding(ii_postings_writer::specs::IndexingTerm::field_bytes))]
pub(crate) fn held_text(path_id: u32) -> [u8; 5]
    ensures { result ≡ held_value path_id (text_key []) }
{
    let id = path_id.to_be_bytes();
    [id[0], id[1], id[2], id[3], ValueType::Str.to_code()]
}

// Returns the key of a number at a path, as terms hold it: the path's id, the letter of its type, and
// 8 bytes, big-endian.
#[tactic(auto, unfolding(ii_postings_writer::specs::IndexingTerm::field_bytes))]
pub(crate) fn held_number(path_id: u32, value_type: ValueType, number: u64) -> [u8; 13]
    ensures { result ≡ held_value path_id (typed_key value_type number) }
{
    let mut held = [0; 13];
    held[..4].copy_from_slice(&path_id.to_be_bytes());
    held[4] = value_type.to_code();
    held[5..].copy_from_slice(&number.to_be_bytes());
    held
}
