//! The norm ids of documents.
ghost use Rattle.std.specs.Prelude.{◌≡◌};
ghost use Rattle.ii_block_shares.specs.NormIds.{id_among};

use ii_base::DocId;
use ii_fieldnorm::FieldNormReader;

/// Returns the norm id of a document, that of the norm 1 if the field has none for it.
pub fn norm_id(norms: &Option<FieldNormReader>, doc: DocId) -> u8
    ensures { result ≡ id_among norms.now doc }
{
    match norms {
        Some(norms) => {
            if doc < norms.num_docs() {
                norms.fieldnorm_id(doc)
            } else {
                1
            }
        }
        None => 1,
    }
}
