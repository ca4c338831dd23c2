// Which damage is found.
ghost use Rattle.std.specs.Prelude.{◌≡◌, [], IfOk};

use ii_base::{Fault, Schema};
use ii_damage::{FoundDamage, Totals, find_damages};
use ii_tokenizers::FieldAnalyzers;
use nequllpa_indexing::{Documents, store};
use std::alloc::Global;

/// No damage is found in an index that was built from lines, with the texts of each field split by its analyzer.
pub fn indexed_lines_are_not_damaged<F: FieldAnalyzers>(
    alloc: Global,
    documents: Documents,
    analyzers: &F,
    schema: &Schema,
    schema_text: Vec<u8>,
) -> Result<Vec<FoundDamage>, Fault>
    requires { schema.now ≡ documents.schema }
    ensures { IfOk result (λ found. found.items ≡ []) }
{
    let mut totals = Totals::nothing();
    match store(alloc, documents, analyzers, schema_text) {
        Ok(stored) => find_damages(alloc, schema, stored, &mut totals),
        Err(fault) => Err(fault),
    }
}
