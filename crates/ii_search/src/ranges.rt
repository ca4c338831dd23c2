ghost use Rattle.std.specs.Prelude.{◌≡◌, ◌<◌, ℕ, List, Ok, Some, IfErr, IfOk, OnOk, true};
ghost use Rattle.ii_base.specs.declared.schema.index_record_option.IndexRecordOption.TheVariants.{Basic};
ghost use Rattle.ii_query.specs.BitSet.{docs_of_set};
ghost use Rattle.ii_query.specs.Combined.{union_of};
ghost use Rattle.ii_query_parser.specs.Ranges.{in_range};
ghost use Rattle.ii_reader.specs.InvertedIndexReader.{IsRefusal};
ghost use Rattle.ii_search.specs.Found.{combined_lists, docs_under, range_lists};
ghost use Rattle.ii_search.specs.Ranges.{AddsIfInRange, AddsList};

use ii_base::{Fault, IndexRecordOption};
use ii_docset::DocSet;
use ii_query::BitSet;
use ii_query_parser::TermRange;
use ii_reader::InvertedIndexReader;
use std::alloc::Global;

// Returns the documents of the terms of a field in a range.
pub(crate) fn docs_in_range(
    alloc: Global,
    reader: &InvertedIndexReader,
    range: &TermRange,
) -> Result<BitSet, Fault>
    ensures listed { IfOk result (λ docs. combined_lists union_of (range_lists range.now (Some reader.now)) ≡ Ok (docs_of_set docs)) }
    ensures refused { IfErr result (IsRefusal (combined_lists union_of (range_lists range.now (Some reader.now)))) }
{
    let terms = reader.terms();
    let mut docs = BitSet::new(alloc);
    for ord in 0..terms.num_terms() {
        let key = terms.key(ord as u64);
        if let Err(fault) = add_if_in_range(reader, range, key, &mut docs) {
            return Err(fault);
        }
    }
    Ok(docs)
}

// Adds the documents of a key, if a range has the key.
fn add_if_in_range(
    reader: &InvertedIndexReader,
    range: &TermRange,
    key: &[u8],
    docs: &mut BitSet,
) -> Result<(), Fault>
    ensures added { OnOk result (AddsIfInRange (docs_under Basic key.now (Some reader.now)) (in_range range.now key.now) docs.old docs.new) }
    ensures refused { IfErr result (λ fault. (in_range range.now key.now ≡ true) × IsRefusal (docs_under Basic key.now (Some reader.now)) fault) }
{
    if !range.contains(key) {
        return Ok(());
    }
    add_key(reader, key, docs)
}

// Adds the documents of a key.
fn add_key(reader: &InvertedIndexReader, key: &[u8], docs: &mut BitSet) -> Result<(), Fault>
    ensures added { OnOk result (AddsList (docs_under Basic key.now (Some reader.now)) docs.old docs.new) }
    ensures refused { IfErr result (IsRefusal (docs_under Basic key.now (Some reader.now))) }
{
    let Some(info) = reader.terms().get(key) else {
        return Ok(());
    };
    let mut cursor = match reader.read_postings_from_terminfo(&info, IndexRecordOption::Basic) {
        Ok(cursor) => cursor,
        Err(fault) => return Err(fault),
    };
    // that documents ascend, for the proof
    let _first = cursor.doc();
    let added = docs.insert_all(&mut cursor);
    drop(cursor);
    added
}
