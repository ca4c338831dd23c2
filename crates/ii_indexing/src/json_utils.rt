ghost use Rattle.std.specs.Prelude.{◌≡◌, ◌<◌, ◌++◌, ◌∷◌, [], List, ℕ, true, false, length, IfOk, OnOk};
ghost use Rattle.std.specs.List.{flat_map};
ghost use Rattle.ii_base.specs.Json.{json_leaves, json_of};
ghost use Rattle.ii_base.specs.Schema.{SchemaEntry};
ghost use Rattle.ii_base.specs.declared.schema.value_type.ValueType.TheVariants.{Json};
ghost use Rattle.ii_base.specs.declared.doc_id.TheConstants.{TERMINATED};
ghost use Rattle.ii_definitions.specs.Fields.{option_of};
ghost use Rattle.ii_definitions.specs.Tokens.{Piece, leaf_pieces};
ghost use Rattle.ii_json.specs.LeafVisit.{IsRefusedBy, leaves_fault};
ghost use Rattle.ii_definitions.specs.IndexCalls.{Takes};
ghost use Rattle.ii_indexing.specs.Indexer.{EndsAt, StoresAll};
ghost use Rattle.ii_indexing.specs.OpenDocuments.{with_norms};
ghost use Rattle.ii_indexing.specs.Refusals.{next_leaf_fault};

use crate::indexed_fields::IndexedFields;
use ii_base::{DocId, Fault, Field, JsonLeaf, JsonPathWriter, JsonValue, TextAnalyzer};
use ii_json::{LeafSink, visit_leaves};
use std::alloc::Global;

/// Indexes the leaves of a JSON value in a field of a document.
#[derive(Drop)]
struct LeafIndexer<'a, A: TextAnalyzer> {
    fields: &'a mut IndexedFields,
    analyzer: &'a A,
    doc: DocId,
    field: Field,
    alloc: Global,
}

impl<A: TextAnalyzer> LeafSink for LeafIndexer<'_, A> {
    ghost use Rattle.std.specs.Prelude.{◌<◌, ◌++◌, length};
    ghost use Rattle.std.specs.List.{flat_map};
    ghost use Rattle.ii_base.specs.declared.schema.value_type.ValueType.TheVariants.{Json};
    ghost use Rattle.ii_base.specs.declared.doc_id.TheConstants.{TERMINATED};
    ghost use Rattle.ii_definitions.specs.Fields.{option_of};
    ghost use Rattle.ii_definitions.specs.Tokens.{leaf_pieces};
    ghost use Rattle.ii_definitions.specs.IndexCalls.{Takes};
    ghost use Rattle.ii_indexing.specs.Indexer.{EndsAt, LeafConstant, LeafGiven, StoresAll};
    ghost use Rattle.ii_indexing.specs.OpenDocuments.{with_norms};
    ghost use Rattle.ii_indexing.specs.Refusals.{next_leaf_fault};

    ghost Given = { LeafGiven };

    ghost Constant = { LeafConstant };

    ghost constant = { λ s. record {
      doc = s.doc;
      field = s.field;
      words = A.words s.analyzer.now;
      reference = s.fields.ghost_name;
      writers = length s.fields.now.indexed.writers;
      norms = with_norms s.fields.now.opened.norms;
    } };

    ghost ready = { λ s. (s.doc < TERMINATED) × (s.field < length s.fields.now.indexed.writers) × EndsAt s.doc s.fields.now };

    ghost holds = { λ s given leaves. Takes given.entries s.field Json
        × StoresAll given.entries s.fields.now (given.pieces ++ flat_map (leaf_pieces (A.words s.analyzer.now) s.doc s.field) leaves) };

    ghost fault = { λ k given before leaf. next_leaf_fault k.words (option_of given.entries k.field) given.pieces k.doc k.field before leaf };

    fn take_leaf(&mut self, path: &str, leaf: JsonLeaf<'_>) -> Result<(), Fault> {
        match leaf {
            JsonLeaf::Text(text) => {
                let mut tokens = self.analyzer.token_stream(self.alloc, text)?;
                self.fields
                    .index_text_at(self.doc, self.field, path, &mut tokens)
            }
            JsonLeaf::Value(value_type, number) => self
                .fields
                .index_number_at(self.doc, self.field, path, value_type, number),
            JsonLeaf::Unsupported(kind) => Err(Fault::UnsupportedLeaf(kind)),
        }
    }
}

/// Indexes the leaves of a JSON value in a document of a JSON field, each under its path. `analyzer`
/// splits a text into tokens, and any other leaf is one term. `expand_dots` says whether dots in keys
/// separate the segments of a path.
///
/// `doc` must not be less than the documents that were indexed before.
///
/// # Errors
///
/// Returns the first fault, leaf by leaf and word by word, as `Indexer::index` does. Returns
/// `OutOfMemory` if an allocation fails. After a fault the content of `fields` is unspecified.
pub fn index_json_value<A: TextAnalyzer>(
    alloc: Global,
    fields: &mut IndexedFields,
    doc: DocId,
    field: Field,
    value: &JsonValue,
    expand_dots: bool,
    analyzer: &A,
) -> Result<(), Fault>
    requires low { doc < TERMINATED }
    requires known { field < length fields.old.indexed.writers }
    requires ends { EndsAt doc fields.old }
    ensures stored { OnOk result ((entries : List SchemaEntry) (ps : List Piece) → Takes entries field Json → StoresAll entries fields.old ps
        → StoresAll entries fields.new (ps ++ flat_map (leaf_pieces (A.words analyzer.now) doc field) (json_leaves expand_dots (json_of value.now)))) }

    // Preconditions of the next call.
    ensures ends { OnOk result (EndsAt doc fields.new) }
    ensures fields { OnOk result (length fields.new.indexed.writers ≡ length fields.old.indexed.writers) }
    ensures norms { OnOk result (with_norms fields.new.opened.norms ≡ with_norms fields.old.opened.norms) }

    // Errors.
    ensures refused { (entries : List SchemaEntry) (ps : List Piece) → Takes entries field Json → StoresAll entries fields.old ps
        → IsRefusedBy (leaves_fault (next_leaf_fault (A.words analyzer.now) (option_of entries field) ps doc field) [] (json_leaves expand_dots (json_of value.now))) result }
{
    let mut writer = JsonPathWriter::new(alloc);
    writer.set_expand_dots(expand_dots);
    let mut sink = LeafIndexer {
        fields,
        analyzer,
        doc,
        field,
        alloc,
    };
    visit_leaves(alloc, value, &mut writer, &mut sink)
}
