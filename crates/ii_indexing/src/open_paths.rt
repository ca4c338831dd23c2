ghost use Rattle.std.specs.Prelude.{◌≡◌, ◌<◌, ◌==◌, ℕ, if◌then◌else◌, length, map, slice_get, slice_set, Some, IfOk, OnOk};
ghost use Rattle.ii_io.specs.Faults.{OnlyMemory};
ghost use Rattle.ii_base.specs.Schema.{SchemaEntry};
ghost use Rattle.ii_indexing.specs.OpenPaths.{OpenPathsState, PutsPosition, no_paths, opened_path, position_by};

use crate::indexing_positions_per_path::IndexingPositionsPerPath;
use ii_base::{DocId, Fault, Field, Schema};
use ii_postings_writer::IndexingPosition;
use std::alloc::Global;
use std::marker::Model;

/// The last opened document of a field, and its texts path by path.
#[derive(Drop)]
pub(crate) struct FieldPaths {
    doc: DocId,
    positions: IndexingPositionsPerPath,
}

impl Model for FieldPaths {
    ghost use Rattle.ii_indexing.specs.OpenPaths.{OpenPathsState};

    ghost Value = { OpenPathsState };

    ghost view = { λ p. record { doc = p.doc; positions = p.positions } };
}

impl FieldPaths {
    // Opens document 0, without texts.
    pub(crate) fn new(alloc: Global) -> FieldPaths
        ensures { result ≡ no_paths }
    {
        FieldPaths {
            doc: 0,
            positions: IndexingPositionsPerPath::new(alloc),
        }
    }

    // Opens a document. The document before must not be greater.
    pub(crate) fn open(&mut self, doc: DocId)
        ensures { self.new ≡ opened_path doc self.old }
    {
        if self.doc != doc {
            self.positions.clear();
            self.doc = doc;
        }
    }

    // Returns the state of the texts at the path with this id.
    pub(crate) fn position(&self, path_id: u32) -> IndexingPosition
        ensures { result ≡ position_by path_id self.now.positions }
    {
        self.positions.position(path_id)
    }

    // Replaces the state of the texts at the path with this id.
    pub(crate) fn put(&mut self, path_id: u32, position: IndexingPosition) -> Result<(), Fault>
        ensures doc { OnOk result (self.new.doc ≡ self.old.doc) }
        ensures ok { OnOk result ((other : ℕ) → position_by other self.new.positions ≡ (if path_id == other then position else position_by other self.old.positions)) }
        ensures only { OnlyMemory result }
    {
        self.positions.put(path_id, position)
    }
}

/// The last opened document of each field, and its texts path by path.
pub(crate) struct OpenPaths {
    fields: Vec<FieldPaths>,
}

// Makes each drop a call.
impl Drop for OpenPaths {
    fn drop(self) {
        let OpenPaths { fields: _ } = self;
    }
}

impl Model for OpenPaths {
    ghost use Rattle.std.specs.Prelude.{List};
    ghost use Rattle.ii_indexing.specs.OpenPaths.{OpenPathsState};

    ghost Value = { List OpenPathsState };

    ghost view = { λ p. p.fields.items };
}

impl OpenPaths {
    // Opens document 0 of each field, without texts.
    pub(crate) fn new(alloc: Global, schema: &Schema) -> Result<OpenPaths, Fault>
        ensures ok { IfOk result (λ paths. paths ≡ map (λ (e : SchemaEntry). no_paths) schema.now) }
        ensures only { OnlyMemory result }
    {
        let mut fields = Vec::with_capacity(alloc, schema.num_fields())?;
        for (_field, _entry) in schema.fields() {
            fields.push(FieldPaths::new(alloc))?;
        }
        Ok(OpenPaths { fields })
    }

    // Opens a document in a field, and returns the state of its texts at the path with this id. The
    // document before must not be greater.
    pub(crate) fn open(&mut self, doc: DocId, field: Field, path_id: u32) -> IndexingPosition
        requires known { field < length self.old }
        ensures opened { (o : OpenPathsState) → slice_get self.old field ≡ Some o → self.new ≡ slice_set self.old field (opened_path doc o) }
        ensures position { (o : OpenPathsState) → slice_get self.old field ≡ Some o → result ≡ position_by path_id (opened_path doc o).positions }
    {
        let paths = &mut self.fields[field.field_id() as usize];
        paths.open(doc);
        paths.position(path_id)
    }

    // Replaces the state of the texts at the path with this id, in a field.
    pub(crate) fn put(
        &mut self,
        field: Field,
        path_id: u32,
        position: IndexingPosition,
    ) -> Result<(), Fault>
        requires known { field < length self.old }
        ensures ok { OnOk result ((o : OpenPathsState) → slice_get self.old field ≡ Some o → PutsPosition field path_id position self.old self.new o) }
        ensures only { OnlyMemory result }
    {
        self.fields[field.field_id() as usize].put(path_id, position)
    }
}
