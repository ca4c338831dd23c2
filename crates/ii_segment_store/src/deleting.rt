//! Deletes documents, and adds a segment with them, so that a stop leaves the old index or the new one.
ghost use Rattle.std.specs.Prelude.{◌≡◌, ◌<◌, ◌≤◌, ◌+◌, ◌^◌, ◌∷◌, ◌++◌, [], Bool, IfErr, IfOk, List, Ok, OnOk, Some, filter, get_or, length, map, nat_lt, true, ℕ};
ghost use Rattle.std.specs.Option.{option_map};
ghost use Rattle.ii_alive.specs.AliveBytes.{alive_bytes};
ghost use Rattle.ii_store.specs.declared.index_meta.FileMeta.{FileMeta};
ghost use Rattle.ii_directory.specs.declared.name.Name.TheVariants.{Meta, Segment};
ghost use Rattle.ii_directory.specs.declared.name.SegmentComponent.TheVariants.{Alive};
ghost use Rattle.ii_directory.specs.declared.faults.DirectoryFault.TheVariants.{OutOfMemory};
ghost use Rattle.ii_directory.specs.Directory.{Elapses, Elsewhere, IsPut, IsRefusal, Obeys};
ghost use Rattle.ii_store.specs.Faults.{IsRefused};
ghost use Rattle.ii_alive.specs.Alive.{num_living};
ghost use Rattle.ii_store.specs.IndexMeta.{SegmentState, is_segment, meta_view, segment_view};
ghost use Rattle.ii_directory.specs.Names.{component_number};
ghost use Rattle.ii_store.specs.Segments.{list_in};
ghost use Rattle.ii_segment_store.specs.Changes.{AreChanged, FailsForFlags, IsChangeFault, IsChangedTo, IsDeleteFault, IsFlaggedList, IsFlagsFault, IsListFault, KeepsButFlags, KeepsOlder, changed_index, files_with_flags, first_uncounted, index_without, is_uncounted, latest_file, latest_generation, with_flags, without};
ghost use Rattle.ii_segment_store.specs.Commits.{HoldsOldOr, IsRefusedCommit, LeavesOneIndex};
ghost use Rattle.ii_segment_store.specs.Contents.{files_contents, index_contents, list_contents};

use crate::committing::commit_segment;
use crate::faults::{CommitFault, memory_fault};
use crate::loading::{file_of, load_flags};
use crate::pending::PendingSegments;
use crate::stored_segments::SegmentFiles;
use ii_alive::AliveBits;
use ii_base::{CountingWriter, DocId};
use ii_store::segments::load_meta;
use ii_store::{
    Directory, DirectoryFault, FileMeta, Generation, IndexMeta, Name, SegmentComponent, SegmentId,
    SegmentMeta, StoreFault,
};
use std::alloc::{AllocError, Global};

/// Deletes documents of an index of version 2 or 3, and then adds a segment, if one is given. `deleted` has for each
/// segment, in order, the numbers of its documents that are deleted; a number that isn't one of its documents
/// is ignored, and a deleted document stays deleted.
///
/// The new flags are written to files that no list of segments had, and then `meta` is atomically replaced.
/// After a stop or an error the directory holds the old index or the one with all of this. After an error, open
/// the directory again. No other file of the old segments is read or written.
///
/// # Errors
///
/// The errors of `load_meta`. `NoCounts` for the first segment without counts whose documents would be deleted.
/// The fault of the flags of a segment whose documents are deleted. `TooMany` if no `meta` can hold the new
/// index. `meta` isn't replaced then.
pub fn commit_changes<D: Directory>(
    alloc: Global,
    directory: &mut D,
    deleted: &[Vec<DocId>],
    added: Option<&SegmentFiles>,
) -> Result<(), CommitFault>
    ensures known { D.is_known directory.old → OnOk result (D.is_known directory.new) }
    ensures obeys { D.is_known directory.old → Obeys IsRefusedCommit (D.may_refuse directory.old) (D.may_refuse directory.new) result }
    ensures changed { D.is_known directory.old → OnOk result (index_contents (D.seen directory.new) ≡ changed_index (map (λ v. v.items) deleted.now) (option_map (λ f. files_contents f.now) added.entry) (index_contents (D.seen directory.old))) }
    ensures leaves_one { D.is_known directory.old → LeavesOneIndex D.moment D.left_since D.seen directory.old directory.new (changed_index (map (λ v. v.items) deleted.now) (option_map (λ f. files_contents f.now) added.entry) (index_contents (D.seen directory.old))) }
    ensures fault { D.is_known directory.old → IfErr result (λ e. IsChangeFault e (map (λ v. v.items) deleted.now) (option_map (λ f. files_contents f.now) added.entry) (D.seen directory.old)) }
{
    let list = match load_meta(alloc, directory) {
        Ok(list) => list,
        Err(fault) => return Err(CommitFault::Store(fault)),
    };
    if let Some(id) = first_uncounted(deleted, list.segments.as_slice()) {
        return Err(CommitFault::NoCounts(id));
    }
    change_list(alloc, directory, list, deleted, added)
}

// Writes the new flags of a list's segments, and puts the next list in its place.
fn change_list<D: Directory>(
    alloc: Global,
    directory: &mut D,
    list: IndexMeta,
    deleted: &[Vec<DocId>],
    added: Option<&SegmentFiles>,
) -> Result<(), CommitFault>
    requires listed { D.is_known directory.old → list_in (D.seen directory.old Meta) ≡ Ok (meta_view list) }
    ensures known { D.is_known directory.old → OnOk result (D.is_known directory.new) }
    ensures obeys { D.is_known directory.old → Obeys IsRefusedCommit (D.may_refuse directory.old) (D.may_refuse directory.new) result }
    ensures changed { D.is_known directory.old → OnOk result (index_contents (D.seen directory.new) ≡ changed_index (map (λ v. v.items) deleted.now) (option_map (λ f. files_contents f.now) added.entry) (index_contents (D.seen directory.old))) }
    ensures time { D.is_known directory.old → Elapses (D.moment directory.old) (D.moment directory.new) (D.left_since directory.old) (D.left_since directory.new) (HoldsOldOr (changed_index (map (λ v. v.items) deleted.now) (option_map (λ f. files_contents f.now) added.entry) (index_contents (D.seen directory.old))) (D.seen directory.old)) }
    ensures fault { D.is_known directory.old → IfErr result (λ e. IsChangeFault e (map (λ v. v.items) deleted.now) (option_map (λ f. files_contents f.now) added.entry) (D.seen directory.old)) }
{
    let changed = match write_deletes(alloc, directory, list, deleted) {
        Ok(changed) => changed,
        Err(fault) => return Err(fault),
    };
    match added {
        Some(segment) => commit_segment(alloc, directory, changed, segment),
        None => commit_list(alloc, directory, changed),
    }
}

// Puts a list in the place of the current one, under the next generation.
fn commit_list<D: Directory>(
    alloc: Global,
    directory: &mut D,
    list: IndexMeta,
) -> Result<(), CommitFault>
    ensures known { D.is_known directory.old → OnOk result (D.is_known directory.new) }
    ensures obeys { D.is_known directory.old → Obeys IsRefusedCommit (D.may_refuse directory.old) (D.may_refuse directory.new) result }
    ensures committed { D.is_known directory.old → OnOk result (index_contents (D.seen directory.new) ≡ list_contents (meta_view list) (D.seen directory.old)) }
    ensures time { D.is_known directory.old → Elapses (D.moment directory.old) (D.moment directory.new) (D.left_since directory.old) (D.left_since directory.new) (HoldsOldOr (list_contents (meta_view list) (D.seen directory.old)) (D.seen directory.old)) }
    ensures fault { IfErr result (λ e. IsListFault e (meta_view list)) }
{
    match PendingSegments::of_list(list) {
        Ok(pending) => pending.commit(alloc, directory),
        Err(fault) => Err(fault),
    }
}

// Writes the new flags of a list's segments, and returns the list with them.
pub(crate) fn write_deletes<D: Directory>(
    alloc: Global,
    directory: &mut D,
    list: IndexMeta,
    deleted: &[Vec<DocId>],
) -> Result<IndexMeta, CommitFault>
    ensures known { D.is_known directory.old → OnOk result (D.is_known directory.new) }
    ensures obeys { Obeys IsRefusedCommit (D.may_refuse directory.old) (D.may_refuse directory.new) result }
    ensures contents { D.is_known directory.old → IfOk result (λ l. list_contents (meta_view l) (D.seen directory.new) ≡ index_without (map (λ v. v.items) deleted.now) (list_contents (meta_view list) (D.seen directory.old))) }
    ensures flagged { D.is_known directory.old → IfOk result (λ l. IsFlaggedList (map (λ v. v.items) deleted.now) (meta_view list) (meta_view l) (D.seen directory.old)) }
    ensures keeps { D.is_known directory.old → OnOk result (KeepsOlder (latest_generation (meta_view list).segments) (D.seen directory.old) (D.seen directory.new)) }
    ensures time { D.is_known directory.old → Elapses (D.moment directory.old) (D.moment directory.new) (D.left_since directory.old) (D.left_since directory.new) (KeepsOlder (latest_generation (meta_view list).segments) (D.seen directory.old)) }
    ensures fault { D.is_known directory.old → IfErr result (λ e. IsDeleteFault e (map (λ v. v.items) deleted.now) (meta_view list) (D.seen directory.old)) }
{
    let IndexMeta {
        generation,
        next_segment_id,
        schema,
        segments,
    } = list;
    let latest = latest_generation(segments.as_slice());
    if u64::MAX - latest < segments.len() as u64 {
        return Err(CommitFault::TooMany);
    }
    match flag_segments(alloc, directory, segments.as_slice(), deleted, latest) {
        Ok(segments) => Ok(IndexMeta {
            generation,
            next_segment_id,
            schema,
            segments,
        }),
        Err(fault) => Err(CommitFault::Store(fault)),
    }
}

// Writes the new flags of segments, each in a file of a later generation, and returns the segments with them.
fn flag_segments<D: Directory>(
    alloc: Global,
    directory: &mut D,
    segments: &[SegmentMeta],
    deleted: &[Vec<DocId>],
    latest: Generation,
) -> Result<Vec<SegmentMeta>, StoreFault>
    requires room { latest + length segments.now < 2 ^ 64 }
    requires latest { latest ≡ latest_generation (map segment_view segments.now) }
    ensures known { D.is_known directory.old → OnOk result (D.is_known directory.new) }
    ensures obeys { Obeys IsRefused (D.may_refuse directory.old) (D.may_refuse directory.new) result }
    ensures many { IfOk result (λ ts. length ts.items ≡ length segments.now) }
    ensures changed { D.is_known directory.old → IfOk result (λ ts. AreChanged (map (λ v. v.items) deleted.now) latest (map segment_view segments.now) (map segment_view ts.items) (D.seen directory.old) (D.seen directory.new)) }
    ensures time { D.is_known directory.old → Elapses (D.moment directory.old) (D.moment directory.new) (D.left_since directory.old) (D.left_since directory.new) (KeepsOlder latest (D.seen directory.old)) }
    ensures fault { D.is_known directory.old → IfErr result (λ e. IsFlagsFault e (map (λ v. v.items) deleted.now) (map segment_view segments.now) (D.seen directory.old)) }
{
    let mut flagged = Vec::new(alloc);
    for place in 0..segments.len() {
        let docs = docs_at(deleted, place);
        let generation = latest + 1 + place as u64;
        let segment = flag_segment(alloc, directory, &segments[place], docs, generation)?;
        flagged.push(segment)?;
    }
    Ok(flagged)
}

// Deletes documents of a segment: writes its flags to a file of a generation, unless there are no documents.
fn flag_segment<D: Directory>(
    alloc: Global,
    directory: &mut D,
    segment: &SegmentMeta,
    docs: &[DocId],
    generation: Generation,
) -> Result<SegmentMeta, StoreFault>
    requires later { latest_file segment.now.files.items < generation }
    ensures known { D.is_known directory.old → OnOk result (D.is_known directory.new) }
    ensures obeys { Obeys IsRefused (D.may_refuse directory.old) (D.may_refuse directory.new) result }
    ensures changed { D.is_known directory.old → IfOk result (λ t. IsChangedTo docs.now generation (segment_view segment.now) (segment_view t) (D.seen directory.old) (D.seen directory.new)) }
    ensures time { D.is_known directory.old → Elapses (D.moment directory.old) (D.moment directory.new) (D.left_since directory.old) (D.left_since directory.new) (KeepsButFlags generation (D.seen directory.old)) }
    ensures fault { D.is_known directory.old → IfErr result (λ e. FailsForFlags e docs.now (segment_view segment.now) (D.seen directory.old)) }
{
    if docs.is_empty() {
        return Ok(copied(alloc, segment)?);
    }
    let mut alive = load_flags(alloc, directory, segment)?;
    delete_docs(&mut alive, docs);
    Ok(put_flags(alloc, directory, segment, &alive, generation)?)
}

// Writes the flags of a segment to a file of a generation, and returns the segment with it.
fn put_flags<D: Directory>(
    alloc: Global,
    directory: &mut D,
    segment: &SegmentMeta,
    alive: &AliveBits,
    generation: Generation,
) -> Result<SegmentMeta, DirectoryFault>
    ensures known { D.is_known directory.old → OnOk result (D.is_known directory.new) }
    ensures obeys { Obeys IsRefusal (D.may_refuse directory.old) (D.may_refuse directory.new) result }
    ensures listed { IfOk result (λ t. segment_view t ≡ with_flags (segment_view segment.now) generation alive.now) }
    ensures put { D.is_known directory.old → OnOk result (IsPut (Segment segment.now.id (Alive generation)) (Some (alive_bytes alive.now)) (D.seen directory.old) (D.seen directory.new)) }
    ensures time { D.is_known directory.old → Elapses (D.moment directory.old) (D.moment directory.new) (D.left_since directory.old) (D.left_since directory.new) (Elsewhere (Segment segment.now.id (Alive generation)) (D.seen directory.old)) }
{
    let bytes = flags_bytes(alloc, alive)?;
    let component = SegmentComponent::Alive(generation);
    let flags = FileMeta::new(component, bytes.as_slice());
    let files = files_with_flags(alloc, segment.files.as_slice(), flags)?;
    directory.write(Name::Segment(segment.id, component), bytes.as_slice())?;
    Ok(SegmentMeta {
        id: segment.id,
        num_docs: segment.num_docs,
        num_living: alive.num_living(),
        files,
    })
}

// Returns the bytes of flags.
fn flags_bytes(alloc: Global, alive: &AliveBits) -> Result<Vec<u8>, DirectoryFault>
    ensures bytes { IfOk result (λ v. v.items ≡ alive_bytes alive.now) }
    ensures memory { IfErr result (λ e. e ≡ OutOfMemory) }
{
    let mut writer = CountingWriter::wrap(Vec::new(alloc));
    match alive.write(&mut writer) {
        Ok(()) => Ok(writer.finish()),
        Err(fault) => Err(memory_fault(fault)),
    }
}

// Returns the files of a segment with other flags.
fn files_with_flags(
    alloc: Global,
    files: &[FileMeta],
    flags: FileMeta,
) -> Result<Vec<FileMeta>, AllocError>
    ensures { IfOk result (λ v. v.items ≡ files_with_flags flags files.now) }
{
    let mut listed = files_before_flags(alloc, files)?;
    listed.push(flags)?;
    push_files_after_flags(&mut listed, files)?;
    Ok(listed)
}

// Returns the files of a segment whose components come before flags.
fn files_before_flags(alloc: Global, files: &[FileMeta]) -> Result<Vec<FileMeta>, AllocError>
    ensures { IfOk result (λ v. v.items ≡ filter (λ (f : FileMeta). nat_lt (component_number f.component) 5) files.now) }
{
    let mut before = Vec::new(alloc);
    for file in files {
        if file.component.number() < 5 {
            before.push(*file)?;
        }
    }
    Ok(before)
}

// Adds the files of a segment whose components come after flags.
fn push_files_after_flags(listed: &mut Vec<FileMeta>, files: &[FileMeta]) -> Result<(), AllocError>
    ensures { OnOk result (listed.new.items ≡ listed.old.items ++ filter (λ (f : FileMeta). nat_lt 5 (component_number f.component)) files.now) }
{
    for file in files {
        if file.component.number() > 5 {
            listed.push(*file)?;
        }
    }
    Ok(())
}

// Returns a copy of a segment.
fn copied(alloc: Global, segment: &SegmentMeta) -> Result<SegmentMeta, AllocError>
    ensures { IfOk result (λ s. segment_view s ≡ segment_view segment.now) }
{
    Ok(SegmentMeta {
        id: segment.id,
        num_docs: segment.num_docs,
        num_living: segment.num_living,
        files: Vec::from_slice(alloc, segment.files.as_slice())?,
    })
}

// Deletes documents, of which some may not exist.
fn delete_docs(alive: &mut AliveBits, docs: &[DocId])
    ensures { alive.new ≡ without docs.now alive.old }
{
    for doc in docs {
        delete_doc(alive, *doc);
    }
}

// Deletes a document, if it exists.
fn delete_doc(alive: &mut AliveBits, doc: DocId)
    ensures { alive.new ≡ without (doc ∷ []) alive.old }
{
    if doc < alive.num_docs() {
        alive.kill(doc);
    }
}

// Returns the documents that are deleted of the segment at a place.
fn docs_at(deleted: &[Vec<DocId>], place: usize) -> &[DocId]
    ensures { result.now ≡ get_or (map (λ v. v.items) deleted.now) place [] }
{
    match deleted.get(place) {
        Some(docs) => docs.as_slice(),
        None => &[],
    }
}

// Returns the first segment without counts whose documents would be deleted.
pub(crate) fn first_uncounted(deleted: &[Vec<DocId>], segments: &[SegmentMeta]) -> Option<SegmentId>
    ensures { result ≡ first_uncounted (map (λ v. v.items) deleted.now) (map segment_view segments.now) }
{
    for place in 0..segments.len() {
        if is_uncounted(docs_at(deleted, place), &segments[place]) {
            return Some(segments[place].id);
        }
    }
    None
}

// Returns whether documents of a segment are deleted although it has no counts.
fn is_uncounted(docs: &[DocId], segment: &SegmentMeta) -> bool
    ensures { result ≡ is_uncounted docs.now (segment_view segment.now) }
{
    let counts = file_of(segment.files.as_slice(), SegmentComponent::Counts);
    !docs.is_empty() & counts.is_none()
}

// Returns the greatest generation of the files of segments, 0 for none.
fn latest_generation(segments: &[SegmentMeta]) -> Generation
    ensures { result ≡ latest_generation (map segment_view segments.now) }
{
    let mut latest = 0;
    for segment in segments {
        latest = latest.max(latest_file(segment.files.as_slice()));
    }
    latest
}

// Returns the greatest generation of files, 0 for none.
fn latest_file(files: &[FileMeta]) -> Generation
    ensures { result ≡ latest_file files.now }
{
    let mut latest = 0;
    for file in files {
        latest = latest.max(file.component.generation());
    }
    latest
}

/// Law: a segment that gets other flags is as valid as it was, whatever files it has. So `commit_changes` refuses no
/// list for the order of its files.
pub fn flagged_segments_stay_valid()
    ensures { (next : ℕ) (s : SegmentState) (generation : ℕ) (alive : List Bool) → is_segment next s ≡ true → num_living alive ≤ s.num_docs → is_segment next (with_flags s generation alive) ≡ true }
{}
