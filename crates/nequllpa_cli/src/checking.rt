//! The command `check`.
use crate::check_progress::CheckProgress;
use crate::commands::{ended, format_given, status_of};
use clap::ArgMatches;
use ii_base::{Fault, Schema};
use ii_directory::ReadAt;
use ii_segment_store::loading::{alive_file, file_of, load_flags};
use ii_store::segments::{load_meta, load_segment_file};
use ii_store::{
    Directory, DirectoryFault, Folder, IndexFault, IndexMeta, Kind, Name, SalvagedFile,
    SalvagedIndex, SegmentComponent, SegmentMeta, StoreFault, StoredIndex, salvage,
};
use nequllpa_inspecting::{
    Checked, DamageRow, DamageRows, DamagedBlock, check, counts_damage, store_damages,
};
use nequllpa_opening::{RowFormat, schema_of};
use nequllpa_writing::{NO, len_of_files, refuse_path, tell_no_index};
use std::fmt::Display;
use std::io::{self, BufWriter, Write};
use std::process::ExitCode;

// What is printed of lists where the schema is damaged.
const NOT_LOOKED_AT: &str =
    "the lists were not looked at, since they can be read by the schema alone";

// The components whose files each segment has.
const COMPONENTS: [SegmentComponent; 4] = [
    SegmentComponent::Terms,
    SegmentComponent::Postings,
    SegmentComponent::Positions,
    SegmentComponent::FieldNorms,
];

// A file that has so many bytes more than it was saved with isn't read: 1 GiB.
const MOST_SPARE: u64 = 1 << 30;

/// Checks that each file of a folder is as it was saved, and that their contents agree.
pub fn answer_check(
    rt: &HostRuntime,
    path: &str,
    given: &ArgMatches<'_>,
) -> anyhow::Result<ExitCode> {
    let format = format_given(given);
    match load_meta(rt.alloc(), &Folder::new(rt, path)) {
        Ok(list) => check_list(rt, path, &list, format, given.get_flag("quiet")),
        Err(StoreFault::Index(IndexFault::OtherVersion(_))) => {
            check_first_version(rt, path, format)
        }
        Err(StoreFault::Index(fault)) => Ok(ExitCode::from(tell_no_index(rt, path, fault)?)),
        Err(StoreFault::Directory(fault)) => Ok(ExitCode::from(refuse_path(rt, path, fault)?)),
    }
}

// Checks each segment of a list.
fn check_list(
    rt: &HostRuntime,
    path: &str,
    list: &IndexMeta,
    format: RowFormat,
    is_quiet: bool,
) -> anyhow::Result<ExitCode> {
    let schema = match read_schema(rt, path, list.schema.as_slice(), format)? {
        Ok(schema) => schema,
        Err(status) => return Ok(ExitCode::from(status)),
    };
    let mut sum = Sum {
        format,
        documents: 0,
        files: 0,
        changed: 0,
        checked: nothing(),
    };
    let mut progress = CheckProgress::new(list, is_quiet);
    for segment in &list.segments {
        progress.begin(rt)?;
        if let Err(status) = check_segment(rt, path, &schema, segment, &mut sum, progress)? {
            return Ok(ExitCode::from(status));
        }
        progress.end(len_of_files(segment));
    }
    print_checked(rt, &sum)?;
    ended(rt, path, Ok(sum.checked.damages == 0 && sum.changed == 0))
}

// What was checked of an index.
#[derive(Clone, Copy)]
struct Sum {
    // how damages are printed, and this
    format: RowFormat,
    documents: u64,
    files: u64,
    changed: u64,
    checked: Checked,
}

// Returns that nothing was checked.
fn nothing() -> Checked {
    Checked {
        terms: 0,
        postings: 0,
        positions: 0,
        damages: 0,
    }
}

impl Sum {
    // Returns how the damages of a segment are printed.
    fn rows_of(&self, segment: &SegmentMeta) -> DamageRows {
        DamageRows {
            segment: Some(segment.id),
            format: self.format,
        }
    }

    // Adds the lists of a segment.
    fn add(&mut self, more: Checked) {
        self.checked = Checked {
            terms: self.checked.terms.saturating_add(more.terms),
            postings: self.checked.postings.saturating_add(more.postings),
            positions: self.checked.positions.saturating_add(more.positions),
            damages: self.checked.damages.saturating_add(more.damages),
        };
    }
}

// Checks the files of a segment, and its lists. Returns the status if that isn't possible.
fn check_segment(
    rt: &HostRuntime,
    path: &str,
    schema: &Schema,
    segment: &SegmentMeta,
    sum: &mut Sum,
    progress: CheckProgress,
) -> anyhow::Result<Result<(), u8>> {
    sum.documents = sum.documents.saturating_add(u64::from(segment.num_living));
    let stored = match left_of(rt, path, segment, sum)? {
        Ok(stored) => stored,
        Err(fault) => return Ok(Err(refuse_path(rt, path, fault)?)),
    };
    if let Err(status) = check_others(rt, path, schema, segment, sum)? {
        return Ok(Err(status));
    }
    progress.tell_lists(rt)?;
    let rows = sum.rows_of(segment);
    let mut out = BufWriter::new(rt.alloc(), io::writer(rt))?;
    let checked = check(rt.alloc(), &mut out, rows, schema, stored);
    out.flush()?;
    match checked {
        Ok(checked) => {
            sum.add(checked);
            Ok(Ok(()))
        }
        Err(fault) => Ok(Err(status_of(rt, path, fault)?)),
    }
}

// Prints a line for each file of a segment that isn't as it was saved, and returns what there is of the files.
fn left_of(
    rt: &HostRuntime,
    path: &str,
    segment: &SegmentMeta,
    sum: &mut Sum,
) -> anyhow::Result<Result<StoredIndex, DirectoryFault>> {
    let mut left = StoredIndex {
        num_docs: segment.num_docs,
        schema: Vec::new(rt.alloc()),
        terms: Vec::new(rt.alloc()),
        postings: Vec::new(rt.alloc()),
        positions: Vec::new(rt.alloc()),
        fieldnorms: Vec::new(rt.alloc()),
    };
    for component in COMPONENTS {
        let bytes = match left_of_file(rt, path, segment, component, sum)? {
            Ok(bytes) => bytes,
            Err(fault) => return Ok(Err(fault)),
        };
        match component {
            SegmentComponent::Terms => left.terms = bytes,
            SegmentComponent::Postings => left.postings = bytes,
            SegmentComponent::Positions => left.positions = bytes,
            _ => left.fieldnorms = bytes,
        }
    }
    Ok(Ok(left))
}

// Prints a line for a file of a segment if it isn't as it was saved, and returns what there is of it.
fn left_of_file(
    rt: &HostRuntime,
    path: &str,
    segment: &SegmentMeta,
    component: SegmentComponent,
    sum: &mut Sum,
) -> anyhow::Result<Result<Vec<u8>, DirectoryFault>> {
    sum.files = sum.files.saturating_add(1);
    let folder = Folder::new(rt, path);
    let Some(file) = file_of(segment.files.as_slice(), component) else {
        sum.changed = sum.changed.saturating_add(1);
        let fault = IndexFault::MissingFile(segment.id, component);
        tell_changed(rt, path, sum.rows_of(segment), component, fault, None)?;
        return Ok(Ok(Vec::new(rt.alloc())));
    };
    let fault = match load_segment_file(rt.alloc(), &folder, segment.id, &file) {
        Ok(bytes) => return Ok(Ok(bytes)),
        Err(StoreFault::Directory(fault)) => return Ok(Err(fault)),
        Err(StoreFault::Index(fault)) => fault,
    };
    sum.changed = sum.changed.saturating_add(1);
    let name = Name::Segment(segment.id, component);
    if is_far_longer(rt, path, name, file.len) {
        tell_changed(rt, path, sum.rows_of(segment), component, fault, None)?;
        return Ok(Ok(Vec::new(rt.alloc())));
    }
    match folder.read(rt.alloc(), name) {
        Ok(Some(bytes)) => {
            let len = Some(bytes.len() as u64);
            tell_changed(rt, path, sum.rows_of(segment), component, fault, len)?;
            Ok(Ok(bytes))
        }
        Ok(None) => {
            tell_changed(rt, path, sum.rows_of(segment), component, fault, None)?;
            Ok(Ok(Vec::new(rt.alloc())))
        }
        Err(fault) => Ok(Err(fault)),
    }
}

// Returns whether a file has `MOST_SPARE` bytes more than it was saved with. In a sparse file these take no room on the disk, so
// it isn't read then.
fn is_far_longer(rt: &HostRuntime, path: &str, name: Name, len: u64) -> bool {
    let Ok(Some(file)) = Folder::new(rt, path).open(rt.alloc(), name) else {
        return false;
    };
    let mut byte = [0u8; 1];
    file.read_exact_at(&mut byte, len.saturating_add(MOST_SPARE))
        .is_ok()
}

// Prints a file that isn't as it was saved, and its byte range if it has bytes.
fn tell_changed<F: Display + Drop>(
    rt: &HostRuntime,
    path: &str,
    rows: DamageRows,
    file: F,
    fault: IndexFault,
    len: Option<u64>,
) -> anyhow::Result<()> {
    if rows.format.is_json() {
        let damage = format!(in rt.alloc(); "{fault}")?;
        let name = format!(in rt.alloc(); "{file}")?;
        let file = Some(name.as_str());
        let bytes = len.map(|len| (0, len));
        return print_row(rt, row_of(damage.as_str(), rows.segment, file, bytes, None));
    }
    match len {
        Some(len) => println!(rt; "{path}: {fault}, bytes 0..{len}")?,
        None => println!(rt; "{path}: {fault}")?,
    }
    Ok(())
}

// Returns a damage of a file, if there is one, of a segment.
fn row_of<'a>(
    damage: &'a str,
    segment: Option<u64>,
    file: Option<&'a str>,
    bytes: Option<(u64, u64)>,
    document: Option<u32>,
) -> DamageRow<'a> {
    DamageRow {
        damage,
        segment,
        file,
        field: None,
        term: None,
        bytes,
        document,
    }
}

// Prints a damage that is of no file, as a JSON object.
fn print_reason(rt: &HostRuntime, damage: &str) -> anyhow::Result<()> {
    print_row(rt, row_of(damage, None, None, None, None))
}

// Prints a damage as a JSON object.
fn print_row(rt: &HostRuntime, row: DamageRow<'_>) -> anyhow::Result<()> {
    let mut out = BufWriter::new(rt.alloc(), io::writer(rt))?;
    row.write(rt.alloc(), &mut out, RowFormat::JsonLine)?;
    out.flush()?;
    Ok(())
}

// Checks the counts and the flags of a segment, if it lists them. Returns the status if that isn't possible.
fn check_others(
    rt: &HostRuntime,
    path: &str,
    schema: &Schema,
    segment: &SegmentMeta,
    sum: &mut Sum,
) -> anyhow::Result<Result<(), u8>> {
    if let Some(file) = file_of(segment.files.as_slice(), SegmentComponent::Counts) {
        let bytes = match left_of_file(rt, path, segment, file.component, sum)? {
            Ok(bytes) => bytes,
            Err(fault) => return Ok(Err(refuse_path(rt, path, fault)?)),
        };
        if let Err(status) = check_counts(rt, path, schema, segment, bytes, sum)? {
            return Ok(Err(status));
        }
    }
    if let Err(status) = check_store(rt, path, segment, sum)? {
        return Ok(Err(status));
    }
    if let Some(file) = file_of(segment.files.as_slice(), SegmentComponent::BlockTables) {
        if let Err(fault) = left_of_file(rt, path, segment, file.component, sum)? {
            return Ok(Err(refuse_path(rt, path, fault)?));
        }
    }
    if let Some(file) = alive_file(segment.files.as_slice()) {
        if let Err(fault) = left_of_file(rt, path, segment, file.component, sum)? {
            return Ok(Err(refuse_path(rt, path, fault)?));
        }
    }
    check_flags(rt, path, segment, sum)
}

// Prints a line if the file of counts of a segment isn't one of its documents and fields.
fn check_counts(
    rt: &HostRuntime,
    path: &str,
    schema: &Schema,
    segment: &SegmentMeta,
    bytes: Vec<u8>,
    sum: &mut Sum,
) -> anyhow::Result<Result<(), u8>> {
    let id = segment.id;
    let len = bytes.len();
    match counts_damage(rt.alloc(), schema, segment.num_docs, bytes) {
        Ok(None) => Ok(Ok(())),
        Ok(Some(damage)) => {
            sum.checked.damages = sum.checked.damages.saturating_add(1);
            if sum.format.is_json() {
                tell_counts_json(rt, id, damage, len as u64)?;
            } else {
                println!(rt; "segment {id}: the file of counts: {damage}, bytes 0..{len}")?;
            }
            Ok(Ok(()))
        }
        Err(fault) => Ok(Err(refuse_path(rt, path, fault)?)),
    }
}

// Prints that a file of counts is damaged, as a JSON object.
fn tell_counts_json(rt: &HostRuntime, id: u64, damage: Fault, len: u64) -> anyhow::Result<()> {
    let damage = format!(in rt.alloc(); "{damage}")?;
    let name = format!(in rt.alloc(); "{}", SegmentComponent::Counts)?;
    let file = Some(name.as_str());
    print_row(
        rt,
        row_of(damage.as_str(), Some(id), file, Some((0, len)), None),
    )
}

// Prints a line for each damaged block of the stored lines of a segment, if it lists some. Returns the status if that
// isn't possible.
fn check_store(
    rt: &HostRuntime,
    path: &str,
    segment: &SegmentMeta,
    sum: &mut Sum,
) -> anyhow::Result<Result<(), u8>> {
    let Some(file) = file_of(segment.files.as_slice(), SegmentComponent::Store) else {
        return Ok(Ok(()));
    };
    let bytes = match left_of_file(rt, path, segment, file.component, sum)? {
        Ok(bytes) => bytes,
        Err(fault) => return Ok(Err(refuse_path(rt, path, fault)?)),
    };
    match store_damages(rt.alloc(), bytes) {
        Ok(damages) => {
            print_damages(rt, segment, &damages, sum)?;
            Ok(Ok(()))
        }
        Err(fault) => Ok(Err(refuse_path(rt, path, fault)?)),
    }
}

// Prints a line for each damaged block of stored lines.
fn print_damages(
    rt: &HostRuntime,
    segment: &SegmentMeta,
    damages: &[DamagedBlock],
    sum: &mut Sum,
) -> anyhow::Result<()> {
    for found in damages {
        sum.checked.damages = sum.checked.damages.saturating_add(1);
        print_block(rt, sum.rows_of(segment), found)?;
    }
    Ok(())
}

// Prints a damaged block of stored lines.
fn print_block(rt: &HostRuntime, rows: DamageRows, found: &DamagedBlock) -> anyhow::Result<()> {
    let damage = found.damage;
    let first = found.first_doc;
    if rows.format.is_json() {
        let damage = format!(in rt.alloc(); "{damage}")?;
        let name = format!(in rt.alloc(); "{}", SegmentComponent::Store)?;
        let file = Some(name.as_str());
        return print_row(
            rt,
            row_of(damage.as_str(), rows.segment, file, None, Some(first)),
        );
    }
    let id = rows.segment.unwrap_or(0);
    println!(rt; "segment {id}: the file of stored documents: {damage}, document {first}")?;
    Ok(())
}

// Prints a line if the flags of a segment aren't those of its documents.
fn check_flags(
    rt: &HostRuntime,
    path: &str,
    segment: &SegmentMeta,
    sum: &mut Sum,
) -> anyhow::Result<Result<(), u8>> {
    match load_flags(rt.alloc(), &Folder::new(rt, path), segment) {
        Ok(_) => Ok(Ok(())),
        Err(StoreFault::Index(IndexFault::DeletedDocuments(id))) => {
            sum.changed = sum.changed.saturating_add(1);
            let fault = IndexFault::DeletedDocuments(id);
            let file = SegmentComponent::Alive(0);
            tell_changed(rt, path, sum.rows_of(segment), file, fault, None)?;
            Ok(Ok(()))
        }
        Err(StoreFault::Index(_)) => Ok(Ok(())),
        Err(StoreFault::Directory(fault)) => Ok(Err(refuse_path(rt, path, fault)?)),
    }
}

// Checks an index of version 1.
fn check_first_version(
    rt: &HostRuntime,
    path: &str,
    format: RowFormat,
) -> anyhow::Result<ExitCode> {
    let left = match salvage(rt.alloc(), &Folder::new(rt, path)) {
        Ok(left) => left,
        Err(StoreFault::Index(fault)) => {
            return Ok(ExitCode::from(tell_no_index(rt, path, fault)?));
        }
        Err(StoreFault::Directory(fault)) => {
            return Ok(ExitCode::from(refuse_path(rt, path, fault)?));
        }
    };
    match look_at(rt, path, &left, format)? {
        Ok((schema, changed)) => check_lists(rt, path, &schema, left, changed, format),
        Err(status) => Ok(ExitCode::from(status)),
    }
}

// Prints a line for each changed file. Returns the salvaged schema and the number of changed files, or the
// status if there is no schema.
fn look_at(
    rt: &HostRuntime,
    path: &str,
    left: &SalvagedIndex,
    format: RowFormat,
) -> anyhow::Result<Result<(Schema, u64), u8>> {
    let changed = print_changed(rt, path, left, format)?;
    match schema_left(rt, path, left, format)? {
        Ok(schema) => Ok(Ok((schema, changed))),
        Err(status) => Ok(Err(status)),
    }
}

// Reads the salvaged schema, or returns the status if there is none.
fn schema_left(
    rt: &HostRuntime,
    path: &str,
    left: &SalvagedIndex,
    format: RowFormat,
) -> anyhow::Result<Result<Schema, u8>> {
    if left.schema.fault.is_some() {
        if format.is_json() {
            print_reason(rt, NOT_LOOKED_AT)?;
        } else {
            println!(rt; "{NOT_LOOKED_AT}")?;
        }
        return Ok(Err(NO));
    }
    read_schema(rt, path, left.schema.bytes.as_slice(), format)
}

// Reads the schema of an index, or returns the status if its bytes are none.
fn read_schema(
    rt: &HostRuntime,
    path: &str,
    bytes: &[u8],
    format: RowFormat,
) -> anyhow::Result<Result<Schema, u8>> {
    match schema_of(rt.alloc(), bytes) {
        Ok(schema) => Ok(Ok(schema)),
        Err(fault) => {
            if fault.is_memory() {
                return Ok(Err(refuse_path(rt, path, fault)?));
            }
            if format.is_json() {
                let damage = format!(in rt.alloc(); "{fault}")?;
                print_reason(rt, damage.as_str())?;
            } else {
                println!(rt; "{path}: {fault}")?;
            }
            Ok(Err(NO))
        }
    }
}

// Prints a line for each file that isn't as it was saved. Returns their number.
fn print_changed(
    rt: &HostRuntime,
    path: &str,
    left: &SalvagedIndex,
    format: RowFormat,
) -> anyhow::Result<u64> {
    let mut changed = 0u64;
    let rows = DamageRows {
        segment: None,
        format,
    };
    for number in 0..Kind::COUNT {
        let kind = Kind::at(number);
        let file = left.file_of(kind);
        if let Some(fault) = file.fault {
            changed = changed.saturating_add(1);
            tell_changed(rt, path, rows, kind, fault, len_of(file, fault))?;
        }
    }
    Ok(changed)
}

// Returns the length of a file that isn't as it was saved, if it is there.
fn len_of(file: &SalvagedFile, fault: IndexFault) -> Option<u64> {
    match fault {
        IndexFault::Missing(_) => None,
        _ => Some(file.bytes.len() as u64),
    }
}

// Checks every list of the files.
fn check_lists(
    rt: &HostRuntime,
    path: &str,
    schema: &Schema,
    left: SalvagedIndex,
    changed: u64,
    format: RowFormat,
) -> anyhow::Result<ExitCode> {
    let rows = DamageRows {
        segment: None,
        format,
    };
    let mut sum = Sum {
        format,
        documents: u64::from(left.num_docs),
        files: u64::from(Kind::COUNT),
        changed,
        checked: nothing(),
    };
    let mut out = BufWriter::new(rt.alloc(), io::writer(rt))?;
    let checked = check(rt.alloc(), &mut out, rows, schema, left.into_index());
    out.flush()?;
    match checked {
        Ok(checked) => {
            sum.add(checked);
            print_checked(rt, &sum)?;
            ended(rt, path, Ok(checked.damages == 0 && changed == 0))
        }
        Err(fault) => ended(rt, path, Err(fault)),
    }
}

// Prints what was checked.
fn print_checked(rt: &HostRuntime, sum: &Sum) -> anyhow::Result<()> {
    let Checked {
        terms,
        postings,
        positions,
        damages,
    } = sum.checked;
    if sum.format.is_json() {
        println!(rt;
            "{{\"documents\":{},\"files\":{},\"changed_files\":{},\"terms\":{terms},\"postings\":{postings},\"positions\":{positions},\"damages\":{damages}}}",
            sum.documents, sum.files, sum.changed
        )?;
        return Ok(());
    }
    if sum.changed == 0 {
        println!(rt; "{} documents; each file is as it was saved", sum.documents)?;
    } else {
        println!(rt;
            "{} documents; {} of {} files are not as they were saved",
            sum.documents, sum.changed, sum.files
        )?;
    }
    println!(rt; "{terms} terms, {postings} postings, {positions} positions")?;
    println!(rt; "{damages} damages")?;
    Ok(())
}
