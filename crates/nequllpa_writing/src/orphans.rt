//! Files of an index whose `meta` is missing.
use crate::messages::{PROGRAM, REFUSED, refuse_path};
use ii_store::{Directory, DirectoryFault, Folder, Name, SegmentComponent, SegmentId};
use std::io::ErrorKind;

/// Prints that a folder without `meta` has a file with a name of an index, and returns the status then.
pub fn refuse_orphan(rt: &HostRuntime, path: &str) -> anyhow::Result<Result<(), u8>> {
    match orphan(rt, path) {
        Ok(None) => Ok(Ok(())),
        Ok(Some(name)) => {
            let name = name.text(rt.alloc())?;
            eprintln!(rt;
                "{PROGRAM}: {path}: there is {name}, and no meta: a file of an index whose meta is missing, or a file of yours; --force replaces the files of an index"
            )?;
            Ok(Err(REFUSED))
        }
        Err(fault) => Ok(Err(refuse_path(rt, path, fault)?)),
    }
}

/// Returns a file with a name of an index, of either version, in a folder that has neither `meta` nor `meta.new`.
pub fn orphan(rt: &HostRuntime, path: &str) -> Result<Option<Name>, DirectoryFault> {
    let folder = Folder::new(rt, path);
    if let Some(name) = folder.orphan()? {
        return Ok(Some(name));
    }
    match folder.list(rt.alloc()) {
        Ok(names) => Ok(first_segment_file(names.as_slice())),
        Err(DirectoryFault::Refused(ErrorKind::NotFound)) => Ok(None),
        Err(fault) => Err(fault),
    }
}

// Returns the first file of a segment by id and component, unless there is `meta` or `meta.new`.
fn first_segment_file(names: &[Name]) -> Option<Name> {
    let mut first: Option<(SegmentId, SegmentComponent)> = None;
    for name in names {
        match *name {
            Name::Meta | Name::NewMeta => return None,
            Name::File(_, _) => {}
            Name::Segment(id, component) => first = Some(first_of(first, id, component)),
        }
    }
    match first {
        Some((id, component)) => Some(Name::Segment(id, component)),
        None => None,
    }
}

// Returns the lesser one of two files of segments.
fn first_of(
    first: Option<(SegmentId, SegmentComponent)>,
    id: SegmentId,
    component: SegmentComponent,
) -> (SegmentId, SegmentComponent) {
    match first {
        Some((i, other)) if i < id || i == id && other.number() < component.number() => (i, other),
        _ => (id, component),
    }
}
