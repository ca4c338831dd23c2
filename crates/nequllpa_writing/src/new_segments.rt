//! The new segments of an index: each is written once its lines take the memory that they may, and all are added at
//! once.
use crate::indexing::Target;
use crate::messages::{PROGRAM, refuse, refuse_commit, refuse_path};
use ii_segment_store::{CommitFault, PendingSegments, remove_slots, upgrade};
use ii_store::collect::collect;
use ii_store::{Directory, DirectoryFault, Folder, IndexFault, Name, StoreFault};
use ii_tokenizers::FieldTokenizers;
use nequllpa_indexing::Documents;
use std::fs;

/// What becomes of the segments that the index has.
#[derive(Clone, Copy, PartialEq, Eq)]
pub enum Former {
    /// They are replaced, and so is the schema.
    Replaced,
    /// They stay, before the new ones.
    Kept,
}

/// New segments of the index in a folder.
#[derive(Drop)]
pub struct NewSegments<'a> {
    target: Target<'a>,
    former: Former,
    schema: Vec<u8>,
    // the segments that are written, once there are some
    pending: Option<PendingSegments>,
    is_begun: bool,
    num_docs: u64,
}

impl<'a> NewSegments<'a> {
    /// Begins with no segments, for the schema of the index.
    pub fn new(target: Target<'a>, former: Former, schema: Vec<u8>) -> NewSegments<'a> {
        NewSegments {
            target,
            former,
            schema,
            pending: None,
            is_begun: false,
            num_docs: 0,
        }
    }

    /// Returns the bytes of the schema.
    pub fn schema(&self) -> &[u8] {
        self.schema.as_slice()
    }

    /// Returns the number of documents of the segments.
    pub fn num_docs(&self) -> u64 {
        self.num_docs
    }

    /// Returns whether an index would have no segment with these documents as the last ones: they are none, and
    /// others were written or the former segments stay.
    pub fn is_left_out(&self, documents: &Documents) -> bool {
        if documents.num_docs() > 0 {
            return false;
        }
        self.is_begun | (self.former == Former::Kept)
    }

    /// Builds a segment of documents and writes its files. The folder keeps its index. Prints why that fails, and
    /// returns the status then.
    pub fn add(
        &mut self,
        rt: &HostRuntime,
        documents: Documents,
        tokenizers: &FieldTokenizers,
    ) -> anyhow::Result<Result<(), u8>> {
        let segment = match documents.into_segment(rt.alloc(), tokenizers) {
            Ok(segment) => segment,
            Err(fault) => return Ok(Err(refuse(rt, fault)?)),
        };
        let pending = match self.pending.take() {
            Some(pending) => pending,
            None => match self.begin(rt)? {
                Ok(pending) => pending,
                Err(status) => return Ok(Err(status)),
            },
        };
        let path = self.target.path();
        match pending.add(rt.alloc(), &mut Folder::new(rt, path), &segment) {
            Ok(pending) => {
                self.pending = Some(pending);
                self.num_docs = self.num_docs.saturating_add(u64::from(segment.num_docs));
                Ok(Ok(()))
            }
            Err(fault) => Ok(Err(self.refuse(rt, fault)?)),
        }
    }

    // Locks the folder, which is created if a new index replaces none, and reads the list that the segments follow.
    fn begin(&mut self, rt: &HostRuntime) -> anyhow::Result<Result<PendingSegments, u8>> {
        let path = self.target.path();
        if self.former == Former::Replaced {
            if let Err(e) = fs::create_dir_all(rt, path) {
                return Ok(Err(refuse_path(rt, path, e.kind())?));
            }
        }
        if let Err(status) = self.target.lock(rt)? {
            return Ok(Err(status));
        }
        self.is_begun = true;
        let begun = match self.former {
            Former::Replaced => begun_new(rt, path, self.schema.as_slice()),
            Former::Kept => begun_after(rt, path),
        };
        match begun {
            Ok(pending) => Ok(Ok(pending)),
            Err(fault) => Ok(Err(self.refuse(rt, fault)?)),
        }
    }

    /// Adds the segments to the index, all at once, and removes the files that no list has. Prints why that fails,
    /// and returns the status then.
    pub fn commit(&mut self, rt: &HostRuntime) -> anyhow::Result<Result<(), u8>> {
        match committed(rt, self.target.path(), self.pending.take()) {
            Ok(()) => Ok(Ok(())),
            Err(fault) => Ok(Err(self.refuse(rt, fault)?)),
        }
    }

    /// Removes the files of the segments, which the index doesn't have. Files that can't be removed remain until the
    /// next command that writes.
    pub fn discard(self, rt: &HostRuntime) {
        if self.is_begun {
            let _ = remove_unlisted(rt, self.target.path());
        }
    }

    // Prints why an index isn't changed. Returns the status.
    fn refuse(&self, rt: &HostRuntime, fault: CommitFault) -> anyhow::Result<u8> {
        let path = self.target.path();
        if self.former == Former::Kept {
            return refuse_commit(rt, path, fault);
        }
        let status = refuse_path(rt, path, fault)?;
        eprintln!(rt;
            "{PROGRAM}: the folder still has its complete index, if it had one; free some space, or make the folder writable, and index again"
        )?;
        Ok(status)
    }
}

// Begins the list of a new index, which replaces that of the folder.
fn begun_new(rt: &HostRuntime, path: &str, schema: &[u8]) -> Result<PendingSegments, CommitFault> {
    let mut folder = Folder::new(rt, path);
    folder.begin_first_save()?;
    let schema = Vec::from_slice(rt.alloc(), schema)?;
    PendingSegments::begin_new(rt.alloc(), &folder, schema)
}

// Begins the list that follows that of the folder, which becomes a list of segments.
fn begun_after(rt: &HostRuntime, path: &str) -> Result<PendingSegments, CommitFault> {
    let mut folder = Folder::new(rt, path);
    upgrade(rt.alloc(), &mut folder)?;
    PendingSegments::begin(rt.alloc(), &folder)
}

// Puts a list in the place of the current one, if it has new segments, and removes the files that no list has.
fn committed(
    rt: &HostRuntime,
    path: &str,
    pending: Option<PendingSegments>,
) -> Result<(), CommitFault> {
    let mut folder = Folder::new(rt, path);
    match pending {
        Some(pending) => pending.commit(rt.alloc(), &mut folder)?,
        None => {
            upgrade(rt.alloc(), &mut folder)?;
        }
    }
    collect(rt.alloc(), &mut folder)?;
    remove_slots(rt.alloc(), &mut folder)?;
    Ok(())
}

// Removes the files of segments that no list has. A folder without a list of segments lists none.
fn remove_unlisted(rt: &HostRuntime, path: &str) -> Result<(), StoreFault> {
    let mut folder = Folder::new(rt, path);
    match collect(rt.alloc(), &mut folder) {
        Ok(_) => Ok(()),
        Err(StoreFault::Index(IndexFault::NoIndex)) => Ok(remove_segments(rt, path)?),
        Err(StoreFault::Index(IndexFault::OtherVersion(_))) => Ok(remove_segments(rt, path)?),
        Err(fault) => Err(fault),
    }
}

// Removes the files of all segments, and then the mark of a first save.
fn remove_segments(rt: &HostRuntime, path: &str) -> Result<(), DirectoryFault> {
    let mut folder = Folder::new(rt, path);
    let names = folder.list(rt.alloc())?;
    for name in &names {
        if let Name::Segment(_, _) = *name {
            folder.remove(*name)?;
        }
    }
    folder.remove(Name::NewMeta)
}
