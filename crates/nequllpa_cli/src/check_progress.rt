//! What `check` prints on standard error while it goes on.
use ii_store::IndexMeta;
use nequllpa_writing::{PROGRAM, STEP, len_of_files};

/// How far the check of an index is.
#[derive(Clone, Copy)]
pub struct CheckProgress {
    // whether it is printed
    is_told: bool,
    // how many segments there are, and bytes of their files
    segments: usize,
    bytes: u64,
    // the number of the current segment, from 1, and the bytes of those before it
    number: usize,
    done: u64,
}

impl CheckProgress {
    /// Returns that nothing of an index is checked yet. Of one with few bytes no progress is printed.
    pub fn new(list: &IndexMeta, is_quiet: bool) -> CheckProgress {
        let mut bytes = 0u64;
        for segment in &list.segments {
            bytes = bytes.saturating_add(len_of_files(segment));
        }
        CheckProgress {
            is_told: !is_quiet && bytes >= STEP,
            segments: list.segments.len(),
            bytes,
            number: 0,
            done: 0,
        }
    }

    /// Goes on to the next segment, and prints that its files are read.
    pub fn begin(&mut self, rt: &HostRuntime) -> anyhow::Result<()> {
        self.number = self.number.saturating_add(1);
        self.tell(rt, "its files")
    }

    /// Prints that the lists of the segment are walked.
    pub fn tell_lists(&self, rt: &HostRuntime) -> anyhow::Result<()> {
        self.tell(rt, "its lists")
    }

    /// Ends a segment whose files have this many bytes.
    pub fn end(&mut self, len: u64) {
        self.done = self.done.saturating_add(len);
    }

    // Prints what is looked at.
    fn tell(&self, rt: &HostRuntime, what: &str) -> anyhow::Result<()> {
        if self.is_told {
            eprintln!(rt;
                "{PROGRAM}: segment {} of {}, {what}; {} of {} MB checked",
                self.number,
                self.segments,
                self.done / 1_000_000,
                self.bytes.div_ceil(1_000_000)
            )?;
        }
        Ok(())
    }
}
