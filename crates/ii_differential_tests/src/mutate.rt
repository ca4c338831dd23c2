use crate::compare::{DifferenceCounts, judge_list};
use crate::files::{judge_index, same_composite, same_dictionary, same_store};
use crate::subjects::{Kind, SUBJECTS, Subject};
use ii_base::Fault;
use ii_slow_reader::Files;
use std::alloc::Global;

const NONE: DifferenceCounts = DifferenceCounts {
    cases: 0,
    differences: 0,
};

// Returns part `at`, or nothing if it doesn't exist.
fn part_of(parts: &[Vec<u8>], at: usize) -> &[u8] {
    match parts.get(at) {
        Some(part) => part.as_slice(),
        None => &[],
    }
}

// Reads bytes with both readers and counts the result.
fn judge(
    alloc: Global,
    kind: Kind,
    parts: &[Vec<u8>],
    counts: &mut DifferenceCounts,
) -> Result<(), Fault> {
    let (first, second) = (part_of(parts, 0), part_of(parts, 1));
    match kind {
        Kind::List(doc_freq) => judge_list(alloc, doc_freq, first, second, counts)?,
        Kind::Composite => counts.add(same_composite(alloc, first)?),
        Kind::Store => counts.add(same_store(alloc, first)?),
        Kind::Dictionary => counts.add(same_dictionary(alloc, first)?),
        Kind::Index(value_type) => judge_index(
            alloc,
            Files {
                terms: first,
                postings: second,
                positions: part_of(parts, 2),
                norms: part_of(parts, 3),
            },
            value_type,
            counts,
        )?,
    }
    Ok(())
}

// Copies the parts of a subject.
fn copied(alloc: Global, subject: &Subject) -> Result<Vec<Vec<u8>>, Fault> {
    let mut parts = Vec::new(alloc);
    for part in subject.parts.as_slice() {
        parts.push(Vec::from_slice(alloc, part)?)?;
    }
    Ok(parts)
}

/// A share of all cases: those whose number leaves the remainder `part` when divided by `parts`.
#[derive(Clone, Copy)]
pub struct Share {
    pub part: u64,
    pub parts: u64,
}

// The cases that were passed, and what was found in those of a share.
#[derive(Drop)]
struct Run {
    share: Share,
    passed: u64,
    counts: DifferenceCounts,
}

impl Run {
    // Judges the next case, if it belongs to the share.
    fn judge_next(&mut self, alloc: Global, kind: Kind, parts: &[Vec<u8>]) -> Result<(), Fault> {
        let is_mine = self.passed.checked_rem(self.share.parts) == Some(self.share.part);
        self.passed = self.passed.saturating_add(1);
        if !is_mine {
            return Ok(());
        }
        judge(alloc, kind, parts, &mut self.counts)
    }
}

/// Judges a share of these cases: each subject unchanged, with each cut of a part, and with each change of one
/// byte to each other value.
pub fn each_change(alloc: Global, share: Share) -> Result<DifferenceCounts, Fault> {
    let mut run = Run {
        share,
        passed: 0,
        counts: NONE,
    };
    for subject in &SUBJECTS {
        let whole = copied(alloc, subject)?;
        run.judge_next(alloc, subject.kind, whole.as_slice())?;
        for at in 0..4 {
            changed(alloc, subject, at, &mut run)?;
            cut(alloc, subject, at, &mut run)?;
        }
    }
    Ok(run.counts)
}

// Judges each change of a byte of one part to each other value.
fn changed(alloc: Global, subject: &Subject, at: usize, run: &mut Run) -> Result<(), Fault> {
    let mut parts = copied(alloc, subject)?;
    for place in 0..part_of(parts.as_slice(), at).len() {
        for change in 1..=u8::MAX {
            alter_in(&mut parts, at, place, change);
            run.judge_next(alloc, subject.kind, parts.as_slice())?;
            alter_in(&mut parts, at, place, change);
        }
    }
    Ok(())
}

// Judges each cut of one part.
fn cut(alloc: Global, subject: &Subject, at: usize, run: &mut Run) -> Result<(), Fault> {
    let mut parts = copied(alloc, subject)?;
    for _ in 0..part_of(parts.as_slice(), at).len() {
        if let Some(part) = parts.as_mut_slice().get_mut(at) {
            let _last = part.pop();
        }
        run.judge_next(alloc, subject.kind, parts.as_slice())?;
    }
    Ok(())
}

// Flips bits of a byte of a part; a second call restores them.
fn alter_in(parts: &mut Vec<Vec<u8>>, at: usize, place: usize, change: u8) {
    if let Some(part) = parts.as_mut_slice().get_mut(at) {
        alter(part, place, change);
    }
}

// Flips bits of a byte; a second call restores them.
fn alter(bytes: &mut Vec<u8>, place: usize, change: u8) {
    if let Some(byte) = bytes.as_mut_slice().get_mut(place) {
        *byte ^= change;
    }
}

// Returns the first state for a seed: different for all seeds except the largest, and never 0, which would
// repeat.
fn first_state(seed: u64) -> u64 {
    seed.wrapping_add(1)
        .wrapping_mul(0x9e37_79b9_7f4a_7c15)
        .max(1)
}

/// Judges `count` subjects with random damage: up to four bytes changed, a part cut or one byte longer, and
/// sometimes another number of documents for a list.
pub fn at_random(alloc: Global, count: u64, seed: u64) -> Result<DifferenceCounts, Fault> {
    let mut counts = NONE;
    let mut state = first_state(seed);
    for _ in 0..count {
        let at = next(&mut state)
            .checked_rem(SUBJECTS.len() as u64)
            .unwrap_or(0);
        if let Some(subject) = SUBJECTS.get(at as usize) {
            damaged(alloc, subject, &mut state, &mut counts)?;
        }
    }
    Ok(counts)
}

// Judges a damaged subject.
fn damaged(
    alloc: Global,
    subject: &Subject,
    state: &mut u64,
    counts: &mut DifferenceCounts,
) -> Result<(), Fault> {
    let mut parts = copied(alloc, subject)?;
    for part in parts.as_mut_slice() {
        damage(part, state)?;
    }
    let kind = match subject.kind {
        Kind::List(_) if next(state) % 8 == 0 => Kind::List((next(state) % 400) as u32),
        kind => kind,
    };
    judge(alloc, kind, parts.as_slice(), counts)
}

// Returns the next random number.
fn next(state: &mut u64) -> u64 {
    *state ^= *state << 13;
    *state ^= *state >> 7;
    *state ^= *state << 17;
    *state
}

// Damages a part in half of the calls: changes up to four bytes, and may cut the part or append a byte.
fn damage(bytes: &mut Vec<u8>, state: &mut u64) -> Result<(), Fault> {
    if next(state) % 2 == 0 {
        return Ok(());
    }
    for _ in 0..next(state) % 4 {
        let len = (bytes.len() as u64).saturating_add(1);
        let place = next(state).checked_rem(len).unwrap_or(0) as usize;
        alter(bytes, place, (next(state) % 256) as u8);
    }
    match next(state) % 8 {
        0 => {
            let len = (bytes.len() as u64).saturating_add(1);
            let end = next(state).checked_rem(len).unwrap_or(0) as usize;
            bytes.truncate(end);
        }
        1 => bytes.push((next(state) % 256) as u8)?,
        _ => (),
    }
    Ok(())
}
