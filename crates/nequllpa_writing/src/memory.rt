//! The memory that a command may take for lines, and for what it merges.
use crate::messages::{PROGRAM, REFUSED};
use clap::ArgMatches;

// The bytes of memory, unless `--memory` is given.
const DEFAULT_MEMORY: u64 = 512_000_000;

// About how many bytes of memory indexing takes per byte of lines, for these and then for their segment.
const INDEXING_MULTIPLE: u64 = 5;

// How many bytes of memory a merge takes, at most, per byte of the files that it loads.
const MERGING_MULTIPLE: u64 = 2;

// The units of a size, and how many bytes each has.
static UNITS: [(&str, u64); 4] = [
    ("GB", 1_000_000_000),
    ("MB", 1_000_000),
    ("KB", 1_000),
    ("B", 1),
];

/// The bytes of memory that a command may take.
#[derive(Clone, Copy)]
pub struct Budget {
    bytes: u64,
}

impl Budget {
    /// Returns how many bytes the lines of a segment may have.
    pub fn bytes_of_lines(self) -> u64 {
        self.bytes / INDEXING_MULTIPLE
    }

    /// Returns how many bytes may be loaded of segments that are merged without being asked for.
    pub fn bytes_to_merge(self) -> u64 {
        self.bytes / MERGING_MULTIPLE
    }

    /// Returns the number of megabytes, rounded up.
    pub fn megabytes(self) -> u64 {
        self.bytes.div_ceil(1_000_000)
    }
}

/// Returns the memory that `--memory` gives, or the status if it is no size.
pub fn budget_given(
    rt: &HostRuntime,
    given: &ArgMatches<'_>,
) -> anyhow::Result<Result<Budget, u8>> {
    let Some(text) = given.get_str("memory") else {
        return Ok(Ok(Budget {
            bytes: DEFAULT_MEMORY,
        }));
    };
    match size_in(text) {
        Some(bytes) => Ok(Ok(Budget { bytes })),
        None => {
            eprintln!(rt;
                "{PROGRAM}: --memory {text}: expected a whole number of bytes with its unit, as 256MB: B, KB, MB or GB, of 1, 1,000, 1,000,000 or 1,000,000,000 bytes"
            )?;
            Ok(Err(REFUSED))
        }
    }
}

// Returns how many bytes a size has: a whole number and its unit.
fn size_in(text: &str) -> Option<u64> {
    for (unit, bytes) in UNITS {
        if let Some(number) = text.strip_suffix(unit) {
            return match number.parse::<u64>() {
                Ok(number) => number.checked_mul(bytes),
                Err(_) => None,
            };
        }
    }
    None
}
