use std::io;
use std::time::Duration;

/// The number of rounds. The least time counts, since other programs only add to it.
pub const ROUNDS: u32 = 7;

/// Prints a row: the name in parts, nanoseconds per item in hundredths, and megabytes per second.
pub fn print_row(
    rt: &HostRuntime,
    name: [&str; 3],
    took: Duration,
    items: u64,
    bytes: u64,
) -> io::Result<()> {
    let nanos = u64::try_from(took.as_nanos()).unwrap_or(u64::MAX).max(1);
    let hundredths = nanos.saturating_mul(100) / items.max(1);
    let (whole, rest) = (hundredths / 100, hundredths % 100);
    let speed = bytes.saturating_mul(1000) / nanos;
    let [first, middle, last] = name;
    println!(rt; "| {first}{middle}{last} | {whole}.{rest:02} | {speed} |")
}
