//! How long the parts of a command take, which the option `--timing` prints.
use clap::ArgMatches;
use nequllpa_writing::PROGRAM;
use std::time::Instant;

/// The start of a part of a command, if its time is printed.
#[derive(Clone, Copy)]
pub struct Timing {
    begun: Option<Instant>,
}

impl Timing {
    /// Starts a part of a command.
    pub fn begin(rt: &HostRuntime, given: &ArgMatches<'_>) -> anyhow::Result<Timing> {
        if !given.get_flag("timing") {
            return Ok(Timing { begun: None });
        }
        Ok(Timing {
            begun: Some(Instant::now(rt)?),
        })
    }

    /// Prints on standard error how long the part took, in milliseconds.
    pub fn tell(&self, rt: &HostRuntime, what: &str) -> anyhow::Result<()> {
        if let Some(begun) = &self.begun {
            let micros = begun.elapsed(rt)?.as_micros();
            eprintln!(rt;
                "{PROGRAM}: {what}: {}.{:03} ms",
                micros / 1000,
                micros % 1000
            )?;
        }
        Ok(())
    }
}
