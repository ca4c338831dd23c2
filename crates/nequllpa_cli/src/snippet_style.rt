//! How the command `search` marks words in snippets.
use clap::ArgMatches;
use nequllpa_searching::MarkStyle;
use std::fs;

/// Returns how words are marked: as HTML in JSON, which --batch prints too, otherwise as --color says. `None` if it has
/// another value.
pub fn style_given(rt: &HostRuntime, given: &ArgMatches<'_>) -> Option<MarkStyle> {
    let when = given.get_str("color").unwrap_or("auto");
    let style = if when == "always" {
        MarkStyle::Terminal
    } else if when == "never" {
        MarkStyle::Plain
    } else if when == "auto" {
        style_of_output(rt)
    } else {
        return None;
    };
    if given.get_flag("json") || given.get_flag("batch") {
        return Some(MarkStyle::Html);
    }
    Some(style)
}

// Returns how words are marked on standard output.
fn style_of_output(rt: &HostRuntime) -> MarkStyle {
    match fs::read_link(rt, "/proc/self/fd/1") {
        Ok(path) => {
            if is_terminal(path.as_str()) {
                MarkStyle::Terminal
            } else {
                MarkStyle::Plain
            }
        }
        Err(_) => MarkStyle::Plain,
    }
}

// Returns whether a file with this name is a terminal.
fn is_terminal(name: &str) -> bool {
    name.starts_with("/dev/pts/") || name.starts_with("/dev/tty") || name == "/dev/console"
}
