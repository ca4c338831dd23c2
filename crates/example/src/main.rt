//! Indexes three texts in memory and searches them, as a program of your own would.
#![tactic(auto)]

mod places;
mod texts;

use nequllpa::{AsciiTokenizer, DocSet, Field, TERMINATED, parse_query, search};

fn main(rt: HostRuntime) -> anyhow::Result<()> {
    let (schema, index) = texts::indexed(rt.alloc())?;
    places::print(&rt, &index)?;
    let body = [Field::from_field_id(0)];
    let query = parse_query(rt.alloc(), &schema, &body, &AsciiTokenizer, "the -bird")?;
    let mut found = search(rt.alloc(), &index, &query)?;
    print_all(&rt, &mut found)
}

// Prints the documents that were found.
fn print_all<D: DocSet>(rt: &HostRuntime, found: &mut D) -> anyhow::Result<()> {
    for _ in 0..found.size_hint() {
        if found.doc() >= TERMINATED {
            return Ok(());
        }
        println!(rt; "document {}", found.doc())?;
        found.advance();
    }
    Ok(())
}
