//! Creates an index of three documents in memory, searches it, and ranks what matches.
#![tactic(auto)]

use nequllpa::{DocSet, Field, Index, MemoryDirectory, TERMINATED, TopDocs};

const SCHEMA: &str = "[[field]]\nname = \"body\"\ntype = \"text\"\n";

fn main(rt: HostRuntime) -> anyhow::Result<()> {
    let index = Index::create(rt.alloc(), MemoryDirectory::create(rt.alloc()), SCHEMA)?;
    let mut writer = index.writer(rt.alloc(), 50_000_000)?;
    writer.add_document(rt.alloc(), "{\"body\": \"the old man and the sea\"}")?;
    writer.add_document(rt.alloc(), "{\"body\": \"a bird in the hand\"}")?;
    writer.add_document(rt.alloc(), "{\"body\": \"the sea, the old sea\"}")?;
    writer.commit(rt.alloc())?;
    let index = writer.into_index();
    let reader = index.reader(rt.alloc())?;
    let body = [Field::from_field_id(0)];
    let query = index.parse_query(rt.alloc(), &body, "\"old sea\" OR bird")?;
    let searcher = reader.searcher();
    let best = searcher.top_docs(rt.alloc(), &query, &TopDocs::with_limit(1))?;
    let mut found = searcher.search(rt.alloc(), &query)?;
    for (_, doc) in &best {
        println!(rt; "best: document {doc}")?;
    }
    for _ in 0..searcher.num_docs() {
        if found.doc() >= TERMINATED {
            return Ok(());
        }
        println!(rt; "document {}", found.doc())?;
        found.advance();
    }
    Ok(())
}
