// Documents in two batches: what is found of them after commits, a rollback and a merge.
use ii_index::{
    Directory, DocSet, Field, Folder, Index, IndexError, IndexWriter, LockedFolder,
    MemoryDirectory, PreparedSearch, TERMINATED, Term, TopDocs,
};
use std::alloc::Global;
use std::fs;
use std::test::Fail;

static SCHEMA: &str = "[[field]]\nname = \"body\"\ntype = \"text\"\n";

static DOCUMENTS: [&str; 4] = [
    "{\"body\": \"the old man and the sea\"}",
    "{\"body\": \"a bird in the hand\"}",
    "{\"body\": \"The Sea, the old sea\"}",
    "{}",
];

// Budgets of memory: each document becomes a segment, some do, or all of a commit become one.
static BUDGETS: [usize; 5] = [0, 175, 200, 350, 1_000_000];

const AMPLE: usize = 1_000_000;

// A query, and the documents that match it.
type Row = (&'static str, &'static str);

static ROWS: [Row; 5] = [
    ("sea", "0,2,of 4"),
    ("\"old sea\"", "2,of 4"),
    ("the NOT bird", "0,2,of 4"),
    ("man OR hand", "0,1,of 4"),
    ("storm", "of 4"),
];

// Adds documents to a writer.
fn add(
    alloc: Global,
    writer: &mut IndexWriter<MemoryDirectory>,
    documents: &[&str],
) -> Result<(), Fail> {
    for document in documents {
        writer.add_document(alloc, document)?;
    }
    Ok(())
}

// Returns a writer of a new index, in which the documents up to a place are committed, and then the others.
fn committed(alloc: Global, place: usize) -> Result<IndexWriter<MemoryDirectory>, Fail> {
    committed_within(alloc, place, AMPLE)
}

// The same, where documents in memory may take a budget.
fn committed_within(
    alloc: Global,
    place: usize,
    budget: usize,
) -> Result<IndexWriter<MemoryDirectory>, Fail> {
    let index = Index::create(alloc, MemoryDirectory::create(alloc), SCHEMA)?;
    let mut writer = index.writer(alloc, budget)?;
    let (first, others) = DOCUMENTS.split_at(place.min(DOCUMENTS.len()));
    add(alloc, &mut writer, first)?;
    writer.commit(alloc)?;
    add(alloc, &mut writer, others)?;
    writer.commit(alloc)?;
    Ok(writer)
}

// Lists the documents of a cursor, each followed by a comma.
fn listed<D: DocSet>(alloc: Global, cursor: &mut D) -> Result<String, Fail> {
    let mut text = String::new(alloc);
    for _ in 0..8 {
        let doc = cursor.doc();
        if doc >= TERMINATED {
            return Ok(text);
        }
        write!(text, "{doc},")?;
        cursor.advance();
    }
    Ok(text)
}

// Lists the documents that match a text, and the number of all.
fn found(alloc: Global, index: &Index<MemoryDirectory>, text: &str) -> Result<String, Fail> {
    let reader = index.reader(alloc)?;
    let query = index.parse_query(alloc, &[Field::from_field_id(0)], text)?;
    let searcher = reader.searcher();
    let mut cursor = searcher.search(alloc, &query)?;
    let mut text = listed(alloc, &mut cursor)?;
    write!(text, "of {}", searcher.num_docs())?;
    Ok(text)
}

#[test]
fn committed_documents_are_found(rt: HostRuntime) -> Result<(), Fail> {
    for place in 0..5 {
        for budget in &BUDGETS {
            let writer = committed_within(rt.alloc(), place, *budget)?;
            for (text, wanted) in &ROWS {
                let found = found(rt.alloc(), writer.index(), text)?;
                assert!(rt; found.as_str() == *wanted);
            }
        }
    }
    Ok(())
}

#[test]
fn merged_documents_are_found(rt: HostRuntime) -> Result<(), Fail> {
    let mut writer = committed(rt.alloc(), 2)?;
    writer.merge(rt.alloc(), 0)?;
    for (text, wanted) in &ROWS {
        let found = found(rt.alloc(), writer.index(), text)?;
        assert!(rt; found.as_str() == *wanted);
    }
    Ok(())
}

#[test]
fn dropped_documents_are_not_found(rt: HostRuntime) -> Result<(), Fail> {
    let mut writer = committed(rt.alloc(), 1)?;
    add(rt.alloc(), &mut writer, &DOCUMENTS)?;
    writer.rollback(rt.alloc())?;
    writer.commit(rt.alloc())?;
    let found = found(rt.alloc(), writer.index(), "sea")?;
    assert!(rt; found.as_str() == "0,2,of 4");
    Ok(())
}

#[test]
fn a_second_index_is_refused(rt: HostRuntime) -> Result<(), Fail> {
    let writer = committed(rt.alloc(), 4)?;
    let directory = writer.into_index().into_directory();
    assert!(rt; Index::create(rt.alloc(), directory, SCHEMA).is_err());
    Ok(())
}

#[test]
fn an_index_is_opened(rt: HostRuntime) -> Result<(), Fail> {
    let writer = committed(rt.alloc(), 3)?;
    let index = Index::open(rt.alloc(), writer.into_index().into_directory())?;
    let found = found(rt.alloc(), &index, "old")?;
    assert!(rt; found.as_str() == "0,2,of 4");
    Ok(())
}

// What is done with a writer, in order: a document is added, those of a word are deleted, or all is committed.
enum Step {
    Add(&'static str),
    Delete(&'static str),
    Commit,
}

// Steps, a query, and the documents that match it afterwards.
type Session = (&'static [Step], &'static str, &'static str);

const MAN: Step = Step::Add("{\"body\": \"the old man and the sea\"}");

const BIRD: Step = Step::Add("{\"body\": \"a bird in the hand\"}");

const SEA: Step = Step::Add("{\"body\": \"the sea, the old sea\"}");

const KEY: Step = Step::Add("{\"body\": \"key one\"}");

const OTHER: Step = Step::Add("{\"body\": \"key two\"}");

static SESSIONS: [Session; 8] = [
    // in two segments
    (
        &[
            MAN,
            BIRD,
            Step::Commit,
            BIRD,
            SEA,
            Step::Commit,
            Step::Delete("sea"),
            Step::Commit,
        ],
        "the OR sea",
        "0,1,of 2",
    ),
    // a term that no document has
    (
        &[MAN, BIRD, Step::Commit, Step::Delete("storm"), Step::Commit],
        "the",
        "0,1,of 2",
    ),
    // a key is replaced twice
    (
        &[
            KEY,
            BIRD,
            Step::Commit,
            Step::Delete("key"),
            OTHER,
            Step::Commit,
            Step::Delete("key"),
            KEY,
            Step::Commit,
        ],
        "key OR bird",
        "0,1,of 2",
    ),
    // a pending document is deleted, one that is added later isn't
    (
        &[MAN, KEY, Step::Delete("key"), OTHER, BIRD, Step::Commit],
        "key",
        "1,of 3",
    ),
    // nothing is deleted before a commit
    (
        &[MAN, SEA, Step::Commit, Step::Delete("man")],
        "sea",
        "0,1,of 2",
    ),
    // all documents
    (
        &[MAN, Step::Commit, SEA, Step::Delete("sea"), Step::Commit],
        "sea OR the",
        "of 0",
    ),
    // a second delete of what was deleted
    (
        &[
            MAN,
            SEA,
            BIRD,
            Step::Commit,
            Step::Delete("man"),
            Step::Commit,
            Step::Delete("old"),
            Step::Delete("man"),
            Step::Commit,
        ],
        "the",
        "0,of 1",
    ),
    // two keys in one commit, one of them twice
    (
        &[
            KEY,
            Step::Delete("one"),
            KEY,
            Step::Delete("one"),
            KEY,
            OTHER,
            Step::Delete("two"),
            Step::Commit,
        ],
        "key",
        "0,of 1",
    ),
];

// Makes a step.
fn make(alloc: Global, writer: &mut IndexWriter<MemoryDirectory>, step: &Step) -> Result<(), Fail> {
    match step {
        Step::Add(document) => writer.add_document(alloc, document)?,
        Step::Delete(word) => {
            let Some(field) = writer.index().field_named("body") else {
                return Ok(());
            };
            writer.delete_term(Term::from_field_text(alloc, field, word)?)?;
        }
        Step::Commit => writer.commit(alloc)?,
    }
    Ok(())
}

#[test]
fn deleted_documents_are_not_found(rt: HostRuntime) -> Result<(), Fail> {
    for budget in &BUDGETS {
        for session in &SESSIONS {
            let found = found_after(rt.alloc(), *budget, session)?;
            assert!(rt; found.as_str() == session.2);
        }
    }
    Ok(())
}

// Lists what is found after the steps of a session.
fn found_after(alloc: Global, budget: usize, session: &Session) -> Result<String, Fail> {
    let (steps, text, _) = *session;
    let index = Index::create(alloc, MemoryDirectory::create(alloc), SCHEMA)?;
    let mut writer = index.writer(alloc, budget)?;
    for step in steps {
        make(alloc, &mut writer, step)?;
    }
    found(alloc, writer.index(), text)
}

// A budget, and how many segments the four documents become, which have 35, 30, 32 and 2 bytes.
static SEGMENTS: [(usize, usize); 8] = [
    (0, 4),
    (150, 4),
    (175, 3),
    (200, 2),
    (350, 2),
    (485, 2),
    (490, 1),
    (1_000_000, 1),
];

// Returns how many files a directory has.
fn num_files(alloc: Global, index: &Index<MemoryDirectory>) -> Result<usize, Fail> {
    Ok(index.directory().list(alloc)?.len())
}

#[test]
fn documents_become_segments_by_the_budget(rt: HostRuntime) -> Result<(), Fail> {
    for (budget, segments) in &SEGMENTS {
        let index = Index::create(rt.alloc(), MemoryDirectory::create(rt.alloc()), SCHEMA)?;
        let before = num_files(rt.alloc(), &index)?;
        let mut writer = index.writer(rt.alloc(), *budget)?;
        add(rt.alloc(), &mut writer, &DOCUMENTS)?;
        writer.commit(rt.alloc())?;
        // terms, postings, positions, norms, counts and tables of blocks
        assert!(rt;
            num_files(rt.alloc(), writer.index())?
                == before.saturating_add(segments.saturating_mul(6))
        );
    }
    Ok(())
}

#[test]
fn written_documents_are_not_found_before_a_commit(rt: HostRuntime) -> Result<(), Fail> {
    let mut writer = committed_within(rt.alloc(), 2, 0)?;
    let before = num_files(rt.alloc(), writer.index())?;
    add(rt.alloc(), &mut writer, &DOCUMENTS)?;
    make(rt.alloc(), &mut writer, &Step::Delete("sea"))?;
    assert!(rt; num_files(rt.alloc(), writer.index())? == before.saturating_add(24));
    for (text, wanted) in &ROWS {
        let found = found(rt.alloc(), writer.index(), text)?;
        assert!(rt; found.as_str() == *wanted);
    }
    writer.commit(rt.alloc())?;
    let found = found(rt.alloc(), writer.index(), "the")?;
    assert!(rt; found.as_str() == "0,2,of 4");
    Ok(())
}

#[test]
fn written_documents_are_dropped(rt: HostRuntime) -> Result<(), Fail> {
    let mut writer = committed_within(rt.alloc(), 4, 0)?;
    add(rt.alloc(), &mut writer, &DOCUMENTS)?;
    writer.rollback(rt.alloc())?;
    writer.commit(rt.alloc())?;
    for (text, wanted) in &ROWS {
        let found = found(rt.alloc(), writer.index(), text)?;
        assert!(rt; found.as_str() == *wanted);
    }
    assert!(rt; writer.garbage_collect_files(rt.alloc())? == 24);
    add(rt.alloc(), &mut writer, &[DOCUMENTS[0]])?;
    writer.commit(rt.alloc())?;
    let found = found(rt.alloc(), writer.index(), "sea")?;
    assert!(rt; found.as_str() == "0,2,4,of 5");
    Ok(())
}

#[test]
fn written_segments_are_committed_before_a_merge(rt: HostRuntime) -> Result<(), Fail> {
    let mut writer = committed_within(rt.alloc(), 4, 0)?;
    add(rt.alloc(), &mut writer, &[DOCUMENTS[1]])?;
    assert!(rt; matches!(writer.merge(rt.alloc(), 0), Err(IndexError::Uncommitted)));
    assert!(rt;
        matches!(
            writer.garbage_collect_files(rt.alloc()),
            Err(IndexError::Uncommitted)
        )
    );
    writer.commit(rt.alloc())?;
    writer.merge(rt.alloc(), 0)?;
    writer.garbage_collect_files(rt.alloc())?;
    let found = found(rt.alloc(), writer.index(), "bird")?;
    assert!(rt; found.as_str() == "1,4,of 5");
    Ok(())
}

#[test]
fn a_text_that_is_no_document_changes_nothing(rt: HostRuntime) -> Result<(), Fail> {
    for budget in &BUDGETS {
        let index = Index::create(rt.alloc(), MemoryDirectory::create(rt.alloc()), SCHEMA)?;
        let mut writer = index.writer(rt.alloc(), *budget)?;
        for document in &DOCUMENTS {
            add(rt.alloc(), &mut writer, &[*document])?;
            assert!(rt;
                matches!(
                    writer.add_document(rt.alloc(), "{\"title\": 1}"),
                    Err(IndexError::Document(_))
                )
            );
            assert!(rt;
                matches!(
                    writer.add_document(rt.alloc(), "[]"),
                    Err(IndexError::Document(_))
                )
            );
        }
        writer.commit(rt.alloc())?;
        let found = found(rt.alloc(), writer.index(), "sea")?;
        assert!(rt; found.as_str() == "0,2,of 4");
    }
    Ok(())
}

// A query, how many documents are wanted after how many better ones, and the best documents, each with its score.
type Ranked = (&'static str, usize, usize, &'static str);

static RANKED: [Ranked; 9] = [
    ("sea", 9, 0, "2:244769570918,0:158176549920,"),
    ("the", 9, 0, "2:125951838975,0:118187670285,1:88945378899,"),
    ("the", 2, 0, "2:125951838975,0:118187670285,"),
    ("the", 2, 2, "1:88945378899,"),
    ("the", 9, 3, ""),
    ("the", 0, 0, ""),
    ("old OR bird", 1, 1, "2:172852753921,"),
    (
        "\"old sea\" OR bird",
        9,
        0,
        "2:345705534868,1:300239319347,",
    ),
    ("storm", 9, 0, ""),
];

// The same once the document with a bird is deleted.
static LEFT: [Ranked; 4] = [
    ("sea", 9, 0, "1:161159035761,0:102507709453,"),
    ("the", 1, 1, "0:150673979470,"),
    ("man OR hand", 9, 0, "0:213918721656,"),
    ("\"old sea\" OR bird", 9, 0, "1:224927038387,"),
];

// Lists the best documents that match a text, each with its score.
fn ranked(alloc: Global, index: &Index<MemoryDirectory>, row: &Ranked) -> Result<String, Fail> {
    let reader = index.reader(alloc)?;
    let query = index.parse_query(alloc, &[Field::from_field_id(0)], row.0)?;
    let docs = TopDocs::with_limit(row.1).and_offset(row.2);
    let best = reader.searcher().top_docs(alloc, &query, &docs)?;
    let mut text = String::new(alloc);
    for (score, doc) in &best {
        write!(text, "{doc}:{score},")?;
    }
    Ok(text)
}

// Queries, and of each of their best documents how many shares its score has, and what they leave of it.
static EXPLAINED: [Ranked; 5] = [
    ("sea", 9, 0, "2:1:0,0:1:0,of 9:0"),
    ("the OR sea", 9, 0, "2:2:0,0:2:0,1:1:0,of 9:0"),
    ("\"old sea\" OR bird", 9, 0, "2:1:0,1:1:0,of 9:0"),
    ("the NOT bird", 1, 1, "0:1:0,of 9:0"),
    ("storm", 9, 0, "of 9:0"),
];

// Lists the best documents that match a text, with the number of shares of their scores and what these leave of them;
// and the number of shares of a document that isn't there.
fn explained(alloc: Global, index: &Index<MemoryDirectory>, row: &Ranked) -> Result<String, Fail> {
    let reader = index.reader(alloc)?;
    let searcher = reader.searcher();
    let query = index.parse_query(alloc, &[Field::from_field_id(0)], row.0)?;
    let docs = TopDocs::with_limit(row.1).and_offset(row.2);
    let best = searcher.top_docs(alloc, &query, &docs)?;
    let mut text = String::new(alloc);
    for (score, doc) in &best {
        let shares = searcher.explain(alloc, &query, *doc)?;
        let left = shares
            .iter()
            .fold(*score, |left, share| left.wrapping_sub(share.score));
        write!(text, "{doc}:{}:{left},", shares.len())?;
    }
    let none = searcher.explain(alloc, &query, 9)?;
    write!(text, "of 9:{}", none.len())?;
    Ok(text)
}

#[test]
fn shares_add_up_to_the_scores(rt: HostRuntime) -> Result<(), Fail> {
    for place in 0..5 {
        let writer = committed(rt.alloc(), place)?;
        for row in &EXPLAINED {
            let found = explained(rt.alloc(), writer.index(), row)?;
            assert!(rt; found.as_str() == row.3);
        }
    }
    Ok(())
}

#[test]
fn the_best_documents_come_first(rt: HostRuntime) -> Result<(), Fail> {
    for place in 0..5 {
        let mut writer = committed(rt.alloc(), place)?;
        for row in &RANKED {
            let found = ranked(rt.alloc(), writer.index(), row)?;
            assert!(rt; found.as_str() == row.3);
        }
        make(rt.alloc(), &mut writer, &Step::Delete("bird"))?;
        make(rt.alloc(), &mut writer, &Step::Commit)?;
        for row in &LEFT {
            let found = ranked(rt.alloc(), writer.index(), row)?;
            assert!(rt; found.as_str() == row.3);
        }
        writer.merge(rt.alloc(), 0)?;
        for row in &LEFT {
            let found = ranked(rt.alloc(), writer.index(), row)?;
            assert!(rt; found.as_str() == row.3);
        }
    }
    Ok(())
}

// Queries, once the document with a bird is deleted.
static PREPARED: [Ranked; 9] = [
    ("sea", 9, 0, "1:161159035761,0:102507709453,"),
    ("sea", 1, 0, "1:161159035761,"),
    ("sea", 9, 1, "0:102507709453,"),
    ("sea", 0, 0, ""),
    ("the", 1, 1, "0:150673979470,"),
    ("bird", 9, 0, ""),
    ("storm", 9, 0, ""),
    ("man OR hand", 9, 0, "0:213918721656,"),
    ("\"old sea\" OR bird", 9, 0, "1:224927038387,"),
];

// Returns a writer of an index of three segments, of which a document with a bird is deleted.
fn three_segments(alloc: Global) -> Result<IndexWriter<MemoryDirectory>, Fail> {
    let index = Index::create(alloc, MemoryDirectory::create(alloc), SCHEMA)?;
    let mut writer = index.writer(alloc, AMPLE)?;
    let (first, others) = DOCUMENTS.split_at(2);
    add(alloc, &mut writer, first)?;
    writer.commit(alloc)?;
    for document in others {
        add(alloc, &mut writer, &[*document])?;
        writer.commit(alloc)?;
    }
    make(alloc, &mut writer, &Step::Delete("bird"))?;
    make(alloc, &mut writer, &Step::Commit)?;
    Ok(writer)
}

// Lists the best documents of a prepared query, each with its score.
fn best_of(alloc: Global, prepared: &PreparedSearch<'_>, row: &Ranked) -> Result<String, Fail> {
    let docs = TopDocs::with_limit(row.1).and_offset(row.2);
    let best = prepared.top_docs(alloc, &docs)?;
    let mut text = String::new(alloc);
    for (score, doc) in &best {
        write!(text, "{doc}:{score},")?;
    }
    Ok(text)
}

// Prepares a query, and lists its best documents twice.
fn best_twice(
    alloc: Global,
    index: &Index<MemoryDirectory>,
    row: &Ranked,
) -> Result<(String, String), Fail> {
    let reader = index.reader(alloc)?;
    let query = index.parse_query(alloc, &[Field::from_field_id(0)], row.0)?;
    let prepared = reader.searcher().prepare(alloc, &query)?;
    let first = best_of(alloc, &prepared, row)?;
    let second = best_of(alloc, &prepared, row)?;
    Ok((first, second))
}

#[test]
fn a_prepared_query_is_searched_twice(rt: HostRuntime) -> Result<(), Fail> {
    let writer = three_segments(rt.alloc())?;
    for row in &PREPARED {
        let (first, second) = best_twice(rt.alloc(), writer.index(), row)?;
        assert!(rt; first.as_str() == row.3);
        assert!(rt; second.as_str() == row.3);
        let found = ranked(rt.alloc(), writer.index(), row)?;
        assert!(rt; found.as_str() == row.3);
    }
    Ok(())
}

// Returns how many documents have a word.
fn doc_freq(alloc: Global, index: &Index<MemoryDirectory>, word: &str) -> Result<u32, Fail> {
    let reader = index.reader(alloc)?;
    let Some(field) = index.field_named("body") else {
        return Ok(0);
    };
    let term = Term::from_field_text(alloc, field, word)?;
    Ok(reader.searcher().doc_freq(alloc, &term)?)
}

#[test]
fn documents_are_counted(rt: HostRuntime) -> Result<(), Fail> {
    let writer = committed(rt.alloc(), 1)?;
    let reader = writer.index().reader(rt.alloc())?;
    let body = [Field::from_field_id(0)];
    let query = writer
        .index()
        .parse_query(rt.alloc(), &body, "old OR hand")?;
    assert!(rt; reader.searcher().count(rt.alloc(), &query)? == 3);
    assert!(rt; doc_freq(rt.alloc(), writer.index(), "the")? == 3);
    assert!(rt; doc_freq(rt.alloc(), writer.index(), "storm")? == 0);
    Ok(())
}

#[test]
fn garbage_is_collected(rt: HostRuntime) -> Result<(), Fail> {
    let mut writer = committed(rt.alloc(), 2)?;
    writer.merge(rt.alloc(), 0)?;
    assert!(rt; writer.garbage_collect_files(rt.alloc())? > 0);
    assert!(rt; writer.garbage_collect_files(rt.alloc())? == 0);
    for (text, wanted) in &ROWS {
        let found = found(rt.alloc(), writer.index(), text)?;
        assert!(rt; found.as_str() == *wanted);
    }
    Ok(())
}

// Returns how many documents an index in a folder has, in which one is committed: through the folder that is locked,
// and through another one that isn't. Meanwhile a second lock is refused.
fn counted_in_folder(rt: &HostRuntime, path: &str) -> Result<(u32, u32, bool), Fail> {
    let Some(folder) = LockedFolder::try_lock(rt, path)? else {
        return Ok((0, 0, false));
    };
    let index = Index::create(rt.alloc(), folder, SCHEMA)?;
    let mut writer = index.writer(rt.alloc(), AMPLE)?;
    writer.add_document(rt.alloc(), DOCUMENTS[0])?;
    writer.commit(rt.alloc())?;
    let read = writer.index().reader(rt.alloc())?;
    let other = Index::open(rt.alloc(), Folder::new(rt, path))?.reader(rt.alloc())?;
    let is_refused = LockedFolder::try_lock(rt, path)?.is_none();
    Ok((
        read.searcher().num_docs(),
        other.searcher().num_docs(),
        is_refused,
    ))
}

#[test]
fn a_folder_has_one_writer(rt: HostRuntime) -> Result<(), Fail> {
    let path = "/tmp/ii_index_tests_locked";
    let _ = fs::remove_dir_all(&rt, path);
    fs::create_dir(&rt, path)?;
    let counted = counted_in_folder(&rt, path)?;
    let is_free = LockedFolder::try_lock(&rt, path)?.is_some();
    fs::remove_dir_all(&rt, path)?;
    assert!(rt; counted == (1, 1, true));
    assert!(rt; is_free);
    Ok(())
}
