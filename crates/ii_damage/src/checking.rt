//! Finds the damages in all files of an index.
ghost use Rattle.std.specs.Prelude.{◌≡◌, ◌++◌, ℕ, List, OnOk, IfOk, [], if◌then◌else◌, length, map, ◌∷◌};
ghost use Rattle.std.specs.Option.{option_to_list};
ghost use Rattle.ii_io.specs.Faults.{OnlyMemory};
ghost use Rattle.ii_definitions.specs.Fields.{option_of};
ghost use Rattle.ii_definitions.specs.Files.{HoldTokens};
ghost use Rattle.ii_definitions.specs.Norms.{HoldNorms};
ghost use Rattle.ii_definitions.specs.IndexCalls.{MayAllBeIndexed, call_of};
ghost use Rattle.ii_definitions.specs.Tokens.{IndexToken, tokens_of};
ghost use Rattle.ii_definitions.specs.declared.index_call.IndexCall.{IndexCall};
ghost use Rattle.ii_base.specs.Words.{Word};
ghost use Rattle.ii_reader.specs.InvertedIndexReader.{InvertedIndexReaderState};
ghost use Rattle.ii_store.specs.Index.{view};
ghost use Rattle.ii_damage.specs.Damages.{count_damages, damages_of, field_damages, field_entries, index_files, reader_damages, table_damage, table_damages, unopened};
ghost use Rattle.ii_damage.specs.Fits.{AllFit, TokensOfCallsFit};
ghost use Rattle.ii_damage.specs.Totals.{AddsTotals, HasTotals, opened_reader, opened_readers};
ghost use Rattle.ii_damage.specs.Walked.{HasWalked};

use crate::counts::{kept_norms_damage, tokens_damage};
use crate::damage::{Damage, FoundDamage};
use crate::keys::all_keep_counts;
use crate::walked_files::{OpenedField, WalkedFiles};
use crate::walking::TermWalk;
use ii_base::{Fault, Field, FieldEntry, Part, Schema};
use ii_reader::InvertedIndexReader;
use ii_store::{Kind, StoredIndex};
use std::alloc::Global;

/// How much of an index was walked; each number stops at `u64::MAX`.
#[derive(Clone, Copy, Debug, PartialEq, Eq)]
pub struct Totals {
    pub terms: u64,
    pub postings: u64,
    pub positions: u64,
}

impl Totals {
    /// Returns the totals before anything is walked.
    pub fn nothing() -> Totals
        ensures { HasTotals [] result }
    {
        Totals {
            terms: 0,
            postings: 0,
            positions: 0,
        }
    }

    // Adds what was walked of a field.
    #[tactic(auto, using(crate::proofs::TotalsLemmas::one_total))]
    fn add(&mut self, terms: usize, walk: &TermWalk)
        ensures { (n : ℕ) (rs : List InvertedIndexReaderState) (r : InvertedIndexReaderState) → terms ≡ length r.terms → HasWalked n (field_entries r) walk.now → HasTotals rs self.old → HasTotals (rs ++ r ∷ []) self.new }
    {
        self.terms = self.terms.saturating_add(terms as u64);
        self.postings = self.postings.saturating_add(walk.postings);
        self.positions = self.positions.saturating_add(walk.positions);
    }
}

/// Finds the damages of an index over a schema, in the order of `damages_of`. First come files whose table is
/// not valid, then each field in order. A field's damages are its bodies that don't open, or its terms whose
/// list doesn't open or has a document that is not in the index. Where there are none of these, they are the
/// number of its tokens and its norms. Adds to `totals` what was walked. Fails only with `OutOfMemory`.
///
/// Files that hold tokens which fit the schema, and their norms, have no damages. The files that
/// `write_index` wrote are such files, since the tokens of all calls that may be indexed fit.
pub fn find_damages(
    alloc: Global,
    schema: &Schema,
    stored: StoredIndex,
    totals: &mut Totals,
) -> Result<Vec<FoundDamage>, Fault>
    ensures found { IfOk result (λ found. found.items ≡ damages_of schema.now (index_files (view stored))) }
    ensures totals { OnOk result (HasTotals [] totals.old → HasTotals (opened_readers schema.now (index_files (view stored))) totals.new) }
    // what was written has no damages
    ensures sound { (ts : List IndexToken) → HoldTokens (option_of schema.now) stored.terms.items stored.postings.items stored.positions.items ts
        → HoldNorms schema.now stored.num_docs stored.fieldnorms.items ts → AllFit schema.now stored.num_docs ts → IfOk result (λ found. found.items ≡ []) }
    ensures written { (words : List ℕ → List Word) (calls : List IndexCall) → MayAllBeIndexed schema.now stored.num_docs calls
        → HoldTokens (option_of schema.now) stored.terms.items stored.postings.items stored.positions.items (tokens_of words (map (call_of schema.now) calls))
        → HoldNorms schema.now stored.num_docs stored.fieldnorms.items (tokens_of words (map (call_of schema.now) calls)) → IfOk result (λ found. found.items ≡ []) }
    ensures only { OnlyMemory result }
{
    let files = WalkedFiles::open(alloc, stored)?;
    let found = damages_of(alloc, schema, &files, totals);
    drop(files);
    found
}

// Finds the damages of open files.
fn damages_of(
    alloc: Global,
    schema: &Schema,
    files: &WalkedFiles,
    totals: &mut Totals,
) -> Result<Vec<FoundDamage>, Fault>
    ensures found { IfOk result (λ found. found.items ≡ damages_of schema.now files.now) }
    ensures totals { OnOk result (AddsTotals (opened_readers schema.now files.now) totals.old totals.new) }
    ensures only { OnlyMemory result }
{
    let mut found = table_damages(alloc, files)?;
    for id in 0..schema.num_fields() as u32 {
        let field = Field::from_field_id(id);
        let entry = schema.get_field_entry(field);
        push_field(alloc, &mut found, files, field, entry, totals)?;
    }
    Ok(found)
}

// Finds the damages of the tables.
fn table_damages(alloc: Global, files: &WalkedFiles) -> Result<Vec<FoundDamage>, Fault>
    ensures found { IfOk result (λ found. found.items ≡ table_damages files.now) }
    ensures only { OnlyMemory result }
{
    let mut found = Vec::new(alloc);
    push_table(&mut found, files, Kind::Terms)?;
    push_table(&mut found, files, Kind::Postings)?;
    push_table(&mut found, files, Kind::Positions)?;
    push_table(&mut found, files, Kind::FieldNorms)?;
    Ok(found)
}

// Adds the damage of a file whose table is not valid.
fn push_table(found: &mut Vec<FoundDamage>, files: &WalkedFiles, kind: Kind) -> Result<(), Fault>
    ensures found { OnOk result (found.new.items ≡ found.old.items ++ option_to_list (table_damage files.now kind)) }
    ensures only { OnlyMemory result }
{
    let file = files.file(kind);
    if file.has_valid_table() {
        return Ok(());
    }
    let damage = Damage::Part(Part::Composite);
    found.push(FoundDamage::of_file(kind, damage, file.all()))?;
    Ok(())
}

// Adds the damages of a field.
fn push_field(
    alloc: Global,
    found: &mut Vec<FoundDamage>,
    files: &WalkedFiles,
    field: Field,
    entry: &FieldEntry,
    totals: &mut Totals,
) -> Result<(), Fault>
    ensures found { OnOk result (found.new.items ≡ found.old.items ++ field_damages files.now (field, entry.now)) }
    ensures totals { OnOk result (AddsTotals (option_to_list (opened_reader files.now (field, entry.now))) totals.old totals.new) }
    ensures only { OnlyMemory result }
{
    match files.open_field(field, entry.index_record_option())? {
        OpenedField::Reader(reader) => {
            let made = reader_damages(alloc, files, field, entry, &reader, totals);
            drop(reader);
            let mut made = made?;
            found.append(&mut made)?;
            Ok(())
        }
        OpenedField::Damaged(kind, part) => push_unopened(found, files, field, kind, part),
    }
}

// Adds the damage of a field whose bodies don't open, unless the file's table is damaged.
fn push_unopened(
    found: &mut Vec<FoundDamage>,
    files: &WalkedFiles,
    field: Field,
    kind: Kind,
    part: Part,
) -> Result<(), Fault>
    ensures found { OnOk result (found.new.items ≡ found.old.items ++ unopened files.now field (kind, part)) }
    ensures only { OnlyMemory result }
{
    let file = files.file(kind);
    if !file.has_valid_table() {
        return Ok(());
    }
    let place = file.place(field);
    found.push(FoundDamage::of_field(field, kind, Damage::Part(part), place))?;
    Ok(())
}

// Finds the damages of a field whose bodies open.
fn reader_damages(
    alloc: Global,
    files: &WalkedFiles,
    field: Field,
    entry: &FieldEntry,
    reader: &InvertedIndexReader,
    totals: &mut Totals,
) -> Result<Vec<FoundDamage>, Fault>
    ensures found { IfOk result (λ found. found.items ≡ reader_damages files.now field entry.now reader.now) }
    ensures totals { OnOk result (AddsTotals (reader.now ∷ []) totals.old totals.new) }
    ensures only { OnlyMemory result }
{
    let mut walk = TermWalk::new(alloc, files.num_docs())?;
    let found = walked_damages(alloc, files, field, entry, reader, &mut walk);
    totals.add(reader.terms().num_terms(), &walk);
    drop(walk);
    found
}

// Walks the lists of a field and returns its damages.
fn walked_damages(
    alloc: Global,
    files: &WalkedFiles,
    field: Field,
    entry: &FieldEntry,
    reader: &InvertedIndexReader,
    walk: &mut TermWalk,
) -> Result<Vec<FoundDamage>, Fault>
    requires { HasWalked files.now.num_docs [] walk.old }
    ensures found { IfOk result (λ found. found.items ≡ reader_damages files.now field entry.now reader.now) }
    ensures walked { OnOk result (HasWalked files.now.num_docs (field_entries reader.now) walk.new) }
    ensures only { OnlyMemory result }
{
    let found = walk.walk_terms(alloc, reader, files.num_docs(), &files.places(field))?;
    if found.is_empty() {
        drop(found);
        return count_damages(alloc, files, field, entry, reader, walk);
    }
    Ok(found)
}

// Finds the damages of a field's number of tokens and norms.
fn count_damages(
    alloc: Global,
    files: &WalkedFiles,
    field: Field,
    entry: &FieldEntry,
    reader: &InvertedIndexReader,
    walk: &TermWalk,
) -> Result<Vec<FoundDamage>, Fault>
    requires { HasWalked files.now.num_docs (field_entries reader.now) walk.now }
    ensures found { IfOk result (λ found. found.items ≡ count_damages files.now field entry.now reader.now) }
    ensures only { OnlyMemory result }
{
    let mut found = Vec::new(alloc);
    if !files.file(Kind::Terms).has_valid_table() {
        return Ok(found);
    }
    let all_kept = all_keep_counts(entry, reader);
    let num_tokens = reader.total_num_tokens();
    let tokens = tokens_damage(files, field, all_kept, num_tokens, walk.tokens);
    push_some(&mut found, tokens)?;
    let norms = kept_norms_damage(files, field, entry, all_kept, walk.counts.as_slice())?;
    push_some(&mut found, norms)?;
    Ok(found)
}

// Adds a damage, if there is one.
fn push_some(found: &mut Vec<FoundDamage>, damage: Option<FoundDamage>) -> Result<(), Fault>
    ensures found { OnOk result (found.new.items ≡ found.old.items ++ option_to_list damage) }
    ensures only { OnlyMemory result }
{
    let Some(damage) = damage else {
        return Ok(());
    };
    found.push(damage)?;
    Ok(())
}

/// States that the tokens of all calls that may be indexed fit the schema.
#[tactic(auto, using(crate::proofs::CallsFit::calls_fit))]
pub fn tokens_of_calls_fit()
    ensures { TokensOfCallsFit }
{}
