//! Compares the numbers of tokens that an index stores with those of its lists.
ghost use Rattle.std.specs.Prelude.{◌≡◌, ◌<◌, ℕ, IfOk, IfSome, List, Some, length, min};
ghost use Rattle.ii_io.specs.Faults.{OnlyMemory};
ghost use Rattle.ii_base.specs.Entries.{Entry};
ghost use Rattle.ii_base.specs.Schema.{keeps_norms};
ghost use Rattle.ii_damage.specs.Damages.{kept_norms_damage, may_have, norms_damage, other_norm, tokens_damage, max_u128};
ghost use Rattle.ii_damage.specs.Walked.{HasCounts};

use crate::damage::{ByteRange, Damage, FoundDamage};
use crate::walked_files::WalkedFiles;
use ii_base::{DocId, Fault, Field, FieldEntry};
use ii_fieldnorm::fieldnorm_to_id;
use ii_store::Kind;

// The size of a field's number of tokens, in bytes.
const TOKEN_COUNT_SIZE: u64 = 8;

// Returns the damage of a field's stored number of tokens, where its lists have `tokens`, capped at
// `u128::MAX`.
pub(crate) fn tokens_damage(
    files: &WalkedFiles,
    field: Field,
    all_kept: bool,
    num_tokens: u64,
    tokens: u128,
) -> Option<FoundDamage>
    ensures { (listed : ℕ) → tokens ≡ min listed max_u128 → result ≡ tokens_damage files.now field all_kept num_tokens listed }
{
    if may_have(all_kept, num_tokens, tokens) {
        return None;
    }
    let place = files.file(Kind::Postings).place(field);
    let bytes = ByteRange::shifted(place.start, 0, TOKEN_COUNT_SIZE);
    let damage = Damage::Tokens(num_tokens, tokens);
    Some(FoundDamage::of_field(field, Kind::Postings, damage, bytes))
}

// Returns whether a field may store `num_tokens` when its lists have `tokens`.
fn may_have(all_kept: bool, num_tokens: u64, tokens: u128) -> bool
    ensures { (listed : ℕ) → tokens ≡ min listed max_u128 → result ≡ may_have all_kept num_tokens listed }
{
    if all_kept {
        return u128::from(num_tokens) == tokens;
    }
    tokens <= u128::from(num_tokens)
}

// Returns the damage of the norms of a field that keeps them; `counts` are its documents' numbers of tokens.
pub(crate) fn kept_norms_damage(
    files: &WalkedFiles,
    field: Field,
    entry: &FieldEntry,
    all_kept: bool,
    counts: &[u32],
) -> Result<Option<FoundDamage>, Fault>
    requires { length counts.now ≡ files.now.num_docs }
    ensures found { IfOk result (λ found. (es : List Entry) → HasCounts files.now.num_docs es counts.now → found ≡ kept_norms_damage files.now field entry.now all_kept es) }
    ensures only { OnlyMemory result }
{
    let file = files.file(Kind::FieldNorms);
    if !keeps_norms(entry) {
        return Ok(None);
    }
    if !file.has_valid_table() {
        return Ok(None);
    }
    let body = file.place(field);
    let Some(ids) = file.body(field)? else {
        let damage = FoundDamage::of_field(field, Kind::FieldNorms, Damage::NoNorms, body);
        return Ok(Some(damage));
    };
    let num_docs = files.num_docs();
    Ok(norms_damage(num_docs, field, body, all_kept, counts, ids.as_slice()))
}

// Returns whether a field keeps norms.
fn keeps_norms(entry: &FieldEntry) -> bool
    ensures { result ≡ keeps_norms entry.now }
{
    entry.is_indexed() & entry.has_fieldnorms()
}

// Returns the damage of a field's norms; `counts` are its documents' numbers of tokens.
fn norms_damage(
    num_docs: DocId,
    field: Field,
    body: ByteRange,
    all_kept: bool,
    counts: &[u32],
    ids: &[u8],
) -> Option<FoundDamage>
    requires { length counts.now ≡ num_docs }
    ensures { (es : List Entry) → HasCounts num_docs es counts.now → result ≡ norms_damage num_docs field body all_kept es (Some ids.now) }
{
    if ids.len() != num_docs as usize {
        let damage = Damage::Norms(ids.len() as u64);
        return Some(FoundDamage::of_field(field, Kind::FieldNorms, damage, body));
    }
    if !all_kept {
        return None;
    }
    let Some(doc) = other_norm(num_docs, ids, counts) else {
        return None;
    };
    let bytes = ByteRange::shifted(body.start, u64::from(doc), u64::from(doc) + 1);
    let damage = Damage::Norm(doc, counts[doc as usize]);
    Some(FoundDamage::of_field(field, Kind::FieldNorms, damage, bytes))
}

// Returns the first document whose norm is not that of its number of tokens.
fn other_norm(num_docs: DocId, ids: &[u8], counts: &[u32]) -> Option<DocId>
    requires ids { length ids.now ≡ num_docs }
    requires counts { length counts.now ≡ num_docs }
    ensures inside { IfSome result (λ doc. doc < num_docs) }
    ensures found { (es : List Entry) → HasCounts num_docs es counts.now → result ≡ other_norm num_docs ids.now es }
{
    for doc in 0..num_docs {
        if ids[doc as usize] != fieldnorm_to_id(counts[doc as usize]) {
            return Some(doc);
        }
    }
    None
}
