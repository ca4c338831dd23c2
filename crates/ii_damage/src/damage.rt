//! Damages of an index, and where they are.
ghost use Rattle.std.specs.Prelude.{◌≡◌, IfOk, None};
ghost use Rattle.std.specs.Option.{option_map};
ghost use Rattle.ii_damage.specs.Damages.{bytes_of_damage, of_field, of_term, shifted};

use ii_base::{DocId, Field, Part};
use ii_store::Kind;
use ii_termdict::TermInfo;
use std::alloc::{AllocError, Global};
use std::marker::Model;
use thiserror::Error;

/// What is wrong with a part of an index.
#[derive(Clone, Copy, Debug, PartialEq, Eq, Error)]
pub enum Damage {
    /// The bytes of this part are corrupt.
    #[error("damaged {0}")]
    Part(Part),
    /// A list has a document that is not in the index.
    #[error("document {0} is not in the index")]
    Document(DocId),
    /// The field's stored number of tokens differs from that of its terms.
    #[error("the field counts {0} tokens, but its terms have {1}")]
    Tokens(u64, u128),
    /// A field that keeps norms has none.
    #[error("the field norms are missing")]
    NoNorms,
    /// The number of norms differs from the number of documents.
    #[error("{0} field norms, which is not the number of documents")]
    Norms(u64),
    /// A document has this many tokens in a field, but the norm of another number.
    #[error("document {0} has {1} tokens, but its norm is that of another number")]
    Norm(DocId, u32),
}

/// A range of bytes of a file; `end` is exclusive.
#[derive(Clone, Copy, Debug, PartialEq, Eq)]
pub struct ByteRange {
    pub start: u64,
    pub end: u64,
}

impl ByteRange {
    // Returns the bytes from `first` to `last`, counted from byte `start` of a file.
    pub(crate) fn shifted(start: u64, first: u64, last: u64) -> ByteRange
        ensures { result ≡ shifted start first last }
    {
        ByteRange {
            start: start.saturating_add(first),
            end: start.saturating_add(last),
        }
    }
}

/// Where the terms, lists and positions of a field are in their files.
#[derive(Clone, Copy, Debug, PartialEq, Eq)]
pub struct FieldPlaces {
    pub field: Field,
    /// The body of the terms.
    pub terms: ByteRange,
    /// The first byte of the posting lists.
    pub lists: u64,
    /// The first byte of the positions.
    pub positions: u64,
}

impl FieldPlaces {
    // Returns the file and the bytes of a damage of a term.
    pub(crate) fn bytes_of(&self, info: &TermInfo, damage: Damage) -> (Kind, ByteRange)
        ensures { result ≡ bytes_of_damage self.now info.now damage }
    {
        match damage {
            Damage::Part(Part::Range) => (Kind::Terms, self.terms),
            Damage::Part(Part::Positions) => {
                let range = &info.positions_range;
                let bytes = ByteRange::shifted(
                    self.positions,
                    range.start as u64,
                    range.end as u64,
                );
                (Kind::Positions, bytes)
            }
            _ => {
                let range = &info.postings_range;
                let bytes = ByteRange::shifted(self.lists, range.start as u64, range.end as u64);
                (Kind::Postings, bytes)
            }
        }
    }
}

/// A damage of an index and its place: the file and its bytes, and the field and the key of the term if the
/// damage belongs to one.
pub struct FoundDamage {
    kind: Kind,
    field: Option<Field>,
    key: Option<Vec<u8>>,
    damage: Damage,
    bytes: ByteRange,
}

// Makes each drop a call.
impl Drop for FoundDamage {
    fn drop(self) {
        let FoundDamage {
            kind: _,
            field: _,
            key: _,
            damage: _,
            bytes: _,
        } = self;
    }
}

impl Model for FoundDamage {
    ghost use Rattle.std.specs.Option.{option_map};
    ghost use Rattle.ii_damage.specs.Damages.{FoundDamageState};

    ghost Value = { FoundDamageState };

    ghost view = { λ d. record {
      kind = d.kind;
      field = d.field;
      key = option_map (λ v. v.items) d.key;
      damage = d.damage;
      bytes = d.bytes;
    } };
}

impl FoundDamage {
    // Creates a damage of a file.
    pub(crate) fn of_file(kind: Kind, damage: Damage, bytes: ByteRange) -> FoundDamage
        ensures { result ≡ record { kind = kind; field = None; key = None; damage = damage; bytes = bytes } }
    {
        FoundDamage {
            kind,
            field: None,
            key: None,
            damage,
            bytes,
        }
    }

    // Creates a damage of a field.
    pub(crate) fn of_field(
        field: Field,
        kind: Kind,
        damage: Damage,
        bytes: ByteRange,
    ) -> FoundDamage
        ensures { result ≡ of_field field kind damage bytes }
    {
        FoundDamage {
            kind,
            field: Some(field),
            key: None,
            damage,
            bytes,
        }
    }

    // Creates a damage of the term with a key.
    pub(crate) fn of_term(
        alloc: Global,
        places: &FieldPlaces,
        key: &[u8],
        info: &TermInfo,
        damage: Damage,
    ) -> Result<FoundDamage, AllocError>
        ensures { IfOk result (λ found. found ≡ of_term places.now key.now info.now damage) }
    {
        let (kind, bytes) = places.bytes_of(info, damage);
        let key = key.to_vec(alloc)?;
        Ok(FoundDamage {
            kind,
            field: Some(places.field),
            key: Some(key),
            damage,
            bytes,
        })
    }

    /// Returns the damaged file.
    pub fn kind(&self) -> Kind
        ensures { result ≡ self.now.kind }
    {
        self.kind
    }

    /// Returns the field, unless the table of the file is damaged.
    pub fn field(&self) -> Option<Field>
        ensures { result ≡ self.now.field }
    {
        self.field
    }

    /// Returns the key of the term, if a term is damaged.
    pub fn key(&self) -> Option<&[u8]>
        ensures { option_map (λ key. key.now) result ≡ self.now.key }
    {
        match &self.key {
            Some(key) => Some(key.as_slice()),
            None => None,
        }
    }

    /// Returns what is wrong.
    pub fn damage(&self) -> Damage
        ensures { result ≡ self.now.damage }
    {
        self.damage
    }

    /// Returns the bytes of the file that are damaged.
    pub fn bytes(&self) -> ByteRange
        ensures { result ≡ self.now.bytes }
    {
        self.bytes
    }
}
