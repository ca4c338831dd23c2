//! The names of the files of an index.
ghost use Rattle.std.specs.Prelude.{true, ◌≡◌, ◌<◌, ◌≤◌, ◌^◌, ◌++◌, ℕ, IfOk, MatchOption, OnOk, length, string_bytes};
ghost use Rattle.ii_directory.specs.declared.name.Kind.{Kind};
ghost use Rattle.ii_directory.specs.declared.name.Name.{Name};
ghost use Rattle.ii_directory.specs.declared.name.SegmentComponent.{SegmentComponent};
ghost use Rattle.ii_directory.specs.Names.{HasWords, IsNumber, component_generation, component_number, component_text, hex_digit, hex_digits, kind_at, kind_number, name_generation, name_id, name_number, name_text, other_slot, same_component, same_name, slot_number};

use std::alloc::{AllocError, Global};
use std::fmt;

/// One of two sets of file names. `meta` names the slot in use; a save writes to the other one.
#[derive(Clone, Copy, Debug, PartialEq, Eq)]
pub enum Slot {
    First,
    Second,
}

/// What a file of an index holds.
#[derive(Clone, Copy, Debug, PartialEq, Eq)]
pub enum Kind {
    /// The schema, as encoded by the calling program.
    Schema,
    /// The dictionaries of the fields.
    Terms,
    /// The documents and term frequencies of the terms.
    Postings,
    /// The positions of the terms.
    Positions,
    /// The field norms of the documents.
    FieldNorms,
}

impl Kind {
    // Returns the display name.
    fn name(self) -> &'static str {
        match self {
            Kind::Schema => "schema",
            Kind::Terms => "terms",
            Kind::Postings => "postings",
            Kind::Positions => "positions",
            Kind::FieldNorms => "field norms",
        }
    }
}

impl fmt::Display for Kind {
    fn fmt<W: fmt::Write>(&self, f: &mut fmt::Formatter<W>) -> fmt::Result {
        f.write_str(self.name())
    }
}

/// The number of a segment. It is never used again for another segment.
pub type SegmentId = u64;

/// The number of a list of segments, one higher at each commit.
pub type Generation = u64;

/// What a file of a segment holds.
#[derive(Clone, Copy, Debug, PartialEq, Eq)]
pub enum SegmentComponent {
    /// The dictionaries of the fields.
    Terms,
    /// The documents and term frequencies of the terms.
    Postings,
    /// The positions of the terms.
    Positions,
    /// The field norms of the documents.
    FieldNorms,
    /// The exact number of tokens of each document and field.
    Counts,
    /// Which documents are alive, as of a generation.
    Alive(Generation),
    /// The lines of the documents.
    Store,
    /// The tables of the blocks of the other files, but for flags.
    BlockTables,
}

/// The name of a file in the folder of an index.
#[derive(Clone, Copy, Debug, PartialEq, Eq)]
pub enum Name {
    /// `meta`.
    Meta,
    /// The next `meta`, until it replaces the current one.
    NewMeta,
    /// A file of an index.
    File(Slot, Kind),
    /// A file of a segment.
    Segment(SegmentId, SegmentComponent),
}

impl Slot {
    /// Returns the other slot.
    pub fn other(self) -> Slot
        ensures { result ≡ other_slot self }
    {
        match self {
            Slot::First => Slot::Second,
            Slot::Second => Slot::First,
        }
    }

    /// Returns the byte that encodes the slot in a `meta` file, 0 or 1.
    pub fn to_code(self) -> u8
        ensures { result ≡ slot_number self }
    {
        match self {
            Slot::First => 0,
            Slot::Second => 1,
        }
    }
}

impl Kind {
    /// The number of kinds.
    pub const COUNT: u8 = 5;

    /// Returns the kind with a number below 5, in the order of the entries of a `meta` file. A greater
    /// number gives the last kind.
    pub fn at(number: u8) -> Kind
        ensures { result ≡ kind_at number }
    {
        match number {
            0 => Kind::Schema,
            1 => Kind::Terms,
            2 => Kind::Postings,
            3 => Kind::Positions,
            _ => Kind::FieldNorms,
        }
    }

    /// Returns the number of the kind, below 5.
    pub fn number(self) -> u8
        ensures number { result ≡ kind_number self }
        ensures bound { result < 5 }
    {
        match self {
            Kind::Schema => 0,
            Kind::Terms => 1,
            Kind::Postings => 2,
            Kind::Positions => 3,
            Kind::FieldNorms => 4,
        }
    }
}

impl SegmentComponent {
    // Returns the display name.
    fn name(self) -> &'static str {
        match self {
            SegmentComponent::Terms => "terms",
            SegmentComponent::Postings => "postings",
            SegmentComponent::Positions => "positions",
            SegmentComponent::FieldNorms => "field norms",
            SegmentComponent::Counts => "counts",
            SegmentComponent::Alive(_) => "living documents",
            SegmentComponent::Store => "stored documents",
            SegmentComponent::BlockTables => "tables of blocks",
        }
    }
}

impl fmt::Display for SegmentComponent {
    fn fmt<W: fmt::Write>(&self, f: &mut fmt::Formatter<W>) -> fmt::Result {
        f.write_str(self.name())
    }
}

impl SegmentComponent {
    /// Returns the number that stands for the component in a `meta` file, below 8.
    pub fn number(self) -> u8
        ensures number { result ≡ component_number self }
        ensures bound { result < 8 }
    {
        match self {
            SegmentComponent::Terms => 0,
            SegmentComponent::Postings => 1,
            SegmentComponent::Positions => 2,
            SegmentComponent::FieldNorms => 3,
            SegmentComponent::Counts => 4,
            SegmentComponent::Alive(_) => 5,
            SegmentComponent::Store => 6,
            SegmentComponent::BlockTables => 7,
        }
    }

    /// Returns the generation of an alive file, and 0 for any other file.
    pub fn generation(self) -> Generation
        ensures { result ≡ component_generation self }
    {
        match self {
            SegmentComponent::Alive(generation) => generation,
            _ => 0,
        }
    }

    /// Returns whether two components are equal.
    pub fn is_same(self, other: SegmentComponent) -> bool
        ensures { result ≡ same_component self other }
    {
        (self.number() == other.number()) & (self.generation() == other.generation())
    }

    // Appends the part of a file name that comes after the segment's number.
    fn push_text(self, text: &mut String) -> Result<(), AllocError>
        ensures { OnOk result (string_bytes text.new ≡ string_bytes text.old ++ component_text self) }
    {
        match self {
            SegmentComponent::Terms => text.push_str(".term"),
            SegmentComponent::Postings => text.push_str(".idx"),
            SegmentComponent::Positions => text.push_str(".pos"),
            SegmentComponent::FieldNorms => text.push_str(".norm"),
            SegmentComponent::Counts => text.push_str(".count"),
            SegmentComponent::Alive(generation) => {
                text.push_str(".")?;
                push_hex(text, 16, generation)?;
                text.push_str(".alive")
            }
            SegmentComponent::Store => text.push_str(".store"),
            SegmentComponent::BlockTables => text.push_str(".blocks"),
        }
    }
}

// Appends the last `count` hexadecimal digits of a number, the highest first.
#[tactic(auto, unfolding(crate::specs::Names::hex_digits), using(std::proofs::lemmas::Str::encode_ascii))]
fn push_hex(text: &mut String, count: u8, number: u64) -> Result<(), AllocError>
    ensures { OnOk result (string_bytes text.new ≡ string_bytes text.old ++ hex_digits count number) }
{
    if count == 0 {
        return Ok(());
    }
    push_hex(text, count - 1, number / 16)?;
    text.push(hex_char((number % 16) as u8))
}

// Returns a lowercase hexadecimal digit.
fn hex_char(digit: u8) -> char
    requires { digit < 16 }
    ensures digit { result ≡ hex_digit digit }
    ensures ascii { result < 128 }
{
    if digit < 10 {
        char::from(b'0' + digit)
    } else {
        char::from(b'a' + (digit - 10))
    }
}

impl Name {
    /// Returns the number of the name, below 20. Names of index files have numbers of their own; files of
    /// segments have one for each component.
    pub fn number(self) -> u8
        ensures { result ≡ name_number self }
    {
        match self {
            Name::Meta => 0,
            Name::NewMeta => 1,
            Name::File(slot, kind) => 2 + 5 * slot.to_code() + kind.number(),
            Name::Segment(_, component) => 12 + component.number(),
        }
    }

    // Returns the number of the segment, and 0 for a file of no segment.
    fn segment_id(self) -> SegmentId
        ensures { result ≡ name_id self }
    {
        match self {
            Name::Segment(id, _) => id,
            _ => 0,
        }
    }

    // Returns the generation of an alive file, and 0 for any other file.
    fn generation(self) -> Generation
        ensures { result ≡ name_generation self }
    {
        match self {
            Name::Segment(_, component) => component.generation(),
            _ => 0,
        }
    }

    /// Returns whether two names are equal.
    pub fn is_same(self, other: Name) -> bool
        ensures { result ≡ same_name self other }
    {
        (self.number() == other.number())
            & (self.segment_id() == other.segment_id())
            & (self.generation() == other.generation())
    }

    /// Returns the file name in the folder.
    pub fn text(self, alloc: Global) -> Result<String, AllocError>
        ensures { IfOk result (λ text. string_bytes text ≡ name_text self) }
    {
        match self {
            Name::Meta => String::from_str(alloc, "meta"),
            Name::NewMeta => String::from_str(alloc, "meta.new"),
            Name::File(slot, kind) => String::from_str(alloc, file_text(slot, kind)),
            Name::Segment(id, component) => {
                let mut text = String::new(alloc);
                push_hex(&mut text, 16, id)?;
                component.push_text(&mut text)?;
                Ok(text)
            }
        }
    }
}

impl Name {
    /// Returns the name whose file name in a folder this is, if it is one.
    pub fn of_text(text: &[u8]) -> Option<Name>
        ensures { MatchOption result ((name : Name) → HasWords name → name_text name ≡ text.now → ⊥) (λ name. name_text name ≡ text.now) }
    {
        if let Some(name) = fixed_name(text) {
            return Some(name);
        }
        if text.len() < 16 {
            return None;
        }
        let (id, rest) = text.split_at(16);
        let Some(id) = hex_number(id) else {
            return None;
        };
        let Some(component) = component_of_text(rest) else {
            return None;
        };
        Some(Name::Segment(id, component))
    }
}

// Returns the name of a `meta` or an index file.
fn fixed_name(text: &[u8]) -> Option<Name>
    ensures { MatchOption result ((name : Name) → length (name_text name) < 16 → name_text name ≡ text.now → ⊥) (λ name. name_text name ≡ text.now) }
{
    if text == b"meta".as_slice() {
        return Some(Name::Meta);
    }
    if text == b"meta.new".as_slice() {
        return Some(Name::NewMeta);
    }
    if let Some(name) = index_name(text, Slot::First) {
        return Some(name);
    }
    let Some(name) = index_name(text, Slot::Second) else {
        return None;
    };
    Some(name)
}

// Returns the name of a file in a slot.
fn index_name(text: &[u8], slot: Slot) -> Option<Name>
    ensures { MatchOption result ((kind : Kind) → name_text (Name.File slot kind) ≡ text.now → ⊥) (λ name. name_text name ≡ text.now) }
{
    if text == file_text(slot, Kind::Schema).as_bytes() {
        return Some(Name::File(slot, Kind::Schema));
    }
    if text == file_text(slot, Kind::Terms).as_bytes() {
        return Some(Name::File(slot, Kind::Terms));
    }
    if text == file_text(slot, Kind::Postings).as_bytes() {
        return Some(Name::File(slot, Kind::Postings));
    }
    if text == file_text(slot, Kind::Positions).as_bytes() {
        return Some(Name::File(slot, Kind::Positions));
    }
    if text == file_text(slot, Kind::FieldNorms).as_bytes() {
        return Some(Name::File(slot, Kind::FieldNorms));
    }
    None
}

// Returns the component that the part of a file name after the segment's number spells.
fn component_of_text(text: &[u8]) -> Option<SegmentComponent>
    ensures { MatchOption result ((c : SegmentComponent) → component_generation c < 2 ^ 64 → component_text c ≡ text.now → ⊥) (λ c. component_text c ≡ text.now) }
{
    if text == b".term".as_slice() {
        return Some(SegmentComponent::Terms);
    }
    if text == b".idx".as_slice() {
        return Some(SegmentComponent::Postings);
    }
    if text == b".pos".as_slice() {
        return Some(SegmentComponent::Positions);
    }
    if text == b".norm".as_slice() {
        return Some(SegmentComponent::FieldNorms);
    }
    if text == b".count".as_slice() {
        return Some(SegmentComponent::Counts);
    }
    if text == b".store".as_slice() {
        return Some(SegmentComponent::Store);
    }
    if text == b".blocks".as_slice() {
        return Some(SegmentComponent::BlockTables);
    }
    alive_of_text(text)
}

// Returns the file of living documents whose name ends so.
fn alive_of_text(text: &[u8]) -> Option<SegmentComponent>
    ensures { MatchOption result ((generation : ℕ) → generation < 2 ^ 64 → component_text (SegmentComponent.Alive generation) ≡ text.now → ⊥) (λ c. component_text c ≡ text.now) }
{
    if text.len() != 23 {
        return None;
    }
    let (dot, rest) = text.split_at(1);
    let (generation, end) = rest.split_at(16);
    if dot != b".".as_slice() {
        return None;
    }
    if end != b".alive".as_slice() {
        return None;
    }
    let Some(generation) = hex_number(generation) else {
        return None;
    };
    Some(SegmentComponent::Alive(generation))
}

// Returns the number that at most 16 hexadecimal digits spell, the highest first.
fn hex_number(text: &[u8]) -> Option<u64>
    requires { length text.now ≤ 16 }
    ensures { MatchOption result ((n : ℕ) → hex_digits (length text.now) n ≡ text.now → ⊥) (λ n. IsNumber text.now n) }
{
    let Some((last, front)) = text.split_last() else {
        return Some(0);
    };
    let Some(high) = hex_number(front) else {
        return None;
    };
    let Some(low) = hex_value(*last) else {
        return None;
    };
    Some(high * 16 + u64::from(low))
}

// Returns the value of a lowercase hexadecimal digit.
fn hex_value(digit: u8) -> Option<u8>
    ensures { MatchOption result ((d : ℕ) → d < 16 → hex_digit d ≡ digit → ⊥) (λ d. (hex_digit d ≡ digit) × (d < 16)) }
{
    match digit {
        b'0'..=b'9' => Some(digit - b'0'),
        b'a'..=b'f' => Some(digit - b'a' + 10),
        _ => None,
    }
}

// Returns the file name of an index file.
fn file_text(slot: Slot, kind: Kind) -> &'static str
    ensures { result.now ≡ name_text (Name.File slot kind) }
{
    match slot {
        Slot::First => match kind {
            Kind::Schema => "schema.0",
            Kind::Terms => "term.0",
            Kind::Postings => "idx.0",
            Kind::Positions => "pos.0",
            Kind::FieldNorms => "fieldnorm.0",
        },
        Slot::Second => match kind {
            Kind::Schema => "schema.1",
            Kind::Terms => "term.1",
            Kind::Postings => "idx.1",
            Kind::Positions => "pos.1",
            Kind::FieldNorms => "fieldnorm.1",
        },
    }
}

/// Law: different names have different file names.
pub fn names_differ()
    ensures differ { (first : Name) (other : Name) → HasWords first → HasWords other → name_text first ≡ name_text other → first ≡ other }
{}

/// Law: names are equal exactly if `is_same` says so.
pub fn same_names()
    ensures same { (first : Name) (other : Name) → same_name first other ≡ true → first ≡ other }
    ensures itself { (name : Name) → same_name name name ≡ true }
{}
