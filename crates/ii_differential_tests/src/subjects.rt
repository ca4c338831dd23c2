use ii_base::ValueType;

/// The format that bytes are read as.
#[derive(Clone, Copy)]
pub enum Kind {
    /// A list with this many documents: postings and positions.
    List(u32),
    /// A composite file.
    Composite,
    /// A store of terms.
    Store,
    /// A dictionary.
    Dictionary,
    /// An index of one field with values of this type: the files of terms, postings, positions and norms.
    Index(ValueType),
}

/// Bytes to be damaged in many ways.
#[derive(Clone, Copy)]
pub struct Subject {
    /// The format of the bytes.
    pub kind: Kind,
    /// The bytes, in up to four parts.
    pub parts: [&'static [u8]; 4],
}

/// All subjects: lists of docs/FORMATS.md and of the worked rows, and other bytes.
pub static SUBJECTS: [Subject; 26] = [
    // Documents 0, 2 and 10.
    Subject {
        kind: Kind::List(3),
        parts: [&[0x80, 0x82, 0x88], &[], &[], &[]],
    },
    // One document too few.
    Subject {
        kind: Kind::List(3),
        parts: [&[0x80, 0x82], &[], &[], &[]],
    },
    // A repeated document.
    Subject {
        kind: Kind::List(3),
        parts: [&[0x80, 0x80, 0x88], &[], &[], &[]],
    },
    // One count.
    Subject {
        kind: Kind::List(3),
        parts: [&[0x80, 0x82, 0x88, 0xFF], &[], &[], &[]],
    },
    // Counts 1, 2, 3 and positions 0; 0, 1; 0, 1, 2.
    Subject {
        kind: Kind::List(3),
        parts: [
            &[0x80, 0x82, 0x88, 0x81, 0x82, 0x83],
            &[0x80, 0x80, 0x80, 0x81, 0x80, 0x81, 0x81],
            &[],
            &[],
        ],
    },
    // Documents 0 to 127.
    Subject {
        kind: Kind::List(128),
        parts: [&[0x85, 0x7F, 0x00, 0x00, 0x00, 0x40], &[], &[], &[]],
    },
    // The same with another last document in the skip entry.
    Subject {
        kind: Kind::List(128),
        parts: [&[0x85, 0x80, 0x00, 0x00, 0x00, 0x40], &[], &[], &[]],
    },
    // The same with plain deltas.
    Subject {
        kind: Kind::List(128),
        parts: [
            &[
                0x85, 0x7F, 0x00, 0x00, 0x00, 0x01, 0xFE, 0xFF, 0xFF, 0xFF, 0xFF, 0xFF, 0xFF, 0xFF,
                0xFF, 0xFF, 0xFF, 0xFF, 0xFF, 0xFF, 0xFF, 0xFF,
            ],
            &[],
            &[],
            &[],
        ],
    },
    // The same and two more documents.
    Subject {
        kind: Kind::List(130),
        parts: [
            &[0x85, 0x7F, 0x00, 0x00, 0x00, 0x40, 0x82, 0x81],
            &[],
            &[],
            &[],
        ],
    },
    // A number in document 0.
    Subject {
        kind: Kind::List(1),
        parts: [&[0x80], &[0x80], &[], &[]],
    },
    // Even documents.
    Subject {
        kind: Kind::List(128),
        parts: [
            &[
                0x85, 0xFE, 0x00, 0x00, 0x00, 0x41, 0xFE, 0xFF, 0xFF, 0xFF, 0xFF, 0xFF, 0xFF, 0xFF,
                0xFF, 0xFF, 0xFF, 0xFF, 0xFF, 0xFF, 0xFF, 0xFF,
            ],
            &[],
            &[],
            &[],
        ],
    },
    // Documents starting at 1.
    Subject {
        kind: Kind::List(128),
        parts: [
            &[
                0x85, 0x80, 0x00, 0x00, 0x00, 0x41, 0x01, 0x00, 0x00, 0x00, 0x00, 0x00, 0x00, 0x00,
                0x00, 0x00, 0x00, 0x00, 0x00, 0x00, 0x00, 0x00,
            ],
            &[],
            &[],
            &[],
        ],
    },
    // Two blocks.
    Subject {
        kind: Kind::List(256),
        parts: [
            &[
                0x8A, 0x7F, 0x00, 0x00, 0x00, 0x40, 0xFF, 0x00, 0x00, 0x00, 0x40,
            ],
            &[],
            &[],
            &[],
        ],
    },
    // Documents 0 to 127 with count 3.
    Subject {
        kind: Kind::List(128),
        parts: [
            &[
                0x88, 0x7F, 0x00, 0x00, 0x00, 0x40, 0x02, 0x00, 0x00, 0xAA, 0xAA, 0xAA, 0xAA, 0xAA,
                0xAA, 0xAA, 0xAA, 0xAA, 0xAA, 0xAA, 0xAA, 0xAA, 0xAA, 0xAA, 0xAA, 0xAA, 0xAA, 0xAA,
                0xAA, 0xAA, 0xAA, 0xAA, 0xAA, 0xAA, 0xAA, 0xAA, 0xAA, 0xAA, 0xAA, 0xAA, 0xAA,
            ],
            &[],
            &[],
            &[],
        ],
    },
    // The same with positions 0, 1, 2.
    Subject {
        kind: Kind::List(128),
        parts: [
            &[
                0x8C, 0x7F, 0x00, 0x00, 0x00, 0x40, 0x02, 0x80, 0x01, 0x00, 0x00, 0x00, 0x00, 0xAA,
                0xAA, 0xAA, 0xAA, 0xAA, 0xAA, 0xAA, 0xAA, 0xAA, 0xAA, 0xAA, 0xAA, 0xAA, 0xAA, 0xAA,
                0xAA, 0xAA, 0xAA, 0xAA, 0xAA, 0xAA, 0xAA, 0xAA, 0xAA, 0xAA, 0xAA, 0xAA, 0xAA, 0xAA,
                0xAA, 0xAA, 0xAA,
            ],
            &[
                0x83, 0x01, 0x01, 0x01, 0xB6, 0x6D, 0xDB, 0xB6, 0x6D, 0xDB, 0xB6, 0x6D, 0xDB, 0xB6,
                0x6D, 0xDB, 0xB6, 0x6D, 0xDB, 0xB6, 0x6D, 0xDB, 0xB6, 0x6D, 0xDB, 0xB6, 0x6D, 0xDB,
                0xB6, 0x6D, 0xDB, 0xB6, 0x6D, 0xDB, 0xB6, 0x6D, 0xDB, 0xB6, 0x6D, 0xDB, 0xB6, 0x6D,
                0xDB, 0xB6, 0x6D, 0xDB, 0xB6, 0x6D, 0xDB, 0xB6, 0x6D, 0xDB,
            ],
            &[],
            &[],
        ],
    },
    // 120 documents with four positions each.
    Subject {
        kind: Kind::List(120),
        parts: [
            &[
                0x80, 0x81, 0x81, 0x81, 0x81, 0x81, 0x81, 0x81, 0x81, 0x81, 0x81, 0x81, 0x81, 0x81,
                0x81, 0x81, 0x81, 0x81, 0x81, 0x81, 0x81, 0x81, 0x81, 0x81, 0x81, 0x81, 0x81, 0x81,
                0x81, 0x81, 0x81, 0x81, 0x81, 0x81, 0x81, 0x81, 0x81, 0x81, 0x81, 0x81, 0x81, 0x81,
                0x81, 0x81, 0x81, 0x81, 0x81, 0x81, 0x81, 0x81, 0x81, 0x81, 0x81, 0x81, 0x81, 0x81,
                0x81, 0x81, 0x81, 0x81, 0x81, 0x81, 0x81, 0x81, 0x81, 0x81, 0x81, 0x81, 0x81, 0x81,
                0x81, 0x81, 0x81, 0x81, 0x81, 0x81, 0x81, 0x81, 0x81, 0x81, 0x81, 0x81, 0x81, 0x81,
                0x81, 0x81, 0x81, 0x81, 0x81, 0x81, 0x81, 0x81, 0x81, 0x81, 0x81, 0x81, 0x81, 0x81,
                0x81, 0x81, 0x81, 0x81, 0x81, 0x81, 0x81, 0x81, 0x81, 0x81, 0x81, 0x81, 0x81, 0x81,
                0x81, 0x81, 0x81, 0x81, 0x81, 0x81, 0x81, 0x81, 0x84, 0x84, 0x84, 0x84, 0x84, 0x84,
                0x84, 0x84, 0x84, 0x84, 0x84, 0x84, 0x84, 0x84, 0x84, 0x84, 0x84, 0x84, 0x84, 0x84,
                0x84, 0x84, 0x84, 0x84, 0x84, 0x84, 0x84, 0x84, 0x84, 0x84, 0x84, 0x84, 0x84, 0x84,
                0x84, 0x84, 0x84, 0x84, 0x84, 0x84, 0x84, 0x84, 0x84, 0x84, 0x84, 0x84, 0x84, 0x84,
                0x84, 0x84, 0x84, 0x84, 0x84, 0x84, 0x84, 0x84, 0x84, 0x84, 0x84, 0x84, 0x84, 0x84,
                0x84, 0x84, 0x84, 0x84, 0x84, 0x84, 0x84, 0x84, 0x84, 0x84, 0x84, 0x84, 0x84, 0x84,
                0x84, 0x84, 0x84, 0x84, 0x84, 0x84, 0x84, 0x84, 0x84, 0x84, 0x84, 0x84, 0x84, 0x84,
                0x84, 0x84, 0x84, 0x84, 0x84, 0x84, 0x84, 0x84, 0x84, 0x84, 0x84, 0x84, 0x84, 0x84,
                0x84, 0x84, 0x84, 0x84, 0x84, 0x84, 0x84, 0x84, 0x84, 0x84, 0x84, 0x84, 0x84, 0x84,
                0x84, 0x84,
            ],
            &[
                0x83, 0x02, 0x02, 0x02, 0xB9, 0xB9, 0xB9, 0xB9, 0xB9, 0xB9, 0xB9, 0xB9, 0xB9, 0xB9,
                0xB9, 0xB9, 0xB9, 0xB9, 0xB9, 0xB9, 0xB9, 0xB9, 0xB9, 0xB9, 0xB9, 0xB9, 0xB9, 0xB9,
                0xB9, 0xB9, 0xB9, 0xB9, 0xB9, 0xB9, 0xB9, 0xB9, 0xB9, 0xB9, 0xB9, 0xB9, 0xB9, 0xB9,
                0xB9, 0xB9, 0xB9, 0xB9, 0xB9, 0xB9, 0xB9, 0xB9, 0xB9, 0xB9, 0xB9, 0xB9, 0xB9, 0xB9,
                0xB9, 0xB9, 0xB9, 0xB9, 0xB9, 0xB9, 0xB9, 0xB9, 0xB9, 0xB9, 0xB9, 0xB9, 0xB9, 0xB9,
                0xB9, 0xB9, 0xB9, 0xB9, 0xB9, 0xB9, 0xB9, 0xB9, 0xB9, 0xB9, 0xB9, 0xB9, 0xB9, 0xB9,
                0xB9, 0xB9, 0xB9, 0xB9, 0xB9, 0xB9, 0xB9, 0xB9, 0xB9, 0xB9, 0xB9, 0xB9, 0xB9, 0xB9,
                0xB9, 0xB9, 0x81, 0x82, 0x83, 0x82, 0x81, 0x82, 0x83, 0x82, 0x81, 0x82, 0x83, 0x82,
                0x81, 0x82, 0x83, 0x82, 0x81, 0x82, 0x83, 0x82, 0x81, 0x82, 0x83, 0x82, 0x81, 0x82,
                0x83, 0x82, 0x81, 0x82, 0x83, 0x82, 0x81, 0x82, 0x83, 0x82, 0x81, 0x82, 0x83, 0x82,
                0x81, 0x82, 0x83, 0x82, 0x81, 0x82, 0x83, 0x82, 0x81, 0x82, 0x83, 0x82, 0x81, 0x82,
                0x83, 0x82, 0x81, 0x82, 0x83, 0x82, 0x81, 0x82, 0x83, 0x82, 0x81, 0x82, 0x83, 0x82,
                0x81, 0x82, 0x83, 0x82, 0x81, 0x82, 0x83, 0x82, 0x81, 0x82, 0x83, 0x82, 0x81, 0x82,
                0x83, 0x82, 0x81, 0x82, 0x83, 0x82, 0x81, 0x82, 0x83, 0x82, 0x81, 0x82, 0x83, 0x82,
            ],
            &[],
            &[],
        ],
    },
    // A composite file of two bodies, with a byte between them.
    Subject {
        kind: Kind::Composite,
        parts: [
            &[
                0xAA, 0xBB, 0xCC, 0xDD, 7, 0, 0, 0, 0, 0, 0, 0, 0, 0, 0, 0, 1, 0, 0, 0, 0, 0, 0, 0,
                2, 0, 0, 0, 2, 0, 0, 0, 0, 0, 0, 0, 4, 0, 0, 0, 0, 0, 0, 0, 2, 0, 0, 0,
            ],
            &[],
            &[],
            &[],
        ],
    },
    // The postings of the index of the number 5 below.
    Subject {
        kind: Kind::Composite,
        parts: [
            &[
                1, 0, 0, 0, 0, 0, 0, 0, 0x80, 0, 0, 0, 0, 0, 0, 0, 0, 0, 0, 0, 0, 9, 0, 0, 0, 0, 0,
                0, 0, 1, 0, 0, 0,
            ],
            &[],
            &[],
            &[],
        ],
    },
    // A store of two terms, of docs/FORMATS.md.
    Subject {
        kind: Kind::Store,
        parts: [
            &[
                0x27, 0, 0, 0, 0, 0, 0, 0, 2, 0, 0, 0, 0, 0, 0, 0, 0, 0, 0, 0, 0, 0, 0, 0, 2, 0, 0,
                0, 0, 0, 0, 0, 0, 0, 0, 0, 4, 0, 0, 0, 0, 0, 0, 0, 0, 0, 0, 0, 3, 0, 0, 0, 1, 3, 3,
                0x5C, 0x17,
            ],
            &[],
            &[],
            &[],
        ],
    },
    // A store of two terms without postings, which takes no bits.
    Subject {
        kind: Kind::Store,
        parts: [
            &[
                0x27, 0, 0, 0, 0, 0, 0, 0, 2, 0, 0, 0, 0, 0, 0, 0, 0, 0, 0, 0, 0, 0, 0, 0, 0, 0, 0,
                0, 0, 0, 0, 0, 0, 0, 0, 0, 0, 0, 0, 0, 0, 0, 0, 0, 0, 0, 0, 0, 0, 0, 0, 0, 0, 0, 0,
            ],
            &[],
            &[],
            &[],
        ],
    },
    // A dictionary without terms.
    Subject {
        kind: Kind::Dictionary,
        parts: [&[0; 24], &[], &[], &[]],
    },
    // The dictionary of the keys `a` and `b`, of docs/FORMATS.md.
    Subject {
        kind: Kind::Dictionary,
        parts: [
            &[
                2, 0, 0, 0, 0, 0, 0, 0, 1, 0, 0, 0, 0, 0, 0, 0, 2, 0, 0, 0, 0, 0, 0, 0, 0x61, 0x62,
                0x27, 0, 0, 0, 0, 0, 0, 0, 2, 0, 0, 0, 0, 0, 0, 0, 0, 0, 0, 0, 0, 0, 0, 0, 2, 0, 0,
                0, 0, 0, 0, 0, 0, 0, 0, 0, 4, 0, 0, 0, 0, 0, 0, 0, 0, 0, 0, 0, 3, 0, 0, 0, 1, 3, 3,
                0x5C, 0x17,
            ],
            &[],
            &[],
            &[],
        ],
    },
    // The index of two texts, of docs/FORMATS.md: terms, postings, positions and norms.
    Subject {
        kind: Kind::Index(ValueType::Str),
        parts: [
            &[
                2, 0, 0, 0, 0, 0, 0, 0, 1, 0, 0, 0, 0, 0, 0, 0, 2, 0, 0, 0, 0, 0, 0, 0, 0x61, 0x62,
                0x27, 0, 0, 0, 0, 0, 0, 0, 2, 0, 0, 0, 0, 0, 0, 0, 0, 0, 0, 0, 0, 0, 0, 0, 2, 0, 0,
                0, 0, 0, 0, 0, 0, 0, 0, 0, 4, 0, 0, 0, 0, 0, 0, 0, 0, 0, 0, 0, 3, 0, 0, 0, 1, 3, 3,
                0x5C, 0x17, 0, 0, 0, 0, 0, 0, 0, 0, 0, 0, 0, 0, 0x53, 0, 0, 0, 0, 0, 0, 0, 1, 0, 0,
                0,
            ],
            &[
                3, 0, 0, 0, 0, 0, 0, 0, 0x80, 0x81, 0x81, 0x81, 0x80, 0x81, 0, 0, 0, 0, 0, 0, 0, 0,
                0, 0, 0, 0, 0x0E, 0, 0, 0, 0, 0, 0, 0, 1, 0, 0, 0,
            ],
            &[
                0x80, 0x80, 0x80, 0x80, 0x81, 0, 0, 0, 0, 0, 0, 0, 0, 0, 0, 0, 0, 5, 0, 0, 0, 0, 0,
                0, 0, 1, 0, 0, 0,
            ],
            &[
                2, 1, 0, 0, 0, 0, 0, 0, 0, 0, 0, 0, 0, 0, 2, 0, 0, 0, 0, 0, 0, 0, 1, 0, 0, 0,
            ],
        ],
    },
    // The index of the number 5 in document 0: one key and no positions.
    Subject {
        kind: Kind::Index(ValueType::Str),
        parts: [
            &[
                1, 0, 0, 0, 0, 0, 0, 0, 8, 0, 0, 0, 0, 0, 0, 0, 0, 0, 0, 0, 0, 0, 0, 5, 0x27, 0, 0,
                0, 0, 0, 0, 0, 1, 0, 0, 0, 0, 0, 0, 0, 0, 0, 0, 0, 0, 0, 0, 0, 1, 0, 0, 0, 0, 0, 0,
                0, 0, 0, 0, 0, 1, 0, 0, 0, 0, 0, 0, 0, 0, 0, 0, 0, 0, 0, 0, 0, 0, 1, 0, 1, 0, 0, 0,
                0, 0, 0, 0, 0, 0, 0, 0, 0, 0x50, 0, 0, 0, 0, 0, 0, 0, 1, 0, 0, 0,
            ],
            &[
                1, 0, 0, 0, 0, 0, 0, 0, 0x80, 0, 0, 0, 0, 0, 0, 0, 0, 0, 0, 0, 0, 9, 0, 0, 0, 0, 0,
                0, 0, 1, 0, 0, 0,
            ],
            &[
                0, 0, 0, 0, 0, 0, 0, 0, 0, 0, 0, 0, 0, 0, 0, 0, 0, 0, 0, 0, 1, 0, 0, 0,
            ],
            &[0; 4],
        ],
    },
    // The index of the JSON values `{"a": "x y"}` in document 0 and `{"a": "x", "a": {"b": 1}}` in document 1,
    // with positions: the texts `x` and `y` at the path `a`, and the number 1 at the path `a`, `b`.
    Subject {
        kind: Kind::Index(ValueType::Json),
        parts: [
            &[
                3, 0, 0, 0, 0, 0, 0, 0, 4, 0, 0, 0, 0, 0, 0, 0, 8, 0, 0, 0, 0, 0, 0, 0, 0x15, 0, 0,
                0, 0, 0, 0, 0, 0x61, 0, 0x73, 0x78, 0x61, 0, 0x73, 0x79, 0x61, 1, 0x62, 0, 0x69,
                0x80, 0, 0, 0, 0, 0, 0, 1, 0x27, 0, 0, 0, 0, 0, 0, 0, 3, 0, 0, 0, 0, 0, 0, 0, 0, 0,
                0, 0, 0, 0, 0, 0, 2, 0, 0, 0, 0, 0, 0, 0, 0, 0, 0, 0, 4, 0, 0, 0, 0, 0, 0, 0, 0, 0,
                0, 0, 3, 0, 0, 0, 1, 3, 3, 0x5C, 0xF7, 0x0D, 0, 0, 0, 0, 0, 0, 0, 0, 0, 0, 0, 0,
                0x6F, 0, 0, 0, 0, 0, 0, 0, 1, 0, 0, 0,
            ],
            &[
                4, 0, 0, 0, 0, 0, 0, 0, 0x80, 0x81, 0x81, 0x81, 0x80, 0x81, 0x81, 0, 0, 0, 0, 0, 0,
                0, 0, 0, 0, 0, 0, 0x0F, 0, 0, 0, 0, 0, 0, 0, 1, 0, 0, 0,
            ],
            &[
                0x80, 0x80, 0x80, 0x80, 0x81, 0x80, 0, 0, 0, 0, 0, 0, 0, 0, 0, 0, 0, 0, 6, 0, 0, 0,
                0, 0, 0, 0, 1, 0, 0, 0,
            ],
            &[0; 4],
        ],
    },
    // The index of the text `a` in each of documents 0 to 129, but `a a` in document 5 and none in document
    // 128. The bounds of its block are the norm id 1 and the count 2.
    Subject {
        kind: Kind::Index(ValueType::Str),
        parts: [
            &[
                1, 0, 0, 0, 0, 0, 0, 0, 1, 0, 0, 0, 0, 0, 0, 0, 0x61, 0x27, 0, 0, 0, 0, 0, 0, 0, 1,
                0, 0, 0, 0, 0, 0, 0, 0, 0, 0, 0, 0, 0, 0, 0, 0x81, 0, 0, 0, 0, 0, 0, 0, 0, 0, 0, 0,
                0x1F, 0, 0, 0, 0, 0, 0, 0, 0, 0, 0, 0, 0x14, 0, 0, 0, 0, 0, 0, 0, 0, 0, 0, 0, 0, 0,
                0, 0, 0, 0, 0, 0x48, 0, 0, 0, 0, 0, 0, 0, 1, 0, 0, 0,
            ],
            &[
                0x82, 0, 0, 0, 0, 0, 0, 0, 0x8C, 0x7F, 0, 0, 0, 0x40, 1, 0x81, 0, 0, 0, 1, 2, 0x20,
                0, 0, 0, 0, 0, 0, 0, 0, 0, 0, 0, 0, 0, 0, 0, 0x82, 0x81, 0, 0, 0, 0, 0, 0, 0, 0, 0,
                0, 0, 0, 0x27, 0, 0, 0, 0, 0, 0, 0, 1, 0, 0, 0,
            ],
            &[
                0x81, 1, 0x40, 0, 0, 0, 0, 0, 0, 0, 0, 0, 0, 0, 0, 0, 0, 0, 0x80, 0x80, 0, 0, 0, 0,
                0, 0, 0, 0, 0, 0, 0, 0, 0x14, 0, 0, 0, 0, 0, 0, 0, 1, 0, 0, 0,
            ],
            &[
                1, 1, 1, 1, 1, 2, 1, 1, 1, 1, 1, 1, 1, 1, 1, 1, 1, 1, 1, 1, 1, 1, 1, 1, 1, 1, 1, 1,
                1, 1, 1, 1, 1, 1, 1, 1, 1, 1, 1, 1, 1, 1, 1, 1, 1, 1, 1, 1, 1, 1, 1, 1, 1, 1, 1, 1,
                1, 1, 1, 1, 1, 1, 1, 1, 1, 1, 1, 1, 1, 1, 1, 1, 1, 1, 1, 1, 1, 1, 1, 1, 1, 1, 1, 1,
                1, 1, 1, 1, 1, 1, 1, 1, 1, 1, 1, 1, 1, 1, 1, 1, 1, 1, 1, 1, 1, 1, 1, 1, 1, 1, 1, 1,
                1, 1, 1, 1, 1, 1, 1, 1, 1, 1, 1, 1, 1, 1, 1, 1, 0, 1, 0, 0, 0, 0, 0, 0, 0, 0, 0, 0,
                0, 0, 0x82, 0, 0, 0, 0, 0, 0, 0, 1, 0, 0, 0,
            ],
        ],
    },
];
