use ii_store::collect::collect;
use ii_store::commit_check::{is_valid, may_commit};
use ii_store::index_meta::encode;
use ii_store::index_meta_reader::decode;
use ii_store::segments::{commit, load_meta, load_segment_file};
use ii_store::{
    Directory, DirectoryFault, FileDigest, FileMeta, Folder, IndexFault, IndexMeta, Kind,
    MemoryDirectory, Name, SegmentComponent, SegmentMeta, Slot, StoreFault,
};
use std::alloc::{AllocError, Global};
use std::fs;
use std::test::Fail;

// Names, and their texts.
static NAMES: [(Name, &'static str); 11] = [
    (Name::Meta, "meta"),
    (Name::NewMeta, "meta.new"),
    (Name::File(Slot::Second, Kind::FieldNorms), "fieldnorm.1"),
    (
        Name::Segment(26, SegmentComponent::Terms),
        "000000000000001a.term",
    ),
    (
        Name::Segment(0, SegmentComponent::Postings),
        "0000000000000000.idx",
    ),
    (
        Name::Segment(u64::MAX, SegmentComponent::Positions),
        "ffffffffffffffff.pos",
    ),
    (
        Name::Segment(0x1234_5678_9abc_def0, SegmentComponent::FieldNorms),
        "123456789abcdef0.norm",
    ),
    (
        Name::Segment(7, SegmentComponent::Counts),
        "0000000000000007.count",
    ),
    (
        Name::Segment(255, SegmentComponent::Alive(16)),
        "00000000000000ff.0000000000000010.alive",
    ),
    (
        Name::Segment(10, SegmentComponent::Store),
        "000000000000000a.store",
    ),
    (
        Name::Segment(11, SegmentComponent::BlockTables),
        "000000000000000b.blocks",
    ),
];

// Texts of no name.
static NO_NAMES: [&'static str; 10] = [
    "",
    "lock",
    "meta.old",
    "term.2",
    "000000000000001A.term",
    "1a.term",
    "000000000000001a.terms",
    "00000000000000ff.10.alive",
    "000000000000000a.stores",
    "000000000000000b.block",
];

// Returns whether a name has this text, and is read back from it.
fn has_text(alloc: Global, name: Name, text: &str) -> Result<bool, AllocError> {
    let written = name.text(alloc)?;
    Ok(written.as_str() == text && Name::of_text(text.as_bytes()) == Some(name))
}

#[test]
fn names_are_read_back(rt: HostRuntime) {
    for (name, text) in NAMES {
        assert!(rt; has_text(rt.alloc(), name, text) == Ok(true), "{text}");
    }
    for text in NO_NAMES {
        assert!(rt; Name::of_text(text.as_bytes()) == None, "{text}");
    }
}

// A list of version 2 of two segments, made by a script: segment 1 has 3 documents, of which 2 are alive, and a
// file of terms of the byte 1; segment 2 has 1 document and no file. The schema is "s".
static LIST: [u8; 153] = [
    110, 101, 113, 117, 108, 108, 112, 97, 2, 0, 0, 0, 1, 0, 0, 0, 0, 0, 0, 0, 3, 0, 0, 0, 0, 0, 0,
    0, 1, 0, 0, 0, 115, 2, 0, 1, 0, 0, 0, 0, 0, 0, 0, 3, 0, 0, 0, 2, 0, 0, 0, 1, 0, 0, 0, 0, 0, 0,
    0, 0, 0, 0, 0, 1, 0, 0, 0, 0, 0, 0, 0, 75, 245, 18, 47, 52, 69, 84, 197, 59, 222, 46, 187, 140,
    210, 183, 227, 209, 96, 10, 214, 49, 195, 133, 165, 215, 204, 226, 60, 119, 133, 69, 154, 2, 0,
    0, 0, 0, 0, 0, 0, 1, 0, 0, 0, 1, 0, 0, 0, 0, 0, 189, 125, 239, 78, 69, 16, 93, 182, 74, 90,
    232, 146, 152, 233, 202, 240, 115, 224, 240, 158, 84, 99, 225, 64, 35, 108, 24, 150, 1, 178,
    182, 68,
];

// A list of version 2 of a segment with flags of generation 1, the byte 1, and stored documents, the byte 9.
static STORED_LIST: [u8; 185] = [
    110, 101, 113, 117, 108, 108, 112, 97, 2, 0, 0, 0, 1, 0, 0, 0, 0, 0, 0, 0, 3, 0, 0, 0, 0, 0, 0,
    0, 1, 0, 0, 0, 115, 1, 0, 1, 0, 0, 0, 0, 0, 0, 0, 1, 0, 0, 0, 1, 0, 0, 0, 2, 0, 5, 0, 1, 0, 0,
    0, 0, 0, 0, 0, 1, 0, 0, 0, 0, 0, 0, 0, 75, 245, 18, 47, 52, 69, 84, 197, 59, 222, 46, 187, 140,
    210, 183, 227, 209, 96, 10, 214, 49, 195, 133, 165, 215, 204, 226, 60, 119, 133, 69, 154, 6, 0,
    0, 0, 0, 0, 0, 0, 0, 0, 1, 0, 0, 0, 0, 0, 0, 0, 43, 76, 52, 47, 84, 51, 235, 229, 145, 161,
    218, 119, 224, 19, 209, 183, 36, 117, 86, 45, 72, 87, 141, 202, 139, 132, 186, 198, 101, 28,
    60, 185, 245, 59, 200, 231, 24, 34, 229, 137, 92, 46, 147, 214, 230, 16, 33, 65, 22, 8, 215,
    215, 100, 10, 126, 195, 212, 163, 97, 176, 86, 166, 73, 226,
];

// The list of two segments in version 3, which keeps the SHA-256 of the file.
static NEW_LIST: [u8; 154] = [
    110, 101, 113, 117, 108, 108, 112, 97, 3, 0, 0, 0, 1, 0, 0, 0, 0, 0, 0, 0, 3, 0, 0, 0, 0, 0, 0,
    0, 1, 0, 0, 0, 115, 2, 0, 1, 0, 0, 0, 0, 0, 0, 0, 3, 0, 0, 0, 2, 0, 0, 0, 1, 0, 0, 0, 0, 0, 0,
    0, 0, 0, 0, 0, 1, 0, 0, 0, 0, 0, 0, 0, 0, 75, 245, 18, 47, 52, 69, 84, 197, 59, 222, 46, 187,
    140, 210, 183, 227, 209, 96, 10, 214, 49, 195, 133, 165, 215, 204, 226, 60, 119, 133, 69, 154,
    2, 0, 0, 0, 0, 0, 0, 0, 1, 0, 0, 0, 1, 0, 0, 0, 0, 0, 42, 210, 135, 207, 76, 146, 249, 146,
    225, 79, 0, 13, 35, 100, 81, 27, 246, 15, 163, 32, 74, 54, 28, 47, 204, 176, 8, 100, 138, 252,
    145, 47,
];

// The list with stored documents in version 3.
static NEW_STORED_LIST: [u8; 187] = [
    110, 101, 113, 117, 108, 108, 112, 97, 3, 0, 0, 0, 1, 0, 0, 0, 0, 0, 0, 0, 3, 0, 0, 0, 0, 0, 0,
    0, 1, 0, 0, 0, 115, 1, 0, 1, 0, 0, 0, 0, 0, 0, 0, 1, 0, 0, 0, 1, 0, 0, 0, 2, 0, 5, 0, 1, 0, 0,
    0, 0, 0, 0, 0, 1, 0, 0, 0, 0, 0, 0, 0, 0, 75, 245, 18, 47, 52, 69, 84, 197, 59, 222, 46, 187,
    140, 210, 183, 227, 209, 96, 10, 214, 49, 195, 133, 165, 215, 204, 226, 60, 119, 133, 69, 154,
    6, 0, 0, 0, 0, 0, 0, 0, 0, 0, 1, 0, 0, 0, 0, 0, 0, 0, 0, 43, 76, 52, 47, 84, 51, 235, 229, 145,
    161, 218, 119, 224, 19, 209, 183, 36, 117, 86, 45, 72, 87, 141, 202, 139, 132, 186, 198, 101,
    28, 60, 185, 231, 41, 24, 49, 180, 68, 215, 211, 92, 234, 115, 25, 116, 226, 59, 62, 47, 161,
    74, 169, 252, 77, 241, 147, 194, 112, 8, 221, 111, 229, 111, 35,
];

// A list of version 3 of a segment with terms, the byte 1, and flags, the byte 9: a SHA-256 of the one, a digest of
// blocks of the other.
static MIXED_LIST: [u8; 187] = [
    110, 101, 113, 117, 108, 108, 112, 97, 3, 0, 0, 0, 1, 0, 0, 0, 0, 0, 0, 0, 3, 0, 0, 0, 0, 0, 0,
    0, 1, 0, 0, 0, 115, 1, 0, 1, 0, 0, 0, 0, 0, 0, 0, 1, 0, 0, 0, 1, 0, 0, 0, 2, 0, 0, 0, 0, 0, 0,
    0, 0, 0, 0, 0, 1, 0, 0, 0, 0, 0, 0, 0, 0, 75, 245, 18, 47, 52, 69, 84, 197, 59, 222, 46, 187,
    140, 210, 183, 227, 209, 96, 10, 214, 49, 195, 133, 165, 215, 204, 226, 60, 119, 133, 69, 154,
    5, 0, 1, 0, 0, 0, 0, 0, 0, 0, 1, 0, 0, 0, 0, 0, 0, 0, 2, 167, 203, 191, 100, 93, 46, 201, 245,
    80, 55, 50, 101, 41, 255, 28, 198, 165, 0, 15, 144, 28, 93, 156, 240, 46, 178, 94, 188, 253, 1,
    249, 208, 231, 158, 12, 121, 134, 91, 233, 156, 12, 209, 81, 247, 213, 10, 95, 183, 114, 212,
    1, 200, 245, 94, 247, 11, 177, 39, 115, 40, 149, 67, 111, 212,
];

// The same with the kind of earlier programs, whose blocks were longer.
static LONG_LIST: [u8; 187] = [
    110, 101, 113, 117, 108, 108, 112, 97, 3, 0, 0, 0, 1, 0, 0, 0, 0, 0, 0, 0, 3, 0, 0, 0, 0, 0, 0,
    0, 1, 0, 0, 0, 115, 1, 0, 1, 0, 0, 0, 0, 0, 0, 0, 1, 0, 0, 0, 1, 0, 0, 0, 2, 0, 0, 0, 0, 0, 0,
    0, 0, 0, 0, 0, 1, 0, 0, 0, 0, 0, 0, 0, 0, 75, 245, 18, 47, 52, 69, 84, 197, 59, 222, 46, 187,
    140, 210, 183, 227, 209, 96, 10, 214, 49, 195, 133, 165, 215, 204, 226, 60, 119, 133, 69, 154,
    5, 0, 1, 0, 0, 0, 0, 0, 0, 0, 1, 0, 0, 0, 0, 0, 0, 0, 1, 167, 203, 191, 100, 93, 46, 201, 245,
    80, 55, 50, 101, 41, 255, 28, 198, 165, 0, 15, 144, 28, 93, 156, 240, 46, 178, 94, 188, 253, 1,
    249, 208, 85, 119, 51, 118, 199, 218, 118, 179, 205, 174, 142, 67, 12, 19, 91, 185, 42, 219,
    191, 70, 236, 249, 58, 17, 174, 178, 62, 113, 65, 61, 126, 182,
];

// Lists that are refused: an id twice, one that isn't below the next, more living documents than documents,
// files out of order, an unknown component, terms with a generation, 2^31 documents, 2^31 living ones, stored
// documents before flags, stored documents with a generation, a digest of an unknown kind.
static REFUSED: [&'static [u8]; 11] = [
    &[
        110, 101, 113, 117, 108, 108, 112, 97, 2, 0, 0, 0, 1, 0, 0, 0, 0, 0, 0, 0, 3, 0, 0, 0, 0,
        0, 0, 0, 1, 0, 0, 0, 115, 2, 0, 1, 0, 0, 0, 0, 0, 0, 0, 1, 0, 0, 0, 1, 0, 0, 0, 0, 0, 1, 0,
        0, 0, 0, 0, 0, 0, 1, 0, 0, 0, 1, 0, 0, 0, 0, 0, 240, 164, 177, 232, 70, 190, 102, 247, 244,
        147, 88, 2, 241, 203, 192, 116, 82, 176, 93, 61, 62, 65, 200, 177, 73, 36, 249, 39, 121,
        84, 120, 47,
    ],
    &[
        110, 101, 113, 117, 108, 108, 112, 97, 2, 0, 0, 0, 1, 0, 0, 0, 0, 0, 0, 0, 1, 0, 0, 0, 0,
        0, 0, 0, 1, 0, 0, 0, 115, 1, 0, 1, 0, 0, 0, 0, 0, 0, 0, 1, 0, 0, 0, 1, 0, 0, 0, 0, 0, 69,
        62, 255, 147, 140, 204, 213, 245, 22, 188, 13, 50, 219, 247, 135, 31, 7, 70, 174, 209, 187,
        220, 172, 235, 34, 70, 109, 19, 73, 52, 147, 42,
    ],
    &[
        110, 101, 113, 117, 108, 108, 112, 97, 2, 0, 0, 0, 1, 0, 0, 0, 0, 0, 0, 0, 3, 0, 0, 0, 0,
        0, 0, 0, 1, 0, 0, 0, 115, 1, 0, 1, 0, 0, 0, 0, 0, 0, 0, 1, 0, 0, 0, 2, 0, 0, 0, 0, 0, 146,
        193, 249, 162, 175, 146, 77, 116, 100, 207, 10, 254, 72, 239, 77, 25, 100, 109, 6, 174,
        127, 92, 207, 156, 213, 221, 54, 135, 83, 38, 183, 206,
    ],
    &[
        110, 101, 113, 117, 108, 108, 112, 97, 2, 0, 0, 0, 1, 0, 0, 0, 0, 0, 0, 0, 3, 0, 0, 0, 0,
        0, 0, 0, 1, 0, 0, 0, 115, 1, 0, 1, 0, 0, 0, 0, 0, 0, 0, 1, 0, 0, 0, 1, 0, 0, 0, 2, 0, 1, 0,
        0, 0, 0, 0, 0, 0, 0, 0, 0, 0, 0, 0, 0, 0, 0, 0, 227, 176, 196, 66, 152, 252, 28, 20, 154,
        251, 244, 200, 153, 111, 185, 36, 39, 174, 65, 228, 100, 155, 147, 76, 164, 149, 153, 27,
        120, 82, 184, 85, 0, 0, 0, 0, 0, 0, 0, 0, 0, 0, 0, 0, 0, 0, 0, 0, 0, 0, 227, 176, 196, 66,
        152, 252, 28, 20, 154, 251, 244, 200, 153, 111, 185, 36, 39, 174, 65, 228, 100, 155, 147,
        76, 164, 149, 153, 27, 120, 82, 184, 85, 202, 23, 243, 47, 185, 202, 139, 110, 211, 19,
        102, 71, 213, 229, 142, 110, 59, 71, 186, 154, 65, 235, 142, 33, 144, 206, 151, 164, 106,
        40, 155, 231,
    ],
    &[
        110, 101, 113, 117, 108, 108, 112, 97, 2, 0, 0, 0, 1, 0, 0, 0, 0, 0, 0, 0, 3, 0, 0, 0, 0,
        0, 0, 0, 1, 0, 0, 0, 115, 1, 0, 1, 0, 0, 0, 0, 0, 0, 0, 1, 0, 0, 0, 1, 0, 0, 0, 1, 0, 8, 0,
        0, 0, 0, 0, 0, 0, 0, 0, 0, 0, 0, 0, 0, 0, 0, 0, 227, 176, 196, 66, 152, 252, 28, 20, 154,
        251, 244, 200, 153, 111, 185, 36, 39, 174, 65, 228, 100, 155, 147, 76, 164, 149, 153, 27,
        120, 82, 184, 85, 208, 198, 203, 241, 33, 121, 244, 230, 123, 43, 39, 221, 235, 122, 212,
        63, 25, 178, 107, 159, 208, 143, 74, 12, 147, 23, 252, 102, 45, 241, 54, 126,
    ],
    &[
        110, 101, 113, 117, 108, 108, 112, 97, 2, 0, 0, 0, 1, 0, 0, 0, 0, 0, 0, 0, 3, 0, 0, 0, 0,
        0, 0, 0, 1, 0, 0, 0, 115, 1, 0, 1, 0, 0, 0, 0, 0, 0, 0, 1, 0, 0, 0, 1, 0, 0, 0, 1, 0, 0, 0,
        1, 0, 0, 0, 0, 0, 0, 0, 0, 0, 0, 0, 0, 0, 0, 0, 227, 176, 196, 66, 152, 252, 28, 20, 154,
        251, 244, 200, 153, 111, 185, 36, 39, 174, 65, 228, 100, 155, 147, 76, 164, 149, 153, 27,
        120, 82, 184, 85, 127, 226, 100, 136, 68, 131, 161, 99, 26, 35, 32, 184, 90, 170, 89, 44,
        66, 139, 234, 68, 250, 79, 199, 67, 13, 223, 12, 227, 121, 44, 238, 247,
    ],
    &[
        110, 101, 113, 117, 108, 108, 112, 97, 2, 0, 0, 0, 1, 0, 0, 0, 0, 0, 0, 0, 3, 0, 0, 0, 0,
        0, 0, 0, 1, 0, 0, 0, 115, 1, 0, 1, 0, 0, 0, 0, 0, 0, 0, 0, 0, 0, 128, 1, 0, 0, 0, 0, 0, 18,
        144, 76, 93, 145, 151, 46, 134, 130, 2, 154, 177, 18, 62, 161, 197, 5, 75, 164, 62, 137,
        208, 82, 94, 138, 181, 55, 50, 103, 253, 241, 17,
    ],
    &[
        110, 101, 113, 117, 108, 108, 112, 97, 2, 0, 0, 0, 1, 0, 0, 0, 0, 0, 0, 0, 4, 0, 0, 0, 0,
        0, 0, 0, 1, 0, 0, 0, 115, 2, 0, 1, 0, 0, 0, 0, 0, 0, 0, 255, 255, 255, 127, 255, 255, 255,
        127, 0, 0, 2, 0, 0, 0, 0, 0, 0, 0, 1, 0, 0, 0, 1, 0, 0, 0, 0, 0, 11, 176, 249, 130, 31, 10,
        163, 54, 12, 11, 122, 131, 12, 49, 115, 250, 15, 167, 12, 46, 177, 218, 148, 64, 3, 105,
        178, 156, 52, 251, 48, 105,
    ],
    &[
        110, 101, 113, 117, 108, 108, 112, 97, 2, 0, 0, 0, 1, 0, 0, 0, 0, 0, 0, 0, 3, 0, 0, 0, 0,
        0, 0, 0, 1, 0, 0, 0, 115, 1, 0, 1, 0, 0, 0, 0, 0, 0, 0, 1, 0, 0, 0, 1, 0, 0, 0, 2, 0, 6, 0,
        0, 0, 0, 0, 0, 0, 0, 0, 1, 0, 0, 0, 0, 0, 0, 0, 43, 76, 52, 47, 84, 51, 235, 229, 145, 161,
        218, 119, 224, 19, 209, 183, 36, 117, 86, 45, 72, 87, 141, 202, 139, 132, 186, 198, 101,
        28, 60, 185, 5, 0, 1, 0, 0, 0, 0, 0, 0, 0, 1, 0, 0, 0, 0, 0, 0, 0, 75, 245, 18, 47, 52, 69,
        84, 197, 59, 222, 46, 187, 140, 210, 183, 227, 209, 96, 10, 214, 49, 195, 133, 165, 215,
        204, 226, 60, 119, 133, 69, 154, 169, 171, 65, 232, 230, 173, 197, 75, 111, 123, 254, 200,
        61, 194, 227, 4, 157, 235, 139, 143, 60, 161, 231, 32, 139, 129, 92, 105, 187, 88, 146, 96,
    ],
    &[
        110, 101, 113, 117, 108, 108, 112, 97, 2, 0, 0, 0, 1, 0, 0, 0, 0, 0, 0, 0, 3, 0, 0, 0, 0,
        0, 0, 0, 1, 0, 0, 0, 115, 1, 0, 1, 0, 0, 0, 0, 0, 0, 0, 1, 0, 0, 0, 1, 0, 0, 0, 1, 0, 6, 0,
        1, 0, 0, 0, 0, 0, 0, 0, 1, 0, 0, 0, 0, 0, 0, 0, 43, 76, 52, 47, 84, 51, 235, 229, 145, 161,
        218, 119, 224, 19, 209, 183, 36, 117, 86, 45, 72, 87, 141, 202, 139, 132, 186, 198, 101,
        28, 60, 185, 79, 82, 125, 249, 174, 126, 124, 228, 161, 242, 186, 253, 56, 76, 97, 201, 11,
        153, 212, 248, 17, 175, 33, 146, 211, 238, 253, 163, 151, 164, 248, 236,
    ],
    &[
        110, 101, 113, 117, 108, 108, 112, 97, 3, 0, 0, 0, 1, 0, 0, 0, 0, 0, 0, 0, 3, 0, 0, 0, 0,
        0, 0, 0, 1, 0, 0, 0, 115, 1, 0, 1, 0, 0, 0, 0, 0, 0, 0, 1, 0, 0, 0, 1, 0, 0, 0, 1, 0, 0, 0,
        0, 0, 0, 0, 0, 0, 0, 0, 1, 0, 0, 0, 0, 0, 0, 0, 3, 118, 172, 101, 56, 72, 28, 104, 203, 64,
        60, 84, 127, 137, 150, 106, 190, 1, 117, 43, 152, 6, 73, 147, 58, 12, 237, 13, 7, 163, 0,
        212, 191, 0, 42, 139, 217, 130, 204, 82, 204, 25, 230, 169, 148, 58, 174, 131, 106, 98, 67,
        195, 117, 230, 80, 4, 159, 99, 75, 139, 177, 29, 185, 159, 123,
    ],
];

// Returns whether these bytes are refused as a damaged `meta`.
fn is_damaged(alloc: Global, bytes: &[u8]) -> bool {
    match decode(alloc, bytes) {
        Ok(_) => false,
        Err(fault) => fault == StoreFault::Index(IndexFault::DamagedMeta),
    }
}

// Returns whether a file is of a component, and has the SHA-256 of these bytes.
fn is_of_sha256(file: &FileMeta, component: SegmentComponent, bytes: &[u8]) -> bool {
    match file.digest {
        FileDigest::Sha256(_) => file.component == component && file.digest.is_of(bytes),
        FileDigest::LongBlocks(_) | FileDigest::Blocks(_) => false,
    }
}

// Returns the encoding of what is read of these bytes.
fn encoded(alloc: Global, bytes: &[u8]) -> Result<Vec<u8>, StoreFault> {
    let list = decode(alloc, bytes)?;
    if !is_valid(&list) {
        return Err(StoreFault::Index(IndexFault::DamagedMeta));
    }
    Ok(encode(alloc, &list)?)
}

#[test]
fn a_list_is_read_and_written(rt: HostRuntime) -> Result<(), Fail> {
    for list in [LIST.as_slice(), NEW_LIST.as_slice()] {
        let written = encoded(rt.alloc(), list).ok().ok_or("refused")?;
        assert!(rt; written.as_slice() == NEW_LIST.as_slice());
    }
    let list = decode(rt.alloc(), &LIST).ok().ok_or("refused")?;
    assert!(rt; (list.generation, list.next_segment_id) == (1, 3));
    assert!(rt; list.schema.as_slice() == b"s".as_slice());
    assert!(rt; list.segments.len() == 2);
    let first = &list.segments[0];
    assert!(rt; (first.id, first.num_docs, first.num_living) == (1, 3, 2));
    assert!(rt; first.files.len() == 1);
    assert!(rt; is_of_sha256(&first.files[0], SegmentComponent::Terms, &[1]));
    Ok(())
}

#[test]
fn a_list_with_stored_documents_is_read_and_written(rt: HostRuntime) -> Result<(), Fail> {
    for list in [STORED_LIST.as_slice(), NEW_STORED_LIST.as_slice()] {
        let written = encoded(rt.alloc(), list).ok().ok_or("refused")?;
        assert!(rt; written.as_slice() == NEW_STORED_LIST.as_slice());
    }
    let list = decode(rt.alloc(), &STORED_LIST).ok().ok_or("refused")?;
    assert!(rt; list.segments.len() == 1);
    let files = list.segments[0].files.as_slice();
    assert!(rt; files.len() == 2);
    assert!(rt; is_of_sha256(&files[0], SegmentComponent::Alive(1), &[1]));
    assert!(rt; is_of_sha256(&files[1], SegmentComponent::Store, &[9]));
    Ok(())
}

#[test]
fn a_list_with_other_kinds_of_digest_is_read_and_written(rt: HostRuntime) -> Result<(), Fail> {
    for list in [MIXED_LIST, LONG_LIST] {
        let written = encoded(rt.alloc(), &list).ok().ok_or("refused")?;
        assert!(rt; written.as_slice() == list.as_slice());
    }
    let list = decode(rt.alloc(), &MIXED_LIST).ok().ok_or("refused")?;
    assert!(rt; list.segments.len() == 1);
    let files = list.segments[0].files.as_slice();
    assert!(rt; files.len() == 2);
    assert!(rt; is_of_sha256(&files[0], SegmentComponent::Terms, &[1]));
    assert!(rt; files[1] == FileMeta::new(SegmentComponent::Alive(1), &[9]));
    Ok(())
}

// The digests of the first bytes of those that `counted` gives, computed by a script.
static DIGESTS: [(usize, [u8; 32]); 4] = [
    (
        0,
        [
            227, 176, 196, 66, 152, 252, 28, 20, 154, 251, 244, 200, 153, 111, 185, 36, 39, 174,
            65, 228, 100, 155, 147, 76, 164, 149, 153, 27, 120, 82, 184, 85,
        ],
    ),
    (
        1,
        [
            221, 167, 189, 14, 201, 157, 72, 114, 29, 174, 234, 140, 170, 228, 180, 211, 124, 1,
            19, 185, 138, 31, 41, 195, 60, 52, 246, 228, 225, 30, 221, 157,
        ],
    ),
    (
        4096,
        [
            223, 248, 247, 100, 227, 35, 80, 121, 153, 226, 66, 163, 213, 151, 110, 56, 15, 174,
            84, 231, 184, 55, 119, 136, 30, 206, 201, 224, 181, 172, 189, 224,
        ],
    ),
    (
        12289,
        [
            231, 135, 180, 156, 41, 246, 37, 178, 22, 164, 180, 154, 161, 45, 197, 125, 202, 244,
            37, 17, 237, 160, 219, 231, 141, 247, 138, 94, 45, 141, 211, 80,
        ],
    ),
];

// The same with the long blocks of earlier programs.
static LONG_DIGESTS: [(usize, [u8; 32]); 2] = [
    (
        65536,
        [
            9, 50, 199, 77, 157, 31, 38, 89, 101, 55, 213, 15, 7, 158, 177, 61, 61, 194, 62, 252,
            254, 86, 93, 29, 32, 73, 215, 155, 175, 147, 84, 170,
        ],
    ),
    (
        131075,
        [
            235, 222, 63, 89, 220, 69, 91, 218, 159, 18, 71, 218, 215, 230, 107, 220, 58, 9, 175,
            112, 75, 99, 117, 170, 209, 119, 145, 248, 99, 211, 231, 192,
        ],
    ),
];

// Returns this many bytes, each 7 more than the one before it, modulo 251.
fn counted(alloc: Global, len: usize) -> Result<Vec<u8>, AllocError> {
    let mut bytes = Vec::new(alloc);
    let mut byte: u16 = 0;
    for _ in 0..len {
        bytes.push((byte & 0xff) as u8)?;
        byte = (byte % 251 + 7) % 251;
    }
    Ok(bytes)
}

#[test]
fn a_file_has_the_digest_of_its_blocks(rt: HostRuntime) -> Result<(), Fail> {
    for (len, digest) in DIGESTS {
        let bytes = counted(rt.alloc(), len)?;
        let file = FileMeta::new(SegmentComponent::Terms, bytes.as_slice());
        assert!(rt; file.digest == FileDigest::Blocks(digest), "{len} bytes");
    }
    for (len, digest) in LONG_DIGESTS {
        let bytes = counted(rt.alloc(), len)?;
        let digest = FileDigest::LongBlocks(digest);
        assert!(rt; digest.is_of(bytes.as_slice()), "{len} bytes");
        assert!(rt; !digest.is_of(&[]), "{len} bytes");
    }
    Ok(())
}

#[test]
fn damaged_lists_are_refused(rt: HostRuntime) {
    for (row, bytes) in REFUSED.iter().enumerate() {
        assert!(rt; is_damaged(rt.alloc(), bytes), "row {row}");
    }
    for len in 0..LIST.len() {
        assert!(rt; is_damaged(rt.alloc(), &LIST[..len]), "{len} bytes");
    }
}

// Returns the contents of the terms of a segment.
fn terms_of(id: u64) -> [u8; 2] {
    [(id & 0xff) as u8, 7]
}

// Returns a list of segments of one document each, with terms and living documents.
fn list_of(alloc: Global, generation: u64, ids: &[u64]) -> Result<IndexMeta, AllocError> {
    let mut segments = Vec::new(alloc);
    for id in ids {
        let mut files = Vec::new(alloc);
        files.push(FileMeta::new(SegmentComponent::Terms, &terms_of(*id)))?;
        files.push(FileMeta::new(SegmentComponent::Alive(1), &[1]))?;
        segments.push(SegmentMeta {
            id: *id,
            num_docs: 1,
            num_living: 1,
            files,
        })?;
    }
    Ok(IndexMeta {
        generation,
        next_segment_id: 100,
        schema: Vec::new(alloc),
        segments,
    })
}

// Writes the files of a segment.
fn write_segment<D: Directory>(directory: &mut D, id: u64) -> Result<(), DirectoryFault> {
    directory.write(Name::Segment(id, SegmentComponent::Terms), &terms_of(id))?;
    directory.write(Name::Segment(id, SegmentComponent::Alive(1)), &[1])
}

// Commits a list, if that may be done, and returns whether it may.
fn committed<D: Directory>(
    alloc: Global,
    directory: &mut D,
    list: &IndexMeta,
) -> Result<bool, DirectoryFault> {
    if !may_commit(alloc, directory, list)? {
        return Ok(false);
    }
    commit(alloc, directory, list)?;
    Ok(true)
}

// Returns the generation of the list in a directory, if all its files are as it says: 0 if there is no list,
// 100 if a file isn't.
fn generation_found<D: Directory>(alloc: Global, directory: &D) -> u64 {
    let Ok(list) = load_meta(alloc, directory) else {
        return 0;
    };
    for segment in &list.segments {
        for file in &segment.files {
            let Ok(_) = load_segment_file(alloc, directory, segment.id, file) else {
                return 100;
            };
        }
    }
    list.generation
}

// Returns the generation that is found when the second of two commits stops after `calls` calls.
fn found_after_stop(alloc: Global, calls: u64) -> Result<u64, DirectoryFault> {
    let mut directory = MemoryDirectory::create(alloc);
    write_segment(&mut directory, 1)?;
    let _ = committed(alloc, &mut directory, &list_of(alloc, 1, &[1])?)?;
    write_segment(&mut directory, 2)?;
    directory.stop_after(calls);
    let _ = committed(alloc, &mut directory, &list_of(alloc, 2, &[2, 1])?);
    Ok(generation_found(alloc, &directory))
}

#[test]
fn a_stop_leaves_the_old_list_or_the_new_one(rt: HostRuntime) {
    // Three calls for the list, then two for renaming.
    for calls in 0..6u64 {
        let want = if calls < 4 { 1 } else { 2 };
        assert!(rt;
            found_after_stop(rt.alloc(), calls).ok() == Some(want),
            "{calls} calls"
        );
    }
}

// Returns whether lists may be committed before there are files, with the generation of the list before it,
// and with that after it.
fn may_be_committed(alloc: Global) -> Result<[bool; 3], DirectoryFault> {
    let mut directory = MemoryDirectory::create(alloc);
    let early = committed(alloc, &mut directory, &list_of(alloc, 1, &[1])?)?;
    write_segment(&mut directory, 1)?;
    let again = committed(alloc, &mut directory, &list_of(alloc, 0, &[1])?)?;
    let next = committed(alloc, &mut directory, &list_of(alloc, 1, &[1])?)?;
    Ok([early, again, next])
}

#[test]
fn lists_are_committed_in_order_once_their_files_are_there(rt: HostRuntime) {
    assert!(rt; may_be_committed(rt.alloc()).ok() == Some([false, false, true]));
}

// Returns how many files `collect` removes at a first and a second call, and the generation found then, after
// a list of segments 1 and 2 was replaced by one of segment 2, and a stop left `meta.new`.
fn collected<D: Directory>(alloc: Global, directory: &mut D) -> Result<[u64; 3], StoreFault> {
    write_segment(directory, 1)?;
    write_segment(directory, 2)?;
    let _ = committed(alloc, directory, &list_of(alloc, 1, &[1, 2])?)?;
    let _ = committed(alloc, directory, &list_of(alloc, 2, &[2])?)?;
    directory.write(Name::NewMeta, &[])?;
    let first = collect(alloc, directory)?;
    let second = collect(alloc, directory)?;
    Ok([first, second, generation_found(alloc, directory)])
}

#[test]
fn files_that_no_list_has_are_removed(rt: HostRuntime) {
    let mut directory = MemoryDirectory::create(rt.alloc());
    assert!(rt; collected(rt.alloc(), &mut directory).ok() == Some([3, 0, 2]));
    let names = directory.list(rt.alloc());
    assert!(rt; names.ok().map_or(0, |names| names.len()) == 3);
}

#[test]
fn a_folder_keeps_files_of_others(rt: HostRuntime) -> Result<(), Fail> {
    let path = "/tmp/ii_foundation_tests_segments";
    let foreign = "/tmp/ii_foundation_tests_segments/0000000000000001.terms";
    let _ = fs::remove_dir_all(&rt, path);
    fs::create_dir(&rt, path)?;
    fs::write(&rt, foreign, "mine")?;
    let mut folder = Folder::new(&rt, path);
    let answers = collected(rt.alloc(), &mut folder);
    let is_kept = fs::exists(&rt, foreign)?;
    fs::remove_dir_all(&rt, path)?;
    assert!(rt; answers.ok() == Some([3, 0, 2]));
    assert!(rt; is_kept);
    Ok(())
}

// Returns what loading the terms of segment 1 reports after they got these bytes, or were removed.
fn told_of(alloc: Global, bytes: Option<&[u8]>) -> Result<String, DirectoryFault> {
    let mut directory = MemoryDirectory::create(alloc);
    let name = Name::Segment(1, SegmentComponent::Terms);
    if let Some(bytes) = bytes {
        directory.write(name, bytes)?;
    }
    let file = FileMeta::new(SegmentComponent::Terms, &terms_of(1));
    match load_segment_file(alloc, &directory, 1, &file) {
        Ok(_) => Ok(format!(in alloc; "found")?),
        Err(fault) => Ok(format!(in alloc; "{fault}")?),
    }
}

static TOLD: [(Option<&'static [u8]>, &'static str); 4] = [
    (Some(&[1, 7]), "found"),
    (None, "the file of terms of segment 1 is missing"),
    (
        Some(&[1, 7, 7]),
        "the file of terms of segment 1 has another length than meta says",
    ),
    (
        Some(&[1, 8]),
        "the file of terms of segment 1 has another checksum than meta says",
    ),
];

#[test]
fn faults_of_segment_files_have_their_names(rt: HostRuntime) {
    for (bytes, want) in TOLD {
        let told = told_of(rt.alloc(), bytes);
        assert!(rt;
            told.ok().map_or(false, |told| told.as_str() == want),
            "{want}"
        );
    }
}
