use ii_base::{Field, Term};
use ii_bm25::{Bm25StatisticsProvider, Bm25Weight, idf, log2_fixed, score, share};
use ii_io::Fault;
use std::alloc::Global;

// Numbers, and 2^26 times their logarithm by base 2, by 40 digits.
static LOGARITHMS: [(u64, u64); 8] = [
    (1, 0),
    (2, 67_108_864),
    (3, 106_365_032),
    (5, 155_821_956),
    (1_001, 668_889_231),
    (2_000_002, 1_404_693_885),
    (4_294_967_295, 2_147_483_647),
    (u64::MAX, 4_294_967_295),
];

#[test]
fn logarithms_are_those_of_forty_digits(rt: HostRuntime) {
    for (x, value) in LOGARITHMS {
        if x > 0 {
            assert_eq!(rt; log2_fixed(x), value);
        }
    }
}

// Document frequencies, numbers of documents, and the idf, by a second program.
static IDFS: [(u64, u64, u64); 6] = [
    (1, 1, 27_852_696),
    (0, 0, 67_108_864),
    (10, 1_000_000, 1_109_930_453),
    (1_000_000, 1_000_000, 49),
    (500_000, 1_000_000, 67_108_864),
    (2, 1, 0),
];

#[test]
fn rare_terms_have_a_greater_idf(rt: HostRuntime) {
    for (doc_freq, doc_count, value) in IDFS {
        assert_eq!(rt; idf(doc_freq, doc_count), value);
    }
    assert_eq!(rt; idf(u64::MAX, u64::MAX), 0);
}

// Counts and length parts, and the share, by a second program.
static SHARES: [(u32, u64, u64); 5] = [
    (0, 1_258_291, 0),
    (1, 1_258_291, 122_016_126),
    (2, 1_258_291, 167_772_170),
    (u32::MAX, 314_572, 268_435_455),
    (1, 68_719_476_735, 4_095),
];

#[test]
fn shares_rise_with_the_count(rt: HostRuntime) {
    for (count, length, value) in SHARES {
        if length > 0 && length < 1 << 36 {
            assert_eq!(rt; share(count, length), value);
        }
    }
    assert_eq!(rt; score(4_194_304, 255, 314_572), 274_554_901_504);
    assert_eq!(rt; score(1, 1, 1_258_291), 29_789);
}

// The number of documents and of tokens, a document frequency, a field norm's id and a count; the score and the
// greatest one of the weight, by a second program.
static SCORES: [(u64, u64, u64, u8, u32, u64, u64); 6] = [
    (
        1_000_000,
        30_000_000,
        10,
        30,
        1,
        3_151_238_039_127,
        6_932_723_138_560,
    ),
    (
        1_000_000,
        30_000_000,
        10,
        30,
        3,
        4_951_945_320_340,
        6_932_723_138_560,
    ),
    (
        1_000_000,
        30_000_000,
        500_000,
        0,
        255,
        418_675_238_641,
        419_167_797_248,
    ),
    (1, 1, 1, 1, 1, 79_077_441_823, 173_970_358_272),
    (10, 0, 3, 255, 7, 73_956_384, 692_497_416_192),
    (2_147_483_647, 1, 1, 255, 1, 194_486_902, 12_749_006_176_256),
];

// Returns the score and the bounds of a weight.
fn scored(alloc: Global, row: (u64, u64, u64, u8, u32, u64, u64)) -> Result<[u64; 3], Fault> {
    let weight = Bm25Weight::for_one_term(alloc, row.2, row.0, row.1)?;
    Ok([
        weight.score(row.3, row.4),
        weight.block_max_score(row.3, row.4),
        weight.max_score(),
    ])
}

#[test]
fn scores_are_those_of_a_second_program(rt: HostRuntime) {
    for row in SCORES {
        assert!(rt;
            scored(rt.alloc(), row).ok() == Some([row.5, row.5, row.6]),
            "{} of {}",
            row.2,
            row.0
        );
    }
}

#[test]
fn a_phrase_has_the_sum_of_its_terms(rt: HostRuntime) {
    let idfs = idf(10, 1_000_000) + idf(500_000, 1_000_000);
    let weight = Bm25Weight::new(rt.alloc(), idfs, 1_000_000, 30_000_000);
    assert_eq!(rt; weight.ok().map_or(0, |w| w.max_score()), 112_180_954 << 16);
}

// An index of 1,000 documents: a key of one byte has 3, any other has 40.
#[derive(Drop)]
struct Numbers;

impl Bm25StatisticsProvider for Numbers {
    ghost use Rattle.std.specs.Prelude.{◌==◌, if◌then◌else◌, length};

    ghost statistics = { λ n. record { num_docs = 1000; num_tokens = λ field. 20000; doc_freq = λ field key. if length key == 1 then 3 else 40 } };

    fn total_num_tokens(&self, _field: Field) -> u64 {
        20_000
    }

    fn total_num_docs(&self) -> u64 {
        1_000
    }

    fn doc_freq(&self, term: &Term) -> u64 {
        if term.serialized_value_bytes().len() == 1 {
            3
        } else {
            40
        }
    }
}

// Returns the greatest score of a phrase of two words.
fn phrase_score(alloc: Global) -> Result<u64, Fault> {
    let field = Field::from_field_id(0);
    let mut terms = Vec::new(alloc);
    terms.push(Term::from_field_text(alloc, field, "a")?)?;
    terms.push(Term::from_field_text(alloc, field, "bc")?)?;
    Ok(Bm25Weight::for_terms(alloc, &Numbers, field, &terms)?.max_score())
}

#[test]
fn a_phrase_has_the_weight_of_a_second_program(rt: HostRuntime) {
    assert_eq!(rt; phrase_score(rt.alloc()).ok(), Some(81_787_158 << 16));
}
