//! Laws of the keys of values, and of phrases within a slop.
ghost use Rattle.std.specs.Prelude.{◌≡◌, ◌<◌, ◌^◌, ◌&&◌, ℕ, ℤ, Bool, FitsSigned, List, int_lt, nat_lt, not};
ghost use Rattle.std.specs.Int.{bytes_high_first, w64};
ghost use Rattle.ii_base.specs.Terms.{TermState};
ghost use Rattle.ii_base.specs.Values.{flipped, number_of_bool, u64_bytes};
ghost use Rattle.ii_definitions.specs.Tokens.{IndexToken};
ghost use Rattle.ii_query_parser.specs.Queries.{has_phrase, has_phrase_within};
ghost use Rattle.ii_query_parser.specs.Ranges.{is_less};
ghost use Rattle.ii_query_parser.specs.declared.query.PhraseTerm.{PhraseTerm};

/// Law: the keys of numbers and booleans are in the order of these, so that a range of values is a range of keys. The
/// key of a date is that of its nanoseconds, a signed number. Addresses are in the order of their numbers of 128 bits.
pub fn keys_have_the_order_of_values()
    ensures u64_range { (a b : ℕ) → a < 2 ^ 64 → b < 2 ^ 64 → is_less (u64_bytes a) (u64_bytes b) ≡ nat_lt a b }
    ensures i64_range { (a b : ℤ) → FitsSigned w64 a → FitsSigned w64 b → is_less (u64_bytes (flipped a)) (u64_bytes (flipped b)) ≡ int_lt a b }
    ensures address_range { (a b : ℕ) → a < 2 ^ 128 → b < 2 ^ 128 → is_less (bytes_high_first 16 a) (bytes_high_first 16 b) ≡ nat_lt a b }
    ensures bool_range { (a b : Bool) → is_less (u64_bytes (number_of_bool a)) (u64_bytes (number_of_bool b)) ≡ (not a && b) }
{}

/// Law: a phrase within a slop of 0 is the phrase.
#[tactic(auto, using(crate::proofs::SlopLemmas::phrase_within_zero))]
pub fn phrases_without_slop()
    ensures zero { (ts : List IndexToken) (doc : ℕ) (first : TermState) (others : List PhraseTerm) → has_phrase_within 0 ts doc first others ≡ has_phrase ts doc first others }
{}
