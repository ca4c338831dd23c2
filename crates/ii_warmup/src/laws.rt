//! Laws of what a query reads of an index.
ghost use Rattle.ii_warmup.specs.Parts.{PartsAreSame, PartsFindTheSame};
ghost use Rattle.ii_warmup.specs.SameFor.{FoundAsThere};

/// Law: two indexes that have the same documents of each term and each range of a query find the same documents for
/// it, or the same first corrupt part.
#[tactic(auto, using(crate::proofs::FoundLemmas::found_as_there))]
pub fn finds_the_same()
    ensures { FoundAsThere }
{}

/// Law: an index that has of each field of another one the terms that a query reads, each as far as the query requests
/// it, finds the same documents for the query, or the same first corrupt part.
pub fn parts_find_the_same()
    ensures same { PartsAreSame }
    ensures found { PartsFindTheSame }
{}
