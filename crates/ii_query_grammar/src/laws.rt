//! Laws of all texts and all trees.
ghost use Rattle.std.specs.Prelude.{◌≡◌, ◌≤◌, ℕ, List, Ok, length, true};
ghost use Rattle.ii_query_grammar.specs.Grammar.{Spells, query};
ghost use Rattle.ii_query_grammar.specs.Lexemes.{lexemes};
ghost use Rattle.ii_query_grammar.specs.Parsed.{parsed};
ghost use Rattle.ii_query_grammar.specs.Spelling.{has_spelling, nesting, spelled};
ghost use Rattle.ii_query_grammar.specs.Trees.{Ast};

/// Law: a text is parsed as a tree if and only if the grammar derives it: as one tree at most.
#[tactic(auto, using(crate::proofs::CompleteLemmas::reads_query, crate::proofs::SoundLemmas::spells_query))]
pub fn reads_what_the_grammar_has()
    ensures sound { (limit : ℕ) (text : List ℕ) (t : Ast) → parsed limit text ≡ Ok t → Spells limit (query t) (lexemes (length text) text) }
    ensures complete { (limit : ℕ) (text : List ℕ) (t : Ast) → Spells limit (query t) (lexemes (length text) text) → parsed limit text ≡ Ok t }
{}

/// Law: the text of a tree that can be written is parsed as that tree.
#[tactic(auto, using(crate::proofs::SpellLemmas::reads_spelled))]
pub fn reads_what_is_spelled()
    ensures { (limit : ℕ) (t : Ast) → has_spelling t ≡ true → nesting t ≤ limit → parsed limit (spelled t) ≡ Ok t }
{}
