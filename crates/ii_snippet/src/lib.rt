//! Snippets: the part of a text around the words that a query wants, with these marked.
#![tactic(auto)]

pub mod field_texts;
pub mod fragments;
pub mod marks;
pub mod object_snippets;
pub mod wanted;
pub mod windows;

pub use fragments::{Snippet, SnippetPiece};
pub use marks::MarkStyle;
pub use object_snippets::{SnippetRules, snippet_of_object};
pub use wanted::{WantedWord, snippet_tokens, wanted_words};
pub use windows::{SnippetToken, shown_tokens};
