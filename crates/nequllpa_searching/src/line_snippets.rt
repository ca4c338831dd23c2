//! Shows of a stored line the words that a query wants.
ghost use Rattle.std.specs.Prelude.{IfOk, string_bytes};
ghost use Rattle.ii_io.specs.Faults.{OnlyMemory};
ghost use Rattle.ii_snippet.specs.ObjectSnippets.{IsObjectSnippet, rules_of};
ghost use Rattle.ii_documents.specs.LineFields.{value_of_line};

use ii_base::Fault;
use ii_documents::read_line;
use ii_snippet::{SnippetRules, snippet_of_object};
use std::alloc::Global;

/// Returns what is shown of a line: the snippets of those of its texts that have a wanted word (`snippet_of_object`). A
/// line that is no JSON object has none. Fails only with `OutOfMemory`.
pub fn snippet_of_line(alloc: Global, rules: &SnippetRules<'_>, line: &str) -> Result<String, Fault>
    ensures snippet { IfOk result (λ text. IsObjectSnippet (rules_of rules.now) (value_of_line line.now) (string_bytes text)) }
    ensures only { OnlyMemory result }
{
    let value = match read_line(alloc, line) {
        Ok(value) => value,
        Err(fault) => return Err(fault),
    };
    let text = snippet_of_object(alloc, rules, &value);
    drop(value);
    text
}
