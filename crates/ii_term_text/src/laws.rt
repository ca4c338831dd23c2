//! Laws of the texts of keys.
ghost use Rattle.std.specs.Prelude.{◌≡◌, ◌++◌, ◌∷◌, ℕ, List, Bool, Some, false, true};
ghost use Rattle.ii_base.specs.Paths.{path_bytes, segments_of};
ghost use Rattle.ii_base.specs.declared.schema.value_type.ValueType.{ValueType};
ghost use Rattle.ii_term_text.specs.KeyTexts.{IsOfField, KeyValue, key_in, text_of_key, value_key};
ghost use Rattle.ii_term_text.specs.PathTexts.{cut_at_space, has_dot, path_text};

/// The text of a path is read back: it ends at the first space that no backslash escapes, and its segments join to
/// the path, whatever its bytes are. With dots expanded no path of a field has a dot.
#[tactic(auto, using(crate::proofs::PathLaws::path_cut, crate::proofs::PathLaws::path_read, crate::proofs::PathLaws::expanded_path_read))]
pub fn paths_are_read_back()
    ensures cut { (path rest : List ℕ) → cut_at_space false (path_text path ++ 32 ∷ rest) ≡ Some (record { front = path_text path; rest = rest }) }
    ensures read { (path : List ℕ) → path_bytes false (segments_of (path_text path)) ≡ path }
    ensures expanded { (path : List ℕ) → has_dot path ≡ false → path_bytes true (segments_of (path_text path)) ≡ path }
{}

/// The text of the key of each value of a field is read back as that key.
#[tactic(auto, using(crate::proofs::KeyLaws::key_read_back))]
pub fn keys_are_read_back()
    ensures { (value_type : ValueType) (expands_dots : Bool) (v : KeyValue) → IsOfField value_type expands_dots v → key_in value_type expands_dots (text_of_key value_type (value_key v)) ≡ Some (value_key v) }
{}
