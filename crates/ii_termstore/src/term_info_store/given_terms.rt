ghost use Rattle.std.specs.Prelude.{◌≡◌, List, [], ◌∷◌, ◌++◌};
ghost use Rattle.std.specs.Borrow.{ftrue};
ghost use Rattle.ii_termstore.specs.declared.term_info.TermInfo.{TermInfo as Info};

use crate::term_info::TermInfo;
use std::marker::Model;

/// Lists the terms that a writer was given, for contracts only: it takes no bytes and no code can read it.
#[derive(Drop)]
pub struct GivenTerms {
    pub ghost infos: { List Info },
}

impl Model for GivenTerms {
    ghost also_owns = { λ _. ftrue };
}

impl GivenTerms {
    /// Creates an empty list.
    pub fn new() -> GivenTerms
        ensures { result.infos ≡ [] }
    {
        GivenTerms {}
    }

    /// Returns the list with a term appended.
    pub fn and(&self, info: &TermInfo) -> GivenTerms
        ensures { result.infos ≡ self.now.infos ++ info.now ∷ [] }
    {
        GivenTerms {}
    }
}
