ghost use Rattle.ii_recorder.specs.HeldTerms.{HoldsEachTerm, HoldsWhatIsWritten};
ghost use Rattle.ii_recorder.specs.Pushed.{ReadsEntriesBack};
ghost use Rattle.ii_recorder.specs.TokenTerms.{BoundsItsTokens, HoldsItsTokens};

use ii_layout::written::{bounds_what_is_written, reads_term_back, reads_uncounted_term_back};
use ii_termdict::written::reads_dictionary_back;

/// States what the bodies of a written field hold: the number of its tokens, exactly the keys of its terms,
/// and the info of each. The ranges of the info hold that term's bytes.
pub fn holds_what_is_written()
    ensures { HoldsWhatIsWritten }
{
    reads_dictionary_back();
}

/// States that each held term is found under its own key.
pub fn holds_each_term()
    ensures { HoldsEachTerm }
{}

/// States that the written documents of a recorder, in a term with no documents before them, read back with
/// term frequencies and positions as far as they are requested.
pub fn reads_entries_back()
    ensures { ReadsEntriesBack }
{
    reads_term_back();
}

/// States that bodies hold the tokens of a field if they hold the terms that are written for these tokens: for
/// each key that occurred its postings, as the field records them.
pub fn holds_its_tokens()
    ensures { HoldsItsTokens }
{
    reads_entries_back();
    reads_uncounted_term_back();
}

/// States that bodies have true bounds if they hold the terms that are written for the tokens of a field with
/// norms: for each full block of a term with frequencies the least norm id and the greatest frequency.
pub fn bounds_its_tokens()
    ensures { BoundsItsTokens }
{
    bounds_what_is_written();
}
