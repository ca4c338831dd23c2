ghost use Rattle.ii_termdict.specs.ReadBack.{ReadsDictionaryBack};

use ii_termstore::written::reads_store_back;

/// States that the written dictionary of ascending keys and joined terms reads back as these pairs, whatever
/// follows.
pub fn reads_dictionary_back()
    ensures { ReadsDictionaryBack }
{
    reads_store_back();
}
