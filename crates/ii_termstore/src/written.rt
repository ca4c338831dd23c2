ghost use Rattle.ii_termstore.specs.ReadBack.{ReadsStoreBack};

use ii_codes::bitpacker::reads_from_its_place;
use ii_codes::packed::holds_from_least_width;

/// States that the written store of joined terms reads back as these terms, whatever follows.
pub fn reads_store_back()
    ensures { ReadsStoreBack }
{
    reads_from_its_place();
    holds_from_least_width();
}
