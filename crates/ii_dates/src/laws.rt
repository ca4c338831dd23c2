//! Laws of the texts of dates.
ghost use Rattle.std.specs.Prelude.{◌≡◌, ℤ, FitsSigned, Some};
ghost use Rattle.std.specs.Int.{w64};
ghost use Rattle.ii_dates.specs.Dates.{date_in, date_text};

/// The text of each date is read back as that date.
#[tactic(auto, using(crate::proofs::DateLaws::date_read_back))]
pub fn dates_are_read_back()
    ensures { (z : ℤ) → FitsSigned w64 z → date_in (date_text z) ≡ Some z }
{}
