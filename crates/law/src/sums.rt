// The sums of a book's records and those of the journal's accounts are the same.
ghost use Rattle.law.specs.Sums.{SameSums};

// Shows that what the records of a book hold and what is set aside of them are the sums of the journal's accounts,
// and that with free and flown they add up to what was posted; it does nothing when run.
pub fn show_same_sums()
    ensures { SameSums }
{}
