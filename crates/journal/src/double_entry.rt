// What double entry promises of any list of lines.
ghost use Rattle.journal.specs.Accounts.{NoneLost};

// Shows that lines which never take more than there is lose nothing; it does nothing when run.
pub fn show_none_lost()
    ensures { NoneLost }
{}
