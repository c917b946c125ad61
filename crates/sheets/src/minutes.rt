// Last minutes, included; none where there is no such minute.
ghost use Rattle.std.specs.Prelude.{◌≡◌};
ghost use Rattle.sheets.specs.Minutes.{not_past};

// Is it no later than the last minute?
pub fn not_past(last: Option<u64>, minute: u32) -> bool
    ensures { result ≡ not_past last minute }
{
    last.is_some_and(|last| u64::from(minute) <= last)
}
