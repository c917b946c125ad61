// The posted days of a line, and the minutes at which days begin.
ghost use Rattle.std.specs.Prelude.{◌≡◌, ◌^◌, ◌<◌, IfSome};
ghost use Rattle.terms.specs.Days.{first_minute, day_of, minute_of_day, preschedule_minute, days_of};

pub const MINUTES_A_DAY: u32 = 1_440;

// The MW posted on each day from day 0 on, and each day's preschedule day.
#[derive(Clone, Copy, Debug)]
pub struct Posted<'a> {
    pub amounts: &'a [u32],
    pub preschedule: &'a [u32],
}

// The minute at which a day begins.
pub fn first_minute(day: u32) -> u64
    ensures { result ≡ first_minute day }
{
    u64::from(MINUTES_A_DAY) * u64::from(day)
}

// The day that a minute lies in.
pub fn day_of(minute: u32) -> u32
    ensures { result ≡ day_of minute }
{
    minute / MINUTES_A_DAY
}

// A minute's place in its day.
pub fn minute_of_day(minute: u32) -> u32
    ensures { result ≡ minute_of_day minute }
{
    minute % MINUTES_A_DAY
}

impl Posted<'_> {
    // The minute at which the preschedule day of a day begins; none for a day that is not posted.
    pub fn preschedule_minute(&self, day: u32) -> Option<u64>
        ensures value { result ≡ preschedule_minute (days_of self.now) day }
        ensures bound { IfSome result (λ m. m < 2 ^ 43) }
    {
        self.preschedule
            .get(day as usize)
            .map(|preschedule| first_minute(*preschedule))
    }
}
