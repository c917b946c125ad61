// Opening a book over lent memory: the tests of what is lent, and what is written into it.
ghost use Rattle.std.specs.Prelude.{◌≡◌, ◌≤◌, ◌++◌, length, drop, None, Some, Ok, Err};
ghost use Rattle.desk.specs.Desks.{refusal_over, OpenedOver};
ghost use Rattle.desk.specs.Opening.{postings_fit, busy_days};
ghost use Rattle.law.specs.Opened.{postings};

use crate::memory::{Desk, Memory};
use crate::record::Record;
use journal::line::{Line, LineKind};
use terms::checked::MOST_MW;
use terms::posted::Posted;
use terms::refusal::Refusal;

// The most days that a book may have posted.
pub const MOST_POSTED_DAYS: usize = 400;

// The most places for records that may be lent.
pub const MOST_PLACES: usize = 128;

// The most journal lines that may be lent.
pub const MOST_LINES: usize = 65_536;

impl<'a> Memory<'a> {
    // May a book be opened over what is lent? Nothing is changed.
    pub fn check(&self) -> Result<(), Refusal>
        ensures { elim result [ Ok _ ↦ refusal_over self.now ≡ None | Err e ↦ refusal_over self.now ≡ Some e ] }
    {
        let days = self.posted.amounts.len();
        if !(1..=MOST_POSTED_DAYS).contains(&days)
            || self.posted.preschedule.len() != days
            || self.free.len() != days
        {
            return Err(Refusal::BadDayCount);
        }
        if !postings_fit(self.posted.amounts, self.posted.preschedule) {
            return Err(Refusal::BadPosting);
        }
        if !(1..=MOST_PLACES).contains(&self.places.len()) {
            return Err(Refusal::BadPlaceCount);
        }
        if self.lines.len() > MOST_LINES || busy_days(self.posted.amounts) > self.lines.len() {
            return Err(Refusal::BadJournalSize);
        }
        Ok(())
    }

    // Opens a desk over what is lent; over matter that the check refuses, a desk of no days, places or lines.
    pub fn open(self) -> Desk<'a>
        ensures { OpenedOver self.entry result (refusal_over self.entry) }
    {
        if self.check().is_err() {
            return Desk {
                posted: Posted {
                    amounts: &[],
                    preschedule: &[],
                },
                free: &mut [],
                places: &mut [],
                lines: &mut [],
                used: 0,
                clock: 0,
                top: 0,
            };
        }
        let Memory {
            posted,
            free,
            places,
            lines,
        } = self;
        free.copy_from_slice(posted.amounts);
        places.fill(Record::vacant());
        let used = post_days(posted.amounts, lines);
        Desk {
            posted,
            free,
            places,
            lines,
            used,
            clock: 0,
            top: 0,
        }
    }
}

// Is every amount at most 20,000 MW, and no preschedule day later than its day?
fn postings_fit(amounts: &[u32], preschedule: &[u32]) -> bool
    requires { length preschedule.now ≡ length amounts.now }
    ensures { result ≡ postings_fit 0 amounts.now preschedule.now }
{
    amounts.iter().zip(preschedule).enumerate().all(|(day, (&mw, &preschedule_day))| {
        mw <= MOST_MW && preschedule_day as usize <= day
    })
}

// How many days are above 0 MW.
fn busy_days(amounts: &[u32]) -> usize
    ensures { result ≡ busy_days amounts.now }
{
    amounts.iter().filter(|mw| **mw > 0).count()
}

// Posts each day's MW to free, and answers how many lines that took.
fn post_days(amounts: &[u32], lines: &mut [Line]) -> usize
    requires days { length amounts.now ≤ MOST_POSTED_DAYS }
    requires room { busy_days amounts.now ≤ length lines.old }
    ensures count { result ≡ length (postings 0 amounts.now) }
    ensures lines { lines.new ≡ postings 0 amounts.now ++ drop result lines.old }
{
    let mut used = 0;
    for (day, &mw) in amounts.iter().enumerate() {
        if mw > 0 {
            lines[used] = Line {
                minute: 0,
                kind: LineKind::Posted,
                a: 0,
                b: 0,
                day: day as u32,
                mw,
            };
            used += 1;
        }
    }
    used
}
