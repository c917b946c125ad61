// The first owner's book is opened: the posted lines, each day's sums, and the openings that are refused.
ghost use Rattle.std.specs.Prelude.{◌≤◌};

use book::Book;
use desk::memory::Memory;
use desk::record::Record;
use firm::Firm;
use journal::line::{Line, LineKind};
use std::io;
use terms::posted::Posted;

const BLANK: Line = Line {
    minute: 0,
    kind: LineKind::Posted,
    a: 0,
    b: 0,
    day: 0,
    mw: 0,
};

// The journal so far, line by line.
fn tell_journal(rt: &impl Print, lines: &[Line]) -> io::Result<()> {
    println!(rt; "  minute  kind     a     b  day     MW")?;
    for line in lines {
        println!(rt; "  {line}")?;
    }
    Ok(())
}

fn tell_day(rt: &impl Print, book: &Book<Firm>, day: u32) -> io::Result<()> {
    match book.sums(day) {
        Ok(sums) => println!(rt;
            "  {day:>3}  {:>5}  {:>5}  {:>5}  {:>5}",
            sums.free, sums.held, sums.aside, sums.flown
        ),
        Err(refusal) => println!(rt; "  {day:>3}  {refusal}"),
    }
}

// The four sums of days 0 to the last, and of the day after it.
fn tell_days(rt: &impl Print, book: &Book<Firm>, last: u32) -> io::Result<()> {
    println!(rt; "  day   free   held  aside  flown")?;
    for day in 0..=last {
        tell_day(rt, book, day)?;
    }
    Ok(())
}

// How much is lent for a book of days that are alike.
#[derive(Clone, Copy)]
struct Lent {
    days: usize,
    mw: u32,
    places: usize,
    lines: usize,
}

// All that the clerk has room for, with enough lines for its days.
const ROOM: Lent = Lent {
    days: 6,
    mw: 60,
    places: 4,
    lines: 12,
};

// Tells whether a book may be opened over what is lent.
fn try_opening(rt: &impl Print, what: &str, lent: Lent) -> io::Result<()>
    requires days { lent.days ≤ 6 }
    requires places { lent.places ≤ 4 }
    requires lines { lent.lines ≤ 12 }
{
    let amounts = [lent.mw; 6];
    let preschedule = [0; 6];
    let mut free = [0; 6];
    let mut records = [Record::vacant(); 4];
    let mut journal = [BLANK; 12];
    let memory = Memory {
        posted: Posted {
            amounts: &amounts[..lent.days],
            preschedule: &preschedule[..lent.days],
        },
        free: &mut free[..lent.days],
        places: &mut records[..lent.places],
        lines: &mut journal[..lent.lines],
    };
    match memory.check() {
        Ok(()) => println!(rt; "  {what}: may be opened"),
        Err(refusal) => println!(rt; "  {what}: {refusal}"),
    }
}

fn tell_refused(rt: &impl Print) -> io::Result<()> {
    println!(rt; "Openings that are refused:")?;
    try_opening(rt, "no days", Lent { days: 0, ..ROOM })?;
    try_opening(rt, "days of 20,001 MW", Lent { mw: 20_001, ..ROOM })?;
    try_opening(rt, "no places", Lent { places: 0, ..ROOM })?;
    try_opening(rt, "five lines for six days", Lent { lines: 5, ..ROOM })
}

// Opens the book and tells it.
pub(crate) fn tell(rt: &impl Print) -> io::Result<()> {
    let amounts = [0, 125, 150, 110, 60, 60];
    let preschedule = [0, 0, 1, 2, 3, 4];
    let mut free = [0; 6];
    let mut places = [Record::vacant(); 4];
    let mut lines = [BLANK; 12];
    let memory = Memory {
        posted: Posted {
            amounts: &amounts,
            preschedule: &preschedule,
        },
        free: &mut free,
        places: &mut places,
        lines: &mut lines,
    };
    let book = Book::open(Firm, memory);
    println!(rt; "The first owner's book, newly opened. Its journal:")?;
    tell_journal(rt, book.journal())?;
    println!(rt; "The sums of each day, and of a day that is not posted:")?;
    tell_days(rt, &book, 6)?;
    tell_refused(rt)
}
