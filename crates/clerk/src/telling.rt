// How the clerk says things: last minutes with their day and time of day, and answers as words.
use std::fmt;

// The last minute of a span, with its day and time of day; a dash where there is none.
#[derive(Clone, Copy)]
pub struct Until(pub Option<u64>);

impl fmt::Display for Until {
    fn fmt<W: fmt::Write>(&self, f: &mut fmt::Formatter<W>) -> fmt::Result {
        match self.0 {
            Some(last) => {
                let day = last / 1_440;
                let hour = last % 1_440 / 60;
                let minute = last % 60;
                write!(f, "{last} (day {day} {hour:02}:{minute:02})")
            }
            None => write!(f, "-"),
        }
    }
}

// A yes or a no.
#[derive(Clone, Copy)]
pub struct YesNo(pub bool);

impl fmt::Display for YesNo {
    fn fmt<W: fmt::Write>(&self, f: &mut fmt::Formatter<W>) -> fmt::Result {
        f.pad(if self.0 { "yes" } else { "no" })
    }
}
