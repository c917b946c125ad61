// A journal line, and the number of each kind of line.
ghost use Rattle.std.specs.Prelude.{◌≡◌, Bool};
ghost use Rattle.journal.specs.Kinds.{line_number, gives_way};

use std::fmt;

#[derive(Clone, Copy, Debug, PartialEq, Eq)]
pub enum LineKind {
    // posted to free
    Posted,
    // free to b
    Granted,
    // a to free, for b
    Superseded,
    // a to b
    Recalled,
    // set aside from a, for b
    SetAside,
    // aside of a to b
    Lost,
    // aside of a to a, against b
    Kept,
    // free to a, against b
    Extended,
    // a to b
    Ceded,
    // a to free
    Released,
    // flown from a
    Flown,
}

impl From<LineKind> for u32 {
    ghost from_gives = { λ kind number. number ≡ line_number kind };

    fn from(kind: LineKind) -> u32 {
        match kind {
            LineKind::Posted => 1,
            LineKind::Granted => 2,
            LineKind::Superseded => 3,
            LineKind::Recalled => 4,
            LineKind::SetAside => 5,
            LineKind::Lost => 6,
            LineKind::Kept => 7,
            LineKind::Extended => 8,
            LineKind::Ceded => 9,
            LineKind::Released => 10,
            LineKind::Flown => 11,
        }
    }
}

impl LineKind {
    // Does somebody give way by such a line: is a superseded, recalled from or set aside from?
    pub fn gives_way(self) -> bool
        ensures { result ≡ gives_way self }
    {
        matches!(
            self,
            LineKind::Superseded | LineKind::Recalled | LineKind::SetAside
        )
    }
}

// MW that moved on one day, by a call at a minute; a and b are AREFs, 0 where no record is named.
#[derive(Clone, Copy, Debug, PartialEq, Eq)]
pub struct Line {
    pub minute: u32,
    pub kind: LineKind,
    pub a: u32,
    pub b: u32,
    pub day: u32,
    pub mw: u32,
}

// A row of the journal's table.
impl fmt::Display for Line {
    fn fmt<W: fmt::Write>(&self, f: &mut fmt::Formatter<W>) -> fmt::Result {
        let Line {
            minute,
            kind,
            a,
            b,
            day,
            mw,
        } = *self;
        let number = u32::from(kind);
        write!(
            f,
            "{minute:>6}  {number:>4}  {a:>4}  {b:>4}  {day:>3}  {mw:>5}"
        )
    }
}
