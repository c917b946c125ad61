// A receipt for the journal lines of one call, owed until it is laid aside or its notices are written.
ghost use Rattle.std.specs.Prelude.{◌≡◌, true};
ghost use Rattle.receipts.specs.Receipts.{owed, settled, told_by, answered, filled, kept_or_settled};

use crate::notice;
use journal::line::Line;
use terms::refusal::Refusal;

// Journal lines by number: the first, counted from 0, and how many. That it is spent is a mark, and no state as a type,
// because a receipt may be asked for its notices again and its drop demands the mark.
pub struct Receipt {
    first: u32,
    count: u32,
    spent: bool,
}

// A receipt that is not spent cannot be let go.
impl Drop for Receipt {
    fn drop(self)
        requires { self.spent ≡ true }
    {
        let Receipt {
            first: _,
            count: _,
            spent: _,
        } = self;
    }
}

impl Receipt {
    pub fn issue(first: u32, count: u32) -> Receipt
        ensures { result ≡ owed first count }
    {
        Receipt {
            first,
            count,
            spent: false,
        }
    }

    pub fn first(&self) -> u32
        ensures { result ≡ self.now.first }
    {
        self.first
    }

    pub fn count(&self) -> u32
        ensures { result ≡ self.now.count }
    {
        self.count
    }

    // Spends the receipt without a notice.
    pub fn lay_aside(&mut self)
        ensures { self.new ≡ settled self.old }
    {
        self.spent = true;
    }

    // Writes the notices of the receipt's lines and spends it; a refusal leaves output and receipt as they were.
    pub fn write_notices(&mut self, lines: &[Line], out: &mut [u8]) -> Result<usize, Refusal>
        ensures answer { result ≡ answered self.old lines.now out.old }
        ensures output { out.new ≡ filled result (told_by self.old lines.now) out.old }
        ensures receipt { self.new ≡ kept_or_settled result self.old }
    {
        let start = self.first as usize;
        let end = start + self.count as usize;
        let own = lines.get(start..end).ok_or(Refusal::PastJournal)?;
        let length = notice::notices_length(own);
        if length > out.len() {
            return Err(Refusal::OutputTooSmall);
        }
        notice::write_notices(own, out);
        self.lay_aside();
        Ok(length)
    }
}
