#![tactic(auto)]

// Opening at every limit: days, amounts, preschedule days, places and journal lines, over memory that held other things.
#[cfg(test)]
mod tests {
    use book::Book;
    use desk::memory::Memory;
    use desk::record::Record;
    use desk::sums::Sums;
    use firm::Firm;
    use journal::line::{Line, LineKind};
    use std::process::Abort;
    use terms::posted::Posted;

    const OLD: Line = Line {
        minute: 9,
        kind: LineKind::Flown,
        a: 9,
        b: 9,
        day: 9,
        mw: 9,
    };

    // How many days, MW on each, how much later than its day the last preschedule day is, free amounts, places and
    // journal lines lent; then the number of the refusal, if it is refused.
    type Row = (usize, u32, u32, usize, usize, usize, Option<u32>);

    const TABLE: [Row; 26] = [
        // days
        (0, 0, 0, 0, 1, 0, Some(1)),
        (1, 0, 0, 1, 1, 0, None),
        (2, 0, 0, 2, 1, 0, None),
        (400, 0, 0, 400, 1, 0, None),
        (401, 0, 0, 401, 1, 0, Some(1)),
        // a free amount for each day
        (2, 0, 0, 1, 1, 0, Some(1)),
        (2, 0, 0, 3, 1, 0, Some(1)),
        // amounts
        (2, 1, 0, 2, 1, 2, None),
        (2, 20_000, 0, 2, 1, 2, None),
        (2, 20_001, 0, 2, 1, 2, Some(2)),
        (2, u32::MAX, 0, 2, 1, 2, Some(2)),
        // preschedule days
        (1, 1, 1, 1, 1, 1, Some(2)),
        (2, 1, 1, 2, 1, 2, Some(2)),
        (400, 1, 1, 400, 1, 400, Some(2)),
        // places
        (2, 1, 0, 2, 0, 2, Some(3)),
        (2, 1, 0, 2, 128, 2, None),
        (2, 1, 0, 2, 129, 2, Some(3)),
        // journal lines
        (2, 1, 0, 2, 1, 1, Some(4)),
        (400, 1, 0, 400, 1, 399, Some(4)),
        (400, 1, 0, 400, 1, 400, None),
        (2, 1, 0, 2, 1, 65_536, None),
        (2, 1, 0, 2, 1, 65_537, Some(4)),
        // the order of refusals, one fault fewer at each row
        (401, 20_001, 1, 401, 0, 65_537, Some(1)),
        (400, 20_001, 1, 400, 0, 65_537, Some(2)),
        (400, 20_000, 0, 400, 0, 65_537, Some(3)),
        (400, 20_000, 0, 400, 1, 65_537, Some(4)),
    ];

    // A book opened over the memory has lines for the days posted alone: each of them has its MW free and nothing else,
    // and no other day has sums.
    fn check_book(rt: &impl Abort, memory: Memory, posted: usize, mw: u32) {
        let book = Book::open(Firm, memory);
        assert_eq!(rt; book.journal().len(), if mw > 0 { posted } else { 0 });
        for day in 0..402 {
            let expected = if (day as usize) < posted {
                Ok(Sums {
                    free: mw,
                    held: 0,
                    aside: 0,
                    flown: 0,
                })
            } else {
                Err(23)
            };
            assert_eq!(rt; book.sums(day).map_err(u32::from), expected, "on day {day}");
        }
    }

    fn open_row(rt: &impl Abort, row: &Row, places: &mut [Record], lines: &mut [Line]) {
        let (days, mw, late, free_days, place_count, line_count, expected) = *row;
        assert!(rt; days <= 401 && free_days <= 401 && late <= 1);
        assert!(rt; place_count <= places.len() && line_count <= lines.len());
        let amounts = [mw; 401];
        let mut preschedule = [0; 401];
        let mut free = [77; 401];
        if let Some(last) = days.checked_sub(1) {
            preschedule[last] = last as u32 + late;
        }
        let memory = Memory {
            posted: Posted {
                amounts: &amounts[..days],
                preschedule: &preschedule[..days],
            },
            free: &mut free[..free_days],
            places: &mut places[..place_count],
            lines: &mut lines[..line_count],
        };
        let refused = memory.check().err().map(u32::from);
        assert_eq!(rt; refused, expected, "at {row:?}");
        let (posted, first) = if refused.is_none() {
            (days, mw)
        } else {
            (0, 77)
        };
        check_book(rt, memory, posted, mw);
        assert_eq!(rt; free[0], first);
    }

    #[test]
    fn every_limit(rt: HostRuntime) {
        let mut places = [Record::vacant(); 129];
        let mut lines = [OLD; 65_537];
        for row in &TABLE {
            open_row(&rt, row, &mut places, &mut lines);
        }
    }
}
