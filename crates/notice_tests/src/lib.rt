#![tactic(auto)]

// Notices of one journal, written into outputs of every size, by receipts that fit the journal and by some that do not.
#[cfg(test)]
mod tests {
    use journal::line::{Line, LineKind};
    use receipts::receipt::Receipt;
    use terms::refusal::Refusal;

    const MOST_AREF: u32 = u32::MAX;

    // Records 1 and 10 give way on several days, and record 1 to two challengers; record 77 never does.
    const JOURNAL: [Line; 12] = [
        Line {
            minute: 0,
            kind: LineKind::Posted,
            a: 0,
            b: 0,
            day: 3,
            mw: 50,
        },
        Line {
            minute: 5,
            kind: LineKind::Granted,
            a: 0,
            b: 10,
            day: 3,
            mw: 9,
        },
        Line {
            minute: 9,
            kind: LineKind::Superseded,
            a: 1,
            b: 10,
            day: 3,
            mw: 4,
        },
        Line {
            minute: 9,
            kind: LineKind::Superseded,
            a: 1,
            b: 10,
            day: 4,
            mw: 4,
        },
        Line {
            minute: 9,
            kind: LineKind::Recalled,
            a: MOST_AREF,
            b: 10,
            day: 3,
            mw: 2,
        },
        Line {
            minute: 9,
            kind: LineKind::Lost,
            a: 77,
            b: 10,
            day: 3,
            mw: 2,
        },
        Line {
            minute: 9,
            kind: LineKind::SetAside,
            a: 10,
            b: MOST_AREF,
            day: 3,
            mw: 1,
        },
        Line {
            minute: 9,
            kind: LineKind::Recalled,
            a: 1,
            b: MOST_AREF,
            day: 5,
            mw: 4,
        },
        Line {
            minute: 9,
            kind: LineKind::SetAside,
            a: 10,
            b: MOST_AREF,
            day: 4,
            mw: 1,
        },
        Line {
            minute: 9,
            kind: LineKind::Granted,
            a: 10,
            b: 1,
            day: 5,
            mw: 4,
        },
        Line {
            minute: 9,
            kind: LineKind::Kept,
            a: 77,
            b: 10,
            day: 5,
            mw: 4,
        },
        Line {
            minute: 9,
            kind: LineKind::Flown,
            a: 77,
            b: 0,
            day: 5,
            mw: 4,
        },
    ];

    // What lines 1 to 10 tell.
    const TOLD: &[u8] = b"1 3 10\n4294967295 4 10\n10 5 4294967295\n";

    const TOLD_LENGTH: usize = 39;

    // What an output holds before notices are written.
    const OLD: u8 = 0xEE;

    // The bytes written; a receipt that is refused is laid aside.
    fn write_or_lay_aside(mut receipt: Receipt, out: &mut [u8]) -> Result<usize, Refusal> {
        let answer = receipt.write_notices(&JOURNAL, out);
        if answer.is_err() {
            receipt.lay_aside();
        }
        answer
    }

    // Does an output start with the bytes, and is it as it was behind them?
    fn holds(out: &[u8], bytes: &[u8]) -> bool {
        out.strip_prefix(bytes)
            .is_some_and(|rest| rest.iter().all(|byte| *byte == OLD))
    }

    #[test]
    fn outputs_of_every_size(rt: HostRuntime) {
        assert_eq!(rt; TOLD.len(), TOLD_LENGTH);
        for size in 0..TOLD_LENGTH + 4 {
            // only the front of the room is lent, so that a byte too many would show behind it
            let mut room = [OLD; 64];
            let answer = write_or_lay_aside(Receipt::issue(1, 10), &mut room[..size]);
            let (expected, told) = if size < TOLD_LENGTH {
                (Err(Refusal::OutputTooSmall), b"".as_slice())
            } else {
                (Ok(TOLD_LENGTH), TOLD)
            };
            assert_eq!(rt; answer, expected, "at {size} bytes");
            assert!(rt; holds(&room, told), "at {size} bytes");
        }
    }

    #[test]
    fn a_record_is_told_by_its_first_line_among_the_receipts(rt: HostRuntime) {
        // first line and count of a receipt, with the bytes it tells
        let table: [(u32, u32, &[u8]); 8] = [
            (0, 12, TOLD),
            (0, 2, b""),
            (2, 1, b"1 3 10\n"),
            (3, 1, b"1 3 10\n"),
            (4, 3, b"4294967295 4 10\n10 5 4294967295\n"),
            (5, 3, b"10 5 4294967295\n1 4 4294967295\n"),
            (7, 5, b"1 4 4294967295\n10 5 4294967295\n"),
            (9, 3, b""),
        ];
        for (first, count, told) in table {
            let mut room = [OLD; 64];
            let answer = write_or_lay_aside(Receipt::issue(first, count), &mut room);
            assert_eq!(rt; answer, Ok(told.len()), "from line {first}");
            assert!(rt; holds(&room, told), "from line {first}");
        }
    }

    #[test]
    fn receipts_at_the_end_of_the_journal_and_past_it(rt: HostRuntime) {
        let refused = Err(Refusal::PastJournal);
        // first line and count of a receipt, with the answer to it
        let table = [
            (12, 0, Ok(0)),
            (13, 0, refused),
            (12, 1, refused),
            (11, 1, Ok(0)),
            (11, 2, refused),
            (0, 13, refused),
            (MOST_AREF, 0, refused),
            (0, MOST_AREF, refused),
            (MOST_AREF, MOST_AREF, refused),
        ];
        for (first, count, expected) in table {
            let mut room = [OLD; 64];
            let answer = write_or_lay_aside(Receipt::issue(first, count), &mut room);
            assert_eq!(rt; answer, expected, "from line {first}");
            assert!(rt; holds(&room, b""), "from line {first}");
        }
    }

    #[test]
    fn a_refused_receipt_is_written_later(rt: HostRuntime) {
        let mut small = [OLD; 3];
        let mut room = [OLD; 64];
        let mut receipt = Receipt::issue(1, 10);
        let first = receipt.write_notices(&JOURNAL, &mut small);
        let second = write_or_lay_aside(receipt, &mut room);
        assert_eq!(rt; first, Err(Refusal::OutputTooSmall));
        assert!(rt; holds(&small, b""));
        assert_eq!(rt; second, Ok(TOLD_LENGTH));
        assert!(rt; holds(&room, TOLD));
    }

    #[test]
    fn a_refused_receipt_keeps_its_numbers(rt: HostRuntime) {
        let mut receipt = Receipt::issue(12, 1);
        let answer = receipt.write_notices(&JOURNAL, &mut []);
        let (first, count) = (receipt.first(), receipt.count());
        receipt.lay_aside();
        assert_eq!(rt; answer, Err(Refusal::PastJournal));
        assert_eq!(rt; (first, count), (12, 1));
    }

    #[test]
    fn refusals_go_out_by_number(rt: HostRuntime) {
        assert_eq!(rt; u32::from(Refusal::PastJournal), 24);
        assert_eq!(rt; u32::from(Refusal::OutputTooSmall), 25);
    }
}
