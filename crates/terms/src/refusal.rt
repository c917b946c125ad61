// Why a call is stopped, with the number that says so.
ghost use Rattle.std.specs.Prelude.{◌≡◌};
ghost use Rattle.terms.specs.Refusals.{refusal_number};

use std::error::Error;
use std::fmt;

#[derive(Clone, Copy, Debug, PartialEq, Eq)]
pub enum Refusal {
    // no day posted, or more than 400
    BadDayCount,
    // an amount above 20,000 MW, or a preschedule day later than its day
    BadPosting,
    // no place for records, or more than 128
    BadPlaceCount,
    // more than 65,536 journal lines, or fewer than days above 0 MW
    BadJournalSize,
    // kind, product or preconfirmed mark is none of the numbers listed
    UnknownNumber,
    // a length that the product is not sold in
    BadLength,
    // 0 MW, or more than 20,000
    BadAmount,
    // more than 1,000,000 cents
    BadPrice,
    // an AREF of 0
    NoAref,
    // a minute past 1,000,000, or before the last accepted call
    BadMinute,
    // an item fell due before now and is not settled
    ItemDue,
    // an AREF not above all that were accepted
    OldAref,
    // a term that does not begin after now, or reaches past the posted days
    TermNotOffered,
    // service that the rule sheet does not carry
    NotCarried,
    // no place free for a record
    NoPlace,
    // free does not cover the request while a match is open
    MatchOpen,
    // nothing is free on any day of the term
    NothingFree,
    // no living record has the AREF
    NoRecord,
    // the record's state does not allow the call
    WrongState,
    // the extension reaches past the posted days, or above free and the challenger's holding
    NoExtension,
    // nothing fell due before now
    NothingDue,
    // too few journal lines are left
    JournalFull,
    // the day is not posted
    DayNotPosted,
    // the receipt reaches past the journal lent
    PastJournal,
    // the output lent is too small
    OutputTooSmall,
}

impl From<Refusal> for u32 {
    ghost from_gives = { λ refusal number. number ≡ refusal_number refusal };

    fn from(refusal: Refusal) -> u32 {
        match refusal {
            Refusal::BadDayCount => 1,
            Refusal::BadPosting => 2,
            Refusal::BadPlaceCount => 3,
            Refusal::BadJournalSize => 4,
            Refusal::UnknownNumber => 5,
            Refusal::BadLength => 6,
            Refusal::BadAmount => 7,
            Refusal::BadPrice => 8,
            Refusal::NoAref => 9,
            Refusal::BadMinute => 10,
            Refusal::ItemDue => 11,
            Refusal::OldAref => 12,
            Refusal::TermNotOffered => 13,
            Refusal::NotCarried => 14,
            Refusal::NoPlace => 15,
            Refusal::MatchOpen => 16,
            Refusal::NothingFree => 17,
            Refusal::NoRecord => 18,
            Refusal::WrongState => 19,
            Refusal::NoExtension => 20,
            Refusal::NothingDue => 21,
            Refusal::JournalFull => 22,
            Refusal::DayNotPosted => 23,
            Refusal::PastJournal => 24,
            Refusal::OutputTooSmall => 25,
        }
    }
}

impl fmt::Display for Refusal {
    fn fmt<W: fmt::Write>(&self, f: &mut fmt::Formatter<W>) -> fmt::Result {
        write!(f, "refused, number {}", u32::from(*self))
    }
}

impl Error for Refusal {}
