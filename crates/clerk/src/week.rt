// The second owner's week, when the line is full: a confirmed reservation and a pending request hold it, and a longer
// request arrives.
use crate::telling::{Until, YesNo};
use findings::{Finding, find, turn_among};
use firm::Firm;
use std::io;
use terms::posted::Posted;
use terms::request::{Request, RequestForm, Standing};
use terms::words::{Kind, Product, State};

const NOW: u32 = 1_500;

const AMOUNTS: [u32; 14] = [150; 14];

const PRESCHEDULE: [u32; 14] = [0, 0, 1, 2, 3, 4, 5, 6, 7, 8, 9, 10, 11, 12];

// A form for daily point-to-point service from day 7 on.
fn daily_form(aref: u32, length: u32, mw: u32, preconfirmed: bool) -> RequestForm {
    RequestForm {
        aref,
        kind: u32::from(Kind::PointToPoint),
        product: u32::from(Product::Daily),
        start: 7,
        length,
        mw,
        preconfirmed: u32::from(preconfirmed),
        price: 5_000,
    }
}

// Tells of a form as it comes, and how its check goes.
fn tell_form(rt: &impl Print, form: RequestForm) -> io::Result<()> {
    let RequestForm {
        aref,
        start,
        length,
        mw,
        preconfirmed,
        ..
    } = form;
    let mark = YesNo(preconfirmed == 1);
    print!(rt; "  AREF {aref}: {mw} MW for {length} days from day {start}, preconfirmed {mark}: ")?;
    match form.check() {
        Ok(_) => println!(rt; "checked"),
        Err(refusal) => println!(rt; "{refusal}"),
    }
}

fn tell_record(rt: &impl Print, one: &Standing, turn: usize, finding: &Finding) -> io::Result<()> {
    let aref = one.request.aref;
    let state = one.state;
    let outranked = YesNo(finding.outranked);
    let open = Until(finding.open_until);
    let may_match = YesNo(finding.match_until.is_some());
    let matched = Until(finding.match_until);
    println!(rt;
        "  {turn:>4}  {aref:>4}  {state:<10}  {outranked:<9}  {open}  {may_match:<9}  {matched}"
    )
}

// Says in words how the first to give does so.
fn tell_first(rt: &impl Print, first: &Standing) -> io::Result<()> {
    let aref = first.request.aref;
    let state = first.state;
    let how = if state.is_pending() {
        "whole and without a match"
    } else {
        "what is short"
    };
    println!(rt)?;
    println!(rt; "AREF {aref}, {state}, gives first, {how}.")
}

// Tells of the records, which come in the order in which they give, against a challenger.
fn tell_turns(rt: &impl Print, challenger: &Request, in_turn: &[Standing]) -> io::Result<()> {
    let posted = Posted {
        amounts: &AMOUNTS,
        preschedule: &PRESCHEDULE,
    };
    let in_time = Until(Firm.in_time_until(challenger, &posted));
    let aref = challenger.aref;
    let product = challenger.product;
    println!(rt)?;
    println!(rt;
        "AREF {aref} challenges at minute {NOW}; with {product} service it is in time until {in_time}."
    )?;
    println!(rt; "Who gives way to it, in turn:")?;
    println!(rt)?;
    println!(rt; "  turn  AREF  state       outranked  open until          may match  until")?;
    for one in in_turn {
        let turn = turn_among(&Firm, one, in_turn);
        tell_record(rt, one, turn, &find(challenger, one, NOW, &posted))?;
    }
    if let Some(first) = in_turn.first() {
        tell_first(rt, first)?;
    }
    Ok(())
}

// Tells the week from beginning to end.
pub(crate) fn tell(rt: &impl Print) -> anyhow::Result<()> {
    let holder = daily_form(101, 3, 100, false);
    let asker = daily_form(102, 3, 50, false);
    let challenger = daily_form(103, 5, 50, true);
    let too_long = daily_form(104, 32, 50, true);
    println!(rt;
        "The second owner's week: a line of 150 MW with firm service, full on days 7 to 9."
    )?;
    println!(rt; "Requests as they come:")?;
    for form in [holder, asker, challenger, too_long] {
        tell_form(rt, form)?;
    }
    let confirmed = Standing {
        request: holder.check()?.into_request(),
        state: State::Confirmed,
        queued: 600,
    };
    let pending = Standing {
        request: asker.check()?.into_request(),
        state: State::Accepted,
        queued: 1_440,
    };
    let records = [confirmed, pending];
    let mut in_turn = records;
    in_turn.sort_unstable_by_key(|one| turn_among(&Firm, one, &records));
    tell_turns(rt, &challenger.check()?.into_request(), &in_turn)?;
    Ok(())
}
