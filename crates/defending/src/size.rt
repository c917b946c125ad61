// How many journal lines a preemption writes, counted before anything is written.
ghost use Rattle.std.specs.Prelude.{◌≡◌, ℕ, ◌+◌, ◌-◌, ◌^◌, ◌<◌, ◌≤◌, min, length, if◌then◌else◌, slice_index};
ghost use Rattle.defending.specs.LinedUp.{lined, InPlaces};
ghost use Rattle.defending.specs.Shortage.{gives_whole, lines_written};
ghost use Rattle.defending.specs.Size.{preemption_size};
ghost use Rattle.desk.specs.Desks.{view};
ghost use Rattle.desk.specs.Records.{held_on};
ghost use Rattle.desk.specs.Soundness.{Sound};
ghost use Rattle.law.specs.Posting.{busy_days};
ghost use Rattle.shelf.specs.Contents.{contents};

use crate::shortage::{first_short, free_by_day, visit};
use desk::memory::Desk;
use desk::record::{MOST_DAYS, Record};
use shelf::Shelf;
use shelf::defender::Defender;
use terms::request::Request;

// How many amounts are above 0.
fn count_busy(amounts: &[u32]) -> usize
    ensures { result ≡ busy_days (λ k. slice_index amounts.now k) 0 (length amounts.now) }
{
    amounts.iter().filter(|mw| **mw > 0).count()
}

// What is free up to the MW, by day from the request's start on.
fn first_granted(desk: &Desk, request: &Request) -> [u32; MOST_DAYS]
    requires offered { request.now.start + request.now.length ≤ length desk.now.free.now }
    requires term { request.now.length ≤ 31 }
    ensures { (k : ℕ) → k < request.now.length → slice_index result k ≡ min (slice_index desk.now.free.now (request.now.start + k)) request.now.mw }
{
    let mut granted = free_by_day(desk, request);
    for mw in granted[..request.length as usize].iter_mut() {
        *mw = (*mw).min(request.mw);
    }
    granted
}

// What is granted up to the MW once all that a record holds is free too.
fn grant_more(one: &Record, request: &Request, granted: &mut [u32])
    requires reach { request.now.start + request.now.length < 2 ^ 32 }
    requires term { request.now.length ≤ length granted.old }
    ensures { (k : ℕ) → k < request.now.length → slice_index granted.new k ≡ min (slice_index granted.old k + held_on (request.now.start + k) one.now) request.now.mw }
{
    for (k, granted) in granted[..request.length as usize].iter_mut().enumerate() {
        let held = one.held_on(request.start + k as u32);
        *granted = granted.saturating_add(held).min(request.mw);
    }
}

// Visits a record and answers how many lines it writes: what it holds comes off what is short, and is granted too where
// it gives way whole.
fn count_visit(one: &Record, request: &Request, short: &mut [u32], granted: &mut [u32]) -> usize
    requires reach { request.now.start + request.now.length < 2 ^ 32 }
    requires own { one.now.standing.request.length ≤ 31 }
    requires short { request.now.length ≤ length short.old }
    requires granted { request.now.length ≤ length granted.old }
    ensures taken { (k : ℕ) → k < request.now.length → slice_index short.new k ≡ slice_index short.old k - held_on (request.now.start + k) one.now }
    ensures granted { (k : ℕ) → k < request.now.length → slice_index granted.new k ≡ (if gives_whole one.now request.now short.old then min (slice_index granted.old k + held_on (request.now.start + k) one.now) request.now.mw else slice_index granted.old k) }
    ensures lines { result ≡ lines_written one.now request.now short.old }
{
    let days = visit(one, request, short) as usize;
    if !one.standing.state.is_pending() {
        return days;
    }
    if days == 0 {
        return 0;
    }
    grant_more(one, request, granted);
    count_busy(&one.held[..one.standing.request.length as usize])
}

// How many lines a preemption writes: the defenders lined up are visited in turn, and then comes a line for each day on
// which something is granted.
pub fn preemption_size(desk: &Desk, shelf: &Shelf<Defender>, request: &Request) -> usize
    requires sound { Sound desk.now }
    requires few_places { length desk.now.places.now ≤ 128 }
    requires there { InPlaces (view desk.now).places (contents shelf.now) }
    requires few { length (contents shelf.now) ≤ length desk.now.places.now }
    requires offered { request.now.start + request.now.length ≤ length desk.now.posted.amounts.now }
    requires term { request.now.length ≤ 31 }
    ensures { result ≡ preemption_size request.now (view desk.now).lines (lined (view desk.now).places (contents shelf.now)) }
{
    let places = &*desk.places;
    let mut short = first_short(desk, request);
    let mut granted = first_granted(desk, request);
    let mut lines = 0;
    for next in shelf.entries().iter().rev() {
        lines += count_visit(&places[next.place], request, &mut short, &mut granted);
    }
    lines + count_busy(&granted[..request.length as usize])
}
