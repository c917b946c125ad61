// What a request is short of on each day of its term, and what a record takes off that.
ghost use Rattle.std.specs.Prelude.{◌≡◌, ℕ, ◌+◌, ◌-◌, ◌^◌, ◌<◌, ◌≤◌, length, slice_index};
ghost use Rattle.defending.specs.Shortage.{gives_here, HoldsInTerm};
ghost use Rattle.desk.specs.Records.{held_on};
ghost use Rattle.law.specs.Posting.{busy_days};

use desk::memory::Desk;
use desk::record::{MOST_DAYS, Record};
use terms::request::Request;

// What is free, by day from the request's start on; 0 past its term.
pub(crate) fn free_by_day(desk: &Desk, request: &Request) -> [u32; MOST_DAYS]
    requires offered { request.now.start + request.now.length ≤ length desk.now.free.now }
    requires term { request.now.length ≤ 31 }
    ensures { (k : ℕ) → k < request.now.length → slice_index result k ≡ slice_index desk.now.free.now (request.now.start + k) }
{
    let days = request.length as usize;
    let mut free = [0; MOST_DAYS];
    free[..days].copy_from_slice(&desk.free[request.start as usize..][..days]);
    free
}

// What the MW are above what is free, by day from the request's start on; 0 past its term.
pub fn first_short(desk: &Desk, request: &Request) -> [u32; MOST_DAYS]
    requires offered { request.now.start + request.now.length ≤ length desk.now.free.now }
    requires term { request.now.length ≤ 31 }
    ensures { (k : ℕ) → k < request.now.length → slice_index result k ≡ request.now.mw - slice_index desk.now.free.now (request.now.start + k) }
{
    let mut short = free_by_day(desk, request);
    for mw in short[..request.length as usize].iter_mut() {
        *mw = request.mw.saturating_sub(*mw);
    }
    short
}

// Takes what a record holds off what is short on each day of the request's term; answers on how many days it took
// something off.
pub fn visit(one: &Record, request: &Request, short: &mut [u32]) -> u32
    requires reach { request.now.start + request.now.length < 2 ^ 32 }
    requires term { request.now.length ≤ length short.old }
    ensures taken { (k : ℕ) → k < request.now.length → slice_index short.new k ≡ slice_index short.old k - held_on (request.now.start + k) one.now }
    ensures days { result ≡ busy_days (gives_here one.now request.now short.old) request.now.start request.now.length }
    ensures own_days { HoldsInTerm one.now → result ≡ busy_days (gives_here one.now request.now short.old) one.now.standing.request.start one.now.standing.request.length }
{
    let mut days = 0;
    for (k, short) in short[..request.length as usize].iter_mut().enumerate() {
        let held = one.held_on(request.start + k as u32);
        if held.min(*short) > 0 {
            days += 1;
        }
        *short = short.saturating_sub(held);
    }
    days
}
