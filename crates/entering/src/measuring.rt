// What is free for a request, day by day.
ghost use Rattle.std.specs.Prelude.{◌≡◌, ◌+◌, ◌≤◌, length, take, drop, nat_eq, nat_le};
ghost use Rattle.std.specs.List.{list_all};
ghost use Rattle.desk.specs.Desks.{view};
ghost use Rattle.law.specs.Posting.{each_day, free_on};
ghost use Rattle.law.specs.Preemption.{wanted};
ghost use Rattle.moving.specs.Midway.{Midway};

use desk::memory::Desk;
use moving::each_reaches;
use terms::request::Request;

// What is free, day by day of a request's term.
fn free_in_term<'d>(desk: &'d Desk, request: &Request) -> &'d [u32]
    requires { request.now.start + request.now.length ≤ length desk.now.free.now }
    ensures { result.now ≡ take request.now.length (drop request.now.start desk.now.free.now) }
{
    let free: &[u32] = desk.free;
    let start = request.start as usize;
    &free[start..start + request.length as usize]
}

fn all_zero(amounts: &[u32]) -> bool
    ensures { result ≡ list_all (λ mw. nat_eq mw 0) amounts.now }
{
    amounts.iter().all(|mw| *mw == 0)
}

// Does free cover the MW on each day?
pub fn free_covers(desk: &Desk, request: &Request) -> bool
    requires midway { Midway desk.now }
    requires inside { request.now.start + request.now.length ≤ length (view desk.now).days.amounts }
    ensures { result ≡ each_day (λ day. nat_le (wanted request.now day) (free_on (view desk.now).lines day)) request.now.start request.now.length }
{
    each_reaches(free_in_term(desk, request), request.mw)
}

// Is nothing free on any day?
pub fn nothing_free(desk: &Desk, request: &Request) -> bool
    requires midway { Midway desk.now }
    requires inside { request.now.start + request.now.length ≤ length (view desk.now).days.amounts }
    ensures { result ≡ each_day (λ day. nat_eq (free_on (view desk.now).lines day) 0) request.now.start request.now.length }
{
    all_zero(free_in_term(desk, request))
}
