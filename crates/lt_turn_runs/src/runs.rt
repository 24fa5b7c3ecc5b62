ghost use Rattle.std.specs.Prelude.{◌≡◌, ℕ, ◌+◌, ◌<◌, ◌≤◌, ◌*◌, ◌^◌, ◌⊎◌, length, [], ◌∷◌, ◌++◌, MatchBool, IfSome, true, false};
ghost use Rattle.std.specs.List.{sum};
ghost use Rattle.lt_turn.specs.Lists.{entries, of};
ghost use Rattle.lt_turn.specs.Seats.{IsOf, IsIdle, Holds, view, mine, ended, parts, seen};
ghost use Rattle.lt_turn_runs.specs.Counts.{Counts};
ghost use Rattle.lt_turn_runs.specs.Seats.{IsReady, IsLater};

use crate::counter::Counter;
use lt_stands::Named;
use lt_turn::{Seat, Turn};
use std::alloc::Global;
use std::marker::Brand;
use std::sync::Wait;
use std::sync::ledger::{Blank, Ledger};
use std::thread;
use std::thread::Threads;

// Leaves with one amount more.
fn put<B: Ledger, E: Named<u32>>(
    turn: &Turn<Counter, B>,
    seat: &mut Seat<Counter, B>,
    counter: Counter,
    amount: u32,
)
    requires picked { E.list ≡ amount ∷ [] }
    requires turn { IsOf seat.old turn.now }
    requires holds { Holds seat.old }
    requires counts { Counts counter.sum counter.adds (entries (seen seat.old) ++ amount ∷ []) }
    ensures ready { IsReady seat.new turn.now }
    ensures later { IsLater seat.old seat.new }
    ensures mine { mine seat.new ≡ mine seat.old ++ amount ∷ [] }
{
    turn.leave::<E>(seat, counter);
}

// Leaves with the counter of before.
fn put_back<B: Ledger>(turn: &Turn<Counter, B>, seat: &mut Seat<Counter, B>, counter: Counter)
    requires turn { IsOf seat.old turn.now }
    requires holds { Holds seat.old }
    requires counts { Counts counter.sum counter.adds (entries (seen seat.old)) }
    ensures ready { IsReady seat.new turn.now }
    ensures later { IsLater seat.old seat.new }
    ensures mine { mine seat.new ≡ mine seat.old }
    ensures seen { seen seat.new ≡ seen seat.old }
{
    turn.leave::<Brand>(seat, counter);
}

/// Adds an amount in one turn, and says whether it did. It does not where the sum would not fit, or the number of adds.
pub fn add<B: Ledger, R: Wait>(
    rt: &R,
    turn: &Turn<Counter, B>,
    seat: &mut Seat<Counter, B>,
    amount: u32,
) -> bool
    requires ready { IsReady seat.old turn.now }
    ensures ready { IsReady seat.new turn.now }
    ensures later { IsLater seat.old seat.new }
    ensures mine { MatchBool result (mine seat.new ≡ mine seat.old ++ amount ∷ []) (mine seat.new ≡ mine seat.old) }
    ensures full { result ≡ false → (2 ^ 64 ≤ sum (entries (seen seat.new)) + amount) ⊎ (2 ^ 64 ≤ length (entries (seen seat.new)) + 1) }
{
    match turn.enter(rt, seat).with(amount) {
        Ok(counter) => {
            put::<B, Brand>(turn, seat, counter, amount);
            true
        }
        Err(counter) => {
            put_back(turn, seat, counter);
            false
        }
    }
}

/// Takes one turn, adds nothing, and answers the sum.
pub fn look<B: Ledger, R: Wait>(rt: &R, turn: &Turn<Counter, B>, seat: &mut Seat<Counter, B>) -> u64
    requires ready { IsReady seat.old turn.now }
    ensures ready { IsReady seat.new turn.now }
    ensures later { IsLater seat.old seat.new }
    ensures mine { mine seat.new ≡ mine seat.old }
    ensures sum { result ≡ sum (entries (seen seat.new)) }
{
    let counter = turn.enter(rt, seat);
    let sum = counter.sum;
    put_back(turn, seat, counter);
    sum
}

/// Adds an amount as often, and answers what was added by this.
pub fn add_many<B: Ledger, R: Wait>(
    rt: &R,
    turn: &Turn<Counter, B>,
    seat: &mut Seat<Counter, B>,
    amount: u32,
    times: u32,
) -> u64
    requires ready { IsReady seat.old turn.now }
    ensures ready { IsReady seat.new turn.now }
    ensures later { IsLater seat.old seat.new }
    ensures sum { sum (mine seat.new) ≡ sum (mine seat.old) + result }
{
    let mut gave: u64 = 0;
    for _round in 0..times {
        if add(rt, turn, seat, amount) {
            gave += u64::from(amount);
        }
    }
    gave
}

/// What a counter ended with, and what each of two threads added to it.
#[derive(Drop)]
pub struct Ends {
    pub total: u64,
    pub first: u64,
    pub second: u64,
}

// Two threads with a seat each.
fn side_by_side<B: Ledger + Send + Sync, R: Threads + Wait + Sync>(
    rt: &R,
    turn: &Turn<Counter, B>,
    mut one: Seat<Counter, B>,
    mut two: Seat<Counter, B>,
    amounts: (u32, u32),
    times: u32,
) -> ((Seat<Counter, B>, u64), (Seat<Counter, B>, u64))
    requires one { IsReady one turn.now }
    requires two { IsReady two turn.now }
    ensures one { IsReady result.0.0 turn.now × IsLater one result.0.0 × (sum (mine result.0.0) ≡ sum (mine one) + result.0.1) }
    ensures two { IsReady result.1.0 turn.now × IsLater two result.1.0 × (sum (mine result.1.0) ≡ sum (mine two) + result.1.1) }
{
    thread::join(
        rt,
        move || -> (Seat<Counter, B>, u64)
            requires { IsReady one turn.now }
            ensures { IsReady result.0 turn.entry.now × IsLater one result.0 × (sum (mine result.0) ≡ sum (mine one) + result.1) }
        {
            let gave = add_many(rt, turn, &mut one, amounts.0, times);
            (one, gave)
        },
        move || -> (Seat<Counter, B>, u64)
            requires { IsReady two turn.now }
            ensures { IsReady result.0 turn.entry.now × IsLater two result.0 × (sum (mine result.0) ≡ sum (mine two) + result.1) }
        {
            let gave = add_many(rt, turn, &mut two, amounts.1, times);
            (two, gave)
        },
    )
}

fn in_turn<B: Ledger + Send + Sync, R: Threads + Wait + Sync>(
    rt: &R,
    turn: Turn<Counter, B>,
    mut seat: Seat<Counter, B>,
    amounts: (u32, u32),
    times: u32,
) -> Ends
    requires ready { IsReady seat turn }
    requires whole { (parts seat ≡ B.parts) × (2 ≤ B.parts) }
    requires fresh { (of 0 (seen seat) ≡ []) × (mine seat ≡ []) × (ended seat ≡ []) }
    ensures { result.total ≡ result.first + result.second }
{
    let other = turn.split(&mut seat);
    let ((mut seat, first), (other, second)) = side_by_side(rt, &turn, seat, other, amounts, times);
    turn.join(&mut seat, other);
    let counter = turn.close(rt, seat);
    Ends {
        total: counter.sum,
        first,
        second,
    }
}

fn opened<B: Ledger + Send + Sync, E: Named<u32>, R: Threads + Wait + Sync>(
    rt: &R,
    alloc: Global,
    blank: Blank,
    amounts: (u32, u32),
    times: u32,
) -> Option<Ends>
    requires picked { E.list ≡ [] }
    requires ledger { (blank.name ≡ B.name) × (blank.parts ≡ B.parts) × (B.parts ≡ 2) }
    ensures { IfSome result (λ r. r.total ≡ r.first + r.second) }
{
    match Turn::<Counter, B>::new::<E>(alloc, blank, Counter::new()) {
        Ok((turn, seat)) => Some(in_turn(rt, turn, seat, amounts, times)),
        Err(_) => None,
    }
}

/// Two threads add to one counter by turns, each its amount as often. What the counter ends with is what both added. None for
/// want of memory.
pub fn total_of_two<R: Threads + Wait + Sync>(
    rt: &R,
    alloc: Global,
    amounts: (u32, u32),
    times: u32,
) -> Option<Ends>
    ensures { IfSome result (λ r. r.total ≡ r.first + r.second) }
{
    opened::<Brand, Brand, R>(rt, alloc, Blank::new(2), amounts, times)
}
