ghost use Rattle.std.specs.Prelude.{◌≡◌, ◌+◌, ◌≤◌, [], IfOk};
ghost use Rattle.lt_turn.specs.Seats.{parts};
ghost use Rattle.lt_turn_runs.specs.Seats.{IsReady};

use crate::counter::Counter;
use crate::runs::{add, add_many, look};
use lt_stands::Named;
use lt_turn::{Seat, Turn};
use std::alloc::{AllocError, Global};
use std::marker::Brand;
use std::sync::Wait;
use std::sync::ledger::{Blank, Ledger};
use std::thread;
use std::thread::Threads;

/// How a turn of three seats ends.
#[derive(Drop)]
pub enum Ending {
    /// Each adds. The first seat is joined into the third, and that into the second, which closes.
    InAnotherOrder,
    /// Each adds. The first closes, while the others stand idle.
    OthersLeft,
    /// The first adds, and two that add nothing look in between.
    NothingAdded,
    /// Two threads: one adds, the other's closure ends after one add and drops its seat. The first closes.
    EndedEarly,
    /// The first enters, and drops its seat and the turn while it has the value.
    InTurn,
}

fn in_another_order<B: Ledger, R: Wait>(
    rt: &R,
    turn: Turn<Counter, B>,
    mut first: Seat<Counter, B>,
) -> u64
    requires ready { IsReady first turn }
    requires parts { 3 ≤ parts first }
{
    let mut second = turn.split(&mut first);
    let mut third = turn.split(&mut first);
    add(rt, &turn, &mut third, 1);
    add(rt, &turn, &mut second, 2);
    add(rt, &turn, &mut first, 4);
    turn.join(&mut third, first);
    turn.join(&mut second, third);
    turn.close(rt, second).sum
}

fn others_left<B: Ledger, R: Wait>(
    rt: &R,
    turn: Turn<Counter, B>,
    mut first: Seat<Counter, B>,
) -> u64
    requires ready { IsReady first turn }
    requires parts { 3 ≤ parts first }
{
    let mut second = turn.split(&mut first);
    let mut third = turn.split(&mut first);
    add(rt, &turn, &mut first, 1);
    add(rt, &turn, &mut third, 2);
    add(rt, &turn, &mut second, 4);
    turn.close(rt, first).sum
}

fn nothing_added<B: Ledger, R: Wait>(
    rt: &R,
    turn: Turn<Counter, B>,
    mut first: Seat<Counter, B>,
) -> u64
    requires ready { IsReady first turn }
    requires parts { 3 ≤ parts first }
{
    let mut second = turn.split(&mut first);
    let mut third = turn.split(&mut first);
    look(rt, &turn, &mut second);
    add(rt, &turn, &mut first, 5);
    look(rt, &turn, &mut third);
    turn.join(&mut first, second);
    turn.join(&mut first, third);
    turn.close(rt, first).adds
}

fn ended_early<B: Ledger + Send + Sync, R: Threads + Wait + Sync>(
    rt: &R,
    turn: Turn<Counter, B>,
    mut first: Seat<Counter, B>,
) -> u64
    requires ready { IsReady first turn }
    requires parts { 3 ≤ parts first }
{
    let second = turn.split(&mut first);
    let first = beside_one_that_ends(rt, &turn, first, second);
    turn.close(rt, first).sum
}

// The second seat is gone when its closure ends.
fn beside_one_that_ends<B: Ledger + Send + Sync, R: Threads + Wait + Sync>(
    rt: &R,
    turn: &Turn<Counter, B>,
    mut first: Seat<Counter, B>,
    mut second: Seat<Counter, B>,
) -> Seat<Counter, B>
    requires first { IsReady first turn.now }
    requires second { IsReady second turn.now }
    ensures { IsReady result turn.now }
{
    thread::join(
        rt,
        move || -> Seat<Counter, B>
            requires { IsReady first turn.now }
            ensures { IsReady result turn.entry.now }
        {
            add_many(rt, turn, &mut first, 1, 1_000);
            first
        },
        move || -> bool
            requires { IsReady second turn.now }
        { add(rt, turn, &mut second, 24) },
    )
    .0
}

fn in_turn<B: Ledger, R: Wait>(rt: &R, turn: Turn<Counter, B>, mut seat: Seat<Counter, B>) -> u64
    requires ready { IsReady seat turn }
{
    turn.enter(rt, &mut seat).adds
}

fn ended<B: Ledger + Send + Sync, E: Named<u32>, R: Threads + Wait + Sync>(
    rt: &R,
    alloc: Global,
    blank: Blank,
    ending: Ending,
) -> Result<u64, AllocError>
    requires picked { E.list ≡ [] }
    requires ledger { (blank.name ≡ B.name) × (blank.parts ≡ B.parts) × (B.parts ≡ 3) }
{
    let (turn, seat) = match Turn::<Counter, B>::new::<E>(alloc, blank, Counter::new()) {
        Ok(made) => made,
        Err((_, refused)) => return Err(refused),
    };
    Ok(match ending {
        Ending::InAnotherOrder => in_another_order(rt, turn, seat),
        Ending::OthersLeft => others_left(rt, turn, seat),
        Ending::NothingAdded => nothing_added(rt, turn, seat),
        Ending::EndedEarly => ended_early(rt, turn, seat),
        Ending::InTurn => in_turn(rt, turn, seat),
    })
}

/// What the counter ends with: its sum, or for `NothingAdded` and `InTurn` the number of adds.
pub fn end_of<R: Threads + Wait + Sync>(
    rt: &R,
    alloc: Global,
    ending: Ending,
) -> Result<u64, AllocError> {
    ended::<Brand, Brand, R>(rt, alloc, Blank::new(3), ending)
}
