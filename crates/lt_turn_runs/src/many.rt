ghost use Rattle.std.specs.Prelude.{◌≡◌, ◌+◌, ◌<◌, [], IfOk};
ghost use Rattle.std.specs.List.{All};
ghost use Rattle.lt_turn.specs.Seats.{parts};
ghost use Rattle.lt_turn_runs.specs.Seats.{IsReady};

use crate::counter::Counter;
use crate::runs::add_many;
use lt_stands::Named;
use lt_turn::{Seat, Turn};
use std::alloc::{AllocError, Global};
use std::marker::Brand;
use std::sync::Wait;
use std::sync::ledger::{Blank, Ledger};
use std::thread;
use std::thread::Threads;

// A seat, and what was added by it.
#[derive(Drop)]
struct Worker<B: Ledger> {
    seat: Seat<Counter, B>,
    gave: u64,
}

// As many seats, each with one part of this seat's.
fn seated<B: Ledger>(
    alloc: Global,
    turn: &Turn<Counter, B>,
    seat: &mut Seat<Counter, B>,
    count: u32,
) -> Result<Vec<Worker<B>>, AllocError>
    requires ready { IsReady seat.old turn.now }
    requires parts { count < parts seat.old }
    ensures ready { IsReady seat.new turn.now }
    ensures workers { IfOk result (λ ws. All (λ w. IsReady w.seat turn.now) ws.items) }
{
    let mut workers = Vec::new(alloc);
    for _taken in 0..count {
        let seat = turn.split(seat);
        workers.push(Worker { seat, gave: 0 })?;
    }
    Ok(workers)
}

// Each in a thread of its own.
fn work<B: Ledger + Send + Sync, R: Threads + Wait + Sync>(
    rt: &R,
    turn: &Turn<Counter, B>,
    workers: &mut [Worker<B>],
    times: u32,
)
    requires { All (λ w. IsReady w.seat turn.now) workers.old }
    ensures { All (λ w. IsReady w.seat turn.now) workers.new }
{
    let threads = workers.len().max(1);
    thread::for_each_mut(
        rt,
        workers,
        threads,
        &|_, worker| {
            worker.gave = add_many(rt, turn, &mut worker.seat, 1, times);
        },
    );
}

// Joins all seats into this one, and answers what was added by them.
fn gathered<B: Ledger>(
    turn: &Turn<Counter, B>,
    seat: &mut Seat<Counter, B>,
    mut workers: Vec<Worker<B>>,
) -> u64
    requires ready { IsReady seat.old turn.now }
    requires workers { All (λ w. IsReady w.seat turn.now) workers.items }
    ensures ready { IsReady seat.new turn.now }
{
    let mut gave: u64 = 0;
    while let Some(worker) = workers.pop() {
        gave = gave.wrapping_add(worker.gave);
        turn.join(seat, worker.seat);
    }
    gave
}

fn run<B: Ledger + Send + Sync, E: Named<u32>, R: Threads + Wait + Sync>(
    rt: &R,
    alloc: Global,
    blank: Blank,
    threads: u32,
    times: u32,
) -> Result<(u64, u64), AllocError>
    requires picked { E.list ≡ [] }
    requires ledger { (blank.name ≡ B.name) × (blank.parts ≡ B.parts) × (B.parts ≡ threads + 1) }
{
    let counter = Counter::new();
    let (turn, mut seat) = match Turn::<Counter, B>::new::<E>(alloc, blank, counter) {
        Ok(made) => made,
        Err((_, refused)) => return Err(refused),
    };
    let mut workers = seated(alloc, &turn, &mut seat, threads)?;
    work(rt, &turn, workers.as_mut_slice(), times);
    let gave = gathered(&turn, &mut seat, workers);
    Ok((turn.close(rt, seat).sum, gave))
}

/// As many threads add one by turns, each as often. What the counter ends with, and what all say that they added.
pub fn total_of_many<R: Threads + Wait + Sync>(
    rt: &R,
    alloc: Global,
    threads: u32,
    times: u32,
) -> Result<(u64, u64), AllocError> {
    let blank = Blank::new(u64::from(threads) + 1);
    run::<Brand, Brand, R>(rt, alloc, blank, threads, times)
}
