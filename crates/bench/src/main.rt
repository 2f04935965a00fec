// Times settling: a kind, a line count, a plan, a hold list and a number of rounds on standard input, as bytes; nothing is timed where there are none.
#![tactic(auto)]

use card::Card;
use card::fault::Fault;
use card::plan::Plan;
use kinds::built::Built;
use kinds::plain::CardName;
use std::io;
use std::io::Read;
use std::time::Instant;

// What a card is to settle, and how often.
#[derive(Clone, Copy, Drop)]
struct Task<'a> {
    pairs: &'a [u8],
    holds: &'a [u8],
    rounds: u32,
}

// The task of these bytes for a card of so many lines and cells: a plan, a hold list and four bytes of rounds, the highest first.
fn read(bytes: &[u8], lines: usize, cells: usize) -> Option<Task<'_>> {
    let (pairs, rest) = bytes.split_at_checked(lines)?;
    let (holds, count) = rest.split_at_checked(cells)?;
    let rounds = u32::from_be_bytes(count.try_into().ok()?);
    Some(Task {
        pairs,
        holds,
        rounds,
    })
}

// A plan of these pairs.
fn planned(pairs: &[u8]) -> Result<Plan, Fault> {
    let mut plan = Plan::idle(2)?;
    plan.fill(pairs)?;
    Ok(plan)
}

// Settles so many times, and says how often it was done. The buffer is not cleared between two rounds.
fn settle_often(card: &Built, plan: &Plan, holds: &[u8], setting: &mut [u8], rounds: u32) -> u32 {
    let mut done = 0u32;
    for _ in 0..rounds {
        if card.settle(plan, holds, setting).is_ok() {
            done = done.wrapping_add(1);
        }
    }
    done
}

// Times the rounds on a card.
fn timed(rt: &HostRuntime, card: &Built, bytes: &[u8]) -> io::Result<()> {
    let cells = (card.cells() as usize).min(64);
    let Some(task) = read(bytes, card.lines() as usize, cells) else {
        return println!(rt; "a plan, a hold list and four bytes of rounds are wanted");
    };
    let Ok(plan) = planned(task.pairs) else {
        return println!(rt; "no such plan");
    };
    let mut table = [0u8; 64];
    let start = Instant::now(rt)?;
    let done = settle_often(card, &plan, task.holds, &mut table[..cells], task.rounds);
    let took = start.elapsed(rt)?.as_nanos();
    println!(rt; "{took} {done}")
}

fn main(rt: HostRuntime) -> io::Result<()> {
    let mut input = Vec::new(rt.alloc());
    rt.stdin().read_to_end(&mut input)?;
    match input.as_slice() {
        [kind, lines, bytes @ ..] => {
            let name = CardName {
                kind: *kind,
                lines: *lines,
            };
            match name.build() {
                Ok(card) => timed(&rt, &card, bytes),
                Err(_) => println!(rt; "no such card"),
            }
        }
        _ => Ok(()),
    }
}
