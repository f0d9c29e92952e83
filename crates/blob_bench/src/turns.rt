//! Threads that take turns over a count.
ghost use Rattle.std.specs.Prelude.{◌≡◌, ◌-◌, ◌<◌, false, length};
ghost use Rattle.std.specs.List.{range_with_len};
ghost use denote.Param.Send.{IsSync};
ghost use mathlib.Core.List.{IsPrefix};

use std::alloc::Global;
use std::sync::Wait;
use std::thread::{Threads, join};
use turn_lock::{Recorded, Token, Turn, TurnFault};

/// How many steps were made.
#[derive(Drop)]
pub struct Steps {
    count: u64,
}

impl Recorded for Steps {
    ghost use Rattle.std.specs.List.{range_with_len};

    type Origin = ();

    type Entry = u64;

    ghost origin = { λ _. tt };

    ghost past = { λ steps. range_with_len 0 steps.count };

    fn count(&self) -> u64 {
        self.count
    }
}

impl Steps {
    fn step(&mut self)
        ensures { IsPrefix (range_with_len 0 self.old.count) (range_with_len 0 self.new.count) }
    {
        if self.count < u64::MAX {
            self.count += 1;
        }
    }
}

fn take_turns<R: Wait>(
    rt: &R,
    turn: &Turn<Steps>,
    mut token: Token<Steps>,
    turns: usize,
) -> Token<Steps>
    requires token { (token.turn ≡ turn.now) × (token.holds ≡ false) }
    ensures token { (result.turn ≡ turn.now) × (result.holds ≡ false) × (result.parts ≡ token.parts) }
{
    for _ in 0..turns {
        let mut held = turn.take(rt, &mut token);
        held.value_mut().step();
        turn.give(held, &mut token);
    }
    token
}

/// As many threads as asked, each with a token of its own, which come back in one.
fn run_threads<R: Threads + Wait + Sync>(
    rt: &R,
    turn: &Turn<Steps>,
    mut token: Token<Steps>,
    threads: u32,
    turns: usize,
) -> Token<Steps>
    requires token { (token.turn ≡ turn.now) × (token.holds ≡ false) × (threads < token.parts) }
    ensures token { (result.turn ≡ turn.now) × (result.holds ≡ false) × (result.parts ≡ token.parts) }
{
    if threads <= 1 {
        return take_turns(rt, turn, token, turns);
    }
    let own = turn.split(&mut token);
    let left = threads - 1;
    let (mut one, rest) = join(
        rt,
        move || -> Token<Steps>
            requires { (own.turn ≡ turn.now) × (own.holds ≡ false) }
            ensures { (result.turn ≡ turn.entry.now) × (result.holds ≡ false) × (result.parts ≡ own.parts) }
        { take_turns(rt, turn, own, turns) },
        move || -> Token<Steps>
            requires { IsSync R.row × (token.turn ≡ turn.now) × (token.holds ≡ false) × (left < token.parts) }
            ensures { (result.turn ≡ turn.entry.now) × (result.holds ≡ false) × (result.parts ≡ token.parts) }
        { run_threads(rt, turn, token, left, turns) },
    );
    turn.join(&mut one, rest);
    one
}

/// The steps that so many threads made, each so many; none where there is no memory.
pub fn count_steps<R: Threads + Wait + Sync>(
    rt: &R,
    alloc: Global,
    threads: u32,
    turns: usize,
) -> u64 {
    if threads >= 65_536 {
        return 0;
    }
    match Turn::make(alloc, Steps { count: 0 }) {
        Ok((turn, token)) => {
            let token = run_threads(rt, &turn, token, threads, turns);
            turn.close(token).count
        }
        Err(TurnFault::Memory(steps)) => steps.count,
    }
}
