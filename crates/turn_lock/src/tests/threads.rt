//! Threads that take turns.
ghost use Rattle.std.specs.Prelude.{◌≡◌, ◌-◌, ◌<◌, false};
ghost use denote.Param.Send.{IsSync};

use crate::tests::log::{Log, Mark};
use crate::{Token, Turn};
use std::sync::Wait;
use std::thread::{Threads, join};

/// One turn. Where there is no memory for the step, the value is given back as it was.
pub(crate) fn take_step_give<R: Wait>(rt: &R, turn: &Turn<Log>, token: &mut Token<Log>, mark: Mark)
    requires token { (token.old.turn ≡ turn.now) × (token.old.holds ≡ false) }
    ensures token { (token.new.turn ≡ token.old.turn) × (token.new.holds ≡ false) × (token.new.parts ≡ token.old.parts) }
{
    let mut held = turn.take(rt, token);
    let _ = held.value_mut().step(mark);
    turn.give(held, token);
}

fn take_turns<R: Wait>(
    rt: &R,
    turn: &Turn<Log>,
    mut token: Token<Log>,
    by: u32,
    steps: u32,
) -> Token<Log>
    requires token { (token.turn ≡ turn.now) × (token.holds ≡ false) }
    ensures token { (result.turn ≡ turn.now) × (result.holds ≡ false) × (result.parts ≡ token.parts) }
{
    for step in 0..steps {
        take_step_give(rt, turn, &mut token, Mark { by, step });
    }
    token
}

/// As many threads as asked, each with a token of its own, which come back in one.
pub(crate) fn run_threads<R: Threads + Wait + Sync>(
    rt: &R,
    turn: &Turn<Log>,
    mut token: Token<Log>,
    threads: u32,
    steps: u32,
) -> Token<Log>
    requires token { (token.turn ≡ turn.now) × (token.holds ≡ false) × (threads < token.parts) }
    ensures token { (result.turn ≡ turn.now) × (result.holds ≡ false) × (result.parts ≡ token.parts) }
{
    if threads == 0 {
        return token;
    }
    let own = turn.split(&mut token);
    let left = threads - 1;
    let (mut one, rest) = join(
        rt,
        move || -> Token<Log>
            requires { (own.turn ≡ turn.now) × (own.holds ≡ false) }
            ensures { (result.turn ≡ turn.entry.now) × (result.holds ≡ false) × (result.parts ≡ own.parts) }
        { take_turns(rt, turn, own, threads, steps) },
        move || -> Token<Log>
            requires { IsSync R.row × (token.turn ≡ turn.now) × (token.holds ≡ false) × (left < token.parts) }
            ensures { (result.turn ≡ turn.entry.now) × (result.holds ≡ false) × (result.parts ≡ token.parts) }
        { run_threads(rt, turn, token, left, steps) },
    );
    turn.join(&mut one, rest);
    one
}

/// As many tokens as asked, each for one step, which come back in one: each takes in the other or goes into it, in turn.
pub(crate) fn split_many<R: Wait>(
    rt: &R,
    turn: &Turn<Log>,
    mut token: Token<Log>,
    many: u32,
) -> Token<Log>
    requires token { (token.turn ≡ turn.now) × (token.holds ≡ false) × (many < token.parts) }
    ensures token { (result.turn ≡ turn.now) × (result.holds ≡ false) × (result.parts ≡ token.parts) }
{
    if many == 0 {
        return token;
    }
    let mut own = turn.split(&mut token);
    take_step_give(rt, turn, &mut own, Mark { by: many, step: 0 });
    let mut rest = split_many(rt, turn, token, many - 1);
    if many % 2 == 0 {
        turn.join(&mut own, rest);
        own
    } else {
        turn.join(&mut rest, own);
        rest
    }
}
