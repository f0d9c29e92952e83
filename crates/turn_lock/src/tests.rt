//! Turns over a value with a log: in one thread, in many, and with tokens that are joined in another order.
//! Where there is no memory for a turn, the value comes back and the test ends.

mod log;
mod threads;

use crate::tests::log::{Log, Mark, in_order};
use crate::tests::threads::{run_threads, split_many, take_step_give};
use crate::{Recorded, Turn, TurnFault};
use std::test::Fail;

#[test]
fn two_tokens_step_in_turn(rt: HostRuntime) -> Result<(), Fail> {
    let (turn, mut first) = match Turn::make(rt.alloc(), Log::new(rt.alloc(), 7)) {
        Ok(made) => made,
        Err(TurnFault::Memory(log)) => {
            assert_eq!(rt; log.start, 7);
            return Ok(());
        }
    };
    let mut second = turn.split(&mut first);
    take_step_give(&rt, &turn, &mut first, Mark { by: 1, step: 0 });
    take_step_give(&rt, &turn, &mut second, Mark { by: 2, step: 0 });
    take_step_give(&rt, &turn, &mut first, Mark { by: 1, step: 1 });
    take_step_give(&rt, &turn, &mut second, Mark { by: 2, step: 1 });
    turn.join(&mut first, second);
    let held = turn.take(&rt, &mut first);
    let count = held.value().count();
    turn.give(held, &mut first);
    let log = turn.close(first);
    let text = log.text(rt.alloc())?;
    assert_eq!(rt; (count, log.start), (4, 7));
    assert_eq!(rt; text.as_str(), "1.0 2.0 1.1 2.1 ");
    let refused = format!(in rt.alloc(); "{}", TurnFault::Memory(log))?;
    assert_eq!(rt; refused.as_str(), "no memory for a turn");
    Ok(())
}

#[test]
fn tokens_join_in_another_order(rt: HostRuntime) -> Result<(), Fail> {
    let Ok((turn, mut first)) = Turn::make(rt.alloc(), Log::new(rt.alloc(), 0)) else {
        return Ok(());
    };
    let mut second = turn.split(&mut first);
    let mut third = turn.split(&mut first);
    let mut fourth = turn.split(&mut first);
    take_step_give(&rt, &turn, &mut third, Mark { by: 3, step: 0 });
    take_step_give(&rt, &turn, &mut first, Mark { by: 1, step: 0 });
    turn.join(&mut fourth, third);
    take_step_give(&rt, &turn, &mut fourth, Mark { by: 4, step: 0 });
    turn.join(&mut second, first);
    take_step_give(&rt, &turn, &mut second, Mark { by: 2, step: 0 });
    turn.join(&mut fourth, second);
    let log = turn.close(fourth);
    let text = log.text(rt.alloc())?;
    assert_eq!(rt; text.as_str(), "3.0 1.0 4.0 2.0 ");
    Ok(())
}

#[test]
fn many_tokens_join(rt: HostRuntime) -> Result<(), Fail> {
    let Ok((turn, token)) = Turn::make(rt.alloc(), Log::new(rt.alloc(), 0)) else {
        return Ok(());
    };
    let token = split_many(&rt, &turn, token, 200);
    let log = turn.close(token);
    assert_eq!(rt; log.marks.len(), 200);
    for (place, mark) in log.marks.iter().enumerate() {
        assert_eq!(rt; place + mark.by as usize, 200);
    }
    Ok(())
}

#[test]
fn threads_step_once_each(rt: HostRuntime) -> Result<(), Fail> {
    for threads in [4, 8] {
        let Ok((turn, token)) = Turn::make(rt.alloc(), Log::new(rt.alloc(), 0)) else {
            return Ok(());
        };
        let token = run_threads(&rt, &turn, token, threads, 1000);
        let log = turn.close(token);
        assert_eq!(rt;
            log.marks.len(),
            threads as usize * 1000,
            "{threads} threads"
        );
        assert_eq!(rt;
            in_order(log.marks.as_slice(), threads),
            1000,
            "{threads} threads"
        );
    }
    Ok(())
}
