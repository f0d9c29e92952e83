//! A value that only grows.
ghost use Rattle.std.specs.Prelude.{◌≡◌};
ghost use mathlib.Core.List.{IsPrefix};

use crate::Recorded;
use std::alloc::{AllocError, Global};

/// One step, of one thread.
#[derive(Clone, Copy, Debug, PartialEq, Eq)]
pub(crate) struct Mark {
    pub by: u32,
    pub step: u32,
}

/// The steps so far, from a start that never changes.
#[derive(Drop)]
pub(crate) struct Log {
    pub start: u64,
    pub marks: Vec<Mark>,
}

impl Recorded for Log {
    type Origin = u64;

    type Entry = Mark;

    ghost origin = { λ log. log.start };

    ghost past = { λ log. log.marks.items };

    fn count(&self) -> u64 {
        self.marks.len() as u64
    }
}

impl Log {
    pub(crate) fn new(alloc: Global, start: u64) -> Log
        ensures { result.start ≡ start }
    {
        Log {
            start,
            marks: Vec::new(alloc),
        }
    }

    pub(crate) fn step(&mut self, mark: Mark) -> Result<(), AllocError>
        ensures start { self.new.start ≡ self.old.start }
        ensures longer { IsPrefix self.old.marks.items self.new.marks.items }
    {
        self.marks.push(mark)?;
        Ok(())
    }

    /// The steps, as `by.step` and a blank each.
    pub(crate) fn text(&self, alloc: Global) -> Result<String, AllocError> {
        let mut text = String::new(alloc);
        for mark in &self.marks {
            let step = format!(in alloc; "{}.{} ", mark.by, mark.step)?;
            text.push_str(step.as_str())?;
        }
        Ok(text)
    }
}

/// How many steps each of these threads made, where all made as many, each in its own order; else 0.
pub(crate) fn in_order(marks: &[Mark], threads: u32) -> u32 {
    let mut steps = [0u32; 16];
    for mark in marks {
        let by = mark.by as usize % 16;
        if steps[by] != mark.step {
            return 0;
        }
        steps[by] = steps[by].wrapping_add(1);
    }
    let most = steps[1];
    for by in 1..=threads as usize {
        if by < 16 && steps[by] != most {
            return 0;
        }
    }
    most
}
