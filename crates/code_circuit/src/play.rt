//! Registers under steps.

ghost use Rattle.std.specs.Prelude.{◌≡◌, All, length, map};
ghost use Rattle.code_circuit.specs.Steps.{IsAllowed, AreEven, after_step, after_steps};

use crate::step::Step;
use gf256::scale_add;
use std::alloc::Global;
use std::mem;

/// Takes one step.
fn take_step(alloc: Global, registers: &mut Vec<Vec<u8>>, step: &Step)
    requires allowed { IsAllowed (length registers.old.items) step.now }
    requires even { AreEven (map (λ register. register.items) registers.old.items) }
    ensures { map (λ register. register.items) registers.new.items ≡ after_step (map (λ register. register.items) registers.old.items) step.now }
{
    let mut target = mem::replace(&mut registers[step.target as usize], Vec::new(alloc));
    scale_add(&mut target, step.factor, &registers[step.source as usize]);
    registers[step.target as usize] = target;
}

/// Takes one step after another.
pub(crate) fn play(alloc: Global, registers: &mut Vec<Vec<u8>>, steps: &[Step])
    requires allowed { All (IsAllowed (length registers.old.items)) steps.now }
    requires even { AreEven (map (λ register. register.items) registers.old.items) }
    ensures long { length registers.new.items ≡ length registers.old.items }
    ensures after { map (λ register. register.items) registers.new.items ≡ after_steps (map (λ register. register.items) registers.old.items) steps.now }
{
    for step in steps {
        take_step(alloc, registers, step);
    }
}
