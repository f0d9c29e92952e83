//! Steps, and which of them are allowed.

ghost use Rattle.std.specs.Prelude.{◌↔◌, ◌<◌, All, IsTrue};
ghost use Rattle.code_circuit.specs.Steps.{IsAllowed};

/// Adds `factor` times the register `source` to the register `target`, place by place.
#[derive(Clone, Copy)]
pub struct Step {
    pub target: u8,
    pub source: u8,
    pub factor: u8,
}

/// Whether a step goes from one register to another, and both are among the first `registers`.
pub(crate) fn is_allowed(registers: usize, step: &Step) -> bool
    ensures { IsTrue result ↔ IsAllowed registers step.now }
{
    usize::from(step.target) < registers
        && usize::from(step.source) < registers
        && step.source != step.target
}

/// Whether all steps are allowed.
pub(crate) fn are_allowed(registers: usize, steps: &[Step]) -> bool
    ensures { IsTrue result ↔ All (IsAllowed registers) steps.now }
{
    for step in steps {
        if !is_allowed(registers, step) {
            return false;
        }
    }
    true
}

/// Whether all these registers are among the first `registers`.
pub(crate) fn are_inside(registers: usize, outputs: &[u8]) -> bool
    ensures { IsTrue result ↔ All (λ output. output < registers) outputs.now }
{
    for output in outputs {
        if usize::from(*output) >= registers {
            return false;
        }
    }
    true
}
