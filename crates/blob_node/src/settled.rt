//! What a restart finds of records in doubt.

use unit_id::UnitName;

/// What a restart found of a record that was in doubt: whether the unit's chunk has it.
#[derive(Clone, Copy, Debug, PartialEq, Eq)]
pub struct Settled {
    pub unit: UnitName,
    pub found: bool,
}
