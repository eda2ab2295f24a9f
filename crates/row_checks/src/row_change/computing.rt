// The values that a row becomes.
ghost use Rattle.std.specs.Prelude.{◌≡◌, length, IfOk, IsTrue};
ghost use Rattle.statement_meaning.specs.Doing.{set_on};
ghost use Rattle.row_checks.specs.RowChange.{are_storable, are_within};

use crate::row_change::given::{item_on, to_value};
use mdc_ast::BoundSet;
use mdc_values::{List, Memory, Value};
use std::alloc::Global;

/// The values of a row once columns are set, each to what its item gives on the row as it was. It needs that no number among
/// the new ones is too large for 64 bits.
pub fn changed_values(
    alloc: Global,
    sets: &[BoundSet],
    values: &[Value],
) -> Result<List<Value>, Memory>
    requires within { IsTrue (are_within (length values.now) sets.now) }
    requires storable { IsTrue (are_storable values.now sets.now) }
    ensures { IfOk result (λ changed. changed ≡ set_on values.now sets.now values.now) }
{
    let mut changed = copied_values(alloc, values)?;
    for set in sets {
        let value = to_value(alloc, item_on(values, &set.item))?;
        changed.set(set.column as usize, value);
    }
    Ok(changed)
}

// Equal values.
fn copied_values(alloc: Global, values: &[Value]) -> Result<List<Value>, Memory>
    ensures { IfOk result (λ copies. copies ≡ values.now) }
{
    let mut copies = Vec::with_capacity(alloc, values.len())?;
    for value in values {
        copies.push(value.copy(alloc)?)?;
    }
    Ok(List::from_vec(copies))
}
