// The cell of a row.
ghost use Rattle.std.specs.Prelude.{◌≡◌, ◌++◌, map, IfErr, IfOk, OnOk};
ghost use Rattle.mdc_ast.specs.Truth.{value_at};
ghost use Rattle.table_trees.specs.RowCells.{cell_places};
ghost use Rattle.block_index.specs.Cells.{FitsCell, HaveKeys};
ghost use Rattle.table_trees.specs.RowCells.{IsCellOf};

use mdc_ast::{Cell, ColumnDef, TableDef};
use mdc_values::{List, Value};
use std::alloc::Global;
use store_api::StoreFault;

/// The cell of a row of these values: copies of those in the dimension columns.
pub(crate) fn cell_of(
    alloc: Global,
    def: &TableDef,
    values: &List<Value>,
) -> Result<Cell, StoreFault>
    requires keys { HaveKeys def.now.columns (cell_places def.now) values.now }
    ensures cell { IfOk result (λ cell. IsCellOf def.now cell values.now) }
    ensures fits { IfOk result (λ cell. FitsCell def.now cell.values) }
    ensures memory { IfErr result (λ fault. fault ≡ StoreFault.Memory) }
{
    let mut cell = Vec::new(alloc);
    for dim in def.dims.as_slice() {
        push_values(alloc, &mut cell, &def.columns, dim, values)?;
    }
    Ok(Cell {
        values: List::from_vec(cell),
    })
}

/// Puts copies of the values in some places last.
fn push_values(
    alloc: Global,
    cell: &mut Vec<Value>,
    columns: &List<ColumnDef>,
    places: &List<u8>,
    values: &List<Value>,
) -> Result<(), StoreFault>
    requires keys { HaveKeys columns.now places.now values.now }
    ensures cell { OnOk result (cell.new.items ≡ cell.old.items ++ map (value_at values.now) places.now) }
    ensures memory { IfErr result (λ fault. fault ≡ StoreFault.Memory) }
{
    let _columns = columns;
    for place in places.as_slice() {
        let value = values.at(usize::from(*place)).copy(alloc)?;
        cell.push(value)?;
    }
    Ok(())
}
