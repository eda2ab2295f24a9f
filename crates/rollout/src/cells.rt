// Whether the rows of a cell qualify.
ghost use Rattle.std.specs.Prelude.{◌≡◌, ◌<◌, ◌&&◌, ◌++◌, None, length, nat_le, replicate, true, false, IfOk, IfSome, IsTrue, OnOk};
ghost use Rattle.std.specs.List.{AllByRecursion};
ghost use Rattle.mdc_values.specs.declared.value.Value.TheVariants.{Null};
ghost use Rattle.mdc_values.specs.Value.{are_bytes};
ghost use Rattle.mdc_ast.specs.TableLimits.{IsTableDef};
ghost use Rattle.mdc_ast.specs.Truth.{qualifies};
ghost use Rattle.key_codec.specs.Keys as spec;
ghost use Rattle.block_index.specs.Cells.{FitPlaces, FitsCell};
ghost use Rattle.row_filter.specs.Filtering.{may_filter};
ghost use Rattle.table_trees.specs.RowCells.{cell_places};
ghost use Rattle.rollout.specs.CellRows.{HasCellValues, IsRowOfCell};

use mdc_ast::{Cell, ColumnDef, Pred, Row, TableDef};
use mdc_values::{ColType, List, Memory, Truth, Value};
use predicate::truth;
use std::alloc::Global;

/// The places of all dimension columns, in the order of the dimensions.
pub(crate) fn cell_places(alloc: Global, def: &TableDef) -> Result<Vec<u8>, Memory>
    ensures { IfOk result (λ places. places.items ≡ cell_places def.now) }
{
    let mut places = Vec::new(alloc);
    for dim in def.dims.as_slice() {
        push_places(dim.as_slice(), &mut places)?;
    }
    Ok(places)
}

/// Puts places last.
fn push_places(more: &[u8], places: &mut Vec<u8>) -> Result<(), Memory>
    ensures { OnOk result (places.new.items ≡ places.old.items ++ more.now) }
{
    for place in more {
        places.push(*place)?;
    }
    Ok(())
}

/// Whether a row qualifies: there is no predicate, or it is true.
pub(crate) fn qualifies(pred: &Option<Pred>, row: &Row) -> bool
    requires judged { IsTrue (may_filter pred.now row.now.values) }
    ensures { result ≡ qualifies pred.now row.now.values }
{
    match pred {
        Some(pred) => matches!(truth(pred, &row.values), Truth::True),
        None => true,
    }
}

/// A row with the values of a cell, and nulls in all other columns. None where the cell hasn't a value for each dimension column, with a
/// key in it.
pub(crate) fn row_of_cell(
    alloc: Global,
    def: &TableDef,
    places: &[u8],
    cell: &Cell,
) -> Result<Option<Row>, Memory>
    requires defined { IsTableDef def.now.number def.now }
    requires places { places.now ≡ cell_places def.now }
    ensures row { IfOk result (λ made. IfSome made (IsRowOfCell def.now cell.now)) }
    ensures none { IfOk result (λ made. made ≡ None → FitsCell def.now cell.now.values → ⊥) }
{
    let values = cell.values.as_slice();
    if values.len() != places.len() {
        return Ok(None);
    }
    if !fit_places(&def.columns, places, values) {
        return Ok(None);
    }
    let values = values_in(alloc, &def.columns, places, values)?;
    Ok(Some(Row { number: 0, values }))
}

/// Whether values have keys in the columns in some places.
fn fit_places(columns: &List<ColumnDef>, places: &[u8], values: &[Value]) -> bool
    requires one_each { length values.now ≡ length places.now }
    requires there { AllByRecursion (λ place. place < length columns.now) places.now }
    ensures fit { result ≡ true → FitPlaces columns.now places.now values.now }
    ensures none { result ≡ false → FitPlaces columns.now places.now values.now → ⊥ }
{
    for at in 0..places.len() {
        let ty = columns.at(usize::from(places[at])).ty;
        if !has_key(ty, &values[at]) {
            return false;
        }
    }
    true
}

/// Whether a value has a key in a column of a type.
fn has_key(ty: ColType, value: &Value) -> bool
    ensures { result ≡ spec.has_key ty value.now }
{
    match (ty, value) {
        (_, Value::Null) => true,
        (ColType::Integer, Value::Int(number)) => i32::try_from(*number).is_ok(),
        (ColType::Bigint, Value::Int(number)) => i64::try_from(i128::from(*number)).is_ok(),
        (ColType::Char(limit), Value::Text(text)) => is_short(limit, text.bytes()),
        (ColType::Date, Value::Day(day)) => u64::from(*day) < 4_294_967_296,
        _ => false,
    }
}

/// Whether a text has at most so many bytes.
fn is_short(limit: u8, text: &[u8]) -> bool
    ensures { result ≡ (nat_le (length text.now) limit && are_bytes text.now) }
{
    text.len() <= usize::from(limit)
}

/// A value for each column: these in some places, and nulls elsewhere.
fn values_in(
    alloc: Global,
    columns: &List<ColumnDef>,
    places: &[u8],
    values: &[Value],
) -> Result<List<Value>, Memory>
    requires one_each { length values.now ≡ length places.now }
    requires there { AllByRecursion (λ place. place < length columns.now) places.now }
    requires fit { FitPlaces columns.now places.now values.now }
    ensures { IfOk result (HasCellValues columns.now places.now values.now) }
{
    let mut made = nulls(alloc, columns.len())?;
    for at in 0..places.len() {
        let value = values[at].copy(alloc)?;
        made.set(usize::from(places[at]), value);
    }
    Ok(made)
}

/// So many nulls.
fn nulls(alloc: Global, count: usize) -> Result<List<Value>, Memory>
    ensures { IfOk result (λ made. made ≡ replicate count Null) }
{
    let mut made = List::new(alloc);
    for _ in 0..count {
        made.push(Value::Null)?;
    }
    Ok(made)
}
