// The rows that the tuples of an INSERT give.
ghost use Rattle.std.specs.Prelude.{◌≡◌, map, IfOk};
ghost use Rattle.statement_meaning.specs.Binding as binding;
ghost use Rattle.binder.specs.Classes.{target_names};

use crate::literals::value_of;
use crate::names::is_same;
use crate::targets::Targets;
use mdc_ast::{ColumnDef, InsertItem};
use mdc_values::{ColType, List, Memory, Value};
use std::alloc::Global;

/// The values of all tuples, in the order of the columns.
pub fn bound_tuples(
    alloc: Global,
    columns: &[ColumnDef],
    targets: Targets<'_>,
    tuples: &[List<InsertItem>],
) -> Result<List<List<Value>>, Memory>
    ensures { IfOk result (λ rows. rows ≡ map (binding.bound_tuple columns.now (target_names targets.entry)) tuples.now) }
{
    let mut rows = List::new(alloc);
    for tuple in tuples {
        rows.push(bound_tuple(alloc, columns, targets, tuple.as_slice())?)?;
    }
    Ok(rows)
}

fn bound_tuple(
    alloc: Global,
    columns: &[ColumnDef],
    targets: Targets<'_>,
    items: &[InsertItem],
) -> Result<List<Value>, Memory>
    ensures { IfOk result (λ values. values ≡ binding.bound_tuple columns.now (target_names targets.entry) items.now) }
{
    let mut values = List::new(alloc);
    for column in columns {
        values.push(given_for(alloc, column, targets, items)?)?;
    }
    Ok(values)
}

// A column that isn't named is null.
fn given_for(
    alloc: Global,
    column: &ColumnDef,
    targets: Targets<'_>,
    items: &[InsertItem],
) -> Result<Value, Memory>
    ensures { IfOk result (λ value. value ≡ binding.given_for column.now (target_names targets.entry) items.now) }
{
    for place in 0..items.len().min(targets.len()) {
        if is_same(targets.at(place), &column.name) {
            return item_value(alloc, column.ty, &items[place]);
        }
    }
    Ok(Value::Null)
}

fn item_value(alloc: Global, ty: ColType, item: &InsertItem) -> Result<Value, Memory>
    ensures { IfOk result (λ value. value ≡ binding.item_value ty item.now) }
{
    match item {
        InsertItem::Default => Ok(Value::Null),
        InsertItem::Literal(literal) => value_of(alloc, ty, literal),
    }
}
