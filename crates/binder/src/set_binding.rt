// What an UPDATE sets, by the places of columns.
ghost use Rattle.std.specs.Prelude.{◌≡◌, ◌≤◌, length, map, IfOk};
ghost use Rattle.statement_meaning.specs.Binding as binding;

use crate::literals::value_of;
use crate::names::{the_place, the_type};
use mdc_ast::{BoundItem, BoundOperand, BoundSet, ColumnDef, Operand, SetItem, SetText};
use mdc_values::{ColType, List, Memory};
use std::alloc::Global;

/// The columns that are set, and what they are set to.
pub fn bound_sets(
    alloc: Global,
    columns: &[ColumnDef],
    sets: &[SetText],
) -> Result<List<BoundSet>, Memory>
    requires { length columns.now ≤ 16 }
    ensures { IfOk result (λ bound. bound ≡ map (binding.bound_set columns.now) sets.now) }
{
    let mut bound = List::new(alloc);
    for set in sets {
        bound.push(bound_set(alloc, columns, set)?)?;
    }
    Ok(bound)
}

fn bound_set(alloc: Global, columns: &[ColumnDef], set: &SetText) -> Result<BoundSet, Memory>
    requires { length columns.now ≤ 16 }
    ensures { IfOk result (λ bound. bound ≡ binding.bound_set columns.now set.now) }
{
    let ty = the_type(columns, &set.column);
    Ok(BoundSet {
        column: the_place(columns, &set.column),
        item: bound_item(alloc, columns, ty, &set.item)?,
    })
}

fn bound_item(
    alloc: Global,
    columns: &[ColumnDef],
    ty: ColType,
    item: &SetItem,
) -> Result<BoundItem, Memory>
    requires { length columns.now ≤ 16 }
    ensures { IfOk result (λ bound. bound ≡ binding.bound_set_item columns.now ty item.now) }
{
    match item {
        SetItem::One(operand) => Ok(BoundItem::One(bound_side(alloc, columns, ty, operand)?)),
        SetItem::Two(a, sign, b) => Ok(BoundItem::Two(
            bound_side(alloc, columns, ColType::Bigint, a)?,
            *sign,
            bound_side(alloc, columns, ColType::Bigint, b)?,
        )),
    }
}

fn bound_side(
    alloc: Global,
    columns: &[ColumnDef],
    ty: ColType,
    operand: &Operand,
) -> Result<BoundOperand, Memory>
    requires { length columns.now ≤ 16 }
    ensures { IfOk result (λ bound. bound ≡ binding.bound_side columns.now ty operand.now) }
{
    match operand {
        Operand::Column(name) => Ok(BoundOperand::Column(the_place(columns, name))),
        Operand::Literal(literal) => Ok(BoundOperand::Value(value_of(alloc, ty, literal)?)),
    }
}
