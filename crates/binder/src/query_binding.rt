// The binding of a query.
ghost use Rattle.std.specs.Prelude.{◌≡◌, ◌≤◌, length, map, IfOk};
ghost use Rattle.mdc_ast.specs.Definitions as definitions;
ghost use Rattle.statement_meaning.specs.Binding as binding;

use crate::names::the_place;
use crate::where_binding::bound_where;
use mdc_ast::{BoundOut, BoundSelect, ColumnDef, KeyPart, KeyText, Name, Out, OutList, Select};
use mdc_values::{List, Memory};
use std::alloc::Global;

/// A query on the table in a place, which has these columns.
pub fn bound_select(
    alloc: Global,
    table: u8,
    columns: &[ColumnDef],
    select: &Select,
) -> Result<BoundSelect, Memory>
    requires { length columns.now ≤ 16 }
    ensures { IfOk result (λ bound. bound ≡ binding.bound_select table columns.now select.now) }
{
    Ok(BoundSelect {
        table,
        outs: bound_shown(alloc, columns, &select.list)?,
        pred: bound_where(alloc, columns, &select.pred)?,
        group: bound_group(alloc, columns, select.group.as_slice())?,
        order: bound_keys(alloc, columns, select.order.as_slice())?,
        first: bound_first(select.first),
    })
}

// What a query shows, by the places of columns.
fn bound_shown(
    alloc: Global,
    columns: &[ColumnDef],
    list: &OutList,
) -> Result<List<BoundOut>, Memory>
    requires { length columns.now ≤ 16 }
    ensures { IfOk result (λ outs. outs ≡ binding.shown columns.now list.now) }
{
    match list {
        OutList::Star => bound_star(alloc, columns),
        OutList::Outs(outs) => bound_outs(alloc, columns, outs.as_slice()),
    }
}

fn bound_star(alloc: Global, columns: &[ColumnDef]) -> Result<List<BoundOut>, Memory>
    requires { length columns.now ≤ 16 }
    ensures { IfOk result (λ outs. outs ≡ map (λ name. BoundOut.Column (binding.the_place columns.now name)) (definitions.column_names columns.now)) }
{
    let mut shown = List::new(alloc);
    for column in columns {
        shown.push(BoundOut::Column(the_place(columns, &column.name)))?;
    }
    Ok(shown)
}

fn bound_outs(alloc: Global, columns: &[ColumnDef], outs: &[Out]) -> Result<List<BoundOut>, Memory>
    requires { length columns.now ≤ 16 }
    ensures { IfOk result (λ shown. shown ≡ map (binding.bound_out_of columns.now) outs.now) }
{
    let mut shown = List::new(alloc);
    for out in outs {
        shown.push(bound_out(columns, out))?;
    }
    Ok(shown)
}

fn bound_out(columns: &[ColumnDef], out: &Out) -> BoundOut
    requires { length columns.now ≤ 16 }
    ensures { result ≡ binding.bound_out_of columns.now out.now }
{
    match out {
        Out::Column(name) => BoundOut::Column(the_place(columns, name)),
        Out::CountAll => BoundOut::CountAll,
        Out::Count(name) => BoundOut::Count(the_place(columns, name)),
        Out::Sum(name) => BoundOut::Sum(the_place(columns, name)),
        Out::Min(name) => BoundOut::Min(the_place(columns, name)),
        Out::Max(name) => BoundOut::Max(the_place(columns, name)),
    }
}

fn bound_group(alloc: Global, columns: &[ColumnDef], names: &[Name]) -> Result<List<u8>, Memory>
    requires { length columns.now ≤ 16 }
    ensures { IfOk result (λ group. group ≡ map (binding.the_place columns.now) names.now) }
{
    let mut group = List::new(alloc);
    for name in names {
        group.push(the_place(columns, name))?;
    }
    Ok(group)
}

/// Columns with their directions, as an order or a key has them, by their places.
pub fn bound_keys(
    alloc: Global,
    columns: &[ColumnDef],
    keys: &[KeyText],
) -> Result<List<KeyPart>, Memory>
    requires { length columns.now ≤ 16 }
    ensures { IfOk result (λ bound. bound ≡ map (binding.bound_key columns.now) keys.now) }
{
    let mut bound = List::new(alloc);
    for key in keys {
        bound.push(KeyPart {
            column: the_place(columns, &key.column),
            descending: key.descending,
        })?;
    }
    Ok(bound)
}

// A number of more than 32 bits is refused before.
fn bound_first(first: Option<u64>) -> Option<u32>
    ensures { result ≡ binding.bound_first first }
{
    match first {
        Some(count) => Some(count.min(u64::from(u32::MAX)) as u32),
        None => None,
    }
}
