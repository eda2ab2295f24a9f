// The definition that a CREATE TABLE makes.
ghost use Rattle.std.specs.Prelude.{◌≡◌, ◌≤◌, length, map, IfOk, IsTrue};
ghost use Rattle.std.specs.List.{list_all};
ghost use Rattle.statement_meaning.specs.Binding as binding;
ghost use Rattle.statement_meaning.specs.Judged.{type_of};
ghost use Rattle.binder.specs.Bounded.{is_short_char};

use crate::column_texts::text_place;
use crate::names::copy_of;
use mdc_ast::{ColumnDef, ColumnText, Name, Roots, TableDef, TypeText};
use mdc_values::{ColType, List, Memory};
use std::alloc::Global;

/// The definition of a table that isn't in a database yet: its number, its next row number and its roots are 0.
pub fn bound_table(
    alloc: Global,
    name: &Name,
    columns: &[ColumnText],
    dims: &[List<Name>],
) -> Result<TableDef, Memory>
    requires few { length columns.now ≤ 16 }
    requires short { IsTrue (list_all (λ column. is_short_char column.ty) columns.now) }
    ensures { IfOk result (λ def. def ≡ binding.bound_table name.now columns.now dims.now) }
{
    Ok(TableDef {
        number: 0,
        name: copy_of(alloc, name)?,
        columns: bound_columns(alloc, columns)?,
        dims: bound_dims(alloc, columns, dims)?,
        indexes: List::new(alloc),
        next: 0,
        roots: Roots {
            map: 0,
            composite: 0,
            dims: List::new(alloc),
        },
    })
}

fn bound_columns(alloc: Global, columns: &[ColumnText]) -> Result<List<ColumnDef>, Memory>
    requires { IsTrue (list_all (λ column. is_short_char column.ty) columns.now) }
    ensures { IfOk result (λ defs. defs ≡ map binding.bound_column columns.now) }
{
    let mut defs = List::new(alloc);
    for column in columns {
        defs.push(bound_column(alloc, column)?)?;
    }
    Ok(defs)
}

fn bound_column(alloc: Global, column: &ColumnText) -> Result<ColumnDef, Memory>
    requires { IsTrue (is_short_char column.now.ty) }
    ensures { IfOk result (λ def. def ≡ binding.bound_column column.now) }
{
    Ok(ColumnDef {
        name: copy_of(alloc, &column.name)?,
        ty: bound_type(column.ty),
        not_null: column.not_null,
        made: None,
    })
}

fn bound_type(ty: TypeText) -> ColType
    requires { IsTrue (is_short_char ty) }
    ensures { result ≡ type_of ty }
{
    match ty {
        TypeText::Integer => ColType::Integer,
        TypeText::Bigint => ColType::Bigint,
        TypeText::Char(n) => ColType::Char(n as u8),
        TypeText::Date => ColType::Date,
    }
}

fn bound_dims(
    alloc: Global,
    columns: &[ColumnText],
    dims: &[List<Name>],
) -> Result<List<List<u8>>, Memory>
    requires { length columns.now ≤ 16 }
    ensures { IfOk result (λ places. places ≡ map (λ dim. map (binding.text_place columns.now) dim) dims.now) }
{
    let mut bound = List::new(alloc);
    for dim in dims {
        bound.push(bound_dim(alloc, columns, dim.as_slice())?)?;
    }
    Ok(bound)
}

fn bound_dim(alloc: Global, columns: &[ColumnText], dim: &[Name]) -> Result<List<u8>, Memory>
    requires { length columns.now ≤ 16 }
    ensures { IfOk result (λ places. places ≡ map (binding.text_place columns.now) dim.now) }
{
    let mut places = List::new(alloc);
    for name in dim {
        places.push(text_place(columns, name))?;
    }
    Ok(places)
}
