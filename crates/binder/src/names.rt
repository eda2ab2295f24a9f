// Names of columns and where they stand.
ghost use Rattle.std.specs.Prelude.{◌≡◌, ◌<◌, ◌≤◌, is_some, length, IfOk, IfSome};
ghost use Rattle.std.specs.Option.{option_copied};
ghost use Rattle.statement_meaning.specs.Binding as binding;
ghost use Rattle.mdc_ast.specs.Definitions as spec;
ghost use Rattle.statement_meaning.specs.Judging.{used_name};
ghost use Rattle.binder.specs.Saying.{first_of, said_by};

use crate::objection::Objection;
use mdc_ast::{ColumnDef, Name};
use mdc_values::{Chars, ColType, Memory};
use std::alloc::Global;

/// Whether two names are the same.
pub fn is_same(left: &Name, right: &Name) -> bool
    ensures { result ≡ spec.is_same left.now right.now }
{
    left.0.bytes() == right.0.bytes()
}

/// A copy of a name.
pub fn copy_of(alloc: Global, name: &Name) -> Result<Name, Memory>
    ensures { IfOk result (λ copy. copy ≡ name.now) }
{
    Ok(Name(Chars::of(alloc, name.0.bytes())?))
}

/// The place of the column of that name.
pub fn column_place(columns: &[ColumnDef], name: &Name) -> Option<usize>
    ensures place { result ≡ spec.column_place columns.now name.now }
    ensures there { IfSome result (λ place. place < length columns.now) }
{
    columns
        .iter()
        .position(|column| is_same(&column.name, name))
}

/// The column of that name.
pub fn column_named<'a>(columns: &'a [ColumnDef], name: &Name) -> Option<&'a ColumnDef>
    ensures { option_copied result ≡ spec.column_named columns.now name.now }
{
    let place = column_place(columns, name)?;
    Some(&columns[place])
}

/// Whether there is a column of that name.
pub fn has_column(columns: &[ColumnDef], name: &Name) -> bool
    ensures { result ≡ is_some (spec.column_named columns.now name.now) }
{
    column_named(columns, name).is_some()
}

/// Judges the name of a column that is used.
pub fn judge_used<'a>(columns: &[ColumnDef], name: &'a Name) -> Result<(), Objection<'a>>
    ensures { first_of (used_name columns.now name.now) ≡ said_by result }
{
    if has_column(columns, name) {
        Ok(())
    } else {
        Err(Objection::NoColumn(name))
    }
}

/// The place of a column that is there.
pub fn the_place(columns: &[ColumnDef], name: &Name) -> u8
    requires { length columns.now ≤ 16 }
    ensures { result ≡ binding.the_place columns.now name.now }
{
    match column_place(columns, name) {
        Some(place) => place as u8,
        None => 0,
    }
}

/// The type of a column that is there.
pub fn the_type(columns: &[ColumnDef], name: &Name) -> ColType
    ensures { result ≡ binding.the_type columns.now name.now }
{
    match column_named(columns, name) {
        Some(column) => column.ty,
        None => ColType::Bigint,
    }
}
