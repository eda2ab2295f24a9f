// The columns that a query names.
ghost use Rattle.std.specs.Prelude.{◌≡◌, ◌==◌, IfOk};
ghost use Rattle.std.specs.List.{list_any};
ghost use Rattle.row_groups.specs.Shape.{shape_of};
ghost use Rattle.table_query.specs.Named as spec;

use mdc_ast::{BoundOut, BoundSelect, KeyPart};
use mdc_values::Memory;
use std::alloc::Global;

/// Those of the first so many columns that the list, GROUP BY or ORDER BY name, each once.
pub(crate) fn named_columns(
    alloc: Global,
    select: &BoundSelect,
    width: u8,
) -> Result<Vec<u8>, Memory>
    ensures { IfOk result (λ columns. columns.items ≡ spec.named_columns (shape_of select.now) width) }
{
    let mut columns = Vec::new(alloc);
    for column in 0..width {
        if is_named(select, column) {
            columns.push(column)?;
        }
    }
    Ok(columns)
}

/// Whether the list, GROUP BY or ORDER BY names a column.
fn is_named(select: &BoundSelect, column: u8) -> bool
    ensures { result ≡ spec.is_named (shape_of select.now) column }
{
    shows(select.outs.as_slice(), column)
        || groups_by(select.group.as_slice(), column)
        || sorts_by(select.order.as_slice(), column)
}

/// Whether an entry of the list names a column.
fn shows(outs: &[BoundOut], column: u8) -> bool
    ensures { result ≡ list_any (spec.shows_column column) outs.now }
{
    outs.iter().any(|out| shows_column(*out, column))
}

fn shows_column(out: BoundOut, column: u8) -> bool
    ensures { result ≡ spec.shows_column column out }
{
    match out {
        BoundOut::CountAll => false,
        BoundOut::Column(other)
        | BoundOut::Count(other)
        | BoundOut::Sum(other)
        | BoundOut::Min(other)
        | BoundOut::Max(other) => other == column,
    }
}

/// Whether GROUP BY names a column.
fn groups_by(columns: &[u8], column: u8) -> bool
    ensures { result ≡ list_any (λ other. other == column) columns.now }
{
    columns.iter().any(|other| *other == column)
}

/// Whether ORDER BY names a column.
fn sorts_by(parts: &[KeyPart], column: u8) -> bool
    ensures { result ≡ list_any (λ part. part.column == column) parts.now }
{
    parts.iter().any(|part| part.column == column)
}
