// The dimensions and the record indexes of a table.
use crate::text::{append, append_column_name, append_name};
use mdc_ast::{ColumnDef, IndexDef, KeyPart};
use mdc_values::{List, Memory};

/// Appends a line `DIMENSION name ..` for each dimension.
pub fn append_dimensions(
    columns: &[ColumnDef],
    dims: &[List<u8>],
    out: &mut Vec<u8>,
) -> Result<(), Memory> {
    for dim in dims {
        append_dimension(columns, dim.as_slice(), out)?;
    }
    Ok(())
}

fn append_dimension(columns: &[ColumnDef], places: &[u8], out: &mut Vec<u8>) -> Result<(), Memory> {
    append(b"DIMENSION", out)?;
    for place in places {
        append(b" ", out)?;
        append_column_name(columns, *place, out)?;
    }
    append(b"\n", out)
}

/// Appends a line for each record index.
pub fn append_indexes(
    columns: &[ColumnDef],
    indexes: &[IndexDef],
    out: &mut Vec<u8>,
) -> Result<(), Memory> {
    for index in indexes {
        append_index(columns, index, out)?;
    }
    Ok(())
}

// Appends `INDEX name [UNIQUE] name ASC|DESC, ..`.
fn append_index(columns: &[ColumnDef], index: &IndexDef, out: &mut Vec<u8>) -> Result<(), Memory> {
    append(b"INDEX ", out)?;
    append_name(&index.name, out)?;
    append(b" ", out)?;
    if index.unique {
        append(b"UNIQUE ", out)?;
    }
    append_parts(columns, index.parts.as_slice(), out)?;
    append(b"\n", out)
}

fn append_parts(columns: &[ColumnDef], parts: &[KeyPart], out: &mut Vec<u8>) -> Result<(), Memory> {
    let Some((first, others)) = parts.split_first() else {
        return Ok(());
    };
    append_part(columns, *first, out)?;
    for part in others {
        append(b", ", out)?;
        append_part(columns, *part, out)?;
    }
    Ok(())
}

fn append_part(columns: &[ColumnDef], part: KeyPart, out: &mut Vec<u8>) -> Result<(), Memory> {
    append_column_name(columns, part.column, out)?;
    if part.descending {
        append(b" DESC", out)
    } else {
        append(b" ASC", out)
    }
}
