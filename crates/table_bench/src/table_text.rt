// All lines of a table.
use crate::columns::append_columns;
use crate::keys::{append_dimensions, append_indexes};
use crate::rows::append_rows;
use crate::text::{append, append_name, append_number};
use mdc_ast::TableDef;
use mdc_values::Memory;
use reference_reader::ReadTable;

/// Appends the lines of the table at a place.
pub fn append_table(place: usize, table: &ReadTable, out: &mut Vec<u8>) -> Result<(), Memory> {
    let def = &table.def;
    let columns = def.columns.as_slice();
    append_heading(place, def, out)?;
    append_columns(columns, out)?;
    append_dimensions(columns, def.dims.as_slice(), out)?;
    append_indexes(columns, def.indexes.as_slice(), out)?;
    append_rows(table.rows.as_slice(), out)
}

// Appends `TABLE place NAME NEXT number`.
fn append_heading(place: usize, def: &TableDef, out: &mut Vec<u8>) -> Result<(), Memory> {
    append(b"TABLE ", out)?;
    append_number(place as u64, out)?;
    append(b" ", out)?;
    append_name(&def.name, out)?;
    append(b" NEXT ", out)?;
    append_number(def.next, out)?;
    append(b"\n", out)
}
