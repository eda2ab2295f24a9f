// Words and numbers of a line.
use itoa::Buffer;
use mdc_ast::{ColumnDef, Name};
use mdc_values::Memory;

/// Appends bytes.
pub fn append(bytes: &[u8], out: &mut Vec<u8>) -> Result<(), Memory> {
    out.extend_from_slice(bytes)?;
    Ok(())
}

/// Appends a number.
pub fn append_number(number: u64, out: &mut Vec<u8>) -> Result<(), Memory> {
    append(Buffer::new().format(number).as_bytes(), out)
}

/// Appends a number that may be below zero.
pub fn append_signed(number: i64, out: &mut Vec<u8>) -> Result<(), Memory> {
    append(Buffer::new().format(number).as_bytes(), out)
}

/// Appends a name.
pub fn append_name(name: &Name, out: &mut Vec<u8>) -> Result<(), Memory> {
    append(name.0.bytes(), out)
}

/// Appends the name of a column, or `?` where there is no such column.
pub fn append_column_name(
    columns: &[ColumnDef],
    place: u8,
    out: &mut Vec<u8>,
) -> Result<(), Memory> {
    match columns.get(place as usize) {
        Some(column) => append_name(&column.name, out),
        None => append(b"?", out),
    }
}
