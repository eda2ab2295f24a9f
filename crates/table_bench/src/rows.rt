// The rows of a table.
use crate::text::{append, append_number};
use mdc_ast::Row;
use mdc_values::{Memory, Value, print};

/// Appends a line `ROW number: v|v|..` for each row, and `n ROWS`.
pub fn append_rows(rows: &[Row], out: &mut Vec<u8>) -> Result<(), Memory> {
    for row in rows {
        append_row(row, out)?;
    }
    append_number(rows.len() as u64, out)?;
    append(b" ROWS\n", out)
}

fn append_row(row: &Row, out: &mut Vec<u8>) -> Result<(), Memory> {
    append(b"ROW ", out)?;
    append_number(row.number, out)?;
    append(b": ", out)?;
    append_values(row.values.as_slice(), out)?;
    append(b"\n", out)
}

fn append_values(values: &[Value], out: &mut Vec<u8>) -> Result<(), Memory> {
    let Some((first, others)) = values.split_first() else {
        return Ok(());
    };
    print(first, out)?;
    for value in others {
        append(b"|", out)?;
        print(value, out)?;
    }
    Ok(())
}
