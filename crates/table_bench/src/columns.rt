// The columns of a table.
use crate::text::{append, append_column_name, append_name, append_number, append_signed};
use mdc_ast::{ColumnDef, GenExpr, GenKind};
use mdc_values::{ColType, Memory};

/// Appends a line for each column.
pub fn append_columns(columns: &[ColumnDef], out: &mut Vec<u8>) -> Result<(), Memory> {
    for column in columns {
        append_column(columns, column, out)?;
    }
    Ok(())
}

// Appends `COLUMN name type [NOT NULL] [GENERATED expression]`.
fn append_column(
    columns: &[ColumnDef],
    column: &ColumnDef,
    out: &mut Vec<u8>,
) -> Result<(), Memory> {
    append(b"COLUMN ", out)?;
    append_name(&column.name, out)?;
    append(b" ", out)?;
    append_type(column.ty, out)?;
    if column.not_null {
        append(b" NOT NULL", out)?;
    }
    if let Some(expression) = column.made {
        append(b" GENERATED ", out)?;
        append_expression(columns, expression, out)?;
    }
    append(b"\n", out)
}

fn append_type(ty: ColType, out: &mut Vec<u8>) -> Result<(), Memory> {
    match ty {
        ColType::Integer => append(b"INTEGER", out),
        ColType::Bigint => append(b"BIGINT", out),
        ColType::Char(length) => {
            append(b"CHAR(", out)?;
            append_number(u64::from(length), out)?;
            append(b")", out)
        }
        ColType::Date => append(b"DATE", out),
    }
}

// Appends what a column is made from: `INTEGER(d)/k`, `YEAR(d)`, `MONTH(d)`, `c/k` or `c+k`.
fn append_expression(
    columns: &[ColumnDef],
    expression: GenExpr,
    out: &mut Vec<u8>,
) -> Result<(), Memory> {
    match expression.kind {
        GenKind::IntegerOver => append_call(b"INTEGER(", columns, expression.base, out)?,
        GenKind::Year => append_call(b"YEAR(", columns, expression.base, out)?,
        GenKind::Month => append_call(b"MONTH(", columns, expression.base, out)?,
        GenKind::Over | GenKind::Plus => append_column_name(columns, expression.base, out)?,
    }
    match expression.kind {
        GenKind::IntegerOver | GenKind::Over => append_behind(b"/", expression.k, out),
        GenKind::Plus => append_behind(b"+", expression.k, out),
        GenKind::Year | GenKind::Month => Ok(()),
    }
}

// Appends a function of a column.
fn append_call(
    function: &[u8],
    columns: &[ColumnDef],
    base: u8,
    out: &mut Vec<u8>,
) -> Result<(), Memory> {
    append(function, out)?;
    append_column_name(columns, base, out)?;
    append(b")", out)
}

// Appends an operator and the number behind it.
fn append_behind(operator: &[u8], k: i64, out: &mut Vec<u8>) -> Result<(), Memory> {
    append(operator, out)?;
    append_signed(k, out)
}
