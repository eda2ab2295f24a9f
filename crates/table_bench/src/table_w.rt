// The table that is filled: `W (K INTEGER NOT NULL, D INTEGER, R INTEGER, V BIGINT, T CHAR(8), S DATE) ORGANIZE BY (D, (R, T))`.
ghost use Rattle.std.specs.Prelude.{◌≡◌, None, IfOk};
ghost use Rattle.table_bench.specs.TableW.{AreRootsOfW, IsTableW, columns_w, dims_w};

use mdc_ast::{ColumnDef, Name, Roots, TableDef};
use mdc_values::{Chars, ColType, List, Memory};
use std::alloc::Global;

/// The width of the entries of its block map.
pub const MAP_WIDTH: u16 = 7;

/// The width of the entries of its index of all dimensions: the keys of D, R and T, and a block.
pub const COMPOSITE_WIDTH: u16 = 23;

/// The width of the entries of its index of D.
pub const FIRST_WIDTH: u16 = 9;

/// The width of the entries of its index of R and T.
pub const SECOND_WIDTH: u16 = 18;

/// The definition of the table without rows, in place 0, with its trees at these roots.
pub fn table_w(alloc: Global, roots: Roots) -> Result<TableDef, Memory>
    requires { AreRootsOfW roots }
    ensures { IfOk result IsTableW }
{
    Ok(TableDef {
        number: 0,
        name: Name(Chars::of(alloc, b"W")?),
        columns: columns(alloc)?,
        dims: dims(alloc)?,
        indexes: List::new(alloc),
        next: 0,
        roots,
    })
}

// Its columns.
fn columns(alloc: Global) -> Result<List<ColumnDef>, Memory>
    ensures { IfOk result (λ columns. columns ≡ columns_w) }
{
    let mut columns = List::new(alloc);
    columns.push(column(alloc, b"K", ColType::Integer, true)?)?;
    columns.push(column(alloc, b"D", ColType::Integer, false)?)?;
    columns.push(column(alloc, b"R", ColType::Integer, false)?)?;
    columns.push(column(alloc, b"V", ColType::Bigint, false)?)?;
    columns.push(column(alloc, b"T", ColType::Char(8), false)?)?;
    columns.push(column(alloc, b"S", ColType::Date, false)?)?;
    Ok(columns)
}

// A column of this name.
fn column(alloc: Global, name: &[u8], ty: ColType, not_null: bool) -> Result<ColumnDef, Memory>
    ensures { IfOk result (λ column. column ≡ record { name = record { 0 = name.now }; ty = ty; not_null = not_null; made = None }) }
{
    Ok(ColumnDef {
        name: Name(Chars::of(alloc, name)?),
        ty,
        not_null,
        made: None,
    })
}

// Its dimensions: D, and R with T.
fn dims(alloc: Global) -> Result<List<List<u8>>, Memory>
    ensures { IfOk result (λ dims. dims ≡ dims_w) }
{
    let mut first = List::new(alloc);
    first.push(1)?;
    let mut second = List::new(alloc);
    second.push(2)?;
    second.push(4)?;
    let mut dims = List::new(alloc);
    dims.push(first)?;
    dims.push(second)?;
    Ok(dims)
}
