// What a page is read as, whatever it holds. Each list is as long as is stated, but no longer than it may be.
ghost use Rattle.std.specs.Prelude.{◌≡◌, ◌*◌, IfOk, length, min};
ghost use Rattle.byteorder.specs.Endian.{big_number};
ghost use Rattle.table_page.specs.ReadingBack.{column_in_page, definition_in_page, dimension_in_page, entries_in_page, index_in_page, roots_in_page};

use crate::entry_reading::{read_column, read_dimension, read_index, read_name};
use crate::layout::{
    COLUMN_BYTES, COLUMNS, COMPOSITE, COUNTS, DIM_BYTES, DIM_ROOTS, DIMS, FILL, INDEX_BYTES,
    INDEXES, MAP, MOST_COLUMNS, MOST_DIMS, MOST_INDEXES, NAME, NAME_BYTES, NEXT, ROOT_BYTES, part,
};
use byteorder::{BigEndian, ByteOrder};
use mdc_ast::{ColumnDef, IndexDef, Roots, TableDef};
use mdc_values::{List, Memory};
use std::alloc::Global;

/// Reads a page as the definition of a table.
#[tactic(auto, unfolding(crate::specs::ReadingBack::definition_in_page))]
pub fn read_definition(alloc: Global, page: &[u8], table: u8) -> Result<TableDef, Memory>
    requires { length page.now ≡ 4096 }
    ensures { IfOk result (λ def. def ≡ definition_in_page table page.now) }
{
    let name = read_name(alloc, part(page, NAME, NAME_BYTES))?;
    let columns = read_columns(alloc, part(page, COLUMNS, DIMS - COLUMNS), page[COUNTS])?;
    let dims = read_dims(alloc, part(page, DIMS, INDEXES - DIMS), page[COUNTS + 1])?;
    let indexes = read_indexes(alloc, part(page, INDEXES, FILL - INDEXES), page[COUNTS + 2])?;
    let roots = read_roots(alloc, page)?;
    Ok(TableDef {
        number: table,
        name,
        columns,
        dims,
        indexes,
        next: BigEndian::read_u64(part(page, NEXT, 8)),
        roots,
    })
}

/// Reads as many columns as are stated.
fn read_columns(alloc: Global, bytes: &[u8], stated: u8) -> Result<List<ColumnDef>, Memory>
    requires { length bytes.now ≡ 496 }
    ensures { IfOk result (λ columns. columns ≡ entries_in_page column_in_page 31 16 stated bytes.now) }
{
    let mut columns = List::new(alloc);
    for i in 0..usize::from(stated).min(MOST_COLUMNS) {
        let column = read_column(alloc, part(bytes, COLUMN_BYTES * i, COLUMN_BYTES))?;
        columns.push(column)?;
    }
    Ok(columns)
}

/// Reads as many dimensions as are stated.
fn read_dims(alloc: Global, bytes: &[u8], stated: u8) -> Result<List<List<u8>>, Memory>
    requires { length bytes.now ≡ 68 }
    ensures { IfOk result (λ dims. dims ≡ entries_in_page dimension_in_page 17 4 stated bytes.now) }
{
    let mut dims = List::new(alloc);
    for i in 0..usize::from(stated).min(MOST_DIMS) {
        let dim = read_dimension(alloc, part(bytes, DIM_BYTES * i, DIM_BYTES))?;
        dims.push(dim)?;
    }
    Ok(dims)
}

/// Reads as many indexes as are stated.
fn read_indexes(alloc: Global, bytes: &[u8], stated: u8) -> Result<List<IndexDef>, Memory>
    requires { length bytes.now ≡ 448 }
    ensures { IfOk result (λ indexes. indexes ≡ entries_in_page index_in_page 56 8 stated bytes.now) }
{
    let mut indexes = List::new(alloc);
    for i in 0..usize::from(stated).min(MOST_INDEXES) {
        let index = read_index(alloc, part(bytes, INDEX_BYTES * i, INDEX_BYTES))?;
        indexes.push(index)?;
    }
    Ok(indexes)
}

/// Reads the roots of the trees that are no record indexes.
fn read_roots(alloc: Global, page: &[u8]) -> Result<Roots, Memory>
    requires { length page.now ≡ 4096 }
    ensures { IfOk result (λ roots. roots ≡ roots_in_page page.now) }
{
    let dims = read_dim_roots(
        alloc,
        part(page, DIM_ROOTS, COLUMNS - DIM_ROOTS),
        page[COUNTS + 1],
    )?;
    Ok(Roots {
        map: BigEndian::read_u32(part(page, MAP, ROOT_BYTES)),
        composite: BigEndian::read_u32(part(page, COMPOSITE, ROOT_BYTES)),
        dims,
    })
}

/// Reads a root for each dimension that is stated.
fn read_dim_roots(alloc: Global, bytes: &[u8], stated: u8) -> Result<List<u32>, Memory>
    requires { length bytes.now ≡ 16 }
    ensures { IfOk result (λ roots. roots ≡ entries_in_page (big_number 4) 4 4 stated bytes.now) }
{
    let mut roots = List::new(alloc);
    for i in 0..usize::from(stated).min(MOST_DIMS) {
        let root = BigEndian::read_u32(part(bytes, ROOT_BYTES * i, ROOT_BYTES));
        roots.push(root)?;
    }
    Ok(roots)
}
