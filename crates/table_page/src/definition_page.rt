// The table page of a definition, printed part by part.
ghost use Rattle.std.specs.Prelude.{◌≡◌, ◌≤◌, [], ◌∷◌, drop, length, flat_map};
ghost use Rattle.std.specs.List.{All};
ghost use Rattle.byteorder.specs.Endian.{big_bytes};
ghost use Rattle.mdc_ast.specs.Definitions.{IsShort};
ghost use Rattle.store_api.specs.StoreState.{zero_page};
ghost use Rattle.table_page.specs.Printing.{IsShortIndex, PrintsBytes};
ghost use Rattle.mdc_ast.specs.TableLimits.{IsTableDef};
ghost use Rattle.table_page.specs.TablePage.{head_parts, in_a_row, printed_column, printed_dimension, printed_index, table_page, zero_filled};

use crate::entry_printing::{print_column, print_dimension, print_index};
use crate::layout::{
    COLUMN_BYTES, COLUMNS, COMPOSITE, COUNTS, DIM_BYTES, DIM_ROOTS, DIMS, FILL, INDEX_BYTES,
    INDEXES, MAP, MARK, NAME, NEXT, ROOT_BYTES,
};
use crate::printing::{print_bytes, print_long, print_name, print_short, print_up_to};
use mdc_ast::{ColumnDef, IndexDef, TableDef};
use mdc_values::List;
use store_api::{Page, blank_page};

/// Makes a page of any bytes the table page of a definition within the limits. It takes no memory.
pub fn def_page(def: &TableDef, page: &mut Page)
    requires { IsTableDef def.now.number def.now }
    ensures { page.new ≡ table_page def.now }
{
    print_head(def, page);
    print_roots(def.roots.dims.as_slice(), page);
    print_columns(def.columns.as_slice(), page);
    print_dims(def.dims.as_slice(), page);
    print_indexes(def.indexes.as_slice(), page);
    print_fill(page);
}

/// Prints what stands before the roots of the dimensions.
fn print_head(def: &TableDef, page: &mut Page)
    requires name { IsShort def.now.name }
    requires columns { length def.now.columns ≤ 16 }
    requires dims { length def.now.dims ≤ 4 }
    requires indexes { length def.now.indexes ≤ 8 }
    ensures { PrintsBytes 0 38 (in_a_row (head_parts def.now)) page.old page.new }
{
    print_bytes(page, 0, &[MARK]);
    print_name(page, NAME, &def.name);
    print_counts(def, page);
    print_long(page, NEXT, def.next);
    print_short(page, MAP, def.roots.map);
    print_short(page, COMPOSITE, def.roots.composite);
}

/// Prints how many columns, dimensions and indexes there are.
fn print_counts(def: &TableDef, page: &mut Page)
    requires columns { length def.now.columns ≤ 16 }
    requires dims { length def.now.dims ≤ 4 }
    requires indexes { length def.now.indexes ≤ 8 }
    ensures { PrintsBytes 19 22 (length def.now.columns ∷ length def.now.dims ∷ length def.now.indexes ∷ []) page.old page.new }
{
    let columns = def.columns.len() as u8;
    let dims = def.dims.len() as u8;
    let indexes = def.indexes.len() as u8;
    print_bytes(page, COUNTS, &[columns, dims, indexes]);
}

fn print_roots(roots: &[u32], page: &mut Page)
    requires { length roots.now ≤ 4 }
    ensures { PrintsBytes 38 54 (zero_filled 16 (flat_map (big_bytes 4) roots.now)) page.old page.new }
{
    let mut at = DIM_ROOTS;
    for root in roots {
        print_short(page, at, *root);
        at += ROOT_BYTES;
    }
    print_up_to(page, at, COLUMNS, 0);
}

fn print_columns(columns: &[ColumnDef], page: &mut Page)
    requires few { length columns.now ≤ 16 }
    requires short { All (λ column. IsShort column.name) columns.now }
    ensures { PrintsBytes 54 550 (zero_filled 496 (flat_map printed_column columns.now)) page.old page.new }
{
    let mut at = COLUMNS;
    for column in columns {
        print_column(page, at, column);
        at += COLUMN_BYTES;
    }
    print_up_to(page, at, DIMS, 0);
}

fn print_dims(dims: &[List<u8>], page: &mut Page)
    requires few { length dims.now ≤ 4 }
    requires short { All (λ dim. length dim ≤ 16) dims.now }
    ensures { PrintsBytes 550 618 (zero_filled 68 (flat_map printed_dimension dims.now)) page.old page.new }
{
    let mut at = DIMS;
    for dim in dims {
        print_dimension(page, at, dim.as_slice());
        at += DIM_BYTES;
    }
    print_up_to(page, at, INDEXES, 0);
}

fn print_indexes(indexes: &[IndexDef], page: &mut Page)
    requires few { length indexes.now ≤ 8 }
    requires short { All IsShortIndex indexes.now }
    ensures { PrintsBytes 618 1066 (zero_filled 448 (flat_map printed_index indexes.now)) page.old page.new }
{
    let mut at = INDEXES;
    for index in indexes {
        print_index(page, at, index);
        at += INDEX_BYTES;
    }
    print_up_to(page, at, FILL, 0);
}

/// Prints the zeros that fill a page.
fn print_fill(page: &mut Page)
    ensures { PrintsBytes 1066 4096 (drop 1066 zero_page) page.old page.new }
{
    print_bytes(page, FILL, &blank_page()[FILL..]);
}
