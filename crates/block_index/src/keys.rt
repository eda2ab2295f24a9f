// The values of a cell as bytes of a key.
ghost use Rattle.std.specs.Prelude.{◌≡◌, ◌+◌, ◌≤◌, ◌++◌, drop, length, take, IfErr, IfOk, OnOk};
ghost use Rattle.key_codec.specs.Keys.{ArePartsOf, key_bytes};
ghost use Rattle.table_trees.specs.RowCells.{cell_places};
ghost use Rattle.table_trees.specs.TableTrees.{cell_parts, rising_parts};
ghost use Rattle.block_index.specs.Cells.{FitPlaces, FitsCell, HaveKeys, key_of_values};

use key_codec::{KEY_LIMIT, part_width, push_key_part, put_part};
use mdc_ast::{Cell, ColumnDef, TableDef};
use mdc_values::{List, Value};
use std::alloc::Global;
use store_api::StoreFault;

/// The key of the cell of a row: that of its values in all dimension columns. It makes no list of these values.
pub fn cell_key(alloc: Global, def: &TableDef, values: &List<Value>) -> Result<Vec<u8>, StoreFault>
    requires parts { ArePartsOf def.now.columns (cell_parts def.now) }
    requires values { HaveKeys def.now.columns (cell_places def.now) values.now }
    ensures key { IfOk result (λ key. key.items ≡ key_bytes def.now.columns (cell_parts def.now) values.now) }
    ensures memory { IfErr result (λ fault. fault ≡ StoreFault.Memory) }
{
    let mut key = [0; KEY_LIMIT];
    let mut end = 0;
    for dim in def.dims.as_slice() {
        end = put_row_key(&mut key, end, &def.columns, dim, values);
    }
    Ok(Vec::from_slice(alloc, &key[..end])?)
}

/// Writes the key of a row in the columns in some places from a place in `out` on. Answers where it ends.
fn put_row_key(
    out: &mut [u8],
    start: usize,
    columns: &List<ColumnDef>,
    places: &List<u8>,
    values: &List<Value>,
) -> usize
    requires parts { ArePartsOf columns.now (rising_parts places.now) }
    requires values { HaveKeys columns.now places.now values.now }
    requires room { start + length (key_bytes columns.now (rising_parts places.now) values.now) ≤ length out.old }
    ensures key { take result out.new ≡ take start out.old ++ key_bytes columns.now (rising_parts places.now) values.now }
    ensures end { result ≡ start + length (key_bytes columns.now (rising_parts places.now) values.now) }
{
    let mut end = start;
    for place in places.as_slice() {
        let place = usize::from(*place);
        let ty = columns.at(place).ty;
        put_part(&mut out[end..], ty, false, values.at(place));
        end += usize::from(part_width(ty));
    }
    end
}

/// The key of a cell: that of all dimension columns.
pub(crate) fn key_of_cell(alloc: Global, def: &TableDef, cell: &Cell) -> Result<Vec<u8>, StoreFault>
    requires parts { ArePartsOf def.now.columns (cell_parts def.now) }
    requires cell { FitsCell def.now cell.now.values }
    ensures key { IfOk result (λ key. key.items ≡ key_of_values def.now.columns (cell_places def.now) cell.now.values) }
    ensures memory { IfErr result (λ fault. fault ≡ StoreFault.Memory) }
{
    let mut key = Vec::new(alloc);
    let mut values = cell.values.as_slice();
    for dim in def.dims.as_slice() {
        values = push_key(&mut key, &def.columns, dim, values)?;
    }
    Ok(key)
}

/// Puts the key of the columns in some places last, whose values are the first of these. Lends the values behind them.
pub(crate) fn push_key<'v>(
    key: &mut Vec<u8>,
    columns: &List<ColumnDef>,
    places: &List<u8>,
    values: &'v [Value],
) -> Result<&'v [Value], StoreFault>
    requires parts { ArePartsOf columns.now (rising_parts places.now) }
    requires enough { length places.now ≤ length values.now }
    requires values { FitPlaces columns.now places.now values.now }
    ensures key { OnOk result (key.new.items ≡ key.old.items ++ key_of_values columns.now places.now values.now) }
    ensures rest { IfOk result (λ rest. rest.now ≡ drop (length places.now) values.now) }
    ensures memory { IfErr result (λ fault. fault ≡ StoreFault.Memory) }
{
    for i in 0..places.len() {
        let ty = columns.at(*places.at(i) as usize).ty;
        push_key_part(key, ty, false, &values[i])?;
    }
    Ok(&values[places.len()..])
}
