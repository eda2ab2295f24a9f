// How many bytes the keys of a table's block indexes have.
ghost use Rattle.std.specs.Prelude.{◌≡◌};
ghost use Rattle.key_codec.specs.Keys.{ArePartsOf, width_of_parts};
ghost use Rattle.table_trees.specs.TableTrees.{cell_parts, rising_parts};

use key_codec::part_width;
use mdc_ast::{ColumnDef, TableDef};
use mdc_values::List;

/// How many bytes each key of the columns in these places has.
pub fn places_width(columns: &List<ColumnDef>, places: &List<u8>) -> u16
    requires { ArePartsOf columns.now (rising_parts places.now) }
    ensures { result ≡ width_of_parts columns.now (rising_parts places.now) }
{
    let mut total = 0;
    for place in places.as_slice() {
        total += part_width(columns.at(*place as usize).ty);
    }
    total
}

/// How many bytes each key of a cell has: that of all dimension columns.
pub fn cell_width(def: &TableDef) -> u16
    requires { ArePartsOf def.now.columns (cell_parts def.now) }
    ensures { result ≡ width_of_parts def.now.columns (cell_parts def.now) }
{
    let mut total = 0;
    for dim in def.dims.as_slice() {
        total += places_width(&def.columns, dim);
    }
    total
}
