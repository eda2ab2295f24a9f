// Which record indexes of a table are meant.
ghost use Rattle.std.specs.Prelude.{◌≡◌, length, map, not, replicate, take, true};
ghost use Rattle.std.specs.Str.{bytes_eq};
ghost use Rattle.key_codec.specs.Keys.{ArePartsOf, key_bytes};
ghost use Rattle.mdc_ast.specs.TableLimits.{IsTableDef};
ghost use Rattle.record_index.specs.RecordIndexes.{HaveKeysIn};
ghost use Rattle.row_entries.specs.ChosenIndexes.{HasRecordKeys, differing_chosen};

use mdc_ast::{ColumnDef, KeyPart, Row, TableDef};
use mdc_values::{List, Value, place};
use std::cmp::Ordering;

/// How many record indexes a table may have.
pub(crate) const MOST_INDEXES: usize = 8;

/// All record indexes of a table.
pub(crate) const ALL_INDEXES: [bool; MOST_INDEXES] = [true; MOST_INDEXES];

/// The record indexes of a table in which two rows have different keys.
pub(crate) fn differing_indexes(def: &TableDef, a: &Row, b: &Row) -> [bool; MOST_INDEXES]
    requires defined { IsTableDef def.now.number def.now }
    requires a { HasRecordKeys def.now a.now.values }
    requires b { HasRecordKeys def.now b.now.values }
    ensures { take (length def.now.indexes) result ≡ differing_chosen def.now a.now b.now }
{
    let mut chosen = [false; MOST_INDEXES];
    for index in 0..def.indexes.len() {
        let parts = &def.indexes.at(index).parts;
        chosen[index] = do_keys_differ(&def.columns, parts, &a.values, &b.values);
    }
    chosen
}

/// Whether rows of these values have different keys in an index of these parts. No key is made for it.
fn do_keys_differ(
    columns: &List<ColumnDef>,
    parts: &List<KeyPart>,
    a: &List<Value>,
    b: &List<Value>,
) -> bool
    requires parts { ArePartsOf columns.now parts.now }
    requires a { HaveKeysIn columns.now parts.now a.now }
    requires b { HaveKeysIn columns.now parts.now b.now }
    ensures { result ≡ not (bytes_eq (key_bytes columns.now parts.now a.now) (key_bytes columns.now parts.now b.now)) }
{
    for part in parts.as_slice() {
        let column = usize::from(part.column);
        if place(a.at(column), b.at(column)) != Ordering::Equal {
            return true;
        }
    }
    false
}
