// Row numbers and keys of rows, as rows give them.
ghost use Rattle.std.specs.Prelude.{◌≡◌, ◌++◌, ◌<◌, List, map, IfErr, IfOk, OnOk};
ghost use Rattle.mdc_ast.specs.declared.row.Row.{Row};
ghost use Rattle.key_codec.specs.Keys.{ArePartsOf, key_bytes};
ghost use Rattle.block_rows.specs.HeldRows.{HasReadValues, HaveReadValues, placed_row};
ghost use Rattle.mdc_sound.specs.TableRows.{PlacedRow};
ghost use Rattle.file_check.specs.KeysJudged.{AreKeysOf, AreNumbersOf};

use block_rows::Hit;
use key_codec::push_key_part;
use mdc_ast::{ColumnDef, KeyPart, Row};
use mdc_values::List;
use std::alloc::Global;
use store_api::StoreFault;

/// Puts the numbers of some rows last.
pub(crate) fn push_numbers(rows: &[Hit], numbers: &mut Vec<u64>) -> Result<(), StoreFault>
    ensures pushed { OnOk result ((done : List PlacedRow) → AreNumbersOf numbers.old.items done → AreNumbersOf numbers.new.items (done ++ map placed_row rows.now)) }
    ensures memory { IfErr result (λ fault. fault ≡ StoreFault.Memory) }
{
    for hit in rows {
        numbers.push(hit.row.number)?;
    }
    Ok(())
}

/// Puts the keys of some rows last.
pub(crate) fn push_keys(
    alloc: Global,
    columns: &List<ColumnDef>,
    parts: &List<KeyPart>,
    rows: &[Hit],
    keys: &mut Vec<Vec<u8>>,
) -> Result<(), StoreFault>
    requires parts { ArePartsOf columns.now parts.now }
    requires keyed { HaveReadValues columns.now rows.now }
    ensures pushed { OnOk result ((done : List PlacedRow) → AreKeysOf columns.now parts.now (map (λ key. key.items) keys.old.items) done
        → AreKeysOf columns.now parts.now (map (λ key. key.items) keys.new.items) (done ++ map placed_row rows.now)) }
    ensures memory { IfErr result (λ fault. fault ≡ StoreFault.Memory) }
{
    for hit in rows {
        let key = key_of_row(alloc, columns, parts, &hit.row)?;
        keys.push(key)?;
    }
    Ok(())
}

/// The key of a row that was read. Its values need not fit their columns.
fn key_of_row(
    alloc: Global,
    columns: &List<ColumnDef>,
    parts: &List<KeyPart>,
    row: &Row,
) -> Result<Vec<u8>, StoreFault>
    requires parts { ArePartsOf columns.now parts.now }
    requires keyed { HasReadValues columns.now row.now }
    ensures key { IfOk result (λ key. key.items ≡ key_bytes columns.now parts.now row.now.values) }
    ensures memory { IfErr result (λ fault. fault ≡ StoreFault.Memory) }
{
    let mut key = Vec::new(alloc);
    for part in parts.as_slice() {
        let place = usize::from(part.column);
        let ty = columns.at(place).ty;
        push_key_part(&mut key, ty, part.descending, row.values.at(place))?;
    }
    Ok(key)
}
