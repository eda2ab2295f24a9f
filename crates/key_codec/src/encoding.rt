// The key of a row.
ghost use Rattle.std.specs.Prelude.{◌≡◌, ◌≤◌, ◌++◌, IfOk, IsTrue, drop, length};
ghost use Rattle.mdc_ast.specs.Database.{fits_all};
ghost use Rattle.key_codec.specs.Keys.{ArePartsOf, key_bytes, width_of_parts};

use crate::Key;
use crate::part::put_part;
use crate::width::{key_width, part_width, type_of};
use mdc_ast::{ColumnDef, KeyPart};
use mdc_values::{List, Memory, Value};
use std::alloc::Global;

/// The key of a row that fits its columns. It takes the memory of the key and no other.
pub fn key_of(
    alloc: Global,
    values: &List<Value>,
    columns: &List<ColumnDef>,
    parts: &List<KeyPart>,
) -> Result<Key, Memory>
    requires parts { ArePartsOf columns.now parts.now }
    requires fits { IsTrue (fits_all columns.now values.now) }
    ensures bytes { IfOk result (λ key. key ≡ key_bytes columns.now parts.now values.now) }
    ensures width { IfOk result (λ key. length key ≡ width_of_parts columns.now parts.now) }
{
    let mut bytes = vec![in alloc; 0; key_width(columns, parts) as usize]?;
    put_key(&mut bytes, values, columns, parts);
    Ok(Key::from_vec(bytes))
}

/// Writes the key of a row that fits its columns to the front of `out`. The bytes behind it stay.
pub fn put_key(
    out: &mut [u8],
    values: &List<Value>,
    columns: &List<ColumnDef>,
    parts: &List<KeyPart>,
)
    requires parts { ArePartsOf columns.now parts.now }
    requires fits { IsTrue (fits_all columns.now values.now) }
    requires room { width_of_parts columns.now parts.now ≤ length out.old }
    ensures bytes { out.new ≡ key_bytes columns.now parts.now values.now ++ drop (width_of_parts columns.now parts.now) out.old }
    ensures width { length (key_bytes columns.now parts.now values.now) ≡ width_of_parts columns.now parts.now }
{
    let mut at = 0;
    for part in parts.as_slice() {
        let ty = type_of(columns, part);
        put_part(
            &mut out[at..],
            ty,
            part.descending,
            values.at(part.column as usize),
        );
        at += part_width(ty) as usize;
    }
}
