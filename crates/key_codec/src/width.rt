// How many bytes keys have.
ghost use Rattle.std.specs.Prelude.{◌≡◌, ◌<◌, length};
ghost use Rattle.mdc_ast.specs.Definitions.{width};
ghost use Rattle.key_codec.specs.Keys as spec;

use mdc_ast::{ColumnDef, KeyPart};
use mdc_values::{ColType, List};

/// How many bytes a key has at most.
pub const KEY_LIMIT: usize = 128;

/// How many bytes each key of these parts has. They are parts of a definition within the limits.
pub fn key_width(columns: &List<ColumnDef>, parts: &List<KeyPart>) -> u16
    requires { spec.ArePartsOf columns.now parts.now }
    ensures { result ≡ spec.width_of_parts columns.now parts.now }
{
    let mut total = 0;
    for part in parts.as_slice() {
        total += part_width(type_of(columns, part));
    }
    total
}

/// The type of a part's column.
pub(crate) fn type_of(columns: &List<ColumnDef>, part: &KeyPart) -> ColType
    requires { part.now.column < length columns.now }
    ensures { result ≡ spec.type_of_column columns.now part.now.column }
{
    columns.at(part.column as usize).ty
}

/// How many bytes a value of that type has as a part of a key.
pub fn part_width(ty: ColType) -> u16
    ensures { result ≡ spec.part_width ty }
{
    1 + value_width(ty)
}

/// How many bytes a value of that type has behind the byte for null.
fn value_width(ty: ColType) -> u16
    ensures { result ≡ width ty }
{
    match ty {
        ColType::Integer | ColType::Date => 4,
        ColType::Bigint => 8,
        ColType::Char(n) => n as u16,
    }
}
