// Whether an UPDATE sets a column of a UNIQUE index.
ghost use Rattle.std.specs.Prelude.{◌≡◌};
ghost use Rattle.script_engine.specs.SetKeys as spec;

use mdc_ast::{BoundSet, IndexDef, KeyPart};

/// Whether a column of a UNIQUE index is set.
pub(crate) fn sets_unique(indexes: &[IndexDef], sets: &[BoundSet]) -> bool
    ensures { result ≡ spec.sets_unique sets.now indexes.now }
{
    for index in indexes {
        if !index.unique {
            continue;
        }
        if sets_key(index.parts.as_slice(), sets) {
            return true;
        }
    }
    false
}

/// Whether a column of a key is set.
fn sets_key(parts: &[KeyPart], sets: &[BoundSet]) -> bool
    ensures { result ≡ spec.sets_key sets.now parts.now }
{
    for part in parts {
        if is_set(sets, part.column) {
            return true;
        }
    }
    false
}

/// Whether a column is set.
fn is_set(sets: &[BoundSet], column: u8) -> bool
    ensures { result ≡ spec.is_set sets.now column }
{
    for set in sets {
        if set.column == column {
            return true;
        }
    }
    false
}
