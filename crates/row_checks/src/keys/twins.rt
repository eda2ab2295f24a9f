// Whether two rows have equal keys.
ghost use Rattle.std.specs.Prelude.{◌≡◌, ◌&&◌, map, flat_map, option_map, IfOk};
ghost use Rattle.mdc_ast.specs.Definitions.{places_of};
ghost use Rattle.statement_meaning.specs.Cause.{DuplicateKey};
ghost use Rattle.statement_meaning.specs.Doing.{twin_causes};
ghost use Rattle.statement_meaning.specs.Keys as spec;
ghost use Rattle.binder.specs.Saying.{first_of};

use crate::keys::seen_keys::SeenKeys;
use mdc_ast::{IndexDef, KeyPart, Name};
use mdc_values::{Memory, Value};
use std::alloc::Global;

/// The first UNIQUE index, of these, in which two of the rows have equal keys, where a null equals a null.
pub fn first_duplicate<'d>(
    alloc: Global,
    indexes: &'d [IndexDef],
    rows: &[&[Value]],
) -> Result<Option<&'d Name>, Memory>
    ensures { IfOk result (λ found. first_of (flat_map (twin_causes (map (λ row. row.now) rows.now)) indexes.now)
        ≡ option_map (λ name. DuplicateKey name.now) found) }
{
    for index in indexes {
        if has_duplicates(alloc, index, rows)? {
            return Ok(Some(&index.name));
        }
    }
    Ok(None)
}

/// Whether a record index is UNIQUE, and two of the rows have equal keys in it.
pub fn has_duplicates(alloc: Global, index: &IndexDef, rows: &[&[Value]]) -> Result<bool, Memory>
    ensures { IfOk result (λ found. found ≡ (index.now.unique && spec.have_twins index.now.parts (map (λ row. row.now) rows.now))) }
{
    if !index.unique {
        return Ok(false);
    }
    have_twins(alloc, index.parts.as_slice(), rows)
}

/// Whether two of the rows have equal keys in these parts. Beside it a look-up of each row in the index tells whether one of them
/// has the key of a row that isn't among them.
pub fn have_twins(alloc: Global, parts: &[KeyPart], rows: &[&[Value]]) -> Result<bool, Memory>
    ensures { IfOk result (λ found. found ≡ spec.have_twins parts.now (map (λ row. row.now) rows.now)) }
{
    let columns = columns_of(alloc, parts)?;
    let mut seen = SeenKeys::new(alloc);
    for row in rows {
        if !seen.add(columns.as_slice(), row)? {
            return Ok(true);
        }
    }
    Ok(false)
}

// The columns of the parts, by their places.
fn columns_of(alloc: Global, parts: &[KeyPart]) -> Result<Vec<u8>, Memory>
    ensures { IfOk result (λ columns. columns.items ≡ places_of parts.now) }
{
    let mut columns = Vec::with_capacity(alloc, parts.len())?;
    for part in parts {
        columns.push(part.column)?;
    }
    Ok(columns)
}
