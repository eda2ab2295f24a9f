// Whether rows would have equal keys.
ghost use Rattle.std.specs.Prelude.{◌≡◌, ◌++◌, ◌&&◌, map, flat_map, option_map, IfOk, OnOk};
ghost use Rattle.row_groups.specs.Numbers.{values_of};
ghost use Rattle.statement_meaning.specs.Cause.{DuplicateKey};
ghost use Rattle.statement_meaning.specs.Doing.{twin_causes};
ghost use Rattle.statement_meaning.specs.Keys as spec;
ghost use Rattle.binder.specs.Saying.{first_of};

use mdc_ast::{IndexDef, Name, Row};
use mdc_values::{List, Memory, Value};
use row_checks::{first_duplicate, has_duplicates};
use std::alloc::Global;

/// The first UNIQUE index, of these, in which two of the rows and of the tuples behind them have equal keys.
pub fn first_clash<'d>(
    alloc: Global,
    indexes: &'d [IndexDef],
    rows: &[Row],
    tuples: &[List<Value>],
) -> Result<Option<&'d Name>, Memory>
    ensures { IfOk result (λ found. first_of (flat_map (twin_causes (values_of rows.now ++ tuples.now)) indexes.now)
        ≡ option_map (λ name. DuplicateKey name.now) found) }
{
    let mut lent = Vec::with_capacity(alloc, rows.len())?;
    lend_rows(rows, &mut lent)?;
    for tuple in tuples {
        lent.push(tuple.as_slice())?;
    }
    first_duplicate(alloc, indexes, lent.as_slice())
}

/// Whether a record index is UNIQUE, and two of the rows have equal keys in it.
pub fn clashes(alloc: Global, index: &IndexDef, rows: &[Row]) -> Result<bool, Memory>
    ensures { IfOk result (λ found. found ≡ (index.now.unique && spec.have_twins index.now.parts (values_of rows.now))) }
{
    let mut lent = Vec::with_capacity(alloc, rows.len())?;
    lend_rows(rows, &mut lent)?;
    has_duplicates(alloc, index, lent.as_slice())
}

// Puts the values of each row last.
fn lend_rows<'r>(rows: &'r [Row], lent: &mut Vec<&'r [Value]>) -> Result<(), Memory>
    ensures { OnOk result (map (λ row. row.now) lent.new.items ≡ map (λ row. row.now) lent.old.items ++ values_of rows.now) }
{
    for row in rows {
        lent.push(row.values.as_slice())?;
    }
    Ok(())
}
