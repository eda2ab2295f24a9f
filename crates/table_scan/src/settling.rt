// What is left of a predicate to be judged on rows in whose cells it may hold.
ghost use Rattle.std.specs.Prelude.{◌≡◌, ◌↔◌, Contains, Some, true, false, IfOk, IsTrue};
ghost use Rattle.cell_filter.specs.Cells.{is_against_literals};
ghost use Rattle.table_trees.specs.RowCells.{cell_places};
ghost use Rattle.table_scan.specs.Settled.{AreLeftOf, HasOpenTest, IsLeftOf, IsSettled};

use crate::copying::copy_of;
use mdc_ast::{Pred, Right, TableDef, Test};
use mdc_values::{List, Memory};
use std::alloc::Global;

/// What is left of a predicate to be judged on a row in whose cell it may hold: nothing if the row's cell settles it, and else the
/// predicate without those parts of an outermost AND that the cell settles.
pub fn unsettled(alloc: Global, def: &TableDef, pred: &Option<Pred>) -> Result<Option<Pred>, Memory>
    ensures { IfOk result (IsLeftOf def.now pred.now) }
{
    match pred {
        Some(pred) => unsettled_part(alloc, def, pred),
        None => Ok(None),
    }
}

fn unsettled_part(alloc: Global, def: &TableDef, pred: &Pred) -> Result<Option<Pred>, Memory>
    ensures { IfOk result (IsLeftOf def.now (Some pred.now)) }
{
    if is_settled(pred, def) {
        return Ok(None);
    }
    match pred {
        Pred::All(parts) => Ok(Some(Pred::All(unsettled_parts(alloc, def, parts.as_slice())?))),
        _ => Ok(Some(copy_of(alloc, pred)?)),
    }
}

fn unsettled_parts(alloc: Global, def: &TableDef, parts: &[Pred]) -> Result<List<Pred>, Memory>
    ensures { IfOk result (AreLeftOf def.now parts.now) }
{
    let mut left = List::new(alloc);
    for part in parts {
        if is_settled(part, def) {
            continue;
        }
        left.push(copy_of(alloc, part)?)?;
    }
    Ok(left)
}

/// Whether each test of a predicate is of a dimension column and names no other, so that all rows of a cell have one truth.
pub(crate) fn is_settled(pred: &Pred, def: &TableDef) -> bool
    ensures settled { result ≡ true → IsSettled def.now pred.now }
    ensures open { result ≡ false → HasOpenTest def.now pred.now }
{
    match pred {
        Pred::Atom(atom) => is_against_literals(&atom.test) && is_of_cells(def, atom.column),
        Pred::All(preds) | Pred::Any(preds) => {
            for pred in preds.as_slice() {
                if !is_settled(pred, def) {
                    return false;
                }
            }
            true
        }
        Pred::Not(pred) => is_settled(pred.get(), def),
    }
}

fn is_against_literals(test: &Test) -> bool
    ensures { result ≡ is_against_literals test.now }
{
    !matches!(test, Test::Compare(_, Right::Column(_)))
}

/// Whether a column is a dimension column.
fn is_of_cells(def: &TableDef, column: u8) -> bool
    ensures { IsTrue result ↔ Contains (cell_places def.now) column }
{
    for dim in def.dims.as_slice() {
        if has_place(dim.as_slice(), column) {
            return true;
        }
    }
    false
}

fn has_place(places: &[u8], column: u8) -> bool
    ensures { IsTrue result ↔ Contains places.now column }
{
    for place in places {
        if *place == column {
            return true;
        }
    }
    false
}
