// Whether a DELETE is done by rollout.
ghost use Rattle.std.specs.Prelude.{◌≡◌, ◌==◌, ◌&&◌};
ghost use Rattle.std.specs.List.{list_any};
ghost use Rattle.rollout.specs.Applying.{applies_to, compares_with_dimension, is_dimension, names_dimensions};

use mdc_ast::{Atom, Pred, Right, TableDef, Test};

/// Whether a DELETE of these rows takes out whole blocks: there is no predicate, or each column that it names is a dimension column,
/// so that all rows of a block qualify or none does. The mode, which may forbid it, is for the caller to look at.
pub fn applies(pred: &Option<Pred>, def: &TableDef) -> bool
    ensures { result ≡ applies_to pred.now def.now }
{
    match pred {
        Some(pred) => names_dimensions(pred, def),
        None => true,
    }
}

/// Whether each column that a predicate names is a dimension column.
fn names_dimensions(pred: &Pred, def: &TableDef) -> bool
    ensures { result ≡ names_dimensions def.now pred.now }
{
    match pred {
        Pred::Atom(atom) => tests_dimensions(atom, def),
        Pred::All(preds) | Pred::Any(preds) => {
            for pred in preds.as_slice() {
                if !names_dimensions(pred, def) {
                    return false;
                }
            }
            true
        }
        Pred::Not(pred) => names_dimensions(pred.get(), def),
    }
}

/// Whether a test is of a dimension column, and compares with no column that isn't one.
fn tests_dimensions(atom: &Atom, def: &TableDef) -> bool
    ensures { result ≡ (is_dimension def.now atom.now.column && compares_with_dimension def.now atom.now.test) }
{
    is_dimension(def, atom.column) && compares_with_dimension(&atom.test, def)
}

/// Whether the column that a test compares with is a dimension column, if it compares with one.
fn compares_with_dimension(test: &Test, def: &TableDef) -> bool
    ensures { result ≡ compares_with_dimension def.now test.now }
{
    match test {
        Test::Compare(_, Right::Column(column)) => is_dimension(def, *column),
        Test::Compare(_, Right::Value(_)) | Test::Between(_, _) | Test::Within(_) | Test::IsNull =>
            true,
    }
}

/// Whether a dimension has the column.
fn is_dimension(def: &TableDef, column: u8) -> bool
    ensures { result ≡ is_dimension def.now column }
{
    for dim in def.dims.as_slice() {
        if has_place(dim.as_slice(), column) {
            return true;
        }
    }
    false
}

/// Whether a place is among these.
fn has_place(places: &[u8], column: u8) -> bool
    ensures { result ≡ list_any (λ place. place == column) places.now }
{
    for place in places {
        if *place == column {
            return true;
        }
    }
    false
}
