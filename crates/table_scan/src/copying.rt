// Predicates and cells, copied.
ghost use Rattle.std.specs.Prelude.{◌≡◌, List, IfOk};
ghost use Rattle.mdc_ast.specs.declared.predicate.Pred.{Pred};
ghost use Rattle.mdc_ast.specs.declared.predicate.Pred.TheVariants.{All, Any};

use mdc_ast::{Atom, Cell, Pred, Right, Test};
use mdc_values::{Boxed, List, Memory, Value};
use std::alloc::Global;

/// A copy of a predicate.
pub(crate) fn copy_of(alloc: Global, pred: &Pred) -> Result<Pred, Memory>
    ensures { IfOk result (λ copy. copy ≡ pred.now) }
{
    match pred {
        Pred::Atom(atom) => Ok(Pred::Atom(copy_of_atom(alloc, atom)?)),
        Pred::All(preds) | Pred::Any(preds) => {
            let mut parts = List::new(alloc);
            for part in preds.as_slice() {
                parts.push(copy_of(alloc, part)?)?;
            }
            Ok(joined(pred, parts))
        }
        Pred::Not(pred) => Ok(Pred::Not(Boxed::new(alloc, copy_of(alloc, pred.get())?)?)),
    }
}

/// Parts joined as those of another predicate are.
fn joined(pred: &Pred, parts: List<Pred>) -> Pred
    ensures all { (preds : List Pred) → pred.now ≡ All preds → result ≡ All parts }
    ensures any { (preds : List Pred) → pred.now ≡ Any preds → result ≡ Any parts }
{
    match pred {
        Pred::Any(_) => Pred::Any(parts),
        _ => Pred::All(parts),
    }
}

fn copy_of_atom(alloc: Global, atom: &Atom) -> Result<Atom, Memory>
    ensures { IfOk result (λ copy. copy ≡ atom.now) }
{
    let test = copy_of_test(alloc, &atom.test)?;
    Ok(Atom {
        column: atom.column,
        negated: atom.negated,
        test,
    })
}

fn copy_of_test(alloc: Global, test: &Test) -> Result<Test, Memory>
    ensures { IfOk result (λ copy. copy ≡ test.now) }
{
    match test {
        Test::Compare(op, Right::Value(value)) => {
            Ok(Test::Compare(*op, Right::Value(value.copy(alloc)?)))
        }
        Test::Compare(op, Right::Column(column)) => Ok(Test::Compare(*op, Right::Column(*column))),
        Test::Between(low, high) => Ok(Test::Between(low.copy(alloc)?, high.copy(alloc)?)),
        Test::Within(values) => Ok(Test::Within(copy_of_values(alloc, values.as_slice())?)),
        Test::IsNull => Ok(Test::IsNull),
    }
}

fn copy_of_values(alloc: Global, values: &[Value]) -> Result<List<Value>, Memory>
    ensures { IfOk result (λ copies. copies ≡ values.now) }
{
    let mut copies = List::new(alloc);
    for value in values {
        copies.push(value.copy(alloc)?)?;
    }
    Ok(copies)
}

/// A copy of a cell.
pub(crate) fn copy_of_cell(alloc: Global, cell: &Cell) -> Result<Cell, Memory>
    ensures { IfOk result (λ copy. copy ≡ cell.now) }
{
    Ok(Cell {
        values: copy_of_values(alloc, cell.values.as_slice())?,
    })
}
