// NOT pushed to the tests of a predicate.
ghost use Rattle.std.specs.Prelude.{◌≡◌, List, IfOk, IsTrue};
ghost use Rattle.mdc_values.specs.declared.value.Value.{Value};
ghost use Rattle.mdc_ast.specs.Truth.{may_judge, truth};
ghost use Rattle.predicate.specs.Pushed.{IsPushedFrom, is_pushed};

use crate::comparing::{joined, test_as_comparisons};
use mdc_ast::Pred;
use mdc_values::{List, Memory};
use std::alloc::Global;

/// The predicate with its NOTs pushed to its tests: comparisons, IS NULL and IS NOT NULL, joined by AND and OR alone.
/// BETWEEN becomes two comparisons joined by AND, IN equalities joined by OR. On each row it has the same truth, and it
/// may be judged on the same rows.
pub fn push_not(alloc: Global, pred: &Pred) -> Result<Pred, Memory>
    ensures form { IfOk result (λ pushed. IsTrue (is_pushed pushed)) }
    ensures truths { IfOk result (λ pushed. (values : List Value) → truth values pushed ≡ truth values pred.now) }
    ensures judged { IfOk result (λ pushed. (values : List Value) → may_judge values pushed ≡ may_judge values pred.now) }
{
    pushed(alloc, pred, false)
}

// The predicate, or its negation.
fn pushed(alloc: Global, pred: &Pred, negated: bool) -> Result<Pred, Memory>
    ensures { IfOk result (λ pushed. IsPushedFrom negated pred.now pushed) }
{
    match pred {
        Pred::Atom(atom) => {
            test_as_comparisons(alloc, atom.column, atom.negated != negated, &atom.test)
        }
        Pred::All(preds) => {
            let mut parts = List::new(alloc);
            for pred in preds.as_slice() {
                parts.push(pushed(alloc, pred, negated)?)?;
            }
            Ok(joined(!negated, parts))
        }
        Pred::Any(preds) => {
            let mut parts = List::new(alloc);
            for pred in preds.as_slice() {
                parts.push(pushed(alloc, pred, negated)?)?;
            }
            Ok(joined(negated, parts))
        }
        Pred::Not(pred) => pushed(alloc, pred.get(), !negated),
    }
}
