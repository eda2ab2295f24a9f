// The plan of a predicate.
ghost use Rattle.std.specs.Prelude.{◌≡◌, ◌<◌, length, IfOk};
ghost use Rattle.plan_chooser.specs.Rule.{cover_under, plan_of};

use crate::joining::{joined, plan_of_cover};
use crate::testing::atom_cover;
use crate::{Cover, Plan};
use mdc_ast::{PlanMode, Pred, TableDef};
use mdc_values::{List, Memory};
use std::alloc::Global;

/// Where the rows of a table are looked for of which a predicate is true, by the plan rule. NOTs are pushed to the tests. A test of a
/// column against literals asks the dimension that has the column, else the earliest record index that begins with it, unless it is
/// `<>`; mode BLOCK takes no record index, and mode RECORD no dimension. Under an AND nothing but what is known counts, and the spans of
/// one column and source are one span; an OR of which one part isn't known isn't known. Where nothing is known, where there is no
/// predicate, and in mode SCAN the plan is a scan. It costs in proportion to the predicate, and under an AND to the number of columns.
pub fn choose(
    alloc: Global,
    def: &TableDef,
    mode: PlanMode,
    pred: &Option<Pred>,
) -> Result<Plan, Memory>
    requires dims { length def.now.dims < 256 }
    requires indexes { length def.now.indexes < 256 }
    ensures { IfOk result (λ plan. plan ≡ plan_of def.now mode pred.now) }
{
    let Some(pred) = pred else {
        return Ok(Plan::Scan);
    };
    if let PlanMode::Scan = mode {
        return Ok(Plan::Scan);
    }
    plan_of_cover(alloc, cover(alloc, def, mode, pred, false)?)
}

/// The cover of a predicate, or of its negation.
fn cover(
    alloc: Global,
    def: &TableDef,
    mode: PlanMode,
    pred: &Pred,
    negated: bool,
) -> Result<Cover, Memory>
    requires dims { length def.now.dims < 256 }
    requires indexes { length def.now.indexes < 256 }
    ensures { IfOk result (λ cover. cover ≡ cover_under def.now mode pred.now negated) }
{
    match pred {
        Pred::Atom(atom) => atom_cover(alloc, def, mode, negated, atom),
        Pred::All(preds) => {
            let mut covers = List::new(alloc);
            for pred in preds.as_slice() {
                covers.push(cover(alloc, def, mode, pred, negated)?)?;
            }
            joined(alloc, !negated, covers)
        }
        Pred::Any(preds) => {
            let mut covers = List::new(alloc);
            for pred in preds.as_slice() {
                covers.push(cover(alloc, def, mode, pred, negated)?)?;
            }
            joined(alloc, negated, covers)
        }
        Pred::Not(pred) => cover(alloc, def, mode, pred.get(), !negated),
    }
}
