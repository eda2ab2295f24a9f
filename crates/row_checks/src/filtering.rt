// Which rows qualify.
ghost use Rattle.std.specs.Prelude.{◌≡◌, IsTrue};
ghost use Rattle.mdc_ast.specs.Truth as spec;
ghost use Rattle.row_filter.specs.Filtering.{may_filter};

use mdc_ast::{Pred, Row};
use mdc_values::Truth;
use predicate::truth;

/// Whether a row qualifies: where the predicate is true of it, or where there is none. It takes no memory.
pub fn qualifies(pred: &Option<Pred>, row: &Row) -> bool
    requires { IsTrue (may_filter pred.now row.now.values) }
    ensures { result ≡ spec.qualifies pred.now row.now.values }
{
    match pred {
        Some(pred) => matches!(truth(pred, &row.values), Truth::True),
        None => true,
    }
}
