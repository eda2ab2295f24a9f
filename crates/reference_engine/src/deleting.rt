// The rows of a DELETE.
ghost use Rattle.std.specs.Prelude.{◌≡◌, length, filter, not, IsTrue};
ghost use Rattle.mdc_ast.specs.declared.bound.Bound.TheVariants as bound;
ghost use Rattle.mdc_ast.specs.Database.{table_at};
ghost use Rattle.mdc_ast.specs.Truth as spec;
ghost use Rattle.row_checks.specs.Executing.{IsThere, MayFilter, answer_of, done};
ghost use Rattle.row_checks.specs.Filtering.{are_filterable};

use crate::tables::Tables;
use mdc_ast::{Outcome, Pred, Reply, Row};
use row_checks::qualifies;

/// A DELETE. It takes no memory.
pub fn delete(table: u8, pred: &Option<Pred>, tables: &mut Tables) -> Outcome
    requires { IsThere (table_at tables.old table) (MayFilter pred.now) }
    ensures { done tables.old (bound.Delete table pred.now) ≡ (tables.new, answer_of result) }
{
    let mut rows = tables.take_rows(table);
    let count = delete_rows(pred, &mut rows);
    tables.put_rows(table, rows);
    Outcome::Done(Reply::Deleted(count))
}

// Takes the rows that qualify out, and tells their number. The others move up in their order. It takes no memory.
fn delete_rows(pred: &Option<Pred>, rows: &mut Vec<Row>) -> u64
    requires { IsTrue (are_filterable pred.now rows.old.items) }
    ensures left { rows.new.items ≡ filter (λ row. not (spec.qualifies pred.now row.values)) rows.old.items }
    ensures count { result ≡ length (filter (λ row. spec.qualifies pred.now row.values) rows.old.items) }
{
    let total = rows.len();
    let mut kept = 0;
    for i in 0..total {
        if !qualifies(pred, &rows[i]) {
            rows.swap(kept, i);
            kept += 1;
        }
    }
    rows.truncate(kept);
    (total - kept) as u64
}
