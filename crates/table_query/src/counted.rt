// Lines from the number of the rows alone.
ghost use Rattle.std.specs.Prelude.{◌≡◌, [], List, length, IsTrue, IfErr, IfSome, OnOk};
ghost use Rattle.std.specs.List.{list_all};
ghost use Rattle.mdc_ast.specs.declared.row.Row.{Row};
ghost use Rattle.row_groups.specs.Gathering.{AreGroupsOf};
ghost use Rattle.row_groups.specs.Lines.{shares_lines};
ghost use Rattle.row_groups.specs.Shape.{Shape, shape_of};
ghost use Rattle.answer_text.specs.Lines.{are_outs_within};
ghost use Rattle.table_query.specs.Counted as spec;
ghost use Rattle.table_query.specs.Counted.{is_count_all, rows_counted};
ghost use Rattle.table_query.specs.QueryAnswers.{AnswersQuery, store_part_of};

use crate::fault::QueryFault;
use answer_text::QueryLines;
use mdc_ast::{BoundOut, BoundSelect, TableDef};
use mdc_values::{Chars, Memory, Value};
use row_groups::Groups;
use std::alloc::Global;
use store_api::StoreFault;

/// Whether a query shows how many rows there are, and nothing else of them: COUNT(*), without GROUP BY and ORDER BY.
pub(crate) fn counts_rows_alone(select: &BoundSelect) -> bool
    ensures { result ≡ spec.counts_rows_alone (shape_of select.now) }
{
    are_counts(select.outs.as_slice())
        && select.group.as_slice().is_empty()
        && select.order.as_slice().is_empty()
}

fn are_counts(outs: &[BoundOut]) -> bool
    ensures { result ≡ list_all is_count_all outs.now }
{
    outs.iter().all(|out| matches!(out, BoundOut::CountAll))
}

/// The answer to such a query where so many rows qualify.
pub(crate) fn answer_from_count(
    alloc: Global,
    def: &TableDef,
    select: &BoundSelect,
    count: u64,
) -> Result<Chars, QueryFault>
    requires shown { IsTrue (are_outs_within (length def.now.columns) select.now.outs) }
    requires shares { IsTrue (shares_lines (shape_of select.now)) }
    requires counts { IsTrue (spec.counts_rows_alone (shape_of select.now)) }
    ensures answers { (rows : List Row) → length rows ≡ count → AnswersQuery def.now.columns select.now rows result }
    ensures memory { IfErr result (λ fault. IfSome (store_part_of fault) (λ store. store ≡ StoreFault.Memory)) }
{
    let lines = QueryLines::new(alloc, select, &def.columns)?;
    let QueryLines::Grouped(columns, names, mut groups) = lines else {
        unreachable!()
    };
    add_rows(alloc, count, &mut groups)?;
    Ok(QueryLines::Grouped(columns, names, groups).close(alloc)?)
}

/// Adds so many rows without values to none.
fn add_rows(alloc: Global, count: u64, groups: &mut Groups<'_>) -> Result<(), Memory>
    requires { IsTrue (shares_lines groups.old.shape) }
    ensures { (shape : Shape) → AreGroupsOf shape [] groups.old → OnOk result (AreGroupsOf shape (rows_counted count) groups.new) }
{
    if count == 0 {
        return Ok(());
    }
    let no_values: Vec<Value> = Vec::new(alloc);
    groups.add_alike(alloc, 0, count, no_values.as_slice())
}
