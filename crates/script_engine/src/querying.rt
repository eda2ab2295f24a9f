// The lines of a query.
ghost use Rattle.std.specs.Prelude.{◌≡◌, false, IfOk};
ghost use Rattle.mdc_ast.specs.declared.bound.Bound.TheVariants as bound;
ghost use Rattle.mdc_ast.specs.Definitions.{def_at};
ghost use Rattle.store_api.specs.Causes.{fault_of};
ghost use Rattle.store_api.specs.Frame.{NoPage};
ghost use Rattle.store_api.specs.RunsOverPages.{RunsOverPages};
ghost use Rattle.row_checks.specs.Served.{IsDefined, MayShowRows};
ghost use Rattle.statement_rows.specs.RowsOfStatement.{AnyPage};
ghost use Rattle.script_engine.specs.Doing.{DoesStatement};
ghost use Rattle.script_engine.specs.Fetching.{FetchesForStatement};
ghost use Rattle.script_engine.specs.Ready.{AreServed, BreaksDatabase, IsReady};
ghost use Rattle.script_engine.specs.Replies.{IsDoneAs, IsReplyToBound};

use crate::tables::Tables;
use mdc_ast::{BoundSelect, Outcome, Reply};
use row_checks::overflow;
use store_api::{Pages, StoreFault};
use table_query::{QueryFault, answer};

/// A query over the rows of a table that qualify, which are found by the plan in the mode that is set. Only pages come to hand that
/// finding them so looks at, and no row page where the cells tell how many rows there are and no more is asked.
pub fn query<P: Pages>(
    tables: &Tables,
    pages: &mut P,
    select: &BoundSelect,
) -> Result<Outcome, StoreFault>
    requires served { AreServed tables.now.catalog }
    requires there { IsDefined (def_at tables.now.catalog select.now.table) (MayShowRows select.now.outs select.now.pred) }
    requires going { (P.state pages.old).ended ≡ false }
    ensures does { IfOk result (λ outcome. IsReady P.Pages pages.old tables.now → DoesStatement P.Pages pages.old pages.new tables.now tables.now (bound.Query select.now) outcome) }
    ensures kind { IfOk result (IsDoneAs (IsReplyToBound (bound.Query select.now))) }
    ensures same { (P.state pages.new).work ≡ (P.state pages.old).work }
    ensures fetches { FetchesForStatement P.Pages tables.now.shape pages.old pages.new tables.now.catalog tables.now.settings (bound.Query select.now) }
    ensures runs { RunsOverPages P.Pages NoPage AnyPage (BreaksDatabase P.Pages pages.old tables.now) pages.old pages.new (fault_of result) }
{
    let Some(def) = tables.catalog.def(select.table) else {
        unreachable!()
    };
    match answer(
        tables.alloc,
        def,
        tables.shape,
        pages,
        tables.settings.plan,
        select,
    ) {
        Ok(lines) => Ok(Outcome::Done(Reply::Lines(lines))),
        Err(QueryFault::Overflow(column)) => Ok(Outcome::Refused(overflow(column))),
        Err(QueryFault::Store(fault)) => Err(fault),
    }
}
