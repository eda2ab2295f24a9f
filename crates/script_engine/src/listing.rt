// The blocks of a table, which LIST BLOCKS tells.
ghost use Rattle.std.specs.Prelude.{◌≡◌, false, IfOk, None, Some};
ghost use Rattle.mdc_ast.specs.declared.definition.TableDef.{TableDef};
ghost use Rattle.statement_meaning.specs.Cause.{NoTable, refusal_of};
ghost use Rattle.mdc_ast.specs.Definitions.{def_named};
ghost use Rattle.store_api.specs.Causes.{fault_of};
ghost use Rattle.store_api.specs.Frame.{NoPage};
ghost use Rattle.store_api.specs.RunsOverPages.{RunsOverPages};
ghost use Rattle.mdc_sound.specs.StandingTable.{pages_of};
ghost use Rattle.statement_rows.specs.RowsOfStatement.{AnyPage};
ghost use Rattle.script_engine.specs.Fetching.{FetchesForListing};
ghost use Rattle.script_engine.specs.Listing.{TellsBlocks, blocks_told};
ghost use Rattle.script_engine.specs.Ready.{AreServed, BreaksDatabase, IsReady};
ghost use Rattle.script_engine.specs.Replies.{IsDoneAs, IsLines};
ghost use Rattle.script_engine.specs.Roles.{Lists};

use crate::tables::Tables;
use answer_text::blocks_line;
use mdc_ast::{Name, Outcome, Reply};
use mdc_table::{Account, account_of};
use mdc_values::Memory;
use row_checks::no_table;
use std::alloc::Global;
use store_api::{Pages, StoreFault};

/// Tells how many blocks the table of that name has in each state, if there is one. Of pages only those of its block map come to hand.
pub(crate) fn list<P: Pages>(
    tables: &Tables,
    pages: &mut P,
    name: &Name,
) -> Result<Outcome, StoreFault>
    requires served { AreServed tables.now.catalog }
    requires going { (P.state pages.old).ended ≡ false }
    ensures absent { def_named tables.now.catalog name.now ≡ None → IfOk result (λ outcome. outcome ≡ Outcome.Refused (refusal_of (NoTable name.now))) }
    ensures tells { (def : TableDef) → def_named tables.now.catalog name.now ≡ Some def → IfOk result (λ outcome. IsReady P.Pages pages.old tables.now → TellsBlocks (pages_of P.Pages pages.old) def outcome) }
    ensures lines { IfOk result (IsDoneAs IsLines) }
    ensures same { (P.state pages.new).work ≡ (P.state pages.old).work }
    ensures fetches { FetchesForListing P.Pages pages.old pages.new tables.now.catalog (Lists name.now) }
    ensures runs { RunsOverPages P.Pages NoPage AnyPage (BreaksDatabase P.Pages pages.old tables.now) pages.old pages.new (fault_of result) }
{
    let Some(def) = tables.catalog.table(name) else {
        return match no_table(tables.alloc, name) {
            Ok(refusal) => Ok(Outcome::Refused(refusal)),
            Err(_) => Err(StoreFault::Memory),
        };
    };
    let account = account_of(tables.alloc, def, tables.shape, pages)?;
    match told(tables.alloc, account) {
        Ok(outcome) => Ok(outcome),
        Err(_) => Err(StoreFault::Memory),
    }
}

/// What is said of so many blocks in each state.
fn told(alloc: Global, account: Account) -> Result<Outcome, Memory>
    ensures { IfOk result (λ outcome. outcome ≡ blocks_told account.used account.free account.pending) }
{
    let line = blocks_line(alloc, account.used, account.free, account.pending)?;
    Ok(Outcome::Done(Reply::Lines(line)))
}
