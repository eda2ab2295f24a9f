// REORG TABLE with RECLAIM EXTENTS.
ghost use Rattle.std.specs.Prelude.{◌≡◌, false, IfOk, IsSome, Ok};
ghost use Rattle.mdc_ast.specs.declared.bound.Bound.TheVariants as bound;
ghost use Rattle.mdc_ast.specs.declared.refusal.Refusal.{Refusal};
ghost use Rattle.mdc_ast.specs.Definitions.{def_at};
ghost use Rattle.store_api.specs.Causes.{fault_of};
ghost use Rattle.store_api.specs.RunsOverPages.{RunsOverPages};
ghost use Rattle.statement_rows.specs.RowsOfStatement.{AnyPage};
ghost use Rattle.script_engine.specs.Doing.{DoesStatement, LeavesAll, SaysNoRow};
ghost use Rattle.script_engine.specs.Ready.{AreServed, BreaksDatabase, IsReady, KeepsServed};
ghost use Rattle.script_engine.specs.Replies.{IsDoneAs, IsReplyToBound};
ghost use Rattle.script_engine.specs.Touching.{TouchesForStatement};

use crate::tables::Tables;
use mdc_ast::{Outcome, Reply};
use rollout::reclaim;
use store_api::{Pages, StoreFault};

/// Gives the Free blocks of a table back, and no other. The notes of where its rows find room stay right.
pub fn reclaim_blocks<P: Pages>(
    tables: &mut Tables,
    pages: &mut P,
    table: u8,
) -> Result<Outcome, StoreFault>
    requires served { AreServed tables.old.catalog }
    requires there { IsSome (def_at tables.old.catalog table) }
    requires going { (P.state pages.old).ended ≡ false }
    ensures does { IfOk result (λ outcome. IsReady P.Pages pages.old tables.old → DoesStatement P.Pages pages.old pages.new tables.old tables.new (bound.Reclaim table) outcome) }
    ensures done { (refusal : Refusal) → result ≡ Ok (Outcome.Refused refusal) → ⊥ }
    ensures kind { IfOk result (IsDoneAs (IsReplyToBound (bound.Reclaim table))) }
    ensures idle { IfOk result (λ outcome. SaysNoRow outcome → LeavesAll P.Pages pages.old pages.new tables.old tables.new) }
    ensures keeps { KeepsServed result tables.old tables.new }
    ensures touches { TouchesForStatement P.Pages tables.old.shape pages.old pages.new tables.old.catalog tables.old.settings (bound.Reclaim table) }
    ensures runs { RunsOverPages P.Pages AnyPage AnyPage (BreaksDatabase P.Pages pages.old tables.old) pages.old pages.new (fault_of result) }
{
    let Some(def) = tables.catalog.def(table) else {
        unreachable!()
    };
    reclaim(tables.alloc, def, tables.shape, &mut tables.notes, pages)?;
    Ok(Outcome::Done(Reply::Done))
}
