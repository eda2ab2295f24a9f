// Record indexes that come and go.
ghost use Rattle.std.specs.Prelude.{◌≡◌, ◌&&◌, false, map, None, IfOk, IfErr, IsTrue, Ok};
ghost use Rattle.mdc_ast.specs.declared.bound.Bound.TheVariants as bound;
ghost use Rattle.mdc_ast.specs.declared.refusal.Refusal.{Refusal};
ghost use Rattle.mdc_ast.specs.Definitions.{def_at, index_place_of};
ghost use Rattle.statement_meaning.specs.Cause.{DuplicateKey, refusal_of};
ghost use Rattle.statement_meaning.specs.Keys.{have_twins};
ghost use Rattle.store_api.specs.Causes.{fault_of, store_fault_in};
ghost use Rattle.store_api.specs.RunsOverPages.{RunsOverPages};
ghost use Rattle.extent_map.specs.Damages.{IfFull, store_part_of};
ghost use Rattle.mdc_sound.specs.StandingTable.{pages_of};
ghost use Rattle.row_checks.specs.Served.{IsDefined, MayGainIndex, MayLoseIndex};
ghost use Rattle.statement_rows.specs.RowsOfStatement.{AnyPage};
ghost use Rattle.script_engine.specs.Defining.{IsNewIndex};
ghost use Rattle.script_engine.specs.Doing.{DoesStatement, LeavesAll, RunsFullAlone, SaysNoRow};
ghost use Rattle.script_engine.specs.Ready.{AreServed, BreaksDatabase, IsReady, KeepsServed};
ghost use Rattle.script_engine.specs.Replies.{IsDoneAs, IsReplyToBound};
ghost use Rattle.script_engine.specs.Touching.{TouchesForStatement};

use crate::tables::Tables;
use extent_map::SpaceFault;
use index_building as building;
use mdc_ast::{IndexDef, Outcome, Reply};
use mdc_table::Hit;
use mdc_values::Memory;
use row_checks::{duplicate_key, has_duplicates};
use std::alloc::Global;
use store_api::{Pages, StoreFault};
use table_scan::find_rows;

/// A CREATE INDEX. The rows are judged before a page is changed.
pub fn create_index<P: Pages>(
    tables: &mut Tables,
    pages: &mut P,
    table: u8,
    index: IndexDef,
) -> Result<Outcome, SpaceFault>
    requires served { AreServed tables.old.catalog }
    requires there { IsDefined (def_at tables.old.catalog table) (MayGainIndex index) }
    requires free { index_place_of tables.old.catalog index.name ≡ None }
    requires new { IsNewIndex index }
    requires going { (P.state pages.old).ended ≡ false }
    ensures does { IfOk result (λ outcome. IsReady P.Pages pages.old tables.old → DoesStatement P.Pages pages.old pages.new tables.old tables.new (bound.CreateIndex table index) outcome) }
    ensures refused { (refusal : Refusal) → result ≡ Ok (Outcome.Refused refusal) → LeavesAll P.Pages pages.old pages.new tables.old tables.new }
    ensures named { (refusal : Refusal) → result ≡ Ok (Outcome.Refused refusal) → IsTrue index.unique × (refusal ≡ refusal_of (DuplicateKey index.name)) }
    ensures kind { IfOk result (IsDoneAs (IsReplyToBound (bound.CreateIndex table index))) }
    ensures idle { IfOk result (λ outcome. SaysNoRow outcome → LeavesAll P.Pages pages.old pages.new tables.old tables.new) }
    ensures full { IfErr result (λ fault. IfFull fault (λ cap. (cap ≡ tables.old.shape.extents)
        × (IsReady P.Pages pages.old tables.old → RunsFullAlone tables.old.shape (pages_of P.Pages pages.old) tables.old.catalog (bound.CreateIndex table index)))) }
    ensures keeps { KeepsServed result tables.old tables.new }
    ensures touches { TouchesForStatement P.Pages tables.old.shape pages.old pages.new tables.old.catalog tables.old.settings (bound.CreateIndex table index) }
    ensures runs { RunsOverPages P.Pages AnyPage AnyPage (BreaksDatabase P.Pages pages.old tables.old) pages.old pages.new (store_fault_in store_part_of result) }
{
    let alloc = tables.alloc;
    let Some(def) = tables.catalog.def(table) else {
        unreachable!()
    };
    let hits = find_rows(alloc, def, tables.shape, pages, &None)?;
    if is_doubled(alloc, &index, hits.as_slice())? {
        return Ok(Outcome::Refused(duplicate_key(alloc, &index.name)?));
    }
    building::add_index(
        alloc,
        &mut tables.catalog,
        tables.shape,
        &mut tables.notes,
        pages,
        table,
        index,
        hits.as_slice(),
    )?;
    tables.rooms.forget_table(table);
    Ok(Outcome::Done(Reply::Done))
}

/// Whether a record index is UNIQUE, and two of the rows have equal keys in it.
fn is_doubled(alloc: Global, index: &IndexDef, hits: &[Hit]) -> Result<bool, Memory>
    ensures { IfOk result (λ doubled. doubled ≡ (index.now.unique && have_twins index.now.parts (map (λ hit. hit.row.values) hits.now))) }
{
    if !index.unique {
        return Ok(false);
    }
    let mut lent = Vec::with_capacity(alloc, hits.len())?;
    for hit in hits {
        lent.push(hit.row.values.as_slice())?;
    }
    has_duplicates(alloc, index, lent.as_slice())
}

/// A DROP INDEX.
pub fn drop_index<P: Pages>(
    tables: &mut Tables,
    pages: &mut P,
    table: u8,
    index: u8,
) -> Result<Outcome, StoreFault>
    requires served { AreServed tables.old.catalog }
    requires there { IsDefined (def_at tables.old.catalog table) (MayLoseIndex index) }
    requires going { (P.state pages.old).ended ≡ false }
    ensures does { IfOk result (λ outcome. IsReady P.Pages pages.old tables.old → DoesStatement P.Pages pages.old pages.new tables.old tables.new (bound.DropIndex table index) outcome) }
    ensures done { (refusal : Refusal) → result ≡ Ok (Outcome.Refused refusal) → ⊥ }
    ensures kind { IfOk result (IsDoneAs (IsReplyToBound (bound.DropIndex table index))) }
    ensures idle { IfOk result (λ outcome. SaysNoRow outcome → LeavesAll P.Pages pages.old pages.new tables.old tables.new) }
    ensures keeps { KeepsServed result tables.old tables.new }
    ensures touches { TouchesForStatement P.Pages tables.old.shape pages.old pages.new tables.old.catalog tables.old.settings (bound.DropIndex table index) }
    ensures runs { RunsOverPages P.Pages AnyPage AnyPage (BreaksDatabase P.Pages pages.old tables.old) pages.old pages.new (fault_of result) }
{
    building::drop_index(
        tables.alloc,
        &mut tables.catalog,
        tables.shape,
        &mut tables.notes,
        pages,
        table,
        index,
    )?;
    tables.rooms.forget_table(table);
    Ok(Outcome::Done(Reply::Done))
}
