// The rows of an INSERT.
ghost use Rattle.std.specs.Prelude.{◌≡◌, ◌≤◌, ◌-◌, [], List, false, length, Some, None, IfOk, IfErr, IfSome, OnErr, OnOk, Ok};
ghost use Rattle.mdc_ast.specs.declared.bound.Bound.TheVariants as bound;
ghost use Rattle.mdc_ast.specs.declared.definition.TableDef.{TableDef};
ghost use Rattle.mdc_ast.specs.declared.refusal.Refusal.{Refusal};
ghost use Rattle.statement_meaning.specs.Cause.{refusal_of};
ghost use Rattle.statement_meaning.specs.Doing.{used_up};
ghost use Rattle.mdc_ast.specs.Definitions.{def_at, with_def};
ghost use Rattle.mdc_ast.specs.Database.{appended, numbered};
ghost use Rattle.store_api.specs.Causes.{store_fault_in};
ghost use Rattle.store_api.specs.Frame.{NoPage};
ghost use Rattle.store_api.specs.RunsOverPages.{RunsOverPages};
ghost use Rattle.extent_map.specs.Damages.{IfFull, store_part_of};
ghost use Rattle.extent_map.specs.declared.kind.Kind.{Kind};
ghost use Rattle.mdc_sound.specs.Placing.{block_slot_count};
ghost use Rattle.mdc_sound.specs.RunningFull.{InsertRunsFull};
ghost use Rattle.mdc_sound.specs.StandingTable.{TableForests, pages_of};
ghost use Rattle.row_checks.specs.RowChange.{misfit_cause};
ghost use Rattle.row_checks.specs.Served.{IsDefined, MayPut};
ghost use Rattle.statement_rows.specs.RowsAndSpace.{PutsRowsBy};
ghost use Rattle.statement_rows.specs.RowsOfStatement.{AnyPage, ChangesRowsOf, IsReadyBetween};
ghost use Rattle.script_engine.specs.Doing.{DoesStatement, LeavesAll, RunsFullAlone, SaysNoRow};
ghost use Rattle.script_engine.specs.Inserting.{IsSaidFirst, SaysNothing, first_refusal, numbered_on, tuple_causes};
ghost use Rattle.script_engine.specs.NotedRooms.{KeepsOtherRooms, rooms_at};
ghost use Rattle.script_engine.specs.Ready.{AreServed, BreaksDatabase, IsReady, KeepsServed};
ghost use Rattle.script_engine.specs.Replies.{IsDoneAs, IsReplyToBound};

use crate::keys::judge_new;
use crate::tables::Tables;
use extent_map::SpaceFault;
use mdc_ast::{Outcome, Refusal, Reply};
use mdc_values::{List, Value};
use row_checks::{Misfit, first_null_in, numbers_used_up, unfit};
use statement_rows::insert_rows;
use std::alloc::Global;
use store_api::{Pages, StoreFault};
use stored_catalog::save_next;

/// An INSERT of these tuples into a table. All are judged before a row goes in; the next row number is written once.
pub fn insert<P: Pages>(
    tables: &mut Tables,
    pages: &mut P,
    table: u8,
    tuples: List<List<Value>>,
) -> Result<Outcome, SpaceFault>
    requires served { AreServed tables.old.catalog }
    requires there { IsDefined (def_at tables.old.catalog table) (MayPut tuples) }
    requires going { (P.state pages.old).ended ≡ false }
    ensures does { IfOk result (λ outcome. IsReady P.Pages pages.old tables.old → DoesStatement P.Pages pages.old pages.new tables.old tables.new (bound.Insert table tuples) outcome) }
    ensures refused { (refusal : Refusal) → result ≡ Ok (Outcome.Refused refusal) → LeavesAll P.Pages pages.old pages.new tables.old tables.new }
    ensures kind { IfOk result (IsDoneAs (IsReplyToBound (bound.Insert table tuples))) }
    ensures idle { IfOk result (λ outcome. SaysNoRow outcome → LeavesAll P.Pages pages.old pages.new tables.old tables.new) }
    ensures full { IfErr result (λ fault. IfFull fault (λ cap. (cap ≡ tables.old.shape.extents)
        × (IsReady P.Pages pages.old tables.old → RunsFullAlone tables.old.shape (pages_of P.Pages pages.old) tables.old.catalog (bound.Insert table tuples)))) }
    ensures keeps { KeepsServed result tables.old tables.new }
    ensures runs { RunsOverPages P.Pages AnyPage AnyPage (BreaksDatabase P.Pages pages.old tables.old) pages.old pages.new (store_fault_in store_part_of result) }
{
    if let Some(refusal) = judge(tables, pages, table, tuples.as_slice())? {
        return Ok(Outcome::Refused(refusal));
    }
    put(tables, pages, table, tuples)
}

/// Why these tuples may not go into a table, if they may not: nulls, then equal keys, then row numbers. It changes no page.
fn judge<P: Pages>(
    tables: &Tables,
    pages: &mut P,
    table: u8,
    tuples: &[List<Value>],
) -> Result<Option<Refusal>, SpaceFault>
    requires served { AreServed tables.now.catalog }
    requires there { IsDefined (def_at tables.now.catalog table) (MayPut tuples.now) }
    requires going { (P.state pages.old).ended ≡ false }
    ensures judges { IfOk result (λ refusal. IsSaidFirst P.Pages pages.old tables.now (bound.Insert table tuples.now) refusal) }
    ensures unsaid { IfOk result (λ refusal. refusal ≡ None → IfSome (def_at tables.now.catalog table) (λ def. tuple_causes def tuples.now ≡ [])) }
    ensures same { (P.state pages.new).work ≡ (P.state pages.old).work }
    ensures not_full { IfErr result (λ fault. IfFull fault (λ cap. ⊥)) }
    ensures runs { RunsOverPages P.Pages NoPage AnyPage (BreaksDatabase P.Pages pages.old tables.now) pages.old pages.new (store_fault_in store_part_of result) }
{
    let Some(def) = tables.catalog.def(table) else {
        unreachable!()
    };
    if let Some(misfit) = first_null_in(def.columns.as_slice(), tuples) {
        return null_there(tables.alloc, misfit);
    }
    if let Some(refusal) = judge_new(tables.alloc, def, pages, tuples)? {
        return Ok(Some(refusal));
    }
    Ok(judge_numbers(tables.alloc, def.next, tuples.len() as u64))
}

/// The refusal of a tuple with a null where none may be.
fn null_there(alloc: Global, misfit: Misfit<'_>) -> Result<Option<Refusal>, SpaceFault>
    ensures said { IfOk result (λ refusal. refusal ≡ Some (refusal_of (misfit_cause misfit.entry))) }
    ensures memory { IfErr result (λ fault. fault ≡ SpaceFault.Store StoreFault.Memory) }
{
    Ok(Some(unfit(alloc, misfit)?))
}

/// The refusal of so many tuples, where there are too few row numbers left.
fn judge_numbers(alloc: Global, next: u64, count: u64) -> Option<Refusal>
    ensures { result ≡ first_refusal (used_up next count) }
{
    if next.checked_add(count).is_none() {
        return Some(numbers_used_up(alloc, next));
    }
    None
}

/// Puts tuples against which nothing is said into a table, and writes its next row number.
fn put<P: Pages>(
    tables: &mut Tables,
    pages: &mut P,
    table: u8,
    tuples: List<List<Value>>,
) -> Result<Outcome, SpaceFault>
    requires served { AreServed tables.old.catalog }
    requires there { IsDefined (def_at tables.old.catalog table) (MayPut tuples) }
    requires unsaid { IfSome (def_at tables.old.catalog table) (λ def. tuple_causes def tuples ≡ []) }
    requires silent { SaysNothing P.Pages pages.old tables.old (bound.Insert table tuples) }
    requires going { (P.state pages.old).ended ≡ false }
    ensures does { IfOk result (λ outcome. IsReady P.Pages pages.old tables.old → DoesStatement P.Pages pages.old pages.new tables.old tables.new (bound.Insert table tuples) outcome) }
    ensures done { (refusal : Refusal) → result ≡ Ok (Outcome.Refused refusal) → ⊥ }
    ensures kind { IfOk result (IsDoneAs (IsReplyToBound (bound.Insert table tuples))) }
    ensures idle { IfOk result (λ outcome. SaysNoRow outcome → LeavesAll P.Pages pages.old pages.new tables.old tables.new) }
    ensures full { IfErr result (λ fault. IfFull fault (λ cap. (cap ≡ tables.old.shape.extents)
        × (IsReady P.Pages pages.old tables.old → RunsFullAlone tables.old.shape (pages_of P.Pages pages.old) tables.old.catalog (bound.Insert table tuples)))) }
    ensures keeps { KeepsServed result tables.old tables.new }
    ensures runs { RunsOverPages P.Pages AnyPage AnyPage (BreaksDatabase P.Pages pages.old tables.old) pages.old pages.new (store_fault_in store_part_of result) }
{
    let count = tuples.len() as u64;
    put_rows(tables, pages, table, tuples)?;
    match save_next(&tables.catalog, pages, table) {
        Ok(()) => Ok(Outcome::Done(Reply::Inserted(count))),
        Err(fault) => {
            number_back(tables, table, count);
            Err(SpaceFault::Store(fault))
        }
    }
}

/// Puts the rows, and leaves the table's page to be written. The definition is taken out meanwhile, and put back whatever came.
fn put_rows<P: Pages>(
    tables: &mut Tables,
    pages: &mut P,
    table: u8,
    tuples: List<List<Value>>,
) -> Result<(), SpaceFault>
    requires served { AreServed tables.old.catalog }
    requires there { IsDefined (def_at tables.old.catalog table) (MayPut tuples) }
    requires unsaid { IfSome (def_at tables.old.catalog table) (λ def. tuple_causes def tuples ≡ []) }
    requires going { (P.state pages.old).ended ≡ false }
    ensures inserts { (def : TableDef) → def_at tables.old.catalog table ≡ Some def
        → OnOk result ((owners : List Kind) (forests : TableForests) → IsReadyBetween P.Pages tables.old.shape tables.old.notes (rooms_at tables.old.rooms table) pages.old def owners forests
        → ChangesRowsOf P.Pages tables.old.shape tables.old.notes tables.new.notes (rooms_at tables.new.rooms table) pages.old pages.new def (numbered_on def (length tuples)) owners forests
        (λ was space is. PutsRowsBy def (block_slot_count tables.old.shape def) was (numbered def.next tuples) space is) (appended tuples)) }
    ensures numbers { (def : TableDef) → def_at tables.old.catalog table ≡ Some def
        → OnOk result (tables.new.catalog ≡ with_def tables.old.catalog table (numbered_on def (length tuples))) }
    ensures kept { OnErr result (tables.new.catalog ≡ tables.old.catalog) }
    ensures rooms { KeepsOtherRooms tables.old.rooms tables.new.rooms table }
    ensures full { (def : TableDef) → def_at tables.old.catalog table ≡ Some def → IfErr result (λ fault. IfFull fault (λ cap. (cap ≡ tables.old.shape.extents)
        × ((owners : List Kind) (forests : TableForests) → IsReadyBetween P.Pages tables.old.shape tables.old.notes (rooms_at tables.old.rooms table) pages.old def owners forests
        → InsertRunsFull tables.old.shape (pages_of P.Pages pages.old) def (numbered def.next tuples)))) }
    ensures shape { tables.new.shape ≡ tables.old.shape }
    ensures settings { tables.new.settings ≡ tables.old.settings }
    ensures runs { RunsOverPages P.Pages AnyPage AnyPage (BreaksDatabase P.Pages pages.old tables.old) pages.old pages.new (store_fault_in store_part_of result) }
{
    let Some(mut def) = tables.catalog.take(table) else {
        unreachable!()
    };
    let rooms = &mut tables.rooms.by_table[table as usize];
    let result = insert_rows(
        tables.alloc,
        &mut def,
        tables.shape,
        &mut tables.notes,
        rooms,
        pages,
        tuples,
    );
    tables.catalog.put(table, def);
    result
}

/// Takes so many row numbers back from a table, whose page wasn't written.
fn number_back(tables: &mut Tables, table: u8, count: u64)
    requires served { AreServed tables.old.catalog }
    requires there { IsDefined (def_at tables.old.catalog table) (λ def. count ≤ def.next) }
    ensures same { tables.new ≡ record tables.old { catalog = tables.new.catalog } }
    ensures numbers { (def : TableDef) → def_at tables.old.catalog table ≡ Some def
        → tables.new.catalog ≡ with_def tables.old.catalog table (record def { next = def.next - count }) }
{
    let Some(mut def) = tables.catalog.take(table) else {
        unreachable!()
    };
    def.next -= count;
    tables.catalog.put(table, def);
}
