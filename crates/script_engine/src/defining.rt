// Tables that come and go.
ghost use Rattle.std.specs.Prelude.{◌≡◌, false, None, IfOk, IfErr, IsSome, Ok};
ghost use Rattle.mdc_ast.specs.declared.bound.Bound.TheVariants as bound;
ghost use Rattle.mdc_ast.specs.declared.refusal.Refusal.{Refusal};
ghost use Rattle.mdc_ast.specs.Definitions.{def_at, empty_place, place_of};
ghost use Rattle.store_api.specs.Causes.{fault_of, store_fault_in};
ghost use Rattle.store_api.specs.RunsOverPages.{RunsOverPages};
ghost use Rattle.extent_map.specs.Damages.{IfFull, store_part_of};
ghost use Rattle.mdc_sound.specs.StandingTable.{pages_of};
ghost use Rattle.statement_rows.specs.RowsOfStatement.{AnyPage};
ghost use Rattle.script_engine.specs.Defining.{IsPlainNewDef};
ghost use Rattle.script_engine.specs.Doing.{DoesStatement, LeavesAll, RunsFullAlone, SaysNoRow};
ghost use Rattle.script_engine.specs.Ready.{AreServed, BreaksDatabase, IsReady, KeepsServed};
ghost use Rattle.script_engine.specs.Replies.{IsDoneAs, IsReplyToBound};
ghost use Rattle.script_engine.specs.Touching.{TouchesForStatement};

use crate::tables::Tables;
use extent_map::SpaceFault;
use mdc_ast::{Outcome, Reply, TableDef};
use store_api::{Pages, StoreFault};
use stored_catalog::{add_table, drop_table};

/// A CREATE TABLE of this definition, in the lowest empty place.
pub fn create<P: Pages>(
    tables: &mut Tables,
    pages: &mut P,
    def: TableDef,
) -> Result<Outcome, SpaceFault>
    requires served { AreServed tables.old.catalog }
    requires room { IsSome (empty_place tables.old.catalog) }
    requires free { place_of tables.old.catalog def.name ≡ None }
    requires plain { IsPlainNewDef def }
    requires going { (P.state pages.old).ended ≡ false }
    ensures does { IfOk result (λ outcome. IsReady P.Pages pages.old tables.old → DoesStatement P.Pages pages.old pages.new tables.old tables.new (bound.CreateTable def) outcome) }
    ensures done { (refusal : Refusal) → result ≡ Ok (Outcome.Refused refusal) → ⊥ }
    ensures kind { IfOk result (IsDoneAs (IsReplyToBound (bound.CreateTable def))) }
    ensures idle { IfOk result (λ outcome. SaysNoRow outcome → LeavesAll P.Pages pages.old pages.new tables.old tables.new) }
    ensures full { IfErr result (λ fault. IfFull fault (λ cap. (cap ≡ tables.old.shape.extents)
        × (IsReady P.Pages pages.old tables.old → RunsFullAlone tables.old.shape (pages_of P.Pages pages.old) tables.old.catalog (bound.CreateTable def)))) }
    ensures keeps { KeepsServed result tables.old tables.new }
    ensures touches { TouchesForStatement P.Pages tables.old.shape pages.old pages.new tables.old.catalog tables.old.settings (bound.CreateTable def) }
    ensures runs { RunsOverPages P.Pages AnyPage AnyPage (BreaksDatabase P.Pages pages.old tables.old) pages.old pages.new (store_fault_in store_part_of result) }
{
    let alloc = tables.alloc;
    let place = add_table(
        alloc,
        &mut tables.catalog,
        tables.shape,
        &mut tables.notes,
        pages,
        def,
    )?;
    // What is noted of a table that was in this place before isn't right for this one.
    tables.rooms.forget_table(place);
    Ok(Outcome::Done(Reply::Done))
}

/// A DROP TABLE.
pub fn remove<P: Pages>(
    tables: &mut Tables,
    pages: &mut P,
    table: u8,
) -> Result<Outcome, StoreFault>
    requires served { AreServed tables.old.catalog }
    requires there { IsSome (def_at tables.old.catalog table) }
    requires going { (P.state pages.old).ended ≡ false }
    ensures does { IfOk result (λ outcome. IsReady P.Pages pages.old tables.old → DoesStatement P.Pages pages.old pages.new tables.old tables.new (bound.DropTable table) outcome) }
    ensures done { (refusal : Refusal) → result ≡ Ok (Outcome.Refused refusal) → ⊥ }
    ensures kind { IfOk result (IsDoneAs (IsReplyToBound (bound.DropTable table))) }
    ensures idle { IfOk result (λ outcome. SaysNoRow outcome → LeavesAll P.Pages pages.old pages.new tables.old tables.new) }
    ensures keeps { KeepsServed result tables.old tables.new }
    ensures touches { TouchesForStatement P.Pages tables.old.shape pages.old pages.new tables.old.catalog tables.old.settings (bound.DropTable table) }
    ensures runs { RunsOverPages P.Pages AnyPage AnyPage (BreaksDatabase P.Pages pages.old tables.old) pages.old pages.new (fault_of result) }
{
    let alloc = tables.alloc;
    drop_table(
        alloc,
        &mut tables.catalog,
        tables.shape,
        &mut tables.notes,
        pages,
        table,
    )?;
    Ok(Outcome::Done(Reply::Done))
}
