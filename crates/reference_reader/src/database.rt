// All tables of a database.
ghost use Rattle.std.specs.Prelude.{◌≡◌, ◌++◌, ◌∷◌, [], false, IsTrue, IfOk, IfErr, OnOk};
ghost use Rattle.mdc_ast.specs.Database.{Database};
ghost use Rattle.store_api.specs.Causes.{fault_of};
ghost use Rattle.store_api.specs.Frame.{NoPage};
ghost use Rattle.store_api.specs.RunsOverPages.{RunsOverPages};
ghost use Rattle.mdc_sound.specs.StandsForDatabase.{PagesStandFor};
ghost use Rattle.reference_reader.specs.ReadPages.{BreaksReading, HaveMapTrees, HaveRowPages, IsPlainPage};
ghost use Rattle.reference_reader.specs.ReadTables.{plain_database};

use crate::{ReadTable, read_table};
use mdc_sound::pages_stand_for_one;
use mdc_values::List;
use std::alloc::Global;
use store_api::layout::TABLE_PLACES;
use store_api::{Pages, Shape, StoreFault};
use table_page::page_is_of_one_definition;

/// The tables of all 16 places. Where the pages are told, they are those of the one database that the pages stand for, and
/// each page of a Used block is a row page: one that isn't is named.
pub fn read_database<P: Pages>(
    alloc: Global,
    shape: Shape,
    pages: &mut P,
) -> Result<List<Option<ReadTable>>, StoreFault>
    requires going { (P.state pages.old).ended ≡ false }
    ensures only { IfOk result (λ tables. IsTrue (P.state pages.old).is_told
        → (db : Database) → PagesStandFor shape (P.state pages.old).work db → plain_database tables ≡ db) }
    ensures stands { IfOk result (λ tables. IsTrue (P.state pages.old).is_told
        → HaveMapTrees (P.state pages.old).work → PagesStandFor shape (P.state pages.old).work (plain_database tables)) }
    ensures judged { OnOk result (IsTrue (P.state pages.old).is_told → HaveRowPages shape (P.state pages.old).work) }
    ensures same { (P.state pages.new).work ≡ (P.state pages.old).work }
    ensures runs { RunsOverPages P.Pages NoPage (IsPlainPage shape (P.state pages.old)) (BreaksReading shape (P.state pages.old)) pages.old pages.new (fault_of result) }
{
    pages_stand_for_one();
    page_is_of_one_definition();
    let mut tables = List::new(alloc);
    for t in 0..TABLE_PLACES {
        let table = read_table(alloc, shape, pages, t)?;
        push_table(&mut tables, table)?;
    }
    Ok(tables)
}

/// Puts what was read of a place last.
fn push_table(
    tables: &mut List<Option<ReadTable>>,
    table: Option<ReadTable>,
) -> Result<(), StoreFault>
    ensures pushed { OnOk result (tables.new ≡ tables.old ++ table ∷ []) }
    ensures memory { IfErr result (λ fault. fault ≡ StoreFault.Memory) }
{
    Ok(tables.push(table)?)
}
