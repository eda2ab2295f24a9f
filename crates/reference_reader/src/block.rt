// The rows of a block, and of one of its pages.
ghost use Rattle.std.specs.Prelude.{◌≡◌, ◌<◌, ◌++◌, map, false, IsTrue, OnOk};
ghost use Rattle.store_api.specs.Causes.{fault_of};
ghost use Rattle.store_api.specs.Frame.{NoPage, OnlyPage};
ghost use Rattle.store_api.specs.RunsOverPages.{RunsOverPages};
ghost use Rattle.store_api.specs.StoreState.{page_at};
ghost use Rattle.row_page.specs.Row.{AreRowColumns};
ghost use Rattle.row_page.specs.RowPage.{IsRowPage, rows_of, slot_count};
ghost use Rattle.mdc_sound.specs.TableRows.{rows_in_block};
ghost use Rattle.reference_reader.specs.ReadPages.{BreaksBlock, BreaksRowPage, HasRowPages, IsInBlock};
ghost use Rattle.reference_reader.specs.ReadTables.{rows_in_slots};

use crate::page::bring_page;
use extent_map::first_page;
use mdc_ast::{Row, TableDef};
use mdc_values::Memory;
use row_page::{RowPageView, capacity};
use std::alloc::Global;
use store_api::rules::ROW_PAGES_RULE;
use store_api::{Damage, Pages, Shape, StoreFault};

/// Puts copies of the rows of a block last, by rising slot.
pub fn rows_of_block<P: Pages>(
    alloc: Global,
    shape: Shape,
    pages: &mut P,
    def: &TableDef,
    block: u32,
    rows: &mut Vec<Row>,
) -> Result<(), StoreFault>
    requires columns { AreRowColumns def.now.columns }
    requires below { block < shape.extents }
    requires going { (P.state pages.old).ended ≡ false }
    ensures rows { OnOk result (IsTrue (P.state pages.old).is_told
        → rows.new.items ≡ rows.old.items ++ map (λ placed. placed.row) (rows_in_block shape (P.state pages.old).work def.now block)) }
    ensures judged { OnOk result (IsTrue (P.state pages.old).is_told → HasRowPages shape (P.state pages.old).work def.now block) }
    ensures same { (P.state pages.new).work ≡ (P.state pages.old).work }
    ensures runs { RunsOverPages P.Pages NoPage (IsInBlock shape block) (BreaksBlock shape (P.state pages.old) def.now block) pages.old pages.new (fault_of result) }
{
    let first = first_page(shape, block);
    for place in 0..shape.extent_pages {
        rows_of_page(alloc, pages, def, first + place, rows)?;
    }
    Ok(())
}

/// Puts copies of the rows of a page last, by rising slot. The whole page is judged for it.
fn rows_of_page<P: Pages>(
    alloc: Global,
    pages: &mut P,
    def: &TableDef,
    p: u32,
    rows: &mut Vec<Row>,
) -> Result<(), StoreFault>
    requires columns { AreRowColumns def.now.columns }
    requires going { (P.state pages.old).ended ≡ false }
    ensures rows { OnOk result (IsTrue (P.state pages.old).is_told
        → rows.new.items ≡ rows.old.items ++ rows_in_slots (rows_of def.now.columns (page_at (P.state pages.old).work p))) }
    ensures judged { OnOk result (IsTrue (P.state pages.old).is_told → IsRowPage def.now.columns (page_at (P.state pages.old).work p) (rows_of def.now.columns (page_at (P.state pages.old).work p))) }
    ensures same { (P.state pages.new).work ≡ (P.state pages.old).work }
    ensures runs { RunsOverPages P.Pages NoPage (OnlyPage p) (BreaksRowPage (P.state pages.old) def.now p) pages.old pages.new (fault_of result) }
{
    let no_row_page = Damage {
        page: p,
        rule: ROW_PAGES_RULE,
    };
    bring_page(pages, no_row_page)?;
    let slots = capacity(&def.columns);
    let Some(view) = RowPageView::read(pages.page(), &def.columns) else {
        return Err(StoreFault::Damaged(no_row_page));
    };
    match push_rows(alloc, &view, slots, rows) {
        Ok(()) => Ok(()),
        Err(_) => Err(StoreFault::Memory),
    }
}

/// Puts copies of the rows in the slots of a page last.
fn push_rows(
    alloc: Global,
    view: &RowPageView<'_>,
    slots: u16,
    rows: &mut Vec<Row>,
) -> Result<(), Memory>
    requires { slots ≡ slot_count view.now.columns.now }
    ensures { OnOk result (rows.new.items ≡ rows.old.items ++ rows_in_slots (rows_of view.now.columns.now view.now.page.now)) }
{
    for slot in 0..slots {
        let Some(row) = view.row(slot) else {
            continue;
        };
        rows.push(row.to_row(alloc)?)?;
    }
    Ok(())
}
