// Rule 7: the row pages.
ghost use Rattle.std.specs.Prelude.{◌≡◌, ◌<◌, false, IfOk, IsTrue};
ghost use Rattle.store_api.specs.Causes.{NoDamage, fault_of};
ghost use Rattle.store_api.specs.Frame.{NoPage};
ghost use Rattle.store_api.specs.RunsOverPages.{RunsOverPages};
ghost use Rattle.store_api.specs.StoreState.{page_at};
ghost use Rattle.entry_tree.specs.Forest.{Forest};
ghost use Rattle.block_map.specs.MapLines.{used_blocks};
ghost use Rattle.mdc_ast.specs.TableLimits.{IsTableDef};
ghost use Rattle.mdc_sound.specs.BlockRules.{AreBlockRowsSound};
ghost use Rattle.file_check.specs.Judging.{Judges, JudgesEach};
ghost use Rattle.file_check.specs.Known.{HasBlockMap};
ghost use Rattle.file_check.specs.KnownTables.{TellsMap};
ghost use Rattle.file_check.specs.Looking.{AnyPage, Unless};
ghost use Rattle.file_check.specs.BlocksJudged.{BreaksBlockRows, JudgesPage, JudgesRows};

use crate::blocks::blocks_in_state;
use crate::lowest::lower;
use block_map::BlockState;
use extent_map::first_page;
use mdc_ast::TableDef;
use mdc_values::Memory;
use row_fitting::does_row_fit;
use row_page::{RowPageView, capacity};
use std::alloc::Global;
use store_api::{Pages, Shape, StoreFault, bring};

/// Judges the row pages of a table: the lowest page of its Used blocks that isn't one, or has a row that doesn't fit.
pub(crate) fn judge_row_pages<P: Pages>(
    alloc: Global,
    shape: Shape,
    pages: &mut P,
    def: &TableDef,
) -> Result<Option<u32>, StoreFault>
    requires defined { IsTableDef def.now.number def.now }
    requires going { (P.state pages.old).ended ≡ false }
    ensures judged { IfOk result (λ found. IsTrue (P.state pages.old).is_told → (map_tree : Forest) → HasBlockMap shape (P.state pages.old).work def.now map_tree
        → JudgesEach (AreBlockRowsSound shape (P.state pages.old).work def.now) (BreaksBlockRows shape (P.state pages.old).work def.now) (used_blocks map_tree) found) }
    ensures same { (P.state pages.new).work ≡ (P.state pages.old).work }
    ensures runs { RunsOverPages P.Pages NoPage AnyPage (Unless P.Pages pages.old (TellsMap shape def.now)) pages.old pages.new (fault_of result) }
{
    let blocks = blocks_in_state(alloc, shape, pages, def, BlockState::Used)?;
    let mut lowest = None;
    for block in blocks.as_slice() {
        let here = judge_rows_of_block(alloc, shape, pages, def, *block)?;
        lowest = lower(lowest, here);
    }
    Ok(lowest)
}

/// The lowest page of a block that isn't a row page, or has a row that doesn't fit.
fn judge_rows_of_block<P: Pages>(
    alloc: Global,
    shape: Shape,
    pages: &mut P,
    def: &TableDef,
    block: u32,
) -> Result<Option<u32>, StoreFault>
    requires defined { IsTableDef def.now.number def.now }
    requires below { block < shape.extents }
    requires going { (P.state pages.old).ended ≡ false }
    ensures judged { IfOk result (λ found. IsTrue (P.state pages.old).is_told
        → Judges (AreBlockRowsSound shape (P.state pages.old).work def.now block) (BreaksBlockRows shape (P.state pages.old).work def.now block) found) }
    ensures same { (P.state pages.new).work ≡ (P.state pages.old).work }
    ensures runs { RunsOverPages P.Pages NoPage AnyPage NoDamage pages.old pages.new (fault_of result) }
{
    let first = first_page(shape, block);
    for place in 0..shape.extent_pages {
        if !is_page_fitting(alloc, pages, def, first + place)? {
            return Ok(Some(first + place));
        }
    }
    Ok(None)
}

/// Whether a page is a row page whose rows fit.
fn is_page_fitting<P: Pages>(
    alloc: Global,
    pages: &mut P,
    def: &TableDef,
    p: u32,
) -> Result<bool, StoreFault>
    requires defined { IsTableDef def.now.number def.now }
    requires going { (P.state pages.old).ended ≡ false }
    ensures judged { IfOk result (λ fitting. IsTrue (P.state pages.old).is_told → JudgesPage def.now (page_at (P.state pages.old).work p) fitting) }
    ensures same { (P.state pages.new).work ≡ (P.state pages.old).work }
    ensures runs { RunsOverPages P.Pages NoPage AnyPage NoDamage pages.old pages.new (fault_of result) }
{
    if p >= pages.count() {
        return Ok(false);
    }
    bring(pages, p)?;
    let Some(view) = RowPageView::read(pages.page(), &def.columns) else {
        return Ok(false);
    };
    match do_rows_fit(alloc, def, &view) {
        Ok(fit) => Ok(fit),
        Err(_) => Err(StoreFault::Memory),
    }
}

/// Whether all rows of a page fit.
fn do_rows_fit(alloc: Global, def: &TableDef, view: &RowPageView<'_>) -> Result<bool, Memory>
    requires defined { IsTableDef def.now.number def.now }
    requires columns { view.now.columns.now ≡ def.now.columns }
    ensures { IfOk result (JudgesRows def.now view.now.page.now) }
{
    let slots = capacity(&def.columns);
    for slot in 0..slots {
        let Some(row) = view.row(slot) else {
            continue;
        };
        if !does_row_fit(def, &row.to_row(alloc)?) {
            return Ok(false);
        }
    }
    Ok(true)
}
