// Rule 9: one cell for each block.
ghost use Rattle.std.specs.Prelude.{◌≡◌, ◌<◌, map};
ghost use Rattle.block_rows.specs.HeldRows.{HaveReadValues, placed_row};
ghost use Rattle.table_trees.specs.ToldPages.{PageList};
ghost use Rattle.mdc_ast.specs.TableLimits.{IsTableDef};
ghost use Rattle.mdc_sound.specs.BlockRules.{IsOfOneCell};
ghost use Rattle.mdc_sound.specs.TableRows.{rows_in_block};
ghost use Rattle.file_check.specs.BlocksJudged.{BreaksBlockCell, JudgesCell};
ghost use Rattle.file_check.specs.Judging.{Judges};

use block_index::are_of_one_cell;
use block_rows::Hit;
use extent_map::first_page;
use mdc_ast::TableDef;
use store_api::Shape;

/// The first page of a block, where its rows are of two cells.
pub(crate) fn judge_cell_of_block(
    shape: Shape,
    def: &TableDef,
    block: u32,
    rows: &[Hit],
) -> Option<u32>
    requires defined { IsTableDef def.now.number def.now }
    requires below { block < shape.extents }
    requires keyed { HaveReadValues def.now.columns rows.now }
    ensures { (pages : PageList) → map placed_row rows.now ≡ rows_in_block shape pages def.now block
        → Judges (IsOfOneCell shape pages def.now block) (BreaksBlockCell shape pages def.now block) result }
{
    if do_rows_share_cell(def, rows) {
        None
    } else {
        Some(first_page(shape, block))
    }
}

/// Whether rows that were read are all of one cell: that of the first.
fn do_rows_share_cell(def: &TableDef, rows: &[Hit]) -> bool
    requires defined { IsTableDef def.now.number def.now }
    requires keyed { HaveReadValues def.now.columns rows.now }
    ensures { JudgesCell def.now (map placed_row rows.now) result }
{
    for place in 1..rows.len() {
        if !are_of_one_cell(def, &rows[0].row.values, &rows[place].row.values) {
            return false;
        }
    }
    true
}
