// How many rows of a table qualify, where their cells say so.
ghost use Rattle.std.specs.Prelude.{◌≡◌, List, true, false, length, sum_by, IsTrue, IfOk};
ghost use Rattle.mdc_ast.specs.declared.row.Row.{Row};
ghost use Rattle.store_api.specs.Causes.{fault_of};
ghost use Rattle.store_api.specs.Frame.{NoPage};
ghost use Rattle.store_api.specs.RunsOverPages.{RunsOverPages};
ghost use Rattle.extent_map.specs.declared.kind.Kind.{Kind};
ghost use Rattle.mdc_ast.specs.TableLimits.{IsTableDef};
ghost use Rattle.mdc_sound.specs.StandingTable.{BreaksTable, StandsTable, TableForests, pages_of};
ghost use Rattle.mdc_sound.specs.TableRows.{rows_in_table};
ghost use Rattle.block_rows.specs.HeldRows.{HasReadValues, qualifying};
ghost use Rattle.row_filter.specs.Filtering.{may_filter};
ghost use Rattle.mdc_values.specs.Rising.{IsLower, IsRising};
ghost use Rattle.table_scan.specs.FoundRows.{IsChoicePage};
ghost use Rattle.table_scan.specs.SeenTable.{blocks_listed};
ghost use Rattle.table_scan.specs.Settled.{HasOpenTestIfAny, IsSettledIfAny};

use crate::choosing::listed_blocks;
use crate::settling::is_settled;
use mdc_ast::{Pred, TableDef};
use mdc_table::ListedBlock;
use std::alloc::Global;
use store_api::{Pages, Shape, StoreFault};

/// How many rows of a table qualify, where the cell of a row tells whether it does. They are counted by the lines of the block map: no
/// row page comes to hand.
pub fn count_rows<P: Pages>(
    alloc: Global,
    def: &TableDef,
    shape: Shape,
    pages: &mut P,
    pred: &Option<Pred>,
) -> Result<u64, StoreFault>
    requires defined { IsTableDef def.now.number def.now }
    requires settled { IsSettledIfAny def.now pred.now }
    requires judged { (row : Row) → HasReadValues def.now.columns row → IsTrue (may_filter pred.now row.values) }
    requires going { (P.state pages.old).ended ≡ false }
    ensures counts { IfOk result (λ count. (owners : List Kind) (forests : TableForests) → StandsTable P.Pages shape pages.old def.now owners forests
        → count ≡ length (qualifying pred.now (rows_in_table shape (pages_of P.Pages pages.old) def.now forests.map))) }
    ensures same { (P.state pages.new).work ≡ (P.state pages.old).work }
    ensures runs { RunsOverPages P.Pages NoPage (IsChoicePage P.Pages shape pages.old def.now) (BreaksTable P.Pages shape pages.old def.now) pages.old pages.new (fault_of result) }
{
    let listed = listed_blocks(alloc, def, shape, pages, pred)?;
    Ok(rows_of_lines(listed.as_slice()))
}

/// How many rows the lines of blocks say that these have. The sum fits, since the numbers of the blocks rise.
fn rows_of_lines(listed: &[ListedBlock]) -> u64
    requires { IsRising IsLower (blocks_listed listed.now) }
    ensures { result ≡ sum_by (λ one. one.rows) listed.now }
{
    let mut count = 0;
    for one in listed {
        // So that it is known to be a number of 32 bits.
        let _block = one.block;
        count += u64::from(one.rows);
    }
    count
}

/// Whether there is no predicate, or the cell of a row tells its truth: none of its tests compares columns, or is of one that is no
/// dimension column.
pub fn is_settled_by_cells(pred: &Option<Pred>, def: &TableDef) -> bool
    ensures settled { result ≡ true → IsSettledIfAny def.now pred.now }
    ensures open { result ≡ false → HasOpenTestIfAny def.now pred.now }
{
    match pred {
        Some(pred) => is_settled(pred, def),
        None => true,
    }
}
