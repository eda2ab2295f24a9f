// Which blocks are rolled out: those of the cells whose rows qualify.
ghost use Rattle.std.specs.Prelude.{◌≡◌, ◌↔◌, ℕ, Contains, length, true, IfErr, IfOk, IsTrue};
ghost use Rattle.mdc_ast.specs.TableLimits.{IsTableDef};
ghost use Rattle.mdc_ast.specs.declared.row.Row.{Row};
ghost use Rattle.block_index.specs.Cells.{FitsCell};
ghost use Rattle.block_rows.specs.HeldRows.{HasReadValues};
ghost use Rattle.row_filter.specs.Filtering.{may_filter};
ghost use Rattle.table_trees.specs.RowCells.{cell_places};
ghost use Rattle.rollout.specs.Applying.{applies_to};
ghost use Rattle.rollout.specs.GoingCells.{FailsJudging, HasNoCell, JudgesCell, JudgesCells, going_numbers};

use crate::cells::{cell_places, qualifies, row_of_cell};
use block_index::CellBlock;
use mdc_ast::{Pred, TableDef};
use mdc_values::{Blocks, Memory};
use std::alloc::Global;
use store_api::rules::BLOCK_INDEXES_RULE;
use store_api::{Damage, StoreFault};

/// Which of these cells go, where the predicate names dimension columns alone. Damaged where one is no cell of the table.
pub(crate) fn going_cells(
    alloc: Global,
    def: &TableDef,
    pred: &Option<Pred>,
    found: &[CellBlock],
) -> Result<Vec<bool>, StoreFault>
    requires defined { IsTableDef def.now.number def.now }
    requires judged { (row : Row) → HasReadValues def.now.columns row → IsTrue (may_filter pred.now row.values) }
    requires applies { applies_to pred.now def.now ≡ true }
    ensures judges { IfOk result (λ going. JudgesCells def.now pred.now found.now going.items) }
    ensures fails { IfErr result (λ fault. FailsJudging def.now fault (HasNoCell def.now found.now)) }
{
    let places = cell_places(alloc, def)?;
    let mut going = Vec::new(alloc);
    for one in found {
        let goes = does_cell_go(alloc, def, places.as_slice(), pred, one)?;
        going.push(goes)?;
    }
    Ok(going)
}

/// Whether a cell goes: a row that is made of it qualifies.
fn does_cell_go(
    alloc: Global,
    def: &TableDef,
    places: &[u8],
    pred: &Option<Pred>,
    one: &CellBlock,
) -> Result<bool, StoreFault>
    requires defined { IsTableDef def.now.number def.now }
    requires places { places.now ≡ cell_places def.now }
    requires judged { (row : Row) → HasReadValues def.now.columns row → IsTrue (may_filter pred.now row.values) }
    requires applies { applies_to pred.now def.now ≡ true }
    ensures judges { IfOk result (λ goes. JudgesCell def.now pred.now one.now goes) }
    ensures fails { IfErr result (λ fault. FailsJudging def.now fault (FitsCell def.now one.now.cell.values → ⊥)) }
{
    let Some(row) = row_of_cell(alloc, def, places, &one.cell)? else {
        return Err(no_cell(def));
    };
    Ok(qualifies(pred, &row))
}

/// The fault of a composite index that lists a block under no cell of the table.
fn no_cell(def: &TableDef) -> StoreFault
    ensures { result ≡ StoreFault.Damaged (record { page = def.now.roots.composite; rule = 10 }) }
{
    StoreFault::Damaged(Damage {
        page: def.roots.composite,
        rule: BLOCK_INDEXES_RULE,
    })
}

/// The blocks of the cells that go, by rising number.
pub(crate) fn going_blocks(
    alloc: Global,
    found: &[CellBlock],
    going: &[bool],
) -> Result<Blocks, Memory>
    requires one_each { length going.now ≡ length found.now }
    ensures same { IfOk result (λ blocks. (block : ℕ) → Contains blocks block ↔ Contains (going_numbers found.now going.now) block) }
{
    let mut numbers = Vec::new(alloc);
    for at in 0..found.len() {
        if !going[at] {
            continue;
        }
        numbers.push(found[at].block)?;
    }
    rising(alloc, numbers)
}

/// These blocks by rising number, each once.
fn rising(alloc: Global, mut numbers: Vec<u32>) -> Result<Blocks, Memory>
    ensures same { IfOk result (λ blocks. (block : ℕ) → Contains blocks block ↔ Contains numbers.items block) }
{
    numbers.sort_unstable();
    let mut blocks = Blocks::new(alloc);
    let mut from: u64 = 0;
    for number in numbers.as_slice() {
        if u64::from(*number) >= from {
            blocks.push(*number)?;
            from = u64::from(*number) + 1;
        }
    }
    Ok(blocks)
}
