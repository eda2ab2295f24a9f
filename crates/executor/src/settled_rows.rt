// Rows of blocks, judged by what their cells leave open.
ghost use Rattle.std.specs.Prelude.{◌≡◌, ◌++◌, ◌<◌, Some, length, map, IfOk, OnOk};
ghost use Rattle.std.specs.List.{AllByRecursion};
ghost use Rattle.mdc_ast.specs.TableLimits.{IsTableDef};
ghost use Rattle.mdc_ast.specs.Truth.{value_at};
ghost use Rattle.row_page.specs.Row.{row_in};
ghost use Rattle.table_trees.specs.RowCells.{IsCellOf};
ghost use Rattle.executor.specs.Settling.{known_or, may_hold_if_any};

use crate::beginning::Beginning;
use cell_filter::may_hold;
use mdc_ast::{Cell, Pred, TableDef};
use mdc_table::RowSink;
use mdc_values::{List, Memory, Rid, Value};
use row_filter::RowFilter;
use row_page::RowView;
use std::alloc::Global;
use std::marker::PhantomData;

/// A sink for the rows of one block after the other, which hands those that qualify on to another sink. All rows of a block are of one
/// cell, so the first one tells for all whether the predicate may hold in it. Where it may, a row is judged by what the cell leaves of
/// the predicate, and else no row is taken.
#[derive(Drop)]
pub(crate) struct SettledRows<'k, 'l, 'f, K, B: Beginning<K>> {
    pub(crate) sink: &'k mut K,
    pub(crate) left: &'l mut RowFilter<'f>,
    pub(crate) def: &'l TableDef,
    pub(crate) pred: &'l Option<Pred>,
    /// Whether the predicate may hold in the cell of the block, where a row of it was given.
    pub(crate) verdict: Option<bool>,
    pub(crate) begun: PhantomData<B>,
}

impl<'k, 'l, 'f, K: RowSink, B: Beginning<K>> RowSink for SettledRows<'k, 'l, 'f, K, B> {
    ghost use Rattle.executor.specs.SettledSinks.{HasSettled, TakesSettled};

    ghost is_for = { λ columns rows. TakesSettled K.RowSink B.Beginning.begun columns rows };

    ghost has = { λ given rows. HasSettled K.RowSink B.Beginning.begun given rows };

    fn take(&mut self, alloc: Global, row: &RowView, rid: Rid) -> Result<(), Memory> {
        if !verdict_on(alloc, self.def, self.pred, row, &mut self.verdict)? {
            return Ok(());
        }
        if !self.left.takes(alloc, row)? {
            return Ok(());
        }
        self.sink.take(alloc, row, rid)
    }
}

/// Whether a predicate may hold in the cell of a row, unless that is known of its block.
#[inline(always)]
fn verdict_on(
    alloc: Global,
    def: &TableDef,
    pred: &Option<Pred>,
    row: &RowView,
    verdict: &mut Option<bool>,
) -> Result<bool, Memory>
    requires defined { IsTableDef def.now.number def.now }
    requires columns { row.now.columns.now ≡ def.now.columns }
    ensures told { IfOk result (λ may. may ≡ known_or verdict.old (may_hold_if_any def.now pred.now (row_in row.now.columns.now row.now.bytes.now).values)) }
    ensures kept { IfOk result (λ may. verdict.new ≡ Some may) }
{
    if let Some(may) = *verdict {
        return Ok(may);
    }
    let may = may_hold_in_cell(alloc, def, pred, row)?;
    *verdict = Some(may);
    Ok(may)
}

/// Whether a predicate may hold in the cell of a row.
#[inline(never)]
fn may_hold_in_cell(
    alloc: Global,
    def: &TableDef,
    pred: &Option<Pred>,
    row: &RowView,
) -> Result<bool, Memory>
    requires defined { IsTableDef def.now.number def.now }
    requires columns { row.now.columns.now ≡ def.now.columns }
    ensures { IfOk result (λ may. may ≡ may_hold_if_any def.now pred.now (row_in row.now.columns.now row.now.bytes.now).values) }
{
    let Some(pred) = pred else {
        return Ok(true);
    };
    let cell = cell_of(alloc, def, row)?;
    Ok(may_hold(pred, def, &cell))
}

/// The cell of a row.
fn cell_of(alloc: Global, def: &TableDef, row: &RowView) -> Result<Cell, Memory>
    requires defined { IsTableDef def.now.number def.now }
    requires columns { row.now.columns.now ≡ def.now.columns }
    ensures { IfOk result (λ cell. IsCellOf def.now cell (row_in row.now.columns.now row.now.bytes.now).values) }
{
    let mut values = List::new(alloc);
    for dim in def.dims.as_slice() {
        push_values(alloc, row, dim.as_slice(), &mut values)?;
    }
    Ok(Cell { values })
}

/// Puts the values that a row has in some columns last.
fn push_values(
    alloc: Global,
    row: &RowView,
    places: &[u8],
    values: &mut List<Value>,
) -> Result<(), Memory>
    requires there { AllByRecursion (λ place. place < length row.now.columns.now) places.now }
    ensures { OnOk result (values.new ≡ values.old ++ map (value_at (row_in row.now.columns.now row.now.bytes.now).values) places.now) }
{
    for place in places {
        values.push(row.value(alloc, *place)?)?;
    }
    Ok(())
}
