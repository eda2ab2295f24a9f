// What the rows of parts of lists are judged with.
ghost use Rattle.std.specs.Prelude.{◌≡◌, None, IfOk};
ghost use Rattle.mdc_ast.specs.TableLimits.{IsTableDef};
ghost use Rattle.executor.specs.Judging.{AreJudges};

use mdc_ast::{Pred, TableDef};
use mdc_table::CellColumns;
use mdc_values::Memory;
use row_filter::RowFilter;
use std::alloc::Global;

/// What the rows of parts are judged with: the columns of the cell, the whole predicate, for rows in listed slots, and a filter that
/// takes every row of a block, for a sink that judges them.
#[derive(Drop)]
pub(crate) struct Judges<'w, 'e> {
    pub(crate) cells: CellColumns,
    pub(crate) whole: RowFilter<'w>,
    pub(crate) every: RowFilter<'e>,
}

impl<'w, 'e> Judges<'w, 'e> {
    /// Those of a predicate. The other one is none.
    pub(crate) fn new(
        alloc: Global,
        def: &TableDef,
        pred: &'w Option<Pred>,
        none: &'e Option<Pred>,
    ) -> Result<Judges<'w, 'e>, Memory>
        requires defined { IsTableDef def.now.number def.now }
        requires none { none.now ≡ None }
        ensures { IfOk result (AreJudges def.now pred.now) }
    {
        let cells = CellColumns::of(alloc, def)?;
        let whole = RowFilter::new(alloc, pred, def.columns.len())?;
        let every = RowFilter::new(alloc, none, def.columns.len())?;
        Ok(Judges {
            cells,
            whole,
            every,
        })
    }
}
