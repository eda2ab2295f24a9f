// A predicate that is judged on rows which are lent.
ghost use Rattle.std.specs.Prelude.{◌≡◌, length, IfOk, IsTrue};
ghost use Rattle.mdc_ast.specs.Truth.{qualifies};
ghost use Rattle.row_page.specs.Row.{row_in};
ghost use Rattle.row_filter.specs.Filtering.{may_filter};

use crate::judging::is_met;
use crate::reading::nulls;
use mdc_ast::Pred;
use mdc_values::{List, Memory, Value};
use row_page::RowView;
use std::alloc::Global;

/// A predicate, or none, ready to be judged on rows where they lie. It keeps a value for each column: the one that was
/// read of it last, where a part of the predicate looks at several.
#[derive(Drop)]
pub struct RowFilter<'f> {
    pred: &'f Option<Pred>,
    values: List<Value>,
}

impl<'f> RowFilter<'f> {
    /// The filter of a predicate on rows of so many columns.
    pub fn new(
        alloc: Global,
        pred: &'f Option<Pred>,
        columns: usize,
    ) -> Result<RowFilter<'f>, Memory>
        ensures pred { IfOk result (λ filter. filter.pred.now ≡ pred.now) }
        ensures width { IfOk result (λ filter. length filter.values ≡ columns) }
    {
        let values = nulls(alloc, columns)?;
        Ok(RowFilter { pred, values })
    }

    /// Whether the predicate is true of a row, or there is none. Only a text that the predicate names takes memory.
    pub fn takes(&mut self, alloc: Global, row: &RowView) -> Result<bool, Memory>
        requires width { length row.now.columns.now ≡ length self.old.values }
        requires judged { IsTrue (may_filter self.old.pred.now (row_in row.now.columns.now row.now.bytes.now).values) }
        ensures taken { IfOk result (λ taken. taken ≡ qualifies self.old.pred.now (row_in row.now.columns.now row.now.bytes.now).values) }
        ensures pred { self.new.pred.now ≡ self.old.pred.now }
        ensures width { length self.new.values ≡ length self.old.values }
    {
        let Some(pred) = self.pred else {
            return Ok(true);
        };
        is_met(alloc, pred, row, &mut self.values)
    }
}
