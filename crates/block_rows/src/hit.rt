// A row that was found, copied.
ghost use Rattle.std.specs.Prelude.{◌≡◌, map};
ghost use Rattle.block_rows.specs.HeldRows.{HaveReadValues, placed_row};

use crate::RowSink;
use mdc_ast::Row;
use mdc_values::{Memory, Rid};
use row_page::RowView;
use std::alloc::Global;

/// A row of a table, and where it lies.
#[derive(Debug, Drop)]
pub struct Hit {
    pub rid: Rid,
    pub row: Row,
}

// The rows that it was given are copied.
impl RowSink for Vec<Hit> {
    ghost is_for = { λ columns hits. HaveReadValues columns hits.items };

    ghost has = { λ rows hits. map placed_row hits.items ≡ rows };

    fn take(&mut self, alloc: Global, row: &RowView, rid: Rid) -> Result<(), Memory> {
        let row = row.to_row(alloc)?;
        self.push(Hit { rid, row })?;
        Ok(())
    }
}
