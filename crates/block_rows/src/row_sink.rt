// What takes rows where they lie.
ghost use Rattle.std.specs.Prelude.{◌++◌, ◌∷◌, [], List, OnOk};
ghost use Rattle.mdc_ast.specs.declared.definition.ColumnDef.{ColumnDef};
ghost use Rattle.mdc_sound.specs.TableRows.{PlacedRow};
ghost use Rattle.row_page.specs.Row.{row_in};
ghost use Rattle.block_rows.specs.HeldRows.{HasReadValues};

use mdc_values::{Memory, Rid};
use row_page::RowView;
use std::alloc::Global;

/// What a scan gives rows to, one by one, each where it lies in its page: a sink keeps of them what it needs.
pub trait RowSink {
    /// Whether it takes rows of these columns.
    ghost is_for: { List ColumnDef → Self → Type 0 };

    /// Whether it may have been given these rows, one behind the other.
    ghost has: { List PlacedRow → Self → Type 0 };

    /// Takes a row, which lies in this place. After `Memory` it is done with.
    fn take(&mut self, alloc: Global, row: &RowView, rid: Rid) -> Result<(), Memory>
        requires fits { is_for row.now.columns.now self.old }
        requires read { HasReadValues row.now.columns.now (row_in row.now.columns.now row.now.bytes.now) }
        ensures fits { OnOk result (is_for row.now.columns.now self.new) }
        ensures has { OnOk result ((before : List PlacedRow) → has before self.old → has (before ++ record { rid = rid; row = row_in row.now.columns.now row.now.bytes.now } ∷ []) self.new) };
}
