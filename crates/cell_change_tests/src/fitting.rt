// Whether a row fits a definition, looked at before each call that requires it.
ghost use Rattle.std.specs.Prelude.{◌≡◌, IsTrue, is_none};
ghost use Rattle.std.specs.List.{list_all};
ghost use Rattle.mdc_ast.specs.FittingRows.{RowFits};

use mdc_ast::{ColumnDef, Row, TableDef};
use row_fitting::do_fit;

/// Whether a row fits a definition in which no column is made from another.
pub fn does_fit(def: &TableDef, row: &Row) -> bool
    ensures { IsTrue result → RowFits def.now row.now }
{
    let columns = def.columns.as_slice();
    has_no_generated(columns) && do_fit(columns, row.values.as_slice())
}

fn has_no_generated(columns: &[ColumnDef]) -> bool
    ensures { result ≡ list_all (λ column. is_none column.made) columns.now }
{
    columns.iter().all(|column| column.made.is_none())
}
