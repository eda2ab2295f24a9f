// The rows that the table is filled with. A row of a number is the same each time.
ghost use Rattle.std.specs.Prelude.{◌≡◌, IsTrue, IfOk};
ghost use Rattle.mdc_ast.specs.declared.definition.TableDef.{TableDef};
ghost use Rattle.mdc_ast.specs.Database.{fits_all};
ghost use Rattle.mdc_ast.specs.FittingRows.{RowFits};
ghost use Rattle.table_bench.specs.TableW.{IsTableW, columns_w};

use crate::generator::Numbers;
use crate::values::{date_of, key_of, large_of, small_of, word_of};
use mdc_ast::Row;
use mdc_values::{List, Memory, Value};
use std::alloc::Global;

/// Which of the rows of a number.
#[derive(Clone, Copy, Debug, PartialEq, Eq)]
pub enum Which {
    /// The one that is put.
    First,
    /// Another one, of the same cell.
    SameCell,
    /// Another one, of another cell.
    OtherCell,
}

/// What becomes of the row of a number: every fifth is changed, and half of these get another cell.
pub fn changed(number: u64) -> Which {
    if number % 10 == 0 {
        return Which::OtherCell;
    }
    if number % 5 == 0 {
        return Which::SameCell;
    }
    Which::First
}

/// A row of a number.
pub fn row_of(alloc: Global, seed: u32, number: u64, which: Which) -> Result<Row, Memory>
    ensures number { IfOk result (λ row. row.number ≡ number) }
    ensures fits { IfOk result (λ row. (def : TableDef) → IsTableW def → RowFits def row) }
{
    let values = values_of(alloc, seed, number, which)?;
    Ok(Row { number, values })
}

// The values of a row: those of D, R and T make its cell.
fn values_of(alloc: Global, seed: u32, number: u64, which: Which) -> Result<List<Value>, Memory>
    ensures { IfOk result (λ values. IsTrue (fits_all columns_w values)) }
{
    let mut of_cell = Numbers::of_row(seed, number, 0);
    let mut others = Numbers::of_row(seed, number, if which == Which::First { 1 } else { 2 });
    let turn = if which == Which::OtherCell { 1 } else { 0 };
    let mut values = List::new(alloc);
    values.push(key_of(others.below(1_000_000)))?;
    values.push(small_of((of_cell.below(5) + turn) % 5, 4))?;
    values.push(small_of(of_cell.below(4), 3))?;
    values.push(large_of(others.below(1_000_000), others.below(16)))?;
    values.push(word_of(alloc, of_cell.below(3))?)?;
    values.push(date_of(others.below(200), others.below(12), others.below(29)))?;
    Ok(values)
}
