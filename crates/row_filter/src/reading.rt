// Values of the columns that a predicate names, read from a row that is lent.
ghost use Rattle.std.specs.Prelude.{◌≡◌, ◌<◌, [], ◌∷◌, length, IfOk, IsTrue, OnOk};
ghost use Rattle.std.specs.List.{All};
ghost use Rattle.mdc_ast.specs.Truth.{may_judge};
ghost use Rattle.row_page.specs.Row.{row_in};
ghost use Rattle.row_filter.specs.Naming.{IsRead, named_in, named_in_atom, named_in_test};

use mdc_ast::{Atom, Pred, Right, Test};
use mdc_values::{List, Memory, Value};
use row_page::RowView;
use std::alloc::Global;

/// Reads the columns that a part of a predicate names. Only a text takes memory.
pub fn read_part(
    alloc: Global,
    part: &Pred,
    row: &RowView,
    values: &mut List<Value>,
) -> Result<(), Memory>
    requires wide { length row.now.columns.now ≡ length values.old }
    requires judged { IsTrue (may_judge (row_in row.now.columns.now row.now.bytes.now).values part.now) }
    ensures read { OnOk result (IsRead (row_in row.now.columns.now row.now.bytes.now).values (named_in part.now) values.old values.new) }
    ensures wide { length values.new ≡ length values.old }
{
    match part {
        Pred::Atom(atom) => read_atom(alloc, atom, row, values),
        Pred::All(parts) | Pred::Any(parts) => {
            for part in parts.as_slice() {
                read_part(alloc, part, row, values)?;
            }
            Ok(())
        }
        Pred::Not(part) => read_part(alloc, part.get(), row, values),
    }
}

fn read_atom(
    alloc: Global,
    atom: &Atom,
    row: &RowView,
    values: &mut List<Value>,
) -> Result<(), Memory>
    requires wide { length row.now.columns.now ≡ length values.old }
    requires there { All (λ place. place < length values.old) (named_in_atom atom.now) }
    ensures read { OnOk result (IsRead (row_in row.now.columns.now row.now.bytes.now).values (named_in_atom atom.now) values.old values.new) }
    ensures wide { length values.new ≡ length values.old }
{
    read_column(alloc, atom.column, row, values)?;
    read_right(alloc, &atom.test, row, values)
}

/// Reads the column that a test compares with, if it compares with one. Only a text takes memory.
pub fn read_right(
    alloc: Global,
    test: &Test,
    row: &RowView,
    values: &mut List<Value>,
) -> Result<(), Memory>
    requires wide { length row.now.columns.now ≡ length values.old }
    requires there { All (λ place. place < length values.old) (named_in_test test.now) }
    ensures read { OnOk result (IsRead (row_in row.now.columns.now row.now.bytes.now).values (named_in_test test.now) values.old values.new) }
    ensures wide { length values.new ≡ length values.old }
{
    match test {
        Test::Compare(_, Right::Column(column)) => read_column(alloc, *column, row, values),
        _ => Ok(()),
    }
}

fn read_column(
    alloc: Global,
    column: u8,
    row: &RowView,
    values: &mut List<Value>,
) -> Result<(), Memory>
    requires wide { length row.now.columns.now ≡ length values.old }
    requires there { column < length values.old }
    ensures read { OnOk result (IsRead (row_in row.now.columns.now row.now.bytes.now).values (column ∷ []) values.old values.new) }
    ensures wide { length values.new ≡ length values.old }
{
    let value = row.value(alloc, column)?;
    values.set(column as usize, value);
    Ok(())
}

/// So many nulls.
pub fn nulls(alloc: Global, count: usize) -> Result<List<Value>, Memory>
    ensures { IfOk result (λ nulls. length nulls ≡ count) }
{
    let mut nulls = List::new(alloc);
    for _ in 0..count {
        nulls.push(Value::Null)?;
    }
    Ok(nulls)
}
