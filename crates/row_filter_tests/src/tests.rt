// Rows of a page by hand: which of them filters take, and that one filter judges row after row.
ghost use Rattle.std.specs.Prelude.{◌≡◌, length, IfOk, IfSome, IsTrue};
ghost use Rattle.mdc_ast.specs.Truth.{may_judge, may_test_atom};
ghost use Rattle.row_page.specs.Row.{AreRowColumns};
ghost use Rattle.row_filter.specs.Filtering.{may_filter};

use mdc_ast::{Atom, ColumnDef, Name, Pred, Right, Test};
use mdc_values::{Chars, ColType, List, Memory, Op, Value};
use row_filter::RowFilter;
use row_page::{RowPageView, RowView};
use std::alloc::Global;
use std::test::Fail;

/// An INTEGER column.
fn column_of_numbers(alloc: Global) -> Result<ColumnDef, Memory>
    ensures { IfOk result (λ column. column.ty ≡ ColType.Integer) }
{
    Ok(ColumnDef {
        name: Name(Chars::of(alloc, b"A")?),
        ty: ColType::Integer,
        not_null: false,
        made: None,
    })
}

/// Two of them, A and B.
fn pair(alloc: Global) -> Result<List<ColumnDef>, Memory>
    ensures rows { IfOk result (λ columns. AreRowColumns columns) }
{
    let mut columns = List::new(alloc);
    columns.push(column_of_numbers(alloc)?)?;
    columns.push(column_of_numbers(alloc)?)?;
    Ok(columns)
}

/// A page of three rows: 3 and 99, 3 and a null, 4 and 7.
fn page_of_three() -> [u8; 4096] {
    let mut page = [0; 4096];
    page[..6].copy_from_slice(b"RP\x00\xe1\x00\x03");
    page[16] = 0xe0;
    page[45..63].copy_from_slice(b"\0\0\0\0\0\0\0\0\0\0\0\0\0\x03\0\0\0\x63");
    page[63..81].copy_from_slice(b"\0\0\0\0\0\0\0\x01\0\x02\0\0\0\x03\0\0\0\0");
    page[81..99].copy_from_slice(b"\0\0\0\0\0\0\0\x02\0\0\0\0\0\x04\0\0\0\x07");
    page
}

/// Whether a test, of those that are made here, may be judged on values.
fn may_test_atom(atom: &Atom, values: &List<Value>) -> bool
    ensures { IsTrue result → IsTrue (may_test_atom values.now atom.now) }
{
    let place = atom.column as usize;
    if place >= values.len() {
        return false;
    }
    match (&atom.test, values.at(place)) {
        (Test::IsNull, _) => true,
        (Test::Compare(_, Right::Value(Value::Int(_))), Value::Int(_)) => true,
        (Test::Compare(_, Right::Value(Value::Int(_))), Value::Null) => true,
        _ => false,
    }
}

/// Whether a predicate, of those that are made here, may be judged on values.
fn may_judge(pred: &Pred, values: &List<Value>) -> bool
    ensures { IsTrue result → IsTrue (may_judge values.now pred.now) }
{
    match pred {
        Pred::Atom(atom) => may_test_atom(atom, values),
        _ => false,
    }
}

/// Whether the filter takes the row in a slot, which it is judged on where that may be.
fn is_taken(
    alloc: Global,
    filter: &mut RowFilter,
    pred: &Option<Pred>,
    row: Option<RowView>,
) -> Result<bool, Memory>
    requires pred { filter.old.pred.now ≡ pred.now }
    requires width { IfSome row (λ row. length row.columns.now ≡ length filter.old.values) }
    ensures pred { filter.new.pred.now ≡ filter.old.pred.now }
    ensures width { length filter.new.values ≡ length filter.old.values }
{
    let Some(row) = row else {
        return Ok(false);
    };
    let copy = row.to_row(alloc)?;
    if !may_filter(pred, &copy.values) {
        return Ok(false);
    }
    filter.takes(alloc, &row)
}

fn may_filter(pred: &Option<Pred>, values: &List<Value>) -> bool
    ensures { IsTrue result → IsTrue (may_filter pred.now values.now) }
{
    match pred {
        Some(pred) => may_judge(pred, values),
        None => true,
    }
}

/// Which of the three rows one filter takes. The columns are lent, so that there is no list of them to drop.
fn taken_of(
    alloc: Global,
    columns: &List<ColumnDef>,
    pred: &Option<Pred>,
) -> Result<(bool, bool, bool), Memory>
    requires { AreRowColumns columns.now }
{
    let page = page_of_three();
    let Some(view) = RowPageView::look(&page, columns) else {
        return Ok((false, false, false));
    };
    let mut filter = RowFilter::new(alloc, pred, columns.len())?;
    let first = is_taken(alloc, &mut filter, pred, view.row(0))?;
    let second = is_taken(alloc, &mut filter, pred, view.row(1))?;
    let third = is_taken(alloc, &mut filter, pred, view.row(2))?;
    Ok((first, second, third))
}

/// Which of the three rows one filter takes.
fn taken(alloc: Global, pred: &Option<Pred>) -> Result<(bool, bool, bool), Memory> {
    let columns = pair(alloc)?;
    taken_of(alloc, &columns, pred)
}

/// Which of the three rows a test of a column takes.
fn tested(
    alloc: Global,
    column: u8,
    negated: bool,
    test: Test,
) -> Result<(bool, bool, bool), Memory> {
    let pred = Some(Pred::Atom(Atom {
        column,
        negated,
        test,
    }));
    taken(alloc, &pred)
}

/// Which of them a comparison of a column with a number takes.
fn compared(alloc: Global, column: u8, op: Op, n: i64) -> Result<(bool, bool, bool), Memory> {
    let test = Test::Compare(op, Right::Value(Value::Int(n)));
    tested(alloc, column, false, test)
}

#[test]
fn each_row_is_judged_by_its_own_values(rt: HostRuntime) -> Result<(), Fail> {
    let alloc = rt.alloc();
    assert!(rt; compared(alloc, 0, Op::Equal, 3)? == (true, true, false));
    assert!(rt; compared(alloc, 1, Op::Less, 99)? == (false, false, true));
    assert!(rt; tested(alloc, 1, false, Test::IsNull)? == (false, true, false));
    assert!(rt; tested(alloc, 1, true, Test::IsNull)? == (true, false, true));
    assert!(rt; taken(alloc, &None)? == (true, true, true));
    Ok(())
}
