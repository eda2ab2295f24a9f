// Answers written by hand: each refusal, each reply, and the lines of a query.
ghost use Rattle.std.specs.Prelude.{◌≡◌, length, IfOk, IsTrue};
ghost use Rattle.std.specs.List.{list_all};
ghost use Rattle.answer_text.specs.Lines.{are_outs_within, are_rows_wide, is_column_out, is_plain_select};

use answer_text::{
    AnswerFault, Lines, blocks_line, explain_text, outcome_bytes, refusal_bytes, reply_bytes,
    select_lines,
};
use mdc_ast::{
    BoundOut, BoundSelect, ColumnDef, KeyPart, Name, Outcome, Refusal, Reply, Roots, Row, TableDef,
};
use mdc_values::{Chars, ColType, List, Memory, Value};
use std::alloc::Global;
use std::process::Abort;
use std::test::Fail;

fn name(alloc: Global, bytes: &[u8]) -> Result<Name, Memory> {
    Ok(Name(Chars::of(alloc, bytes)?))
}

fn refusal(alloc: Global, number: u16) -> Result<Refusal, Memory> {
    Ok(Refusal {
        number,
        place: 41,
        name: name(alloc, b"X_1")?,
        kept: 255,
    })
}

/// The line of a refusal at byte 41, with the name X_1 and the number 255.
fn is_refused(rt: &impl Abort, alloc: Global, number: u16, text: &str) -> Result<(), Fail> {
    let mut out = b"= ".to_vec(alloc)?;
    refusal_bytes(&refusal(alloc, number)?, &mut out)?;
    let line = format!(in alloc; "= ERROR {text}\n")?;
    assert_eq!(rt; out.as_slice(), line.as_bytes());
    Ok(())
}

const REFUSALS: [(u16, &str); 25] = [
    (10, "10 syntax at byte 41"),
    (11, "11 statement longer than 65536 bytes"),
    (12, "12 transaction state"),
    (13, "13 character 255 at byte 41"),
    (14, "14 not built"),
    (20, "20 table X_1 exists"),
    (21, "21 no table X_1"),
    (22, "22 no column X_1"),
    (23, "23 column X_1 twice"),
    (24, "24 index X_1 exists"),
    (25, "25 no index X_1"),
    (26, "26 limit 255"),
    (27, "27 column X_1 not grouped"),
    (30, "30 wrong type for X_1"),
    (31, "31 out of range for X_1"),
    (32, "32 null in X_1"),
    (33, "33 text too long for X_1"),
    (34, "34 no such date for X_1"),
    (35, "35 wrong number of values"),
    (36, "36 value for generated X_1"),
    (37, "37 overflow in X_1"),
    (40, "40 duplicate key in X_1"),
    (41, "41 expression of X_1 not accepted"),
    (70, "70 file full at 255 extents"),
    (71, "71 row numbers used up at 255"),
];

#[test]
fn each_refusal_has_its_line(rt: HostRuntime) -> Result<(), Fail> {
    for (number, text) in REFUSALS {
        is_refused(&rt, rt.alloc(), number, text)?;
    }
    Ok(())
}

#[test]
fn a_number_without_a_cause_says_nothing(rt: HostRuntime) -> Result<(), Fail> {
    let mut out = b"= ".to_vec(rt.alloc())?;
    refusal_bytes(&refusal(rt.alloc(), 99)?, &mut out)?;
    assert_eq!(rt; out.as_slice(), b"= ".as_slice());
    Ok(())
}

fn is_replied(rt: &impl Abort, alloc: Global, reply: Reply, text: &[u8]) -> Result<(), Fail> {
    let mut out = Vec::new(alloc);
    reply_bytes(&reply, &mut out)?;
    assert_eq!(rt; out.as_slice(), text);
    let mut out = Vec::new(alloc);
    outcome_bytes(&Outcome::Done(reply), &mut out)?;
    assert_eq!(rt; out.as_slice(), text);
    Ok(())
}

#[test]
fn counts_are_replied(rt: HostRuntime) -> Result<(), Fail> {
    let alloc = rt.alloc();
    is_replied(&rt, alloc, Reply::Done, b"OK\n")?;
    is_replied(&rt, alloc, Reply::Inserted(0), b"0 ROWS INSERTED\n")?;
    is_replied(&rt, alloc, Reply::Updated(1), b"1 ROWS UPDATED\n")?;
    let most = Reply::Deleted(18_446_744_073_709_551_615);
    is_replied(&rt, alloc, most, b"18446744073709551615 ROWS DELETED\n")
}

#[test]
fn lines_are_replied(rt: HostRuntime) -> Result<(), Fail> {
    let lines = Chars::of(rt.alloc(), b"A\n0 ROWS\n")?;
    is_replied(&rt, rt.alloc(), Reply::Lines(lines), b"A\n0 ROWS\n")
}

#[test]
fn a_refused_outcome_has_its_line(rt: HostRuntime) -> Result<(), Fail> {
    let mut out = Vec::new(rt.alloc());
    outcome_bytes(&Outcome::Refused(refusal(rt.alloc(), 14)?), &mut out)?;
    assert_eq!(rt; out.as_slice(), b"ERROR 14 not built\n".as_slice());
    Ok(())
}

fn column(alloc: Global, bytes: &[u8], ty: ColType) -> Result<ColumnDef, Memory> {
    Ok(ColumnDef {
        name: name(alloc, bytes)?,
        ty,
        not_null: false,
        made: None,
    })
}

/// A INTEGER, B CHAR(9), C DATE
fn columns(alloc: Global) -> Result<List<ColumnDef>, Memory>
    ensures { IfOk result (λ columns. length columns ≡ 3) }
{
    let mut columns = List::new(alloc);
    columns.push(column(alloc, b"A", ColType::Integer)?)?;
    columns.push(column(alloc, b"B", ColType::Char(9))?)?;
    columns.push(column(alloc, b"C", ColType::Date)?)?;
    Ok(columns)
}

/// B, A, C
fn outs(alloc: Global) -> Result<List<BoundOut>, Memory>
    ensures plain { IfOk result (λ outs. IsTrue (list_all is_column_out outs)) }
    ensures within { IfOk result (λ outs. IsTrue (are_outs_within 3 outs)) }
{
    let outs = [
        BoundOut::Column(1),
        BoundOut::Column(0),
        BoundOut::Column(2),
    ];
    Ok(List::from_vec(Vec::from_slice(alloc, &outs)?))
}

fn values(alloc: Global, a: Value, b: Value, c: Value) -> Result<List<Value>, Memory>
    ensures { IfOk result (λ values. length values ≡ 3) }
{
    let mut values = List::new(alloc);
    values.push(a)?;
    values.push(b)?;
    values.push(c)?;
    Ok(values)
}

#[test]
fn a_query_has_its_lines(rt: HostRuntime) -> Result<(), Fail> {
    let alloc = rt.alloc();
    let outs = outs(alloc)?;
    let mut lines = Lines::new(alloc, &outs, &columns(alloc)?)?;
    let text = Value::Text(Chars::of(alloc, b"it's")?);
    lines.add(&values(alloc, Value::Int(-12), text, Value::Day(20_040_229))?)?;
    lines.add(&values(alloc, Value::Null, Value::Null, Value::Null)?)?;
    let wanted = b"B|A|C\n'it''s'|-12|2004-02-29\nNULL|NULL|NULL\n2 ROWS\n";
    assert_eq!(rt; lines.close()?.bytes(), wanted.as_slice());
    Ok(())
}

/// SELECT B, A, C FROM T
fn query(alloc: Global) -> Result<BoundSelect, Memory>
    ensures plain { IfOk result (λ query. IsTrue (is_plain_select query)) }
    ensures outs { IfOk result (λ query. IsTrue (are_outs_within 3 query.outs)) }
{
    Ok(BoundSelect {
        table: 0,
        outs: outs(alloc)?,
        pred: None,
        group: List::new(alloc),
        order: List::new(alloc),
        first: None,
    })
}

fn table(alloc: Global) -> Result<TableDef, Memory>
    ensures { IfOk result (λ table. length table.columns ≡ 3) }
{
    Ok(TableDef {
        number: 0,
        name: name(alloc, b"T")?,
        columns: columns(alloc)?,
        dims: List::new(alloc),
        indexes: List::new(alloc),
        next: 0,
        roots: Roots {
            map: 0,
            composite: 0,
            dims: List::new(alloc),
        },
    })
}

fn one_row(alloc: Global) -> Result<List<Row>, Memory>
    ensures { IfOk result (λ rows. IsTrue (are_rows_wide 3 rows)) }
{
    let mut rows = List::new(alloc);
    let values = values(alloc, Value::Int(7), Value::Null, Value::Null)?;
    rows.push(Row { number: 5, values })?;
    Ok(rows)
}

#[test]
fn rows_that_were_found_are_shown(rt: HostRuntime) -> Result<(), Fail> {
    let alloc = rt.alloc();
    let lines = select_lines(alloc, &query(alloc)?, &table(alloc)?, &one_row(alloc)?)?;
    assert_eq!(rt; lines.bytes(), b"B|A|C\nNULL|7|NULL\n1 ROWS\n".as_slice());
    Ok(())
}

/// SELECT B, COUNT(*), SUM(A) FROM T GROUP BY B ORDER BY B DESC
fn counting(alloc: Global) -> Result<BoundSelect, Memory>
    ensures { IfOk result (λ query. IsTrue (are_outs_within 3 query.outs)) }
{
    let outs = [BoundOut::Column(1), BoundOut::CountAll, BoundOut::Sum(0)];
    let key = KeyPart {
        column: 1,
        descending: true,
    };
    Ok(BoundSelect {
        table: 0,
        outs: List::from_vec(Vec::from_slice(alloc, &outs)?),
        pred: None,
        group: List::from_vec(Vec::from_slice(alloc, &[1])?),
        order: List::from_vec(Vec::from_slice(alloc, &[key])?),
        first: None,
    })
}

/// (a, NULL, NULL), (b, 'x', NULL) and (c, NULL, NULL)
fn three_rows(alloc: Global, a: i64, b: i64, c: i64) -> Result<List<Row>, Memory>
    ensures { IfOk result (λ rows. IsTrue (are_rows_wide 3 rows)) }
{
    let x = Value::Text(Chars::of(alloc, b"x")?);
    let first = values(alloc, Value::Int(a), Value::Null, Value::Null)?;
    let second = values(alloc, Value::Int(b), x, Value::Null)?;
    let third = values(alloc, Value::Int(c), Value::Null, Value::Null)?;
    let mut rows = List::new(alloc);
    rows.push(Row {
        number: 2,
        values: first,
    })?;
    rows.push(Row {
        number: 3,
        values: second,
    })?;
    rows.push(Row {
        number: 8,
        values: third,
    })?;
    Ok(rows)
}

#[test]
fn rows_that_share_lines_are_counted(rt: HostRuntime) -> Result<(), Fail> {
    let alloc = rt.alloc();
    let rows = three_rows(alloc, 7, 5, -2)?;
    let lines = select_lines(alloc, &counting(alloc)?, &table(alloc)?, &rows)?;
    let wanted = b"B|COUNT(*)|SUM(A)\nNULL|2|5\n'x'|1|5\n2 ROWS\n";
    assert_eq!(rt; lines.bytes(), wanted.as_slice());
    Ok(())
}

#[test]
fn a_sum_outside_bigint_is_named(rt: HostRuntime) -> Result<(), Fail> {
    let alloc = rt.alloc();
    let rows = three_rows(alloc, i64::MAX, 5, 1)?;
    match select_lines(alloc, &counting(alloc)?, &table(alloc)?, &rows) {
        Err(AnswerFault::Overflow(name)) => {
            assert_eq!(rt; name.0.bytes(), b"A".as_slice());
            Ok(())
        }
        _ => Err(Fail::new("no overflow")),
    }
}

#[test]
fn blocks_are_told(rt: HostRuntime) -> Result<(), Fail> {
    let line = blocks_line(rt.alloc(), 2, 0, 15)?;
    assert_eq!(rt; line.bytes(), b"USED 2 FREE 0 PENDING 15\n".as_slice());
    Ok(())
}

#[test]
fn a_plan_is_told(rt: HostRuntime) -> Result<(), Fail> {
    let lines = explain_text(rt.alloc(), b"MIXED", 2, 10)?;
    assert_eq!(rt;
        lines.bytes(),
        b"PLAN MIXED\nBLOCKS 2\nROWS 10\n".as_slice()
    );
    Ok(())
}
