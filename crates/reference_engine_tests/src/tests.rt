use answer_text::outcome_bytes;
use mdc_ast::{
    ColumnText, InsertItem, KeyText, Name, Operand, OutList, PlanMode, RolloutMode, Select,
    SetItem, SetText, Sign, Stmt, TypeText,
};
use mdc_values::{Chars, List, Literal, Memory};
use reference_engine::Engine;
use std::alloc::Global;
use std::test::Fail;

/// An engine, and what it has answered.
#[derive(Drop)]
struct Told {
    engine: Engine,
    text: Vec<u8>,
}

impl Told {
    fn new(alloc: Global) -> Result<Told, Memory> {
        let engine = Engine::new(alloc)?;
        let text = Vec::new(alloc);
        Ok(Told { engine, text })
    }

    fn run(&mut self, stmt: &Stmt) -> Result<(), Memory> {
        match self.engine.execute(stmt)? {
            Some(outcome) => outcome_bytes(&outcome, &mut self.text),
            None => Ok(self.text.extend_from_slice(b"PAGES\n")?),
        }
    }
}

fn named(alloc: Global, name: &[u8]) -> Result<Name, Memory> {
    Ok(Name(Chars::of(alloc, name)?))
}

fn integer(alloc: Global, name: &[u8]) -> Result<ColumnText, Memory> {
    Ok(ColumnText {
        name: named(alloc, name)?,
        ty: TypeText::Integer,
        not_null: false,
        made: None,
    })
}

/// `CREATE TABLE T (A INTEGER, B INTEGER)` organized by A.
fn create(alloc: Global) -> Result<Stmt, Memory> {
    let mut columns = List::new(alloc);
    columns.push(integer(alloc, b"A")?)?;
    columns.push(integer(alloc, b"B")?)?;
    let mut dim = List::new(alloc);
    dim.push(named(alloc, b"A")?)?;
    let mut dims = List::new(alloc);
    dims.push(dim)?;
    Ok(Stmt::CreateTable {
        name: named(alloc, b"T")?,
        columns,
        dims,
    })
}

fn number(size: u64) -> Literal {
    Literal::Number {
        negative: false,
        size,
    }
}

/// `INSERT INTO T VALUES (a, b)`.
fn insert(alloc: Global, a: u64, b: u64) -> Result<Stmt, Memory> {
    let mut items = List::new(alloc);
    items.push(InsertItem::Literal(number(a)))?;
    items.push(InsertItem::Literal(number(b)))?;
    let mut rows = List::new(alloc);
    rows.push(items)?;
    Ok(Stmt::Insert {
        table: named(alloc, b"T")?,
        columns: None,
        rows,
    })
}

fn set(alloc: Global, column: &[u8], item: SetItem) -> Result<SetText, Memory> {
    Ok(SetText {
        column: named(alloc, column)?,
        item,
    })
}

/// `UPDATE T SET A = B, B = A`.
fn exchange(alloc: Global) -> Result<Stmt, Memory> {
    let mut sets = List::new(alloc);
    let b = SetItem::One(Operand::Column(named(alloc, b"B")?));
    sets.push(set(alloc, b"A", b)?)?;
    let a = SetItem::One(Operand::Column(named(alloc, b"A")?));
    sets.push(set(alloc, b"B", a)?)?;
    Ok(Stmt::Update {
        table: named(alloc, b"T")?,
        sets,
        pred: None,
    })
}

/// `UPDATE T SET A = A + 1`.
fn count_up(alloc: Global) -> Result<Stmt, Memory> {
    let mut sets = List::new(alloc);
    let a = Operand::Column(named(alloc, b"A")?);
    let sum = SetItem::Two(a, Sign::Plus, Operand::Literal(number(1)));
    sets.push(set(alloc, b"A", sum)?)?;
    Ok(Stmt::Update {
        table: named(alloc, b"T")?,
        sets,
        pred: None,
    })
}

/// `CREATE INDEX name ON T (column)`, or a UNIQUE one.
fn index(alloc: Global, name: &[u8], unique: bool, column: &[u8]) -> Result<Stmt, Memory> {
    let mut parts = List::new(alloc);
    parts.push(KeyText {
        column: named(alloc, column)?,
        descending: false,
    })?;
    Ok(Stmt::CreateIndex {
        name: named(alloc, name)?,
        unique,
        table: named(alloc, b"T")?,
        parts,
    })
}

/// `UPDATE T SET B = item`.
fn set_b(alloc: Global, item: SetItem) -> Result<Stmt, Memory> {
    let mut sets = List::new(alloc);
    sets.push(set(alloc, b"B", item)?)?;
    Ok(Stmt::Update {
        table: named(alloc, b"T")?,
        sets,
        pred: None,
    })
}

/// `UPDATE T SET B = 3 - B`.
fn turn_round(alloc: Global) -> Result<Stmt, Memory> {
    let b = Operand::Column(named(alloc, b"B")?);
    let rest = SetItem::Two(Operand::Literal(number(3)), Sign::Minus, b);
    set_b(alloc, rest)
}

/// `INSERT INTO T VALUES (5, NULL), (6, NULL)`.
fn insert_nulls(alloc: Global) -> Result<Stmt, Memory> {
    let mut rows = List::new(alloc);
    rows.push(with_null(alloc, 5)?)?;
    rows.push(with_null(alloc, 6)?)?;
    Ok(Stmt::Insert {
        table: named(alloc, b"T")?,
        columns: None,
        rows,
    })
}

fn with_null(alloc: Global, a: u64) -> Result<List<InsertItem>, Memory> {
    let mut items = List::new(alloc);
    items.push(InsertItem::Literal(number(a)))?;
    items.push(InsertItem::Literal(Literal::Null))?;
    Ok(items)
}

/// `SELECT * FROM table`.
fn all_of(alloc: Global, table: &[u8]) -> Result<Select, Memory> {
    Ok(Select {
        list: OutList::Star,
        table: named(alloc, table)?,
        pred: None,
        group: List::new(alloc),
        order: List::new(alloc),
        first: None,
    })
}

/// `SELECT * FROM T`.
fn query(alloc: Global) -> Result<Stmt, Memory> {
    Ok(Stmt::Query(all_of(alloc, b"T")?))
}

/// `EXPLAIN SELECT * FROM table`.
fn explain(alloc: Global, table: &[u8]) -> Result<Stmt, Memory> {
    Ok(Stmt::Explain(all_of(alloc, table)?))
}

/// An engine with table T and a row (a, b).
fn with_row(alloc: Global, a: u64, b: u64) -> Result<Told, Memory> {
    let mut told = Told::new(alloc)?;
    told.run(&create(alloc)?)?;
    told.run(&insert(alloc, a, b)?)?;
    Ok(told)
}

#[test]
fn an_update_sees_the_row_as_it_was(rt: HostRuntime) -> Result<(), Fail> {
    let alloc = rt.alloc();
    let mut told = with_row(alloc, 1, 2)?;
    told.run(&exchange(alloc)?)?;
    told.run(&query(alloc)?)?;
    let text = b"OK\n1 ROWS INSERTED\n1 ROWS UPDATED\nA|B\n2|1\n1 ROWS\n";
    assert_eq!(rt; told.text.as_slice(), text.as_slice());
    Ok(())
}

#[test]
fn a_refused_update_changes_no_row(rt: HostRuntime) -> Result<(), Fail> {
    let alloc = rt.alloc();
    let mut told = with_row(alloc, 5, 2)?;
    told.run(&insert(alloc, 2147483647, 1)?)?;
    told.run(&count_up(alloc)?)?;
    told.run(&query(alloc)?)?;
    let text =
        b"OK\n1 ROWS INSERTED\n1 ROWS INSERTED\nERROR 37 overflow in A\nA|B\n5|2\n2147483647|1\n2 ROWS\n";
    assert_eq!(rt; told.text.as_slice(), text.as_slice());
    Ok(())
}

#[test]
fn rows_come_behind_deleted_ones(rt: HostRuntime) -> Result<(), Fail> {
    let alloc = rt.alloc();
    let mut told = with_row(alloc, 1, 2)?;
    let table = named(alloc, b"T")?;
    told.run(&Stmt::Delete { table, pred: None })?;
    told.run(&insert(alloc, 3, 4)?)?;
    told.run(&query(alloc)?)?;
    let text = b"OK\n1 ROWS INSERTED\n1 ROWS DELETED\n1 ROWS INSERTED\nA|B\n3|4\n1 ROWS\n";
    assert_eq!(rt; told.text.as_slice(), text.as_slice());
    Ok(())
}

#[test]
fn a_place_is_used_again_without_its_rows(rt: HostRuntime) -> Result<(), Fail> {
    let alloc = rt.alloc();
    let mut told = with_row(alloc, 1, 2)?;
    told.run(&Stmt::DropTable(named(alloc, b"T")?))?;
    told.run(&query(alloc)?)?;
    told.run(&create(alloc)?)?;
    told.run(&query(alloc)?)?;
    let text = b"OK\n1 ROWS INSERTED\nOK\nERROR 21 no table T\nOK\nA|B\n0 ROWS\n";
    assert_eq!(rt; told.text.as_slice(), text.as_slice());
    Ok(())
}

#[test]
fn a_rollback_brings_back_the_rows_of_the_last_commit(rt: HostRuntime) -> Result<(), Fail> {
    let alloc = rt.alloc();
    let mut told = with_row(alloc, 1, 2)?;
    told.run(&Stmt::Begin)?;
    told.run(&insert(alloc, 3, 4)?)?;
    told.run(&count_up(alloc)?)?;
    told.run(&Stmt::Rollback)?;
    told.run(&query(alloc)?)?;
    told.run(&Stmt::Rollback)?;
    let text =
        b"OK\n1 ROWS INSERTED\nOK\n1 ROWS INSERTED\n2 ROWS UPDATED\nOK\nA|B\n1|2\n1 ROWS\nERROR 12 transaction state\n";
    assert_eq!(rt; told.text.as_slice(), text.as_slice());
    Ok(())
}

#[test]
fn a_commit_keeps_the_rows(rt: HostRuntime) -> Result<(), Fail> {
    let alloc = rt.alloc();
    let mut told = with_row(alloc, 1, 2)?;
    told.run(&Stmt::Begin)?;
    told.run(&Stmt::Begin)?;
    told.run(&exchange(alloc)?)?;
    told.run(&Stmt::Commit)?;
    told.run(&query(alloc)?)?;
    told.run(&Stmt::ListBlocks(named(alloc, b"T")?))?;
    told.run(&Stmt::ListBlocks(named(alloc, b"U")?))?;
    let text =
        b"OK\n1 ROWS INSERTED\nOK\nERROR 12 transaction state\n1 ROWS UPDATED\nOK\nA|B\n2|1\n1 ROWS\nPAGES\nERROR 21 no table U\n";
    assert_eq!(rt; told.text.as_slice(), text.as_slice());
    Ok(())
}

#[test]
fn a_name_of_an_index_is_free_once_it_is_dropped(rt: HostRuntime) -> Result<(), Fail> {
    let alloc = rt.alloc();
    let mut told = with_row(alloc, 1, 2)?;
    told.run(&index(alloc, b"V", false, b"B")?)?;
    told.run(&index(alloc, b"V", false, b"A")?)?;
    told.run(&Stmt::DropIndex(named(alloc, b"V")?))?;
    told.run(&Stmt::DropIndex(named(alloc, b"V")?))?;
    let text = b"OK\n1 ROWS INSERTED\nOK\nERROR 24 index V exists\nOK\nERROR 25 no index V\n";
    assert_eq!(rt; told.text.as_slice(), text.as_slice());
    Ok(())
}

#[test]
fn keys_are_judged_as_the_statement_leaves_them(rt: HostRuntime) -> Result<(), Fail> {
    let alloc = rt.alloc();
    let mut told = with_row(alloc, 1, 1)?;
    told.run(&index(alloc, b"U", true, b"B")?)?;
    told.run(&insert(alloc, 1, 2)?)?;
    told.run(&turn_round(alloc)?)?;
    told.run(&set_b(alloc, SetItem::One(Operand::Literal(number(7))))?)?;
    told.run(&insert_nulls(alloc)?)?;
    told.run(&insert(alloc, 9, 2)?)?;
    told.run(&query(alloc)?)?;
    let text =
        b"OK\n1 ROWS INSERTED\nOK\n1 ROWS INSERTED\n2 ROWS UPDATED\nERROR 40 duplicate key in U\nERROR 40 duplicate key in U\nERROR 40 duplicate key in U\nA|B\n1|2\n1|1\n2 ROWS\n";
    assert_eq!(rt; told.text.as_slice(), text.as_slice());
    Ok(())
}

#[test]
fn a_unique_index_needs_keys_that_differ(rt: HostRuntime) -> Result<(), Fail> {
    let alloc = rt.alloc();
    let mut told = with_row(alloc, 1, 2)?;
    told.run(&insert(alloc, 3, 2)?)?;
    told.run(&index(alloc, b"U", true, b"B")?)?;
    told.run(&index(alloc, b"U", true, b"A")?)?;
    told.run(&insert(alloc, 3, 4)?)?;
    told.run(&Stmt::DropIndex(named(alloc, b"U")?))?;
    told.run(&insert(alloc, 3, 4)?)?;
    let text =
        b"OK\n1 ROWS INSERTED\n1 ROWS INSERTED\nERROR 40 duplicate key in U\nOK\nERROR 40 duplicate key in U\nOK\n1 ROWS INSERTED\n";
    assert_eq!(rt; told.text.as_slice(), text.as_slice());
    Ok(())
}

#[test]
fn explain_is_refused_as_its_query(rt: HostRuntime) -> Result<(), Fail> {
    let alloc = rt.alloc();
    let mut told = with_row(alloc, 1, 2)?;
    told.run(&explain(alloc, b"T")?)?;
    told.run(&explain(alloc, b"U")?)?;
    let text = b"OK\n1 ROWS INSERTED\nPAGES\nERROR 21 no table U\n";
    assert_eq!(rt; told.text.as_slice(), text.as_slice());
    Ok(())
}

#[test]
fn modes_are_set_in_transactions_too(rt: HostRuntime) -> Result<(), Fail> {
    let alloc = rt.alloc();
    let mut told = Told::new(alloc)?;
    told.run(&Stmt::Begin)?;
    told.run(&Stmt::SetPlan(PlanMode::Record))?;
    told.run(&Stmt::SetRollout(RolloutMode::None))?;
    told.run(&Stmt::Rollback)?;
    told.run(&Stmt::SetRollout(RolloutMode::Immediate))?;
    told.run(&Stmt::SetRollout(RolloutMode::Deferred))?;
    let text = b"OK\nOK\nOK\nOK\nOK\nERROR 14 not built\n";
    assert_eq!(rt; told.text.as_slice(), text.as_slice());
    Ok(())
}

#[test]
fn rows_stay_where_extents_are_given_back(rt: HostRuntime) -> Result<(), Fail> {
    let alloc = rt.alloc();
    let mut told = with_row(alloc, 1, 2)?;
    told.run(&Stmt::Reclaim(named(alloc, b"T")?))?;
    told.run(&Stmt::Reclaim(named(alloc, b"U")?))?;
    told.run(&query(alloc)?)?;
    let text = b"OK\n1 ROWS INSERTED\nOK\nERROR 21 no table U\nA|B\n1|2\n1 ROWS\n";
    assert_eq!(rt; told.text.as_slice(), text.as_slice());
    Ok(())
}
