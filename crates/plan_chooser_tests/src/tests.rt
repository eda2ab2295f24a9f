// Plans by hand, of a table whose dimensions are column 0, and columns 1 and 2 together; record indexes begin with columns 3 and 0.
use mdc_ast::{Atom, Cut, IndexDef, KeyPart, Name, PlanMode, Pred, Right, Roots, TableDef, Test};
use mdc_values::Value::Int;
use mdc_values::{Boxed, Chars, List, Memory, Op};
use plan_chooser::PlanWord::{Block, Mixed, Record, Scan};
use plan_chooser::{Plan, PlanWord, choose, word_of};
use std::alloc::Global;
use std::test::Fail;

/// A table of nothing.
fn bare(alloc: Global) -> TableDef {
    TableDef {
        number: 0,
        name: Name(Chars::from_vec(Vec::new(alloc))),
        columns: List::new(alloc),
        dims: List::new(alloc),
        indexes: List::new(alloc),
        next: 0,
        roots: Roots {
            map: 0,
            composite: 0,
            dims: List::new(alloc),
        },
    }
}

fn add_dimension(alloc: Global, dims: &mut List<List<u8>>, places: &[u8]) -> Result<(), Memory> {
    let mut dim = List::new(alloc);
    for place in places {
        dim.push(*place)?;
    }
    dims.push(dim)
}

fn add_index(alloc: Global, indexes: &mut List<IndexDef>, column: u8) -> Result<(), Memory> {
    let mut parts = List::new(alloc);
    parts.push(KeyPart {
        column,
        descending: false,
    })?;
    indexes.push(IndexDef {
        name: Name(Chars::from_vec(Vec::new(alloc))),
        unique: false,
        parts,
        root: 0,
    })
}

fn add_all(alloc: Global, def: &mut TableDef) -> Result<(), Memory> {
    add_dimension(alloc, &mut def.dims, &[0])?;
    add_dimension(alloc, &mut def.dims, &[1, 2])?;
    add_index(alloc, &mut def.indexes, 3)?;
    add_index(alloc, &mut def.indexes, 0)
}

fn table(alloc: Global) -> Result<TableDef, Memory> {
    let mut def = bare(alloc);
    add_all(alloc, &mut def)?;
    Ok(def)
}

/// The plan of a predicate in a mode.
fn chosen(
    alloc: Global,
    def: &TableDef,
    mode: PlanMode,
    pred: &Option<Pred>,
) -> Result<Plan, Fail> {
    if def.dims.len() > 4 {
        return Err(Fail::new("more dimensions than a table has"));
    }
    if def.indexes.len() > 8 {
        return Err(Fail::new("more record indexes than a table has"));
    }
    Ok(choose(alloc, def, mode, pred)?)
}

/// The word of a predicate's plan in a mode.
fn word_in(
    alloc: Global,
    def: &TableDef,
    mode: PlanMode,
    pred: &Option<Pred>,
) -> Result<PlanWord, Fail> {
    let plan = chosen(alloc, def, mode, pred)?;
    Ok(word_of(&plan))
}

/// The words of a predicate's plan in modes AUTO, BLOCK and RECORD.
fn are_words(
    alloc: Global,
    def: &TableDef,
    pred: &Option<Pred>,
    words: [PlanWord; 3],
) -> Result<(), Fail> {
    if word_in(alloc, def, PlanMode::Auto, pred)? != words[0] {
        return Err(Fail::new("AUTO"));
    }
    if word_in(alloc, def, PlanMode::Block, pred)? != words[1] {
        return Err(Fail::new("BLOCK"));
    }
    if word_in(alloc, def, PlanMode::Record, pred)? != words[2] {
        return Err(Fail::new("RECORD"));
    }
    Ok(())
}

fn has_words(alloc: Global, pred: Pred, words: [PlanWord; 3]) -> Result<(), Fail> {
    let def = table(alloc)?;
    are_words(alloc, &def, &Some(pred), words)
}

fn tested(column: u8, test: Test) -> Pred {
    Pred::Atom(Atom {
        column,
        negated: false,
        test,
    })
}

fn compared(column: u8, op: Op, number: i64) -> Pred {
    tested(column, Test::Compare(op, Right::Value(Int(number))))
}

fn and(alloc: Global, first: Pred, second: Pred) -> Result<Pred, Memory> {
    Ok(Pred::All(List::from_vec(vec![in alloc; first, second]?)))
}

fn or(alloc: Global, first: Pred, second: Pred) -> Result<Pred, Memory> {
    Ok(Pred::Any(List::from_vec(vec![in alloc; first, second]?)))
}

#[test]
fn a_dimension_column_asks_its_dimension(rt: HostRuntime) -> Result<(), Fail> {
    let alloc = rt.alloc();
    has_words(alloc, compared(0, Op::Equal, 1), [Block, Block, Record])?;
    // A column of a dimension of two; no record index begins with it.
    has_words(alloc, compared(2, Op::Equal, 1), [Block, Block, Scan])
}

#[test]
fn what_is_unequal_asks_no_record_index(rt: HostRuntime) -> Result<(), Fail> {
    let alloc = rt.alloc();
    has_words(alloc, compared(3, Op::Unequal, 1), [Scan, Scan, Scan])?;
    has_words(alloc, compared(0, Op::Unequal, 1), [Block, Block, Scan])
}

#[test]
fn an_and_takes_what_is_known(rt: HostRuntime) -> Result<(), Fail> {
    let alloc = rt.alloc();
    let both = and(alloc, compared(0, Op::Less, 3), compared(3, Op::Equal, 300))?;
    has_words(alloc, both, [Mixed, Block, Record])
}

#[test]
fn an_or_needs_each_part(rt: HostRuntime) -> Result<(), Fail> {
    let alloc = rt.alloc();
    let either = or(
        alloc,
        compared(0, Op::Equal, 1),
        compared(3, Op::Equal, 200),
    )?;
    has_words(alloc, either, [Mixed, Scan, Record])
}

#[test]
fn not_turns_an_or_round(rt: HostRuntime) -> Result<(), Fail> {
    let alloc = rt.alloc();
    let either = or(
        alloc,
        compared(0, Op::Equal, 1),
        compared(3, Op::AtLeast, 2),
    )?;
    has_words(
        alloc,
        Pred::Not(Boxed::new(alloc, either)?),
        [Mixed, Block, Record],
    )
}

/// The plan is the blocks of values of column 0 from a number up to another one, and below a third.
fn is_one_span(plan: &Plan) -> bool {
    match plan {
        Plan::Blocks(0, 0, span) => {
            matches!(&span.low, Cut::Before(Int(2))) && matches!(&span.high, Cut::Before(Int(5)))
        }
        _ => false,
    }
}

fn plans_one_span(alloc: Global, pred: &Option<Pred>) -> Result<bool, Fail> {
    let def = table(alloc)?;
    let plan = chosen(alloc, &def, PlanMode::Auto, pred)?;
    Ok(is_one_span(&plan))
}

#[test]
fn spans_of_one_column_under_an_and_are_one(rt: HostRuntime) -> Result<(), Fail> {
    let alloc = rt.alloc();
    let between = tested(0, Test::Between(Int(2), Int(9)));
    let pred = Some(and(alloc, between, compared(0, Op::Less, 5))?);
    if plans_one_span(alloc, &pred)? {
        return Ok(());
    }
    Err(Fail::new("the plan isn't one span"))
}

#[test]
fn no_predicate_scans(rt: HostRuntime) -> Result<(), Fail> {
    let alloc = rt.alloc();
    let def = table(alloc)?;
    are_words(alloc, &def, &None, [Scan, Scan, Scan])
}

#[test]
fn mode_scan_scans(rt: HostRuntime) -> Result<(), Fail> {
    let alloc = rt.alloc();
    let def = table(alloc)?;
    let pred = Some(compared(0, Op::Equal, 1));
    if word_in(alloc, &def, PlanMode::Scan, &pred)?.text() == b"SCAN".as_slice() {
        return Ok(());
    }
    Err(Fail::new("it doesn't scan"))
}
